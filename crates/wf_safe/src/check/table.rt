// Which modules have rows in a table.
ghost use Rattle.std.specs.Prelude.{◌≡◌, ◌↔◌, ◌<◌, IsTrue, length};
ghost use Rattle.wf_safe.specs.Settling.{AreSet, is_set};

use wf_spec::{Deps, Grammar, ModNo, ProdNo};

/// Whether a module has rows.
pub fn is_set(rows: &Deps, m: ModNo) -> bool
    requires { m.0 < length rows.now }
    ensures { result ≡ is_set rows.now m.0 }
{
    rows.rows(m).is_some()
}

/// Whether each module of a body has rows.
pub fn are_set(g: &Grammar, rows: &Deps, p: ProdNo) -> bool
    requires production { p.0 < length g.now.core.productions }
    requires one_each { length rows.now ≡ length g.now.core.modules }
    ensures { IsTrue result ↔ AreSet g.now.core p.0 rows.now }
{
    for q in g.production(p).positions() {
        if !is_set(rows, q.module) {
            return false;
        }
    }
    true
}

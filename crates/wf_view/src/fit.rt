// Whether flags and rows fit a grammar.
ghost use Rattle.std.specs.Prelude.{◌≡◌, ◌<◌, ◌≤◌, ◌^◌, ◌↔◌, [], ℕ, IsTrue, false, get_or, length, map};
ghost use Rattle.std.specs.List.{All};
ghost use Rattle.wf_view.specs.FitRows.{FitGrammar, FitModule};

use wf_spec::{Grammar, ModNo, low_bits};

/// Whether each row has no bit set past so many.
fn are_short(rows: &[u64], count: usize) -> bool
    requires { count ≤ 64 }
    ensures { IsTrue result ↔ All (λ r. r < 2 ^ count) rows.now }
{
    let most = low_bits(count);
    rows.iter().all(|row| *row <= most)
}

/// Whether rows fit a module that is not flagged.
fn unflagged_fits(g: &Grammar, m: ModNo, rows: &[u64]) -> bool
    requires { m.0 < length g.now.core.modules }
    ensures { IsTrue result ↔ FitModule g.now.core m.0 false rows.now }
{
    rows.len() == g.input_count(m) as usize && are_short(rows, g.output_count(m) as usize)
}

/// Whether a flag and rows fit a module.
fn module_fits(g: &Grammar, m: ModNo, flag: bool, rows: &[u64]) -> bool
    requires { m.0 < length g.now.core.modules }
    ensures { IsTrue result ↔ FitModule g.now.core m.0 flag rows.now }
{
    if flag {
        return g.is_composite(m) && rows.is_empty();
    }
    unflagged_fits(g, m, rows)
}

/// Whether each flag and its rows fit their module.
fn modules_fit(g: &Grammar, expanded: &[bool], rows: &[Vec<u64>]) -> bool
    requires flags { length expanded.now ≡ length g.now.core.modules }
    requires lists { length rows.now ≡ length g.now.core.modules }
    ensures { IsTrue result ↔ ((m : ℕ) → m < length g.now.core.modules →
        FitModule g.now.core m (get_or expanded.now m false) (get_or (map (λ r. r.items) rows.now) m [])) }
{
    for m in 0..g.modules().len() {
        if !module_fits(g, ModNo(m as u16), expanded[m], &rows[m]) {
            return false;
        }
    }
    true
}

/// Whether flags of modules to be expanded and rows of the others fit a grammar, so that `View::of_rows` makes a view of them.
///
/// Cost: one look at each module and at each row.
pub fn rows_fit(g: &Grammar, expanded: &[bool], rows: &[Vec<u64>]) -> bool
    ensures { IsTrue result ↔ FitGrammar g.now.core expanded.now (map (λ r. r.items) rows.now) }
{
    let count = g.modules().len();
    expanded.len() == count && rows.len() == count && modules_fit(g, expanded, rows)
}

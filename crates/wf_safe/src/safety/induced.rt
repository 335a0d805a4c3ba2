// The rows of one seen, expanded module.
ghost use Rattle.std.specs.Prelude.{◌<◌, ◌+◌, length, OnOk};
ghost use Rattle.wf_model.specs.Grammar.{head_of};
ghost use Rattle.wf_model.specs.WellFormed.{IsWellFormed};
ghost use Rattle.wf_body.specs.Matrices.{HaveRows};
ghost use Rattle.wf_check.specs.Proper.{IsRankingOf};
ghost use Rattle.wf_safe.specs.Inducing.{AreInducedBefore, GetsInduced};

use crate::safety::expanded::is_seen_expanded;
use bool_mat::MatPool;
use std::alloc::{AllocError, Global};
use wf_body::induced;
use wf_check::Proper;
use wf_spec::{Deps, Grammar, ModNo, ProdNo};
use wf_view::GrammarView;

/// Sets the rows of the head of a production to the pairs that the body joins. Fails only for want of memory.
///
/// Cost: one pass through the body.
fn set_induced(alloc: Global, g: &Grammar, p: ProdNo, deps: &mut Deps) -> Result<(), AllocError>
    requires production { p.0 < length g.now.core.productions }
    requires rows { HaveRows g.now.core p.0 deps.old }
    requires head { head_of g.now.core p.0 < length deps.old }
    ensures { OnOk result (GetsInduced g.now.core p.0 deps.old deps.new) }
{
    let mut pool = MatPool::new(alloc);
    let number = induced(alloc, g, p, deps, &mut pool)?;
    let matrix = pool.get(number);
    deps.set(g.production(p).head(), matrix.rows)
}

/// Sets the rows of a module, if it is seen and expanded and has this rank, to the pairs that its chosen production induces. Fails only for want of memory.
pub fn induce(
    alloc: Global,
    v: GrammarView<'_>,
    proper: &Proper,
    rank: u32,
    m: ModNo,
    deps: &mut Deps,
) -> Result<(), AllocError>
    requires ranking { IsRankingOf v.grammar.now.core proper.now }
    requires formed { IsWellFormed v.grammar.now.core }
    requires module_no { m.0 < length v.grammar.now.core.modules }
    requires before { AreInducedBefore v.grammar.now.core v.view.now.core proper.now rank m.0 deps.old }
    ensures { OnOk result (AreInducedBefore v.entry.grammar.now.core v.entry.view.now.core proper.now rank (m.0 + 1) deps.new) }
{
    if !is_seen_expanded(v.view, m) || proper.rank(m) != rank {
        return Ok(());
    }
    set_induced(alloc, v.grammar, proper.choice(m), deps)
}

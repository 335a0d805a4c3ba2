// Matrices of the second production of the twisting grammar: L to w:W, l:L, v:W, where W exchanges its two ports and L keeps them.
ghost use Rattle.std.specs.Prelude.{◌≡◌, ◌<◌, length, IfSome, IsTrue};
ghost use Rattle.wf_model.specs.Grammar.{body_of, head_of};
ghost use Rattle.wf_body.specs.Matrices.{HaveRows};
ghost use Rattle.wf_safe.specs.Full.{AreFullRows};
ghost use Rattle.wf_safe.specs.Inducing.{IsSeenExpanded};

use bool_mat::{MatNo, MatPool};
use std::alloc::{AllocError, Global};
use std::test::Fail;
use wf_body::{between, between_all, induced, into_position, out_of_position};
use wf_safe::FullDeps;
use wf_samples::{TWISTING, safe, sample};
use wf_spec::{Deps, Grammar, PosNo, ProdNo, Step};
use wf_view::GrammarView;

const KEPT: &[u64] = &[0b01, 0b10];

const EXCHANGED: &[u64] = &[0b10, 0b01];

const UNJOINED: &[u64] = &[0, 0];

/// Whether the view shows the body of a production: its head is seen and expanded.
fn is_shown(sight: GrammarView<'_>, p: ProdNo) -> bool
    requires production { p.0 < length sight.grammar.now.core.productions }
    ensures { IsTrue result → IsSeenExpanded sight.entry.grammar.now.core sight.entry.view.now.core (head_of sight.entry.grammar.now.core p.0) }
{
    let head = sight.grammar.production(p).head();
    sight.view.seen(head) && sight.view.expanded(head)
}

/// The pairs that the modules have, if there is a second production, which has three positions, and the view shows its body.
fn pairs<'a>(sight: GrammarView<'_>, full: &'a FullDeps) -> Option<&'a Deps>
    requires full { AreFullRows sight.grammar.now.core sight.view.now.core full.now }
    ensures second { IfSome result (λ d. 1 < length sight.entry.grammar.now.core.productions) }
    ensures three { IfSome result (λ d. length (body_of sight.entry.grammar.now.core 1) ≡ 3) }
    ensures rows { IfSome result (λ d. HaveRows sight.entry.grammar.now.core 1 d.now) }
{
    let g = sight.grammar;
    if g.productions().len() < 2 {
        return None;
    }
    let p = ProdNo(1);
    if g.production(p).positions().len() != 3 || !is_shown(sight, p) {
        return None;
    }
    Some(full.deps())
}

/// Pushes the matrices of the second production: that of the head, those from the head to l and from l to the head, that from w to v, and those from w to each position.
fn push_all(alloc: Global, g: &Grammar, deps: &Deps, pool: &mut MatPool) -> Result<(), AllocError>
    requires second { 1 < length g.now.core.productions }
    requires three { length (body_of g.now.core 1) ≡ 3 }
    requires rows { HaveRows g.now.core 1 deps.now }
{
    let production = ProdNo(1);
    let [w, l, v] = [PosNo(0), PosNo(1), PosNo(2)];
    let at_w = Step {
        production,
        position: w,
    };
    let at_l = Step {
        production,
        position: l,
    };
    let _whole = induced(alloc, g, production, deps, pool)?;
    let _into = into_position(alloc, g, at_l, deps, pool)?;
    let _out_of = out_of_position(alloc, g, at_l, deps, pool)?;
    let _across = between(alloc, g, at_w, v, deps, pool)?;
    let _all = between_all(alloc, g, at_w, deps, pool)?;
    Ok(())
}

/// Whether these are the rows of all matrices of a pool.
fn are_rows(pool: &MatPool, wanted: &[&[u64]]) -> bool {
    if pool.len() != wanted.len() {
        return false;
    }
    for k in 0..wanted.len() {
        if pool.get(MatNo(k)).rows != wanted[k] {
            return false;
        }
    }
    true
}

/// Whether the matrices of the second production have these rows.
fn are_pushed(alloc: Global, wanted: &[&[u64]]) -> Result<bool, Fail> {
    let s = sample(alloc, TWISTING)?;
    let safe = safe(alloc, &s, "{}")?;
    let mut pool = MatPool::new(alloc);
    let Some(deps) = pairs(safe.sight(), safe.full()) else {
        return Err(Fail::new("a second production of three positions"));
    };
    push_all(alloc, safe.grammar(), deps, &mut pool)?;
    Ok(are_rows(&pool, wanted))
}

#[test]
fn ports_are_exchanged_and_kept(rt: HostRuntime) -> Result<(), Fail> {
    let wanted = [KEPT, EXCHANGED, EXCHANGED, KEPT, UNJOINED, KEPT, KEPT];
    assert!(rt; are_pushed(rt.alloc(), &wanted)?);
    Ok(())
}

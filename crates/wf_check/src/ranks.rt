// The ranks of modules, found in rounds.
ghost use Rattle.std.specs.Prelude.{◌≡◌, ◌<◌, ◌≤◌, ◌+◌, ℕ, None, Bool, length, map, get_or, is_some, IfOk, MatchOption};
ghost use Rattle.std.specs.List.{list_all};
ghost use Rattle.wf_model.specs.Lists.{IsIn};
ghost use Rattle.wf_model.specs.WellFormed.{IsWellFormed};
ghost use Rattle.wf_spec.specs.Bodies.{modules_at};
ghost use Rattle.wf_check.specs.Improper.{IsProductive, IsLeastWithout, OfAllComposite};
ghost use Rattle.wf_check.specs.Ranks.{AreRanks, AreRanksBelow, IsRound, IsMoreRanked, IsLower, is_below};

use crate::composite::least_unmarked;
use std::alloc::{AllocError, Global};
use wf_spec::{Grammar, ModNo, ProdNo, Production};

fn is_below(rank: Option<u32>, n: u32) -> bool
    ensures { result ≡ is_below n rank }
{
    rank.is_some_and(|k| k < n)
}

/// Whether all modules of a body have ranks below `n`.
fn is_lower(rule: &Production, ranks: &[Option<u32>], n: u32) -> bool
    requires { (k : ℕ) → IsIn k (modules_at rule.now.core.positions) → k < length ranks.now }
    ensures { result ≡ list_all (λ k. is_below n (get_or ranks.now k None)) (modules_at rule.now.core.positions) }
{
    for q in rule.positions() {
        if !is_below(ranks[q.module.0 as usize], n) {
            return false;
        }
    }
    true
}

/// The least production of a module whose body has modules of ranks below `n` alone.
///
/// Cost: at most one look at each position of the module's bodies.
pub fn least_lower(g: &Grammar, m: ModNo, ranks: &[Option<u32>], n: u32) -> Option<ProdNo>
    requires module_no { m.0 < length g.now.core.modules }
    requires one_each { length ranks.now ≡ length g.now.core.modules }
    ensures { MatchOption result ((p : ℕ) → ¬ IsLower g.now.core ranks.now n m.0 p)
        (λ p. IsLower g.now.core ranks.now n m.0 p.0 × ((q : ℕ) → IsLower g.now.core ranks.now n m.0 q → p.0 ≤ q)) }
{
    for p in g.alternatives(m) {
        if is_lower(g.production(*p), ranks, n) {
            return Some(*p);
        }
    }
    None
}

/// Gives a module the rank `n` if it has no rank and a body with ranks below `n` alone, and tells whether it has.
fn try_module(g: &Grammar, ranks: &mut [Option<u32>], m: ModNo, n: u32) -> bool
    requires module_no { m.0 < length g.now.core.modules }
    requires positive { 0 < n }
    requires round { IsRound g.now.core n m.0 ranks.old }
    requires formed { IsWellFormed g.now.core }
    ensures round { IsRound g.now.core n (m.0 + 1) ranks.new }
    ensures more { IsMoreRanked ranks.old result ranks.new }
{
    let place = m.0 as usize;
    if ranks[place].is_some() || least_lower(g, m, ranks, n).is_none() {
        return false;
    }
    ranks[place] = Some(n);
    true
}

/// Gives the rank `n` to the modules that have it, where all lower ranks are given, and tells whether there are any.
fn round(g: &Grammar, ranks: &mut [Option<u32>], n: u32) -> bool
    requires positive { 0 < n }
    requires below { AreRanksBelow g.now.core n ranks.old }
    ensures below { AreRanksBelow g.now.core (n + 1) ranks.new }
    ensures more { IsMoreRanked ranks.old result ranks.new }
    ensures formed { IsWellFormed g.now.core }
{
    let mut some = false;
    for m in 0..g.modules().len() {
        some |= try_module(g, ranks, ModNo(m as u16), n);
    }
    some
}

/// The rank 0 of each atomic module.
fn atomic_ranks(alloc: Global, g: &Grammar) -> Result<Vec<Option<u32>>, AllocError>
    ensures { IfOk result (λ ranks. AreRanksBelow g.now.core 1 ranks.items) }
{
    let mut ranks = Vec::new(alloc);
    for m in 0..g.modules().len() {
        let is_atomic = !g.is_composite(ModNo(m as u16));
        ranks.push(is_atomic.then_some(0))?;
    }
    Ok(ranks)
}

/// The rank of each module, and `None` where a module has none: 0 for an atomic module, and for a composite one the least number, over its productions, of one more than the greatest rank in the body. Fails only for want of memory.
///
/// Cost: at most as many rounds as there are modules, and in each at most one look at each position of the bodies of modules that have no rank yet: with 1,024 modules and bodies whose lengths have squares of sum 65,536, about 8 million looks.
pub fn ranks(alloc: Global, g: &Grammar) -> Result<Vec<Option<u32>>, AllocError>
    ensures { IfOk result (λ ranks. AreRanks g.now.core ranks.items) }
{
    let mut ranks = atomic_ranks(alloc, g)?;
    let mut n = 1;
    while round(g, &mut ranks, n) {
        n += 1;
    }
    Ok(ranks)
}

fn ranked(alloc: Global, ranks: &[Option<u32>]) -> Result<Vec<bool>, AllocError>
    ensures { IfOk result (λ marks. marks.items ≡ map is_some ranks.now) }
{
    ranks.iter().map(|rank| rank.is_some()).collect(alloc)
}

/// The least composite module that has no rank, or `None` where there is none. Fails only for want of memory.
pub fn unproductive(
    alloc: Global,
    g: &Grammar,
    ranks: &[Option<u32>],
) -> Result<Option<ModNo>, AllocError>
    requires { AreRanks g.now.core ranks.now }
    ensures { IfOk result (λ o. MatchOption o (OfAllComposite g.now.core (IsProductive g.now.core))
        (λ m. IsLeastWithout g.now.core (IsProductive g.now.core) m.0)) }
{
    let marks = ranked(alloc, ranks)?;
    Ok(least_unmarked(g, &marks))
}

// An order of the positions of a body.
ghost use Rattle.std.specs.Prelude.{◌<◌, ◌≤◌, ℕ, length, IfOk, MatchOption};
ghost use Rattle.wf_body.specs.Order.{AreFeeders, IsNext, IsOrder, positions_of};

use crate::word::{add, is_within};
use bool_mat::{has_column, single};
use std::alloc::{AllocError, Global};
use wf_spec::{Grammar, PosNo, ProdNo};

/// For each position the word of those from which edges lead to it.
fn feeders(g: &Grammar, p: ProdNo) -> [u64; 64]
    requires { p.0 < length g.now.core.productions }
    ensures { AreFeeders g.now.core p.0 result }
{
    let edges = g.production(p).edges();
    let mut words = [0u64; 64];
    for e in edges {
        add(&mut words, e.to.pos.0 as usize, single(e.from.pos.0 as u32));
    }
    words
}

/// The first of so many positions that is not placed, and all of whose feeders are.
fn next(feeders: &[u64; 64], placed: u64, count: usize) -> Option<PosNo>
    requires { count ≤ 64 }
    ensures { MatchOption result ((k : ℕ) → k < count → IsNext feeders.now placed k → ⊥) (λ k. (k.0 < count) × IsNext feeders.now placed k.0) }
{
    for k in 0..count {
        if !has_column(placed, k as u32) && is_within(feeders[k], placed) {
            return Some(PosNo(k as u8));
        }
    }
    None
}

/// The positions of a body, in an order in which each edge leads to a later one.
///
/// Cost: one look at each edge, and for each position one look at each. Fails only for want of memory.
pub fn order(alloc: Global, g: &Grammar, p: ProdNo) -> Result<Vec<PosNo>, AllocError>
    requires { p.0 < length g.now.core.productions }
    ensures { IfOk result (λ order. IsOrder g.now.core p.0 (positions_of order.items)) }
{
    let feeders = feeders(g, p);
    let count = g.production(p).positions().len();
    let mut order = Vec::new(alloc);
    let mut placed = 0u64;
    while let Some(k) = next(&feeders, placed, count) {
        order.push(k)?;
        placed |= single(k.0 as u32);
    }
    Ok(order)
}

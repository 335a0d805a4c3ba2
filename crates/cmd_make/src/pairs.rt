// Pairs of items, as draws pick them.
ghost use Rattle.std.specs.Prelude.{◌≡◌, ◌<◌, true, map, IfOk};
ghost use Rattle.wf_gen.specs.Draws.{drawn};
ghost use Rattle.cmd_make.specs.DrillText.{pair_count, pair_drawn, pairs_drawn};
ghost use Rattle.cmd_make.specs.HeldLabels.{pair_of};

use std::alloc::{AllocError, Global};
use wf_gen::Gen;

/// Two items, by their numbers in the order of making.
#[derive(Clone, Copy, Drop)]
pub(crate) struct Pair {
    pub(crate) first: usize,
    pub(crate) second: usize,
}

/// How many pairs are drawn among so many items.
pub(crate) fn pair_count(items: usize) -> u32
    ensures { result ≡ pair_count items }
{
    if items == 0 { 0 } else { 1000 }
}

/// The next pair of so many items, by two draws.
fn draw_pair(generator: &mut Gen<'_>, items: usize) -> Pair
    requires ended { generator.old.ended ≡ true }
    requires some { 0 < items }
    ensures pair { pair_of result ≡ pair_drawn items generator.old.draws }
    ensures draws { generator.new.draws ≡ drawn (drawn generator.old.draws) }
    ensures ended { generator.new.ended ≡ true }
{
    let first = generator.draw() as usize % items;
    let second = generator.draw() as usize % items;
    Pair { first, second }
}

/// So many pairs of so many items, as the draws after the last event pick them. Fails only for want of memory.
pub(crate) fn draw_pairs(
    alloc: Global,
    generator: &mut Gen<'_>,
    count: u32,
    items: usize,
) -> Result<Vec<Pair>, AllocError>
    requires ended { generator.old.ended ≡ true }
    requires some { 0 < count → 0 < items }
    ensures { IfOk result (λ pairs. map pair_of pairs.items ≡ pairs_drawn count items generator.old.draws) }
{
    let mut pairs = Vec::with_capacity(alloc, count as usize)?;
    for _ in 0..count {
        let pair = draw_pair(generator, items);
        pairs.push(pair)?;
    }
    Ok(pairs)
}

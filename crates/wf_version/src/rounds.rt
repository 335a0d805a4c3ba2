// The cycles of a grammar of which all steps are by productions of a version.
ghost use Rattle.std.specs.Prelude.{◌≡◌, ◌↔◌, ◌<◌, length, get_or, IfOk, IsTrue};
ghost use Rattle.wf_recur.specs.Cycles.{round_at};
ghost use Rattle.wf_version.specs.Rounds.{AreMarksOf, ContinuesWithin, RoundWithin};

use std::alloc::{AllocError, Global};
use wf_recur::{CycleNo, Linear};
use wf_spec::Version;

/// Whether the continuing step of the module at a place of a cycle is by a production of the version.
fn step_is_within(g: Linear<'_>, c: CycleNo, place: u16, version: Version) -> bool
    requires cycle { c.0 < length g.cycles.now.rounds }
    requires place { place < length (round_at g.cycles.now c.0) }
    ensures { IsTrue result ↔ ContinuesWithin g.entry.grammar.now.core version.productions (get_or (round_at g.entry.cycles.now c.0) place 0) }
{
    let _modules = g.grammar.modules();
    match g.cycles.on(g.cycles.at(c, place)) {
        Some(on) => on.step.production.0 < version.productions,
        // Not met: each module of a cycle stands in the table.
        None => false,
    }
}

/// Whether all steps of a cycle are by productions of the version.
///
/// Cost: one look at each module of the cycle.
fn round_is_within(g: Linear<'_>, c: CycleNo, version: Version) -> bool
    requires cycle { c.0 < length g.cycles.now.rounds }
    ensures { IsTrue result ↔ RoundWithin g.entry.grammar.now.core version.productions (round_at g.entry.cycles.now c.0) }
{
    for place in 0..g.cycles.length(c) {
        if !step_is_within(g, c, place, version) {
            return false;
        }
    }
    true
}

/// A mark for each cycle, set where all steps of the cycle are by productions of the version. Fails only for want of memory.
///
/// Cost: one look at each module on a cycle.
pub fn marks(alloc: Global, g: Linear<'_>, version: Version) -> Result<Vec<bool>, AllocError>
    ensures { IfOk result (λ list. AreMarksOf g.entry.grammar.now.core version.productions g.entry.cycles.now list.items) }
{
    let mut list = Vec::new(alloc);
    for c in 0..g.cycles.count() {
        list.push(round_is_within(g, CycleNo(c), version))?;
    }
    Ok(list)
}

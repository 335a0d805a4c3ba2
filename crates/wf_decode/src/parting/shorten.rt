// Chains that are longer than others.
ghost use Rattle.std.specs.Prelude.{◌≡◌, ◌+◌, ◌%◌, ◌<◌, ℕ, false, length, drop};
ghost use Rattle.wf_recur.specs.Cycles.{step_of};
ghost use Rattle.wf_decode.specs.HeldLegs.{AreHeld};
ghost use Rattle.wf_decode.specs.LegsAfter.{AreLeftAfter, HasChain};

use crate::leg::Leg;
use wf_label::turns;
use wf_spec::Step;
use wf_vlabel::ViewLabel;

/// The place behind another on a cycle of so many modules.
#[inline(always)]
fn next_place(place: u64, length: u64) -> u64
    requires { place < length }
    ensures { result ≡ (place + 1) % length }
{
    if place + 1 == length { 0 } else { place + 1 }
}

/// Takes so many continuing steps, and the one after them, off a longer chain, and gives the last of them.
///
/// Cost: a few look-ups in the tables, however many steps there are.
pub(crate) fn shorten(vl: &ViewLabel<'_>, legs: &mut [Leg], at: usize, count: u32) -> Step
    requires at { at < length legs.old }
    requires held { (m : ℕ) × AreHeld vl.now m false (drop at legs.old) }
    requires longer { HasChain count (drop at legs.old) }
    ensures left { (m : ℕ) → AreHeld vl.now m false (drop at legs.old) → AreLeftAfter vl.now m (drop at legs.old) count (step_of result) (drop at legs.new) }
    ensures kept { drop (at + 1) legs.new ≡ drop (at + 1) legs.old }
    ensures length { length legs.new ≡ length legs.old }
{
    let cycles = vl.cycles();
    let Leg::Chain {
        cycle,
        place,
        count: many,
    } = legs[at]
    else {
        unreachable!()
    };
    let length = cycles.length(cycle) as u64;
    let turned = turns(place as u64 + count as u64, length);
    let here = turned.1;
    let next = next_place(here, length);
    prove!(here < 65536 && next < 65536);
    let Some(on) = cycles.on(cycles.at(cycle, here as u16)) else {
        unreachable!()
    };
    legs[at] = Leg::Chain {
        cycle,
        place: next as u16,
        count: many - count - 1,
    };
    on.step
}

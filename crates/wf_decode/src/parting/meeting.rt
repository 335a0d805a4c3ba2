// Steps of two addresses after their common beginning.
ghost use Rattle.std.specs.Prelude.{◌≡◌, ◌<◌, ◌≤◌, ◌+◌, ℕ, false, length, drop};
ghost use Rattle.wf_recur.specs.Cycles.{step_of};
ghost use Rattle.wf_decode.specs.HeldLegs.{AreHeld};
ghost use Rattle.wf_decode.specs.LegsAfter.{LeavesOfBoth};

use super::next_step::next_step;
use super::shorten::shorten;
use crate::leg::Leg;
use wf_spec::Step;
use wf_vlabel::ViewLabel;

/// A step of each of two addresses, and the numbers of the legs after them.
#[derive(Clone, Copy)]
pub(crate) struct Meeting {
    pub(crate) first: Step,
    pub(crate) first_from: usize,
    pub(crate) second: Step,
    pub(crate) second_from: usize,
}

/// Takes one step of each of two addresses at one module, after as many continuing steps of each as both have. Of two chains of different numbers the longer is shortened, and no other leg is changed.
pub(crate) fn meet(
    vl: &ViewLabel<'_>,
    first: &mut [Leg],
    i: usize,
    second: &mut [Leg],
    j: usize,
) -> Meeting
    requires i { i < length first.old }
    requires j { j < length second.old }
    requires held { (m : ℕ) × AreHeld vl.now m false (drop i first.old) × AreHeld vl.now m false (drop j second.old) }
    ensures left { LeavesOfBoth vl.now (drop i first.old) (step_of result.first) (drop result.first_from first.new) (drop j second.old) (step_of result.second) (drop result.second_from second.new) }
    ensures first_kept { drop (result.first_from + 1) first.new ≡ drop (result.first_from + 1) first.old }
    ensures second_kept { drop (result.second_from + 1) second.new ≡ drop (result.second_from + 1) second.old }
    ensures first_length { length first.new ≡ length first.old }
    ensures second_length { length second.new ≡ length second.old }
    ensures first_within { result.first_from ≤ length first.old }
    ensures second_within { result.second_from ≤ length second.old }
    ensures first_onward { i ≤ result.first_from }
    ensures second_onward { j ≤ result.second_from }
    ensures onward { (i + j < result.first_from + result.second_from) }
{
    let a = next_step(vl, first, i);
    let b = next_step(vl, second, j);
    if a.count < b.count {
        let step = shorten(vl, second, j, a.count);
        return Meeting {
            first: a.step,
            first_from: a.after,
            second: step,
            second_from: j,
        };
    }
    if b.count < a.count {
        let step = shorten(vl, first, i, b.count);
        return Meeting {
            first: step,
            first_from: i,
            second: b.step,
            second_from: b.after,
        };
    }
    Meeting {
        first: a.step,
        first_from: a.after,
        second: b.step,
        second_from: b.after,
    }
}

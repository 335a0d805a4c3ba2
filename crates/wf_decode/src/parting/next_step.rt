// The next step of an address.
ghost use Rattle.std.specs.Prelude.{◌<◌, ◌≤◌, ℕ, false, length, drop};
ghost use Rattle.wf_recur.specs.Cycles.{step_of};
ghost use Rattle.wf_decode.specs.HeldLegs.{AreHeld};
ghost use Rattle.wf_decode.specs.LegsAfter.{HasChain, LeavesAfter};

use crate::leg::Leg;
use wf_spec::Step;
use wf_vlabel::ViewLabel;

/// The next leg of an address that is a single step, how many continuing steps come before it, and the number of the leg after it.
#[derive(Clone, Copy)]
pub(crate) struct NextStep {
    pub(crate) count: u32,
    pub(crate) step: Step,
    pub(crate) after: usize,
}

/// The next single step of the legs from a number on. A chain is always followed by one.
pub(crate) fn next_step(vl: &ViewLabel<'_>, legs: &[Leg], at: usize) -> NextStep
    requires at { at < length legs.now }
    requires held { (m : ℕ) × AreHeld vl.now m false (drop at legs.now) }
    ensures left { LeavesAfter vl.now (drop at legs.now) result.count (step_of result.step) (drop result.after legs.now) }
    ensures chain { (n : ℕ) → n < result.count → HasChain n (drop at legs.now) }
    ensures onward { at < result.after }
    ensures within { result.after ≤ length legs.now }
{
    // Chains are continuing steps, since it is the label of a view.
    let _label = vl.grammar();
    match legs[at] {
        Leg::Into { step } => NextStep {
            count: 0,
            step,
            after: at + 1,
        },
        Leg::Chain { count, .. } => {
            let Leg::Into { step } = legs[at + 1] else {
                unreachable!()
            };
            NextStep {
                count,
                step,
                after: at + 2,
            }
        }
    }
}

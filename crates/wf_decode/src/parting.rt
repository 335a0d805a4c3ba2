// Where two addresses part.
ghost use Rattle.std.specs.Prelude.{◌≡◌, false, length};
ghost use Rattle.wf_decode.specs.HeldLegs.{AreHeld};
ghost use Rattle.wf_decode.specs.Parting.{IsParted};

mod meeting;
mod next_step;
mod shorten;

use crate::leg::Leg;
use meeting::meet;
use wf_spec::Step;
use wf_vlabel::ViewLabel;

/// How two addresses part.
pub(crate) enum Parted {
    /// By different productions of one instance.
    Clash,
    /// By steps to different positions of one body; of each address the legs from a number on are left after its step.
    Across {
        first: Step,
        first_from: usize,
        second: Step,
        second_from: usize,
    },
    /// The first ends, and of the second the legs from this number on are left.
    Down {
        second_from: usize,
    },
    /// The second ends, and of the first the legs from this number on are left.
    Up {
        first_from: usize,
    },
}

/// Finds where two addresses part. Of two chains of different numbers the longer goes on with one continuing step, and what is left of it is held in its place, the first of the legs that are left; no other of these is changed.
///
/// It takes no memory. Cost: one look at each leg of the common beginning.
pub(crate) fn part(vl: &ViewLabel<'_>, first: &mut [Leg], second: &mut [Leg]) -> Parted
    requires first { AreHeld vl.now vl.now.grammar.start false first.old }
    requires second { AreHeld vl.now vl.now.grammar.start false second.old }
    ensures parted { IsParted vl.now first.old second.old result first.new second.new }
    ensures first_length { length first.new ≡ length first.old }
    ensures second_length { length second.new ≡ length second.old }
{
    // The grammar of a view label is strictly linear.
    let _linear = vl.grammar();
    let mut i = 0;
    let mut j = 0;
    while i < first.len() && j < second.len() {
        let met = meet(vl, first, i, second, j);
        if met.first.production != met.second.production {
            return Parted::Clash;
        }
        if met.first.position != met.second.position {
            return Parted::Across {
                first: met.first,
                first_from: met.first_from,
                second: met.second,
                second_from: met.second_from,
            };
        }
        i = met.first_from;
        j = met.second_from;
    }
    if i < first.len() {
        return Parted::Up { first_from: i };
    }
    Parted::Down { second_from: j }
}

// Legs of addresses.
use wf_recur::CycleNo;
use wf_spec::Step;

/// A leg of an address: one step, or so many continuing steps from the module at a place of a cycle.
#[derive(Clone, Copy)]
pub(crate) enum Leg {
    Into {
        step: Step,
    },
    Chain {
        cycle: CycleNo,
        place: u16,
        count: u32,
    },
}

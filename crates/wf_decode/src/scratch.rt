// Room for decisions.
ghost use Rattle.std.specs.Prelude.{◌≡◌, ◌≤◌, length, IfOk};
ghost use Rattle.wf_decode.specs.Reading.{most_legs};

use crate::leg::Leg;
use std::alloc::{AllocError, Global};
use std::marker::Model;
use wf_recur::CycleNo;
use wf_vlabel::ViewLabel;

/// Room for the legs of two labels. It is made once, and then decisions take no memory.
#[derive(Drop)]
pub struct Scratch {
    pub(crate) first: Vec<Leg>,
    pub(crate) second: Vec<Leg>,
}

impl Model for Scratch {
    ghost use Rattle.std.specs.Prelude.{◌≡◌, ℕ, length};

    ghost Value = { ℕ };

    ghost view = { λ s. length s.first.items };

    ghost invariant = { λ s. length s.second.items ≡ length s.first.items };
}

/// Room for the legs of one label of the grammar of a view label. Fails only for want of memory.
pub(crate) fn no_legs(alloc: Global, vl: &ViewLabel<'_>) -> Result<Vec<Leg>, AllocError>
    ensures { IfOk result (λ legs. length legs.items ≡ most_legs vl.now.grammar) }
{
    let empty = Leg::Chain {
        cycle: CycleNo(0),
        place: 0,
        count: 0,
    };
    let legs = vec![in alloc; empty; 2 * vl.grammar().modules().len()]?;
    Ok(legs)
}

impl Scratch {
    /// Room for two labels of the grammar of a view label. Fails only for want of memory.
    pub fn for_view(alloc: Global, vl: &ViewLabel<'_>) -> Result<Scratch, AllocError>
        ensures { IfOk result (λ s. most_legs vl.now.grammar ≤ s) }
    {
        let first = no_legs(alloc, vl)?;
        let second = no_legs(alloc, vl)?;
        Ok(Scratch { first, second })
    }
}

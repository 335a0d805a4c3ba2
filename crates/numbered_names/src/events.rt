// Events of numbered instances.
ghost use Rattle.std.specs.Prelude.{◌≡◌, ◌<◌, ◌+◌, ◌^◌, IfOk};
ghost use Rattle.wf_model.specs.declared.event.Event.TheVariants.{Start, Expand};
ghost use Rattle.numbered_names.specs.Names.{numbered_name, numbered_names};

use crate::names;
use std::alloc::{AllocError, Global};
use wf_model::{Event, ProdNo};

/// The event that starts a run with the instance of number 0. Fails only for want of memory.
pub fn start_event(alloc: Global) -> Result<Event, AllocError>
    ensures { IfOk result (λ e. e ≡ Start (numbered_name 0)) }
{
    let name = names::numbered_name(alloc, 0)?;
    Ok(Event::Start { name })
}

/// The event by which the instance of a number is expanded: its `count` children are numbered from `first` on. Fails only for want of memory.
pub fn expand_event(
    alloc: Global,
    number: u32,
    production: ProdNo,
    first: u32,
    count: usize,
) -> Result<Event, AllocError>
    requires { first + count < 2 ^ 32 }
    ensures { IfOk result (λ e. e ≡ Expand (numbered_name number) production.0 (numbered_names first count)) }
{
    let instance = names::numbered_name(alloc, number)?;
    let names = names::numbered_names(alloc, first, count)?;
    Ok(Event::Expand {
        instance,
        production: u64::from(production.0),
        names,
    })
}

// Entries and exits, by the ports of the head.
ghost use Rattle.std.specs.Prelude.{ℕ, ◌<◌, IfOk, map};
ghost use Rattle.wf_model.specs.Lists.{IsIn, AllDiffer};
ghost use Rattle.wf_model.specs.Meaning.{inner_of};
ghost use Rattle.wf_form.specs.Assembling.{exit_at, AreByPort};
ghost use Rattle.wf_form.specs.Wiring.{entry_of};

use crate::wiring::{Entry, Exit};
use std::alloc::{AllocError, Global};
use wf_model::{Inner, PortNo, PosNo};

const ORIGIN: Inner = Inner {
    pos: PosNo(0),
    port: PortNo(0),
};

/// Where the entry from each input of the head leads.
pub fn entries_by_port(
    alloc: Global,
    ports: usize,
    entries: &[Entry],
) -> Result<Vec<Inner>, AllocError>
    requires within { (k : ℕ) → IsIn k (map (λ e. e.port.0) entries.now) → k < ports }
    requires differ { AllDiffer (map (λ e. e.port.0) entries.now) }
    ensures { IfOk result (λ ends. AreByPort ports (map entry_of entries.now) (map inner_of ends.items)) }
{
    let mut ends = vec![in alloc; ORIGIN; ports]?;
    for e in entries {
        ends[e.port.0 as usize] = e.to;
    }
    Ok(ends)
}

/// Where the exit to each output of the head comes from.
pub fn exits_by_port(alloc: Global, ports: usize, exits: &[Exit]) -> Result<Vec<Inner>, AllocError>
    requires within { (k : ℕ) → IsIn k (map (λ e. e.port.0) exits.now) → k < ports }
    requires differ { AllDiffer (map (λ e. e.port.0) exits.now) }
    ensures { IfOk result (λ ends. AreByPort ports (map exit_at exits.now) (map inner_of ends.items)) }
{
    let mut ends = vec![in alloc; ORIGIN; ports]?;
    for e in exits {
        ends[e.port.0 as usize] = e.from;
    }
    Ok(ends)
}

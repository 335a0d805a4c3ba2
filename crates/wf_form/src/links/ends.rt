// The ends of links at ports.
ghost use Rattle.std.specs.Prelude.{◌≡◌, map, IfOk};
ghost use Rattle.wf_model.specs.Meaning.{inner_of};
ghost use Rattle.wf_form.specs.Wiring.{fed_by, used_by, entered_by, left_by, in_head};

use crate::wiring::Wiring;
use std::alloc::{AllocError, Global};
use wf_model::{Inner, PosNo};

/// The inputs of positions to which the edges and the entries lead.
pub fn targets(alloc: Global, one: &Wiring) -> Result<Vec<Inner>, AllocError>
    ensures { IfOk result (λ v. map inner_of v.items ≡ fed_by one.now) }
{
    let mut ends = Vec::new(alloc);
    for edge in &one.edges {
        ends.push(edge.to)?;
    }
    for entry in &one.entries {
        ends.push(entry.to)?;
    }
    Ok(ends)
}

/// The outputs of positions from which the edges and the exits lead.
pub fn sources(alloc: Global, one: &Wiring) -> Result<Vec<Inner>, AllocError>
    ensures { IfOk result (λ v. map inner_of v.items ≡ used_by one.now) }
{
    let mut ends = Vec::new(alloc);
    for edge in &one.edges {
        ends.push(edge.from)?;
    }
    for exit in &one.exits {
        ends.push(exit.from)?;
    }
    Ok(ends)
}

/// The inputs of the head that have entries, as ports of one position.
pub fn entered(alloc: Global, one: &Wiring) -> Result<Vec<Inner>, AllocError>
    ensures { IfOk result (λ v. map inner_of v.items ≡ map in_head (entered_by one.now)) }
{
    let mut ends = Vec::new(alloc);
    for entry in &one.entries {
        ends.push(Inner {
            pos: PosNo(0),
            port: entry.port,
        })?;
    }
    Ok(ends)
}

/// The outputs of the head that have exits, as ports of one position.
pub fn left(alloc: Global, one: &Wiring) -> Result<Vec<Inner>, AllocError>
    ensures { IfOk result (λ v. map inner_of v.items ≡ map in_head (left_by one.now)) }
{
    let mut ends = Vec::new(alloc);
    for exit in &one.exits {
        ends.push(Inner {
            pos: PosNo(0),
            port: exit.port,
        })?;
    }
    Ok(ends)
}

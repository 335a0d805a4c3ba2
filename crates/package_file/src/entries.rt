// The loops of a package: their entries by number.
ghost use Rattle.std.specs.Prelude.{◌≡◌, IfOk, IfErr, MatchOption, option_map};
ghost use Rattle.wf_model.specs.Steps.{step_of};
ghost use Rattle.package_model.specs.Loops.{AreGoodLoops};
ghost use Rattle.package_file.specs.Packed.{said_step, said_entries, IsBadUnless};
ghost use Rattle.package_file.specs.Numbers.{HasSmallNumbers, AreNumbered};

use crate::fault::PackFault;
use crate::parts::LoopPart;
use std::alloc::{AllocError, Global};
use wf_accept::Accepted;
use wf_loops::LoopEntry;
use wf_model::{Name, PosNo, ProdNo, Step};

/// The step of an entry; None where a number of it is larger than those of the steps of any grammar.
fn step(part: &LoopPart) -> Option<Step>
    ensures { MatchOption result (HasSmallNumbers (said_step part.now) → ⊥) (λ s. step_of s ≡ said_step part.now) }
{
    let production = part.production;
    let position = part.position;
    if production > u16::MAX as u64 || position > u8::MAX as u64 {
        return None;
    }
    Some(Step {
        production: ProdNo(production as u16),
        position: PosNo(position as u8),
    })
}

/// The entries of loops; None where one has a number that is larger than those of the steps of any grammar.
fn numbered(alloc: Global, loops: &[LoopPart]) -> Result<Option<Vec<LoopEntry>>, AllocError>
    ensures { IfOk result (λ o. AreNumbered loops.now (option_map (λ v. v.items) o)) }
{
    let mut entries = Vec::new(alloc);
    let mut left = loops;
    while let [first, rest @ ..] = left {
        let Some(step) = step(first) else {
            return Ok(None);
        };
        let name = Name::copied(alloc, first.module.bytes())?;
        entries.push(LoopEntry::new(name, step))?;
        left = rest;
    }
    Ok(Some(entries))
}

/// The entries of loops, where these can be good loops of an accepted grammar: their numbers are as small as those of its steps.
///
/// Errors: BadPackage where they are not; NoMemory where memory was refused. Cost: a copy of each name.
pub fn small_entries(
    alloc: Global,
    accepted: &Accepted,
    loops: &[LoopPart],
) -> Result<Vec<LoopEntry>, PackFault>
    ensures entries { IfOk result (λ v. v.items ≡ said_entries loops.now) }
    ensures refused { IfErr result (λ f. IsBadUnless (AreGoodLoops accepted.now.grammar.core (said_entries loops.now)) f) }
{
    let _formed = accepted.grammar();
    let Some(entries) = numbered(alloc, loops)? else {
        return Err(PackFault::BadPackage);
    };
    Ok(entries)
}

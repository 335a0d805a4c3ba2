// A whole file, as the first part of a stage.
ghost use Rattle.std.specs.Prelude.{◌≤◌, IfOk, length};
ghost use Rattle.wf_stage.specs.Kinds.{kind_of};
ghost use Rattle.wf_stage.specs.Stages.{Holds, RefusesNone};
ghost use Rattle.wf_stage.specs.Promises.{Reads};

use crate::kind::FileKind;
use std::alloc::Global;
use wf_io::{ReadFault, Shelf, read_all};
use wf_message::{Refusal, Stop, refused_whole};

/// Reads a whole file of a kind. It is refused where it is too long for its kind.
///
/// Cost: linear in the bytes that are read.
pub fn read_file<H: Shelf>(
    alloc: Global,
    shelf: &mut H,
    name: &str,
    kind: FileKind,
) -> Result<Vec<u8>, Stop>
    ensures reads { Reads H.files H.readings H.faults H.at_last (kind_of kind) name.now Holds (λ v. v.items) RefusesNone shelf.old shelf.new result }
    ensures short { IfOk result (λ v. length v.items ≤ kind.most) }
{
    match read_all(alloc, shelf, name, kind.most) {
        Ok(bytes) => Ok(bytes),
        Err(ReadFault::TooLong) => Err(refused_whole(
            kind.place,
            Refusal::Named {
                name: kind.too_long,
            },
        )),
        Err(ReadFault::Fault) => Err(Stop::ReadFault { place: kind.place }),
        Err(ReadFault::NoMemory) => Err(Stop::NoMemory),
    }
}

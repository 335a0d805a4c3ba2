// PACKAGE as a stage: from bytes to a package.
ghost use Rattle.std.specs.Prelude.{codes, IfOk, IfErr};
ghost use Rattle.wf_message.specs.Endings.{end_of};
ghost use Rattle.wf_stage.specs.Stages.{Declines, OfWhole};
ghost use Rattle.wf_stage.specs.Promises.{Reads};
ghost use Rattle.cmd_share.specs.PackageTold.{package_kind, package_value, TellsPackage, RefusesPackage};

use package_file::{PackFault, Package, read_package_with_key};
use std::alloc::Global;
use wf_inputs::named;
use wf_io::Shelf;
use wf_message::{Place, Stop, refused_whole};
use wf_stage::{FileKind, read_file};

const PACKAGE: FileKind = FileKind {
    place: Place { word: b"package" },
    most: 134217728,
    too_long: b"TooLong",
};

/// The package that bytes tell, whose names are hashed with this key.
fn package_of_bytes(alloc: Global, key: u64, bytes: &[u8]) -> Result<Package, Stop>
    ensures ok { IfOk result (λ p. TellsPackage bytes.now (package_value p)) }
    ensures declines { IfErr result (λ e. Declines (codes "package") (OfWhole RefusesPackage bytes.now) (end_of e)) }
{
    match read_package_with_key(alloc, key, bytes) {
        Ok(read) => {
            let _held = read.grammar();
            Ok(read)
        }
        Err(PackFault::NoMemory) => Err(Stop::NoMemory),
        Err(fault) => Err(refused_whole(PACKAGE.place, named(fault.name()))),
    }
}

/// The package in a file.
///
/// Refused with the first that there is of: TooLong, NotJson, NotPackage and BadPackage. `NoMemory` may come at any time.
pub fn package_stage<H: Shelf>(alloc: Global, shelf: &mut H, name: &str) -> Result<Package, Stop>
    ensures reads { Reads H.files H.readings H.faults H.at_last package_kind name.now TellsPackage package_value (OfWhole RefusesPackage) shelf.old shelf.new result }
{
    let bytes = read_file(alloc, shelf, name, PACKAGE)?;
    let key = shelf.hash_key();
    package_of_bytes(alloc, key, &bytes)
}

// Reading a whole file.
ghost use Rattle.std.specs.Prelude.{◌≡◌, ◌<◌, ◌≤◌, ◌+◌, ◌++◌, ℕ, true, false, List, length, Option, Some, IfOk, OnOk, IsErrOf};
ghost use Rattle.wf_io.specs.Told.{File, Rose, Begins};
ghost use Rattle.wf_io.specs.Readings.{IsOnward, IsReadOn, IsReadOnce};
ghost use Rattle.wf_io.specs.declared.whole.ReadFault.TheVariants.{Fault, NoMemory};

use crate::limits::PIECE;
use crate::outside::{Failed, Shelf};
use std::alloc::{AllocError, Global};
use thiserror::Error;

/// Why a file is not read whole, in the order of trial.
#[derive(Clone, Copy, Debug, PartialEq, Eq, Error)]
pub enum ReadFault {
    /// The file has more bytes than are allowed.
    #[error("the file is too long")]
    TooLong,
    /// A call of the shelf failed, and its count of faults rose.
    #[error("reading failed")]
    Fault,
    /// Memory is wanting.
    #[error("out of memory")]
    NoMemory,
}

impl From<AllocError> for ReadFault {
    ghost from_gives = { λ _ e. e ≡ NoMemory };

    fn from(_: AllocError) -> ReadFault {
        ReadFault::NoMemory
    }
}

impl From<Failed> for ReadFault {
    ghost from_gives = { λ _ e. e ≡ Fault };

    fn from(_: Failed) -> ReadFault {
        ReadFault::Fault
    }
}

/// A buffer of this length.
fn buffer(alloc: Global, size: usize) -> Result<Vec<u8>, AllocError>
    ensures { IfOk result (λ v. length v.items ≡ size) }
{
    let mut chunk = Vec::new(alloc);
    chunk.resize(size, 0)?;
    Ok(chunk)
}

/// Reads the next piece of a file behind the bytes that are there. False is its end.
fn more<H: Shelf>(
    shelf: &mut H,
    name: &str,
    most: u64,
    chunk: &mut [u8],
    bytes: &mut Vec<u8>,
) -> Result<bool, ReadFault>
    requires room { 0 < length chunk.old }
    requires short { length bytes.old.items ≤ most }
    requires begun { Begins (H.files shelf.old) name.now bytes.old.items }
    requires onward { IsOnward name.now (length bytes.old.items) (H.readings shelf.old) }
    ensures moved { (count : ℕ) × IsReadOn name.now (length bytes.old.items) count (H.readings shelf.old) (H.readings shelf.new) ×
        IfOk result (λ is_more. length bytes.new.items ≡ length bytes.old.items + count) }
    ensures same { H.files shelf.new ≡ H.files shelf.old }
    ensures later { H.faults shelf.old ≤ H.faults shelf.new }
    ensures count { OnOk result (H.faults shelf.new ≡ H.faults shelf.old) }
    ensures short { OnOk result (length bytes.new.items ≤ most) }
    ensures longer { IfOk result (λ is_more. is_more ≡ true → length bytes.old.items < length bytes.new.items) }
    ensures begun { OnOk result (Begins (H.files shelf.old) name.now bytes.new.items) }
    ensures end { IfOk result (λ is_more. is_more ≡ false → bytes.new.items ≡ bytes.old.items
        × ((f : List ℕ → File) → H.files shelf.old ≡ Some f → ((f name.now).bytes ≡ bytes.new.items) × ((f name.now).broken ≡ false))) }
    ensures too_long { IsErrOf result ReadFault.TooLong → (f : List ℕ → File) → H.files shelf.old ≡ Some f → most < length (f name.now).bytes }
    ensures too_long_count { IsErrOf result ReadFault.TooLong → H.faults shelf.new ≡ H.faults shelf.old }
    ensures fault { IsErrOf result ReadFault.Fault → Rose (H.faults shelf.old) (H.faults shelf.new) (H.at_last shelf.new) }
    ensures broken { IsErrOf result ReadFault.Fault → (f : List ℕ → File) → H.files shelf.old ≡ Some f
        → ((f name.now).bytes ≡ bytes.old.items) × ((f name.now).broken ≡ true) }
    ensures no_memory_count { IsErrOf result ReadFault.NoMemory → H.faults shelf.new ≡ H.faults shelf.old }
{
    let done = bytes.len();
    let count = shelf.read_at(name, done as u64, chunk)?;
    if count == 0 {
        return Ok(false);
    }
    if count as u64 > most - done as u64 {
        return Err(ReadFault::TooLong);
    }
    bytes.extend_from_slice(&chunk[..count])?;
    Ok(true)
}

/// The whole file `name` of a shelf, where it has at most `most` bytes.
///
/// Of a shelf that tells its files it gives exactly the file's bytes. TooLong comes where the file has more than `most`
/// bytes, broken or not; Fault where it is broken and has at most `most` bytes. NoMemory may come at any time. Each byte is
/// asked for once, from the beginning of the file onward.
///
/// Cost: time linear in the bytes that are read, in pieces of 65,536 bytes. Takes memory for the file and one piece.
pub fn read_all<H: Shelf>(
    alloc: Global,
    shelf: &mut H,
    name: &str,
    most: u64,
) -> Result<Vec<u8>, ReadFault>
    ensures ok { IfOk result (λ v. (f : List ℕ → File) → H.files shelf.old ≡ Some f
        → (v.items ≡ (f name.now).bytes) × ((f name.now).broken ≡ false) × (length (f name.now).bytes ≤ most)) }
    ensures short { IfOk result (λ v. length v.items ≤ most) }
    ensures once { IsReadOnce name.now (H.readings shelf.old) (H.readings shelf.new) }
    ensures count { OnOk result (H.faults shelf.new ≡ H.faults shelf.old) }
    ensures same { H.files shelf.new ≡ H.files shelf.old }
    ensures later { H.faults shelf.old ≤ H.faults shelf.new }
    ensures too_long { IsErrOf result ReadFault.TooLong → (f : List ℕ → File) → H.files shelf.old ≡ Some f → most < length (f name.now).bytes }
    ensures too_long_count { IsErrOf result ReadFault.TooLong → H.faults shelf.new ≡ H.faults shelf.old }
    ensures fault { IsErrOf result ReadFault.Fault → Rose (H.faults shelf.old) (H.faults shelf.new) (H.at_last shelf.new) }
    ensures broken { IsErrOf result ReadFault.Fault → (f : List ℕ → File) → H.files shelf.old ≡ Some f
        → ((f name.now).broken ≡ true) × (length (f name.now).bytes ≤ most) }
    ensures no_memory_count { IsErrOf result ReadFault.NoMemory → H.faults shelf.new ≡ H.faults shelf.old }
{
    let mut room = buffer(alloc, PIECE)?;
    let chunk = room.as_mut_slice();
    let mut bytes = Vec::new(alloc);
    while more(shelf, name, most, chunk, &mut bytes)? {}
    Ok(bytes)
}

// Names of a letter and a number.
ghost use Rattle.std.specs.Prelude.{◌≡◌, IfOk};
ghost use Rattle.package_model.specs.Packages.{numbered, numbered_names};

use itoa::Buffer;
use std::alloc::{AllocError, Global};
use wf_spec::{Name, Seq};

/// A name: a letter and the decimal digits of a number. Fails only for want of memory.
pub(crate) fn numbered(alloc: Global, letter: u8, number: u16) -> Result<Name, AllocError>
    ensures { IfOk result (λ n. n ≡ numbered letter number) }
{
    let mut digits = Buffer::new();
    let mut bytes = Vec::with_capacity(alloc, 6)?;
    bytes.push(letter)?;
    bytes.extend_from_slice(digits.format(number).as_bytes())?;
    Ok(Name::from_vec(bytes))
}

/// So many such names, numbered from 0. Fails only for want of memory.
pub(crate) fn numbered_names(alloc: Global, letter: u8, count: u16) -> Result<Seq<Name>, AllocError>
    ensures { IfOk result (λ names. names ≡ numbered_names letter count) }
{
    let mut names = Vec::with_capacity(alloc, usize::from(count))?;
    for k in 0..count {
        let name = numbered(alloc, letter, k)?;
        names.push(name)?;
    }
    Ok(Seq::from_vec(names))
}

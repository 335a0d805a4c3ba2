// The names of numbered instances.
ghost use Rattle.std.specs.Prelude.{◌≡◌, ◌<◌, ◌+◌, ◌^◌, IfOk};
ghost use Rattle.numbered_names.specs.Names.{numbered_name, numbered_names};

use itoa::Buffer;
use std::alloc::{AllocError, Global};
use wf_model::{Name, Seq};

/// The name of the instance of a number: `n` and the number in decimal digits. Fails only for want of memory.
pub fn numbered_name(alloc: Global, number: u32) -> Result<Name, AllocError>
    ensures { IfOk result (λ n. n ≡ numbered_name number) }
{
    let mut digits = Buffer::new();
    let mut bytes = Vec::with_capacity(alloc, 11)?;
    bytes.extend_from_slice(b"n")?;
    bytes.extend_from_slice(digits.format(number).as_bytes())?;
    Ok(Name::from_vec(bytes))
}

/// The names of so many instances, from a number on. Fails only for want of memory.
pub fn numbered_names(alloc: Global, first: u32, count: usize) -> Result<Seq<Name>, AllocError>
    requires { first + count < 2 ^ 32 }
    ensures { IfOk result (λ names. names ≡ numbered_names first count) }
{
    let mut names = Vec::with_capacity(alloc, count)?;
    for k in 0..count {
        let name = numbered_name(alloc, first + k as u32)?;
        names.push(name)?;
    }
    Ok(Seq::from_vec(names))
}

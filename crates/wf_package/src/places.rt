// Numbers in order, and their places.
ghost use Rattle.std.specs.Prelude.{◌≡◌, ◌≤◌, ◌++◌, ◌∷◌, [], ℕ, List, cond, length, OnOk, IfOk};
ghost use Rattle.wf_package.specs.Parts.{ArePlaces};

use std::alloc::{AllocError, Global};

/// Numbers in order, and for each number below some bound how many of them are less: the place of a number that is one of them.
#[derive(Drop)]
pub(crate) struct PlacedNumbers {
    pub numbers: Vec<u16>,
    pub places: Vec<u16>,
}

/// Adds the place of a number, and the number itself if its flag is set.
fn add_number(
    numbers: &mut Vec<u16>,
    places: &mut Vec<u16>,
    k: u16,
    flag: bool,
) -> Result<(), AllocError>
    requires { length numbers.old.items ≤ 1024 }
    ensures numbers { OnOk result (numbers.new.items ≡ numbers.old.items ++ cond {A = List ℕ} flag (k ∷ []) []) }
    ensures places { OnOk result (places.new.items ≡ places.old.items ++ length numbers.old.items ∷ []) }
{
    places.push(numbers.len() as u16)?;
    if flag {
        numbers.push(k)?;
    }
    Ok(())
}

/// The numbers whose flags are set, with their places. Fails only for want of memory.
pub(crate) fn flagged(alloc: Global, flags: &[bool]) -> Result<PlacedNumbers, AllocError>
    requires { length flags.now ≤ 1024 }
    ensures { IfOk result (λ p. ArePlaces flags.now p) }
{
    let mut places = Vec::with_capacity(alloc, flags.len())?;
    let mut numbers = Vec::new(alloc);
    for k in 0..flags.len() {
        add_number(&mut numbers, &mut places, k as u16, flags[k])?;
    }
    Ok(PlacedNumbers { numbers, places })
}

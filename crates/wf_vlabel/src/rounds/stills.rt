// The first squares that are their own squares.
ghost use Rattle.std.specs.Prelude.{◌≡◌, ◌+◌, ◌≤◌, IfOk};
ghost use Rattle.decode_model.specs.Legs.{still};
ghost use Rattle.wf_vlabel.specs.Groups.{HasGroup, matrix_of};
ghost use Rattle.wf_vlabel.specs.Stills.{AreStills, AreStillsAt};

use crate::groups::Groups;
use std::alloc::{AllocError, Global};

/// The number of the first square that is its own square, of those down from a module and of those up to it; 23, that of the last square, where none is.
#[derive(Clone, Copy)]
pub(crate) struct Stills {
    pub(crate) down: u8,
    pub(crate) up: u8,
}

/// The number of the first of 24 squares that is its own square, which stand from a place of a group on; 23 where none is.
///
/// Cost: at most 23 comparisons of matrices.
fn first_still(squares: &Groups, key: usize, from: usize) -> u8
    requires has { HasGroup squares.now key 48 }
    requires inside { from ≤ 24 }
    ensures { result ≡ still (λ k. matrix_of squares.now key (from + k)) }
{
    let mut k = 0;
    while k < 23 {
        let here = squares.matrix(key, from + k as usize);
        let next = squares.matrix(key, from + k as usize + 1);
        if here.rows == next.rows {
            return k;
        }
        k += 1;
    }
    23
}

/// The numbers for the squares of a module; any numbers where it has none.
fn stills_at(squares: &Groups, key: usize) -> Stills
    ensures { HasGroup squares.now key 48 → AreStillsAt squares.now key result }
{
    if !squares.has(key, 48) {
        return Stills { down: 0, up: 0 };
    }
    Stills {
        down: first_still(squares, key, 0),
        up: first_still(squares, key, 24),
    }
}

/// The numbers for the squares of each module. Fails only for want of memory.
///
/// Cost: for each module at most 46 comparisons of matrices.
pub(crate) fn stills_of(alloc: Global, squares: &Groups) -> Result<Vec<Stills>, AllocError>
    ensures { IfOk result (λ stills. AreStills squares.now stills.items) }
{
    let mut stills = Vec::new(alloc);
    for key in 0..squares.keys() {
        stills.push(stills_at(squares, key))?;
    }
    Ok(stills)
}

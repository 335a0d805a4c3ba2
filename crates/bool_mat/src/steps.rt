// Counted products of a row and a matrix.
ghost use Rattle.std.specs.Prelude.{◌≡◌, ℕ, ◌+◌, ◌<◌, ◌^◌};
ghost use Rattle.bool_mat.specs.Matrix.{IsUnion};

use crate::matrix::MatRef;
use crate::row::union;
use std::marker::Model;
use std::sync::ledger::{Blank, Book, Ledger, Share};

/// How many products of a row and a matrix were made with this counter. Only `row_times` counts. A counter takes no bytes when the program runs.
#[derive(Drop)]
pub struct Steps<L: Ledger> {
    book: Book<L>,
    share: Share<L>,
}

impl<L: Ledger> Model for Steps<L> {
    ghost Value = { ℕ };

    ghost view = { λ s. s.book.total };

    ghost invariant = { λ s. 0 < s.share.parts };
}

impl<L: Ledger> Steps<L> {
    /// A counter at 0, from a blank of the ledger `L` with at least one part.
    pub fn new(blank: Blank) -> Steps<L>
        requires name { blank.name ≡ L.name }
        requires parts { blank.parts ≡ L.parts }
        requires some { 0 < blank.parts }
        ensures { result ≡ 0 }
    {
        let (book, share) = blank.open::<L>();
        Steps { book, share }
    }

    // Counts one more.
    fn tick(&mut self)
        ensures { self.new ≡ self.old + 1 }
    {
        self.book.add(&mut self.share, 1);
    }
}

/// The union of the rows of `m` that `row` selects: it has a column exactly if one of them has it. A bit of `row` past the last row selects none.
///
/// It counts one step and takes no memory. Time linear in the number of bits that are 1 in `row`, at most 64 turns.
pub fn row_times<L: Ledger>(row: u64, m: MatRef<'_>, steps: &mut Steps<L>) -> u64
    ensures union { IsUnion row m.entry result }
    ensures within { result < 2 ^ m.entry.columns }
    ensures cost { steps.new ≡ steps.old + 1 }
{
    steps.tick();
    union(row, m.rows, m.columns)
}

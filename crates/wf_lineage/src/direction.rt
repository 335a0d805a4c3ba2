// In which direction items are listed.
ghost use Rattle.std.specs.Prelude.{◌≡◌};
ghost use Rattle.wf_lineage.specs.Directions.{side_of};

use wf_spec::Side;

/// Which items are listed for an item.
#[derive(Clone, Copy, Debug, PartialEq, Eq)]
pub enum Direction {
    /// Those on which it rests.
    Upstream,
    /// Those that rest on it.
    Downstream,
}

impl Direction {
    /// The side on which the label of the item is read: upstream it is asked where the item is produced, and downstream where it is consumed.
    pub fn side(self) -> Side
        ensures { result ≡ side_of self }
    {
        match self {
            Direction::Upstream => Side::Output,
            Direction::Downstream => Side::Input,
        }
    }
}

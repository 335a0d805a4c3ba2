// The items that one event makes, which stand one behind another.
ghost use Rattle.std.specs.Prelude.{◌≡◌, ◌<◌, ◌≤◌, ◌∷◌, length, get_or, map};
ghost use Rattle.wf_labeller.specs.Groups.{end_of};

use wf_run::NodeNo;
use wf_spec::ProdNo;

/// What makes the items of an event: the start of the run those of the ports of the root, and the expansion of an instance by a production those of the edges.
#[derive(Clone, Copy, Drop)]
pub(crate) enum Maker {
    Root,
    Expansion {
        production: ProdNo,
        instance: NodeNo,
    },
}

/// The items of an event: what makes them, and how many items the run has with them.
#[derive(Clone, Copy, Drop)]
pub(crate) struct Group {
    pub(crate) maker: Maker,
    pub(crate) end: usize,
}

// A run has millions of events.
const _: () = prove!(size_of::<Group>() == 16);

/// How many items stand before the group of a number.
pub(crate) fn begin_of(groups: &[Group], i: usize) -> usize
    requires { i ≤ length groups.now }
    ensures { result ≡ get_or (0 ∷ map end_of groups.now) i 0 }
{
    if i == 0 { 0 } else { groups[i - 1].end }
}

/// The number of a group in which an item stands, by halving what is left.
pub(crate) fn group_with(groups: &[Group], item: usize) -> usize
    requires { item < get_or (0 ∷ map end_of groups.now) (length groups.now) 0 }
    ensures there { result < length groups.now }
    ensures begun { get_or (0 ∷ map end_of groups.now) result 0 ≤ item }
    ensures within { item < get_or (map end_of groups.now) result 0 }
{
    let mut low = 0;
    let mut high = groups.len();
    while low + 1 < high {
        let middle = low + (high - low) / 2;
        if begin_of(groups, middle) <= item {
            low = middle;
        } else {
            high = middle;
        }
    }
    low
}

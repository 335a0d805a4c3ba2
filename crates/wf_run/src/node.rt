// The instances of a run.
use crate::chain::Chain;
use wf_spec::ModNo;

/// The number of an instance: instances are numbered from 0 in order of making.
#[derive(Clone, Copy, Debug, PartialEq, Eq, Drop)]
pub struct NodeNo(pub u32);

/// The children of an instance: so many, at most 64, numbered one after the other from the first on, in order of the positions.
#[derive(Clone, Copy, Drop)]
pub struct Children {
    pub first: u32,
    pub count: u8,
}

/// An instance: its prefix in an arena, and the number of its first child and how many children there are. Before it is expanded `first_child` is 0, which is the number of the root, and the root is no child. The prefix of one of an atomic module is empty.
#[derive(Clone, Copy, Drop)]
pub(crate) struct Node<'a> {
    pub(crate) bytes: &'a [u8],
    pub(crate) chain: Chain,
    pub(crate) length: u32,
    pub(crate) first_child: u32,
    pub(crate) module: ModNo,
    pub(crate) children: u8,
}

// A run holds millions of instances.
const _: () = prove!(size_of::<Node<'static>>() == 32);

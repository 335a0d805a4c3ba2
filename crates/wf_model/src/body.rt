// The parts of a production's body, by number.
use crate::name::Name;
use crate::numbers::{ModNo, PortNo, PosNo, ProdNo};

/// A place in a body, with the module that stands there.
#[derive(Drop)]
pub struct Position {
    pub name: Name,
    pub module: ModNo,
}

/// A port of a position, on the side that its use tells.
#[derive(Clone, Copy, Debug, PartialEq, Eq, Drop)]
pub struct Inner {
    pub pos: PosNo,
    pub port: PortNo,
}

/// An edge from an output of a position to an input of a position.
#[derive(Clone, Copy, Debug, PartialEq, Eq, Drop)]
pub struct Edge {
    pub from: Inner,
    pub to: Inner,
}

/// A production and a position of its body.
#[derive(Clone, Copy, Debug, PartialEq, Eq, Drop)]
pub struct Step {
    pub production: ProdNo,
    pub position: PosNo,
}

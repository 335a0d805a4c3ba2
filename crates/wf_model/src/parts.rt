// A specification and a view as they are read, by names that may hold any bytes.
use crate::name::{Name, Seq};

/// A specification, as read.
#[derive(Drop)]
pub struct Parts {
    pub start: Name,
    pub modules: Seq<ModulePart>,
    pub productions: Seq<ProdPart>,
    pub deps: Seq<DepsPart>,
    pub versions: Seq<VersionPart>,
}

/// A module, as read.
#[derive(Drop)]
pub struct ModulePart {
    pub name: Name,
    pub inputs: Seq<Name>,
    pub outputs: Seq<Name>,
}

/// A production, as read.
#[derive(Drop)]
pub struct ProdPart {
    pub head: Name,
    pub body: Seq<PosPart>,
    pub edges: Seq<EdgePart>,
    pub entries: Seq<EntryPart>,
    pub exits: Seq<ExitPart>,
}

/// A position of a body, as read.
#[derive(Drop)]
pub struct PosPart {
    pub name: Name,
    pub module: Name,
}

/// A port of a position, as read.
#[derive(Drop)]
pub struct PortPart {
    pub pos: Name,
    pub port: Name,
}

/// An edge, as read.
#[derive(Drop)]
pub struct EdgePart {
    pub from: PortPart,
    pub to: PortPart,
}

/// An entry from an input of the head, as read.
#[derive(Drop)]
pub struct EntryPart {
    pub port: Name,
    pub to: PortPart,
}

/// An exit to an output of the head, as read.
#[derive(Drop)]
pub struct ExitPart {
    pub from: PortPart,
    pub port: Name,
}

/// The pairs that are given to a module, as read.
#[derive(Drop)]
pub struct DepsPart {
    pub module: Name,
    pub pairs: Seq<PairPart>,
}

/// A pair of an input and an output on which it depends, as read.
#[derive(Drop)]
pub struct PairPart {
    pub input: Name,
    pub output: Name,
}

/// An earlier version of a specification, as read: its first modules and its first productions, by how many they are.
#[derive(Clone, Copy, Debug, PartialEq, Eq, Drop)]
pub struct VersionPart {
    pub modules: u64,
    pub productions: u64,
}

/// A view, as read; without `expand` it expands every composite module.
#[derive(Drop)]
pub struct ViewParts {
    pub expand: Option<Seq<Name>>,
    pub deps: Seq<DepsPart>,
}

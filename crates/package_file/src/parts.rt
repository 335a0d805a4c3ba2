// A package as it is read, by names that may hold any bytes.

use wf_model::{Name, Parts, Seq};

/// An entry of the loops, as read: the name of a module, the number of a production, and that of a position.
#[derive(Drop)]
pub struct LoopPart {
    pub module: Name,
    pub production: u64,
    pub position: u64,
}

/// A package, as read. Its grammar has no earlier versions.
#[derive(Drop)]
pub struct PackageParts {
    pub grammar: Parts,
    pub loops: Seq<LoopPart>,
}

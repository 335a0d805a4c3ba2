//! The words that all crates share: names, numbers, parts and events, and the definitions of grammars, views and runs.
#![tactic(auto)]

mod body;
mod event;
mod name;
mod numbers;
mod parts;

pub use body::{Edge, Inner, Position, Step};
pub use event::{Event, RunFault};
pub use name::{Name, Seq};
pub use numbers::{EdgeNo, ModNo, PortNo, PosNo, ProdNo, Side};
pub use parts::{
    DepsPart, EdgePart, EntryPart, ExitPart, ModulePart, PairPart, Parts, PortPart, PosPart,
    ProdPart, VersionPart, ViewParts,
};

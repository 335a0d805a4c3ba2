//! Workflow grammars: their modules and productions, and what their readers ask of them.
#![tactic(auto)]

mod bits;
mod deps;
mod given;
mod grammar;
mod lists;
mod making;
mod module;
mod production;
mod rule;
mod version;

pub use bits::{low_bits, same_rows};
pub use deps::Deps;
pub use given::{Given, Pair};
pub use grammar::Grammar;
pub use making::{making_graph, modules_made};
pub use module::Module;
pub use production::Production;
pub use rule::Rule;
pub use version::{Version, is_version};
pub use wf_model::{
    DepsPart, Edge, EdgeNo, EdgePart, EntryPart, Event, ExitPart, Inner, ModNo, ModulePart, Name,
    PairPart, Parts, PortNo, PortPart, PosNo, PosPart, Position, ProdNo, ProdPart, RunFault, Seq,
    Side, Step, VersionPart, ViewParts,
};

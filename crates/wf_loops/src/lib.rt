//! The loops of a package: whether they are good, and the value that carries this.
#![tactic(auto)]

mod entries;
mod fault;
mod good;
mod law;
mod looped;
mod steps;

pub use entries::LoopEntry;
pub use fault::LoopsFault;
pub use law::good_loops_law;
pub use looped::Looped;

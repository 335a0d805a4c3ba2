//! The label file of a run: a head with the digest of the grammar, and an entry for each item in the order in which the items were made. It is written in parts, and read as a store in which an entry is found by the name of its item.
#![tactic(auto)]

mod ahead;
mod append;
mod fault;
mod fault_text;
mod front;
mod guesses;
mod head;
mod held;
mod key;
mod laying;
mod store;
mod table;

pub use append::{append_entry, append_head, append_item};
pub use fault::{StoreFault, StoreSpot};
pub use guesses::{GUESSES, Guesses};
pub use store::Store;

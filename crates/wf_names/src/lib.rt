//! Names and their numbers: a table in which a name is found by hashing, for names of their own and for names in an arena. Hashing with a key, for this and all other tables of names.
#![tactic(auto)]

mod hashed;
mod held_name;
mod keyed;
mod keys;
mod names;
mod recent;
mod together;

pub use held_name::HeldName;
pub use keyed::{KeyedHash, NameKey};
pub use names::Names;

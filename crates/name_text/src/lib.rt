//! Names as bytes: whether bytes are a name, and the two names that the name of an item is made of.
#![tactic(auto)]

mod item;
mod law;
mod short;

pub use item::{cut_item, split_item};
pub use law::name_law;
pub use short::{are_short, is_short};

//! Labels of data items: written as bits, and read from bytes.
//!
//! A label tells where in the derivation of a run an item was made: at an input or an output of the root, or at an edge of a production of an instance, which is told by the steps that lead to it.
//! Steps along a cycle of the grammar are told as one number, however many there are.
//! The idea is that of Bao, Davidson and Milo, "Labeling Workflow Views with Fine-Grained Dependencies", VLDB 2012; the bits are this project's.
#![tactic(auto)]

mod check;
mod checker;
mod codes;
mod cursor;
mod label;
mod parts;
mod passing;
mod place;
mod reference;
mod short;
mod write;

pub use check::Malformed;
pub use checker::Checker;
pub use codes::Codes;
pub use cursor::{Cursor, Mark};
pub use label::{Label, Place, PlaceStep};
pub use passing::turns;
pub use place::{Front, Part, read_chain, read_front, read_part};
pub use reference::LabelRef;
pub use short::ShortReader;
pub use write::{begin_labels, end_label, with_step, write_anew, write_label};

//! Bits that are written into bytes and read from bytes, one by one and as Elias gamma codes.
//!
//! The gamma code of a number from 1 on, with k binary digits, is k - 1 zero bits and then these
//! digits (P. Elias, "Universal codeword sets and representations of the integers", IEEE
//! Transactions on Information Theory 21(2), 1975). No code begins another.
#![tactic(auto)]

mod bits;
mod code;
mod cut;
mod fault;
mod law;
mod put;
mod reader;
mod roomy;
mod scan;
mod short;
mod word;
mod writer;

pub use bits::Bits;
pub use fault::BitFault;
pub use law::{
    binary_law, codes_law, held_law, length_law, packed_law, prefix_free_law, spelling_law,
};
pub use reader::BitReader;
pub use roomy::RoomyWriter;
pub use word::number_of;
pub use writer::BitWriter;

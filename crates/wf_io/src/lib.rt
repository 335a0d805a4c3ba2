//! The outside: files that are read in pieces, a sink for text, and the lines of bytes.
#![tactic(auto)]

mod fuse_shelf;
mod limits;
mod lines;
mod mem_shelf;
mod mem_sink;
mod outside;
mod piece;
mod plain_shelf;
mod plain_sink;
mod whole;
mod window;

pub use fuse_shelf::FuseShelf;
pub use limits::{LINE_MOST, PIECE};
pub use lines::{LineFault, Lines};
pub use mem_shelf::{MemFile, MemShelf};
pub use mem_sink::MemSink;
pub use outside::{Failed, Shelf, Sink};
pub use plain_shelf::{PlainFile, PlainShelf};
pub use plain_sink::PlainSink;
pub use whole::{ReadFault, read_all};

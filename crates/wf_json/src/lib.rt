//! Specifications and views in JSON: reading them, writing the members of a grammar, and its canonical text with the digests of the grammar and of its earlier versions.
#![tactic(auto)]

mod fault;
mod fault_text;
mod form;
mod hashed_text;
mod hashing;
mod parts;
mod reading;
mod spec;
mod text_sink;
mod view;
mod writing;

pub use fault::{JsonFault, Member};
pub use form::{FromJson, member, member_list, pair, triple};
pub use hashing::{digest, digests};
pub use reading::{TextFault, read_value};
pub use spec::read_spec;
pub use text_sink::TextSink;
pub use view::read_view;
pub use writing::{canonical, put_list, put_members, put_quoted};

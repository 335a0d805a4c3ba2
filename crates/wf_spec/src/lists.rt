// The tables of a grammar, made from its lists.
pub mod heads;
pub mod names;
pub mod rows;

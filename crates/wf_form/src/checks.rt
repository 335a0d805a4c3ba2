// The rules of a specification on modules and on the positions of bodies.
mod bodies;
mod different;
mod modules;
mod numbering;
mod short;
mod sizes;

pub use bodies::check_bodies;
pub use modules::check_modules;

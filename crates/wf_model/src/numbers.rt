// The numbers that name the parts of a grammar, each from 0 in list order.

/// The number of a module.
#[derive(Clone, Copy, Debug, PartialEq, Eq, Drop)]
pub struct ModNo(pub u16);

/// The number of a production.
#[derive(Clone, Copy, Debug, PartialEq, Eq, Drop)]
pub struct ProdNo(pub u16);

/// The number of a position in a body.
#[derive(Clone, Copy, Debug, PartialEq, Eq, Drop)]
pub struct PosNo(pub u8);

/// The number of a port on its side of a module.
#[derive(Clone, Copy, Debug, PartialEq, Eq, Hash, Drop)]
pub struct PortNo(pub u8);

/// The number of an edge in a body.
#[derive(Clone, Copy, Debug, PartialEq, Eq, Drop)]
pub struct EdgeNo(pub u16);

/// A side of a module.
#[derive(Clone, Copy, Debug, PartialEq, Eq, Hash, Drop)]
pub enum Side {
    Input,
    Output,
}

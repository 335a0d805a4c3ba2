// Labels as values.
use wf_spec::{EdgeNo, PortNo, PosNo, Seq};

/// A step from an instance to a child that is not the continuing step of its module: the alternative number of the production and the position. The number of continuing steps before it is there exactly if they are taken from a module on a cycle.
#[derive(Clone, Copy, Drop)]
pub struct PlaceStep {
    pub chain: Option<u32>,
    pub alternative: u16,
    pub position: PosNo,
}

/// An edge of a production of an instance. The instance is told by the steps that lead to it from the root, with a last number of continuing steps where it stands on a cycle.
#[derive(Drop)]
pub struct Place {
    pub steps: Seq<PlaceStep>,
    pub chain: Option<u32>,
    pub alternative: u16,
    pub edge: EdgeNo,
}

/// A label of an item: an input of the root, an output of the root, or an edge.
#[derive(Drop)]
pub enum Label {
    Input(PortNo),
    Output(PortNo),
    OfEdge(Place),
}

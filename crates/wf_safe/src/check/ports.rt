// The ports of one body.
ghost use Rattle.std.specs.Prelude.{◌≡◌, ◌<◌};
ghost use Rattle.wf_safe.specs.BodyGraph.{port_of, vertex_of};

use wf_spec::{PortNo, PosNo, Side};

/// A port of the head of a body, or of a position.
#[derive(Clone, Copy)]
pub struct Port {
    /// The position; `None` stands for the head.
    pub owner: Option<PosNo>,
    pub side: Side,
    pub port: PortNo,
}

/// An input of the head of a body, or of a position.
pub fn input_port(owner: Option<PosNo>, port: PortNo) -> Port
    ensures { result ≡ record { owner = owner; side = Side.Input; port = port } }
{
    Port {
        owner,
        side: Side::Input,
        port,
    }
}

/// An output of the head of a body, or of a position.
pub fn output_port(owner: Option<PosNo>, port: PortNo) -> Port
    ensures { result ≡ record { owner = owner; side = Side.Output; port = port } }
{
    Port {
        owner,
        side: Side::Output,
        port,
    }
}

/// The number of a port in the graph of a body.
pub fn vertex(x: Port) -> u32
    ensures { result ≡ vertex_of (port_of x) }
{
    let owner = match x.owner {
        None => 0,
        Some(k) => u32::from(k.0) + 1,
    };
    let side = match x.side {
        Side::Input => 0,
        Side::Output => 1,
    };
    owner * 128 + side * 64 + u32::from(x.port.0)
}

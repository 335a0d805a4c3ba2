// Places of names among a few.
ghost use Rattle.std.specs.Prelude.{◌≡◌, ◌≤◌, length, position, bytes_eq, MatchOption};
ghost use Rattle.std.specs.List.{list_any};
ghost use Rattle.wf_model.specs.Lists.{IsIn};
ghost use Rattle.wf_spec.specs.Naming.{place_of};

use wf_model::{Name, PortNo, Position};

/// The place of a port among ports.
pub fn port_place(ports: &[Name], name: &[u8]) -> Option<usize>
    ensures { result ≡ position (bytes_eq name.now) ports.now }
{
    ports.iter().position(|port| name == port.bytes())
}

/// Whether a name is one of those of ports.
pub fn has_port(ports: &[Name], name: &[u8]) -> bool
    ensures { result ≡ list_any (bytes_eq name.now) ports.now }
{
    ports.iter().any(|port| name == port.bytes())
}

/// The number of a port among ports, or nothing where it is none of them.
pub fn port_number(ports: &[Name], name: &[u8]) -> Option<PortNo>
    requires { length ports.now ≤ 64 }
    ensures { MatchOption result (¬ IsIn name.now ports.now) (λ p. (p.0 ≡ place_of ports.now name.now) × IsIn name.now ports.now) }
{
    let Some(place) = port_place(ports, name) else {
        return None;
    };
    Some(PortNo(place as u8))
}

/// The place of a position in a body.
pub fn position_place(body: &[Position], name: &[u8]) -> Option<usize>
    ensures { result ≡ position (λ q. bytes_eq name.now q.name) body.now }
{
    body.iter()
        .position(|position| name == position.name.bytes())
}

// Ports of positions, by number.
ghost use Rattle.std.specs.Prelude.{◌<◌, ◌≤◌, map, length};
ghost use Rattle.wf_model.specs.Meaning.{position_of};
ghost use Rattle.wf_spec.specs.FewPorts.{HaveFewPorts};
ghost use Rattle.wf_form.specs.Resolving.{AreOfModules};
ghost use Rattle.wf_form.specs.Numbers.{IsPlaceIn, IsInputNumber, IsOutputNumber};

use crate::links::places::{port_place, position_place};
use wf_model::{Inner, PortNo, PortPart, PosNo, Position};
use wf_spec::Module;

/// A place in a body and the module that stands there.
#[derive(Clone, Copy, Drop)]
struct Place<'a> {
    pos: PosNo,
    module: &'a Module,
}

fn place_in_body<'a>(modules: &'a [Module], body: &[Position], name: &[u8]) -> Option<Place<'a>>
    requires few_ports { HaveFewPorts modules.now }
    requires few_positions { length body.now ≤ 64 }
    requires known { AreOfModules modules.now (map position_of body.now) }
    ensures { IsPlaceIn modules.now body.now name.now result }
{
    let Some(number) = position_place(body, name) else {
        return None;
    };
    Some(Place {
        pos: PosNo(number as u8),
        module: &modules[body[number].module.0 as usize],
    })
}

/// An input of a position, or nothing where it has no such input.
pub fn inner_input(modules: &[Module], body: &[Position], part: &PortPart) -> Option<Inner>
    requires few_ports { HaveFewPorts modules.now }
    requires few_positions { length body.now ≤ 64 }
    requires known { AreOfModules modules.now (map position_of body.now) }
    ensures { IsInputNumber modules.now (map position_of body.now) part.now result }
{
    let at = place_in_body(modules, body, part.pos.bytes())?;
    let port = port_place(at.module.inputs(), part.port.bytes())?;
    Some(Inner {
        pos: at.pos,
        port: PortNo(port as u8),
    })
}

/// An output of a position, or nothing where it has no such output.
pub fn inner_output(modules: &[Module], body: &[Position], part: &PortPart) -> Option<Inner>
    requires few_ports { HaveFewPorts modules.now }
    requires few_positions { length body.now ≤ 64 }
    requires known { AreOfModules modules.now (map position_of body.now) }
    ensures { IsOutputNumber modules.now (map position_of body.now) part.now result }
{
    let at = place_in_body(modules, body, part.pos.bytes())?;
    let port = port_place(at.module.outputs(), part.port.bytes())?;
    Some(Inner {
        pos: at.pos,
        port: PortNo(port as u8),
    })
}

// Ports by their names.
ghost use Rattle.std.specs.Prelude.{◌≡◌, ◌++◌, [], get_or, OnOk};
ghost use Rattle.wf_model.specs.Grammar.{module_at};
ghost use Rattle.wf_model.specs.Items.{dotted};
ghost use Rattle.wf_export.specs.ExportText.{ports_on};

use std::alloc::AllocError;
use wf_spec::{Grammar, ModNo, Name, PortNo, Side};

/// The names of the ports of a module on a side, and none past the last module.
fn ports_on(g: &Grammar, m: ModNo, side: Side) -> &[Name]
    ensures { result.now ≡ ports_on (module_at g.now.core m.0) side }
{
    let Some(module) = g.modules().get(m.0 as usize) else {
        return &[];
    };
    match side {
        Side::Input => module.inputs(),
        Side::Output => module.outputs(),
    }
}

/// The name of a port of a module, and none past the last port.
pub fn port_name(g: &Grammar, m: ModNo, side: Side, port: PortNo) -> &[u8]
    ensures { result.now ≡ get_or (ports_on (module_at g.now.core m.0) side) port.0 [] }
{
    match ports_on(g, m, side).get(port.0 as usize) {
        Some(name) => name.bytes(),
        None => b"",
    }
}

/// Appends the name of an instance, a dot and the name of a port.
pub fn add_dotted(line: &mut Vec<u8>, instance: &[u8], port: &[u8]) -> Result<(), AllocError>
    ensures { OnOk result (line.new.items ≡ line.old.items ++ dotted instance.now port.now) }
{
    line.extend_from_slice(instance)?;
    line.extend_from_slice(b".")?;
    line.extend_from_slice(port)?;
    Ok(())
}

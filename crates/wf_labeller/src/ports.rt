// The entries of the ports of the root.
ghost use Rattle.std.specs.Prelude.{◌≡◌, ◌≤◌, ℕ, List, map, length, OnOk};
ghost use Rattle.wf_model.specs.Lists.{IsIn};
ghost use Rattle.label_model.specs.Files.{entry_of};
ghost use Rattle.label_model.specs.Labels.{label_bits};
ghost use Rattle.wf_labeller.specs.Entries.{port_label, labelled_ports};
ghost use Rattle.wf_labeller.specs.Keeping.{Adds, HasMore};
ghost use Rattle.wf_labeller.specs.Taking.{AddsRootEntries};

use crate::keeper::Keeper;
use crate::room::has_room;
use bit_pack::BitWriter;
use std::alloc::AllocError;
use wf_label::{Label, write_anew};
use wf_spec::{Grammar, Name, PortNo, Side};

/// Writes the label of a port of the root, in place of what was written.
pub(crate) fn write_port(bits: &mut BitWriter, side: Side, port: PortNo) -> Result<(), AllocError>
    ensures ok { OnOk result (bits.new ≡ label_bits (port_label side port.0)) }
    ensures few { OnOk result (length bits.new ≤ 391551) }
{
    match side {
        Side::Input => write_anew(bits, &Label::Input(port)),
        Side::Output => write_anew(bits, &Label::Output(port)),
    }
}

/// Keeps the entries of the ports of one side of the root. After an error some of them may be kept.
fn keep_ports<K: Keeper>(
    bits: &mut BitWriter,
    root: &[u8],
    side: Side,
    ports: &[Name],
    to: &mut K,
) -> Result<(), AllocError>
    requires few { length ports.now ≤ 64 }
    requires root { length root.now ≤ 64 }
    requires short { (n : List ℕ) → IsIn n ports.now → length n ≤ 64 }
    ensures ok { OnOk result (Adds K.parts_of (K.kept to.old) (K.kept to.new) (map entry_of (labelled_ports side root.now 0 ports.now))) }
    ensures more { HasMore (K.kept to.old) (K.kept to.new) }
{
    for k in 0..ports.len() {
        write_port(bits, side, PortNo(k as u8))?;
        let port = ports[k].bytes();
        to.keep(root, port, bits.bytes())?;
    }
    Ok(())
}

/// Keeps the entries of the items that a start event makes: those of the root's inputs, and then of its outputs. None are kept where the name is longer than a run takes. After an error some of them may be kept.
pub(crate) fn keep_root<K: Keeper>(
    g: &Grammar,
    bits: &mut BitWriter,
    root: &[u8],
    to: &mut K,
) -> Result<(), AllocError>
    ensures ok { OnOk result (AddsRootEntries K.parts_of (K.kept to.old) (K.kept to.new) g.now.core root.now) }
    ensures more { HasMore (K.kept to.old) (K.kept to.new) }
{
    if !has_room(root) {
        return Ok(());
    }
    let start = &g.modules()[g.start().0 as usize];
    keep_ports(bits, root, Side::Input, start.inputs(), to)?;
    keep_ports(bits, root, Side::Output, start.outputs(), to)?;
    Ok(())
}

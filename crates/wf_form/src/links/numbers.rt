// Edges, entries and exits, by number.
ghost use Rattle.std.specs.Prelude.{◌≡◌, ◌<◌, ◌≤◌, map, length, IfOk, IfNone, IfSome};
ghost use Rattle.wf_model.specs.Lists.{IsIn};
ghost use Rattle.wf_model.specs.Meaning.{position_of, edge_of};
ghost use Rattle.wf_form.specs.Forming.{edge_in};
ghost use Rattle.wf_spec.specs.FewPorts.{HasFewPorts, HaveFewPorts};
ghost use Rattle.wf_form.specs.Resolving.{AreOfModules, IsEdgeIn};
ghost use Rattle.wf_form.specs.Wiring.{entry_of, exit_of, entry_link, exit_link, IsEntryIn, IsExitIn};
ghost use Rattle.wf_form.specs.Numbers.{NumbersIf, IsEntryNumber, IsExitNumber};

use crate::links::inner::{inner_input, inner_output};
use crate::links::places::port_number;
use crate::wiring::{Entry, Exit};
use std::alloc::{AllocError, Global};
use wf_model::{Edge, EdgePart, EntryPart, ExitPart, Position};
use wf_spec::Module;

fn edge_number(modules: &[Module], body: &[Position], part: &EdgePart) -> Option<Edge>
    requires few_ports { HaveFewPorts modules.now }
    requires few_positions { length body.now ≤ 64 }
    requires known { AreOfModules modules.now (map position_of body.now) }
    ensures { NumbersIf (IsEdgeIn modules.now (map position_of body.now) part.now) edge_of (edge_in modules.now (map position_of body.now) part.now) result }
{
    let from = inner_output(modules, body, &part.from)?;
    let to = inner_input(modules, body, &part.to)?;
    Some(Edge { from, to })
}

fn entry_number(
    modules: &[Module],
    body: &[Position],
    head: &Module,
    part: &EntryPart,
) -> Option<Entry>
    requires few_ports { HaveFewPorts modules.now }
    requires few_positions { length body.now ≤ 64 }
    requires known { AreOfModules modules.now (map position_of body.now) }
    requires few_inputs { HasFewPorts head.now }
    ensures { IsEntryNumber modules.now (map position_of body.now) head.now part.now result }
{
    let port = port_number(head.inputs(), part.port.bytes())?;
    let to = inner_input(modules, body, &part.to)?;
    Some(Entry { port, to })
}

fn exit_number(
    modules: &[Module],
    body: &[Position],
    head: &Module,
    part: &ExitPart,
) -> Option<Exit>
    requires few_ports { HaveFewPorts modules.now }
    requires few_positions { length body.now ≤ 64 }
    requires known { AreOfModules modules.now (map position_of body.now) }
    requires few_outputs { HasFewPorts head.now }
    ensures { IsExitNumber modules.now (map position_of body.now) head.now part.now result }
{
    let from = inner_output(modules, body, &part.from)?;
    let port = port_number(head.outputs(), part.port.bytes())?;
    Some(Exit { from, port })
}

/// The edges of a body, or nothing where one of them leads from or to what is not there.
pub fn edge_numbers(
    alloc: Global,
    modules: &[Module],
    body: &[Position],
    parts: &[EdgePart],
) -> Result<Option<Vec<Edge>>, AllocError>
    requires few_ports { HaveFewPorts modules.now }
    requires few_positions { length body.now ≤ 64 }
    requires known { AreOfModules modules.now (map position_of body.now) }
    ensures unknown { IfOk result (λ o. IfNone o (¬ ((e : EdgePart) → IsIn e parts.now → IsEdgeIn modules.now (map position_of body.now) e))) }
    ensures known { IfOk result (λ o. IfSome o (λ _. (e : EdgePart) → IsIn e parts.now → IsEdgeIn modules.now (map position_of body.now) e)) }
    ensures edges { IfOk result (λ o. IfSome o (λ es. map edge_of es.items ≡ map (edge_in modules.now (map position_of body.now)) parts.now)) }
{
    let mut list = Vec::new(alloc);
    for part in parts {
        let Some(edge) = edge_number(modules, body, part) else {
            return Ok(None);
        };
        list.push(edge)?;
    }
    Ok(Some(list))
}

/// The entries of a production, or nothing where one of them leads from or to what is not there.
pub fn entry_numbers(
    alloc: Global,
    modules: &[Module],
    body: &[Position],
    head: &Module,
    parts: &[EntryPart],
) -> Result<Option<Vec<Entry>>, AllocError>
    requires few_ports { HaveFewPorts modules.now }
    requires few_positions { length body.now ≤ 64 }
    requires known { AreOfModules modules.now (map position_of body.now) }
    requires few_inputs { HasFewPorts head.now }
    ensures unknown { IfOk result (λ o. IfNone o (¬ ((e : EntryPart) → IsIn e parts.now → IsEntryIn modules.now (map position_of body.now) head.now e))) }
    ensures known { IfOk result (λ o. IfSome o (λ _. (e : EntryPart) → IsIn e parts.now → IsEntryIn modules.now (map position_of body.now) head.now e)) }
    ensures entries { IfOk result (λ o. IfSome o (λ es. map entry_of es.items ≡ map (entry_link modules.now (map position_of body.now) head.now) parts.now)) }
{
    let mut list = Vec::new(alloc);
    for part in parts {
        let Some(entry) = entry_number(modules, body, head, part) else {
            return Ok(None);
        };
        list.push(entry)?;
    }
    Ok(Some(list))
}

/// The exits of a production, or nothing where one of them leads from or to what is not there.
pub fn exit_numbers(
    alloc: Global,
    modules: &[Module],
    body: &[Position],
    head: &Module,
    parts: &[ExitPart],
) -> Result<Option<Vec<Exit>>, AllocError>
    requires few_ports { HaveFewPorts modules.now }
    requires few_positions { length body.now ≤ 64 }
    requires known { AreOfModules modules.now (map position_of body.now) }
    requires few_outputs { HasFewPorts head.now }
    ensures unknown { IfOk result (λ o. IfNone o (¬ ((e : ExitPart) → IsIn e parts.now → IsExitIn modules.now (map position_of body.now) head.now e))) }
    ensures known { IfOk result (λ o. IfSome o (λ _. (e : ExitPart) → IsIn e parts.now → IsExitIn modules.now (map position_of body.now) head.now e)) }
    ensures exits { IfOk result (λ o. IfSome o (λ es. map exit_of es.items ≡ map (exit_link modules.now (map position_of body.now) head.now) parts.now)) }
{
    let mut list = Vec::new(alloc);
    for part in parts {
        let Some(exit) = exit_number(modules, body, head, part) else {
            return Ok(None);
        };
        list.push(exit)?;
    }
    Ok(Some(list))
}

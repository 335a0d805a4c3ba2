// A label, read over a package.
ghost use Rattle.std.specs.Prelude.{◌≡◌, true, false, cond, ◌∷◌, IfOk, IfErr, IsErr, MatchOption};
ghost use Rattle.wf_model.specs.Grammar.{inputs_of, outputs_of};
ghost use Rattle.package_model.specs.Translating.{IsTranslation, ReadsInside, ReadsOutside, Malformed as MalformedBits};
ghost use Rattle.wf_label.specs.Values.{label_of};
ghost use Rattle.wf_loops.specs.Looped.{loop_in};
ghost use Rattle.wf_translate.specs.declared.fault.PackLabelFault.TheVariants.{Malformed};

use crate::fault::PackLabelFault;
use crate::number::{read_bit, read_last};
use crate::place::read_place;
use bit_pack::BitReader;
use std::alloc::Global;
use wf_label::Label;
use wf_loops::Looped;
use wf_spec::{Grammar, PortNo};

/// How many outputs, or inputs, the start module has.
fn port_count(g: &Grammar, of_outputs: bool) -> u8
    ensures { result ≡ cond of_outputs (outputs_of g.now.core g.now.core.start) (inputs_of g.now.core g.now.core.start) }
{
    let start = g.start();
    if of_outputs {
        g.output_count(start)
    } else {
        g.input_count(start)
    }
}

/// Reads the label of a port of the root, behind its first bit.
fn read_root_port(looped: &Looped, reader: &mut BitReader<'_>) -> Result<Label, PackLabelFault>
    ensures read { IfOk result (λ l. ReadsInside looped.now.accepted.grammar.core (loop_in looped.now.steps) (false ∷ reader.old.left) (label_of l)) }
    ensures malformed { IsErr result → IsTranslation looped.now.accepted.grammar.core (loop_in looped.now.steps) (false ∷ reader.old.left) MalformedBits }
{
    let g = looped.grammar();
    let is_output = read_bit(reader)?;
    let count = port_count(g, is_output);
    let port = read_last(reader, count as usize)?;
    if is_output {
        return Ok(Label::Output(PortNo(port as u8)));
    }
    Ok(Label::Input(PortNo(port as u8)))
}

/// Reads the label of an edge, behind its first bit: as one of the package's grammar, or nothing where the reading comes to an atomic module.
fn read_edge_label(
    alloc: Global,
    looped: &Looped,
    reader: &mut BitReader<'_>,
) -> Result<Option<Label>, PackLabelFault>
    ensures read { IfOk result (λ o. MatchOption o (ReadsOutside looped.now.accepted.grammar.core (loop_in looped.now.steps) (true ∷ reader.old.left))
        (λ l. ReadsInside looped.now.accepted.grammar.core (loop_in looped.now.steps) (true ∷ reader.old.left) (label_of l))) }
    ensures malformed { IfErr result (λ f. f ≡ Malformed →
        IsTranslation looped.now.accepted.grammar.core (loop_in looped.now.steps) (true ∷ reader.old.left) MalformedBits) }
{
    let end = read_place(alloc, looped, reader)?;
    match end {
        Some(place) => Ok(Some(Label::OfEdge(place))),
        None => Ok(None),
    }
}

/// Reads a label over a package: as one of the package's grammar, or nothing where the reading comes to an atomic module.
pub(crate) fn read_label(
    alloc: Global,
    looped: &Looped,
    reader: &mut BitReader<'_>,
) -> Result<Option<Label>, PackLabelFault>
    ensures read { IfOk result (λ o. MatchOption o (ReadsOutside looped.now.accepted.grammar.core (loop_in looped.now.steps) reader.old.left)
        (λ l. ReadsInside looped.now.accepted.grammar.core (loop_in looped.now.steps) reader.old.left (label_of l))) }
    ensures malformed { IfErr result (λ f. f ≡ Malformed →
        IsTranslation looped.now.accepted.grammar.core (loop_in looped.now.steps) reader.old.left MalformedBits) }
{
    let of_edge = read_bit(reader)?;
    if of_edge {
        return read_edge_label(alloc, looped, reader);
    }
    let label = read_root_port(looped, reader)?;
    Ok(Some(label))
}

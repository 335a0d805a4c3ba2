// Labels written as bits.
ghost use Rattle.std.specs.Prelude.{◌≡◌, ◌≤◌, ◌<◌, ◌+◌, ◌^◌, false, ◌∷◌, ◌++◌, length, take, IfOk, OnOk};
ghost use Rattle.bit_pack.specs.Gamma.{gamma};
ghost use Rattle.bit_pack.specs.Written.{first_bits, IsFilled};
ghost use Rattle.label_model.specs.Labels.{OfEdge, chain_bits, label_bits, step_bits, ending_bits};
ghost use Rattle.wf_label.specs.Values.{place_step_of, label_place_of, label_of, alternative_bits, HasSteps};

use crate::label::{Label, Place, PlaceStep};
use bit_pack::{BitWriter, Bits};
use std::alloc::{AllocError, Global};
use wf_spec::{EdgeNo, PortNo};

/// Writes a number of continuing steps, if there is one.
fn write_chain(w: &mut BitWriter, chain: Option<u32>) -> Result<(), AllocError>
    requires { length w.old < 2 ^ 30 }
    ensures ok { OnOk result (w.new ≡ w.old ++ chain_bits chain) }
    ensures few { OnOk result (length w.new ≤ length w.old + 127) }
{
    match chain {
        Some(c) => w.gamma(c as u64 + 1),
        None => Ok(()),
    }
}

/// Writes a step of a place behind the bits that are there. After an error a part of it may be written.
fn write_step(w: &mut BitWriter, step: PlaceStep) -> Result<(), AllocError>
    requires { length w.old < 2 ^ 30 }
    ensures ok { OnOk result (w.new ≡ w.old ++ step_bits (place_step_of step)) }
    ensures few { OnOk result (length w.new ≤ length w.old + 382) }
{
    write_chain(w, step.chain)?;
    w.bit(true)?;
    w.gamma(step.alternative as u64 + 1)?;
    w.gamma(step.position.0 as u64 + 1)
}

/// Writes an ending up to its edge: the last chain number of a place, a zero, and the alternative number of the production. After an error a part of it may be written.
fn write_alternative(
    w: &mut BitWriter,
    chain: Option<u32>,
    alternative: u16,
) -> Result<(), AllocError>
    requires { length w.old < 2 ^ 30 }
    ensures ok { OnOk result (w.new ≡ w.old ++ alternative_bits chain alternative) }
    ensures few { OnOk result (length w.new ≤ length w.old + 255) }
{
    write_chain(w, chain)?;
    w.bit(false)?;
    w.gamma(alternative as u64 + 1)
}

/// Writes the last chain number of a place and its ending: the alternative number of the production and the edge. After an error a part of it may be written.
fn write_ending(
    w: &mut BitWriter,
    chain: Option<u32>,
    alternative: u16,
    edge: EdgeNo,
) -> Result<(), AllocError>
    requires { length w.old < 2 ^ 30 }
    ensures ok { OnOk result (w.new ≡ w.old ++ ending_bits chain alternative edge.0) }
    ensures few { OnOk result (length w.new ≤ length w.old + 382) }
{
    write_alternative(w, chain, alternative)?;
    w.gamma(edge.0 as u64 + 1)
}

/// Writes the label of a port of the root: a zero, whether it is an output, and the number of the port.
fn write_port(w: &mut BitWriter, is_output: bool, port: PortNo) -> Result<(), AllocError>
    requires { length w.old < 2 ^ 30 }
    ensures ok { OnOk result (w.new ≡ w.old ++ false ∷ is_output ∷ gamma (port.0 + 1)) }
    ensures few { OnOk result (length w.new ≤ length w.old + 129) }
{
    w.bit(false)?;
    w.bit(is_output)?;
    w.gamma(port.0 as u64 + 1)
}

/// Writes the label of an edge: a one, the steps of its place, and the ending.
fn write_place(w: &mut BitWriter, place: &Place) -> Result<(), AllocError>
    requires room { length w.old < 2 ^ 20 }
    requires few { length place.now.steps ≤ 1024 }
    ensures ok { OnOk result (w.new ≡ w.old ++ label_bits (OfEdge (label_place_of place.now))) }
    ensures few { OnOk result (length w.new ≤ length w.old + 391551) }
{
    w.bit(true)?;
    for step in place.steps.items() {
        write_step(w, *step)?;
    }
    write_ending(w, place.chain, place.alternative, place.edge)
}

/// Writes a label behind the bits that are there.
#[tactic(auto, unfolding(label_model::specs::Labels::label_bits))]
fn write_bits(w: &mut BitWriter, label: &Label) -> Result<(), AllocError>
    requires room { length w.old < 2 ^ 20 }
    requires few { HasSteps 1024 label.now }
    ensures ok { OnOk result (w.new ≡ w.old ++ label_bits (label_of label.now)) }
    ensures few { OnOk result (length w.new ≤ length w.old + 391551) }
{
    match label {
        Label::Input(port) => write_port(w, false, *port),
        Label::Output(port) => write_port(w, true, *port),
        Label::OfEdge(place) => write_place(w, place),
    }
}

/// The bits of a prefix and those of a step behind them. The prefix is the first bits of the bytes, so many.
///
/// The only error is that memory is refused. Cost: linear in the bits.
pub fn with_step(
    alloc: Global,
    bytes: &[u8],
    length: u32,
    step: PlaceStep,
) -> Result<Bits, AllocError>
    requires filled { IsFilled bytes.now length }
    requires few { length < 2 ^ 30 }
    ensures { IfOk result (λ b. b ≡ first_bits bytes.now length ++ step_bits (place_step_of step)) }
{
    let mut w = BitWriter::resume(alloc, bytes, length)?;
    write_step(&mut w, step)?;
    Ok(w.finish())
}

/// Begins the labels of the edges of an instance that is expanded, in place of what was written: the bits of its prefix, which is the first bits of the bytes, so many; its last chain number; a zero; and the alternative number of the production. `end_label` ends the label of each edge.
///
/// The only error is that memory is refused. Cost: linear in the bits.
pub fn begin_labels(
    w: &mut BitWriter,
    bytes: &[u8],
    count: u32,
    chain: Option<u32>,
    alternative: u16,
) -> Result<(), AllocError>
    requires filled { IsFilled bytes.now count }
    requires few { count < 2 ^ 30 }
    ensures ok { OnOk result (w.new ≡ first_bits bytes.now count ++ alternative_bits chain alternative) }
    ensures few { OnOk result (length w.new ≤ count + 255) }
{
    w.restart(bytes, count)?;
    write_alternative(w, chain, alternative)
}

/// Ends the label of an edge that begins with the first bits, so many: cuts off what stands behind them, as the end of the label before, and writes the number of the edge.
///
/// The only error is that memory is refused. Cost: that of one gamma code, whatever the length of the label.
pub fn end_label(w: &mut BitWriter, begun: u32, edge: EdgeNo) -> Result<(), AllocError>
    requires begun { begun ≤ length w.old }
    requires few { begun < 2 ^ 30 }
    ensures ok { OnOk result (w.new ≡ take begun w.old ++ gamma (edge.0 + 1)) }
    ensures few { OnOk result (length w.new ≤ begun + 127) }
{
    w.gamma_behind(begun, edge.0 as u64 + 1)
}

/// Writes a label of at most 1,024 steps, as every label of a grammar has them, in place of what was written.
///
/// The only error is that memory is refused. Cost: linear in the bits.
pub fn write_anew(w: &mut BitWriter, label: &Label) -> Result<(), AllocError>
    requires { HasSteps 1024 label.now }
    ensures ok { OnOk result (w.new ≡ label_bits (label_of label.now)) }
    ensures few { OnOk result (length w.new ≤ 391551) }
{
    w.cut(0);
    write_bits(w, label)
}

/// The bits of a label of at most 1,024 steps, as every label of a grammar has them.
///
/// The only error is that memory is refused. Cost: linear in the bits.
pub fn write_label(alloc: Global, label: &Label) -> Result<Bits, AllocError>
    requires { HasSteps 1024 label.now }
    ensures { IfOk result (λ b. b ≡ label_bits (label_of label.now)) }
{
    let mut w = BitWriter::new(alloc);
    write_bits(&mut w, label)?;
    Ok(w.finish())
}

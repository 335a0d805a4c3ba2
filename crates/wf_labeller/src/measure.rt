// The labels that an event makes, each written in place of the one before, and how long the longest of them is.
ghost use Rattle.std.specs.Prelude.{◌≡◌, ◌<◌, ◌≤◌, ◌^◌, [], length, get_or, max, IfOk, OnOk};
ghost use Rattle.wf_model.specs.Grammar.{production_at};
ghost use Rattle.bit_pack.specs.Written.{IsFilled};
ghost use Rattle.wf_labeller.specs.Groups.{IsMeasureOf, longest_of, ports_bits, root_bits, expansion_bits};
ghost use Rattle.wf_run.specs.Growing.{prefix_of};

use crate::ports::write_port;
use bit_pack::BitWriter;
use std::alloc::AllocError;
use wf_label::{begin_labels, end_label};
use wf_run::PrefixRef;
use wf_spec::{EdgeNo, Grammar, PortNo, ProdNo, Side};

/// How many labels there are, and how many bits the longest of them has.
#[derive(Clone, Copy, Drop)]
pub(crate) struct Measure {
    pub(crate) count: usize,
    pub(crate) longest: u32,
}

/// The larger of two numbers of bits.
pub(crate) fn longer(one: u32, other: u32) -> u32
    ensures { result ≡ max other one }
{
    if one < other { other } else { one }
}

/// How many bits the longest label of so many ports of one side of the root has, and 0 where there are none. Each is written. The only error is that memory is refused.
fn measure_ports(bits: &mut BitWriter, side: Side, count: usize) -> Result<u32, AllocError>
    requires { count ≤ 64 }
    ensures { IfOk result (λ n. n ≡ longest_of (ports_bits side count)) }
{
    let mut longest = 0;
    for k in 0..count {
        write_port(bits, side, PortNo(k as u8))?;
        longest = longer(longest, bits.length());
    }
    Ok(longest)
}

/// The measure of the labels of the ports of the root, each of which is written. The only error is that memory is refused.
pub(crate) fn measure_root(g: &Grammar, bits: &mut BitWriter) -> Result<Measure, AllocError>
    ensures { IfOk result (IsMeasureOf (root_bits g.now.core)) }
{
    let start = &g.modules()[g.start().0 as usize];
    let inputs = start.inputs().len();
    let outputs = start.outputs().len();
    let first = measure_ports(bits, Side::Input, inputs)?;
    let second = measure_ports(bits, Side::Output, outputs)?;
    Ok(Measure {
        count: inputs + outputs,
        longest: longer(second, first),
    })
}

/// The measure of the labels of the edges of a production, where an instance with this prefix is expanded by it. What they begin with is written once, and then the end of each. The only error is that memory is refused.
///
/// Cost: linear in the bits of the prefix, and one gamma code for each edge.
pub(crate) fn measure_edges(
    g: &Grammar,
    production: ProdNo,
    prefix: PrefixRef<'_>,
    bits: &mut BitWriter,
) -> Result<Measure, AllocError>
    requires production { production.0 < length g.now.core.productions }
    requires filled { IsFilled prefix.bytes.now prefix.length }
    requires few { prefix.length < 2 ^ 17 }
    ensures { IfOk result (IsMeasureOf (expansion_bits g.now.core production.0 (prefix_of prefix.entry))) }
{
    let rule = g.production(production);
    let count = rule.edges().len();
    begin_labels(
        bits,
        prefix.bytes,
        prefix.length,
        prefix.chain,
        rule.alternative(),
    )?;
    let begun = bits.length();
    let mut longest = 0;
    for k in 0..count {
        end_label(bits, begun, EdgeNo(k as u16))?;
        longest = longer(longest, bits.length());
    }
    Ok(Measure { count, longest })
}

/// Writes the label of the port of a number of the root, the inputs first, in place of what was written. The only error is that memory is refused.
pub(crate) fn write_root(g: &Grammar, k: usize, bits: &mut BitWriter) -> Result<(), AllocError>
    requires { k < length (root_bits g.now.core) }
    ensures ok { OnOk result (bits.new ≡ get_or (root_bits g.now.core) k []) }
    ensures few { OnOk result (length bits.new ≤ 391551) }
{
    let inputs = g.modules()[g.start().0 as usize].inputs().len();
    if k < inputs {
        return write_port(bits, Side::Input, PortNo(k as u8));
    }
    write_port(bits, Side::Output, PortNo((k - inputs) as u8))
}

/// Writes the label of the edge of a number of a production, where an instance with this prefix is expanded by it, in place of what was written. The only error is that memory is refused.
pub(crate) fn write_edge(
    g: &Grammar,
    production: ProdNo,
    prefix: PrefixRef<'_>,
    k: usize,
    bits: &mut BitWriter,
) -> Result<(), AllocError>
    requires production { production.0 < length g.now.core.productions }
    requires filled { IsFilled prefix.bytes.now prefix.length }
    requires few { prefix.length < 2 ^ 17 }
    requires in_range { k < length (production_at g.now.core production.0).edges }
    ensures ok { OnOk result (bits.new ≡ get_or (expansion_bits g.now.core production.0 (prefix_of prefix.entry)) k []) }
    ensures few { OnOk result (length bits.new ≤ 391551) }
{
    let rule = g.production(production);
    begin_labels(
        bits,
        prefix.bytes,
        prefix.length,
        prefix.chain,
        rule.alternative(),
    )?;
    let begun = bits.length();
    // A grammar has at most 4,096 edges in one production.
    end_label(bits, begun, EdgeNo(k as u16))
}

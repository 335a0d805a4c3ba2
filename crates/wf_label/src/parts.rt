// The parts of a label, read from the front.
ghost use Rattle.std.specs.Prelude.{◌≡◌, ◌^◌, ◌<◌, length, option_map, IfOk, IfSome, IsErr, OnOk};
ghost use Rattle.wf_model.specs.Grammar.{IsProductionOf, alternative_of};
ghost use Rattle.label_model.specs.Continuing.{continuing, continues};
ghost use Rattle.label_model.specs.Reading.{IsPadding, IsLabelLeft, IsPlaceLeft, IsPartLeft, IsPortLeft};
ghost use Rattle.wf_recur.specs.Cycles.{step_of};
ghost use Rattle.wf_label.specs.Parts.{IsPassed, IsChainPassed, IsPositionPassed, IsPartPassed, IsNumberRead, HasNoNumber, HasNoAlternative, IsStepByLeft, IsEndingByLeft, IsNextLeft};

use crate::check::Malformed;
use crate::codes::{Codes, read_number};
use crate::passing::passed;
use bit_pack::BitReader;
use wf_recur::Linear;
use wf_spec::{Grammar, ModNo, PosNo, ProdNo, Step};

/// The continuing step of a module, and `None` where it stands on no cycle.
#[inline(always)]
pub(crate) fn continuing_step(g: Linear<'_>, m: ModNo) -> Option<Step>
    requires in_range { m.0 < length g.grammar.now.core.modules }
    ensures { option_map step_of result ≡ continuing g.entry.grammar.now.core m.0 }
{
    // A grammar is well-formed.
    let _formed = g.grammar.start();
    match g.cycles.on(m) {
        Some(on) => Some(on.step),
        None => None,
    }
}

/// Whether a step is the continuing one of the module.
#[inline(always)]
fn is_continuing(g: Linear<'_>, m: ModNo, step: Step) -> bool
    requires in_range { m.0 < length g.grammar.now.core.modules }
    ensures { result ≡ continues g.entry.grammar.now.core m.0 (step_of step) }
{
    match continuing_step(g, m) {
        Some(next) => {
            next.production.0 == step.production.0 && next.position.0 == step.position.0
        }
        None => false,
    }
}

/// Passes the number of one of so many ports.
#[inline(always)]
fn pass_port(reader: &mut BitReader<'_>, ports: usize) -> Result<(), Malformed>
    requires { ports < 2 ^ 63 }
    ensures passed { OnOk result (IsPassed (IsPortLeft ports) IsPadding reader.old reader.new) }
    ensures malformed { IsErr result → ¬ IsPortLeft ports reader.old.left }
{
    read_number(reader, ports)?;
    Ok(())
}

/// Passes the chain number of a module, and gives the module to which it leads. The number is there exactly if the module stands on a cycle, and is below 2^24.
#[inline(always)]
pub(crate) fn pass_chain<R: Codes>(
    g: Linear<'_>,
    reader: &mut R,
    m: ModNo,
) -> Result<ModNo, Malformed>
    requires in_range { m.0 < length g.grammar.now.core.modules }
    ensures in_range { IfOk result (λ k. k.0 < length g.entry.grammar.now.core.modules) }
    ensures passed { IfOk result (λ k. IsChainPassed g.entry.grammar.now.core m k (R.reading reader.old) (R.reading reader.new)) }
    ensures malformed { IsErr result → ¬ IsPlaceLeft g.entry.grammar.now.core m.0 (R.reading reader.old).left }
{
    if continuing_step(g, m).is_none() {
        return Ok(m);
    }
    let c = reader.next_number(1 << 24)?;
    Ok(passed(g, m, c as u32))
}

/// Reads an alternative number of a module, and gives the production.
#[inline(always)]
pub(crate) fn read_alternative<R: Codes>(
    g: &Grammar,
    reader: &mut R,
    m: ModNo,
) -> Result<ProdNo, Malformed>
    requires { m.0 < length g.now.core.modules }
    ensures production { IfOk result (λ p. IsProductionOf g.now.core p.0 m.0) }
    ensures read { IfOk result (λ p. IsNumberRead (alternative_of g.now.core p.0) (R.reading reader.old) (R.reading reader.new)) }
    ensures malformed { IsErr result → HasNoAlternative g.now.core m.0 (R.reading reader.old).left }
{
    let alternatives = g.alternatives(m);
    let a = reader.next_number(alternatives.len())?;
    Ok(alternatives[a])
}

/// Passes the position of a step by a production, and gives the module to which the step leads.
#[inline(always)]
fn pass_position<R: Codes>(g: Linear<'_>, reader: &mut R, p: ProdNo) -> Result<ModNo, Malformed>
    requires in_range { p.0 < length g.grammar.now.core.productions }
    ensures in_range { IfOk result (λ m. m.0 < length g.entry.grammar.now.core.modules) }
    ensures passed { IfOk result (λ m. IsPositionPassed g.entry.grammar.now.core p m (R.reading reader.old) (R.reading reader.new)) }
    ensures malformed { IsErr result → ¬ IsStepByLeft g.entry.grammar.now.core p.0 (R.reading reader.old).left }
{
    let rule = g.grammar.production(p);
    let positions = rule.positions();
    let i = reader.next_number(positions.len())?;
    let step = Step {
        production: p,
        position: PosNo(i as u8),
    };
    if is_continuing(g, rule.head(), step) {
        return Err(Malformed);
    }
    Ok(positions[i].module)
}

/// Passes the edge of an ending by a production.
#[inline(always)]
fn pass_edge<R: Codes>(g: &Grammar, reader: &mut R, p: ProdNo) -> Result<(), Malformed>
    requires { p.0 < length g.now.core.productions }
    ensures passed { OnOk result (IsPassed (IsEndingByLeft g.now.core p.0) IsPadding (R.reading reader.old) (R.reading reader.new)) }
    ensures malformed { IsErr result → ¬ IsEndingByLeft g.now.core p.0 (R.reading reader.old).left }
{
    reader.next_number(g.production(p).edges().len())?;
    Ok(())
}

/// Passes a step or an ending of a module. Of a step it gives the module to which the step leads.
#[inline(always)]
pub(crate) fn pass_part<R: Codes>(
    g: Linear<'_>,
    reader: &mut R,
    k: ModNo,
) -> Result<Option<ModNo>, Malformed>
    requires in_range { k.0 < length g.grammar.now.core.modules }
    ensures in_range { IfOk result (λ o. IfSome o (λ m. m.0 < length g.entry.grammar.now.core.modules)) }
    ensures passed { IfOk result (λ o. IsPartPassed g.entry.grammar.now.core k o (R.reading reader.old) (R.reading reader.new)) }
    ensures fewer { OnOk result (length (R.reading reader.new).left < length (R.reading reader.old).left) }
    ensures malformed { IsErr result → ¬ IsPartLeft g.entry.grammar.now.core k.0 (R.reading reader.old).left }
{
    let is_step = reader.next_bit()?;
    let p = read_alternative(g.grammar, reader, k)?;
    if is_step {
        let m = pass_position(g, reader, p)?;
        return Ok(Some(m));
    }
    pass_edge(g.grammar, reader, p)?;
    Ok(None)
}

/// Passes the first part of a place at a module: a chain number, and a step or an ending. Of a step it gives the module to which the step leads.
#[inline(always)]
fn pass_first(
    g: Linear<'_>,
    reader: &mut BitReader<'_>,
    m: ModNo,
) -> Result<Option<ModNo>, Malformed>
    requires in_range { m.0 < length g.grammar.now.core.modules }
    ensures in_range { IfOk result (λ o. IfSome o (λ k. k.0 < length g.entry.grammar.now.core.modules)) }
    ensures passed { IfOk result (λ o. IsPassed (IsPlaceLeft g.entry.grammar.now.core m.0) (IsNextLeft g.entry.grammar.now.core o) reader.old reader.new) }
    ensures fewer { OnOk result (length reader.new.left < length reader.old.left) }
    ensures malformed { IsErr result → ¬ IsPlaceLeft g.entry.grammar.now.core m.0 reader.old.left }
{
    let k = pass_chain(g, reader, m)?;
    pass_part(g, reader, k)
}

/// Passes a place at the start module.
#[inline(always)]
fn pass_place(g: Linear<'_>, reader: &mut BitReader<'_>) -> Result<(), Malformed>
    ensures passed { OnOk result (IsPassed (IsPlaceLeft g.entry.grammar.now.core g.entry.grammar.now.core.start) IsPadding reader.old reader.new) }
    ensures malformed { IsErr result → ¬ IsPlaceLeft g.entry.grammar.now.core g.entry.grammar.now.core.start reader.old.left }
{
    let mut m = g.grammar.start();
    while let Some(next) = pass_first(g, reader, m)? {
        m = next;
    }
    Ok(())
}

/// Passes a label up to its padding.
pub(crate) fn pass_label(g: Linear<'_>, reader: &mut BitReader<'_>) -> Result<(), Malformed>
    ensures passed { OnOk result (IsPassed (IsLabelLeft g.entry.grammar.now.core) IsPadding reader.old reader.new) }
    ensures malformed { IsErr result → ¬ IsLabelLeft g.entry.grammar.now.core reader.old.left }
{
    let Ok(of_edge) = reader.bit() else {
        return Err(Malformed);
    };
    if of_edge {
        return pass_place(g, reader);
    }
    let Ok(is_output) = reader.bit() else {
        return Err(Malformed);
    };
    let start = &g.grammar.modules()[g.grammar.start().0 as usize];
    if is_output {
        return pass_port(reader, start.outputs().len());
    }
    pass_port(reader, start.inputs().len())
}

// A step or an ending of a place.
ghost use Rattle.std.specs.Prelude.{◌≡◌, ◌<◌, IfOk, IsErr, length};
ghost use Rattle.wf_model.specs.Grammar.{IsProductionOf, production_at};
ghost use Rattle.wf_model.specs.Steps.{step_of};
ghost use Rattle.label_model.specs.Continuing.{is_step};
ghost use Rattle.wf_loops.specs.Looped.{loop_in};
ghost use Rattle.wf_translate.specs.Parts.{HasNoLastNumber, HasNoPart, HasNoPosition, IsLastNumber, IsPartRead, IsPositionRead};

use crate::fault::PackLabelFault;
use crate::number::{read_alternative, read_bit, read_last, read_number};
use bit_pack::BitReader;
use wf_loops::Looped;
use wf_spec::{EdgeNo, Grammar, ModNo, PosNo, ProdNo, Step};

/// A step that is no loop step, or the production and the edge at which a place ends.
#[derive(Clone, Copy)]
pub(crate) enum StepOrEnd {
    Step(Step),
    End { production: ProdNo, edge: EdgeNo },
}

/// Whether a step is the loop step of a module.
fn is_loop(looped: &Looped, m: ModNo, step: Step) -> bool
    ensures { result ≡ is_step (loop_in looped.now.steps m.0) (step_of step) }
{
    match looped.loop_step(m) {
        Some(next) => {
            next.production.0 == step.production.0 && next.position.0 == step.position.0
        }
        None => false,
    }
}

/// Reads the position of a step by a production of a module. The step is not the loop step of the module.
fn read_position(
    looped: &Looped,
    reader: &mut BitReader<'_>,
    m: ModNo,
    p: ProdNo,
) -> Result<Step, PackLabelFault>
    requires { IsProductionOf looped.now.accepted.grammar.core p.0 m.0 }
    ensures read { IfOk result (λ s. IsPositionRead looped.now.accepted.grammar.core (loop_in looped.now.steps) m.0 p.0
        reader.old.left (step_of s) reader.new.left) }
    ensures malformed { IsErr result → HasNoPosition looped.now.accepted.grammar.core (loop_in looped.now.steps) m.0 p.0 reader.old.left }
{
    let g = looped.grammar();
    let rule = g.production(p);
    let positions = rule.positions();
    let i = read_number(reader, positions.len())?;
    let step = Step {
        production: p,
        position: PosNo(i as u8),
    };
    if is_loop(looped, m, step) {
        return Err(PackLabelFault::Malformed);
    }
    Ok(step)
}

/// Reads the edge of an ending by a production, behind which only zero bits are left, fewer than eight.
fn read_edge(g: &Grammar, reader: &mut BitReader<'_>, p: ProdNo) -> Result<EdgeNo, PackLabelFault>
    requires { p.0 < length g.now.core.productions }
    ensures read { IfOk result (λ e. IsLastNumber (length (production_at g.now.core p.0).edges) reader.old.left e.0) }
    ensures malformed { IsErr result → HasNoLastNumber (length (production_at g.now.core p.0).edges) reader.old.left }
{
    let rule = g.production(p);
    let edges = rule.edges();
    let e = read_last(reader, edges.len())?;
    prove!(e < 4096);
    Ok(EdgeNo(e as u16))
}

/// Reads a step or an ending at a composite module. After an ending only zero bits are left, fewer than eight.
pub(crate) fn read_part(
    looped: &Looped,
    reader: &mut BitReader<'_>,
    m: ModNo,
) -> Result<StepOrEnd, PackLabelFault>
    requires { m.0 < length looped.now.accepted.grammar.core.modules }
    ensures read { IfOk result (λ p. IsPartRead looped.now.accepted.grammar.core (loop_in looped.now.steps) m.0 reader.old.left p reader.new.left) }
    ensures malformed { IsErr result → HasNoPart looped.now.accepted.grammar.core (loop_in looped.now.steps) m.0 reader.old.left }
{
    let g = looped.grammar();
    let is_step = read_bit(reader)?;
    let production = read_alternative(g, reader, m)?;
    if is_step {
        let step = read_position(looped, reader, m, production)?;
        return Ok(StepOrEnd::Step(step));
    }
    let edge = read_edge(g, reader, production)?;
    Ok(StepOrEnd::End { production, edge })
}

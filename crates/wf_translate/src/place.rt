// A place, read step by step.
ghost use Rattle.std.specs.Prelude.{◌≡◌, ◌<◌, length, IfOk, IfErr, OnOk, MatchOption};
ghost use Rattle.wf_label.specs.Values.{label_place_of};
ghost use Rattle.wf_loops.specs.Looped.{loop_in};
ghost use Rattle.wf_translate.specs.Readable.{IsReadable, ReadsOut};
ghost use Rattle.wf_translate.specs.Chains.{IsPartTold, IsPlaceTurn, steps_seen};
ghost use Rattle.wf_translate.specs.Parts.{IsPartOf};
ghost use Rattle.wf_translate.specs.Translated.{IsPlaceRead};
ghost use Rattle.wf_translate.specs.declared.fault.PackLabelFault.TheVariants.{Malformed};

use crate::chain::{ChainEnd, pass_chain, tell_step};
use crate::fault::PackLabelFault;
use crate::part::{StepOrEnd, read_part};
use bit_pack::BitReader;
use std::alloc::{AllocError, Global};
use wf_label::{Place, PlaceStep};
use wf_loops::Looped;
use wf_spec::{EdgeNo, Grammar, ModNo, Seq};

/// What the reading of one step of a place comes to.
#[derive(Clone, Copy)]
pub(crate) enum PlaceTurn {
    /// The module to which the step leads.
    Module(ModNo),
    /// The end of the place.
    Ending {
        last: Option<u32>,
        alternative: u16,
        edge: EdgeNo,
    },
    /// An atomic module.
    Outside,
}

/// Tells a step or an ending behind a chain number.
fn tell_part(
    g: &Grammar,
    steps: &mut Vec<PlaceStep>,
    from: ChainEnd,
    part: StepOrEnd,
) -> Result<PlaceTurn, AllocError>
    requires { IsPartOf g.now.core from.module.0 part }
    ensures { IfOk result (λ t. IsPartTold g.now.core from.last part (steps_seen steps.old.items) (steps_seen steps.new.items) t) }
{
    match part {
        StepOrEnd::Step(step) => {
            let next = tell_step(g, steps, from.last, step)?;
            Ok(PlaceTurn::Module(next))
        }
        StepOrEnd::End { production, edge } => Ok(PlaceTurn::Ending {
            last: from.last,
            alternative: g.production(production).alternative(),
            edge,
        }),
    }
}

/// Reads one step of a place at a module: a chain number exactly if the module has a loop step, and a step or an ending.
///
/// Nothing is read on after an atomic module.
fn read_turn(
    looped: &Looped,
    reader: &mut BitReader<'_>,
    m: ModNo,
    steps: &mut Vec<PlaceStep>,
) -> Result<PlaceTurn, PackLabelFault>
    requires { m.0 < length looped.now.accepted.grammar.core.modules }
    ensures turn { IfOk result (λ t. IsPlaceTurn looped.now.accepted.grammar.core (loop_in looped.now.steps) m.0 reader.old.left reader.new.left
        (steps_seen steps.old.items) (steps_seen steps.new.items) t) }
    ensures malformed { IfErr result (λ f. f ≡ Malformed → IsReadable looped.now.accepted.grammar.core (loop_in looped.now.steps) m.0 reader.old.left → ⊥) }
{
    let g = looped.grammar();
    let end = pass_chain(looped, reader, m, steps)?;
    let Some(from) = end else {
        return Ok(PlaceTurn::Outside);
    };
    let part = read_part(looped, reader, from.module)?;
    let turn = tell_part(g, steps, from, part)?;
    Ok(turn)
}

/// Reads a place at the start module, and gives it as one of the package's grammar, or nothing where the reading comes to an atomic module.
pub(crate) fn read_place(
    alloc: Global,
    looped: &Looped,
    reader: &mut BitReader<'_>,
) -> Result<Option<Place>, PackLabelFault>
    ensures read { IfOk result (λ o. MatchOption o
        (ReadsOut looped.now.accepted.grammar.core (loop_in looped.now.steps) looped.now.accepted.grammar.core.start reader.old.left)
        (λ p. IsPlaceRead looped.now.accepted.grammar.core (loop_in looped.now.steps) looped.now.accepted.grammar.core.start
        reader.old.left (label_place_of p))) }
    ensures malformed { IfErr result (λ f. f ≡ Malformed →
        IsReadable looped.now.accepted.grammar.core (loop_in looped.now.steps) looped.now.accepted.grammar.core.start reader.old.left → ⊥) }
{
    let g = looped.grammar();
    let mut steps = Vec::new(alloc);
    let mut m = g.start();
    loop {
        let turn = read_turn(looped, reader, m, &mut steps)?;
        match turn {
            PlaceTurn::Module(next) => m = next,
            PlaceTurn::Ending {
                last,
                alternative,
                edge,
            } => {
                return Ok(Some(Place {
                    steps: Seq::from_vec(steps),
                    chain: last,
                    alternative,
                    edge,
                }));
            }
            PlaceTurn::Outside => return Ok(None),
        }
    }
}

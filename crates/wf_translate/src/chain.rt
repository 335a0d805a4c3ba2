// Chain numbers, which stand for loop steps.
ghost use Rattle.std.specs.Prelude.{◌≡◌, ◌≢◌, ◌+◌, ◌^◌, ◌<◌, ◌⊎◌, ◌++◌, ◌∷◌, [], Some, None, length, is_none, IfOk, IfErr, OnOk, MatchOption};
ghost use Rattle.wf_model.specs.Grammar.{IsAtomic, IsComposite, alternative_of, body_of};
ghost use Rattle.wf_model.specs.Reach.{target_of};
ghost use Rattle.wf_model.specs.Steps.{step_of};
ghost use Rattle.label_model.specs.Continuing.{continuing};
ghost use Rattle.package_model.specs.Translating.{GoesAlong};
ghost use Rattle.wf_loops.specs.Looped.{loop_in};
ghost use Rattle.wf_translate.specs.Readable.{IsReadable, ReadsOut};
ghost use Rattle.wf_translate.specs.Chains.{IsChainRead, IsChainTold, IsWalkEnd, IsWalked, StopsAlong, steps_seen};
ghost use Rattle.wf_translate.specs.declared.fault.PackLabelFault.TheVariants.{Malformed};

use crate::cycle::{is_on_cycle, passed};
use crate::fault::PackLabelFault;
use crate::number::read_number;
use bit_pack::BitReader;
use std::alloc::AllocError;
use wf_label::PlaceStep;
use wf_loops::Looped;
use wf_recur::target;
use wf_spec::{Grammar, ModNo, Step};

/// Where a chain number leads: to a composite module, with the number of continuing steps that stands last in the package's grammar.
#[derive(Clone, Copy)]
pub(crate) struct ChainEnd {
    pub(crate) module: ModNo,
    pub(crate) last: Option<u32>,
}

/// Tells a step that is not the continuing one, with the chain number before it, and gives the module to which it leads.
pub(crate) fn tell_step(
    g: &Grammar,
    steps: &mut Vec<PlaceStep>,
    chain: Option<u32>,
    step: Step,
) -> Result<ModNo, AllocError>
    requires production { step.production.0 < length g.now.core.productions }
    requires position { step.position.0 < length (body_of g.now.core step.production.0) }
    ensures target { IfOk result (λ m. m.0 ≡ target_of g.now.core (step_of step)) }
    ensures in_range { IfOk result (λ m. m.0 < length g.now.core.modules) }
    ensures told { OnOk result (steps_seen steps.new.items ≡ steps_seen steps.old.items ++
        record { chain = chain; alternative = alternative_of g.now.core step.production.0; position = step.position.0 } ∷ []) }
{
    steps.push(PlaceStep {
        chain,
        alternative: g.production(step.production).alternative(),
        position: step.position,
    })?;
    Ok(target(g, step))
}

/// The next loop step to be told: that of a module on no cycle, if one is left.
fn next_loop(looped: &Looped, m: ModNo, left: u32) -> Option<Step>
    requires { m.0 < length looped.now.accepted.grammar.core.modules }
    ensures { MatchOption result (IsWalkEnd looped.now.accepted.grammar.core (loop_in looped.now.steps) m.0 left)
        (λ s. (loop_in looped.now.steps m.0 ≡ Some (step_of s)) × (continuing looped.now.accepted.grammar.core m.0 ≡ None) × (0 < left)) }
{
    if left == 0 {
        return None;
    }
    let g = looped.linear();
    if is_on_cycle(g, m) {
        return None;
    }
    looped.loop_step(m)
}

/// Goes along loop steps, at most so many, up to a module on a cycle or one that has none, and tells each. Gives the module, and how many steps are left.
///
/// Cost: no more steps than there are modules, since loop steps off the cycles end.
fn walk(
    looped: &Looped,
    m: ModNo,
    count: u32,
    steps: &mut Vec<PlaceStep>,
) -> Result<(ModNo, u32), AllocError>
    requires in_range { m.0 < length looped.now.accepted.grammar.core.modules }
    requires loops { loop_in looped.now.steps m.0 ≢ None }
    ensures walked { IfOk result (λ r. IsWalked looped.now.accepted.grammar.core (loop_in looped.now.steps) m.0 count
        (steps_seen steps.old.items) (steps_seen steps.new.items) r.0.0 r.1) }
    ensures end { IfOk result (λ r. IsWalkEnd looped.now.accepted.grammar.core (loop_in looped.now.steps) r.0.0 r.1) }
{
    let g = looped.grammar();
    let mut k = m;
    let mut left = count;
    while let Some(step) = next_loop(looped, k, left) {
        let next = tell_step(g, steps, None, step)?;
        k = next;
        left -= 1;
    }
    Ok((k, left))
}

/// A module on no cycle as the end of a chain number, if it is composite.
fn end_at(g: &Grammar, m: ModNo) -> Option<ChainEnd>
    requires { m.0 < length g.now.core.modules }
    ensures { MatchOption result (IsAtomic g.now.core m.0) (λ e. (e.module ≡ m) × (e.last ≡ None) × IsComposite g.now.core m.0) }
{
    if g.is_composite(m) {
        Some(ChainEnd {
            module: m,
            last: None,
        })
    } else {
        None
    }
}

/// Goes along as many loop steps as a chain number counts, and tells those that are on no cycle.
///
/// Gives where they lead, and nothing where they come to an atomic module.
fn pass_loops(
    looped: &Looped,
    m: ModNo,
    count: u32,
    steps: &mut Vec<PlaceStep>,
) -> Result<Option<ChainEnd>, AllocError>
    requires in_range { m.0 < length looped.now.accepted.grammar.core.modules }
    requires loops { loop_in looped.now.steps m.0 ≢ None }
    requires few { count < 2 ^ 24 }
    ensures { IfOk result (λ o. MatchOption o (StopsAlong looped.now.accepted.grammar.core (loop_in looped.now.steps) m.0 (Some count))
        (λ e. IsChainTold looped.now.accepted.grammar.core (loop_in looped.now.steps) m.0 (Some count)
        (steps_seen steps.old.items) (steps_seen steps.new.items) e.module.0 e.last)) }
{
    let walked = walk(looped, m, count, steps)?;
    let g = looped.linear();
    if is_on_cycle(g, walked.0) {
        let module = passed(g, walked.0, walked.1);
        return Ok(Some(ChainEnd {
            module,
            last: Some(walked.1),
        }));
    }
    Ok(end_at(g.grammar, walked.0))
}

/// Passes the chain number of a module, which is there exactly if the module has a loop step.
///
/// Gives where it leads, and nothing where its loop steps, or none, lead to an atomic module.
pub(crate) fn pass_chain(
    looped: &Looped,
    reader: &mut BitReader<'_>,
    m: ModNo,
    steps: &mut Vec<PlaceStep>,
) -> Result<Option<ChainEnd>, PackLabelFault>
    requires { m.0 < length looped.now.accepted.grammar.core.modules }
    ensures read { IfOk result (λ o. MatchOption o (ReadsOut looped.now.accepted.grammar.core (loop_in looped.now.steps) m.0 reader.old.left)
        (λ e. IsChainRead looped.now.accepted.grammar.core (loop_in looped.now.steps) m.0 reader.old.left reader.new.left
        (steps_seen steps.old.items) (steps_seen steps.new.items) e.module.0 e.last)) }
    ensures malformed { IfErr result (λ f. f ≡ Malformed → IsReadable looped.now.accepted.grammar.core (loop_in looped.now.steps) m.0 reader.old.left → ⊥) }
{
    let g = looped.grammar();
    if looped.loop_step(m).is_none() {
        return Ok(end_at(g, m));
    }
    let c = read_number(reader, 1 << 24)?;
    let end = pass_loops(looped, m, c as u32, steps)?;
    Ok(end)
}

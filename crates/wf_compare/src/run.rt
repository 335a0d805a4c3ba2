// The run along a list of steps, and the instance to which they lead.
ghost use Rattle.std.specs.Prelude.{◌≡◌, ◌<◌, ◌≤◌, ℕ, length, map, IfOk};
ghost use Rattle.wf_model.specs.Lists.{IsIn};
ghost use Rattle.wf_model.specs.declared.body.Step.{Step as StepHeld};
ghost use Rattle.wf_model.specs.Grammar.{body_of};
ghost use Rattle.wf_model.specs.Steps.{step_of};
ghost use Rattle.wf_model.specs.View.{IsSeenModule};
ghost use Rattle.compare_model.specs.RunAlong.{run_along, name_along};
ghost use Rattle.compare_model.specs.Comparison.{IsShownBy};

use crate::route::first_route;
use numbered_names::{expand_event, numbered_name, start_event};
use std::alloc::{AllocError, Global};
use wf_spec::{Event, Grammar, ModNo, Name, ProdNo, Step};
use wf_view::GrammarView;

/// A run, and one of its instances.
#[derive(Drop)]
pub struct ShownRun {
    pub instance: Name,
    pub run: Vec<Event>,
}

/// How many positions the body of a production has.
fn position_count(g: &Grammar, p: ProdNo) -> usize
    requires { p.0 < length g.now.core.productions }
    ensures count { result ≡ length (body_of g.now.core p.0) }
    ensures few { result ≤ 64 }
{
    g.production(p).positions().len()
}

/// The run along a list of steps, and the instance to which they lead in it. Fails only for want of memory.
fn run_along(alloc: Global, g: &Grammar, steps: &[Step]) -> Result<ShownRun, AllocError>
    requires few { length steps.now ≤ 1024 }
    requires productions { (s : StepHeld) → IsIn s steps.now → s.production.0 < length g.now.core.productions }
    requires positions { (s : StepHeld) → IsIn s steps.now → s.position.0 < length (body_of g.now.core s.production.0) }
    ensures run { IfOk result (λ r. r.run.items ≡ run_along g.now.core (map step_of steps.now)) }
    ensures instance { IfOk result (λ r. r.instance ≡ name_along g.now.core (map step_of steps.now)) }
{
    let mut run = Vec::with_capacity(alloc, steps.len() + 1)?;
    run.push(start_event(alloc)?)?;
    let mut made = 1;
    let mut here = 0;
    let mut left = steps;
    while let [step, rest @ ..] = left {
        let count = position_count(g, step.production);
        run.push(expand_event(alloc, here, step.production, made, count)?)?;
        here = made + u32::from(step.position.0);
        made += count as u32;
        left = rest;
    }
    let instance = numbered_name(alloc, here)?;
    Ok(ShownRun { instance, run })
}

/// The run along the first of the shortest lists of steps to a module that the view sees, and the instance of the module to which they lead in it.
///
/// Cost: a look at each position of each body of an expanded module, and linear in the run. Fails only for want of memory.
pub fn shown_by(alloc: Global, v: GrammarView<'_>, m: ModNo) -> Result<ShownRun, AllocError>
    requires { IsSeenModule v.grammar.now.core v.view.now.core m.0 }
    ensures { IfOk result (λ r. IsShownBy v.entry.grammar.now.core v.entry.view.now.core m.0 r.instance r.run.items) }
{
    let steps = first_route(alloc, v, m)?;
    run_along(alloc, v.grammar, &steps)
}

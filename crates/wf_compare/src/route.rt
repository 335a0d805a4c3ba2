// The first of the shortest lists of steps to a module.
ghost use Rattle.std.specs.Prelude.{◌≡◌, ◌≤◌, ℕ, length, map, IfOk};
ghost use Rattle.wf_model.specs.Lists.{IsIn};
ghost use Rattle.wf_model.specs.Steps.{step_of};
ghost use Rattle.wf_model.specs.View.{IsSeenModule};
ghost use Rattle.wf_graph.specs.Routes.{IsRoute};
ghost use Rattle.compare_model.specs.Routes.{IsFirstShortestRoute};
ghost use Rattle.wf_compare.specs.declared.steps.Leading.{Leading as LeadingHeld};
ghost use Rattle.wf_compare.specs.Steps.{row_of, targets_in, AreOpenRows, IsFirstStep, AreFirstSteps};

use crate::steps::{Leading, StepGraph, all_open_steps};
use std::alloc::{AllocError, Global};
use wf_graph::first_shortest;
use wf_spec::{ModNo, Step};
use wf_view::GrammarView;

/// The first step of a list that leads to a module, of which there must be one.
fn first_step(row: &[Leading], to: u32) -> Step
    requires { (e : LeadingHeld) × IsIn e row.now × (e.target.0 ≡ to) }
    ensures { IsFirstStep row.now to result }
{
    let mut left = row;
    while let [one, rest @ ..] = left {
        if u32::from(one.target.0) == to {
            return one.step;
        }
        left = rest;
    }
    unreachable!()
}

/// The first steps along a route of modules.
///
/// Cost: a look at each step of each module of the route. Fails only for want of memory.
fn first_steps(
    alloc: Global,
    rows: &[Vec<Leading>],
    from: u32,
    route: &[u32],
) -> Result<Vec<Step>, AllocError>
    requires route { (to : ℕ) × IsRoute (targets_in rows.now) from route.now to }
    ensures { IfOk result (λ steps. AreFirstSteps (row_of rows.now) from route.now steps.items) }
{
    let mut steps = Vec::with_capacity(alloc, route.len())?;
    let mut at = from;
    let mut left = route;
    while let [next, rest @ ..] = left {
        steps.push(first_step(&rows[at as usize], *next))?;
        at = *next;
        left = rest;
    }
    Ok(steps)
}

/// The first of the shortest lists of steps from the start module to another, by the steps of all modules. Fails only for want of memory.
fn route_by(
    alloc: Global,
    v: GrammarView<'_>,
    rows: &[Vec<Leading>],
    to: ModNo,
) -> Result<Vec<Step>, AllocError>
    requires rows { AreOpenRows v.grammar.now.core v.view.now.core rows.now }
    requires seen { IsSeenModule v.grammar.now.core v.view.now.core to.0 }
    requires other { v.grammar.now.core.start ≡ to.0 → ⊥ }
    ensures route { IfOk result (λ steps. IsFirstShortestRoute v.entry.grammar.now.core v.entry.view.now.core to.0 (map step_of steps.items)) }
    ensures few { IfOk result (λ steps. length steps.items ≤ 1024) }
{
    let graph = StepGraph { rows };
    let start = v.grammar.start();
    let from = u32::from(start.0);
    let end = u32::from(to.0);
    let Some(route) = first_shortest(alloc, &graph, from, end)? else {
        unreachable!();
    };
    let steps = first_steps(alloc, rows, from, &route)?;
    Ok(steps)
}

/// The first of the shortest lists of steps from the start module to a seen module through modules that the view expands.
///
/// Of two lists as short that is first which has the earlier step where they part: by production, and then by position.
///
/// Cost: a look at each position of each body of an expanded module. Fails only for want of memory.
pub fn first_route(alloc: Global, v: GrammarView<'_>, to: ModNo) -> Result<Vec<Step>, AllocError>
    requires { IsSeenModule v.grammar.now.core v.view.now.core to.0 }
    ensures route { IfOk result (λ steps. IsFirstShortestRoute v.entry.grammar.now.core v.entry.view.now.core to.0 (map step_of steps.items)) }
    ensures few { IfOk result (λ steps. length steps.items ≤ 1024) }
{
    if v.grammar.start() == to {
        return Ok(Vec::new(alloc));
    }
    let rows = all_open_steps(alloc, v)?;
    route_by(alloc, v, &rows, to)
}

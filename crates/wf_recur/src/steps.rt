// The continuing steps of modules.
ghost use Rattle.std.specs.Prelude.{◌≡◌, ◌<◌, ◌++◌, ◌∷◌, ◌⊎◌, [], length, map, IfOk, IfErr, OnOk};
ghost use Rattle.std.specs.List.{filter};
ghost use Rattle.wf_model.specs.Grammar.{body_of};
ghost use Rattle.wf_model.specs.Linear.{IsLinear};
ghost use Rattle.wf_model.specs.Reach.{target_of};
ghost use Rattle.wf_model.specs.WellFormed.{IsWellFormed};
ghost use Rattle.wf_recur.specs.Cycles.{step_of};
ghost use Rattle.wf_recur.specs.Loops.{IsFaultOf};
ghost use Rattle.wf_recur.specs.Reaching.{AreDerived, rows_in};
ghost use Rattle.wf_recur.specs.Steps.{AreOnlySteps, IsFaultAt, TellsStep, all_back_steps, back_steps, leads_back};
ghost use Rattle.wf_recur.specs.declared.fault.RecurFault.TheVariants.{NoMemory};

use crate::fault::RecurFault;
use crate::reach::{derived, derives};
use std::alloc::{AllocError, Global};
use wf_spec::{Grammar, ModNo, PosNo, ProdNo, Step};

/// The module to which a step leads.
pub fn target(g: &Grammar, step: Step) -> ModNo
    requires production { step.production.0 < length g.now.core.productions }
    requires position { step.position.0 < length (body_of g.now.core step.production.0) }
    ensures target { result.0 ≡ target_of g.now.core (step_of step) }
    ensures in_range { result.0 < length g.now.core.modules }
{
    g.production(step.production).positions()[step.position.0 as usize].module
}

/// Adds a step, if what it leads to derives the module.
fn add_step(
    list: &mut Vec<Step>,
    g: &Grammar,
    rows: &[Vec<bool>],
    m: ModNo,
    step: Step,
) -> Result<(), AllocError>
    requires production { step.production.0 < length g.now.core.productions }
    requires position { step.position.0 < length (body_of g.now.core step.production.0) }
    requires module_no { m.0 < length g.now.core.modules }
    requires derived { AreDerived g.now.core (rows_in rows.now) }
    ensures { OnOk result (map step_of list.new.items ≡ map step_of list.old.items ++
        filter (leads_back g.now.core (rows_in rows.now) m.0) (step_of step ∷ [])) }
{
    if derives(rows, target(g, step), m) {
        list.push(step)?;
    }
    Ok(())
}

/// Adds the steps of a production that lead back to a module.
fn add_steps(
    list: &mut Vec<Step>,
    g: &Grammar,
    rows: &[Vec<bool>],
    m: ModNo,
    p: ProdNo,
) -> Result<(), AllocError>
    requires production { p.0 < length g.now.core.productions }
    requires module_no { m.0 < length g.now.core.modules }
    requires derived { AreDerived g.now.core (rows_in rows.now) }
    ensures { OnOk result (map step_of list.new.items ≡ map step_of list.old.items ++ back_steps g.now.core (rows_in rows.now) m.0 p.0) }
{
    for k in 0..g.production(p).positions().len() {
        let step = Step {
            production: p,
            position: PosNo(k as u8),
        };
        add_step(list, g, rows, m, step)?;
    }
    Ok(())
}

/// The steps of a module that lead back to it, by production, and then by position.
fn back_steps_of(
    alloc: Global,
    g: &Grammar,
    rows: &[Vec<bool>],
    m: ModNo,
) -> Result<Vec<Step>, AllocError>
    requires module_no { m.0 < length g.now.core.modules }
    requires derived { AreDerived g.now.core (rows_in rows.now) }
    ensures { IfOk result (λ list. map step_of list.items ≡ all_back_steps g.now.core (rows_in rows.now) m.0) }
{
    let mut list = Vec::new(alloc);
    for p in g.alternatives(m) {
        add_steps(&mut list, g, rows, m, *p)?;
    }
    Ok(list)
}

/// The continuing step of a module, and `None` where it stands on no cycle.
///
/// Errors: `TwoLoops` where it has two; `NoMemory`.
fn only_step(
    alloc: Global,
    g: &Grammar,
    rows: &[Vec<bool>],
    m: ModNo,
) -> Result<Option<Step>, RecurFault>
    requires module_no { m.0 < length g.now.core.modules }
    requires derived { AreDerived g.now.core (rows_in rows.now) }
    requires formed { IsWellFormed g.now.core }
    ensures only { IfOk result (λ o. TellsStep g.now.core m.0 o) }
    ensures refused { IfErr result (λ f. (f ≡ NoMemory) ⊎ IsFaultAt g.now.core m.0 f) }
{
    let steps = back_steps_of(alloc, g, rows, m)?;
    match steps.as_slice() {
        [] => Ok(None),
        [step] => Ok(Some(*step)),
        [first, second, ..] => Err(RecurFault::TwoLoops {
            module: m,
            first: *first,
            second: *second,
        }),
    }
}

/// The continuing step of each module, and `None` where it stands on no cycle.
///
/// Errors: `TwoLoops` where a module has two; `NoMemory` may come at any time.
///
/// Cost: as `derived`, and one look at each position of each body.
pub fn only_steps(alloc: Global, g: &Grammar) -> Result<Vec<Option<Step>>, RecurFault>
    ensures only { IfOk result (λ steps. AreOnlySteps g.now.core steps.items) }
    ensures linear { IfOk result (λ _. IsLinear g.now.core) }
    ensures refused { IfErr result (λ f. (f ≡ NoMemory) ⊎ IsFaultOf g.now.core f) }
{
    let rows = derived(alloc, g)?;
    let mut steps = Vec::new(alloc);
    for m in 0..g.modules().len() {
        let step = only_step(alloc, g, &rows, ModNo(m as u16))?;
        steps.push(step)?;
    }
    Ok(steps)
}

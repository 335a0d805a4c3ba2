// The loop steps that entries give to modules.
ghost use Rattle.std.specs.Prelude.{◌≡◌, ◌↔◌, ℕ, length, IfOk, IfErr, IsTrue, true, false, MatchOption};
ghost use Rattle.wf_model.specs.Linear.{IsStepOf};
ghost use Rattle.wf_model.specs.Steps.{step_of};
ghost use Rattle.wf_loops.specs.Entries.{IsEntryOf, AreEntriesOf, AreStepsByEntries, IsEntered, IsSecondEntry};
ghost use Rattle.wf_loops.specs.Tables.{steps_in};
ghost use Rattle.wf_loops.specs.declared.fault.LoopsFault.TheVariants.{BadLoops};

use crate::entries::LoopEntry;
use crate::fault::LoopsFault;
use std::alloc::Global;
use wf_spec::{Grammar, ModNo, Step};

/// Whether a step is one of a module: its production expands the module, and has the position.
fn is_step_of(g: &Grammar, m: ModNo, step: Step) -> bool
    ensures { IsTrue result ↔ IsStepOf g.now.core m.0 (step_of step) }
{
    if step.production.0 as usize >= g.productions().len() {
        return false;
    }
    let production = g.production(step.production);
    production.head() == m && (step.position.0 as usize) < production.positions().len()
}

/// The module that an entry names, if the step of the entry is one of it.
///
/// Cost: one look-up by hashing.
fn module_of(g: &Grammar, entry: &LoopEntry) -> Option<ModNo>
    ensures { MatchOption result ((m : ℕ) → IsEntryOf g.now.core entry.now m → ⊥) (λ m. IsEntryOf g.now.core entry.now m.0) }
{
    let _modules = g.modules();
    let m = g.find(entry.name())?;
    if is_step_of(g, m, entry.step()) {
        Some(m)
    } else {
        None
    }
}

/// Gives its step to the module that an entry names. Answers whether the step is one of the module, and the module had none; otherwise nothing changes.
fn enter(steps: &mut [Option<Step>], g: &Grammar, entry: &LoopEntry) -> bool
    requires { length steps.old ≡ length g.now.core.modules }
    ensures entered { result ≡ true → IsEntered g.now.core entry.now (steps_in steps.old) (steps_in steps.new) }
    ensures second { result ≡ false → IsSecondEntry g.now.core entry.now (steps_in steps.old) }
{
    let _modules = g.modules();
    let Some(m) = module_of(g, entry) else {
        return false;
    };
    let taken = steps[m.0 as usize].is_some();
    if taken {
        return false;
    }
    steps[m.0 as usize] = Some(entry.step());
    true
}

/// The loop step of each module by the entries, and `None` for a module that no entry names.
///
/// Errors: `BadLoops` where an entry names no module, or one that an entry before it names, or has a step that is not one of the module; `NoMemory`.
///
/// Cost: one look-up by hashing for each entry, and room for a step for each module.
pub fn steps_by_module(
    alloc: Global,
    g: &Grammar,
    entries: &[LoopEntry],
) -> Result<Vec<Option<Step>>, LoopsFault>
    ensures steps { IfOk result (λ steps. AreStepsByEntries g.now.core entries.now (steps_in steps.items)) }
    ensures bad { IfErr result (λ f. f ≡ BadLoops → AreEntriesOf g.now.core entries.now → ⊥) }
{
    let modules = g.modules();
    let mut steps = vec![in alloc; None; modules.len()]?;
    for entry in entries {
        if !enter(&mut steps, g, entry) {
            return Err(LoopsFault::BadLoops);
        }
    }
    Ok(steps)
}

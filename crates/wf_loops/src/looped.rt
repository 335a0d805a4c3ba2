// An accepted grammar with good loops.
ghost use Rattle.std.specs.Prelude.{◌≡◌, IfOk, IfErr, option_map};
ghost use Rattle.wf_model.specs.Steps.{step_of};
ghost use Rattle.package_model.specs.Loops.{AreLoopsOf, AreGoodLoops};
ghost use Rattle.wf_loops.specs.Looped.{IsLooped, loop_in};
ghost use Rattle.wf_loops.specs.Tables.{steps_in};
ghost use Rattle.wf_loops.specs.declared.fault.LoopsFault.TheVariants.{BadLoops};

use crate::entries::LoopEntry;
use crate::fault::LoopsFault;
use crate::good::are_good;
use crate::steps::steps_by_module;
use std::alloc::Global;
use std::marker::Model;
use wf_accept::Accepted;
use wf_recur::Linear;
use wf_spec::{Grammar, ModNo, Step};

/// An accepted grammar with good loops: which step each module has as its loop step, if it has one.
#[derive(Drop)]
pub struct Looped {
    accepted: Accepted,
    steps: Vec<Option<Step>>,
}

impl Model for Looped {
    ghost use Rattle.wf_loops.specs.Looped.{LoopedValue, IsLooped};
    ghost use Rattle.wf_loops.specs.Tables.{steps_in};

    ghost Value = { LoopedValue };

    ghost view = { λ l. record { accepted = l.accepted; steps = steps_in l.steps.items } };

    ghost invariant = { λ l. IsLooped (record { accepted = l.accepted; steps = steps_in l.steps.items }) };
}

/// The loop step of each module by the entries, if they are good loops of a grammar.
fn good_steps(
    alloc: Global,
    accepted: &Accepted,
    entries: &[LoopEntry],
) -> Result<Vec<Option<Step>>, LoopsFault>
    ensures looped { IfOk result (λ steps. IsLooped (record { accepted = accepted.now; steps = steps_in steps.items })) }
    ensures good { IfOk result (λ _. AreGoodLoops accepted.now.grammar.core entries.now) }
    ensures loops { IfOk result (λ steps. AreLoopsOf accepted.now.grammar.core entries.now (loop_in (steps_in steps.items))) }
    ensures bad { IfErr result (λ f. f ≡ BadLoops → AreGoodLoops accepted.now.grammar.core entries.now → ⊥) }
{
    let steps = steps_by_module(alloc, accepted.grammar(), entries)?;
    if !are_good(accepted.linear(), &steps) {
        return Err(LoopsFault::BadLoops);
    }
    Ok(steps)
}

impl Looped {
    /// The grammar with these loops, if they are good.
    ///
    /// Errors: `BadLoops` where they are not good; `NoMemory` may come at any time.
    ///
    /// Cost: for each entry one look-up by hashing, and for each module a look at its loop step and at where this leads. It keeps one step for each module.
    pub fn of(
        alloc: Global,
        accepted: Accepted,
        entries: &[LoopEntry],
    ) -> Result<Looped, LoopsFault>
        ensures accepted { IfOk result (λ l. l.accepted ≡ accepted) }
        ensures good { IfOk result (λ _. AreGoodLoops accepted.grammar.core entries.now) }
        ensures loops { IfOk result (λ l. AreLoopsOf accepted.grammar.core entries.now (loop_in l.steps)) }
        ensures bad { IfErr result (λ f. f ≡ BadLoops → AreGoodLoops accepted.grammar.core entries.now → ⊥) }
    {
        match good_steps(alloc, &accepted, entries) {
            Ok(steps) => Ok(Looped { accepted, steps }),
            Err(fault) => Err(fault),
        }
    }

    /// The grammar, with its ranks and its cycles.
    pub fn accepted(&self) -> &Accepted
        ensures accepted { result.now ≡ self.now.accepted }
        ensures good { IsLooped self.now }
    {
        &self.accepted
    }

    /// The grammar alone.
    pub fn grammar(&self) -> &Grammar
        ensures grammar { result.now ≡ self.now.accepted.grammar }
        ensures good { IsLooped self.now }
    {
        self.accepted.grammar()
    }

    /// The grammar with its cycles.
    pub fn linear(&self) -> Linear<'_>
        ensures grammar { result.grammar.now ≡ self.now.accepted.grammar }
        ensures cycles { result.cycles.now ≡ self.now.accepted.cycles }
        ensures good { IsLooped self.now }
    {
        self.accepted.linear()
    }

    /// The loop step of a module: none exactly where the module has no entry. Takes no memory.
    pub fn loop_step(&self, m: ModNo) -> Option<Step>
        ensures { option_map step_of result ≡ loop_in self.now.steps m.0 }
    {
        match self.steps.get(m.0 as usize) {
            Some(step) => *step,
            None => None,
        }
    }
}

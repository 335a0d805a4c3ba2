// Whether steps are a chain.
ghost use Rattle.std.specs.Prelude.{◌<◌, ◌↔◌, length, IsTrue, OnOk, IfErr, MatchOption};
ghost use Rattle.wf_model.specs.declared.numbers.Side.TheVariants.{Input};
ghost use Rattle.wf_chain.specs.ViewedRuns.{item_in, IsItemIn, IsVisibleIn};
ghost use Rattle.wf_model.specs.Lists.{IsIn};
ghost use Rattle.wf_flat.specs.Graph.{inst_at};
ghost use Rattle.wf_chain.specs.declared.chain.ChainStep.{ChainStep as StepHeld};
ghost use Rattle.wf_chain.specs.Steps.{IsUnopened, ConsumesIn, IsConsumedBy, IsLedTo, IsStepIn, GoesOn, IsWrong};
ghost use Rattle.wf_chain.specs.Chains.{AreStepsTo, IsChainIn, IsChainTo, end_in};

use crate::chain::{Chain, ChainStep, WrongStep};
use crate::viewed_run::ViewedRun;
use wf_flat::{Item, Port};

impl<'r> ViewedRun<'r> {
    /// The input at which the instance of a number consumes a visible item; None where it does not: it is not seen, or open, or no entries lead to it from where the item is consumed.
    ///
    /// This is the first half of `check_step`, and `leads_to` is the second: a step may be judged before its item is known.
    ///
    /// Cost: one step for each entry from where the item is consumed. Takes no memory.
    pub fn consumes(&self, item: &Item, via: u32) -> Option<Port>
        requires item { IsVisibleIn self.now item.now }
        requires via { via < length self.now.run.instances }
        ensures { MatchOption result (¬ ConsumesIn self.now (item_in self.now item.now) (inst_at self.now.run.instances via)) (IsConsumedBy self.now item.now via) }
    {
        // The run is one of the grammar: an item is consumed by one instance alone.
        let _run = self.run;
        let Some(input) = self.consumed_at(item) else {
            return None;
        };
        if input.instance != via {
            return None;
        }
        Some(input)
    }

    /// Whether an input of an instance that is not open leads to an item, which the view shows.
    ///
    /// Cost: one step for each exit to where the item is produced. Takes no memory.
    pub fn leads_to(&self, input: Port, item: &Item) -> bool
        requires input { IsUnopened self.now Input input }
        requires item { IsItemIn self.now item.now }
        ensures { IsTrue result ↔ IsLedTo self.now input (item_in self.now item.now) }
    {
        // The run is one of the grammar: an item is produced at one instance alone.
        let _run = self.run;
        if !self.shows(item) {
            return false;
        }
        let Some(output) = self.produced_at(item) else {
            return false;
        };
        if output.instance != input.instance {
            return false;
        }
        self.joins(input, output)
    }

    /// Whether a step goes on from a visible item: the next item is visible, and the first leads to it through the instance. Otherwise what is wrong.
    ///
    /// Errors, in order: `Via` where the instance does not consume the item; `Onward`.
    ///
    /// Cost: one step for each entry from where the item is consumed, and for each exit to where the next is produced. Takes no memory.
    pub fn check_step(&self, first: &Item, step: &ChainStep) -> Result<(), WrongStep>
        requires first { IsVisibleIn self.now first.now }
        requires step { IsStepIn self.now step.now }
        ensures right { OnOk result (GoesOn self.now first.now step.now) }
        ensures wrong { IfErr result (IsWrong self.now first.now step.now) }
    {
        let Some(input) = self.consumes(first, step.via) else {
            return Err(WrongStep::Via);
        };
        if self.leads_to(input, &step.item) {
            return Ok(());
        }
        Err(WrongStep::Onward)
    }

    /// Whether steps go on from a visible item, one after the other.
    fn go_on(&self, first: &Item, steps: &[ChainStep]) -> bool
        requires first { IsVisibleIn self.now first.now }
        requires steps { (s : StepHeld) → IsIn s steps.now → IsStepIn self.now s }
        ensures { IsTrue result ↔ AreStepsTo self.now first.now steps.now (end_in self.now first.now steps.now) }
    {
        let mut at = *first;
        for step in steps {
            match self.check_step(&at, step) {
                Ok(()) => at = step.item,
                Err(_) => return false,
            }
        }
        true
    }

    /// Whether steps from an item are a chain to the last of their items.
    ///
    /// Cost: that of `check_step` for each step, up to the first that is wrong: linear in the steps and in the entries and exits of the run, since no two items of a chain have an entry or an exit in common. Searches no path, and takes no memory.
    pub fn check_chain(&self, c: &Chain) -> bool
        requires { IsChainIn self.now c.now }
        ensures { IsTrue result ↔ IsChainTo self.now c.now.first c.now.steps.items (end_in self.now c.now.first c.now.steps.items) }
    {
        if c.steps.is_empty() {
            return false;
        }
        if !self.shows(&c.first) {
            return false;
        }
        self.go_on(&c.first, &c.steps)
    }
}

// Entries of the loops of a package.
ghost use Rattle.std.specs.Prelude.{◌≡◌};
ghost use Rattle.wf_model.specs.Steps.{step_of};

use std::marker::Model;
use wf_spec::{Name, Step};

/// An entry of the loops of a package: the name of a module, and a step.
#[derive(Drop)]
pub struct LoopEntry {
    name: Name,
    step: Step,
}

impl Model for LoopEntry {
    ghost use Rattle.wf_model.specs.Steps.{step_of};
    ghost use Rattle.package_model.specs.Packages.{LoopEntry as LoopEntrySeen};

    ghost Value = { LoopEntrySeen };

    ghost view = { λ e. record { module_name = e.name; step = step_of e.step } };
}

impl LoopEntry {
    /// The entry that gives this step to the module of this name.
    pub fn new(name: Name, step: Step) -> LoopEntry
        ensures name { result.module_name ≡ name }
        ensures step { result.step ≡ step_of step }
    {
        LoopEntry { name, step }
    }

    /// The name of the module.
    pub fn name(&self) -> &[u8]
        ensures { result.now ≡ self.now.module_name }
    {
        self.name.bytes()
    }

    /// The step.
    pub fn step(&self) -> Step
        ensures { step_of result ≡ self.now.step }
    {
        self.step
    }
}

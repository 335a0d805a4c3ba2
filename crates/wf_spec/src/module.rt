// Modules.
ghost use Rattle.std.specs.Prelude.{◌≡◌};

use std::marker::Model;
use wf_model::{Name, Seq};

/// A module.
#[derive(Drop)]
pub struct Module {
    name: Name,
    inputs: Seq<Name>,
    outputs: Seq<Name>,
}

impl Model for Module {
    ghost use Rattle.wf_model.specs.Grammar.{Module as ModuleSeen};

    ghost Value = { ModuleSeen };

    ghost view = { λ m. record { name = m.name; inputs = m.inputs; outputs = m.outputs } };
}

impl Module {
    pub fn new(name: Name, inputs: Seq<Name>, outputs: Seq<Name>) -> Module
        ensures name { result.name ≡ name }
        ensures inputs { result.inputs ≡ inputs }
        ensures outputs { result.outputs ≡ outputs }
    {
        Module {
            name,
            inputs,
            outputs,
        }
    }

    pub fn name(&self) -> &[u8]
        ensures { result.now ≡ self.now.name }
    {
        self.name.bytes()
    }

    pub fn inputs(&self) -> &[Name]
        ensures { result.now ≡ self.now.inputs }
    {
        self.inputs.items()
    }

    pub fn outputs(&self) -> &[Name]
        ensures { result.now ≡ self.now.outputs }
    {
        self.outputs.items()
    }
}

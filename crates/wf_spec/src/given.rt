// Pairs that are given to modules.
ghost use Rattle.std.specs.Prelude.{◌≡◌, map};

use std::marker::Model;
use wf_model::{ModNo, PortNo};

/// A pair of an input and an output.
#[derive(Clone, Copy)]
pub struct Pair {
    pub input: PortNo,
    pub output: PortNo,
}

/// The pairs that a deps part gives to a module.
#[derive(Drop)]
pub struct Given {
    module: ModNo,
    pairs: Vec<Pair>,
}

impl Model for Given {
    ghost use Rattle.std.specs.Prelude.{map};
    ghost use Rattle.wf_model.specs.Grammar.{Given as GivenSeen};

    ghost Value = { GivenSeen };

    ghost view = { λ d. record { module_no = d.module.0; pairs = map (λ e. (e.input.0, e.output.0)) d.pairs.items } };
}

impl Given {
    pub fn new(number: ModNo, pairs: Vec<Pair>) -> Given
        ensures module_no { result.module_no ≡ number.0 }
        ensures pairs { result.pairs ≡ map (λ e. (e.input.0, e.output.0)) pairs.items }
    {
        Given {
            module: number,
            pairs,
        }
    }

    pub fn module(&self) -> ModNo
        ensures { result.0 ≡ self.now.module_no }
    {
        self.module
    }

    pub fn pairs(&self) -> &[Pair]
        ensures { map (λ e. (e.input.0, e.output.0)) result.now ≡ self.now.pairs }
    {
        &self.pairs
    }
}

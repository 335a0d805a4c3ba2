// What is known of a proper grammar.
ghost use Rattle.std.specs.Prelude.{◌≡◌, ◌<◌, length, map, get_or};

use std::marker::Model;
use wf_spec::{ModNo, ProdNo};

/// The ranks of the modules of a proper grammar, and the production of each composite module that attains its rank.
#[derive(Drop)]
pub struct Proper {
    ranks: Vec<u32>,
    choices: Vec<ProdNo>,
}

impl Model for Proper {
    ghost use Rattle.std.specs.Prelude.{map};
    ghost use Rattle.wf_check.specs.Proper.{Ranking};

    ghost Value = { Ranking };

    ghost view = { λ p. record { ranks = p.ranks.items; choices = map (λ c. c.0) p.choices.items } };
}

impl Proper {
    pub(crate) fn of_tables(ranks: Vec<u32>, choices: Vec<ProdNo>) -> Proper
        ensures ranks { result.ranks ≡ ranks.items }
        ensures choices { result.choices ≡ map (λ c. c.0) choices.items }
    {
        Proper { ranks, choices }
    }

    /// The rank of a module: 0 for an atomic one. For a composite one it is the least number, over its productions, of one more than the greatest rank in the body.
    pub fn rank(&self, m: ModNo) -> u32
        requires { m.0 < length self.now.ranks }
        ensures { result ≡ get_or self.now.ranks m.0 0 }
    {
        self.ranks[m.0 as usize]
    }

    /// The least production of a composite module that attains its rank.
    pub fn choice(&self, m: ModNo) -> ProdNo
        requires { m.0 < length self.now.choices }
        ensures { result.0 ≡ get_or self.now.choices m.0 0 }
    {
        self.choices[m.0 as usize]
    }
}

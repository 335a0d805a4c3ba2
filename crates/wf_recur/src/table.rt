// The cycles of a grammar.
ghost use Rattle.std.specs.Prelude.{◌≡◌, ◌<◌, [], None, length, get_or, option_map};
ghost use Rattle.wf_recur.specs.Cycles.{on_of, AreFewRounds};
ghost use Rattle.wf_recur.specs.Rounds.{rounds_in, stands_in};

use std::marker::Model;
use wf_spec::{ModNo, Step};

/// The number of a cycle: cycles are numbered by their least modules, from 0.
#[derive(Clone, Copy, Debug, PartialEq, Eq)]
pub struct CycleNo(pub u16);

/// Where a module stands on a cycle, and its continuing step.
#[derive(Clone, Copy, Debug, PartialEq, Eq)]
pub struct OnCycle {
    pub cycle: CycleNo,
    pub place: u16,
    pub step: Step,
}

/// The cycles of a strictly linear grammar.
#[derive(Drop)]
pub struct Cycles {
    rounds: Vec<Vec<ModNo>>,
    on: Vec<Option<OnCycle>>,
}

impl Model for Cycles {
    ghost use Rattle.std.specs.Prelude.{map, option_map};
    ghost use Rattle.wf_recur.specs.Cycles.{CyclesSeen, on_of, AreFewRounds};

    ghost Value = { CyclesSeen };

    ghost view = { λ c. record { rounds = map (λ r. map (λ m. m.0) r.items) c.rounds.items; on = map (option_map on_of) c.on.items } };

    ghost invariant = { λ c. AreFewRounds (map (λ r. map (λ m. m.0) r.items) c.rounds.items) };
}

impl Cycles {
    /// The cycles whose modules these are, by place, and where each module stands.
    pub(crate) fn of_tables(rounds: Vec<Vec<ModNo>>, on: Vec<Option<OnCycle>>) -> Cycles
        requires { AreFewRounds (rounds_in rounds.items) }
        ensures rounds { result.rounds ≡ rounds_in rounds.items }
        ensures on { result.on ≡ stands_in on.items }
    {
        Cycles { rounds, on }
    }

    /// Where a module stands on a cycle, and `None` where it is on none.
    pub fn on(&self, m: ModNo) -> Option<OnCycle>
        requires { m.0 < length self.now.on }
        ensures { option_map on_of result ≡ get_or self.now.on m.0 None }
    {
        self.on[m.0 as usize]
    }

    /// How many cycles there are.
    pub fn count(&self) -> u16
        ensures { result ≡ length self.now.rounds }
    {
        self.rounds.len() as u16
    }

    /// How many modules a cycle has.
    pub fn length(&self, c: CycleNo) -> u16
        requires { c.0 < length self.now.rounds }
        ensures { result ≡ length (get_or self.now.rounds c.0 []) }
    {
        self.rounds[c.0 as usize].len() as u16
    }

    /// The module at a place of a cycle. Place 0 is its least module, and places follow the continuing steps.
    pub fn at(&self, c: CycleNo, place: u16) -> ModNo
        requires cycle { c.0 < length self.now.rounds }
        requires place { place < length (get_or self.now.rounds c.0 []) }
        ensures { result.0 ≡ get_or (get_or self.now.rounds c.0 []) place 0 }
    {
        self.rounds[c.0 as usize][place as usize]
    }
}

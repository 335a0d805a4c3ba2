// Automata.
ghost use Rattle.std.specs.Prelude.{◌≡◌, ◌<◌, ◌↔◌, IsTrue};
ghost use Rattle.wf_model.specs.Lists.{IsIn};
ghost use Rattle.words_model.specs.Automata.{IsAutomaton, next_state};
ghost use Rattle.words_model.specs.Lifting.{in_state};
ghost use Rattle.wf_automaton.specs.Tables.{AreTablesOf};

use std::marker::Model;
use wf_model::{ModNo, Seq};

/// A move of an automaton: in the state `from`, past the module, it goes on to the state `to`.
#[derive(Drop)]
pub struct Move {
    from: u64,
    module: ModNo,
    to: u64,
}

impl Model for Move {
    ghost use Rattle.words_model.specs.Automata.{Move as SeenMove};

    ghost Value = { SeenMove };

    ghost view = { λ v. record { from = v.from; module_no = v.«module».0; to = v.to } };
}

impl Move {
    pub(crate) fn new(from: u64, module: ModNo, to: u64) -> Move
        ensures from { result.from ≡ from }
        ensures passed { result.module_no ≡ «module».0 }
        ensures to { result.to ≡ to }
    {
        Move { from, module, to }
    }

    /// The state in which the move is taken.
    pub fn from(&self) -> u64
        ensures { result ≡ self.now.from }
    {
        self.from
    }

    /// The module past which it is taken.
    pub fn module(&self) -> ModNo
        ensures { result.0 ≡ self.now.module_no }
    {
        self.module
    }

    /// The state to which it leads.
    pub fn to(&self) -> u64
        ensures { result ≡ self.now.to }
    {
        self.to
    }
}

/// The place of a state past a module in a table with a place for each module and each state.
pub(crate) fn place_in(states: u8, s: u8, m: ModNo) -> usize
    ensures { result ≡ in_state states s m.0 }
{
    m.0 as usize * states as usize + s as usize
}

/// An automaton over the modules of a grammar.
///
/// Its states are numbered from 0. Where it has no move for a state and a module, the state stays.
#[derive(Drop)]
pub struct Automaton {
    states: u8,
    start: u8,
    accept: Seq<u64>,
    moves: Seq<Move>,
    /// A flag for each state, set where it accepts.
    flags: Vec<bool>,
    /// Where the moves lead: for each module, and then for each state, a state.
    table: Vec<Option<u8>>,
}

impl Model for Automaton {
    ghost use Rattle.std.specs.Prelude.{map};
    ghost use Rattle.wf_automaton.specs.Tables.{SeenAutomaton, AreTablesOf};

    ghost Value = { SeenAutomaton };

    ghost view = { λ a. record { states = a.states; start = a.start; accept = a.accept; moves = a.moves } };

    ghost invariant = { λ a. AreTablesOf (record { states = a.states; start = a.start; accept = a.accept; moves = a.moves }) a.flags.items a.table.items };
}

impl Automaton {
    pub(crate) fn of_tables(
        states: u8,
        start: u8,
        accept: Seq<u64>,
        moves: Vec<Move>,
        flags: Vec<bool>,
        table: Vec<Option<u8>>,
    ) -> Automaton
        requires { AreTablesOf (record { states = states; start = start; accept = accept; moves = moves.items }) flags.items table.items }
        ensures { result ≡ record { states = states; start = start; accept = accept; moves = moves.items } }
    {
        Automaton {
            states,
            start,
            accept,
            moves: Seq::from_vec(moves),
            flags,
            table,
        }
    }

    /// The number of states.
    pub fn states(&self) -> u8
        ensures states { result ≡ self.now.states }
        ensures formed { IsAutomaton self.now }
    {
        self.states
    }

    /// The state where it starts.
    pub fn start(&self) -> u8
        ensures start { result ≡ self.now.start }
        ensures formed { IsAutomaton self.now }
    {
        self.start
    }

    /// Whether a state accepts. Takes no memory.
    pub fn accepts(&self, s: u8) -> bool
        ensures { IsTrue result ↔ IsIn s self.now.accept }
    {
        let s = s as usize;
        s < self.flags.len() && self.flags[s]
    }

    /// The state to which a state leads past a module. Takes no memory.
    pub fn next(&self, s: u8, m: ModNo) -> u8
        requires { s < self.now.states }
        ensures { result ≡ next_state self.now s m.0 }
    {
        match self.table.get(place_in(self.states, s, m)) {
            Some(t) => t.unwrap_or(s),
            None => s,
        }
    }
}

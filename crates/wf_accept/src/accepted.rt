// An accepted grammar, with its ranks and its cycles.
ghost use Rattle.std.specs.Prelude.{◌≡◌};
ghost use Rattle.wf_accept.specs.Accepted.{IsAccepted};

use std::marker::Model;
use wf_check::Proper;
use wf_recur::{Cycles, Linear};
use wf_spec::Grammar;

/// An accepted grammar: it is proper and strictly linear, and each of its earlier versions keeps its cycles. With it stand the ranks of its modules and its cycles.
#[derive(Drop)]
pub struct Accepted {
    grammar: Grammar,
    ranking: Proper,
    cycles: Cycles,
}

impl Model for Accepted {
    ghost use Rattle.wf_accept.specs.Accepted.{AcceptedValue, IsAccepted};

    ghost Value = { AcceptedValue };

    ghost view = { λ a. record { grammar = a.grammar; ranking = a.ranking; cycles = a.cycles } };

    ghost invariant = { λ a. IsAccepted (record { grammar = a.grammar; ranking = a.ranking; cycles = a.cycles }) };
}

impl Accepted {
    /// A grammar with its ranks and its cycles, of which it is known that it is accepted. `accept` makes it of any grammar that is.
    pub fn of_parts(grammar: Grammar, ranking: Proper, cycles: Cycles) -> Accepted
        requires { IsAccepted (record { grammar = grammar; ranking = ranking; cycles = cycles }) }
        ensures { result ≡ record { grammar = grammar; ranking = ranking; cycles = cycles } }
    {
        Accepted {
            grammar,
            ranking,
            cycles,
        }
    }

    /// The grammar.
    #[inline]
    pub fn grammar(&self) -> &Grammar
        ensures grammar { result.now ≡ self.now.grammar }
        ensures accepted { IsAccepted self.now }
    {
        &self.grammar
    }

    /// The ranks of its modules.
    #[inline]
    pub fn ranking(&self) -> &Proper
        ensures ranking { result.now ≡ self.now.ranking }
        ensures accepted { IsAccepted self.now }
    {
        &self.ranking
    }

    /// Its cycles.
    #[inline]
    pub fn cycles(&self) -> &Cycles
        ensures cycles { result.now ≡ self.now.cycles }
        ensures accepted { IsAccepted self.now }
    {
        &self.cycles
    }

    /// The grammar with its cycles.
    #[inline]
    pub fn linear(&self) -> Linear<'_>
        ensures grammar { result.grammar.now ≡ self.now.grammar }
        ensures cycles { result.cycles.now ≡ self.now.cycles }
        ensures accepted { IsAccepted self.now }
    {
        Linear {
            grammar: &self.grammar,
            cycles: &self.cycles,
        }
    }

    /// The grammar alone.
    pub fn into_grammar(self) -> Grammar
        ensures { result ≡ self.grammar }
    {
        self.grammar
    }
}

// Productions.
ghost use Rattle.std.specs.Prelude.{◌≡◌, map};
ghost use Rattle.wf_model.specs.Meaning.{position_of, inner_of, edge_of};

use crate::rule::Rule;
use std::marker::Model;
use wf_model::{Edge, Inner, ModNo, Position};

/// A production.
#[derive(Drop)]
pub struct Production {
    rule: Rule,
    alternative: u16,
}

impl Model for Production {
    ghost use Rattle.wf_spec.specs.Held.{HeldProduction};

    ghost Value = { HeldProduction };

    ghost view = { λ p. record { core = p.rule; alternative = p.alternative } };
}

impl Production {
    /// A production, with its alternative number.
    pub fn of_rule(rule: Rule, alternative: u16) -> Production
        ensures core { result.core ≡ rule }
        ensures alternative { result.alternative ≡ alternative }
    {
        Production { rule, alternative }
    }

    /// The module that it expands.
    pub fn head(&self) -> ModNo
        ensures { result.0 ≡ self.now.core.head }
    {
        self.rule.head()
    }

    /// The alternative number: the place among the productions of the head.
    pub fn alternative(&self) -> u16
        ensures { result ≡ self.now.alternative }
    {
        self.alternative
    }

    pub fn positions(&self) -> &[Position]
        ensures { map position_of result.now ≡ self.now.core.positions }
    {
        self.rule.positions()
    }

    pub fn edges(&self) -> &[Edge]
        ensures { map edge_of result.now ≡ self.now.core.edges }
    {
        self.rule.edges()
    }

    /// Where the entry from each input of the head leads.
    pub fn entries(&self) -> &[Inner]
        ensures { map inner_of result.now ≡ self.now.core.entries }
    {
        self.rule.entries()
    }

    /// Where the exit to each output of the head comes from.
    pub fn exits(&self) -> &[Inner]
        ensures { map inner_of result.now ≡ self.now.core.exits }
    {
        self.rule.exits()
    }
}

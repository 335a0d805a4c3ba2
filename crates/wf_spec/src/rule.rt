// Productions, without their alternative numbers.
ghost use Rattle.std.specs.Prelude.{◌≡◌, map};
ghost use Rattle.wf_model.specs.Meaning.{position_of, inner_of, edge_of};

use std::marker::Model;
use wf_model::{Edge, Inner, ModNo, Position, Seq};

/// A production, without its alternative number.
#[derive(Drop)]
pub struct Rule {
    head: ModNo,
    positions: Seq<Position>,
    edges: Seq<Edge>,
    entries: Seq<Inner>,
    exits: Seq<Inner>,
}

impl Model for Rule {
    ghost use Rattle.std.specs.Prelude.{map};
    ghost use Rattle.wf_model.specs.Meaning.{position_of, inner_of, edge_of};
    ghost use Rattle.wf_model.specs.Grammar.{Production};

    ghost Value = { Production };

    ghost view = { λ p. record {
      head = p.head.0;
      positions = map position_of p.positions;
      edges = map edge_of p.edges;
      entries = map inner_of p.entries;
      exits = map inner_of p.exits;
    } };
}

impl Rule {
    pub fn new(
        head: ModNo,
        positions: Seq<Position>,
        edges: Seq<Edge>,
        entries: Seq<Inner>,
        exits: Seq<Inner>,
    ) -> Rule
        ensures head { result.head ≡ head.0 }
        ensures positions { result.positions ≡ map position_of positions }
        ensures edges { result.edges ≡ map edge_of edges }
        ensures entries { result.entries ≡ map inner_of entries }
        ensures exits { result.exits ≡ map inner_of exits }
    {
        Rule {
            head,
            positions,
            edges,
            entries,
            exits,
        }
    }

    pub fn head(&self) -> ModNo
        ensures { result.0 ≡ self.now.head }
    {
        self.head
    }

    pub fn positions(&self) -> &[Position]
        ensures { map position_of result.now ≡ self.now.positions }
    {
        self.positions.items()
    }

    pub fn edges(&self) -> &[Edge]
        ensures { map edge_of result.now ≡ self.now.edges }
    {
        self.edges.items()
    }

    pub fn entries(&self) -> &[Inner]
        ensures { map inner_of result.now ≡ self.now.entries }
    {
        self.entries.items()
    }

    pub fn exits(&self) -> &[Inner]
        ensures { map inner_of result.now ≡ self.now.exits }
    {
        self.exits.items()
    }
}

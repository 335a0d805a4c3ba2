// Labels of views.
ghost use Rattle.std.specs.Prelude.{◌≡◌, ◌<◌, length, get_or, IfOk};
ghost use Rattle.wf_model.specs.Grammar.{body_of, inputs_of, outputs_of};
ghost use Rattle.wf_model.specs.Proper.{IsProper};
ghost use Rattle.wf_recur.specs.Cycles.{round_at};
ghost use Rattle.wf_body.specs.Matrices.{step_of};
ghost use Rattle.decode_model.specs.Legs.{still};
ghost use Rattle.wf_safe.specs.Full.{AreFullRows};
ghost use Rattle.wf_vlabel.specs.Cuts.{IsCut};
ghost use Rattle.wf_vlabel.specs.Tables.{begins};
ghost use Rattle.wf_vlabel.specs.Seen.{IsLabelOfView, IsViewLabel, Opens, OpensRound, Sees, is_expanded, matrices_of};
ghost use Rattle.wf_vlabel.specs.Seen.{HasFullSize, HasSizeInto, HasSizeOutOf, HasSizeBetween, HasSquareSize};

use crate::bodies::body_groups;
use crate::cycle_tables::cycle_tables;
use crate::full::full_groups;
use crate::groups::Groups;
use crate::rounds::stills::Stills;
use crate::sight::Sight;
use bool_mat::MatRef;
use std::alloc::{AllocError, Global};
use std::marker::Model;
use wf_recur::{CycleNo, Cycles, Linear};
use wf_safe::{FullDeps, SafeView};
use wf_spec::{Grammar, ModNo, PosNo, Step};

/// The label of a safe view: for each seen module the pairs that every expansion of it joins, for each body that the view shows the matrices of its paths, and for each cycle that the view shows whole those of many rounds.
///
/// It rests on the grammar and the view alone, and on no run. Below the limits of a grammar its matrices take less than 100 MB.
///
/// Source of the idea: Bao, Davidson, Milo, "Labeling Workflow Views with Fine-Grained Dependencies", VLDB 2012 (view labels).
#[derive(Drop)]
pub struct ViewLabel<'a> {
    linear: Linear<'a>,
    expanded: Vec<bool>,
    full: Groups,
    bodies: Groups,
    squares: Groups,
    stills: Vec<Stills>,
    cuts: Vec<Option<u32>>,
}

impl<'a> Model for ViewLabel<'a> {
    ghost use Rattle.wf_vlabel.specs.Seen.{ViewLabelSeen};
    ghost use Rattle.wf_vlabel.specs.Held.{IsKept};

    ghost Value = { ViewLabelSeen };

    ghost view = { λ l. record {
      grammar = l.linear.grammar.now.core;
      cycles = l.linear.cycles.now;
      flags = l.expanded.items;
      full = l.full;
      bodies = l.bodies;
      squares = l.squares;
    } };

    ghost invariant = { λ l. IsKept (record {
      grammar = l.linear.grammar.now.core;
      cycles = l.linear.cycles.now;
      flags = l.expanded.items;
      full = l.full;
      bodies = l.bodies;
      squares = l.squares;
    }) l.stills.items l.cuts.items };
}

impl<'a> ViewLabel<'a> {
    /// The label of a safe view of an accepted grammar. Fails only for want of memory.
    ///
    /// Cost: for each position of each body that the view shows three passes through the body, and for each module of a cycle 52 products of matrices at most.
    pub fn build(alloc: Global, safe: &SafeView<'a>) -> Result<ViewLabel<'a>, AllocError>
        ensures label { IfOk result (λ l. IsLabelOfView l safe.now.view.core) }
        ensures grammar { IfOk result (λ l. l.grammar ≡ safe.now.accepted.grammar.core) }
        ensures cycles { IfOk result (λ l. l.cycles ≡ safe.now.accepted.cycles) }
    {
        let sight = Sight {
            linear: safe.linear(),
            view: safe.view(),
        };
        ViewLabel::of_sight(alloc, sight, safe.full())
    }

    /// The label of a view of a proper grammar, from the pairs of the modules.
    fn of_sight(
        alloc: Global,
        s: Sight<'a, '_>,
        full: &FullDeps,
    ) -> Result<ViewLabel<'a>, AllocError>
        requires proper { IsProper s.linear.grammar.now.core }
        requires full { AreFullRows s.linear.grammar.now.core s.view.now.core full.now }
        ensures label { IfOk result (λ l. IsLabelOfView l s.entry.view.now.core) }
        ensures grammar { IfOk result (λ l. l.grammar ≡ s.entry.linear.grammar.now.core) }
        ensures cycles { IfOk result (λ l. l.cycles ≡ s.entry.linear.cycles.now) }
    {
        let _modules = s.linear.grammar.modules();
        let expanded = Vec::from_slice(alloc, s.view.marks())?;
        let pairs = full_groups(alloc, s.linear.grammar, full)?;
        let bodies = body_groups(alloc, s, full)?;
        match cycle_tables(alloc, s, full, &bodies) {
            Ok(tables) => Ok(ViewLabel {
                linear: s.linear,
                expanded,
                full: pairs,
                bodies,
                squares: tables.squares,
                stills: tables.stills,
                cuts: tables.cuts,
            }),
            Err(wanting) => Err(wanting),
        }
    }

    /// The grammar that `build` was given.
    pub fn grammar(&self) -> &'a Grammar
        ensures grammar { result.now.core ≡ self.now.grammar }
        ensures label { IsViewLabel self.now }
    {
        self.linear.grammar
    }

    /// The cycles that `build` was given.
    pub fn cycles(&self) -> &'a Cycles
        ensures cycles { result.now ≡ self.now.cycles }
        ensures label { IsViewLabel self.now }
    {
        self.linear.cycles
    }

    /// The grammar with its cycles, as `build` was given them.
    pub fn linear(&self) -> Linear<'a>
        ensures grammar { result.grammar.now.core ≡ self.now.grammar }
        ensures cycles { result.cycles.now ≡ self.now.cycles }
        ensures label { IsViewLabel self.now }
    {
        self.linear
    }

    /// Whether the view expands a module.
    pub fn expanded(&self, m: ModNo) -> bool
        ensures { result ≡ is_expanded self.now m.0 }
    {
        let m = m.0 as usize;
        m < self.expanded.len() && self.expanded[m]
    }

    /// The pairs that every expansion of a seen module joins: input `i` and output `o` for row `i` and column `o`.
    pub fn full(&self, m: ModNo) -> MatRef<'_>
        requires { Sees self.now m.0 }
        ensures same { result ≡ (matrices_of self.now).full m.0 }
        ensures size { HasFullSize self.now.grammar m.0 result }
    {
        self.full.matrix(m.0 as usize, 0)
    }

    /// The matrix from the head of a production to a position of it, for a head that is seen and expanded: it joins input `i` of the head to input `j` of the position exactly if a path in the body does.
    pub fn into_position(&self, s: Step) -> MatRef<'_>
        requires { Opens self.now (step_of s) }
        ensures same { result ≡ (matrices_of self.now).into (step_of s) }
        ensures size { HasSizeInto self.now.grammar (step_of s) result }
    {
        self.bodies.matrix(s.production.0 as usize, self.begins(s))
    }

    /// The matrix from a position to the head of its production, for a head that is seen and expanded: it joins output `j` of the position to output `o` of the head exactly if a path in the body does.
    pub fn out_of_position(&self, s: Step) -> MatRef<'_>
        requires { Opens self.now (step_of s) }
        ensures same { result ≡ (matrices_of self.now).out_of (step_of s) }
        ensures size { HasSizeOutOf self.now.grammar (step_of s) result }
    {
        self.bodies
            .matrix(s.production.0 as usize, self.begins(s) + 1)
    }

    /// The matrix from a position to another of the same body, for a head that is seen and expanded: it joins output `j` of the first to input `i` of the second exactly if a path in the body does.
    pub fn between(&self, s: Step, to: PosNo) -> MatRef<'_>
        requires open { Opens self.now (step_of s) }
        requires to { to.0 < length (body_of self.now.grammar s.production.0) }
        ensures same { result ≡ (matrices_of self.now).between (step_of s) to.0 }
        ensures size { HasSizeBetween self.now.grammar (step_of s) to.0 result }
    {
        let at = self.begins(s) + 2 + to.0 as usize;
        self.bodies.matrix(s.production.0 as usize, at)
    }

    /// How many continuing steps lead from the module at a place of a cycle to the first module that the view does not expand; `None` where the view expands the whole cycle.
    pub fn cut(&self, c: CycleNo, place: u16) -> Option<u32>
        requires cycle { c.0 < length self.now.cycles.rounds }
        requires place { place < length (round_at self.now.cycles c.0) }
        ensures { IsCut self.now.grammar (is_expanded self.now) (get_or (round_at self.now.cycles c.0) place 0) result }
    {
        self.cuts[self.linear.cycles.at(c, place).0 as usize]
    }

    /// The matrix of `2^k` rounds down from the module at a place of a cycle that is seen and expanded whole, from its inputs to its inputs. `k` is below 24.
    pub fn square_in(&self, c: CycleNo, place: u16, k: u8) -> MatRef<'_>
        requires cycle { c.0 < length self.now.cycles.rounds }
        requires place { place < length (round_at self.now.cycles c.0) }
        requires round { OpensRound self.now (get_or (round_at self.now.cycles c.0) place 0) }
        requires k { k < 24 }
        ensures same { result ≡ (matrices_of self.now).square_in (get_or (round_at self.now.cycles c.0) place 0) k }
        ensures size { HasSquareSize result (inputs_of self.now.grammar (get_or (round_at self.now.cycles c.0) place 0)) }
    {
        self.squares
            .matrix(self.linear.cycles.at(c, place).0 as usize, k as usize)
    }

    /// The matrix of `2^k` rounds up to the module at a place of a cycle that is seen and expanded whole, from its outputs to its outputs. `k` is below 24.
    pub fn square_out(&self, c: CycleNo, place: u16, k: u8) -> MatRef<'_>
        requires cycle { c.0 < length self.now.cycles.rounds }
        requires place { place < length (round_at self.now.cycles c.0) }
        requires round { OpensRound self.now (get_or (round_at self.now.cycles c.0) place 0) }
        requires k { k < 24 }
        ensures same { result ≡ (matrices_of self.now).square_out (get_or (round_at self.now.cycles c.0) place 0) k }
        ensures size { HasSquareSize result (outputs_of self.now.grammar (get_or (round_at self.now.cycles c.0) place 0)) }
    {
        self.squares.matrix(self.linear.cycles.at(c, place).0 as usize, 24 + k as usize)
    }

    /// The number of the first square down from the module at a place of a cycle that is its own square; 23, that of the last square, where none is.
    pub fn still_in(&self, c: CycleNo, place: u16) -> u8
        requires cycle { c.0 < length self.now.cycles.rounds }
        requires place { place < length (round_at self.now.cycles c.0) }
        requires round { OpensRound self.now (get_or (round_at self.now.cycles c.0) place 0) }
        ensures { result ≡ still ((matrices_of self.now).square_in (get_or (round_at self.now.cycles c.0) place 0)) }
    {
        self.stills[self.linear.cycles.at(c, place).0 as usize].down
    }

    /// The number of the first square up to the module at a place of a cycle that is its own square; 23, that of the last square, where none is.
    pub fn still_out(&self, c: CycleNo, place: u16) -> u8
        requires cycle { c.0 < length self.now.cycles.rounds }
        requires place { place < length (round_at self.now.cycles c.0) }
        requires round { OpensRound self.now (get_or (round_at self.now.cycles c.0) place 0) }
        ensures { result ≡ still ((matrices_of self.now).square_out (get_or (round_at self.now.cycles c.0) place 0)) }
    {
        self.stills[self.linear.cycles.at(c, place).0 as usize].up
    }

    // Where the matrices of a position begin within those of its body: of 64 positions at most, with 66 matrices each.
    fn begins(&self, s: Step) -> usize
        requires { Opens self.now (step_of s) }
        ensures begins { result ≡ begins self.now.grammar (step_of s) }
        ensures few { result < 4224 }
    {
        s.position.0 as usize
            * (self
                .linear
                .grammar
                .production(s.production)
                .positions()
                .len()
                + 2)
    }
}

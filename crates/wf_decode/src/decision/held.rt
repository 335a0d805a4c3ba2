// Decisions of one label with many others: it is read once, and the row products along its legs are made once.
ghost use Rattle.std.specs.Prelude.{◌≡◌, ◌+◌, ◌*◌, ◌≤◌, ℕ, length, IfOk};
ghost use Rattle.wf_model.specs.declared.numbers.Side.TheVariants.{Input, Output};
ghost use Rattle.wf_recur.specs.Cycles.{round_at};
ghost use Rattle.wf_label.specs.Values.{AreLabelBits};
ghost use Rattle.decode_model.specs.Counts.{most_products};
ghost use Rattle.verdict_model.specs.Verdicts.{IsVerdict};
ghost use Rattle.wf_decode.specs.Answers.{IsDecision, OfLabels};
ghost use Rattle.wf_decode.specs.HeldEnds.{IsHeldEnd, FitsIn, AreAlikeAt};
ghost use Rattle.wf_decode.specs.Reading.{most_legs};

use crate::decision::decide_ends;
use crate::decision::ends::{End, end_on};
use crate::decision::ways::ways_of;
use crate::leg::Leg;
use crate::scratch::{Scratch, no_legs};
use bool_mat::Steps;
use std::alloc::{AllocError, Global};
use std::marker::Model;
use std::sync::ledger::Ledger;
use verdict_model::Verdict;
use wf_label::LabelRef;
use wf_spec::Side;
use wf_vlabel::ViewLabel;

/// A label that was read on a side, under the label of a view: where its item is consumed, on the side of inputs, or produced, on that of outputs, and the ways of its legs. It is read once, and then decided with many others.
#[derive(Drop)]
pub struct HeldEnd<'a> {
    label: LabelRef<'a>,
    end: End,
    legs: Vec<Leg>,
    ways: Vec<u64>,
}

impl<'a> Model for HeldEnd<'a> {
    ghost use Rattle.wf_decode.specs.HeldEnds.{HeldEndSeen};

    ghost Value = { HeldEndSeen };

    ghost view = { λ h. record { bits = h.label; end = h.end; legs = h.legs.items; ways = h.ways.items } };
}

impl<'a> HeldEnd<'a> {
    /// Reads a label on a side. Fails only for want of memory.
    ///
    /// Cost: linear in the bits of the label, and in the modules of the grammar; and at most as many row products as 64 decisions make.
    pub fn read<L: Ledger>(
        alloc: Global,
        vl: &ViewLabel<'_>,
        side: Side,
        label: LabelRef<'a>,
        steps: &mut Steps<L>,
    ) -> Result<HeldEnd<'a>, AllocError>
        requires { AreLabelBits vl.now.grammar label }
        ensures held { IfOk result (IsHeldEnd vl.now side) }
        ensures bits { IfOk result (λ h. h.bits ≡ label.entry) }
        ensures cost { (l : ℕ) → ((k : ℕ) → length (round_at vl.now.cycles k) ≤ l) → steps.new ≤ steps.old + 64 * most_products vl.now.grammar l }
    {
        // The view label is one of a view.
        let _label = vl.cycles();
        let mut legs = no_legs(alloc, vl)?;
        let end = end_on(vl, side, &label, legs.as_mut_slice());
        let ways = ways_of(alloc, vl, side, end, legs.as_slice(), steps)?;
        Ok(HeldEnd {
            label,
            end,
            legs,
            ways,
        })
    }

    /// The label that was read. Takes no memory.
    pub fn label(&self) -> LabelRef<'a>
        ensures { result ≡ self.now.bits }
    {
        self.label.copied()
    }

    /// Copies the legs of the end to the beginning of a place.
    fn put_legs(&self, legs: &mut [Leg])
        requires from { FitsIn self.now.end (length self.now.legs) }
        requires to { FitsIn self.now.end (length legs.old) }
        ensures alike { AreAlikeAt self.now.end self.now.legs legs.new }
        ensures length { length legs.new ≡ length legs.old }
    {
        if let End::At { legs: n, at: _ } = self.end {
            legs[..n].copy_from_slice(&self.legs.as_slice()[..n]);
        }
    }
}

/// What `decide` gives of the label that was read on the side of inputs, and a second one.
///
/// It takes no memory, and makes no more row products. Along the legs of the first label it makes those of one leg at most.
pub fn decide_from<L: Ledger>(
    vl: &ViewLabel<'_>,
    scratch: &mut Scratch,
    first: &HeldEnd<'_>,
    second: LabelRef<'_>,
    steps: &mut Steps<L>,
) -> Verdict
    requires first { IsHeldEnd vl.now Input first.now }
    requires second { AreLabelBits vl.now.grammar second }
    requires room { most_legs vl.now.grammar ≤ scratch.old }
    ensures verdict { OfLabels vl.now first.now.bits second.entry (λ u x y. IsVerdict vl.now.grammar u x y result) }
    ensures room { scratch.new ≡ scratch.old }
    ensures cost { (l : ℕ) → ((k : ℕ) → length (round_at vl.now.cycles k) ≤ l) → steps.new ≤ steps.old + most_products vl.now.grammar l }
{
    decide_from_in(
        vl,
        first,
        scratch.first.as_mut_slice(),
        &second,
        scratch.second.as_mut_slice(),
        steps,
    )
}

/// The same, where the legs of the labels are held in these places.
fn decide_from_in<L: Ledger>(
    vl: &ViewLabel<'_>,
    first: &HeldEnd<'_>,
    first_legs: &mut [Leg],
    second: &LabelRef<'_>,
    second_legs: &mut [Leg],
    steps: &mut Steps<L>,
) -> Verdict
    requires first { IsHeldEnd vl.now Input first.now }
    requires first_room { most_legs vl.now.grammar ≤ length first_legs.old }
    requires second { AreLabelBits vl.now.grammar second.now }
    requires second_room { most_legs vl.now.grammar ≤ length second_legs.old }
    ensures decision { OfLabels vl.now first.now.bits second.now (λ u x y. IsDecision vl.now.grammar u x y result) }
    ensures cost { (l : ℕ) → ((k : ℕ) → length (round_at vl.now.cycles k) ≤ l) → steps.new ≤ steps.old + most_products vl.now.grammar l }
    ensures first_length { length first_legs.new ≡ length first_legs.old }
    ensures second_length { length second_legs.new ≡ length second_legs.old }
{
    // The view label is one of a view.
    let _label = vl.cycles();
    first.put_legs(first_legs);
    let to = end_on(vl, Side::Output, second, second_legs);
    let rows = first.ways.as_slice();
    decide_ends(vl, first.end, first_legs, rows, to, second_legs, &[], steps)
}

/// What `decide` gives of a first label and the one that was read on the side of outputs.
///
/// It takes no memory, and makes no more row products. Along the legs of the second label it makes those of one leg at most.
pub fn decide_to<L: Ledger>(
    vl: &ViewLabel<'_>,
    scratch: &mut Scratch,
    first: LabelRef<'_>,
    second: &HeldEnd<'_>,
    steps: &mut Steps<L>,
) -> Verdict
    requires first { AreLabelBits vl.now.grammar first }
    requires second { IsHeldEnd vl.now Output second.now }
    requires room { most_legs vl.now.grammar ≤ scratch.old }
    ensures verdict { OfLabels vl.now first.entry second.now.bits (λ u x y. IsVerdict vl.now.grammar u x y result) }
    ensures room { scratch.new ≡ scratch.old }
    ensures cost { (l : ℕ) → ((k : ℕ) → length (round_at vl.now.cycles k) ≤ l) → steps.new ≤ steps.old + most_products vl.now.grammar l }
{
    decide_to_in(
        vl,
        &first,
        scratch.first.as_mut_slice(),
        second,
        scratch.second.as_mut_slice(),
        steps,
    )
}

/// The same, where the legs of the labels are held in these places.
fn decide_to_in<L: Ledger>(
    vl: &ViewLabel<'_>,
    first: &LabelRef<'_>,
    first_legs: &mut [Leg],
    second: &HeldEnd<'_>,
    second_legs: &mut [Leg],
    steps: &mut Steps<L>,
) -> Verdict
    requires first { AreLabelBits vl.now.grammar first.now }
    requires first_room { most_legs vl.now.grammar ≤ length first_legs.old }
    requires second { IsHeldEnd vl.now Output second.now }
    requires second_room { most_legs vl.now.grammar ≤ length second_legs.old }
    ensures decision { OfLabels vl.now first.now second.now.bits (λ u x y. IsDecision vl.now.grammar u x y result) }
    ensures cost { (l : ℕ) → ((k : ℕ) → length (round_at vl.now.cycles k) ≤ l) → steps.new ≤ steps.old + most_products vl.now.grammar l }
    ensures first_length { length first_legs.new ≡ length first_legs.old }
    ensures second_length { length second_legs.new ≡ length second_legs.old }
{
    // The view label is one of a view.
    let _label = vl.cycles();
    let from = end_on(vl, Side::Input, first, first_legs);
    second.put_legs(second_legs);
    let columns = second.ways.as_slice();
    decide_ends(
        vl,
        from,
        first_legs,
        &[],
        second.end,
        second_legs,
        columns,
        steps,
    )
}

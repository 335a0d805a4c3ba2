// The entries that are listed for an item.
ghost use Rattle.std.specs.Prelude.{◌≡◌, ◌+◌, ◌*◌, ◌≤◌, ℕ, length, IfOk, OnOk, IsErr};
ghost use Rattle.wf_io.specs.Told.{Rose};
ghost use Rattle.wf_recur.specs.Cycles.{round_at};
ghost use Rattle.decode_model.specs.Counts.{most_products};
ghost use Rattle.label_file.specs.Stored.{IsStoreFor};
ghost use Rattle.wf_decode.specs.HeldEnds.{IsHeldEnd};
ghost use Rattle.wf_decode.specs.Reading.{most_legs};
ghost use Rattle.wf_lineage.specs.declared.direction.Direction.TheVariants.{Upstream, Downstream};
ghost use Rattle.wf_lineage.specs.Directions.{side_of};
ghost use Rattle.wf_lineage.specs.Listed.{IsListed};
ghost use Rattle.wf_lineage.specs.Lines.{OfStore, AreLinesDue, AreLinesCut, IsListingDue, IsListingCut};

use crate::direction::Direction;
use crate::entry::add_entry;
use bool_mat::Steps;
use label_file::Store;
use std::sync::ledger::Ledger;
use wf_decode::{HeldEnd, Scratch, Verdict, decide};
use wf_io::{Failed, Sink};
use wf_lines::Due;
use wf_vlabel::ViewLabel;

/// What is told of an item.
#[derive(Clone, Copy, Debug, PartialEq, Eq)]
pub enum Listing {
    /// The view hides its label, and nothing is listed.
    Hidden,
    /// The entries are listed.
    Listed,
}

/// The lines of the entries that are listed for the item of a label are due behind what is, in the order of the file.
fn add_listed<L: Ledger, O: Sink>(
    store: &Store<'_>,
    vl: &ViewLabel<'_>,
    scratch: &mut Scratch,
    direction: Direction,
    of: &HeldEnd<'_>,
    steps: &mut Steps<L>,
    due: &mut Due,
    out: &mut O,
) -> Result<(), Failed>
    requires store { IsStoreFor vl.now.grammar store.now }
    requires of { IsHeldEnd vl.now (side_of direction) of.now }
    requires room { most_legs vl.now.grammar ≤ scratch.old }
    ensures ok { OnOk result (OfStore vl.now store.now of.now.bits (λ u entries y.
        AreLinesDue (IsListed vl.now.grammar u direction y) entries due.old due.new (O.put_bytes out.old) (O.put_bytes out.new))) }
    ensures err { IsErr result → OfStore vl.now store.now of.now.bits (λ u entries y.
        AreLinesCut (IsListed vl.now.grammar u direction y) entries due.old (O.put_bytes out.old) (O.put_bytes out.new)) }
    ensures room { scratch.new ≡ scratch.old }
    ensures cost { (l : ℕ) → ((k : ℕ) → length (round_at vl.now.cycles k) ≤ l) →
        steps.new ≤ steps.old + length store.now * most_products vl.now.grammar l }
    ensures same { OnOk result (O.faults out.new ≡ O.faults out.old) }
    ensures later { O.faults out.old ≤ O.faults out.new }
    ensures cause { IsErr result → Rose (O.faults out.old) (O.faults out.new) (O.at_last out.new) }
{
    for entry in 0..store.length() {
        add_entry(
            vl,
            scratch,
            direction,
            of,
            store.name_at(entry),
            store.label_at(entry),
            steps,
            due,
            out,
        )?;
    }
    Ok(())
}

/// Lists the entries of a label file in a direction from the item of a label, which was read on the side of the direction: their names are due behind what is, a line each, in the order of the file. Upstream, those are listed on whose items the item rests; downstream, those whose items rest on it. The answers are those of `decide`, so they hold however a run that has both labels is finished. An entry that the view hides, or whose label clashes with that of the item, is left out. Where the view hides the label of the item, nothing is due.
///
/// The only error is that writing fails. Takes no memory.
///
/// Cost: one decision for each entry, and one more, whose row products are counted.
pub fn list<L: Ledger, O: Sink>(
    store: &Store<'_>,
    vl: &ViewLabel<'_>,
    scratch: &mut Scratch,
    direction: Direction,
    of: &HeldEnd<'_>,
    steps: &mut Steps<L>,
    due: &mut Due,
    out: &mut O,
) -> Result<Listing, Failed>
    requires store { IsStoreFor vl.now.grammar store.now }
    requires of { IsHeldEnd vl.now (side_of direction) of.now }
    requires room { most_legs vl.now.grammar ≤ scratch.old }
    ensures ok { IfOk result (λ told. OfStore vl.now store.now of.now.bits (λ u entries y.
        IsListingDue vl.now.grammar u direction entries y told due.old due.new (O.put_bytes out.old) (O.put_bytes out.new))) }
    ensures err { IsErr result → OfStore vl.now store.now of.now.bits (λ u entries y.
        IsListingCut vl.now.grammar u direction entries y due.old (O.put_bytes out.old) (O.put_bytes out.new)) }
    ensures room { scratch.new ≡ scratch.old }
    ensures cost { (l : ℕ) → ((k : ℕ) → length (round_at vl.now.cycles k) ≤ l) →
        steps.new ≤ steps.old + (length store.now + 1) * most_products vl.now.grammar l }
    ensures same { OnOk result (O.faults out.new ≡ O.faults out.old) }
    ensures later { O.faults out.old ≤ O.faults out.new }
    ensures cause { IsErr result → Rose (O.faults out.old) (O.faults out.new) (O.at_last out.new) }
{
    if let Verdict::Hidden1 = decide(vl, scratch, of.label(), of.label(), steps) {
        return Ok(Listing::Hidden);
    }
    add_listed(store, vl, scratch, direction, of, steps, due, out)?;
    Ok(Listing::Listed)
}

/// Lists the entries on whose items the item of a label rests, as `list` does upstream.
pub fn lineage<L: Ledger, O: Sink>(
    store: &Store<'_>,
    vl: &ViewLabel<'_>,
    scratch: &mut Scratch,
    of: &HeldEnd<'_>,
    steps: &mut Steps<L>,
    due: &mut Due,
    out: &mut O,
) -> Result<Listing, Failed>
    requires store { IsStoreFor vl.now.grammar store.now }
    requires of { IsHeldEnd vl.now (side_of Upstream) of.now }
    requires room { most_legs vl.now.grammar ≤ scratch.old }
    ensures ok { IfOk result (λ told. OfStore vl.now store.now of.now.bits (λ u entries y.
        IsListingDue vl.now.grammar u Upstream entries y told due.old due.new (O.put_bytes out.old) (O.put_bytes out.new))) }
    ensures err { IsErr result → OfStore vl.now store.now of.now.bits (λ u entries y.
        IsListingCut vl.now.grammar u Upstream entries y due.old (O.put_bytes out.old) (O.put_bytes out.new)) }
    ensures room { scratch.new ≡ scratch.old }
    ensures cost { (l : ℕ) → ((k : ℕ) → length (round_at vl.now.cycles k) ≤ l) →
        steps.new ≤ steps.old + (length store.now + 1) * most_products vl.now.grammar l }
    ensures same { OnOk result (O.faults out.new ≡ O.faults out.old) }
    ensures later { O.faults out.old ≤ O.faults out.new }
    ensures cause { IsErr result → Rose (O.faults out.old) (O.faults out.new) (O.at_last out.new) }
{
    list(store, vl, scratch, Direction::Upstream, of, steps, due, out)
}

/// Lists the entries whose items rest on the item of a label, as `list` does downstream.
pub fn impact<L: Ledger, O: Sink>(
    store: &Store<'_>,
    vl: &ViewLabel<'_>,
    scratch: &mut Scratch,
    of: &HeldEnd<'_>,
    steps: &mut Steps<L>,
    due: &mut Due,
    out: &mut O,
) -> Result<Listing, Failed>
    requires store { IsStoreFor vl.now.grammar store.now }
    requires of { IsHeldEnd vl.now (side_of Downstream) of.now }
    requires room { most_legs vl.now.grammar ≤ scratch.old }
    ensures ok { IfOk result (λ told. OfStore vl.now store.now of.now.bits (λ u entries y.
        IsListingDue vl.now.grammar u Downstream entries y told due.old due.new (O.put_bytes out.old) (O.put_bytes out.new))) }
    ensures err { IsErr result → OfStore vl.now store.now of.now.bits (λ u entries y.
        IsListingCut vl.now.grammar u Downstream entries y due.old (O.put_bytes out.old) (O.put_bytes out.new)) }
    ensures room { scratch.new ≡ scratch.old }
    ensures cost { (l : ℕ) → ((k : ℕ) → length (round_at vl.now.cycles k) ≤ l) →
        steps.new ≤ steps.old + (length store.now + 1) * most_products vl.now.grammar l }
    ensures same { OnOk result (O.faults out.new ≡ O.faults out.old) }
    ensures later { O.faults out.old ≤ O.faults out.new }
    ensures cause { IsErr result → Rose (O.faults out.old) (O.faults out.new) (O.at_last out.new) }
{
    list(
        store,
        vl,
        scratch,
        Direction::Downstream,
        of,
        steps,
        due,
        out,
    )
}

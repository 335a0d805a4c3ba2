// What is listed for an item, put.
ghost use Rattle.std.specs.Prelude.{◌≡◌, ◌≤◌, ◌<◌, [], List};
ghost use Rattle.wf_model.specs.View.{View};
ghost use Rattle.label_model.specs.Labels.{Label, IsLabel, label_bits};
ghost use Rattle.label_model.specs.Files.{Entry};
ghost use Rattle.wf_label.specs.Values.{AreLabelBits};
ghost use Rattle.wf_message.specs.Endings.{end_after};
ghost use Rattle.wf_stage.specs.Promises.{Writes};
ghost use Rattle.label_file.specs.Stored.{AreHeldOf, IsStoreFor};
ghost use Rattle.wf_vlabel.specs.Seen.{IsLabelOfView};
ghost use Rattle.wf_decode.specs.HeldEnds.{IsHeldEnd};
ghost use Rattle.wf_decode.specs.Reading.{most_legs};
ghost use Rattle.wf_lineage.specs.Directions.{side_of};
ghost use Rattle.wf_lineage.specs.Lines.{OfStore};
ghost use Rattle.cmd_explain.specs.Listings.{ListsLabel, ListsItem};

use bool_mat::Steps;
use label_file::Store;
use std::alloc::Global;
use std::marker::Brand;
use std::mem::drop;
use std::sync::ledger::{Blank, Ledger};
use wf_decode::{HeldEnd, Scratch};
use wf_io::Sink;
use wf_label::LabelRef;
use wf_lineage::{Direction, Listing, list};
use wf_lines::Due;
use wf_message::Stop;
use wf_safe::SafeView;
use wf_stage::put_text;
use wf_vlabel::ViewLabel;

/// Puts what is listed for the item of a label that was read. Nothing is due before.
fn put_listed<L: Ledger, O: Sink>(
    store: &Store<'_>,
    vl: &ViewLabel<'_>,
    scratch: &mut Scratch,
    direction: Direction,
    of: &HeldEnd<'_>,
    steps: &mut Steps<L>,
    due: &mut Due,
    out: &mut O,
) -> Result<(), Stop>
    requires store { IsStoreFor vl.now.grammar store.now }
    requires of { IsHeldEnd vl.now (side_of direction) of.now }
    requires room { most_legs vl.now.grammar ≤ scratch.old }
    requires none { due.old ≡ [] }
    ensures writes { OfStore vl.now store.now of.now.bits (λ u entries y.
        Writes O.put_bytes O.faults O.at_last [] (ListsLabel vl.now.grammar u direction entries y) out.old out.new (end_after result)) }
{
    match list(store, vl, scratch, direction, of, steps, due, out) {
        Ok(Listing::Listed) => match due.put(out) {
            Ok(()) => Ok(()),
            Err(_) => Err(Stop::WriteFault),
        },
        Ok(Listing::Hidden) => put_text(out, b"hidden\n"),
        Err(_) => Err(Stop::WriteFault),
    }
}

/// Puts what is listed for the item of a label that was read, in places of its own.
fn put_end<L: Ledger, O: Sink>(
    alloc: Global,
    store: &Store<'_>,
    vl: &ViewLabel<'_>,
    direction: Direction,
    of: &HeldEnd<'_>,
    steps: &mut Steps<L>,
    out: &mut O,
) -> Result<(), Stop>
    requires store { IsStoreFor vl.now.grammar store.now }
    requires of { IsHeldEnd vl.now (side_of direction) of.now }
    ensures writes { OfStore vl.now store.now of.now.bits (λ u entries y.
        Writes O.put_bytes O.faults O.at_last [] (ListsLabel vl.now.grammar u direction entries y) out.old out.new (end_after result)) }
{
    let Ok(mut scratch) = Scratch::for_view(alloc, vl) else {
        return Err(Stop::NoMemory);
    };
    let Ok(mut due) = Due::new(alloc) else {
        return Err(Stop::NoMemory);
    };
    let ended = put_listed(store, vl, &mut scratch, direction, of, steps, &mut due, out);
    drop(due);
    drop(scratch);
    ended
}

/// Reads a label, and puts what is listed for its item, with a counter of row products of its own.
fn put_counted<L: Ledger, O: Sink>(
    blank: Blank,
    alloc: Global,
    store: &Store<'_>,
    vl: &ViewLabel<'_>,
    direction: Direction,
    label: LabelRef<'_>,
    out: &mut O,
) -> Result<(), Stop>
    requires name { blank.name ≡ L.name }
    requires parts { blank.parts ≡ L.parts }
    requires some { 0 < blank.parts }
    requires store { IsStoreFor vl.now.grammar store.now }
    requires label { AreLabelBits vl.now.grammar label }
    ensures writes { OfStore vl.now store.now label.entry (λ u entries y.
        Writes O.put_bytes O.faults O.at_last [] (ListsLabel vl.now.grammar u direction entries y) out.old out.new (end_after result)) }
{
    let mut steps = Steps::<L>::new(blank);
    let Ok(of) = HeldEnd::read(alloc, vl, direction.side(), label, &mut steps) else {
        return Err(Stop::NoMemory);
    };
    let ended = put_end(alloc, store, vl, direction, &of, &mut steps, out);
    drop(of);
    ended
}

/// Reads a label, and puts what is listed for its item.
fn put_label<O: Sink>(
    alloc: Global,
    store: &Store<'_>,
    vl: &ViewLabel<'_>,
    direction: Direction,
    label: LabelRef<'_>,
    out: &mut O,
) -> Result<(), Stop>
    requires store { IsStoreFor vl.now.grammar store.now }
    requires label { AreLabelBits vl.now.grammar label }
    ensures writes { OfStore vl.now store.now label.entry (λ u entries y.
        Writes O.put_bytes O.faults O.at_last [] (ListsLabel vl.now.grammar u direction entries y) out.old out.new (end_after result)) }
{
    put_counted::<Brand, O>(Blank::new(1), alloc, store, vl, direction, label, out)
}

/// Puts what is listed for the item of this name: that it is unknown where no entry has the name, that it is hidden where the view hides its label, and otherwise the names of the entries that are listed.
///
/// All that needs memory comes before the first byte is put.
pub(crate) fn put_listing<O: Sink>(
    alloc: Global,
    v: &SafeView<'_>,
    store: &Store<'_>,
    direction: Direction,
    item: &[u8],
    out: &mut O,
) -> Result<(), Stop>
    requires store { IsStoreFor v.now.accepted.grammar.core store.now }
    ensures writes { (entries : List Entry) → AreHeldOf v.now.accepted.grammar.core entries store.now →
        Writes O.put_bytes O.faults O.at_last [] (ListsItem v.now.accepted.grammar.core v.now.view.core direction entries item.now)
        out.old out.new (end_after result) }
{
    let Some(bits) = store.get(item) else {
        return put_text(out, b"unknown\n");
    };
    let Ok(label) = ViewLabel::build(alloc, v) else {
        return Err(Stop::NoMemory);
    };
    let ended = put_label(alloc, store, &label, direction, bits, out);
    drop(label);
    ended
}

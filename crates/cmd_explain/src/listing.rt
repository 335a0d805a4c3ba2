// `lineage` and `impact`: SPEC, VIEW and LABELS, and then the items that are listed for an item.
ghost use Rattle.std.specs.Prelude.{◌∷◌, ◌≡◌, []};
ghost use Rattle.wf_message.specs.Endings.{end_after};
ghost use Rattle.wf_stage.specs.Promises.{Obeys};
ghost use Rattle.cmd_explain.specs.Does.{ListsLabels, Lists};

use crate::put::put_listing;
use std::alloc::Global;
use std::mem::drop;
use wf_inputs::{LABELS, UnderView, store_of, under_view};
use wf_io::{Shelf, Sink};
use wf_lineage::Direction;
use wf_message::Stop;
use wf_safe::SafeView;
use wf_stage::read_file;

/// The names of the files that `lineage` and `impact` read, in this order, and the name of an item.
#[derive(Clone, Copy)]
pub struct ListingWords<'w> {
    pub spec: &'w str,
    pub view: &'w str,
    pub labels: &'w str,
    pub item: &'w str,
}

/// The items of a label file that are listed for one, in a direction.
#[derive(Clone, Copy)]
struct Listed<'w> {
    words: ListingWords<'w>,
    direction: Direction,
}

impl UnderView for Listed<'_> {
    ghost names = { λ l. l.words.labels.now ∷ [] };

    ghost does = { λ l f h u. ListsLabels h u l.direction l.words.item.now (f l.words.labels.now) };

    ghost holds_back = { λ l. ⊥ };

    fn obey_under<H: Shelf, O: Sink>(
        &self,
        alloc: Global,
        v: &SafeView<'_>,
        shelf: &mut H,
        out: &mut O,
    ) -> Result<(), Stop> {
        let bytes = read_file(alloc, shelf, self.words.labels, LABELS)?;
        let key = shelf.hash_key();
        let store = store_of(alloc, key, v.accepted(), &bytes)?;
        let ended = put_listing(
            alloc,
            v,
            &store,
            self.direction,
            self.words.item.as_bytes(),
            out,
        );
        drop(store);
        drop(bytes);
        ended
    }
}

/// Lists the items of a label file on which an item rests, or those that rest on it, in the order of the file.
///
/// Cost: linear in LABELS, and a decision for each of its entries.
pub(crate) fn list_items<H: Shelf, O: Sink>(
    alloc: Global,
    words: &ListingWords<'_>,
    direction: Direction,
    shelf: &mut H,
    out: &mut O,
) -> Result<(), Stop>
    ensures obeys { Obeys H.files H.readings H.faults H.at_last O.put_bytes O.faults O.at_last
        (words.now.spec.now ∷ words.now.view.now ∷ words.now.labels.now ∷ []) []
        (λ f. Lists direction (f words.now.spec.now) (f words.now.view.now) (f words.now.labels.now) words.now.item.now)
        shelf.old shelf.new out.old out.new (end_after result) }
{
    let listed = Listed {
        words: *words,
        direction,
    };
    under_view(alloc, words.spec, words.view, &listed, shelf, out)
}

// A label file that is opened once, and pairs of its items that are decided.
ghost use Rattle.std.specs.Prelude.{◌≡◌, ◌^◌, ◌<◌, ◌≤◌, List, length, IfOk, IfErr};
ghost use Rattle.wf_model.specs.Grammar.{Grammar as GrammarSeen};
ghost use Rattle.wf_model.specs.Proper.{IsProper};
ghost use Rattle.wf_model.specs.View.{View as ViewSeen};
ghost use Rattle.label_model.specs.Files.{Entry};
ghost use Rattle.wf_json.specs.Digests.{digests_of};
ghost use Rattle.wf_vlabel.specs.Seen.{IsLabelOfView};
ghost use Rattle.wf_decode.specs.Reading.{most_legs};
ghost use Rattle.label_file.specs.Stored.{AreHeldOf, IsStoreFault, IsStoreFor};
ghost use Rattle.wf_query.specs.Answers.{IsAnswerOfLabels};
ghost use Rattle.label_caller.specs.Opened.{IsOpened, IsOpenedFrom};
ghost use Rattle.label_caller.specs.Answers.{Says};

use bool_mat::Steps;
use label_file::{Store, StoreFault};
use std::alloc::Global;
use std::marker::{Brand, Model};
use std::sync::ledger::{Blank, Ledger};
use wf_decode::Scratch;
use wf_json::digests;
use wf_query::{Answer, Query, answer};
use wf_safe::SafeView;
use wf_vlabel::ViewLabel;

/// A label file that was opened, with the label of a view and room for decisions.
#[derive(Drop)]
pub struct Decider<'b, 'g> {
    store: Store<'b>,
    label: ViewLabel<'g>,
    scratch: Scratch,
}

impl<'b, 'g> Model for Decider<'b, 'g> {
    ghost use Rattle.label_caller.specs.Opened.{DeciderSeen, IsReady};

    ghost Value = { DeciderSeen };

    ghost view = { λ d. record { label = d.label; held = d.store } };

    ghost invariant = { λ d. IsReady d.label d.store d.scratch };
}

/// The answer to a query, with a counter of row products of its own.
fn answer_counted<L: Ledger>(
    blank: Blank,
    store: &Store<'_>,
    label: &ViewLabel<'_>,
    scratch: &mut Scratch,
    query: &Query<'_>,
) -> Answer
    requires name { blank.name ≡ L.name }
    requires parts { blank.parts ≡ L.parts }
    requires some { 0 < blank.parts }
    requires store { IsStoreFor label.now.grammar store.now }
    requires room { most_legs label.now.grammar ≤ scratch.old }
    ensures answer { (u : ViewSeen) (entries : List Entry) → IsLabelOfView label.now u → AreHeldOf label.now.grammar entries store.now
        → IsAnswerOfLabels label.now.grammar u entries query.now.first.now query.now.second.now result }
    ensures room { scratch.new ≡ scratch.old }
{
    let mut steps = Steps::<L>::new(blank);
    answer(store, label, scratch, query, &mut steps)
}

impl<'b, 'g> Decider<'b, 'g> {
    /// Opens a label file of an accepted grammar, or of an earlier version of it, under a safe view of the grammar.
    ///
    /// A grammar is accepted only if its versions keep their cycles. Without that the label file of a version could be read under cycles that it was not written with, and questions would be answered wrongly.
    ///
    /// Refused with the first fault of the bytes, in the order of `StoreFault`. `NoMemory` may come at any time.
    ///
    /// Cost: those of `digests`, `Store::open` and `ViewLabel::build`.
    pub fn open(
        alloc: Global,
        safe: &SafeView<'g>,
        bytes: &'b [u8],
    ) -> Result<Decider<'b, 'g>, StoreFault>
        requires { length bytes.now ≤ 2 ^ 30 }
        ensures opened { IfOk result (λ d. IsOpened safe.now.accepted.grammar safe.now.view.core bytes.now d) }
        ensures refused { IfErr result (λ f. IsStoreFault safe.now.accepted.grammar.core (digests_of safe.now.accepted.grammar) bytes.now f) }
    {
        let linear = safe.linear();
        let store = Store::open(alloc, linear, &digests(alloc, linear.grammar)?, bytes)?;
        let label = ViewLabel::build(alloc, safe)?;
        let scratch = Scratch::for_view(alloc, &label)?;
        Ok(Decider {
            store,
            label,
            scratch,
        })
    }

    /// Answers whether the item of the second name depends on that of the first.
    ///
    /// Cost: that of `wf_query::answer`. Takes no memory.
    pub fn decide(&mut self, first: &[u8], second: &[u8]) -> Answer
        ensures says { (g : GrammarSeen) (u : ViewSeen) (entries : List Entry) → IsOpenedFrom self.old g u entries →
            Says g u entries first.now second.now result }
        ensures same { self.new ≡ self.old }
    {
        let _grammar = self.label.grammar();
        let query = Query { first, second };
        answer_counted::<Brand>(
            Blank::new(1),
            &self.store,
            &self.label,
            &mut self.scratch,
            &query,
        )
    }
}

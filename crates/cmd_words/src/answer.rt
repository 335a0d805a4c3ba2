// Answers to queries by words.
ghost use Rattle.std.specs.Prelude.{◌≡◌, ◌<◌, ◌≤◌, List};
ghost use Rattle.wf_model.specs.View.{View};
ghost use Rattle.label_model.specs.Files.{Entry};
ghost use Rattle.label_file.specs.Stored.{AreHeldOf, IsStoreFor};
ghost use Rattle.wf_decode.specs.Reading.{most_legs};
ghost use Rattle.wf_words.specs.Answers.{IsAnswerByWords};
ghost use Rattle.wf_words.specs.WordViews.{AreOfWordView};
ghost use Rattle.cmd_words.specs.Prepared.{IsReady, WordsKnown, AreOfView, IsToldBy};

use crate::prepared::Prepared;
use bool_mat::Steps;
use label_file::{Guesses, Store};
use std::alloc::AllocError;
use std::marker::Brand;
use std::sync::ledger::{Blank, Ledger};
use wf_query::{Answer, Answerer, Query, look_ahead};
use wf_words::{WordScratch, WordView, answer_by_words};

/// Answers a query by words, with a counter of row products of its own.
fn answer_counted<L: Ledger>(
    blank: Blank,
    store: &Store<'_>,
    guesses: &mut Guesses,
    words: &WordView<'_, '_, '_>,
    scratch: &mut WordScratch,
    query: &Query<'_>,
) -> Answer
    requires name { blank.name ≡ L.name }
    requires parts { blank.parts ≡ L.parts }
    requires some { 0 < blank.parts }
    requires store { IsStoreFor words.now.plain.grammar store.now }
    requires room { most_legs words.now.plain.grammar ≤ scratch.old }
    ensures answer { (u : View) (entries : List Entry) → AreOfWordView words.now u → AreHeldOf words.now.plain.grammar entries store.now
        → IsAnswerByWords words.now.plain.grammar u words.now.automaton entries query.now.first.now query.now.second.now result }
    ensures room { scratch.new ≡ scratch.old }
{
    let mut steps = Steps::<L>::new(blank);
    answer_by_words(store, guesses, words, scratch, query, &mut steps)
}

impl Answerer for Prepared<'_> {
    ghost is_ready = { λ p. IsReady p.words.now p.store.now p.scratch };

    ghost Known = { WordsKnown };

    ghost is_known = { λ p k. (p.words.now ≡ k.words) × (p.store.now ≡ k.held) × AreOfView k };

    ghost words = { IsToldBy };

    ghost wants_memory = { ⊥ };

    fn look_ahead(&mut self, text: &[u8]) {
        look_ahead(self.store, &mut self.guesses, text);
    }

    fn answer(&mut self, query: &Query<'_>) -> Result<Answer, AllocError> {
        Ok(answer_counted::<Brand>(
            Blank::new(1),
            self.store,
            &mut self.guesses,
            self.words,
            &mut self.scratch,
            query,
        ))
    }
}

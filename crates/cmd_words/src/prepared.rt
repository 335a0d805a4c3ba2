// What queries by words are answered from.
use label_file::{Guesses, Store};
use wf_words::{WordScratch, WordView};

/// The entries of a label file, an automaton with the labels of a view and of the lifted view, room for verdicts, and the entries that were guessed ahead.
#[derive(Drop)]
pub(crate) struct Prepared<'p> {
    pub(crate) store: &'p Store<'p>,
    pub(crate) words: &'p WordView<'p, 'p, 'p>,
    pub(crate) scratch: WordScratch,
    pub(crate) guesses: Guesses,
}

// An automaton with the labels of a view and of the lifted view.
ghost use Rattle.std.specs.Prelude.{◌≡◌};
ghost use Rattle.wf_words.specs.WordViews.{IsWordView};

use std::marker::Model;
use wf_automaton::Automaton;
use wf_vlabel::ViewLabel;

/// An automaton over the modules of a grammar, the label of a view of the grammar, and the label of the lifted view, which is one of the lifted grammar.
#[derive(Drop)]
pub struct WordView<'w, 'g, 'l> {
    pub(crate) automaton: &'w Automaton,
    pub(crate) plain: &'w ViewLabel<'g>,
    pub(crate) lifted: &'w ViewLabel<'l>,
}

impl<'w, 'g, 'l> Model for WordView<'w, 'g, 'l> {
    ghost use Rattle.wf_words.specs.WordViews.{WordViewSeen, IsWordView};

    ghost Value = { WordViewSeen };

    ghost view = { λ w. record { automaton = w.automaton.now; plain = w.plain.now; lifted = w.lifted.now } };

    ghost invariant = { λ w. IsWordView (record { automaton = w.automaton.now; plain = w.plain.now; lifted = w.lifted.now }) };
}

impl<'w, 'g, 'l> WordView<'w, 'g, 'l> {
    /// An automaton that fits the grammar of the first label of a view, and a second one, of the lifted grammar. Takes no memory.
    pub fn new(
        automaton: &'w Automaton,
        plain: &'w ViewLabel<'g>,
        lifted: &'w ViewLabel<'l>,
    ) -> WordView<'w, 'g, 'l>
        requires { IsWordView (record { automaton = automaton.now; plain = plain.now; lifted = lifted.now }) }
        ensures { result ≡ record { automaton = automaton.now; plain = plain.now; lifted = lifted.now } }
    {
        WordView {
            automaton,
            plain,
            lifted,
        }
    }
}

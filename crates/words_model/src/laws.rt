// Laws of paths by words: each is the contract of a function that does nothing.
ghost use Rattle.words_model.specs.Laws.{AcceptedLaw, LiftedGrammarLaw, LiftedLabelLaw, LiftedPathLaw, LiftedRunLaw, LiftedViewLaw, WordAnswerLaw, WordLaw, WordVerdictLaw};

/// Each path has a word.
pub fn word_law()
    ensures { WordLaw }
{}

/// A lifted grammar is accepted where the grammar is, with its ranks, its continuing steps and its cycles.
pub fn lifted_grammar_law()
    ensures { LiftedGrammarLaw }
{}

/// The runs of a lifted grammar are those of the grammar.
pub fn lifted_run_law()
    ensures { LiftedRunLaw }
{}

/// A view of a grammar is, lifted, a view of the lifted grammar.
pub fn lifted_view_law()
    ensures { LiftedViewLaw }
{}

/// A path in the lifted links is a path whose word leads from state to state.
pub fn lifted_path_law()
    ensures { LiftedPathLaw }
{}

/// Whether a path with an accepted word joins two items is told by two addresses and the pairs of the lifted view.
pub fn accepted_law()
    ensures { AcceptedLaw }
{}

/// A label in a state is a label of the lifted grammar and tells the same there; it is hidden, and clashes, as before lifting.
pub fn lifted_label_law()
    ensures { LiftedLabelLaw }
{}

/// If the lifted view is safe, what holds of words in one finishing of one run that has both labels holds in every finishing of every such run, and the lifted grammar tells it.
pub fn word_answer_law()
    ensures { WordAnswerLaw }
{}

/// The verdict by an automaton is yes exactly if the verdict in the lifted grammar is, and two labels have one verdict.
pub fn word_verdict_law()
    ensures { WordVerdictLaw }
{}

// Laws of reading an automaton: each is the contract of a function that does nothing.
ghost use Rattle.wf_automaton.specs.Laws.{AutoOutcomeLaw, SaidMovesLaw};

/// A text describes one automaton over a grammar, or has one fault.
pub fn auto_outcome_law()
    ensures { AutoOutcomeLaw }
{}

/// The moves of an automaton are those that its text gives, past the modules of these names.
pub fn said_moves_law()
    ensures { SaidMovesLaw }
{}

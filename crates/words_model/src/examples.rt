// Worked words, computed from the definitions.
ghost use Rattle.words_model.specs.Examples.{WordsAreWorked};
ghost use Rattle.words_model.specs.LoopingWords.{LoopingWordsAreWorked};

/// Words of the line grammar, its lifted links, and the verdicts on its labels by an automaton that waits for Q.
pub fn words_are_worked()
    ensures { WordsAreWorked }
{}

/// A view that, lifted, is not safe: two expansions of a recursive module join other ports in other states.
pub fn looping_words_are_worked()
    ensures { LoopingWordsAreWorked }
{}

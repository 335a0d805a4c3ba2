// A law of the loops of a package: the contract of a function that does nothing.
ghost use Rattle.wf_loops.specs.Laws.{GoodLoopsLaw};

/// Entries are good loops of a strictly linear grammar, and then a function gives each module its loop step, or they are not.
pub fn good_loops_law()
    ensures { GoodLoopsLaw }
{}

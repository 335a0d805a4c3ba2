// A law of what `drill` counts, as the contract of a function that does nothing.
ghost use Rattle.cmd_make.specs.DrillLaws.{PairsCountedLaw};

/// The numbers of yes, of no and of hidden add up to the number of pairs.
pub fn pairs_counted_law()
    ensures { PairsCountedLaw }
{}

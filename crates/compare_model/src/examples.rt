// Worked comparisons, computed from the definitions.
ghost use Rattle.compare_model.specs.Examples.{ComparisonsAreWorked};

/// Comparisons of views of three small grammars: equal ones, one that adds a pair, and three that deny one, with the runs that show it.
pub fn comparisons_are_worked()
    ensures { ComparisonsAreWorked }
{}

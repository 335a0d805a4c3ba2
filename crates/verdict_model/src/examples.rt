// Worked verdicts, computed from the definitions.
ghost use Rattle.verdict_model.specs.Examples.{VerdictsAreWorked};

/// A verdict of each kind on the labels of two small grammars, under a view that expands the start module and one that expands nothing.
pub fn verdicts_are_worked()
    ensures { VerdictsAreWorked }
{}

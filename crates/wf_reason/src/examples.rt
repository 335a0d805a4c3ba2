// Worked lines, computed from the definitions.
ghost use Rattle.wf_reason.specs.Examples.{LinesAreWorked};

/// What is said of lines in the run of the line grammar: of those of a chain, of some that are wrong in one line, and of some that end too early.
pub fn lines_are_worked()
    ensures { LinesAreWorked }
{}

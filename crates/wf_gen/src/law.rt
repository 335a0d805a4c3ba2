// Laws of generated runs, each the contract of a function that does nothing.
ghost use Rattle.wf_gen.specs.Examples.{RunsAreWorked};
ghost use Rattle.wf_gen.specs.Laws.{GeneratedLengthLaw, GeneratedRunLaw};

/// The first events of a generated run are an accepted run, however many, and the pending instances are the composite ones that are not expanded.
pub fn generated_run_law()
    ensures { GeneratedRunLaw }
{}

/// A generated run has as many events as were asked for, or it stops for one of two reasons.
pub fn generated_length_law()
    ensures { GeneratedLengthLaw }
{}

/// What two seeds make of a worked grammar, event by event.
pub fn runs_are_worked()
    ensures { RunsAreWorked }
{}

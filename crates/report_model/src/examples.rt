// Worked reports, computed from the definitions.
ghost use Rattle.report_model.specs.Examples.{ReportsAreWorked};

/// Reports of runs of two small grammars: exchanged, repeated and turned round; and one of each refusal.
pub fn reports_are_worked()
    ensures { ReportsAreWorked }
{}

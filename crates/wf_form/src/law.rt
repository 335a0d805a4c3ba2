// The law of forming.
ghost use Rattle.wf_form.specs.Rules.{FormingLaw};

/// Parts keep all rules exactly if they form a well-formed grammar with earlier versions.
pub fn forming_law()
    ensures { FormingLaw }
{}

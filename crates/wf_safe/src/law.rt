// Laws of witnesses, as the contracts of functions that do nothing.
ghost use Rattle.wf_safe.specs.Witness.{OneWitnessLaw, WitnessLaw};

/// A view with a witness is not safe.
pub fn witness_law()
    ensures { WitnessLaw }
{}

/// A view has one first witness.
pub fn one_witness_law()
    ensures { OneWitnessLaw }
{}

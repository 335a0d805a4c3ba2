// Laws of ways between addresses.
ghost use Rattle.decode_model.specs.WayLaws.{ChainLaw, ChainLegLaw, CrossesLaw};

/// Two addresses that part after a common beginning are told by a way up, across one body, and down.
pub fn crosses_law()
    ensures { CrossesLaw }
{}

/// Continuing steps are a power of the steps once round their cycle, and a rest.
pub fn chain_law()
    ensures { ChainLaw }
{}

/// The steps of a chain are as many continuing steps as it counts, so what is left of a chain is a chain.
pub fn chain_leg_law()
    ensures { ChainLegLaw }
{}

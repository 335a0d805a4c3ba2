// Worked chains, computed from the definitions.
ghost use Rattle.chain_model.specs.DiamondChains.{DiamondChainsAreWorked};
ghost use Rattle.chain_model.specs.Examples.{ChainsAreWorked};
ghost use Rattle.chain_model.specs.TwistingChains.{TwistingChainsAreWorked};

/// Chains of the line grammar with their texts: of two steps, of one where the root is pending, and of one where the view does not expand it.
pub fn chains_are_worked()
    ensures { ChainsAreWorked }
{}

/// Chains of the twisting grammar: down and up through recursive instances past a pending one, and past an instance that the view shows as one module.
pub fn twisting_chains_are_worked()
    ensures { TwistingChainsAreWorked }
{}

/// Two chains of as many steps, of which the one whose items were made first is the first of the shortest.
pub fn diamond_chains_are_worked()
    ensures { DiamondChainsAreWorked }
{}

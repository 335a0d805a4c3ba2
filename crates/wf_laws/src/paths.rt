// Laws of paths: a path between two ports of a run is told by two addresses and the pairs of modules.
ghost use Rattle.wf_laws.specs.Alike.{OwnPairsLaw};
ghost use Rattle.wf_laws.specs.NoReturn.{NoReturnLaw};
ghost use Rattle.wf_laws.specs.Splits.{SplitsLaw};
ghost use Rattle.wf_model.specs.Reach.{CrossingLaw, PendingLaw};

/// In an expansion a path leads from an input of one instance to an output of another exactly if the two addresses and the pairs of the modules tell so.
///
/// The path goes up from the first instance, crosses one body, and goes down to the second; each part is a path in one body after another.
///
/// Source of the idea: Bao, Davidson, Milo, "Labeling Workflow Views with Fine-Grained Dependencies", VLDB 2012 (decoding of two labels).
pub fn crossing_law()
    ensures { CrossingLaw }
{}

/// In an expansion a path leads from an input of an instance to an output of it exactly if the pair is assigned to its module.
pub fn own_pairs_law()
    ensures { OwnPairsLaw }
{}

/// In a well-formed body no path leads from an output of a position back to an input of it.
pub fn no_return_law()
    ensures { NoReturnLaw }
{}

/// Reachability between two addresses is told step by step, and the steps that both begin with are passed by both.
pub fn splits_law()
    ensures { SplitsLaw }
{}

/// An unfinished run, in which each pending instance has the pairs assigned to its module, has the paths of each of its finishings.
pub fn pending_law()
    ensures { PendingLaw }
{}

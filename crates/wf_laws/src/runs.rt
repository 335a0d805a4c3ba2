// Laws of runs: which events extend one, how it is finished, and what stays the same as it grows.
ghost use Rattle.wf_laws.specs.Conditions.{ConditionsLaw};
ghost use Rattle.wf_laws.specs.Finished.{AllSeenLaw, FinishedLaw, IdleLaw, NoOtherFinishingLaw};
ghost use Rattle.wf_laws.specs.Graft.{FreshGraftLaw, GraftAtLaw, GraftLaw};
ghost use Rattle.wf_laws.specs.Grown.{GrownLaw};
ghost use Rattle.wf_laws.specs.Order.{OrderLaw};
ghost use Rattle.wf_laws.specs.Rename.{RenameLaw};
ghost use Rattle.wf_model.specs.Faults.{TakingLaw};
ghost use Rattle.wf_model.specs.Finishing.{FinishingLaw};
ghost use Rattle.wf_model.specs.Open.{OpenLaw};
ghost use Rattle.wf_model.specs.SubRun.{SubRunLaw};

/// The run of one instance stands within the whole run.
///
/// Take an instance that is seen, a start event that names it, and the expand events of it and of the instances below it.
/// This is a run from its module. Its links are those of the whole run for these instances, in the same order.
/// It is finished if the whole run is.
pub fn sub_run_law()
    ensures { SubRunLaw }
{}

/// A run goes on with a run of any of its instances that is not expanded.
///
/// The root of the other run has the name of the instance, and its other names are new. Its events behind the start event follow those of the run, and it is then the run of the instance.
pub fn graft_at_law()
    ensures { GraftAtLaw }
{}

/// A production and a run for each position of its body make a run of the head.
///
/// The root is expanded by the production, and its children go on as the given runs do, one after another. No two of the runs may have a name in common.
/// Then the run of each child is the run that was given for it. Under a view that expands the head the whole is finished if they all are, and it joins the pairs that the body joins where each position has the pairs that its run joins.
pub fn graft_law()
    ensures { GraftLaw }
{}

/// Any runs may be grafted under other names: there are a name for the root and a renaming for each position, so that no two of the renamed runs have a name in common.
pub fn fresh_graft_law()
    ensures { FreshGraftLaw }
{}

/// An event has no fault exactly if an accepted run with this event after it is accepted.
pub fn taking_law()
    ensures { TakingLaw }
{}

/// After an accepted run an event has no fault exactly if all of its conditions hold, and a fault exactly if the first condition that does not hold tells it.
pub fn conditions_law()
    ensures { ConditionsLaw }
{}

/// The root is seen, the children of an open instance are seen, and nothing else is.
pub fn open_law()
    ensures { OpenLaw }
{}

/// Two runs with the same events, in whatever order, have the same instances, links, paths and items, and of them the same are seen, pending and visible.
pub fn order_law()
    ensures { OrderLaw }
{}

/// With other names for its instances, different ones for different ones, a run is a run from the same module, with the same links but for the names, in the same order.
pub fn rename_law()
    ensures { RenameLaw }
{}

/// In each run that goes on from a run, the instances and items of the first are there as they were: seen or not, expanded as they were, and visible or not.
pub fn grown_law()
    ensures { GrownLaw }
{}

/// Each run of a proper grammar can be finished under each view.
///
/// Source of the idea: Bao, Davidson, Milo, "Labeling Workflow Views with Fine-Grained Dependencies", VLDB 2012 (proper workflow grammars).
pub fn finishing_law()
    ensures { FinishingLaw }
{}

/// Under a view that expands every composite module, each instance of a run is seen.
pub fn all_seen_law()
    ensures { AllSeenLaw }
{}

/// Under a view that expands every composite module, a finished run that has its start event has no finishing but itself.
pub fn no_other_finishing_law()
    ensures { NoOtherFinishingLaw }
{}

/// An event that expands an instance which is not seen, or whose module the view does not expand, changes no link and no visible item.
pub fn idle_law()
    ensures { IdleLaw }
{}

/// Each finishing of a finished run has the links and the visible items of the run.
pub fn finished_law()
    ensures { FinishedLaw }
{}

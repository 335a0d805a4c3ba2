// Laws of the versions of a grammar: each is the contract of a function that does nothing.
ghost use Rattle.version_model.specs.Laws.{GivenPairsLaw, VersionCyclesLaw, VersionDependsLaw, VersionEntriesLaw, VersionFormedLaw, VersionLabelLaw, VersionReachLaw, VersionReportsLaw, VersionRouteLaw, VersionRunLaw, VersionSafeLaw, VersionStepLaw, VersionVerdictLaw, VersionViewLaw, VersionVisibleLaw};
ghost use Rattle.version_model.specs.Standing.{StandingInducedLaw, StandingLaw, StandingRouteLaw};

/// Where all that one grammar shows under a view stands in another, perhaps by other numbers, their productions induce the same pairs, and the same is reached along open routes.
pub fn standing_law()
    ensures { StandingLaw }
{}

/// Where all that one grammar shows under a view stands in another, the same routes of the first are open in both.
pub fn standing_route_law()
    ensures { StandingRouteLaw }
{}

/// Where all that one grammar shows under a view stands in another, what the productions of the other induce, its own productions induce.
pub fn standing_induced_law()
    ensures { StandingInducedLaw }
{}

/// Given pairs decide nothing of runs and of labels: grammars with the same start, modules and productions accept the same runs, take the same reports, and write the same label files but for the digest.
pub fn given_pairs_law()
    ensures { GivenPairsLaw }
{}

/// A version of a well-formed grammar is well-formed, and that of a strictly linear one is strictly linear.
pub fn version_formed_law()
    ensures { VersionFormedLaw }
{}

/// A run of a version is a run of the grammar, with the same instances and items, and is accepted if it was.
pub fn version_run_law()
    ensures { VersionRunLaw }
{}

/// Reports that the intake of a version takes whole, that of the grammar takes whole, to the same state.
pub fn version_reports_law()
    ensures { VersionReportsLaw }
{}

/// A route of a version is a route of the grammar to the same module.
pub fn version_route_law()
    ensures { VersionRouteLaw }
{}

/// Where a version keeps its cycles, its composite modules have the continuing steps that they have in the grammar; alternatives have the same numbers.
pub fn version_step_law()
    ensures { VersionStepLaw }
{}

/// The cycles of a strictly linear grammar tell those of a version: they are the ones whose steps are by productions of the version.
///
/// So a module gets on a cycle exactly if it is composite in the version and stands on a cycle of the grammar that has a step by a later production.
pub fn version_cycles_law()
    ensures { VersionCyclesLaw }
{}

/// What is reached along open routes of a version is reached along them in the grammar.
///
/// Neither that cycles are kept nor that the grammar is strictly linear is needed for it.
pub fn version_reach_law()
    ensures { VersionReachLaw }
{}

/// A view that shows a version as a safe view of the grammar does is safe.
pub fn version_safe_law()
    ensures { VersionSafeLaw }
{}

/// Two views that expand the same modules of a version show it alike where they give the same pairs to the others, or leave them to the defaults.
///
/// A module that is composite in the grammar alone has all pairs by default, and so it has in the version, since no pairs are given to it.
pub fn version_view_law()
    ensures { VersionViewLaw }
{}

/// The same items of a run of a version are visible in the grammar.
pub fn version_visible_law()
    ensures { VersionVisibleLaw }
{}

/// A visible item of a run of a version depends on another in the grammar exactly if it does in the version, however the run is finished in either.
pub fn version_depends_law()
    ensures { VersionDependsLaw }
{}

/// A label of a version that keeps its cycles is a label of the grammar, tells the same there, and is that of the same item.
pub fn version_label_law()
    ensures { VersionLabelLaw }
{}

/// The label file of a run of a version that keeps its cycles is that of the run in the grammar, but for the digest.
pub fn version_entries_law()
    ensures { VersionEntriesLaw }
{}

/// Two labels of a version that keeps its cycles have in the grammar the verdict that they have in the version.
///
/// The view of the grammar is safe, and then that of the version is too, by `version_safe_law`.
pub fn version_verdict_law()
    ensures { VersionVerdictLaw }
{}

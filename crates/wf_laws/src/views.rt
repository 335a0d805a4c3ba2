// Laws of views: the default one, safe ones, and the pairs that all expansions join.
ghost use Rattle.wf_laws.specs.Chosen.{ChosenLaw};
ghost use Rattle.wf_laws.specs.Ranked.{EndsLaw};
ghost use Rattle.wf_laws.specs.Settled.{SettledLaw};
ghost use Rattle.wf_laws.specs.Views.{DefaultViewLaw, FullLaw, SafeFullLaw};
ghost use Rattle.wf_model.specs.Safe.{OneTestSuffices, SafetyLaw};

/// The default view expands every composite module and no other, and an atomic module keeps the pairs of the grammar.
pub fn default_view_law()
    ensures { DefaultViewLaw }
{}

/// One test for each production tells the pairs that expansions join.
///
/// Let an assignment have the perceived pairs of the modules that the view does not expand, and let each production of a seen, expanded module induce the pairs of its head.
/// Then each expansion of a seen module joins exactly the pairs assigned to the module.
///
/// Source of the idea: Bao, Davidson, Milo, "Labeling Workflow Views with Fine-Grained Dependencies", VLDB 2012 (safe views and full dependency assignments).
pub fn one_test_suffices()
    ensures { OneTestSuffices }
{}

/// Where ranks fall along chosen productions, each seen module is expanded whole by these in finitely many rounds.
pub fn ends_law()
    ensures { EndsLaw }
{}

/// Where chosen productions end each seen module, each has an expansion in which all is chosen, and each production has one that begins with it and in which all else is chosen.
///
/// The first joins the pairs that the chosen productions induce, the second those that the body of the production joins. So a production that does not induce the pairs of its head shows two expansions that disagree.
pub fn chosen_law()
    ensures { ChosenLaw }
{}

/// A module has an expansion by chosen productions exactly where these settle it in finitely many rounds, and a production begins one that goes on by chosen productions exactly where these settle the modules of its body.
///
/// The first joins the pairs that settled chosen productions induce, the second those that the body of the production joins. So a choice that runs in a circle is told by the modules that it leaves unsettled.
pub fn settled_law()
    ensures { SettledLaw }
{}

/// A view is safe exactly if each production of a seen, expanded module induces the pairs of its head.
///
/// The pairs are those that one production for each module induces, chosen so that every seen module is expanded whole after finitely many rounds.
///
/// Source of the idea: Bao, Davidson, Milo, "Labeling Workflow Views with Fine-Grained Dependencies", VLDB 2012 (safe views).
pub fn safety_law()
    ensures { SafetyLaw }
{}

/// Where composite modules have ranks, an assignment has exactly the pairs that all expansions join if and only if it is what every production induces.
///
/// Each production begins an expansion that goes on to an end. So the test of one production is what expansions that begin with it join.
pub fn full_law()
    ensures { FullLaw }
{}

/// A safe view has a full assignment: one expansion of each module tells the pairs that all join.
pub fn safe_full_law()
    ensures { SafeFullLaw }
{}

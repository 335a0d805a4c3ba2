// Laws of the comparison of two views: each is the contract of a function that does nothing.
ghost use Rattle.compare_model.specs.Laws.{PairLaw, ReachAgreementLaw, RunAgreementLaw, SeesNoMoreLaw, VerdictAgreementLaw};

/// What a coarse view sees, a fine view sees too: modules, instances, items and labels.
pub fn sees_no_more_law()
    ensures { SeesNoMoreLaw }
{}

/// A coarse view that denies no pair reaches whatever a fine view reaches between addresses that both see, and one that adds no pair reaches no more.
///
/// Source of the idea: Bao, Davidson, Milo, "Labeling Workflow Views with Fine-Grained Dependencies", VLDB 2012 (safe views and full dependency assignments).
pub fn reach_agreement_law()
    ensures { ReachAgreementLaw }
{}

/// So it is with dependencies between items of a run, whichever way the run is finished under either view.
pub fn run_agreement_law()
    ensures { RunAgreementLaw }
{}

/// And with verdicts on labels: where no pair is denied, a yes of the fine view is a yes of the coarse one; where none is added either, the verdicts are equal.
pub fn verdict_agreement_law()
    ensures { VerdictAgreementLaw }
{}

/// In each run with an instance of the module that the coarse view sees, the ports of a denied pair are joined in every finishing under the fine view, and in none under the coarse one.
///
/// With an added pair it is the other way round.
pub fn pair_law()
    ensures { PairLaw }
{}

// Laws of labels under a view: each is the contract of a function that does nothing.
ghost use Rattle.verdict_model.specs.Laws.{AnswerLaw, BothLaw, EitherLaw, KeptLaw, NoClashLaw, OneAnswerLaw, OneVerdictLaw, TellingLaw};

/// The label of an edge tells one address, one production and one edge.
pub fn telling_law()
    ensures { TellingLaw }
{}

/// An item keeps its label and its visibility as the run grows, and is visible exactly if its label is not hidden.
pub fn kept_law()
    ensures { KeptLaw }
{}

/// Each label is hidden or not, and each two clash or not.
pub fn either_law()
    ensures { EitherLaw }
{}

/// No run has two labels that clash.
pub fn no_clash_law()
    ensures { NoClashLaw }
{}

/// Two labels that do not clash have a run that has both, so no verdict on them is an empty claim.
pub fn both_law()
    ensures { BothLaw }
{}

/// Under a safe view, what holds in one finishing of one run that has both labels holds in every finishing of every such run.
///
/// So a no says that the item depends in no finishing of any run that has both.
///
/// Source of the idea: Bao, Davidson, Milo, "Labeling Workflow Views with Fine-Grained Dependencies", VLDB 2012 (safe views).
pub fn one_answer_law()
    ensures { OneAnswerLaw }
{}

/// Two labels have one verdict at most.
pub fn one_verdict_law()
    ensures { OneVerdictLaw }
{}

/// The answer of two labels is told by two addresses and the full assignment, which a safe view has.
///
/// Source of the idea: Bao, Davidson, Milo, "Labeling Workflow Views with Fine-Grained Dependencies", VLDB 2012 (decoding of two labels).
pub fn answer_law()
    ensures { AnswerLaw }
{}

// Laws of continuing steps and of the cycles along which they lead.
ghost use Rattle.label_model.specs.ContinuingLaws.{ContinuingLaw, CyclesLaw, DerivesLaw, PeriodLaw};

/// What is computed to be derived is derived, and nothing else is.
pub fn derives_law()
    ensures { DerivesLaw }
{}

/// In a strictly linear grammar the step that is computed is the continuing step, and where none is computed there is none.
pub fn continuing_law()
    ensures { ContinuingLaw }
{}

/// Along a cycle of l modules, l continuing steps lead back, so where a chain number leads is told by the rest of its division by l.
///
/// So a reader of a label walks no chain step by step.
///
/// Source of the idea: Bao, Davidson, Milo, "Labeling Recursive Workflow Executions On-the-Fly", SIGMOD 2011 (a chain of a cycle is told as one number).
pub fn period_law()
    ensures { PeriodLaw }
{}

/// The cycles that the bound of labels counts are those that are numbered.
pub fn cycles_law()
    ensures { CyclesLaw }
{}

// Worked examples, computed from the definitions.
ghost use Rattle.wf_laws.specs.LineGrammar.{LineGrammarIsWorked};
ghost use Rattle.wf_laws.specs.SkewedGrammar.{SkewedGrammarIsWorked};
ghost use Rattle.wf_laws.specs.TwistingGrammar.{TwistingGrammarIsWorked};

/// The grammar of two modules in a line: a run, its links in order, its items, and which of them depends on which.
pub fn line_grammar_is_worked()
    ensures { LineGrammarIsWorked }
{}

/// A recursive grammar with two expansions that disagree, so that its default view is not safe.
pub fn skewed_grammar_is_worked()
    ensures { SkewedGrammarIsWorked }
{}

/// A recursive grammar whose modules join their ports crosswise: the links of one body, a finished run, which of its items depends on which, and a view that hides some.
pub fn twisting_grammar_is_worked()
    ensures { TwistingGrammarIsWorked }
{}

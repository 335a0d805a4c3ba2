// Laws of lifted grammars and views: each is the contract of a function that does nothing.
ghost use Rattle.wf_lift.specs.Alike.{PerceivedAlikeLaw};
ghost use Rattle.wf_lift.specs.LiftedTables.{LiftedTablesLaw};

/// The ranks, choices and cycles of a grammar are those of the lifted grammar.
pub fn lifted_tables_law()
    ensures { LiftedTablesLaw }
{}

/// Two views that expand the same modules and perceive the same pairs are safe both or neither, and give the same verdicts.
pub fn perceived_alike_law()
    ensures { PerceivedAlikeLaw }
{}

// The law of query lines: the contract of a function that does nothing.
ghost use Rattle.wf_query.specs.Line.{QueryLaw};

/// A line is a query in one way.
pub fn query_law()
    ensures { QueryLaw }
{}

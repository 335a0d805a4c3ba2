// Laws of what a comparison comes to, and of the run that shows it: each is the contract of a function that does nothing.
ghost use Rattle.compare_model.specs.OutcomeLaws.{CoarserLaw, OneOutcomeLaw, ShownLaw, SomeOutcomeLaw};
ghost use Rattle.compare_model.specs.RouteLaws.{FirstRouteLaw};
ghost use Rattle.compare_model.specs.RunLaws.{RunAlongLaw};

/// A view is coarser than another, or it expands some first module alone.
pub fn coarser_law()
    ensures { CoarserLaw }
{}

/// The comparison of two views, of which one is coarser, comes to something.
pub fn some_outcome_law()
    ensures { SomeOutcomeLaw }
{}

/// And to nothing else.
pub fn one_outcome_law()
    ensures { OneOutcomeLaw }
{}

/// The run that shows a pair is accepted, and both views see the instance of the module to which it leads.
pub fn shown_law()
    ensures { ShownLaw }
{}

/// The run along a route is accepted, and the route leads in it to an instance that is seen where the route is open.
pub fn run_along_law()
    ensures { RunAlongLaw }
{}

/// One route to a seen module is the first of the shortest, and it has fewer steps than there are modules.
pub fn first_route_law()
    ensures { FirstRouteLaw }
{}

// Laws of addresses: the lists of steps that lead from the root of a run to its instances.
ghost use Rattle.wf_laws.specs.Agreeing.{AgreeLaw, RouteLaw};
ghost use Rattle.wf_laws.specs.Depth.{DepthLaw};
ghost use Rattle.wf_model.specs.Address.{SeenLaw};
ghost use Rattle.wf_model.specs.Routes.{AddressLaw, RoutesLaw};

/// An instance is seen exactly if an address of open instances leads to it; the address tells its module.
pub fn seen_law()
    ensures { SeenLaw }
{}

/// An instance of a run has one address.
///
/// Source of the idea: Bao, Davidson, Milo, "Labeling Recursive Workflow Executions On-the-Fly", SIGMOD 2011 (labels that name the derivation of a vertex).
pub fn address_law()
    ensures { AddressLaw }
{}

/// Two addresses in one run name one production wherever both leave one instance.
pub fn agree_law()
    ensures { AgreeLaw }
{}

/// An address in a run is a route from the module of the root, and tells the module of its instance.
pub fn route_law()
    ensures { RouteLaw }
{}

/// An address has at most as many steps as the run has expand events.
pub fn depth_law()
    ensures { DepthLaw }
{}

/// Two lists of steps are addresses of one run wherever they name one production for each instance that both leave.
pub fn routes_law()
    ensures { RoutesLaw }
{}

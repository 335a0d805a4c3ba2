// Laws of places.
ghost use Rattle.label_model.specs.PlaceLaws.{OneVisitLaw, PlaceLaw, PrefixLaw};

/// The places at a module are those of the addresses that leave it, with an edge at the end, and each is that of one address.
///
/// Source of the idea: Bao, Davidson, Milo, "Labeling Workflow Views with Fine-Grained Dependencies", VLDB 2012 (labels of data items that name the steps of the derivation).
pub fn place_law()
    ensures { PlaceLaw }
{}

/// What is told of a child is what is told of its parent, with one step more or with a chain number one higher.
pub fn prefix_law()
    ensures { PrefixLaw }
{}

/// A place enters each strong component of the composite modules once, so its length depends on the grammar alone, but for its chain numbers.
pub fn one_visit_law()
    ensures { OneVisitLaw }
{}

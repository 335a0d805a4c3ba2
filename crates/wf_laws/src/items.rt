// Laws of items: their names, their addresses, and how one depends on another.
ghost use Rattle.wf_laws.specs.Alike.{AlikeLaw};
ghost use Rattle.wf_laws.specs.ItemNames.{ItemNamesLaw};
ghost use Rattle.wf_model.specs.Depends.{DependsLaw, ItemsLaw};
ghost use Rattle.wf_model.specs.Open.{VisibleLaw};

/// Two items of a run with one name are one item.
pub fn item_names_law()
    ensures { ItemNamesLaw }
{}

/// An item is visible exactly where it is a port of the root or was made by an open instance.
pub fn visible_law()
    ensures { VisibleLaw }
{}

/// Each visible item is produced and consumed at ports of instances to which addresses of open instances lead.
pub fn items_law()
    ensures { ItemsLaw }
{}

/// In a finished run one item depends on another exactly if the addresses of the two and the pairs of the modules tell so.
///
/// Source of the idea: Bao, Davidson, Milo, "Labeling Workflow Views with Fine-Grained Dependencies", VLDB 2012 (view-adaptive labels of data).
pub fn depends_law()
    ensures { DependsLaw }
{}

/// Two items of a finished run depend on one another exactly if two items at the same addresses do so in any other finished run.
///
/// So the answer for two addresses rests on no run.
pub fn alike_law()
    ensures { AlikeLaw }
{}

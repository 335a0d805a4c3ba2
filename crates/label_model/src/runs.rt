// Laws of the addresses of instances, and of the labels of the items of a run.
ghost use Rattle.label_model.specs.RunLaws.{InstanceLaw, LabelLaw, OneItemLaw, PrefixInRunLaw};

/// An instance has an address, which tells its module and never changes, and which has at most as many steps as there are expand events.
pub fn instance_law()
    ensures { InstanceLaw }
{}

/// A run keeps of each instance the bits with which the labels of its items begin: those of the root are one bit, a child has its parent's and perhaps those of one step more, and no later event changes them.
///
/// Source of the idea: Bao, Davidson, Milo, "Labeling Workflow Views with Fine-Grained Dependencies", VLDB 2012 (data items are labelled when they are made, and labels never change).
pub fn prefix_in_run_law()
    ensures { PrefixInRunLaw }
{}

/// Each item of an accepted run has a label of the grammar.
pub fn label_law()
    ensures { LabelLaw }
{}

/// Two items of one run with one label are one item.
pub fn one_item_law()
    ensures { OneItemLaw }
{}

// Worked labels, computed from the definitions.
ghost use Rattle.label_model.specs.Examples.{LabelsAreWorked};

/// Labels of five small grammars bit by bit, the entries of two label files, a value that is a label and bytes that are none, and the numbers of the bound.
pub fn labels_are_worked()
    ensures { LabelsAreWorked }
{}

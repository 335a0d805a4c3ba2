// Laws of the lengths of labels.
ghost use Rattle.label_model.specs.BoundLaws.{BoundLaw, DigitsLaw, LengthLaw, RoomLaw};

/// A label of an edge whose chain numbers are below n is within the bound for n.
pub fn length_law()
    ensures { LengthLaw }
{}

/// A label that is made at the n-th expand event is within the bound for n, and one of a port of the root has at most 15 bits.
///
/// So a label has at most as many bits as n has binary digits, times a factor and with a summand that the grammar tells.
///
/// Source of the idea: Bao, Davidson, Milo, "Labeling Recursive Workflow Executions On-the-Fly", SIGMOD 2011 (labels of logarithmic length for linear recursion).
pub fn bound_law()
    ensures { BoundLaw }
{}

/// The bits of a label of a run are at most so many as the number of expand events, or of instances, has binary digits, times a number that the grammar tells.
///
/// This number is the constant part of the bound and twice the number of cycles. A run that is a thousand times longer has ten binary digits more.
///
/// Source of the idea: Bao, Davidson, Milo, "Labeling Recursive Workflow Executions On-the-Fly", SIGMOD 2011 (labels of logarithmic length for linear recursion).
pub fn digits_law()
    ensures { DigitsLaw }
{}

/// Each label of a strictly linear grammar has fewer than 2^17 bits.
pub fn room_law()
    ensures { RoomLaw }
{}

// Laws of reading a label from the front.
ghost use Rattle.label_model.specs.LabelLaws.{PartsLaw, ReadingLaw};

/// Bytes are a label exactly if the first bits tell a kind of label and the rest is what this kind leaves; and a place is left exactly if a chain number and a step or an ending are.
pub fn reading_law()
    ensures { ReadingLaw }
{}

/// What a reader of a label has to test at each part, and when the bits end within one.
pub fn parts_law()
    ensures { PartsLaw }
{}

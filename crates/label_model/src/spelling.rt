// Laws of the bits and bytes of labels: none begins another.
ghost use Rattle.label_model.specs.LabelLaws.{PrefixFreeLaw, WholeLaw};

/// The bits of no label begin the bits of another label, and one label has one spelling.
pub fn prefix_free_law()
    ensures { PrefixFreeLaw }
{}

/// A part of a label's bytes from the front is no label, nor is a label with bytes after it.
pub fn whole_law()
    ensures { WholeLaw }
{}

// The law of item names: the contract of a function that does nothing.
ghost use Rattle.name_text.specs.Names.{NameLaw};

/// The name of an item is that of one instance and of one port.
pub fn name_law()
    ensures { NameLaw }
{}

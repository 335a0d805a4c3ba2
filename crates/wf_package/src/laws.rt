// A law of the text of a package: the contract of a function that does nothing.
ghost use Rattle.wf_package.specs.Laws.{SameTextLaw};

/// Views that show the same have the same text, be it of different grammars.
pub fn same_text_law()
    ensures { SameTextLaw }
{}

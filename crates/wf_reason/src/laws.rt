// Laws of what is said of lines: each is the contract of a function that does nothing.
ghost use Rattle.wf_reason.specs.Laws.{OneTextLaw, YesLaw, ChainFileLaw};

/// Of each list of lines one text is said, and no other.
pub fn one_text_law()
    ensures { OneTextLaw }
{}

/// `yes` is said exactly where the lines are those of a chain.
pub fn yes_law()
    ensures { YesLaw }
{}

/// The text of a chain, in a file of its own, has the lines of this chain: so `yes` is said of what is written of a chain.
pub fn chain_file_law()
    ensures { ChainFileLaw }
{}

// Whose turn it is among the lines of a chain.
ghost use Rattle.std.specs.Prelude.{◌≡◌};
ghost use Rattle.wf_reason.specs.ChainLines.{next_turn};

/// Which of the two a line of a chain names. Items and instances take turns, and an item is first.
#[derive(Clone, Copy)]
pub enum Turn {
    /// The line is the name of an item.
    Item,
    /// The line is `via` and the name of an instance.
    Instance,
}

impl Turn {
    /// The turn of the next line.
    pub(crate) fn next(self) -> Turn
        ensures { result ≡ next_turn self }
    {
        match self {
            Turn::Item => Turn::Instance,
            Turn::Instance => Turn::Item,
        }
    }
}

// The law of written events: the contract of a function that does nothing.
ghost use Rattle.wf_events.specs.Spelling.{WrittenLaw};

/// What `write_event` appends for an event is read as this event, if its names are names.
pub fn written_law()
    ensures { WrittenLaw }
{}

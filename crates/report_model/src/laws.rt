// Laws of the intake of reports: each is the contract of a function that does nothing.
ghost use Rattle.report_model.specs.Laws.{AcceptedLaw, AllReadyLaw, AnyOrderLaw, FileOfMoreLaw, GrowingLaw, InOrderLaw, RefusedLaw, ReorderedLaw, TakenAloneLaw, TakenLaw};

/// Runs with the same events have the same instances, links and items, and each item has in both the same label.
pub fn reordered_law()
    ensures { ReorderedLaw }
{}

/// Reports of all events of an accepted run, in whatever order and repeated, are taken whole: none is refused, none is held at the end, and the run has these events, each once.
pub fn any_order_law()
    ensures { AnyOrderLaw }
{}

/// No other reports are taken whole: the events of reports that are, are those of an accepted run.
pub fn taken_law()
    ensures { TakenLaw }
{}

/// Whatever is reported, the run is accepted and has only events that are reported.
pub fn accepted_law()
    ensures { AcceptedLaw }
{}

/// No report that is ready stays held.
pub fn all_ready_law()
    ensures { AllReadyLaw }
{}

/// Events that were applied stay applied, in the same order, whatever is reported later; and a refusal stays.
pub fn growing_law()
    ensures { GrowingLaw }
{}

/// The label file of the run of some reports begins that of more reports.
pub fn file_of_more_law()
    ensures { FileOfMoreLaw }
{}

/// Reports of an accepted run in its own order are taken as they are: the run is the list of their events.
pub fn in_order_law()
    ensures { InOrderLaw }
{}

/// What becomes of a report that comes while none is held, in each case: so a file in order is taken as before, but that a repetition is no fault, and an instance may come later.
pub fn taken_alone_law()
    ensures { TakenAloneLaw }
{}

/// A report is refused for its reason: a conflict with the first report on its subject, a fault of its event once it is ready, or an event that never comes to be ready. Four of the ten faults of a run do not come.
pub fn refused_law()
    ensures { RefusedLaw }
{}

// An inbox of reports.
ghost use Rattle.std.specs.Prelude.{◌≡◌, ◌≤◌, ◌<◌, ◌+◌, ◌^◌, ◌++◌, ◌∷◌, [], None, map, length, position, MatchOption, IfOk, IfErr, OnOk, OnErr, bytes_eq};
ghost use Rattle.std.specs.Option.{option_eq};
ghost use Rattle.wf_inbox.specs.declared.inbox.InboxFault.TheVariants.{NoMemory};
ghost use Rattle.wf_inbox.specs.Inboxes.{InboxSeen, IsOffered, IsContradicted, IsFirstHeld, IsFirstLetGo, NoneReady, IsOrphan, NoneHeld, marked};
ghost use Rattle.wf_inbox.specs.Keeping.{subject_kept, is_due, IsRepeated, IsOpposed, AddsIf};

use crate::places::Places;
use crate::report::KeptReport;
use crate::subjects::Subjects;
use crate::told::subject;
use bumpalo::Bump;
use std::alloc::{AllocError, Global};
use std::marker::Model;
use wf_model::Event;

/// What becomes of a report that is offered.
#[derive(Clone, Copy, Debug, PartialEq, Eq)]
pub enum Offer {
    /// It is held.
    Kept,
    /// An earlier report reports the same event: it is ignored.
    Repeat,
}

/// Why a report is not taken.
#[derive(Clone, Copy, Debug, PartialEq, Eq)]
pub enum InboxFault {
    /// The report of an earlier line is about the same, and reports another event.
    Conflict { earlier: u64 },
    /// Memory was refused.
    NoMemory,
}

/// A report that was held and is ready: the number of its line, and its event.
#[derive(Drop)]
pub struct Held {
    pub line: u64,
    pub event: Event,
}

impl From<AllocError> for InboxFault {
    ghost from_gives = { λ _ e. e ≡ NoMemory };

    fn from(_: AllocError) -> InboxFault {
        InboxFault::NoMemory
    }
}

// What becomes of an event beside the report on its subject.
fn beside(report: &KeptReport, event: &Event) -> Result<Offer, InboxFault>
    ensures same { IfOk result (IsRepeated report.now event.now) }
    ensures other { IfErr result (IsOpposed report.now event.now) }
{
    if report.is_of(event) {
        return Ok(Offer::Repeat);
    }
    Err(InboxFault::Conflict {
        earlier: report.line(),
    })
}

// Adds a place if its report is held and ready.
fn push_if(places: &mut Places, is_due: bool, place: u32)
    requires { 1 ≤ places.old.spare }
    ensures times { AddsIf is_due place places.old.places places.new.places }
    ensures spare { places.old.spare ≤ places.new.spare + 1 }
{
    if is_due {
        places.push(place);
    }
}

// Keeps a report on a new subject. After an error all is as it was.
fn keep<'a>(
    subjects: &mut Subjects<'a>,
    kept: &mut Vec<KeptReport<'a>>,
    places: &mut Places,
    report: KeptReport<'a>,
) -> Result<(), AllocError>
    requires { position (option_eq bytes_eq (subject_kept report)) subjects.old ≡ None }
    ensures subjects { OnOk result (subjects.new ≡ subjects.old ++ subject_kept report.entry ∷ []) }
    ensures kept { OnOk result (kept.new.items ≡ kept.old.items ++ report.entry ∷ []) }
    ensures times { OnOk result (AddsIf (is_due report.entry) (length kept.old.items) places.old.places places.new.places) }
    ensures few { OnOk result (length kept.old.items < 2 ^ 32) }
    ensures same_subjects { OnErr result (subjects.new ≡ subjects.old) }
    ensures same_kept { OnErr result (kept.new.items ≡ kept.old.items) }
    ensures same_places { OnErr result (places.new.places ≡ places.old.places) }
{
    let Ok(place) = u32::try_from(kept.len()) else {
        return Err(AllocError);
    };
    places.reserve(1)?;
    kept.reserve(1)?;
    subjects.add(report.subject())?;
    push_if(places, report.is_due(), place);
    kept.push_reserved(report);
    Ok(())
}

fn first_held(kept: &[KeptReport]) -> Option<u64>
    ensures { MatchOption result (NoneHeld kept.now) (λ line. IsOrphan kept.now line) }
{
    for report in kept {
        if report.is_held() {
            return Some(report.line());
        }
    }
    None
}

/// Reports in the order in which they came, with their names in an arena. A report is held until its event is ready and `let_go_first` lets it go; it is known for ever, and found by what it is about.
#[derive(Drop)]
pub struct Inbox<'a> {
    alloc: Global,
    arena: &'a Bump,
    scratch: Vec<u8>,
    subjects: Subjects<'a>,
    kept: Vec<KeptReport<'a>>,
    places: Places,
    held: usize,
}

impl<'a> Model for Inbox<'a> {
    ghost use Rattle.wf_inbox.specs.Inboxes.{InboxSeen};
    ghost use Rattle.wf_inbox.specs.Keeping.{AreTogether};

    ghost Value = { InboxSeen };

    ghost view = { λ b. record { kept = b.kept.items; spare = b.places.spare } };

    ghost invariant = { λ b. AreTogether b.subjects b.kept.items b.places.places b.held };
}

impl<'a> Inbox<'a> {
    /// No reports, in a table with this key, and names in this arena. Takes no memory.
    pub fn with_key(alloc: Global, key: u64, arena: &'a Bump) -> Inbox<'a>
        ensures { result.kept ≡ [] }
    {
        Inbox {
            alloc,
            arena,
            scratch: Vec::new(alloc),
            subjects: Subjects::with_key(alloc, key),
            kept: Vec::new(alloc),
            places: Places::new(alloc),
            held: 0,
        }
    }

    /// Takes the report of an event by the line of a number; `stands` tells whether it is ready if it is held. A report on a new subject is held. One of the same event as the report that was held before on its subject is ignored. After an error the reports are as they were.
    ///
    /// Errors: `Conflict` where the report that was held before on its subject reports another event; `NoMemory`, which comes also past 4,294,967,296 reports, and for a line, or the length of a name, past 4,294,967,295.
    ///
    /// Cost: one look-up; and one place in the table of subjects, one in the heap of ready reports, and that of the copy of its names where it is held.
    pub fn offer(&mut self, line: u64, event: &Event, stands: bool) -> Result<Offer, InboxFault>
        ensures offered { IfOk result (IsOffered self.old.kept self.new.kept line event.now stands) }
        ensures conflict { IfErr result (IsContradicted self.old.kept line event.now) }
        ensures unchanged { OnErr result (self.new.kept ≡ self.old.kept) }
    {
        if let Some(place) = self.subjects.find(subject(event)) {
            return beside(&self.kept[place], event);
        }
        let report = KeptReport::new(self.arena, &mut self.scratch, line, event, stands)?;
        keep(&mut self.subjects, &mut self.kept, &mut self.places, report)?;
        self.held += 1;
        Ok(Offer::Kept)
    }

    /// Makes room so that `stands` can be called for so many names. Room that is there already stays. After an error the reports are as they were.
    pub fn reserve(&mut self, names: u32) -> Result<(), AllocError>
        ensures room { OnOk result (names ≤ self.new.spare) }
        ensures spare { self.old.spare ≤ self.new.spare }
        ensures kept { self.new.kept ≡ self.old.kept }
    {
        self.places.reserve(names as usize)
    }

    /// The instance of a name stands: a held report about it is ready now. Takes no memory.
    ///
    /// Cost: one look-up, where a report is held; and one place in the heap of ready reports.
    #[inline]
    pub fn stands(&mut self, name: &[u8])
        requires { 1 ≤ self.old.spare }
        ensures marked { self.new.kept ≡ map (marked name.now) self.old.kept }
        ensures spare { self.old.spare ≤ self.new.spare + 1 }
    {
        if self.held == 0 {
            return;
        }
        if let Some(place) = self.subjects.find(Some(name)) {
            let is_due = self.kept[place].make_ready();
            push_if(&mut self.places, is_due, place as u32);
        }
    }

    /// The first report that is held and ready, where one is; it is held still. Takes memory for its event alone.
    ///
    /// Cost: that of making its event anew.
    pub fn first(&self) -> Result<Option<Held>, AllocError>
        ensures { IfOk result (λ o. MatchOption o (NoneReady self.now.kept) (IsFirstHeld self.now.kept)) }
    {
        let Some(place) = self.places.least() else {
            return Ok(None);
        };
        let report = &self.kept[place as usize];
        let event = report.event(self.alloc)?;
        let line = report.line();
        Ok(Some(Held { line, event }))
    }

    /// Lets the first report go that is held and ready: it is held no longer, and stays known. Where none is ready nothing is done. Takes no memory.
    ///
    /// Cost: one place out of the heap of ready reports.
    pub fn let_go_first(&mut self)
        ensures gone { IsFirstLetGo self.old.kept self.new.kept }
        ensures none { NoneReady self.old.kept → self.new.kept ≡ self.old.kept }
        ensures spare { self.old.spare ≤ self.new.spare }
    {
        let Some(place) = self.places.least() else {
            return;
        };
        let report = &mut self.kept[place as usize];
        report.let_go();
        self.places.drop_least();
        self.held -= 1;
    }

    /// The line of the first report that is held still; None where none is.
    ///
    /// Cost: linear in the reports.
    pub fn orphan(&self) -> Option<u64>
        ensures { MatchOption result (NoneHeld self.now.kept) (λ line. IsOrphan self.now.kept line) }
    {
        first_held(&self.kept)
    }
}

// Which lines reported the events that were applied.
ghost use Rattle.std.specs.Prelude.{◌≡◌, ◌++◌, map, length, get_or, replicate, Some, None, IfOk, OnOk, OnErr};
ghost use Rattle.wf_intake.specs.Reported.{ReportedSeen, none_reported, expansion_told, with_places, IsKeptFor, SetsExpansion, noted};
ghost use Rattle.wf_intake.specs.Rounds.{names_given};

use std::alloc::{AllocError, Global};
use std::marker::Model;
use wf_model::Event;

/// An expansion, by the number of the line that reported it, and its production.
#[derive(Clone, Copy, Drop)]
pub struct ReportedBy {
    pub line: u32,
    pub production: u64,
}

/// The place of an instance that is not expanded.
const NOT_EXPANDED: ReportedBy = ReportedBy {
    line: 0,
    production: 0,
};

/// An expansion as it is kept.
///
/// The only error is that the line is 0 or does not fit 32 bits.
fn reported_by(line: u64, production: u64) -> Result<ReportedBy, AllocError>
    ensures line { IfOk result (λ by. by.line ≡ line) }
    ensures production { IfOk result (λ by. by.production ≡ production) }
    ensures told { IfOk result (λ by. expansion_told by ≡ Some by) }
{
    let Ok(line) = u32::try_from(line) else {
        return Err(AllocError);
    };
    if line == 0 {
        return Err(AllocError);
    }
    Ok(ReportedBy { line, production })
}

/// The expansion of the instance of a number, if it is expanded.
fn expansion_in(places: &[ReportedBy], number: u32) -> Option<ReportedBy>
    ensures { result ≡ get_or (map expansion_told places.now) number None }
{
    let by = *places.get(number as usize)?;
    if by.line == 0 {
        return None;
    }
    Some(by)
}

/// An expansion by an event as it is kept. Of a start event nothing is.
///
/// The only error is that of `reported_by`.
pub(crate) fn kept_for(line: u64, event: &Event) -> Result<ReportedBy, AllocError>
    ensures { IfOk result (IsKeptFor line event.now) }
{
    match event {
        Event::Start { .. } => Ok(NOT_EXPANDED),
        Event::Expand { production, .. } => reported_by(line, *production),
    }
}

/// Notes the expansion of the instance of a number, which is none of the last `count`.
fn set_expansion(places: &mut Vec<ReportedBy>, count: usize, number: Option<u32>, by: ReportedBy)
    ensures { SetsExpansion (map expansion_told places.old.items) count number by (map expansion_told places.new.items) }
{
    let Some(number) = number else {
        return;
    };
    let place = number as usize;
    if place < places.len().saturating_sub(count) {
        places[place] = by;
    }
}

/// Adds places of instances that are not expanded. After an error the places are as they were.
fn add_places(places: &mut Vec<ReportedBy>, count: usize) -> Result<(), AllocError>
    ensures added { OnOk result (map expansion_told places.new.items ≡ map expansion_told places.old.items ++ replicate count None) }
    ensures same { OnErr result (map expansion_told places.new.items ≡ map expansion_told places.old.items) }
{
    let Some(all) = places.len().checked_add(count) else {
        return Err(AllocError);
    };
    places.resize(all, NOT_EXPANDED)
}

/// The lines that reported the events of a run: that of its start event, and that of the expansion of each of its instances, by the number of the instance. A place takes 16 bytes.
#[derive(Drop)]
pub struct Reported {
    start: u64,
    places: Vec<ReportedBy>,
}

impl Model for Reported {
    ghost use Rattle.std.specs.Prelude.{map};
    ghost use Rattle.wf_intake.specs.Reported.{ReportedSeen, expansion_told};

    ghost Value = { ReportedSeen };

    ghost view = { λ r. record { start = r.start; expansions = map expansion_told r.places.items } };
}

impl Reported {
    /// No lines. Takes no memory.
    pub fn new(alloc: Global) -> Reported
        ensures { result ≡ none_reported }
    {
        Reported {
            start: 0,
            places: Vec::new(alloc),
        }
    }

    /// The line that reported the start event; 0 before.
    pub(crate) fn start(&self) -> u64
        ensures { result ≡ self.now.start }
    {
        self.start
    }

    /// The line that reported the expansion of the instance of a number, and its production; None where it is not expanded.
    pub(crate) fn expansion(&self, number: u32) -> Option<ReportedBy>
        ensures { result ≡ get_or self.now.expansions number None }
    {
        expansion_in(&self.places, number)
    }

    /// Adds the places of so many instances, which are not expanded. After an error all is as it was.
    pub(crate) fn add(&mut self, count: usize) -> Result<(), AllocError>
        ensures added { OnOk result (self.new ≡ with_places self.old count) }
        ensures same { OnErr result (self.new ≡ self.old) }
    {
        add_places(&mut self.places, count)
    }

    /// Takes the places of so many instances out that were added last. Takes no memory.
    pub(crate) fn drop_last(&mut self, count: usize)
        ensures { (seen : ReportedSeen) → self.old ≡ with_places seen count → self.new ≡ seen }
    {
        let left = self.places.len().saturating_sub(count);
        self.places.truncate(left);
    }

    /// Notes the line that reported an event that was applied, behind whose instances' places nothing was added; the number is that of the instance that it expands, and the expansion is that which is kept for it. Takes no memory.
    pub(crate) fn note(&mut self, number: Option<u32>, line: u64, event: &Event, by: ReportedBy)
        requires { IsKeptFor line event.now by }
        ensures { (seen : ReportedSeen) → self.old ≡ with_places seen (length (names_given event.now)) → self.new ≡ noted seen number line event.now }
    {
        match event {
            Event::Start { .. } => self.start = line,
            Event::Expand { names, .. } => {
                set_expansion(&mut self.places, names.items().len(), number, by);
            }
        }
    }
}

// Reports of events, line by line: each line is taken as the report of an event, and the events that come to be ready are applied to a run.
ghost use Rattle.std.specs.Prelude.{◌≡◌, [], IfOk, IfErr, codes};
ghost use Rattle.wf_intake.specs.Reported.{none_reported};
ghost use Rattle.wf_intake.specs.Rounds.{held_count};
ghost use Rattle.wf_message.specs.Endings.{End};
ghost use Rattle.wf_stage.specs.LineEnds.{line_ends, told_end};
ghost use Rattle.wf_stage.specs.Stages.{AtLine, Declines, IsRefusedOrWanting};
ghost use Rattle.wf_inputs.specs.RunTold.{IsEventText, RefusesForm};
ghost use Rattle.wf_inputs.specs.EventsEnd.{event_end};
ghost use Rattle.wf_inputs.specs.RunTaking.{TakenSoFar, TakesReport, StopsReport, MakesSoFar, HoldsNone, StopsHolding, IsAcceptedSoFar};
ghost use Rattle.wf_inputs.specs.Reporting.{IsTakenAs, IsTakenWithin};

use crate::event_stop::EventStop;
use bumpalo::Bump;
use std::alloc::Global;
use wf_events::{EventFault, read_event};
use wf_inbox::Inbox;
use wf_intake::{Grows, IntakeFault, Reported, apply_next, begin_report, none_held};
use wf_lines::Taker;
use wf_spec::Event;

/// The event of a line.
fn event_of_line(alloc: Global, number: u64, line: &[u8]) -> Result<Event, EventStop>
    ensures ok { IfOk result (λ e. IsEventText line.now e) }
    ensures declines { IfErr result (λ d. Declines (codes "events") (AtLine RefusesForm number line.now) (event_end d)) }
{
    match read_event(alloc, line) {
        Ok(event) => Ok(event),
        Err(EventFault::NotJson) => Err(EventStop::NotJson { line: number }),
        Err(EventFault::WrongShape) => Err(EventStop::WrongShape { line: number }),
        Err(EventFault::NoMemory) => Err(EventStop::Report {
            fault: IntakeFault::NoMemory,
        }),
    }
}

/// What takes the lines of EVENTS as reports: those that are kept, the lines that reported the events that were applied, and the run that grows by these, with the text of the event that was applied last. Each event that a line sets free makes a piece of its own.
#[derive(Drop)]
pub struct Reporting<'a, R> {
    pub alloc: Global,
    pub inbox: Inbox<'a>,
    pub reported: Reported,
    pub run: R,
}

impl<'a, R: Grows> Reporting<'a, R> {
    /// Before the first line: no report is kept. Names are held in this arena, and found in a table with this key.
    pub fn new(alloc: Global, key: u64, arena: &'a Bump, run: R) -> Reporting<'a, R>
        ensures kept { result.inbox.kept ≡ [] }
        ensures reported { result.reported ≡ none_reported }
        ensures run { result.run ≡ run }
    {
        Reporting {
            alloc,
            inbox: Inbox::with_key(alloc, key, arena),
            reported: Reported::new(alloc),
            run,
        }
    }
}

impl<R: Grows> Taker for Reporting<'_, R> {
    type Fault = EventStop;

    ghost State = { TakenSoFar };

    ghost End = { End };

    ghost is_ready = { λ t. Unit {0} };

    ghost is_at = { λ t. IsTakenAs (R.grammar t.run) (R.most t.run) t.inbox.kept t.reported (R.is_run t.run) };

    ghost is_sound = { IsAcceptedSoFar };

    ghost takes = { TakesReport R.written };

    ghost stops = { StopsReport R.written };

    ghost begins = { MakesSoFar R.written };

    ghost is_within = { λ t. IsTakenWithin (R.grammar t.run) (R.most t.run) R.written t.inbox.kept t.reported (R.is_run t.run) };

    ghost left = { λ t. held_count t.inbox.kept };

    ghost finishes = { HoldsNone };

    ghost stops_at_end = { StopsHolding };

    ghost ends = { line_ends (codes "events") };

    ghost end_of = { λ stop. told_end (event_end stop) };

    ghost is_fault = { λ stop. IsRefusedOrWanting (event_end stop) };

    ghost wants_memory = { Unit {0} };

    ghost made = { λ t. R.text t.run };

    ghost Known = { R.Known };

    ghost is_known = { λ t k. R.is_known t.run k };

    fn take(&mut self, number: u64, text: &[u8]) -> Result<(), EventStop> {
        self.run.clear();
        let event = match event_of_line(self.alloc, number, text) {
            Ok(event) => event,
            Err(stop) => return Err(stop),
        };
        let begun = begin_report(
            &mut self.inbox,
            &mut self.reported,
            &mut self.run,
            number,
            &event,
        );
        match begun {
            Ok(()) => Ok(()),
            Err(refused) => Err(EventStop::Report { fault: refused }),
        }
    }

    fn more(&mut self) -> Result<bool, EventStop> {
        self.run.clear();
        match apply_next(&mut self.inbox, &mut self.reported, &mut self.run) {
            Ok(more) => Ok(more),
            Err(stopped) => Err(EventStop::Report { fault: stopped }),
        }
    }

    fn finish(&mut self) -> Result<(), EventStop> {
        self.run.clear();
        match none_held(&self.inbox) {
            Ok(()) => Ok(()),
            Err(fault) => Err(EventStop::Report { fault }),
        }
    }

    fn made(&self) -> &[u8] {
        self.run.text()
    }
}

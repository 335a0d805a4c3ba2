// A report that was ever held.
ghost use Rattle.std.specs.Prelude.{◌≡◌, ◌&&◌, not, IfOk};
ghost use Rattle.std.specs.Option.{option_map};
ghost use Rattle.report_model.specs.Reports.{same_event, subject_of};
ghost use Rattle.report_model.specs.Kept.{newly_kept, let_go};
ghost use Rattle.wf_inbox.specs.Keeping.{is_due, made_ready};
ghost use Rattle.wf_inbox.specs.Told.{event_told};

use crate::told::Told;
use bumpalo::Bump;
use std::alloc::{AllocError, Global};
use std::marker::Model;
use std::mem::size_of;
use wf_model::Event;

/// A report that was ever held. Its names stay in an arena. It takes 32 bytes beside them: the fields of what it reports stand here, so that no room is lost between them.
#[derive(Drop)]
pub(crate) struct KeptReport<'a> {
    text: &'a [u8],
    production: u64,
    line: u32,
    is_start: bool,
    held: bool,
    ready: bool,
}

const _: () = prove!(size_of::<KeptReport<'static>>() == 32);

impl<'a> Model for KeptReport<'a> {
    ghost use Rattle.report_model.specs.Kept.{Kept};
    ghost use Rattle.wf_inbox.specs.Told.{event_told};

    ghost Value = { Kept };

    ghost view = { λ k. record { report = record { line = k.line; event = event_told k.text.now k.production k.is_start }; held = k.held; ready = k.ready } };
}

impl<'a> KeptReport<'a> {
    /// A report that is held. Its event is written into the scratch text first.
    ///
    /// The only errors but want of memory are a line, or the length of a name, past 4,294,967,295.
    pub(crate) fn new(
        arena: &'a Bump,
        scratch: &mut Vec<u8>,
        line: u64,
        event: &Event,
        ready: bool,
    ) -> Result<KeptReport<'a>, AllocError>
        ensures { IfOk result (λ k. k ≡ newly_kept (record { line = line; event = event.now }) ready) }
    {
        let Ok(line) = u32::try_from(line) else {
            return Err(AllocError);
        };
        let told = Told::copied(arena, scratch, event)?;
        Ok(KeptReport {
            text: told.text,
            production: told.production,
            line,
            is_start: told.is_start,
            held: true,
            ready,
        })
    }

    // What it reports.
    fn told(&self) -> Told<'a>
        ensures { event_told result.text.now result.production result.is_start ≡ self.now.report.event }
    {
        Told {
            text: self.text,
            production: self.production,
            is_start: self.is_start,
        }
    }

    /// The number of its line.
    pub(crate) fn line(&self) -> u64
        ensures { result ≡ self.now.report.line }
    {
        self.line as u64
    }

    /// What it is about.
    pub(crate) fn subject(&self) -> Option<&'a [u8]>
        ensures { option_map (λ n. n.now) result ≡ subject_of self.now.report.event }
    {
        self.told().subject()
    }

    /// Whether it reports this event.
    pub(crate) fn is_of(&self, event: &Event) -> bool
        ensures { result ≡ same_event self.now.report.event event.now }
    {
        self.told().is_same(event)
    }

    pub(crate) fn is_held(&self) -> bool
        ensures { result ≡ self.now.held }
    {
        self.held
    }

    /// Whether it is held and ready.
    pub(crate) fn is_due(&self) -> bool
        ensures { result ≡ is_due self.now }
    {
        self.held && self.ready
    }

    /// Marks it as ready if it is held, and answers whether it is marked newly.
    pub(crate) fn make_ready(&mut self) -> bool
        ensures marked { self.new ≡ made_ready self.old }
        ensures newly { result ≡ (self.old.held && not self.old.ready) }
    {
        if !self.held || self.ready {
            return false;
        }
        self.ready = true;
        true
    }

    /// Its event, made anew.
    pub(crate) fn event(&self, alloc: Global) -> Result<Event, AllocError>
        ensures { IfOk result (λ e. e ≡ self.now.report.event) }
    {
        self.told().event(alloc)
    }

    /// It is held no longer.
    pub(crate) fn let_go(&mut self)
        ensures { self.new ≡ let_go self.old }
    {
        self.held = false;
    }
}

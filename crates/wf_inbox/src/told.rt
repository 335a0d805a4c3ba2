// Events whose names lie in an arena.
ghost use Rattle.std.specs.Prelude.{◌≡◌, IfOk};
ghost use Rattle.std.specs.Option.{option_map};
ghost use Rattle.report_model.specs.Reports.{same_event, subject_of};
ghost use Rattle.wf_inbox.specs.Told.{event_told};

use crate::packed::{are_same, names_of, push_name, push_names, split_name};
use bumpalo::Bump;
use std::alloc::{AllocError, Global};
use wf_model::{Event, Name, Seq};

/// An event whose names lie in an arena, in one text.
#[derive(Clone, Copy)]
pub(crate) struct Told<'a> {
    pub(crate) text: &'a [u8],
    pub(crate) production: u64,
    pub(crate) is_start: bool,
}

impl<'a> Told<'a> {
    /// A copy of an event, which is written into the scratch text first.
    pub(crate) fn copied(
        arena: &'a Bump,
        scratch: &mut Vec<u8>,
        event: &Event,
    ) -> Result<Told<'a>, AllocError>
        ensures { IfOk result (λ t. event_told t.text.now t.production t.is_start ≡ event.now) }
    {
        match event {
            Event::Start { name } => {
                let text: &'a [u8] = arena.try_alloc_slice_copy(name.bytes())?;
                Ok(Told {
                    text,
                    production: 0,
                    is_start: true,
                })
            }
            Event::Expand {
                instance,
                production,
                names,
            } => {
                scratch.clear();
                push_name(scratch, instance.bytes())?;
                push_names(scratch, names.items())?;
                let text: &'a [u8] = arena.try_alloc_slice_copy(scratch)?;
                Ok(Told {
                    text,
                    production: *production,
                    is_start: false,
                })
            }
        }
    }

    /// The event.
    pub(crate) fn event(&self, alloc: Global) -> Result<Event, AllocError>
        ensures { IfOk result (λ e. e ≡ event_told self.now.text.now self.now.production self.now.is_start) }
    {
        if self.is_start {
            let name = Name::copied(alloc, self.text)?;
            return Ok(Event::Start { name });
        }
        let (instance, names) = split_name(self.text);
        let instance = Name::copied(alloc, instance)?;
        let names = names_of(alloc, names)?;
        Ok(Event::Expand {
            instance,
            production: self.production,
            names: Seq::from_vec(names),
        })
    }

    /// What the event is about.
    pub(crate) fn subject(&self) -> Option<&'a [u8]>
        ensures { option_map (λ n. n.now) result ≡ subject_of (event_told self.now.text.now self.now.production self.now.is_start) }
    {
        if self.is_start {
            return None;
        }
        let (instance, _) = split_name(self.text);
        Some(instance)
    }

    /// Whether it is the same as an event.
    pub(crate) fn is_same(&self, event: &Event) -> bool
        ensures { result ≡ same_event (event_told self.now.text.now self.now.production self.now.is_start) event.now }
    {
        match event {
            Event::Start { name } => self.is_start && self.text == name.bytes(),
            Event::Expand {
                instance,
                production,
                names,
            } => {
                let (own, others) = split_name(self.text);
                !self.is_start
                    && own == instance.bytes()
                    && self.production == *production
                    && are_same(others, names.items())
            }
        }
    }
}

/// What an event is about: the name of an instance, or None for the start.
pub(crate) fn subject(event: &Event) -> Option<&[u8]>
    ensures { option_map (λ n. n.now) result ≡ subject_of event.now }
{
    match event {
        Event::Start { .. } => None,
        Event::Expand { instance, .. } => Some(instance.bytes()),
    }
}

// How the event of a report stands to a run.
ghost use Rattle.wf_model.specs.declared.event.Event.TheVariants.{Start, Expand};
ghost use Rattle.wf_intake.specs.Growing.{StandsAs, HasNumber};

use crate::grows::Grows;
use crate::reported::Reported;
use wf_model::{Event, Name};

/// How the event of a report stands to a run.
#[derive(Clone, Copy, Drop)]
pub(crate) enum Standing {
    /// It was applied.
    Same,
    /// Another event on its subject was applied, which an earlier line reported.
    Other { earlier: u64 },
    /// It is ready, and the instance that it expands has this number.
    Ready { number: Option<u32> },
    /// The instance that it expands does not stand yet.
    Early,
}

/// How a start event stands to a run.
fn start_standing<R: Grows>(reported: &Reported, run: &R, name: &[u8]) -> Standing
    ensures stands { StandsAs R.grammar R.is_run run.now reported.now (Start name.now) result }
    ensures number { HasNumber R.grammar R.is_run run.now (Start name.now) result }
{
    if !run.is_started() {
        return Standing::Ready { number: None };
    }
    if run.is_root(name) {
        return Standing::Same;
    }
    Standing::Other {
        earlier: reported.start(),
    }
}

/// How an expand event stands to a run.
fn expand_standing<R: Grows>(
    reported: &Reported,
    run: &R,
    instance: &[u8],
    production: u64,
    names: &[Name],
) -> Standing
    ensures stands { StandsAs R.grammar R.is_run run.now reported.now (Expand instance.now production names.now) result }
    ensures number { HasNumber R.grammar R.is_run run.now (Expand instance.now production names.now) result }
{
    let Some(number) = run.find(instance) else {
        return Standing::Early;
    };
    let Some(by) = reported.expansion(number) else {
        return Standing::Ready {
            number: Some(number),
        };
    };
    if by.production == production && run.are_children(number, names) {
        return Standing::Same;
    }
    Standing::Other {
        earlier: by.line as u64,
    }
}

/// How an event stands to a run.
///
/// Cost: one look-up where its instance stands.
pub(crate) fn standing_of<R: Grows>(reported: &Reported, run: &R, event: &Event) -> Standing
    ensures stands { StandsAs R.grammar R.is_run run.now reported.now event.now result }
    ensures number { HasNumber R.grammar R.is_run run.now event.now result }
{
    match event {
        Event::Start { name } => start_standing(reported, run, name.bytes()),
        Event::Expand {
            instance,
            production,
            names,
        } => expand_standing(reported, run, instance.bytes(), *production, names.items()),
    }
}

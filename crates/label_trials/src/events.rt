// Events, and the runs that take them.
ghost use Rattle.std.specs.Prelude.{◌^◌, ◌≤◌, IfOk};
ghost use Rattle.wf_flat.specs.Table.{IsTableOf};

use bumpalo::Bump;
use std::alloc::{AllocError, Global};
use std::test::Fail;
use wf_accept::Accepted;
use wf_flat::PlainRun;
use wf_run::Run;
use wf_spec::{Event, Grammar, Name, RunFault, Seq};

/// An event: the start by a root of this name, or the expansion of an instance by a production into instances of these names.
#[derive(Clone, Copy, Debug)]
pub enum Given<'a> {
    Start(&'a str),
    Expand(&'a str, u64, &'a [&'a str]),
}

fn name(alloc: Global, text: &str) -> Result<Name, AllocError> {
    Ok(Name::from_vec(Vec::from_slice(alloc, text.as_bytes())?))
}

pub fn event(alloc: Global, given: Given) -> Result<Event, AllocError> {
    match given {
        Given::Start(root) => Ok(Event::Start {
            name: name(alloc, root)?,
        }),
        Given::Expand(instance, production, children) => {
            let mut names = Vec::new(alloc);
            for child in children {
                names.push(name(alloc, child)?)?;
            }
            Ok(Event::Expand {
                instance: name(alloc, instance)?,
                production,
                names: Seq::from_vec(names),
            })
        }
    }
}

/// A table of at most so many instances that took these events.
pub fn table(alloc: Global, g: &Grammar, most: u8, events: &[Given]) -> Result<PlainRun, Fail>
    ensures { IfOk result (λ r. IsTableOf g.now.core r) }
{
    let mut run = PlainRun::new(alloc, u32::from(most));
    for given in events {
        run.take(g, &event(alloc, *given)?)?;
    }
    Ok(run)
}

/// A run in an arena, of at most so many instances, that took these events.
pub fn placed<'a>(
    alloc: Global,
    arena: &'a Bump,
    s: &'a Accepted,
    most: u8,
    events: &[Given],
) -> Result<Run<'a>, Fail> {
    let mut run = Run::new(alloc, arena, s.linear(), u32::from(most));
    for given in events {
        take(&mut run, &event(alloc, *given)?)?;
    }
    Ok(run)
}

/// Takes an event into a run in an arena.
pub fn take(run: &mut Run<'_>, event: &Event) -> Result<(), RunFault> {
    match event {
        Event::Start { name } => run.start(name.bytes())?,
        Event::Expand {
            instance,
            production,
            names,
        } => run.expand(instance.bytes(), *production, names.items())?,
    };
    Ok(())
}

// Reports that are held, and what later ones say of them.
use bumpalo::Bump;
use std::alloc::{AllocError, Global};
use std::process::Abort;
use std::test::Fail;
use wf_inbox::{Held, Inbox, InboxFault, Offer};
use wf_model::{Event, Name, Seq};

// Each letter of the last part is the name of a child.
#[derive(Clone, Copy)]
enum Given<'a> {
    Start(&'a str),
    Expand(&'a str, u64, &'a str),
}

// A call of an inbox, and what it must answer. Of the next report the line is compared.
#[derive(Clone, Copy)]
enum Call<'a> {
    Offer(u64, Given<'a>, bool, Result<Offer, InboxFault>),
    Stands(&'a str),
    Next(Option<u64>),
    Orphan(Option<u64>),
}

fn name(alloc: Global, text: &str) -> Result<Name, AllocError> {
    Ok(Name::from_vec(Vec::from_slice(alloc, text.as_bytes())?))
}

fn event(alloc: Global, given: Given) -> Result<Event, AllocError> {
    match given {
        Given::Start(root) => Ok(Event::Start {
            name: name(alloc, root)?,
        }),
        Given::Expand(instance, production, children) => {
            let mut names = Vec::new(alloc);
            for letter in children.as_bytes() {
                names.push(Name::from_vec(Vec::from_slice(alloc, &[*letter])?))?;
            }
            Ok(Event::Expand {
                instance: name(alloc, instance)?,
                production,
                names: Seq::from_vec(names),
            })
        }
    }
}

fn offer(
    alloc: Global,
    inbox: &mut Inbox,
    line: u64,
    given: Given,
    stands: bool,
) -> Result<Offer, InboxFault> {
    inbox.offer(line, &event(alloc, given)?, stands)
}

fn next_line(inbox: &mut Inbox) -> Result<Option<u64>, AllocError> {
    let first = inbox.first()?;
    inbox.let_go_first();
    match first {
        Some(held) => Ok(Some(held.line)),
        None => Ok(None),
    }
}

fn answers(rt: &impl Abort, alloc: Global, inbox: &mut Inbox, call: Call) -> Result<(), Fail> {
    match call {
        Call::Offer(line, given, stands, answer) => {
            assert_eq!(rt; offer(alloc, inbox, line, given, stands), answer);
        }
        Call::Stands(instance) => {
            inbox.reserve(1)?;
            inbox.stands(instance.as_bytes());
        }
        Call::Next(line) => assert_eq!(rt; next_line(inbox)?, line),
        Call::Orphan(line) => assert_eq!(rt; inbox.orphan(), line),
    }
    Ok(())
}

fn all_answer(rt: &impl Abort, alloc: Global, calls: &[Call]) -> Result<(), Fail> {
    let arena = Bump::new(alloc);
    let mut inbox = Inbox::with_key(alloc, 7, &arena);
    for call in calls {
        answers(rt, alloc, &mut inbox, *call)?;
    }
    Ok(())
}

#[test]
fn in_order(rt: HostRuntime) -> Result<(), Fail> {
    let calls = [
        Call::Orphan(None),
        Call::Offer(1, Given::Start("r"), true, Ok(Offer::Kept)),
        Call::Next(Some(1)),
        Call::Next(None),
        Call::Stands("r"),
        Call::Offer(2, Given::Expand("r", 0, "a"), true, Ok(Offer::Kept)),
        Call::Next(Some(2)),
        Call::Orphan(None),
    ];
    all_answer(&rt, rt.alloc(), &calls)
}

#[test]
fn reversed(rt: HostRuntime) -> Result<(), Fail> {
    let calls = [
        Call::Offer(1, Given::Expand("b", 0, "c"), false, Ok(Offer::Kept)),
        Call::Offer(2, Given::Expand("a", 0, "b"), false, Ok(Offer::Kept)),
        Call::Offer(3, Given::Start("a"), true, Ok(Offer::Kept)),
        Call::Orphan(Some(1)),
        Call::Next(Some(3)),
        Call::Next(None),
        Call::Stands("a"),
        Call::Next(Some(2)),
        Call::Next(None),
        Call::Stands("b"),
        Call::Next(Some(1)),
        Call::Orphan(None),
    ];
    all_answer(&rt, rt.alloc(), &calls)
}

// The first in the order of the lines is taken out first, whichever is ready first.
#[test]
fn first_line_first(rt: HostRuntime) -> Result<(), Fail> {
    let calls = [
        Call::Offer(1, Given::Expand("a", 0, ""), false, Ok(Offer::Kept)),
        Call::Offer(2, Given::Expand("b", 0, ""), false, Ok(Offer::Kept)),
        Call::Offer(3, Given::Expand("c", 0, ""), false, Ok(Offer::Kept)),
        Call::Stands("c"),
        Call::Offer(4, Given::Expand("d", 0, ""), true, Ok(Offer::Kept)),
        Call::Stands("a"),
        Call::Stands("b"),
        Call::Stands("c"),
        Call::Stands("e"),
        Call::Next(Some(1)),
        Call::Next(Some(2)),
        Call::Next(Some(3)),
        Call::Next(Some(4)),
        Call::Next(None),
    ];
    all_answer(&rt, rt.alloc(), &calls)
}

#[test]
fn repeated(rt: HostRuntime) -> Result<(), Fail> {
    let calls = [
        Call::Offer(1, Given::Expand("a", 2, "xy"), false, Ok(Offer::Kept)),
        Call::Offer(2, Given::Expand("a", 2, "xy"), false, Ok(Offer::Repeat)),
        Call::Orphan(Some(1)),
        Call::Stands("a"),
        Call::Next(Some(1)),
        Call::Offer(3, Given::Expand("a", 2, "xy"), true, Ok(Offer::Repeat)),
        Call::Stands("a"),
        Call::Next(None),
        Call::Orphan(None),
    ];
    all_answer(&rt, rt.alloc(), &calls)
}

// Another production, another name, a name less and a name more; of a report that is held, and of one that is not.
#[test]
fn contradicted(rt: HostRuntime) -> Result<(), Fail> {
    let by_first = Err(InboxFault::Conflict { earlier: 1 });
    let calls = [
        Call::Offer(1, Given::Expand("a", 2, "xy"), false, Ok(Offer::Kept)),
        Call::Offer(2, Given::Expand("b", 2, "xy"), false, Ok(Offer::Kept)),
        Call::Offer(3, Given::Expand("a", 1, "xy"), false, by_first),
        Call::Offer(4, Given::Expand("a", 2, "xz"), false, by_first),
        Call::Stands("a"),
        Call::Next(Some(1)),
        Call::Offer(5, Given::Expand("a", 2, "x"), true, by_first),
        Call::Offer(6, Given::Expand("a", 2, "xyz"), true, by_first),
        Call::Next(None),
        Call::Orphan(Some(2)),
    ];
    all_answer(&rt, rt.alloc(), &calls)
}

// A start event is about the start, whatever its name; and no expansion is.
#[test]
fn starts(rt: HostRuntime) -> Result<(), Fail> {
    let by_third = Err(InboxFault::Conflict { earlier: 3 });
    let calls = [
        Call::Offer(1, Given::Expand("", 0, ""), false, Ok(Offer::Kept)),
        Call::Offer(2, Given::Expand("a", 0, ""), false, Ok(Offer::Kept)),
        Call::Offer(3, Given::Start("a"), true, Ok(Offer::Kept)),
        Call::Offer(4, Given::Start("a"), true, Ok(Offer::Repeat)),
        Call::Offer(5, Given::Start("b"), true, by_third),
        Call::Next(Some(3)),
        Call::Offer(6, Given::Start(""), true, by_third),
        Call::Orphan(Some(1)),
    ];
    all_answer(&rt, rt.alloc(), &calls)
}

fn is_expansion_of_a(rt: &impl Abort, held: &Held) {
    assert_eq!(rt; held.line, 5);
    let Event::Expand {
        instance,
        production,
        names,
    } = &held.event
    else {
        panic!(rt; "a start")
    };
    assert_eq!(rt; instance.bytes(), b"a".as_slice());
    assert_eq!(rt; *production, 2);
    assert_eq!(rt; names.items().len(), 1);
}

// The event comes out as it was given.
#[test]
fn its_event(rt: HostRuntime) -> Result<(), Fail> {
    let arena = Bump::new(rt.alloc());
    let mut inbox = Inbox::with_key(rt.alloc(), 0, &arena);
    offer(rt.alloc(), &mut inbox, 5, Given::Expand("a", 2, "x"), true)?;
    if let Some(held) = inbox.first()? {
        is_expansion_of_a(&rt, &held);
        return Ok(());
    }
    Err(Fail::new("no event"))
}

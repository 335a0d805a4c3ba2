// Runs as tables and runs in arenas: the events that they take and refuse, and the items and paths of a run of the line grammar.
ghost use Rattle.wf_model.specs.Proper.{IsProper};
ghost use Rattle.wf_check.specs.Proper.{IsRankingOf};
ghost use Rattle.wf_flat.specs.Table.{IsTableOf};

use crate::events::Given::{Expand, Start};
use crate::events::{Given, event, placed, table, take};
use bumpalo::Bump;
use std::alloc::{AllocError, Global};
use std::test::Fail;
use wf_accept::Accepted;
use wf_flat::{Flat, Item, PlainRun, Port, find_item};
use wf_samples::{LINE, LOOP, safe, sample};
use wf_spec::RunFault::{
    AlreadyExpanded, NameBad, NameTwice, NotStarted, PositionsWrong, StartedTwice,
    TooManyInstances, UnknownInstance, UnknownProduction, WrongHead,
};
use wf_spec::{Event, PortNo, RunFault, Side};

/// The whole run of the line grammar: instance 1 is the P, and instance 2 the Q.
const WHOLE: &[Given] = &[Start("r"), OF_ROOT];

/// A grammar, and events of a run of it.
type Before = (&'static str, &'static [Given<'static>]);

const NONE: Before = (LOOP, &[]);

const ROOT: Before = (LINE, &[Start("r")]);

const BEGUN: Before = (LOOP, &[Start("r"), Expand("r", 0, &["l0"])]);

/// Each line: how many instances a run may have, an event behind `BEGUN`, and why it is refused. It breaks as many of the later rules as it can.
const REFUSED: [(u8, Given, RunFault); 10] = [
    (2, Start("?"), StartedTwice),
    (2, Expand("q", 3, &["?", "?", "r"]), UnknownInstance),
    (2, Expand("r", 3, &["?", "?", "r"]), UnknownProduction),
    (2, Expand("r", 1, &["?", "?", "r"]), WrongHead),
    (2, Expand("r", 0, &["?", "?", "r"]), AlreadyExpanded),
    (2, Expand("l0", 1, &["?", "?", "r"]), PositionsWrong),
    (2, Expand("l0", 1, &["?", "r"]), NameBad),
    (2, Expand("l0", 1, &["w0", "r"]), NameTwice),
    (2, Expand("l0", 1, &["w0", "w0"]), NameTwice),
    (3, Expand("l0", 1, &["w0", "l1"]), TooManyInstances),
];

/// The expansion of the root of the line grammar, and one that breaks all rules.
const OF_ROOT: Given = Expand("r", 0, &["i1", "i2"]);

const BAD: Given = Expand("q", 3, &["?", "?", "q"]);

/// How many instances and how many expansions there are.
type Counts = (usize, usize);

/// Each line: the events before, how many instances a run may have, the event, why it is refused, if it is, and the counts then.
const EVENTS: [(Before, u8, Given, Option<RunFault>, Counts); 7] = [
    (NONE, 0, BAD, Some(NotStarted), (0, 0)),
    (NONE, 0, Start("?"), Some(NameBad), (0, 0)),
    (NONE, 0, Start("r"), Some(TooManyInstances), (0, 0)),
    (ROOT, 2, OF_ROOT, Some(TooManyInstances), (1, 0)),
    (ROOT, 3, OF_ROOT, None, (3, 1)),
    (BEGUN, 4, Expand("l0", 1, &["w0", "l1"]), None, (4, 2)),
    (BEGUN, 3, Expand("l0", 2, &["w0"]), None, (3, 2)),
];

/// The input of the root.
const ROOT_INPUT: Port = Port {
    instance: 0,
    side: Side::Input,
    port: PortNo(0),
};

/// The output of the root.
const ROOT_OUTPUT: Port = Port {
    instance: 0,
    side: Side::Output,
    port: PortNo(0),
};

/// The output of the P.
const EDGE_FROM: Port = Port {
    instance: 1,
    side: Side::Output,
    port: PortNo(0),
};

/// The input of the Q.
const EDGE_TO: Port = Port {
    instance: 2,
    side: Side::Input,
    port: PortNo(0),
};

/// The item of the edge.
const INNER: Item = Item {
    maker: Some(0),
    from: Some(EDGE_FROM),
    to: Some(EDGE_TO),
};

/// Each line: a name, and the item of the whole run that has it, if one has.
const ITEMS: [(&str, Option<Item>); 6] = [
    (
        "r.a",
        Some(Item {
            maker: None,
            from: None,
            to: Some(ROOT_INPUT),
        }),
    ),
    (
        "r.b",
        Some(Item {
            maker: None,
            from: Some(ROOT_OUTPUT),
            to: None,
        }),
    ),
    ("i1.y", Some(INNER)),
    // Names that no query has.
    (".a", None),
    ("r", None),
    ("r.a.", None),
];

/// Each line: a view, whether it shows the item of the edge, and whether it joins the root's input to the input of the Q and to the root's output, the ends of the edge, the root's output to its input, and once more the root's input to its output.
const VIEWS: [(&str, bool, [bool; 5]); 3] = [
    ("{}", true, [true, true, true, false, true]),
    (r#"{"expand":[]}"#, false, [false, true, false, false, true]),
    (
        r#"{"expand":[],"deps":[{"module":"S","pairs":[]}]}"#,
        false,
        [false, false, false, false, false],
    ),
];

/// Why a table that took events refuses another, if it does, and its counts then.
fn told_by_table(
    alloc: Global,
    s: &Accepted,
    most: u8,
    before: &[Given],
    event: &Event,
) -> Result<(Option<RunFault>, Counts), Fail> {
    let mut run = table(alloc, s.grammar(), most, before)?;
    let fault = run.take(s.grammar(), event).err();
    let all = run.instances();
    let expanded = all.iter().filter(|x| x.production.is_some()).count();
    Ok((fault, (all.len(), expanded)))
}

/// The same of a run in an arena.
fn told_by_run(
    alloc: Global,
    s: &Accepted,
    most: u8,
    before: &[Given],
    event: &Event,
) -> Result<(Option<RunFault>, Counts), Fail> {
    let arena = Bump::new(alloc);
    let mut run = placed(alloc, &arena, s, most, before)?;
    let fault = take(&mut run, event).err();
    Ok((fault, (run.instances() as usize, run.expands() as usize)))
}

/// Whether this comes of an event behind others, in a table and in a run in an arena.
fn is_told(
    alloc: Global,
    (text, before): Before,
    most: u8,
    given: Given,
    outcome: (Option<RunFault>, Counts),
) -> Result<bool, Fail> {
    let s = sample(alloc, text)?;
    let event = event(alloc, given)?;
    let in_table = told_by_table(alloc, &s, most, before, &event)?;
    let in_run = told_by_run(alloc, &s, most, before, &event)?;
    Ok(in_table == outcome && in_run == outcome)
}

#[test]
fn both_kinds_of_run_take_and_refuse_events(rt: HostRuntime) -> Result<(), Fail> {
    for &(most, given, fault) in &REFUSED {
        assert!(rt;
            is_told(rt.alloc(), BEGUN, most, given, (Some(fault), (2, 1)))?,
            "at {given:?}"
        );
    }
    for &(before, most, given, fault, counts) in &EVENTS {
        assert!(rt;
            is_told(rt.alloc(), before, most, given, (fault, counts))?,
            "at {given:?}"
        );
    }
    Ok(())
}

/// Whether this is the item of the whole run of the line grammar that has a name.
fn is_item(alloc: Global, name: &str, wanted: Option<Item>) -> Result<bool, Fail> {
    let s = sample(alloc, LINE)?;
    let run = table(alloc, s.grammar(), 3, WHOLE)?;
    Ok(find_item(s.grammar(), &run, 0, name.as_bytes()) == wanted)
}

#[test]
fn items_are_found_by_name(rt: HostRuntime) -> Result<(), Fail> {
    for &(name, wanted) in &ITEMS {
        assert!(rt; is_item(rt.alloc(), name, wanted)?, "at {name}");
    }
    Ok(())
}

/// Whether the root's input is joined to the input of the Q and to the root's output, the ends of the edge to each other, the root's output to its input, and once more the root's input to its output.
fn joined(flat: &mut Flat) -> Result<[bool; 5], AllocError> {
    let into = flat.joined(ROOT_INPUT, EDGE_TO)?;
    let across = flat.joined(ROOT_INPUT, ROOT_OUTPUT)?;
    let along = flat.joined(EDGE_FROM, EDGE_TO)?;
    let back = flat.joined(ROOT_OUTPUT, ROOT_INPUT)?;
    let again = flat.joined(ROOT_INPUT, ROOT_OUTPUT)?;
    Ok([into, across, along, back, again])
}

/// Whether a view of the run of the line grammar shows the item of the edge, and what ports it joins.
fn told_by_view(
    alloc: Global,
    s: &Accepted,
    run: &PlainRun,
    text: &str,
) -> Result<(bool, [bool; 5]), Fail>
    requires run { IsTableOf s.now.grammar.core run.now }
{
    let safe = safe(alloc, s, text)?;
    let mut flat = Flat::of(
        alloc,
        safe.grammar(),
        run,
        safe.view().marks(),
        safe.full().deps(),
    )?;
    let is_shown = flat.shows(&INNER);
    Ok((is_shown, joined(&mut flat)?))
}

/// Whether a view of the whole run shows the item of the edge, or does not, and joins these ports.
fn shows(alloc: Global, text: &str, is_shown: bool, joined: [bool; 5]) -> Result<bool, Fail> {
    let s = sample(alloc, LINE)?;
    let run = table(alloc, s.grammar(), 3, WHOLE)?;
    Ok(told_by_view(alloc, &s, &run, text)? == (is_shown, joined))
}

#[test]
fn views_show_items_and_join_ports(rt: HostRuntime) -> Result<(), Fail> {
    for &(text, is_shown, joined) in &VIEWS {
        assert!(rt; shows(rt.alloc(), text, is_shown, joined)?, "at {text}");
    }
    Ok(())
}

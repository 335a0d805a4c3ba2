// Why one item of a run rests on another, put.
ghost use Rattle.std.specs.Prelude.{[]};
ghost use Rattle.wf_message.specs.Endings.{end_after};
ghost use Rattle.wf_stage.specs.Promises.{Writes};
ghost use Rattle.wf_chain.specs.ViewedRuns.{grammar_in, view_in, events_in, item_in, IsVisibleIn};
ghost use Rattle.cmd_explain.specs.Reasons.{IsReason};

use std::alloc::Global;
use wf_chain::ViewedRun;
use wf_flat::Item;
use wf_io::Sink;
use wf_message::Stop;
use wf_stage::put_text;

/// Puts the first of the shortest chains from a visible item of a run to a visible item, or `no` where there is none.
fn put_chain<O: Sink>(
    alloc: Global,
    run: &ViewedRun<'_>,
    first: &Item,
    second: &Item,
    out: &mut O,
) -> Result<(), Stop>
    requires first { IsVisibleIn run.now first.now }
    requires second { IsVisibleIn run.now second.now }
    ensures writes { Writes O.put_bytes O.faults O.at_last []
        (IsReason (grammar_in run.now) (view_in run.now) (events_in run.now) (item_in run.now first.now).name (item_in run.now second.now).name)
        out.old out.new (end_after result) }
{
    // For two names there is one text.
    let _run = run.run();
    let Ok(told) = run.explain(alloc, first, second) else {
        return Err(Stop::NoMemory);
    };
    let Some(chain) = told else {
        return put_text(out, b"no\n");
    };
    let Ok(text) = run.text_of(alloc, &chain) else {
        return Err(Stop::NoMemory);
    };
    put_text(out, &text)
}

/// Puts why one item of a run rests on another, by their names: `unknown` where no item has one of them, `hidden` where the view does not show both; otherwise the first of the shortest chains from the first to the second, or `no` where there is none.
///
/// All that needs memory comes before the text. Cost: linear in the run and in the text.
pub(crate) fn put_reason<O: Sink>(
    alloc: Global,
    run: &ViewedRun<'_>,
    first: &[u8],
    second: &[u8],
    out: &mut O,
) -> Result<(), Stop>
    ensures writes { Writes O.put_bytes O.faults O.at_last [] (IsReason (grammar_in run.now) (view_in run.now) (events_in run.now) first.now second.now)
        out.old out.new (end_after result) }
{
    // For two names there is one text.
    let _run = run.run();
    let Some(x) = run.find_item(0, first) else {
        return put_text(out, b"unknown\n");
    };
    let Some(y) = run.find_item(0, second) else {
        return put_text(out, b"unknown\n");
    };
    if !run.shows(&x) {
        return put_text(out, b"hidden\n");
    }
    if !run.shows(&y) {
        return put_text(out, b"hidden\n");
    }
    put_chain(alloc, run, &x, &y, out)
}

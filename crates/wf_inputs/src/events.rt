// EVENTS: from the lines of a file to a run.
ghost use Rattle.std.specs.Prelude.{◌≡◌, ℕ, List, true, false, [], IfOk, length, take, bytes_eq};
ghost use Rattle.std.specs.Cmp.Lexicographic.{pointwise};
ghost use Rattle.wf_model.specs.Grammar.{Grammar, body_of};
ghost use Rattle.wf_flat.specs.Table.{IsTableOf, names_in};
ghost use Rattle.wf_io.specs.Readers.{IsReading};
ghost use Rattle.wf_inputs.specs.Inputs.{instance_most};
ghost use Rattle.wf_inputs.specs.RunTaking.{nothing_written};
ghost use Rattle.wf_inputs.specs.Reporting.{IsGrownBy, IsChildrenTestIn, ReadsEvents};

use crate::event_stop::events_stop;
use crate::reports::Reporting;
use bumpalo::Bump;
use std::alloc::Global;
use std::marker::Model;
use wf_flat::{Inst, PlainRun};
use wf_intake::Grows;
use wf_io::{Lines, PlainSink, Shelf};
use wf_lines::{Due, take_lines};
use wf_message::Stop;
use wf_spec::{Event, Grammar, Name, ProdNo, RunFault};

/// The greatest number of instances of a run.
pub const INSTANCES: u32 = 16777216;

/// A run of a grammar, of whose events nothing is written.
#[derive(Drop)]
struct PlainGrowing<'g> {
    grammar: &'g Grammar,
    run: PlainRun,
}

impl<'g> Model for PlainGrowing<'g> {
    ghost use Rattle.wf_flat.specs.Table.{IsTableOf};
    ghost use Rattle.wf_inputs.specs.Reporting.{GrowingSeen};

    ghost Value = { GrowingSeen };

    ghost view = { λ r. record { grammar = r.grammar.now.core; run = r.run } };

    ghost invariant = { λ r. IsTableOf r.grammar.now.core r.run };
}

impl<'g> PlainGrowing<'g> {
    /// A run before its start, whose names are hashed with this key. Takes no memory.
    fn with_key(alloc: Global, key: u64, grammar: &'g Grammar) -> PlainGrowing<'g>
        ensures grammar { result.grammar ≡ grammar.now.core }
        ensures run { result.run ≡ record { most = instance_most; instances = []; order = [] } }
    {
        PlainGrowing {
            grammar,
            run: PlainRun::with_key(alloc, key, INSTANCES),
        }
    }

    /// The run alone.
    fn into_run(self) -> PlainRun
        ensures { result ≡ self.entry.run }
    {
        self.run
    }
}

/// How many positions a production has.
fn count_positions(g: &Grammar, p: ProdNo) -> usize
    ensures { result ≡ length (body_of g.now.core p.0) }
{
    match g.productions().get(p.0 as usize) {
        Some(rule) => rule.positions().len(),
        None => 0,
    }
}

/// Whether the first instances of a list have these names, one for each.
fn have_names(instances: &[Inst], names: &[Name]) -> bool
    ensures { result ≡ pointwise bytes_eq (take (length names.now) (names_in instances.now)) names.now }
{
    let mut left = instances;
    let mut wanted = names;
    while let [name, more @ ..] = wanted {
        let [x, rest @ ..] = left else {
            return false;
        };
        if x.name.bytes() != name.bytes() {
            return false;
        }
        left = rest;
        wanted = more;
    }
    true
}

/// Whether the instance of a number was expanded into instances of these names.
fn are_children(g: &Grammar, run: &PlainRun, number: u32, names: &[Name]) -> bool
    requires { IsTableOf g.now.core run.now }
    ensures { IsChildrenTestIn run.now number names.now result }
{
    let instances = run.instances();
    let Some(x) = instances.get(number as usize) else {
        return false;
    };
    let Some(p) = x.production else {
        return false;
    };
    let Some(children) = instances.get(x.first_child as usize..) else {
        return false;
    };
    names.len() == count_positions(g, p) && have_names(children, names)
}

impl Grows for PlainGrowing<'_> {
    ghost grammar = { λ r. r.grammar };

    ghost most = { λ r. r.run.most };

    ghost is_run = { IsGrownBy };

    ghost written = { nothing_written };

    ghost text = { λ r. [] };

    ghost Known = { Grammar };

    ghost is_known = { λ r g. (r.grammar ≡ g) × IsTableOf g r.run };

    fn is_started(&self) -> bool {
        !self.run.instances().is_empty()
    }

    fn is_root(&self, name: &[u8]) -> bool {
        match self.run.instances() {
            [root, ..] => root.name.bytes() == name,
            [] => false,
        }
    }

    fn find(&self, name: &[u8]) -> Option<u32> {
        self.run.find(name)
    }

    fn are_children(&self, number: u32, names: &[Name]) -> bool {
        are_children(self.grammar, &self.run, number, names)
    }

    fn apply(&mut self, number: Option<u32>, event: &Event) -> Result<(), RunFault> {
        self.run.take_found(self.grammar, number, event)
    }

    fn clear(&mut self) {}

    fn text(&self) -> &[u8] {
        &[]
    }
}

/// The run of a grammar that the lines of a file of events tell, which was opened. Names are held in this arena as long as reports are taken.
fn run_of_lines<H: Shelf>(
    alloc: Global,
    arena: &Bump,
    g: &Grammar,
    lines: &mut Lines<'_>,
    due: &mut Due,
    shelf: &mut H,
) -> Result<PlainRun, Stop>
    requires live { lines.old.live ≡ true }
    requires none { due.old ≡ [] }
    requires reading { IsReading lines.old (H.readings shelf.old) }
    ensures run { IfOk result (λ r. IsTableOf g.now.core r) }
    ensures reads { (name : List ℕ) → lines.old
        ≡ record { name = name; place = 0; kept = []; number = 1; line = 0; held = []; live = true; wants = false; ended = false } →
        ReadsEvents H.files H.readings H.faults H.at_last name g.now.core shelf.old shelf.new result }
{
    let key = shelf.hash_key();
    let run = PlainGrowing::with_key(alloc, key, g);
    let mut reporting = Reporting::new(alloc, key, arena, run);
    let mut out = PlainSink::new();
    match take_lines(&mut reporting, lines, due, shelf, &mut out) {
        Ok(_) => Ok(reporting.run.into_run()),
        Err(fault) => Err(events_stop(fault)),
    }
}

/// The run of EVENTS, of a grammar, whose lines are taken as reports, in any order.
///
/// Refused at the first line that is too long, has no reading, has not the form of an event, or reports another event than an earlier line on the same subject; at a line whose event came to be ready, and is refused by the run; where the file ends, at the first line whose event never came to be ready; with the number of the line and the fault; or in the line in which the file goes on past the most bytes that are read of it. `NoMemory` may come at any line.
///
/// Cost: linear in the bytes. Takes memory for the run, for the reports and for one line.
pub fn events_stage<H: Shelf>(
    alloc: Global,
    shelf: &mut H,
    name: &str,
    g: &Grammar,
) -> Result<PlainRun, Stop>
    ensures run { IfOk result (λ r. IsTableOf g.now.core r) }
    ensures reads { ReadsEvents H.files H.readings H.faults H.at_last name.now g.now.core shelf.old shelf.new result }
{
    let Ok(mut lines) = Lines::open(alloc, name) else {
        return Err(Stop::NoMemory);
    };
    let Ok(mut due) = Due::new(alloc) else {
        return Err(Stop::NoMemory);
    };
    let arena = Bump::new(alloc);
    run_of_lines(alloc, &arena, g, &mut lines, &mut due, shelf)
}

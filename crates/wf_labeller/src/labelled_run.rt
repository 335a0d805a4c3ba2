// A run of which each item can be labelled by its number.
ghost use Rattle.std.specs.Prelude.{◌≡◌, ◌<◌, ◌++◌, ◌∷◌, [], Some, None, length, get_or, vec_len, vec_capacity, IfOk, IfErr, IfSome, IsNone, OnOk, OnErr};
ghost use Rattle.wf_model.specs.declared.event.Event.{Event};
ghost use Rattle.wf_model.specs.declared.event.RunFault.TheVariants.{NoMemory};
ghost use Rattle.wf_run.specs.Runs.{GoesOn};
ghost use Rattle.wf_run.specs.Found.{IsFoundFor};
ghost use Rattle.wf_run.specs.Taking.{IsRunAfter, RunTakes, RunRejects, RunRefuses};
ghost use Rattle.wf_labeller.specs.Groups.{IsGrouped, IsMeasureOf, IsThere, all_bits, bits_by, longest_of};
ghost use Rattle.wf_labeller.specs.Taking.{AddsLabels, AreLabelsOfTaken, AreBounded};

use crate::group::{Group, Maker, begin_of, group_with};
use crate::labeller::{look_up, place};
use crate::measure::{Measure, longer, measure_edges, measure_root, write_edge, write_root};
use bit_pack::BitWriter;
use std::alloc::{AllocError, Global};
use std::marker::Model;
use wf_run::{NodeNo, Run};
use wf_spec::{Event, RunFault};

/// A run and, of each event, what the labels of its items follow from. A caller sees the run, and the labels of its items in the order of making, each as its bits.
///
/// The label of each item is made when its event is taken, and its bits are counted; it is not kept. The label of an item that is asked for by its number is made again. So a label takes no memory, and an event 16 bytes beside those that it takes in the run.
#[derive(Drop)]
pub struct LabelledRun<'a> {
    run: Run<'a>,
    bits: BitWriter,
    groups: Vec<Group>,
    longest: u32,
}

impl<'a> Model for LabelledRun<'a> {
    ghost use Rattle.wf_labeller.specs.Groups.{Labelled, IsGrouped, all_bits};

    ghost Value = { Labelled };

    ghost view = { λ l. record { run = l.run; labels = all_bits l.run l.groups.items } };

    ghost invariant = { λ l. IsGrouped l.run l.groups.items l.longest };
}

/// What makes the items of an event, if the run takes it. None tells that the run refuses the event.
fn maker_of(run: &Run<'_>, found: Option<NodeNo>, event: &Event) -> Option<Maker>
    requires found { IsFoundFor run.now event.now found }
    ensures there { IfSome result (λ m. IsThere run.now m) }
    ensures labels { IfSome result (λ m. AreLabelsOfTaken (bits_by run.now m) run.now event.now) }
    ensures none { IsNone result → RunRejects run.now event.now }
{
    // A grammar is well-formed.
    let _formed = run.grammar().start();
    match event {
        Event::Start { .. } => Some(Maker::Root),
        Event::Expand {
            instance,
            production,
            names,
        } => {
            let (instance, production) = place(
                run,
                found,
                instance.bytes(),
                *production,
                names.items(),
            )?;
            Some(Maker::Expansion {
                instance,
                production,
            })
        }
    }
}

/// The measure of the labels of the items of an event. The only error is that memory is refused.
fn measure(run: &Run<'_>, maker: Maker, bits: &mut BitWriter) -> Result<Measure, AllocError>
    requires { IsThere run.now maker }
    ensures { IfOk result (IsMeasureOf (bits_by run.now maker)) }
{
    // A grammar is well-formed: what the run keeps of an instance is the prefix of its labels.
    let g = run.grammar();
    match maker {
        Maker::Root => measure_root(g, bits),
        Maker::Expansion {
            instance,
            production,
        } => measure_edges(g, production, run.prefix(instance), bits),
    }
}

/// Writes the label of an item of an event, in place of what was written. The only error is that memory is refused.
fn write_item(run: &Run<'_>, maker: Maker, k: usize, bits: &mut BitWriter) -> Result<(), AllocError>
    requires there { IsThere run.now maker }
    requires in_range { k < length (bits_by run.now maker) }
    ensures { OnOk result (bits.new ≡ get_or (bits_by run.now maker) k []) }
{
    let g = run.grammar();
    match maker {
        Maker::Root => write_root(g, k, bits),
        Maker::Expansion {
            instance,
            production,
        } => write_edge(g, production, run.prefix(instance), k, bits),
    }
}

/// Appends a group, where there is room for it.
fn put(groups: &mut Vec<Group>, group: Group)
    requires { vec_len groups.old < vec_capacity groups.old }
    ensures { groups.new.items ≡ groups.old.items ++ group ∷ [] }
{
    if groups.push(group).is_err() {
        unreachable!();
    }
}

/// Takes an event whose instance was looked up. After an error the run is as it was.
fn take_event(run: &mut Run<'_>, found: Option<NodeNo>, event: &Event) -> Result<(), RunFault>
    requires found { IsFoundFor run.old event.now found }
    ensures taken { OnOk result (IsRunAfter run.old event.now run.new) }
    ensures extends { OnOk result (RunTakes run.old event.now) }
    ensures goes_on { OnOk result (GoesOn run.old run.new) }
    ensures refused { IfErr result (RunRefuses run.old event.now) }
    ensures unchanged { OnErr result (run.new ≡ run.old) }
{
    match event {
        Event::Start { name } => {
            run.start(name.bytes())?;
            Ok(())
        }
        Event::Expand {
            instance,
            production,
            names,
        } => {
            run.expand_found(found, instance.bytes(), *production, names.items())?;
            Ok(())
        }
    }
}

/// Takes an event, if it extends the run, and adds the group of the items that it makes. After an error all is as it was.
fn take_group(
    run: &mut Run<'_>,
    bits: &mut BitWriter,
    groups: &mut Vec<Group>,
    longest: &mut u32,
    event: &Event,
) -> Result<(), RunFault>
    requires kept { IsGrouped run.old groups.old.items longest.old }
    ensures taken { OnOk result (IsRunAfter run.old event.now run.new) }
    ensures labels { OnOk result (AddsLabels (all_bits run.old groups.old.items) (all_bits run.new groups.new.items) run.old event.now) }
    ensures extends { OnOk result (RunTakes run.old event.now) }
    ensures goes_on { OnOk result (GoesOn run.old run.new) }
    ensures kept { OnOk result (IsGrouped run.new groups.new.items longest.new) }
    ensures refused { IfErr result (RunRefuses run.old event.now) }
    ensures same_run { OnErr result (run.new ≡ run.old) }
    ensures same_groups { OnErr result (groups.new.items ≡ groups.old.items) }
    ensures same_longest { OnErr result (longest.new ≡ longest.old) }
{
    let found = look_up(run, event);
    let Some(maker) = maker_of(run, found, event) else {
        return take_event(run, found, event);
    };
    let made = measure(run, maker, bits)?;
    // There is such a number: a run has fewer than 2^25 events, of at most 4,096 items each.
    let Some(end) = begin_of(groups, groups.len()).checked_add(made.count) else {
        return Err(RunFault::NoMemory);
    };
    groups.reserve(1)?;
    take_event(run, found, event)?;
    put(groups, Group { maker, end });
    *longest = longer(made.longest, *longest);
    Ok(())
}

impl<'a> LabelledRun<'a> {
    /// Begins with a run before its start. Takes no memory.
    pub fn new(alloc: Global, run: Run<'a>) -> LabelledRun<'a>
        ensures run { result.run ≡ run.entry }
        ensures none { result.labels ≡ [] }
    {
        LabelledRun {
            run,
            bits: BitWriter::new(alloc),
            groups: Vec::new(alloc),
            longest: 0,
        }
    }

    /// The run.
    pub fn run(&self) -> &Run<'a>
        ensures { result.now ≡ self.now.run }
    {
        &self.run
    }

    /// Takes an event, if it extends the run, and labels the items that it makes: those of the root's inputs and then of its outputs for a start event, those of the edges of the production for an expand event. After an error all is as it was.
    ///
    /// Errors: as `Run::start` and `Run::expand`, in their order; `NoMemory` may come at any time.
    ///
    /// Cost: that of the event in the run, and linear in the bits of what the labels of the items begin with, with one gamma code more for each. No address is walked.
    pub fn take(&mut self, event: &Event) -> Result<(), RunFault>
        ensures taken { OnOk result (IsRunAfter self.old.run event.now self.new.run) }
        ensures labels { OnOk result (AddsLabels self.old.labels self.new.labels self.old.run event.now) }
        ensures bound { OnOk result (AreBounded self.old.run self.new.run event.now) }
        ensures extends { OnOk result (RunTakes self.old.run event.now) }
        ensures goes_on { OnOk result (GoesOn self.old.run self.new.run) }
        ensures refused { IfErr result (RunRefuses self.old.run event.now) }
        ensures unchanged { OnErr result (self.new ≡ self.old) }
    {
        // The bound holds since the grammar is well-formed and strictly linear.
        let _formed = self.run.grammar().start();
        take_group(
            &mut self.run,
            &mut self.bits,
            &mut self.groups,
            &mut self.longest,
            event,
        )?;
        Ok(())
    }

    /// How many items there are.
    pub fn items(&self) -> usize
        ensures { result ≡ length self.now.labels }
    {
        begin_of(&self.groups, self.groups.len())
    }

    /// How many bits the longest label has, and 0 where there is none. They were counted when it was made.
    pub fn longest(&self) -> u32
        ensures { result ≡ longest_of self.now.labels }
    {
        self.longest
    }

    /// Writes the label of the item of a number, from 0, in place of what was written. The only error is that memory is refused.
    ///
    /// Cost: a search by halving among the events, and linear in the bits of the label.
    pub fn write_label(&self, item: usize, bits: &mut BitWriter) -> Result<(), AllocError>
        requires { item < length self.now.labels }
        ensures { OnOk result (bits.new ≡ get_or self.now.labels item []) }
    {
        let i = group_with(&self.groups, item);
        let k = item - begin_of(&self.groups, i);
        write_item(&self.run, self.groups[i].maker, k, bits)
    }
}

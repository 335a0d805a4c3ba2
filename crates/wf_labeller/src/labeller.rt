// A run whose items are labelled as they are made.
ghost use Rattle.std.specs.Prelude.{◌≡◌, ◌<◌, ◌≤◌, ℕ, List, Some, None, length, position, bytes_eq, IfErr, IfSome, IsNone, OnOk, OnErr};
ghost use Rattle.wf_model.specs.declared.event.Event.{Event};
ghost use Rattle.wf_model.specs.declared.event.Event.TheVariants.{Start, Expand};
ghost use Rattle.wf_model.specs.declared.event.RunFault.TheVariants.{NoMemory};
ghost use Rattle.wf_model.specs.Lists.{IsIn};
ghost use Rattle.label_model.specs.Files.{entry_bytes};
ghost use Rattle.wf_run.specs.Runs.{IsRunOf, GoesOn};
ghost use Rattle.wf_run.specs.Found.{IsFoundAs, IsFoundFor};
ghost use Rattle.wf_run.specs.Taking.{IsRunAfter, RunTakes, RunRejects, RunRefuses};
ghost use Rattle.wf_labeller.specs.Keeping.{HasMore};
ghost use Rattle.wf_labeller.specs.Taking.{entries_behind, AddsEntries, AddsEntriesOfTaken, AreBounded, AreEntriesBounded, IsNumberOf};

use crate::edges::keep_edges;
use crate::entry::Records;
use crate::keeper::Keeper;
use crate::ports::keep_root;
use crate::room::have_room;
use bit_pack::BitWriter;
use std::alloc::{AllocError, Global};
use std::marker::Model;
use wf_run::{NodeNo, Run};
use wf_spec::{Event, Name, ProdNo, RunFault};

/// A run, and what labels the items that its events make. A caller sees it as the run. The bits of a label are written where those of the label before were, so that an item takes no memory of its own.
#[derive(Drop)]
pub struct Labeller<'a> {
    alloc: Global,
    run: Run<'a>,
    bits: BitWriter,
}

impl<'a> Model for Labeller<'a> {
    ghost use Rattle.wf_run.specs.Runs.{RunSeen};

    ghost Value = { RunSeen };

    ghost view = { λ l. l.run };
}

impl<'a> Labeller<'a> {
    /// Goes on with a run. Takes no memory.
    pub fn new(alloc: Global, run: Run<'a>) -> Labeller<'a>
        ensures { result ≡ run.entry }
    {
        Labeller {
            alloc,
            run,
            bits: BitWriter::new(alloc),
        }
    }

    /// The run.
    pub fn run(&self) -> &Run<'a>
        ensures { result.now ≡ self.now }
    {
        &self.run
    }

    /// Takes an event, if it extends the run, and gives the entries of the items that it makes: those of the root's inputs and then of its outputs for a start event, those of the edges of the production for an expand event. After an error the run and the entries are as they were.
    ///
    /// Errors: as `Run::start` and `Run::expand`, in their order; `NoMemory` may come at any time.
    ///
    /// Cost: that of the event in the run, and linear in the bytes of the entries. No address is walked.
    pub fn take(&mut self, event: &Event, into: &mut Records) -> Result<(), RunFault>
        ensures taken { OnOk result (IsRunAfter self.old event.now self.new) }
        ensures entries { OnOk result ((events : List Event) → IsRunOf self.old events → into.new ≡ entries_behind self.old.grammar.core events event.now) }
        ensures bound { OnOk result (AreEntriesBounded self.old self.new event.now into.new) }
        ensures extends { OnOk result (RunTakes self.old event.now) }
        ensures goes_on { OnOk result (GoesOn self.old self.new) }
        ensures refused { IfErr result (RunRefuses self.old event.now) }
        ensures run { OnErr result (self.new ≡ self.old) }
        ensures into { OnErr result (into.new ≡ into.old) }
    {
        // The bound holds since the grammar is well-formed and strictly linear.
        let _formed = self.run.grammar().start();
        let mut made = Records::new(self.alloc);
        let found = look_up(&self.run, event);
        self.label(found, event, &mut made)?;
        *into = made;
        Ok(())
    }

    /// Takes an event as `take` does, and appends the bytes of the entries of the items that it makes, as they stand in a label file. The instance that it expands was looked up before. After an error the run and the bytes are as they were.
    ///
    /// Errors: as `take`.
    ///
    /// Cost: that of the event in the run, and linear in the bytes of the entries. Memory is taken for the run and for the bytes alone.
    pub fn write(
        &mut self,
        found: Option<NodeNo>,
        event: &Event,
        into: &mut Vec<u8>,
    ) -> Result<(), RunFault>
        requires found { IsFoundFor self.old event.now found }
        ensures taken { OnOk result (IsRunAfter self.old event.now self.new) }
        ensures entries { OnOk result (AddsEntries entry_bytes into.old.items into.new.items self.old event.now) }
        ensures bound { OnOk result (AreBounded self.old self.new event.now) }
        ensures extends { OnOk result (RunTakes self.old event.now) }
        ensures goes_on { OnOk result (GoesOn self.old self.new) }
        ensures refused { IfErr result (RunRefuses self.old event.now) }
        ensures run { OnErr result (self.new ≡ self.old) }
        ensures into { OnErr result (into.new.items ≡ into.old.items) }
    {
        // The bound holds since the grammar is well-formed and strictly linear.
        let _formed = self.run.grammar().start();
        let before = into.len();
        match self.label(found, event, into) {
            Ok(()) => Ok(()),
            Err(fault) => {
                into.truncate(before);
                Err(fault)
            }
        }
    }

    /// Takes an event whose instance was looked up, and keeps the entries of the items that it makes. After an error some of them may be kept.
    fn label<K: Keeper>(
        &mut self,
        found: Option<NodeNo>,
        event: &Event,
        to: &mut K,
    ) -> Result<(), RunFault>
        requires found { IsFoundFor self.old event.now found }
        ensures taken { OnOk result (IsRunAfter self.old event.now self.new) }
        ensures entries { OnOk result (AddsEntries K.parts_of (K.kept to.old) (K.kept to.new) self.old event.now) }
        ensures more { HasMore (K.kept to.old) (K.kept to.new) }
        ensures extends { OnOk result (RunTakes self.old event.now) }
        ensures goes_on { OnOk result (GoesOn self.old self.new) }
        ensures refused { IfErr result (RunRefuses self.old event.now) }
        ensures run { OnErr result (self.new ≡ self.old) }
    {
        match event {
            Event::Start { name } => start(&mut self.run, &mut self.bits, name.bytes(), to),
            Event::Expand {
                instance,
                production,
                names,
            } => expand(
                &mut self.run,
                &mut self.bits,
                found,
                instance.bytes(),
                *production,
                names.items(),
                to,
            ),
        }
    }
}

/// The number of the instance that an event expands, by one look-up; None where there is none.
pub(crate) fn look_up(run: &Run<'_>, event: &Event) -> Option<NodeNo>
    ensures { IsFoundFor run.now event.now result }
{
    match event {
        Event::Start { .. } => None,
        Event::Expand { instance, .. } => run.find(instance.bytes()),
    }
}

/// Starts a run, and keeps the entries of the ports of its root. After an error some of them may be kept.
fn start<K: Keeper>(
    run: &mut Run<'_>,
    bits: &mut BitWriter,
    name: &[u8],
    to: &mut K,
) -> Result<(), RunFault>
    ensures taken { OnOk result (IsRunAfter run.old (Start name.now) run.new) }
    ensures entries { OnOk result (AddsEntries K.parts_of (K.kept to.old) (K.kept to.new) run.old (Start name.now)) }
    ensures more { HasMore (K.kept to.old) (K.kept to.new) }
    ensures extends { OnOk result (RunTakes run.old (Start name.now)) }
    ensures goes_on { OnOk result (GoesOn run.old run.new) }
    ensures refused { IfErr result (RunRefuses run.old (Start name.now)) }
    ensures unchanged { OnErr result (run.new ≡ run.old) }
{
    keep_root(run.grammar(), bits, name, to)?;
    run.start(name)?;
    Ok(())
}

/// Expands an instance that was looked up, and keeps the entries of the edges of the production. After an error some of them may be kept.
fn expand<K: Keeper>(
    run: &mut Run<'_>,
    bits: &mut BitWriter,
    found: Option<NodeNo>,
    instance: &[u8],
    production: u64,
    names: &[Name],
    to: &mut K,
) -> Result<(), RunFault>
    requires found { IsFoundAs run.old instance.now found }
    ensures taken { OnOk result (IsRunAfter run.old (Expand instance.now production names.now) run.new) }
    ensures entries { OnOk result (AddsEntries K.parts_of (K.kept to.old) (K.kept to.new) run.old (Expand instance.now production names.now)) }
    ensures more { HasMore (K.kept to.old) (K.kept to.new) }
    ensures extends { OnOk result (RunTakes run.old (Expand instance.now production names.now)) }
    ensures goes_on { OnOk result (GoesOn run.old run.new) }
    ensures refused { IfErr result (RunRefuses run.old (Expand instance.now production names.now)) }
    ensures unchanged { OnErr result (run.new ≡ run.old) }
{
    keep_inner(run, bits, found, instance, production, names, to)?;
    run.expand_found(found, instance, production, names)?;
    Ok(())
}

/// Keeps the entries of the items that an expand event makes, if the run takes it. If the run refuses it, there may be none. After an error some of them may be kept.
fn keep_inner<K: Keeper>(
    run: &Run<'_>,
    bits: &mut BitWriter,
    found: Option<NodeNo>,
    instance: &[u8],
    production: u64,
    names: &[Name],
    to: &mut K,
) -> Result<(), AllocError>
    requires found { IsFoundAs run.now instance.now found }
    ensures ok { OnOk result (AddsEntriesOfTaken K.parts_of (K.kept to.old) (K.kept to.new) run.now (Expand instance.now production names.now)) }
    ensures more { HasMore (K.kept to.old) (K.kept to.new) }
{
    let Some((n, number)) = place(run, found, instance, production, names) else {
        return Ok(());
    };
    let g = run.grammar();
    // A grammar is well-formed: what the run keeps of an instance is the prefix of its labels.
    let _formed = g.start();
    keep_edges(g, number, names, run.prefix(n), bits, to)?;
    Ok(())
}

/// The numbers of an instance that was looked up and of a production by which it may be expanded into these names, each of which has at most 64 bytes. None tells that the run refuses the event.
pub(crate) fn place(
    run: &Run<'_>,
    found: Option<NodeNo>,
    instance: &[u8],
    production: u64,
    names: &[Name],
) -> Option<(NodeNo, ProdNo)>
    requires found { IsFoundAs run.now instance.now found }
    ensures place { IfSome result (λ t. (events : List Event) → IsRunOf run.now events → position (bytes_eq instance.now) run.now.names ≡ Some t.0.0) }
    ensures there { IfSome result (λ t. t.0.0 < length run.now.nodes) }
    ensures production { IfSome result (λ t. IsNumberOf run.now.grammar.core production names.now t.1.0) }
    ensures short { IfSome result (λ _. (n : List ℕ) → IsIn n names.now → length n ≤ 64) }
    ensures none { IsNone result → RunRejects run.now (Expand instance.now production names.now) }
{
    let Some(n) = found else {
        return None;
    };
    if run.instances() <= n.0 {
        return None;
    }
    let g = run.grammar();
    if g.productions().len() as u64 <= production {
        return None;
    }
    let number = ProdNo(production as u16);
    let rule = g.production(number);
    if run.module(n) != rule.head() {
        return None;
    }
    if run.children(n).is_some() {
        return None;
    }
    if names.len() != rule.positions().len() {
        return None;
    }
    if !have_room(names) {
        return None;
    }
    Some((n, number))
}

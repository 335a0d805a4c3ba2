// Runs.
ghost use Rattle.std.specs.Prelude.{◌≡◌, ◌<◌, ◌≤◌, ◌^◌, ◌+◌, [], true, false, List, Option, Some, None, length, option_map, position, bytes_eq, is_some, IfOk, IfErr, IfSome, IfNone, OnOk, OnErr};
ghost use Rattle.wf_model.specs.declared.event.Event.{Event};
ghost use Rattle.wf_model.specs.declared.event.Event.TheVariants.{Start, Expand};
ghost use Rattle.wf_model.specs.declared.event.RunFault.TheVariants.{NoMemory};
ghost use Rattle.wf_model.specs.Faults.{fault_of, some_twice};
ghost use Rattle.wf_model.specs.Linear.{IsLinear};
ghost use Rattle.wf_model.specs.Lists.{numbers_from};
ghost use Rattle.wf_model.specs.WellFormed.{IsWellFormed};
ghost use Rattle.bit_pack.specs.Bits.{packed};
ghost use Rattle.run_faults.specs.Standing.{Fits};
ghost use Rattle.run_faults.specs.NewNames.{twice_fault, AreNamesRefused};
ghost use Rattle.wf_run.specs.Runs.{RunSeen, node_at, name_at, IsRunOf, GoesOn};
ghost use Rattle.wf_run.specs.Found.{IsFoundAs};
ghost use Rattle.wf_run.specs.Taking.{IsRunAfter, RunTakes, RunRefuses};
ghost use Rattle.wf_run.specs.Opening.{opened_run};
ghost use Rattle.wf_run.specs.Growing.{IsExpandFault, IsFaultAt, CanOpen, FindsInstance};

use crate::grow::{Expansion, grow};
use crate::node::{Children, Node, NodeNo};
use crate::prefix::PrefixRef;
use crate::root::root;
use bumpalo::Bump;
use run_faults::{Found, fault_before_names, fault_without_room, plant, start_fault};
use std::alloc::Global;
use std::marker::Model;
use wf_names::{NameKey, Names};
use wf_recur::Linear;
use wf_spec::{Grammar, ModNo, Name, ProdNo, RunFault};

/// A run of a strictly linear grammar. Its instances are numbered from 0 in order of making. Names and prefixes lie in an arena, and are placed there once and never written again.
#[derive(Drop)]
pub struct Run<'a> {
    alloc: Global,
    arena: &'a Bump,
    linear: Linear<'a>,
    most: u32,
    expands: u32,
    names: Names<NameKey<'a>>,
    nodes: Vec<Node<'a>>,
}

impl<'a> Model for Run<'a> {
    ghost use Rattle.wf_run.specs.Runs.{RunSeen};
    ghost use Rattle.wf_run.specs.Nodes.{run_of, IsRunKept};

    ghost Value = { RunSeen };

    ghost view = { λ r. run_of r.linear.grammar.now r.most r.names r.nodes.items r.expands };

    ghost invariant = { λ r. IsRunKept (run_of r.linear.grammar.now r.most r.names r.nodes.items r.expands) r.nodes.items };
}

impl<'a> Run<'a> {
    /// A run before its start, of at most `most` instances, as `with_key` with the key 0. Takes no memory.
    pub fn new(alloc: Global, arena: &'a Bump, linear: Linear<'a>, most: u32) -> Run<'a>
        requires most { most ≤ 2 ^ 24 }
        ensures run { IsRunOf result [] }
        ensures grammar { result.grammar ≡ linear.entry.grammar.now }
        ensures most { result.most ≡ most }
    {
        Run::with_key(alloc, 0, arena, linear, most)
    }

    /// A run before its start, of at most `most` instances, whose names are hashed with this key. Takes no memory.
    pub fn with_key(
        alloc: Global,
        key: u64,
        arena: &'a Bump,
        linear: Linear<'a>,
        most: u32,
    ) -> Run<'a>
        requires most { most ≤ 2 ^ 24 }
        ensures run { IsRunOf result [] }
        ensures grammar { result.grammar ≡ linear.entry.grammar.now }
        ensures most { result.most ≡ most }
    {
        Run {
            alloc,
            arena,
            linear,
            most,
            expands: 0,
            names: Names::with_room(alloc, key, arena),
            nodes: Vec::new(alloc),
        }
    }

    /// The grammar that the run was given at its making.
    pub fn grammar(&self) -> &'a Grammar
        ensures grammar { result.now ≡ self.now.grammar }
        ensures linear { IsLinear self.now.grammar.core }
        ensures most { self.now.most ≤ 2 ^ 24 }
    {
        self.linear.grammar
    }

    /// How many instances there are.
    pub fn instances(&self) -> u32
        ensures { result ≡ length self.now.nodes }
    {
        self.nodes.len() as u32
    }

    /// How many expand events there were.
    pub fn expands(&self) -> u32
        ensures { result ≡ self.now.expands }
    {
        self.expands
    }

    /// The module of an instance.
    pub fn module(&self, n: NodeNo) -> ModNo
        requires { n.0 < length self.now.nodes }
        ensures { result.0 ≡ (node_at self.now n.0).module_no }
    {
        self.nodes[n.0 as usize].module
    }

    /// The children of an instance, in order of the positions; None before it is expanded.
    pub fn children(&self, n: NodeNo) -> Option<Children>
        requires { n.0 < length self.now.nodes }
        ensures { option_map (λ ks. numbers_from ks.first ks.count) result ≡ (node_at self.now n.0).children }
    {
        let node = self.nodes[n.0 as usize];
        if node.first_child == 0 {
            return None;
        }
        Some(Children {
            first: node.first_child,
            count: node.children,
        })
    }

    /// The prefix of the labels that an instance may come to make: fewer than 2^17 bits. It is placed once and never written again.
    pub fn prefix(&self, n: NodeNo) -> PrefixRef<'a>
        requires { n.0 < length self.now.nodes }
        ensures bytes { result.bytes.now ≡ packed (node_at self.now n.0).bits }
        ensures length { result.length ≡ length (node_at self.now n.0).bits }
        ensures chain { result.chain ≡ (node_at self.now n.0).chain }
        ensures few { length (node_at self.now n.0).bits < 2 ^ 17 }
    {
        let node = self.nodes[n.0 as usize];
        PrefixRef {
            bytes: node.bytes,
            length: node.length,
            chain: node.chain.number(),
        }
    }

    /// The number of the instance of a name, by one look-up.
    pub fn find(&self, name: &[u8]) -> Option<NodeNo>
        ensures place { option_map (λ n. n.0) result ≡ position (bytes_eq name.now) self.now.names }
        ensures within { IfSome result (λ n. n.0 < length self.now.nodes) }
    {
        let _all = self.nodes.len();
        let i = self.names.find(name)?;
        Some(NodeNo(i as u32))
    }

    /// The name of an instance.
    pub fn name(&self, n: NodeNo) -> &'a [u8]
        requires { n.0 < length self.now.nodes }
        ensures { result.now ≡ name_at self.now n.0 }
    {
        self.names.name_at(n.0 as usize).bytes
    }

    /// Starts the run by an instance of the start module, and gives its number, which is 0. After an error the run is as it was.
    ///
    /// Errors, in order of trial: `StartedTwice`, `NameBad` (a name has 1 to 64 letters, digits, `_` or `-`), `TooManyInstances`; `NoMemory` last.
    pub fn start(&mut self, name: &[u8]) -> Result<NodeNo, RunFault>
        ensures taken { OnOk result (IsRunAfter self.old (Start name.now) self.new) }
        ensures extends { OnOk result (RunTakes self.old (Start name.now)) }
        ensures root { IfOk result (λ n. n.0 ≡ 0) }
        ensures goes_on { OnOk result (GoesOn self.old self.new) }
        ensures refused { IfErr result (RunRefuses self.old (Start name.now)) }
        ensures unchanged { OnErr result (self.new ≡ self.old) }
    {
        if let Some(fault) = self.fault_of_start(name) {
            return Err(fault);
        }
        let root = root(self.linear);
        plant(&mut self.names, &mut self.nodes, root, name)?;
        Ok(NodeNo(0))
    }

    /// Why the run refuses to start by an instance of a name.
    fn fault_of_start(&self, name: &[u8]) -> Option<RunFault>
        ensures { (events : List Event) → IsRunOf self.now events → result ≡ fault_of self.now.grammar.core self.now.most events (Start name.now) }
    {
        start_fault(!self.nodes.is_empty(), self.most, name)
    }

    /// What the faults of an event depend on, of an instance that was looked up.
    fn found(&self, n: Option<NodeNo>) -> Option<Found>
        requires { IfSome n (λ n. n.0 < length self.now.nodes) }
        ensures found { FindsInstance self.now n result }
        ensures there { is_some result ≡ is_some n }
    {
        let Some(n) = n else {
            return None;
        };
        Some(Found {
            module: self.module(n),
            expanded: self.children(n).is_some(),
        })
    }

    /// Why the run refuses to expand an instance that was looked up; None where no more than a name that is taken can stand against it.
    fn fault_of_expand(
        &self,
        n: Option<NodeNo>,
        production: u64,
        names: &[Name],
    ) -> Option<RunFault>
        requires { IfSome n (λ n. n.0 < length self.now.nodes) }
        ensures fault { IfSome result (λ f. IsFaultAt self.now n production names.now (Some f)) }
        ensures left { IfNone result (IsFaultAt self.now n production names.now (twice_fault self.now.names names.now)) }
        ensures there { IfNone result (is_some n ≡ true) }
        ensures fits { IfNone result (Fits self.now.grammar.core production names.now) }
        ensures room { IfNone result (length self.now.nodes + length names.now ≤ self.now.most) }
    {
        let found = self.found(n);
        let count = self.nodes.len();
        if let Some(fault) = fault_before_names(
            self.linear.grammar,
            count,
            found,
            production,
            names,
        ) {
            return Some(fault);
        }
        fault_without_room(self.most, &self.names, names)
    }

    /// The numbers of an event that extends the run if none of its names is taken, or why it does not extend it. Its instance was looked up.
    fn expansion<'n>(
        &self,
        found: Option<NodeNo>,
        instance: &[u8],
        production: u64,
        names: &'n [Name],
    ) -> Result<Expansion<'n>, RunFault>
        requires found { IsFoundAs self.now instance.now found }
        ensures refused { IfErr result (λ f. IsExpandFault self.now instance.now production names.now (Some f)) }
        ensures left { OnOk result (IsExpandFault self.now instance.now production names.now (twice_fault self.now.names names.now)) }
        ensures instance { IfOk result (λ e. position (bytes_eq instance.now) self.now.names ≡ Some e.instance.0) }
        ensures production { IfOk result (λ e. e.production.0 ≡ production) }
        ensures names { IfOk result (λ e. e.names.now ≡ names.now) }
        ensures opens { IfOk result (λ e. CanOpen self.now e.instance.0 e.production.0 e.names.now) }
    {
        // A grammar is well-formed: the number of a production has 16 bits.
        let _formed = self.linear.grammar.start();
        if let Some(fault) = self.fault_of_expand(found, production, names) {
            return Err(fault);
        }
        let Some(k) = found else {
            unreachable!();
        };
        Ok(Expansion {
            instance: k,
            production: ProdNo(production as u16),
            names,
        })
    }

    /// Takes an expansion that extends the run if none of its names is taken. After an error the run is as it was.
    ///
    /// Errors: `NameTwice` where one is taken, or stands twice among them; `NoMemory`.
    fn open(&mut self, e: Expansion) -> Result<(), RunFault>
        requires { CanOpen self.old e.instance.0 e.production.0 e.names.now }
        ensures opened { OnOk result (self.new ≡ opened_run self.old e.entry.instance.0 e.entry.production.0 e.entry.names.now) }
        ensures fresh { OnOk result (some_twice self.old.names e.entry.names.now ≡ false) }
        ensures formed { IsWellFormed self.old.grammar.core }
        ensures refused { IfErr result (AreNamesRefused self.old.names e.entry.names.now) }
        ensures unchanged { OnErr result (self.new ≡ self.old) }
    {
        let _formed = self.linear.grammar.start();
        if let Err(fault) = grow(
            self.alloc,
            self.arena,
            self.linear,
            &mut self.names,
            &mut self.nodes,
            e,
        ) {
            return Err(fault);
        }
        self.expands += 1;
        Ok(())
    }

    /// Expands an instance by the production of a number, with a name for each position, and gives the number of the first child. After an error the run is as it was.
    ///
    /// Errors, in order of trial: `NotStarted`, `UnknownInstance`, `UnknownProduction`, `WrongHead` (the production is not one of the instance's module), `AlreadyExpanded`, `PositionsWrong` (not one name for each position), `NameBad`, `NameTwice` (a name that the run or the event has already), `TooManyInstances`; `NoMemory` last, or in place of `NameTwice`.
    ///
    /// Cost: that of `expand_found`, and one look-up for the instance.
    pub fn expand(
        &mut self,
        instance: &[u8],
        production: u64,
        names: &[Name],
    ) -> Result<NodeNo, RunFault>
        ensures taken { OnOk result (IsRunAfter self.old (Expand instance.now production names.now) self.new) }
        ensures extends { OnOk result (RunTakes self.old (Expand instance.now production names.now)) }
        ensures first { IfOk result (λ n. n.0 ≡ length self.old.nodes) }
        ensures goes_on { OnOk result (GoesOn self.old self.new) }
        ensures refused { IfErr result (RunRefuses self.old (Expand instance.now production names.now)) }
        ensures unchanged { OnErr result (self.new ≡ self.old) }
    {
        let found = self.find(instance);
        self.expand_found(found, instance, production, names)
    }

    /// Expands an instance as `expand` does, where its name was looked up before. Of the name the contract alone speaks.
    ///
    /// Cost: one look-up for each name of the event, which is hashed once; where the run has no room for so many instances, each name is also compared with the names before it in the event, at most 63. The prefix of a child is that of its parent, or the parent's with the bits of one step more, however long the run is.
    pub fn expand_found(
        &mut self,
        found: Option<NodeNo>,
        instance: &[u8],
        production: u64,
        names: &[Name],
    ) -> Result<NodeNo, RunFault>
        requires found { IsFoundAs self.old instance.now found }
        ensures taken { OnOk result (IsRunAfter self.old (Expand instance.now production names.now) self.new) }
        ensures extends { OnOk result (RunTakes self.old (Expand instance.now production names.now)) }
        ensures first { IfOk result (λ n. n.0 ≡ length self.old.nodes) }
        ensures goes_on { OnOk result (GoesOn self.old self.new) }
        ensures refused { IfErr result (RunRefuses self.old (Expand instance.now production names.now)) }
        ensures unchanged { OnErr result (self.new ≡ self.old) }
    {
        let e = self.expansion(found, instance, production, names)?;
        let first = self.instances();
        if let Err(fault) = self.open(e) {
            return Err(fault);
        }
        Ok(NodeNo(first))
    }
}

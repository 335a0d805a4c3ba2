// A run as a table of numbered instances.
ghost use Rattle.std.specs.Prelude.{◌≡◌, ◌<◌, ◌≤◌, ◌+◌, ◌^◌, ◌++◌, ◌∷◌, [], Option, Some, None, true, false, length, take, position, is_some, IfOk, IfErr, OnOk, OnErr, IfSome, IfNone, bytes_eq};
ghost use Rattle.wf_model.specs.declared.event.Event.TheVariants.{Start, Expand};
ghost use Rattle.wf_model.specs.declared.event.RunFault.TheVariants.{NoMemory};
ghost use Rattle.wf_model.specs.Grammar.{Grammar as GrammarSeen};
ghost use Rattle.wf_model.specs.Faults.{some_twice, fault_of};
ghost use Rattle.run_faults.specs.Standing.{IsFound};
ghost use Rattle.run_faults.specs.NewNames.{AreNamesRefused};
ghost use Rattle.wf_flat.specs.Table.{Table, IsTableOf, IsFoundFor, events_of, names_in, children, with_children, started_table, opened_table, TableRefuses, TableTakes};
ghost use Rattle.wf_flat.specs.Opening.{CanOpen};

use run_faults::{Found, fault_before_names, fault_without_room, plant, start_fault, take_names};
use std::alloc::{AllocError, Global};
use std::marker::Model;
use wf_names::Names;
use wf_spec::{Event, Grammar, ModNo, Name, Position, ProdNo, RunFault};

/// An instance of a run. The root alone has no parent. The children of an instance that is expanded stand one after the other, from `first_child` on, in order of the positions; before that `first_child` is 0.
#[derive(Drop)]
pub struct Inst {
    pub name: Name,
    pub module: ModNo,
    pub parent: Option<u32>,
    pub production: Option<ProdNo>,
    pub first_child: u32,
}

/// An expansion: the number of the instance, the production, and the numbers of the children, `count` of them from `first` on.
#[derive(Clone, Copy, Drop)]
pub struct Opened {
    pub instance: u32,
    pub production: ProdNo,
    pub first: u32,
    pub count: u32,
}

/// A run, as a table of instances, numbered from 0 in order of making, and of the expansions that made them. Names are found by hashing.
#[derive(Drop)]
pub struct PlainRun {
    alloc: Global,
    most: u32,
    names: Names,
    instances: Vec<Inst>,
    order: Vec<Opened>,
}

impl Model for PlainRun {
    ghost use Rattle.wf_flat.specs.Table.{Table, IsTableKept};

    ghost Value = { Table };

    ghost view = { λ r. record { most = r.most; instances = r.instances.items; order = r.order.items } };

    ghost invariant = { λ r. IsTableKept r.most r.names r.instances.items r.order.items };
}

/// Appends the instances that an expansion makes. After an error some of them may be there.
fn append_children(
    alloc: Global,
    instances: &mut Vec<Inst>,
    parent: u32,
    names: &[Name],
    body: &[Position],
) -> Result<(), AllocError>
    requires { length names.now ≡ length body.now }
    ensures added { OnOk result (instances.new.items ≡ instances.old.items ++ children parent names.now body.now) }
    ensures begins { OnErr result (take (length instances.old.items) instances.new.items ≡ instances.old.items) }
{
    for k in 0..names.len() {
        let name = Name::copied(alloc, names[k].bytes())?;
        let module = body[k].module;
        instances.push(Inst {
            name,
            module,
            parent: Some(parent),
            production: None,
            first_child: 0,
        })?;
    }
    Ok(())
}

/// Adds an expansion and its children, or leaves all as it was.
///
/// Errors: `NameTwice` where a name is taken already, or stands twice among them; `NoMemory`.
fn grow(
    alloc: Global,
    taken: &mut Names,
    instances: &mut Vec<Inst>,
    order: &mut Vec<Opened>,
    opened: Opened,
    names: &[Name],
    body: &[Position],
) -> Result<(), RunFault>
    requires there { opened.instance < length instances.old.items }
    requires one_each { length names.now ≡ length body.now }
    requires same_names { taken.old ≡ names_in instances.old.items }
    ensures fresh { OnOk result (some_twice taken.old names.now ≡ false) }
    ensures names { OnOk result (taken.new ≡ taken.old ++ names.now) }
    ensures instances { OnOk result (instances.new.items ≡ with_children instances.old.items opened names.now body.now) }
    ensures order { OnOk result (order.new.items ≡ order.old.items ++ opened ∷ []) }
    ensures refused { IfErr result (AreNamesRefused taken.old names.now) }
    ensures same_taken { OnErr result (taken.new ≡ taken.old) }
    ensures same_instances { OnErr result (instances.new.items ≡ instances.old.items) }
    ensures same_order { OnErr result (order.new.items ≡ order.old.items) }
{
    let before = instances.len();
    if let Err(_) = append_children(alloc, instances, opened.instance, names, body) {
        instances.truncate(before);
        return Err(RunFault::NoMemory);
    }
    if let Err(fault) = take_names(taken, names) {
        instances.truncate(before);
        return Err(fault);
    }
    if order.push(opened).is_err() {
        instances.truncate(before);
        taken.cut(before);
        return Err(RunFault::NoMemory);
    }
    let x = &mut instances[opened.instance as usize];
    x.production = Some(opened.production);
    x.first_child = opened.first;
    Ok(())
}

impl PlainRun {
    ghost use Rattle.wf_flat.specs.Table.{IsOpenedIn};
    ghost use Rattle.wf_model.specs.Lists.{IsIn};
    ghost use Rattle.wf_flat.specs.declared.table.Opened.{Opened};

    /// A run before its start, of at most `most` instances, as `with_key` with the key 0. Takes no memory.
    pub fn new(alloc: Global, most: u32) -> PlainRun
        ensures { result ≡ record { most = most; instances = []; order = [] } }
    {
        PlainRun::with_key(alloc, 0, most)
    }

    /// A run before its start, of at most `most` instances, whose names are hashed with this key. Takes no memory.
    pub fn with_key(alloc: Global, key: u64, most: u32) -> PlainRun
        ensures { result ≡ record { most = most; instances = []; order = [] } }
    {
        PlainRun {
            alloc,
            most,
            names: Names::with_key(alloc, key),
            instances: Vec::new(alloc),
            order: Vec::new(alloc),
        }
    }

    /// The instances, in order of making.
    pub fn instances(&self) -> &[Inst]
        ensures instances { result.now ≡ self.now.instances }
        ensures few { length result.now ≤ self.now.most }
        ensures small { length result.now < 2 ^ 32 }
        ensures opened { (o : Opened) → IsIn o self.now.order → IsOpenedIn (length self.now.instances) o }
    {
        let _most = self.most;
        &self.instances
    }

    /// The expansions, in their order.
    pub fn order(&self) -> &[Opened]
        ensures { result.now ≡ self.now.order }
    {
        &self.order
    }

    /// The number of the instance of a name, by one look-up.
    pub fn find(&self, name: &[u8]) -> Option<u32>
        ensures place { result ≡ position (bytes_eq name.now) (names_in self.now.instances) }
        ensures within { IfSome result (λ i. i < length self.now.instances) }
    {
        let most = self.most;
        let _all = self.instances.len();
        let i = self.names.find(name)?;
        prove!(i < most as usize);
        Some(i as u32)
    }

    /// The number of the instance of a name, which may be `near`: where it is another, one look-up tells it.
    pub fn find_near(&self, near: u32, name: &[u8]) -> Option<u32>
        ensures place { result ≡ position (bytes_eq name.now) (names_in self.now.instances) }
        ensures within { IfSome result (λ i. i < length self.now.instances) }
    {
        let most = self.most;
        let _all = self.instances.len();
        let i = self.names.find_near(near as usize, name)?;
        prove!(i < most as usize);
        Some(i as u32)
    }

    /// Takes an event, if it extends the run of the grammar. After an error the run is as it was.
    ///
    /// Errors of a start, in order of trial: `StartedTwice`, `NameBad` (a name has 1 to 64 letters, digits, `_` or `-`), `TooManyInstances`. Of an expansion: `NotStarted`, `UnknownInstance`, `UnknownProduction`, `WrongHead` (the production is not one of the instance's module), `AlreadyExpanded`, `PositionsWrong` (not one name for each position), `NameBad`, `NameTwice` (a name that the run or the event has already), `TooManyInstances`. `NoMemory` last, or in place of `NameTwice`.
    ///
    /// Cost: that of `take_found`, and one look-up for the instance.
    pub fn take(&mut self, g: &Grammar, e: &Event) -> Result<(), RunFault>
        requires { IsTableOf g.now.core self.old }
        ensures taken { OnOk result (events_of self.new ≡ events_of self.old ++ e.now ∷ []) }
        ensures extends { OnOk result (TableTakes g.now.core self.old e.now) }
        ensures refused { IfErr result (TableRefuses g.now.core self.old e.now) }
        ensures unchanged { OnErr result (self.new ≡ self.old) }
        ensures run { IsTableOf g.now.core self.new }
        ensures most { self.new.most ≡ self.old.most }
    {
        let found = self.look_up(e);
        self.take_found(g, found, e)
    }

    /// The number of the instance that an event expands; None where there is none.
    fn look_up(&self, e: &Event) -> Option<u32>
        ensures { IsFoundFor self.now e.now result }
    {
        match e {
            Event::Start { .. } => None,
            Event::Expand { instance, .. } => self.find(instance.bytes()),
        }
    }

    /// Takes an event as `take` does, where the instance that it expands was looked up before.
    ///
    /// Cost: one look-up for each name of the event, which is hashed once; where the run has no room for so many instances, each name is also compared with the names before it in the event, at most 63.
    pub fn take_found(&mut self, g: &Grammar, found: Option<u32>, e: &Event) -> Result<(), RunFault>
        requires run { IsTableOf g.now.core self.old }
        requires found { IsFoundFor self.old e.now found }
        ensures taken { OnOk result (events_of self.new ≡ events_of self.old ++ e.now ∷ []) }
        ensures extends { OnOk result (TableTakes g.now.core self.old e.now) }
        ensures refused { IfErr result (TableRefuses g.now.core self.old e.now) }
        ensures unchanged { OnErr result (self.new ≡ self.old) }
        ensures run { IsTableOf g.now.core self.new }
        ensures most { self.new.most ≡ self.old.most }
    {
        match e {
            Event::Start { name } => self.take_start(g, name.bytes()),
            Event::Expand {
                instance,
                production,
                names,
            } => self.take_expand(g, found, instance.bytes(), *production, names.items()),
        }
    }

    fn take_start(&mut self, g: &Grammar, name: &[u8]) -> Result<(), RunFault>
        requires { IsTableOf g.now.core self.old }
        ensures taken { OnOk result (events_of self.new ≡ events_of self.old ++ Start name.now ∷ []) }
        ensures extends { OnOk result (TableTakes g.now.core self.old (Start name.now)) }
        ensures refused { IfErr result (TableRefuses g.now.core self.old (Start name.now)) }
        ensures unchanged { OnErr result (self.new ≡ self.old) }
        ensures run { IsTableOf g.now.core self.new }
        ensures most { self.new.most ≡ self.old.most }
    {
        if let Some(fault) = self.start_fault(g, name) {
            return Err(fault);
        }
        self.start(g.start(), name)?;
        Ok(())
    }

    fn start_fault(&self, g: &Grammar, name: &[u8]) -> Option<RunFault>
        requires { IsTableOf g.now.core self.now }
        ensures { result ≡ fault_of g.now.core self.now.most (events_of self.now) (Start name.now) }
    {
        start_fault(!self.instances.is_empty(), self.most, name)
    }

    fn take_expand(
        &mut self,
        g: &Grammar,
        found: Option<u32>,
        instance: &[u8],
        production: u64,
        names: &[Name],
    ) -> Result<(), RunFault>
        requires run { IsTableOf g.now.core self.old }
        requires found { found ≡ position (bytes_eq instance.now) (names_in self.old.instances) }
        ensures taken { OnOk result (events_of self.new ≡ events_of self.old ++ Expand instance.now production names.now ∷ []) }
        ensures extends { OnOk result (TableTakes g.now.core self.old (Expand instance.now production names.now)) }
        ensures refused { IfErr result (TableRefuses g.now.core self.old (Expand instance.now production names.now)) }
        ensures unchanged { OnErr result (self.new ≡ self.old) }
        ensures run { IsTableOf g.now.core self.new }
        ensures most { self.new.most ≡ self.old.most }
    {
        let _all = self.instances.len();
        let k = self.place(g, found, instance, production, names)?;
        // A grammar is well-formed: the number of a production has 16 bits.
        let _formed = g.start();
        let number = ProdNo(production as u16);
        let body = g.production(number).positions();
        if let Err(fault) = self.expand(k, number, names, body) {
            return Err(fault);
        }
        Ok(())
    }

    /// What the table tells of the instance of a name, which has this number.
    fn found(&self, name: &[u8], number: Option<u32>) -> Option<Found>
        requires { number ≡ position (bytes_eq name.now) (names_in self.now.instances) }
        ensures found { (g : GrammarSeen) → IsTableOf g self.now → IsFound g (events_of self.now) name.now result }
        ensures there { is_some result ≡ is_some number }
    {
        let Some(k) = number else {
            return None;
        };
        let x = &self.instances[k as usize];
        Some(Found {
            module: x.module,
            expanded: x.production.is_some(),
        })
    }

    /// Why the run refuses to expand the instance of a name, which has this number; None where no more than a name that is taken can stand against it.
    fn expand_fault(
        &self,
        g: &Grammar,
        name: &[u8],
        number: Option<u32>,
        production: u64,
        names: &[Name],
    ) -> Option<RunFault>
        requires run { IsTableOf g.now.core self.now }
        requires number { number ≡ position (bytes_eq name.now) (names_in self.now.instances) }
        ensures fault { IfSome result (λ f. fault_of g.now.core self.now.most (events_of self.now) (Expand name.now production names.now) ≡ Some f) }
        ensures opens { IfNone result (CanOpen g.now.core self.now name.now production names.now) }
        ensures there { IfNone result (is_some number ≡ true) }
    {
        let found = self.found(name, number);
        let count = self.instances.len();
        if let Some(fault) = fault_before_names(g, count, found, production, names) {
            return Some(fault);
        }
        fault_without_room(self.most, &self.names, names)
    }

    /// The number of the instance that an event may expand by the production of a number, if none of the names is taken. Its name was looked up.
    fn place(
        &self,
        g: &Grammar,
        found: Option<u32>,
        name: &[u8],
        production: u64,
        names: &[Name],
    ) -> Result<u32, RunFault>
        requires run { IsTableOf g.now.core self.now }
        requires found { found ≡ position (bytes_eq name.now) (names_in self.now.instances) }
        ensures refused { IfErr result (λ f. fault_of g.now.core self.now.most (events_of self.now) (Expand name.now production names.now) ≡ Some f) }
        ensures opens { OnOk result (CanOpen g.now.core self.now name.now production names.now) }
        ensures place { IfOk result (λ k. position (bytes_eq name.now) (names_in self.now.instances) ≡ Some k) }
    {
        if let Some(fault) = self.expand_fault(g, name, found, production, names) {
            return Err(fault);
        }
        let Some(k) = found else {
            unreachable!();
        };
        Ok(k)
    }

    /// Starts the run. The only error is that memory is refused.
    fn start(&mut self, module: ModNo, name: &[u8]) -> Result<(), RunFault>
        requires no_instances { self.old.instances ≡ [] }
        requires no_order { self.old.order ≡ [] }
        requires room { 0 < self.old.most }
        ensures started { OnOk result (self.new ≡ started_table self.old.most «module» name.now) }
        ensures refused { IfErr result (λ f. f ≡ NoMemory) }
        ensures unchanged { OnErr result (self.new ≡ self.old) }
    {
        let root = Inst {
            name: Name::copied(self.alloc, name)?,
            module,
            parent: None,
            production: None,
            first_child: 0,
        };
        plant(&mut self.names, &mut self.instances, root, name)?;
        Ok(())
    }

    /// Expands an instance, where there is room for the children. After an error the run is as it was.
    ///
    /// Errors: `NameTwice` where a name is taken already, or stands twice among them; `NoMemory`.
    fn expand(
        &mut self,
        k: u32,
        production: ProdNo,
        names: &[Name],
        body: &[Position],
    ) -> Result<(), RunFault>
        requires there { k < length self.old.instances }
        requires one_each { length names.now ≡ length body.now }
        requires room { length self.old.instances + length names.now ≤ self.old.most }
        ensures opened { OnOk result (self.new ≡ opened_table self.old k production names.now body.now) }
        ensures fresh { OnOk result (some_twice (names_in self.old.instances) names.now ≡ false) }
        ensures refused { IfErr result (AreNamesRefused (names_in self.old.instances) names.now) }
        ensures unchanged { OnErr result (self.new ≡ self.old) }
    {
        let most = self.most as usize;
        let before = self.instances.len();
        prove!(before + names.len() <= most);
        let opened = Opened {
            instance: k,
            production,
            first: before as u32,
            count: names.len() as u32,
        };
        grow(
            self.alloc,
            &mut self.names,
            &mut self.instances,
            &mut self.order,
            opened,
            names,
            body,
        )?;
        Ok(())
    }
}

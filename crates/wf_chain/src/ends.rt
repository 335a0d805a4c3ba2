// The innermost ports to which entries lead, and from which exits lead.
ghost use Rattle.std.specs.Prelude.{◌≡◌, ◌<◌, get_or, length, IfSome, Some};
ghost use Rattle.wf_model.specs.declared.numbers.Side.TheVariants.{Input, Output};
ghost use Rattle.wf_model.specs.Lists.{IsAt};
ghost use Rattle.wf_model.specs.Meaning.{inner_of};
ghost use Rattle.wf_flat.specs.Table.{no_instance};
ghost use Rattle.wf_chain.specs.ViewedRuns.{IsItemIn, IsVisibleIn};
ghost use Rattle.wf_chain.specs.Steps.{side_inners, IsSeenPort, IsOpenIn, LeadsInward, IsInnerEnd, IsEndOf, IsUnopened};
ghost use Rattle.wf_chain.specs.ItemGraphs.{IsConsumerOf, IsProducerOf};

use crate::viewed_run::ViewedRun;
use wf_flat::{Item, Port};
use wf_spec::{Inner, ProdNo, Production, Side};

/// The port of a position that the entry of an input leads to, or the exit of an output comes from.
fn inner_at(rule: &Production, port: Port) -> Inner
    requires { port.port.0 < length (side_inners port.side rule.now.core) }
    ensures { IsAt (inner_of result) port.port.0 (side_inners port.side rule.now.core) }
{
    let number = port.port.0 as usize;
    match port.side {
        Side::Input => rule.entries()[number],
        Side::Output => rule.exits()[number],
    }
}

impl<'r> ViewedRun<'r> {
    /// The port of a child that the entry of an input leads to, or the exit of an output comes from, where the instance is open and was expanded by this production.
    fn inner_port(&self, port: Port, production: ProdNo) -> Port
        requires port { IsSeenPort self.now port }
        requires opened { IsOpenIn self.now port.instance }
        requires by { (get_or self.now.run.instances port.instance no_instance).production ≡ Some production }
        ensures port { IsSeenPort self.now result }
        ensures side { result.side ≡ port.side }
        ensures inward { LeadsInward self.now port.side port result }
        ensures later { port.instance < result.instance }
    {
        let inner = inner_at(self.viewed.grammar().production(production), port);
        let first = self.run.instances()[port.instance as usize].first_child;
        Port {
            instance: first + inner.pos.0 as u32,
            side: port.side,
            port: inner.port,
        }
    }

    /// The innermost port to which entries lead from an input, or from which exits lead to an output.
    fn inner_end(&self, port: Port) -> Port
        requires { IsSeenPort self.now port }
        ensures { IsInnerEnd self.now port result }
    {
        let mut at = port;
        while let Some(production) = self.opened_by(at.instance) {
            at = self.inner_port(at, production);
        }
        at
    }

    /// The input of an instance that is not open at which a visible item is consumed in the end; None for an output of the root.
    ///
    /// Cost: one step for each entry on the way. Takes no memory.
    pub(crate) fn consumed_at(&self, item: &Item) -> Option<Port>
        requires { IsVisibleIn self.now item.now }
        ensures end { IsEndOf self.now item.now.to result }
        ensures unopened { IfSome result (IsUnopened self.now Input) }
    {
        // The run is one of the grammar: the port that consumes a visible item is that of a seen instance.
        let _run = self.run;
        let Some(port) = item.to else {
            return None;
        };
        Some(self.inner_end(port))
    }

    /// The output of an instance that is not open at which a visible item is produced in the first place; None for an input of the root.
    ///
    /// Cost: one step for each exit on the way. Takes no memory.
    pub(crate) fn produced_at(&self, item: &Item) -> Option<Port>
        requires { IsVisibleIn self.now item.now }
        ensures end { IsEndOf self.now item.now.from result }
        ensures unopened { IfSome result (IsUnopened self.now Output) }
    {
        // The run is one of the grammar: the port that produces a visible item is that of a seen instance.
        let _run = self.run;
        let Some(port) = item.from else {
            return None;
        };
        Some(self.inner_end(port))
    }

    /// The input at which an item is consumed in the end, if the view shows it.
    pub(crate) fn consumer(&self, item: &Item) -> Option<Port>
        requires { IsItemIn self.now item.now }
        ensures { IsConsumerOf self.now item.now result }
    {
        if !self.shows(item) {
            return None;
        }
        self.consumed_at(item)
    }

    /// The output at which an item is produced in the first place, if the view shows it.
    pub(crate) fn producer(&self, item: &Item) -> Option<Port>
        requires { IsItemIn self.now item.now }
        ensures { IsProducerOf self.now item.now result }
    {
        if !self.shows(item) {
            return None;
        }
        self.produced_at(item)
    }
}

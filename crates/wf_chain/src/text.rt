// The text of a chain.
ghost use Rattle.std.specs.Prelude.{◌≡◌, ◌<◌, ◌++◌, [], codes, length, get_or, IfOk, OnOk};
ghost use Rattle.wf_model.specs.Grammar.{module_at};
ghost use Rattle.wf_flat.specs.Table.{IsTableOf};
ghost use Rattle.wf_flat.specs.Item.{IsItemWithin};
ghost use Rattle.chain_model.specs.ChainText.{chain_text, step_lines};
ghost use Rattle.wf_chain.specs.HeldItems.{side_names, port_name, item_name};
ghost use Rattle.wf_chain.specs.ViewedRuns.{item_in};
ghost use Rattle.wf_chain.specs.Steps.{step_of};
ghost use Rattle.wf_chain.specs.Chains.{IsChainIn, steps_in};

use crate::chain::{Chain, ChainStep};
use crate::viewed_run::ViewedRun;
use std::alloc::{AllocError, Global};
use wf_flat::{Inst, Item, PlainRun, Port};
use wf_spec::{Grammar, Module, Name, PortNo, Side};

/// The name of a number; past the end no bytes.
fn name_at(names: &[Name], number: PortNo) -> &[u8]
    ensures { result.now ≡ get_or names.now number.0 [] }
{
    let k = number.0 as usize;
    if k < names.len() {
        names[k].bytes()
    } else {
        b""
    }
}

/// The names of the ports of a module on one side.
fn names_on(module: &Module, side: Side) -> &[Name]
    ensures { result.now ≡ side_names side module.now }
{
    match side {
        Side::Input => module.inputs(),
        Side::Output => module.outputs(),
    }
}

/// Puts the name of a port behind a text: that of its instance, a dot, and its own.
fn add_port(text: &mut Vec<u8>, g: &Grammar, run: &PlainRun, port: Port) -> Result<(), AllocError>
    requires run { IsTableOf g.now.core run.now }
    requires there { port.instance < length run.now.instances }
    ensures { OnOk result (text.new.items ≡ text.old.items ++ port_name g.now.core run.now port) }
{
    let instance = &run.instances()[port.instance as usize];
    let module = &g.modules()[instance.module.0 as usize];
    text.extend_from_slice(instance.name.bytes())?;
    text.extend_from_slice(b".")?;
    text.extend_from_slice(name_at(names_on(module, port.side), port.port))?;
    Ok(())
}

/// Puts the name of an item behind a text.
fn add_name(text: &mut Vec<u8>, g: &Grammar, run: &PlainRun, item: &Item) -> Result<(), AllocError>
    requires run { IsTableOf g.now.core run.now }
    requires within { IsItemWithin (length run.now.instances) item.now }
    ensures { OnOk result (text.new.items ≡ text.old.items ++ item_name g.now.core run.now item.now) }
{
    match item.from {
        Some(port) => add_port(text, g, run, port),
        None => match item.to {
            Some(port) => add_port(text, g, run, port),
            None => Ok(()),
        },
    }
}

/// Puts the line of an item behind a text.
fn add_item(text: &mut Vec<u8>, g: &Grammar, run: &PlainRun, item: &Item) -> Result<(), AllocError>
    requires run { IsTableOf g.now.core run.now }
    requires within { IsItemWithin (length run.now.instances) item.now }
    ensures { OnOk result (text.new.items ≡ text.old.items ++ (item_name g.now.core run.now item.now ++ codes "\n")) }
{
    add_name(text, g, run, item)?;
    text.extend_from_slice(b"\n")?;
    Ok(())
}

/// Puts the lines of a step behind a text.
fn add_step(
    text: &mut Vec<u8>,
    g: &Grammar,
    run: &PlainRun,
    step: &ChainStep,
) -> Result<(), AllocError>
    requires run { IsTableOf g.now.core run.now }
    requires via { step.now.via < length run.now.instances }
    requires within { IsItemWithin (length run.now.instances) step.now.item }
    ensures { OnOk result (text.new.items ≡ text.old.items ++ step_lines (step_of g.now.core run.now step.now)) }
{
    let via = &run.instances()[step.via as usize];
    text.extend_from_slice(b"via ")?;
    text.extend_from_slice(via.name.bytes())?;
    text.extend_from_slice(b"\n")?;
    add_item(text, g, run, &step.item)
}

impl<'r> ViewedRun<'r> {
    /// The text of a chain: the line of its first item, and for each step those of its instance and its item.
    ///
    /// Cost: linear in the text. Fails only for want of memory.
    pub fn text_of(&self, alloc: Global, c: &Chain) -> Result<Vec<u8>, AllocError>
        requires { IsChainIn self.now c.now }
        ensures { IfOk result (λ text. text.items ≡ chain_text (item_in self.now c.now.first) (steps_in self.now c.now.steps.items)) }
    {
        let mut text = Vec::new(alloc);
        add_item(&mut text, self.viewed.grammar(), self.run, &c.first)?;
        for step in &c.steps {
            add_step(&mut text, self.viewed.grammar(), self.run, step)?;
        }
        Ok(text)
    }
}

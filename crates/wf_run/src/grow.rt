// An expansion, added to the fields of a run.
ghost use Rattle.std.specs.Prelude.{◌≡◌, ◌<◌, ◌≤◌, ◌+◌, ◌^◌, ◌++◌, false, length, take, IfErr, IfSome, OnOk, OnErr};
ghost use Rattle.wf_model.specs.Lists.{IsIn};
ghost use Rattle.wf_model.specs.Grammar.{body_of};
ghost use Rattle.wf_model.specs.Faults.{some_twice};
ghost use Rattle.bit_pack.specs.Written.{IsWhole};
ghost use Rattle.run_faults.specs.NewNames.{AreNamesRefused};
ghost use Rattle.wf_run.specs.declared.node.Node.{Node as NodeHeld};
ghost use Rattle.wf_run.specs.Nodes.{IsFilledPrefix};
ghost use Rattle.wf_run.specs.Growing.{held_at, CanGoOn, AddsAllChildren, AreOpenedNodes};

use crate::child::child;
use crate::node::{Node, NodeNo};
use crate::prefix::PrefixRef;
use bumpalo::Bump;
use run_faults::take_names;
use std::alloc::{AllocError, Global};
use wf_names::{NameKey, Names};
use wf_recur::Linear;
use wf_spec::{Name, PosNo, ProdNo, RunFault, Step};

/// Appends the nodes of the children that a production makes. After an error some of them may be there.
fn append_children<'a>(
    alloc: Global,
    arena: &'a Bump,
    g: Linear<'_>,
    nodes: &mut Vec<Node<'a>>,
    parent: PrefixRef<'a>,
    p: ProdNo,
) -> Result<(), AllocError>
    requires production { p.0 < length g.grammar.now.core.productions }
    requires parent { CanGoOn parent }
    ensures added { OnOk result (AddsAllChildren g.entry.grammar.now.core p.0 parent.entry nodes.old.items nodes.new.items) }
    ensures begins { OnErr result (take (length nodes.old.items) nodes.new.items ≡ nodes.old.items) }
{
    for j in 0..g.grammar.production(p).positions().len() {
        let step = Step {
            production: p,
            position: PosNo(j as u8),
        };
        let node = child(alloc, arena, g, parent, step)?;
        nodes.push(node)?;
    }
    Ok(())
}

/// An expansion of an instance by a production, with a name for each child.
#[derive(Clone, Copy, Drop)]
pub(crate) struct Expansion<'n> {
    pub(crate) instance: NodeNo,
    pub(crate) production: ProdNo,
    pub(crate) names: &'n [Name],
}

/// Adds an expansion: the nodes of the children, their names, and to the instance the number of the first and how many there are. After an error all is as it was.
///
/// Errors: `NameTwice` where a name is taken already, or stands twice among them; `NoMemory`.
pub(crate) fn grow<'a>(
    alloc: Global,
    arena: &'a Bump,
    g: Linear<'_>,
    taken: &mut Names<NameKey<'a>>,
    nodes: &mut Vec<Node<'a>>,
    e: Expansion,
) -> Result<(), RunFault>
    requires there { e.instance.0 < length nodes.old.items }
    requires production { e.production.0 < length g.grammar.now.core.productions }
    requires one_each { length e.names.now ≡ length (body_of g.grammar.now.core e.production.0) }
    requires room { length nodes.old.items + length e.names.now ≤ 2 ^ 24 }
    requires filled { (n : NodeHeld) → IsIn n nodes.old.items → IsFilledPrefix n }
    requires chain { IfSome (held_at nodes.old.items e.instance.0).chain (λ c. c < 2 ^ 24) }
    ensures fresh { OnOk result (some_twice taken.old e.entry.names.now ≡ false) }
    ensures names { OnOk result (taken.new ≡ taken.old ++ e.entry.names.now) }
    ensures nodes { OnOk result (AreOpenedNodes g.entry.grammar.now.core e.entry.instance.0 e.entry.production.0 (length e.entry.names.now) nodes.old.items nodes.new.items) }
    ensures whole { OnOk result ((n : NodeHeld) → IsIn n nodes.new.items → IsWhole n.bytes.now n.length) }
    ensures refused { IfErr result (AreNamesRefused taken.old e.entry.names.now) }
    ensures same_taken { OnErr result (taken.new ≡ taken.old) }
    ensures same_nodes { OnErr result (nodes.new.items ≡ nodes.old.items) }
{
    let before = nodes.len();
    let count = g.grammar.production(e.production).positions().len() as u8;
    let node = nodes[e.instance.0 as usize];
    let parent = PrefixRef {
        bytes: node.bytes,
        length: node.length,
        chain: node.chain.number(),
    };
    if let Err(_) = append_children(alloc, arena, g, nodes, parent, e.production) {
        nodes.truncate(before);
        return Err(RunFault::NoMemory);
    }
    if let Err(fault) = take_names(taken, e.names) {
        nodes.truncate(before);
        return Err(fault);
    }
    let opened = &mut nodes[e.instance.0 as usize];
    opened.first_child = before as u32;
    opened.children = count;
    Ok(())
}

// The items of a run, found by name.
ghost use Rattle.std.specs.Prelude.{◌≡◌, ◌<◌, ◌≤◌, ◌+◌, ◌-◌, ◌^◌, ◌++◌, ◌==◌, ℕ, Option, Some, None, length, position, get_or, option_map, IfSome, IsNone, bytes_eq};
ghost use Rattle.wf_model.specs.declared.body.Edge.{Edge as EdgeHeld};
ghost use Rattle.wf_model.specs.Grammar.{Edge as EdgeSeen, body_of, production_at};
ghost use Rattle.wf_model.specs.Lists.{IsIn};
ghost use Rattle.wf_model.specs.Items.{items};
ghost use Rattle.wf_flat.specs.Table.{IsTableOf, events_of, names_in, no_instance};
ghost use Rattle.wf_flat.specs.Item.{item_named, named_item, IsItemWithin, IsItemOfEdge, IsItemNamed, HasNoItem, item_name_at, IsRootItem};

use crate::graph::Port;
use crate::table::PlainRun;
use wf_spec::{Edge, Grammar, Inner, Module, Name, PortNo, PosNo, ProdNo, Side};

/// A data item of a run: the instance that made it (none for a port of the root), the port that produces it (none for an input of the root) and the port that consumes it (none for an output of the root).
#[derive(Clone, Copy, Debug, PartialEq, Eq, Drop)]
pub struct Item {
    pub maker: Option<u32>,
    pub from: Option<Port>,
    pub to: Option<Port>,
}

/// The place of the first dot.
fn first_dot(name: &[u8]) -> Option<usize>
    ensures place { result ≡ position (λ b. b == 46) name.now }
{
    name.iter().position(|b| *b == b'.')
}

fn place_of(names: &[Name], name: &[u8]) -> Option<usize>
    ensures place { result ≡ position (bytes_eq name.now) names.now }
{
    names.iter().position(|one| name == one.bytes())
}

/// The number of the port of a name.
fn port_of(names: &[Name], name: &[u8]) -> Option<u8>
    requires few { length names.now ≤ 64 }
    ensures place { result ≡ position (bytes_eq name.now) names.now }
{
    let Some(i) = place_of(names, name) else {
        return None;
    };
    let all = names.len();
    prove!(i < all);
    Some(i as u8)
}

/// The edge that leaves a port.
fn edge_from(edges: &[Edge], from: Inner) -> Option<Edge>
    ensures found { IfSome result (λ e. IsIn e edges.now × (e.from ≡ from)) }
    ensures none { IsNone result → (e : EdgeHeld) → IsIn e edges.now → e.from ≡ from → ⊥ }
{
    for e in edges {
        if e.from == from {
            return Some(*e);
        }
    }
    None
}

/// The item of a port of the root, whose number is given.
fn root_item(rule: &Module, k: u32, port: &[u8]) -> Option<Item>
    requires few_inputs { length rule.now.inputs ≤ 64 }
    requires few_outputs { length rule.now.outputs ≤ 64 }
    ensures found { IfSome result (IsRootItem rule.now k port.now) }
    ensures none { IsNone result → IsIn port.now (rule.now.inputs ++ rule.now.outputs) → ⊥ }
    ensures within { IfSome result (λ i. (count : ℕ) → k < count → IsItemWithin count i) }
{
    if let Some(i) = port_of(rule.inputs(), port) {
        return Some(Item {
            maker: None,
            from: None,
            to: Some(Port {
                instance: k,
                side: Side::Input,
                port: PortNo(i),
            }),
        });
    }
    let Some(o) = port_of(rule.outputs(), port) else {
        return None;
    };
    Some(Item {
        maker: None,
        from: Some(Port {
            instance: k,
            side: Side::Output,
            port: PortNo(o),
        }),
        to: None,
    })
}

/// The item of the edge that leaves an output of instance `k`, whose parent was expanded by a production into instances from `first` on.
fn edge_item(
    g: &Grammar,
    production: ProdNo,
    parent: u32,
    first: u32,
    k: u32,
    o: u8,
) -> Option<Item>
    requires in_range { production.0 < length g.now.core.productions }
    requires first { first ≤ k }
    requires last { k < first + length (body_of g.now.core production.0) }
    requires room { first + length (body_of g.now.core production.0) < 2 ^ 32 }
    ensures found { IfSome result (λ i. (e : EdgeSeen) × IsIn e (production_at g.now.core production.0).edges × IsItemOfEdge parent first k o e i) }
    ensures none { IsNone result → (e : EdgeSeen) → IsIn e (production_at g.now.core production.0).edges →
        e.from ≡ record { position = k - first; port = o } → ⊥ }
{
    let rule = g.production(production);
    let from = Inner {
        pos: PosNo((k - first) as u8),
        port: PortNo(o),
    };
    let Some(e) = edge_from(rule.edges(), from) else {
        return None;
    };
    Some(Item {
        maker: Some(parent),
        from: Some(Port {
            instance: k,
            side: Side::Output,
            port: PortNo(o),
        }),
        to: Some(Port {
            instance: first + e.to.pos.0 as u32,
            side: Side::Input,
            port: e.to.port,
        }),
    })
}

/// The item of an output of an instance below the root.
fn inner_item(g: &Grammar, run: &PlainRun, k: u32, parent: u32, port: &[u8]) -> Option<Item>
    requires run { IsTableOf g.now.core run.now }
    requires there { k < length run.now.instances }
    requires parent { (get_or run.now.instances k no_instance).parent ≡ Some parent }
    ensures found { IfSome result (IsItemNamed g.now.core run.now (item_name_at run.now k port.now)) }
    ensures none { IsNone result → HasNoItem g.now.core run.now (item_name_at run.now k port.now) }
    ensures within { IfSome result (λ i. IsItemWithin (length run.now.instances) i) }
{
    let all = run.instances();
    let module = all[k as usize].module;
    let rule = &g.modules()[module.0 as usize];
    let Some(o) = port_of(rule.outputs(), port) else {
        return None;
    };
    let y = &all[parent as usize];
    let Some(production) = y.production else {
        return None;
    };
    edge_item(g, production, parent, y.first_child, k, o)
}

/// The item that is named by an instance and a port.
fn item_at(g: &Grammar, run: &PlainRun, k: u32, port: &[u8]) -> Option<Item>
    requires run { IsTableOf g.now.core run.now }
    requires there { k < length run.now.instances }
    ensures found { IfSome result (IsItemNamed g.now.core run.now (item_name_at run.now k port.now)) }
    ensures none { IsNone result → HasNoItem g.now.core run.now (item_name_at run.now k port.now) }
    ensures within { IfSome result (λ i. IsItemWithin (length run.now.instances) i) }
{
    let x = &run.instances()[k as usize];
    match x.parent {
        None => root_item(&g.modules()[x.module.0 as usize], k, port),
        Some(parent) => inner_item(g, run, k, parent, port),
    }
}

/// The item of a name, which is an instance's name, a dot and the name of a port. A port of the root is an item that no instance made: an input is consumed by it, an output is produced. The other items are those of edges: each is named by the output that its edge leaves, and was made by the parent of the two instances. An output that leaves its body by an exit names no item, nor does an input of an instance below the root.
///
/// The name of the instance `near` is tried first. Cost: where the item has the name of another, one look-up by hashing; the ports of one module and the edges of one body. Takes no memory.
pub fn find_item(g: &Grammar, run: &PlainRun, near: u32, name: &[u8]) -> Option<Item>
    requires { IsTableOf g.now.core run.now }
    ensures found { IfSome result (IsItemNamed g.now.core run.now name.now) }
    ensures none { IsNone result → HasNoItem g.now.core run.now name.now }
    ensures named { item_named (items g.now.core g.now.core.start (events_of run.now)) name.now ≡ option_map (named_item (names_in run.now.instances) name.now) result }
    ensures within { IfSome result (λ i. IsItemWithin (length run.now.instances) i) }
{
    // A grammar is well-formed: the instance that names an item is there.
    let _formed = g.start();
    let Some(dot) = first_dot(name) else {
        return None;
    };
    let Some(k) = run.find_near(near, &name[..dot]) else {
        return None;
    };
    item_at(g, run, k, &name[dot + 1..])
}

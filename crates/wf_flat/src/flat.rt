// The flat graph of a run.
ghost use Rattle.std.specs.Prelude.{◌≡◌, ◌≤◌, ◌↔◌, ℕ, List, length, get_or, IfOk, IsTrue};
ghost use Rattle.wf_model.specs.Links.{Path};
ghost use Rattle.wf_model.specs.Meaning.{pairs_of};
ghost use Rattle.wf_graph.specs.Search.{IsSearch};
ghost use Rattle.wf_graph.specs.Routes.{AreInRange};
ghost use Rattle.wf_flat.specs.declared.graph.Link.{Link as LinkSeen};
ghost use Rattle.wf_flat.specs.Table.{IsTableOf};
ghost use Rattle.wf_flat.specs.Graph.{IsMadeFor};
ghost use Rattle.wf_flat.specs.Leading.{led_from};
ghost use Rattle.wf_flat.specs.Flat.{numbered_port, numbered_links, IsGraphOf, IsGraphBy, TellsPath, is_item_shown, TellsNamedPath};
ghost use Rattle.wf_flat.specs.Seeing.{AreOpenBy};

use crate::graph::Port;
use crate::item::Item;
use crate::numbering::number;
use crate::open::opens;
use crate::placing::{Ports, ports_of};
use crate::port_graph::PortGraph;
use crate::seen::{is_set, seen};
use crate::table::PlainRun;
use std::alloc::{AllocError, Global};
use std::marker::Model;
use wf_graph::Search;
use wf_spec::{Deps, Grammar};

/// Whether a path leads from a port to a port in the links of which this is the graph.
fn is_joined(
    begins: &[u32],
    graph: PortGraph<'_>,
    search: &mut Search,
    from: Port,
    to: Port,
) -> Result<bool, AllocError>
    requires in_range { AreInRange (led_from graph.words.now graph.rows.now) (length graph.words.now) }
    requires below { (k : ℕ) → get_or begins.now k 0 ≤ length graph.words.now }
    requires search { IsSearch (led_from graph.words.now graph.rows.now) (length graph.words.now) search.old.marks.items search.old.queue.items search.old.done }
    ensures search { IsSearch (led_from graph.entry.words.now graph.entry.rows.now) (length graph.entry.words.now) search.new.marks.items search.new.queue.items search.new.done }
    ensures tells { IfOk result (TellsPath begins.now graph.entry.words.now graph.entry.rows.now from to) }
{
    if from == to {
        return Ok(true);
    }
    let Some(a) = number(begins, from) else {
        return Ok(false);
    };
    let Some(b) = number(begins, to) else {
        return Ok(false);
    };
    let is_reached = search.reaches(&graph, a, b)?;
    Ok(is_reached)
}

/// A run as a view shows it, as a graph of its ports in which paths are searched, and the last of these searches. It holds no link: a word for each port says to where it leads.
#[derive(Drop)]
pub struct Flat {
    ports: Ports,
    opens: Vec<bool>,
    search: Search,
}

impl Model for Flat {
    ghost use Rattle.wf_flat.specs.Flat.{FlatSeen, IsSearched};

    ghost Value = { FlatSeen };

    ghost view = { λ f. record { begins = f.ports.begins.items; words = f.ports.words.items; rows = f.ports.rows.items; opens = f.opens.items } };

    ghost invariant = { λ f. IsSearched f.ports.begins.items f.ports.words.items f.ports.rows.items f.search.marks.items f.search.queue.items f.search.done };
}

impl Flat {
    /// The flat graph of a run. An instance is open where it is seen, expanded in the run and of a marked module: it has the edges, entries and exits of its production. A seen instance that is not open has the pairs of `leaf`, and none where `leaf` has no rows for its module.
    ///
    /// Cost: linear in the run and the links of its open instances; no pair of the others is looked at. It holds 9 bytes for each instance and 5 for each port. Fails only for want of memory; more than 2^31 ports count as such.
    pub fn of(
        alloc: Global,
        g: &Grammar,
        run: &PlainRun,
        expanded: &[bool],
        leaf: &Deps,
    ) -> Result<Flat, AllocError>
        requires run { IsTableOf g.now.core run.now }
        requires made_for { IsMadeFor g.now.core leaf.now }
        ensures graph { IfOk result (λ f. IsGraphBy g.now.core run.now expanded.now (pairs_of leaf.now) f) }
        ensures opens { IfOk result (λ f. AreOpenBy g.now.core run.now expanded.now f.opens) }
    {
        // A grammar is well-formed, and a run has fewer than 2^32 instances.
        let _formed = g.start();
        let _few = run.instances();
        let all = seen(alloc, g, run, expanded)?;
        let ports = ports_of(alloc, g, run, &all, expanded, leaf)?;
        let opens = opens(alloc, run, &all, expanded)?;
        let search = Search::new(alloc, ports.words.len())?;
        Ok(Flat {
            ports,
            opens,
            search,
        })
    }

    /// Whether an item of the run is visible: a port of the root, or made by an open instance.
    ///
    /// Cost: one flag is looked at. Takes no memory.
    pub fn shows(&self, item: &Item) -> bool
        ensures { result ≡ is_item_shown self.now.opens item.now.maker }
    {
        let Some(k) = item.maker else {
            return true;
        };
        is_set(&self.opens, k as usize)
    }

    /// Whether a path of links leads from a port to a port. A path may be one port, so each port is joined to itself.
    ///
    /// Cost: each port is gone on from once at most: by its one link, or by the bits of its row that are set. A mark is taken away for each port that the call before met. Where that call had the same first port, its search is gone on with instead: no port is gone on from twice, and a port that it met costs one look. Fails only for want of memory.
    pub fn joined(&mut self, from: Port, to: Port) -> Result<bool, AllocError>
        ensures unchanged { self.new ≡ self.old }
        ensures joined { IfOk result (λ b. (ls : List LinkSeen) → IsGraphOf ls self.old → IsTrue b ↔ Path (numbered_links ls) (numbered_port from) (numbered_port to)) }
        ensures by_name { IfOk result (TellsNamedPath self.old from to) }
    {
        let graph = PortGraph {
            words: &self.ports.words,
            rows: &self.ports.rows,
        };
        let joined = is_joined(&self.ports.begins, graph, &mut self.search, from, to)?;
        Ok(joined)
    }
}

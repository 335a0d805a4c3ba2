// The first of the shortest routes from one vertex to another.
ghost use Rattle.std.specs.Prelude.{◌≡◌, ◌<◌, ◌≤◌, ◌-◌, ◌++◌, List, ℕ, length, get_or, replicate, IfOk, OnOk, MatchOption};
ghost use Rattle.wf_graph.specs.Routes.{IsRoute, AreInRange, IsFirstShortest};
ghost use Rattle.wf_graph.specs.Trails.{Traced, IsFirstMet};

use crate::graph::Graph;
use crate::search::Search;
use std::alloc::{AllocError, Global};

/// Notes of the vertices of a queue of so many, past those that were noted, the place of the vertex from which they were met.
fn note(came: &mut Vec<usize>, count: usize, place: usize) -> Result<(), AllocError>
    requires { length came.old.items ≤ count }
    ensures { OnOk result (came.new.items ≡ came.old.items ++ replicate (count - length came.old.items) place) }
{
    while came.len() < count {
        came.push(place)?;
    }
    Ok(())
}

/// The first place at which a vertex was met, behind the first vertex of the queue.
fn first_met(queue: &[u32], v: u32) -> usize
    requires { (j : ℕ) × (0 < j) × (j < length queue.now) × (get_or queue.now j 0 ≡ v) }
    ensures { IsFirstMet queue.now v result }
{
    for j in 1..queue.len() {
        if queue[j] == v {
            return j;
        }
    }
    unreachable!()
}

/// The vertices on the way to the one at a place of the queue.
fn way_to(alloc: Global, queue: &[u32], came: &[usize], end: usize) -> Result<Vec<u32>, AllocError>
    requires end { end < length queue.now }
    requires each { length came.now ≡ length queue.now }
    requires back { (j : ℕ) → 0 < j → j < length queue.now → get_or came.now j 0 < j }
    ensures { IfOk result (λ way. Traced queue.now came.now end way.items) }
{
    let mut way = Vec::new(alloc);
    let mut at = end;
    while at > 0 {
        way.push(queue[at])?;
        at = came[at];
    }
    way.reverse();
    Ok(way)
}

/// The first of the shortest routes of at least one step from a vertex to a vertex: the vertices behind the first, up to the last; or `None` where no route leads there.
///
/// Of two routes as short that is first which goes on to the earlier vertex of a list where they part. A route from a vertex to itself is a shortest cycle through it.
///
/// Cost: each edge is looked at once at most. Fails only for want of memory.
pub fn first_shortest<G: Graph>(
    alloc: Global,
    graph: &G,
    from: u32,
    to: u32,
) -> Result<Option<Vec<u32>>, AllocError>
    requires in_range { AreInRange (G.leads graph.now) (G.size graph.now) }
    requires from { from < G.size graph.now }
    requires to { to < G.size graph.now }
    ensures { IfOk result (λ o. MatchOption o ((ws : List ℕ) → 0 < length ws → IsRoute (G.leads graph.now) from ws to → ⊥)
        (λ route. IsFirstShortest (G.leads graph.now) from to route.items)) }
{
    // The first vertex is not marked, so that a mark says that a step leads there.
    let mut search = Search::new(alloc, graph.size())?;
    search.queue.push(from)?;
    let mut came = Vec::new(alloc);
    came.push(0)?;
    while !search.marks[to as usize] {
        let place = search.done;
        if place >= search.queue.len() {
            return Ok(None);
        }
        search.go_on(graph)?;
        note(&mut came, search.queue.len(), place)?;
    }
    let end = first_met(&search.queue, to);
    let way = way_to(alloc, &search.queue, &came, end)?;
    Ok(Some(way))
}

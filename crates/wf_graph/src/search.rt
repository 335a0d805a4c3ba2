// Breadth-first search in a graph of numbered vertices.
ghost use Rattle.std.specs.Prelude.{◌≡◌, ◌<◌, ◌≤◌, ◌+◌, ◌↔◌, [], ℕ, true, false, length, get_or, IfOk, OnOk, OnErr, IsTrue};
ghost use Rattle.wf_graph.specs.Graph.{HasStep, InRange, IsReached};
ghost use Rattle.wf_graph.specs.Routes.{AreInRange};
ghost use Rattle.wf_graph.specs.Search.{IsSearch, IsUnbegun, IsBegun, Met, MetAll, MetInPart, MetUpTo};
ghost use Rattle.wf_model.specs.Lists.{IsIn, Walk};

use crate::graph::{Graph, RowGraph};
use std::alloc::{AllocError, Global};

/// A search from a vertex: a mark for each vertex, whether it was met; the vertices that were met, in order, the first of which is that from which it goes; and from how many of these it has gone on.
#[derive(Drop)]
pub struct Search {
    pub marks: Vec<bool>,
    pub queue: Vec<u32>,
    pub done: usize,
}

/// Adds a vertex to the queue, if it is not marked.
fn meet(marks: &mut Vec<bool>, queue: &mut Vec<u32>, v: u32) -> Result<(), AllocError>
    requires { v < length marks.old.items }
    ensures met { OnOk result (Met marks.old.items queue.old.items v marks.new.items queue.new.items) }
    ensures same_marks { OnErr result (marks.new.items ≡ marks.old.items) }
    ensures same_queue { OnErr result (queue.new.items ≡ queue.old.items) }
{
    if marks[v as usize] {
        return Ok(());
    }
    queue.push(v)?;
    marks[v as usize] = true;
    Ok(())
}

/// Adds the vertices to which a vertex leads, in order, those that are marked left out. After an error some are added.
fn meet_row<G: Graph>(
    graph: &G,
    v: u32,
    marks: &mut Vec<bool>,
    queue: &mut Vec<u32>,
) -> Result<(), AllocError>
    requires vertex { v < G.size graph.now }
    requires in_range { (w : ℕ) → IsIn w (G.leads graph.now v) → w < length marks.old.items }
    ensures some { MetInPart (G.leads graph.now v) marks.old.items queue.old.items marks.new.items queue.new.items }
    ensures all { OnOk result (MetAll marks.old.items queue.old.items (G.leads graph.now v) marks.new.items queue.new.items) }
{
    let mut mark = graph.begin(v);
    while let Some((w, behind)) = graph.next(v, mark) {
        meet(marks, queue, w)?;
        mark = behind;
    }
    Ok(())
}

/// Takes the marks away, each with its vertex in the queue.
fn forget(marks: &mut Vec<bool>, queue: &mut Vec<u32>)
    requires marked { (v : ℕ) → get_or marks.old.items v false ≡ true → IsIn v queue.old.items }
    requires below { (v : ℕ) → IsIn v queue.old.items → v < length marks.old.items }
    ensures count { length marks.new.items ≡ length marks.old.items }
    ensures none { (v : ℕ) → get_or marks.new.items v false ≡ true → ⊥ }
    ensures empty { queue.new.items ≡ [] }
{
    while let Some(v) = queue.pop() {
        marks[v as usize] = false;
    }
}

/// Whether a search goes from a vertex.
fn is_from(queue: &[u32], from: u32) -> bool
    ensures some { IsTrue result → 0 < length queue.now }
    ensures first { IsTrue result → get_or queue.now 0 0 ≡ from }
{
    if queue.is_empty() {
        return false;
    }
    queue[0] == from
}

impl Search {
    /// A search among so many vertices that goes from none of them yet. Fails only for want of memory.
    pub fn new(alloc: Global, vertices: usize) -> Result<Search, AllocError>
        ensures { IfOk result (λ s. IsUnbegun vertices s.marks.items s.queue.items s.done) }
    {
        let marks = vec![in alloc; false; vertices]?;
        Ok(Search {
            marks,
            queue: Vec::new(alloc),
            done: 0,
        })
    }

    /// Goes from another vertex. After an error it goes from none.
    fn restart(&mut self, from: u32) -> Result<(), AllocError>
        requires marked { (v : ℕ) → get_or self.old.marks.items v false ≡ true → IsIn v self.old.queue.items }
        requires below { (v : ℕ) → IsIn v self.old.queue.items → v < length self.old.marks.items }
        requires from { from < length self.old.marks.items }
        ensures begun { OnOk result (IsBegun (length self.old.marks.items) from self.new.marks.items self.new.queue.items self.new.done) }
        ensures unbegun { OnErr result (IsUnbegun (length self.old.marks.items) self.new.marks.items self.new.queue.items self.new.done) }
    {
        self.done = 0;
        forget(&mut self.marks, &mut self.queue);
        self.queue.push(from)?;
        self.marks[from as usize] = true;
        Ok(())
    }

    /// Goes on from the next vertex of the queue. After an error it has not gone on from it, and some of those to which it leads are met.
    pub(crate) fn go_on<G: Graph>(&mut self, graph: &G) -> Result<(), AllocError>
        requires left { self.old.done < length self.old.queue.items }
        requires vertex { get_or self.old.queue.items self.old.done 0 < G.size graph.now }
        requires in_range { (w : ℕ) → IsIn w (G.leads graph.now (get_or self.old.queue.items self.old.done 0)) → w < length self.old.marks.items }
        ensures done { OnOk result (self.new.done ≡ self.old.done + 1) }
        ensures not_done { OnErr result (self.new.done ≡ self.old.done) }
        ensures some { MetInPart (G.leads graph.now (get_or self.old.queue.items self.old.done 0)) self.old.marks.items self.old.queue.items self.new.marks.items self.new.queue.items }
        ensures all { OnOk result (MetAll self.old.marks.items self.old.queue.items (G.leads graph.now (get_or self.old.queue.items self.old.done 0)) self.new.marks.items self.new.queue.items) }
    {
        let v = self.queue[self.done];
        meet_row(graph, v, &mut self.marks, &mut self.queue)?;
        self.done += 1;
        Ok(())
    }

    /// Whether a walk leads from the first vertex of the search to a vertex. Goes on until it is met, or all are that can be.
    fn finds<G: Graph>(&mut self, graph: &G, to: u32) -> Result<bool, AllocError>
        requires in_range { AreInRange (G.leads graph.now) (G.size graph.now) }
        requires to { to < G.size graph.now }
        requires some { 0 < length self.old.queue.items }
        requires search { IsSearch (G.leads graph.now) (G.size graph.now) self.old.marks.items self.old.queue.items self.old.done }
        ensures search { IsSearch (G.leads graph.now) (G.size graph.now) self.new.marks.items self.new.queue.items self.new.done }
        ensures finds { IfOk result (λ b. IsTrue b ↔ Walk (HasStep (G.leads graph.now)) (get_or self.old.queue.items 0 0) to) }
    {
        while !self.marks[to as usize] {
            if self.done >= self.queue.len() {
                return Ok(false);
            }
            self.go_on(graph)?;
        }
        Ok(true)
    }

    /// Whether a walk leads from a vertex to a vertex. Where the search before went from the same vertex, this one goes on with it.
    ///
    /// Cost: each edge is looked at once at most, and each mark of the search before is taken away once. Fails only for want of memory.
    pub fn reaches<G: Graph>(&mut self, graph: &G, from: u32, to: u32) -> Result<bool, AllocError>
        requires in_range { AreInRange (G.leads graph.now) (G.size graph.now) }
        requires from { from < G.size graph.now }
        requires to { to < G.size graph.now }
        requires search { IsSearch (G.leads graph.now) (G.size graph.now) self.old.marks.items self.old.queue.items self.old.done }
        ensures search { IsSearch (G.leads graph.now) (G.size graph.now) self.new.marks.items self.new.queue.items self.new.done }
        ensures reaches { IfOk result (λ b. IsTrue b ↔ Walk (HasStep (G.leads graph.now)) from to) }
    {
        if !is_from(&self.queue, from) {
            self.restart(from)?;
        }
        let is_found = self.finds(graph, to)?;
        Ok(is_found)
    }
}

/// Marks the vertices to which a walk from a vertex leads, itself among them.
///
/// Cost: each edge is looked at once at most. Fails only for want of memory.
pub fn reached(alloc: Global, graph: &[Vec<u32>], from: u32) -> Result<Vec<bool>, AllocError>
    requires in_range { InRange graph.now }
    requires from { from < length graph.now }
    ensures count { IfOk result (λ marks. length marks.items ≡ length graph.now) }
    ensures reached { IfOk result (λ marks. (v : ℕ) → (get_or marks.items v false ≡ true) ↔ IsReached graph.now from v) }
{
    let rows = RowGraph { rows: graph };
    let mut search = Search::new(alloc, graph.len())?;
    search.restart(from)?;
    while search.done < search.queue.len() {
        search.go_on(&rows)?;
    }
    Ok(search.marks)
}

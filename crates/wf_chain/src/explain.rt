// The first of the shortest chains from one item to another.
ghost use Rattle.std.specs.Prelude.{◌≡◌, ◌<◌, ◌^◌, ℕ, None, length, get_or, IfOk, MatchOption};
ghost use Rattle.wf_model.specs.Lists.{IsIn, IsAt};
ghost use Rattle.wf_graph.specs.Routes.{IsRoute};
ghost use Rattle.wf_chain.specs.ViewedRuns.{grammar_in, IsVisibleIn};
ghost use Rattle.wf_chain.specs.Chains.{HasNoChain, IsExplained};
ghost use Rattle.wf_chain.specs.ItemLists.{AreItemsOf};
ghost use Rattle.wf_chain.specs.ItemGraphs.{led_from, steps_held, IsGraphOf};

use crate::chain::{Chain, ChainStep};
use crate::item_graph::{ItemGraph, consumers_of, made_at, producers_of};
use crate::items::items_of;
use crate::viewed_run::ViewedRun;
use std::alloc::{AllocError, Global};
use wf_flat::{Item, Port};
use wf_graph::first_shortest;

/// The number of an item in a list that has it.
fn number_of(items: &[Item], item: &Item) -> u32
    requires few { length items.now < 2 ^ 32 }
    requires there { IsIn item.now items.now }
    ensures { IsAt item.now result items.now }
{
    for k in 0..items.len() {
        if items[k] == *item {
            return k as u32;
        }
    }
    unreachable!()
}

/// The steps of a route from the item of a number. Fails only for want of memory.
fn steps_along(
    alloc: Global,
    graph: &ItemGraph<'_, '_>,
    items: &[Item],
    from: u32,
    route: &[u32],
) -> Result<Vec<ChainStep>, AllocError>
    requires consumed { length graph.now.consumed.now ≡ length items.now }
    requires produced { length graph.now.produced.now ≡ length items.now }
    requires there { from < length items.now }
    requires route { (to : ℕ) × IsRoute (led_from graph.now.run.now graph.now.consumed.now graph.now.produced.now) from route.now to }
    ensures { IfOk result (λ steps. steps.items ≡ steps_held items.now graph.now.consumed.now from route.now) }
{
    let mut steps = Vec::with_capacity(alloc, route.len())?;
    let mut at = from;
    for w in route {
        let Some(input) = graph.consumed[at as usize] else {
            unreachable!();
        };
        steps.push(ChainStep {
            via: input.instance,
            item: items[*w as usize],
        })?;
        at = *w;
    }
    Ok(steps)
}

/// The first of the shortest chains from an item to an item of a graph; None where no chain leads there. Fails only for want of memory.
fn chain_between(
    alloc: Global,
    graph: &ItemGraph<'_, '_>,
    items: &[Item],
    first: &Item,
    second: &Item,
) -> Result<Option<Chain>, AllocError>
    requires graph { IsGraphOf graph.now.run.now items.now graph.now.consumed.now graph.now.produced.now }
    requires few { length items.now < 2 ^ 32 }
    requires first { IsVisibleIn graph.now.run.now first.now }
    requires second { IsVisibleIn graph.now.run.now second.now }
    ensures { IfOk result (λ o. MatchOption o (HasNoChain graph.now.run.now first.now second.now) (IsExplained graph.now.run.now first.now second.now)) }
{
    let from = number_of(items, first);
    let to = number_of(items, second);
    let Some(route) = first_shortest(alloc, graph, from, to)? else {
        return Ok(None);
    };
    let steps = steps_along(alloc, graph, items, from, &route)?;
    Ok(Some(Chain {
        first: *first,
        steps,
    }))
}

impl<'r> ViewedRun<'r> {
    /// The first of the shortest chains from a visible item to a visible item; None where no chain leads there.
    ///
    /// Of two chains of as many items that comes first whose item was made first where they part.
    ///
    /// Cost: linear in the items of the run and in the entries and exits on their ways; from each item that is met the search looks at the items that are produced where it is consumed, at most 64. It holds 60 bytes for each item and 4 for each instance, and 13 more for each item that it meets. Fails only for want of memory; 2^32 items count as such.
    pub fn explain(
        &self,
        alloc: Global,
        first: &Item,
        second: &Item,
    ) -> Result<Option<Chain>, AllocError>
        requires first { IsVisibleIn self.now first.now }
        requires second { IsVisibleIn self.now second.now }
        ensures { IfOk result (λ o. MatchOption o (HasNoChain self.now first.now second.now) (IsExplained self.now first.now second.now)) }
    {
        let items = items_of(alloc, self.viewed.grammar(), self.run)?;
        self.explain_by(alloc, &items, first, second)
    }

    /// What `explain` tells, by the items of the run, in order of making.
    fn explain_by(
        &self,
        alloc: Global,
        items: &[Item],
        first: &Item,
        second: &Item,
    ) -> Result<Option<Chain>, AllocError>
        requires items { AreItemsOf (grammar_in self.now) self.now.run items.now }
        requires few { length items.now < 2 ^ 32 }
        requires first { IsVisibleIn self.now first.now }
        requires second { IsVisibleIn self.now second.now }
        ensures { IfOk result (λ o. MatchOption o (HasNoChain self.now first.now second.now) (IsExplained self.now first.now second.now)) }
    {
        let consumed = consumers_of(alloc, self, items)?;
        let produced = producers_of(alloc, self, items)?;
        let made = made_at(alloc, self.run.instances().len(), &produced)?;
        let graph = ItemGraph {
            run: self,
            consumed: &consumed,
            produced: &produced,
            first: &made.first,
            next: &made.next,
        };
        chain_between(alloc, &graph, items, first, second)
    }
}

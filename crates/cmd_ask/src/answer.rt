// Answers to queries on a run.
ghost use Rattle.std.specs.Prelude.{◌≡◌, List, IfOk, length, option_map};
ghost use Rattle.wf_flat.specs.declared.graph.Link.{Link as LinkSeen};
ghost use Rattle.wf_flat.specs.Table.{names_in};
ghost use Rattle.wf_flat.specs.Graph.{named_port, named_links};
ghost use Rattle.wf_flat.specs.Item.{IsItemWithin};
ghost use Rattle.wf_flat.specs.Flat.{AreWithin, IsGraphOf};
ghost use Rattle.wf_query.specs.Answers.{answer_text};
ghost use Rattle.cmd_ask.specs.Prepared.{PreparedSeen, TellsPath};
ghost use Rattle.cmd_ask.specs.Told.{IsToldBy};

use crate::prepared::Prepared;
use std::alloc::AllocError;
use wf_flat::{Item, find_item};
use wf_query::{Answer, Answerer, Query};

/// Whether a path leads from where the first item is consumed to where the second is produced. Fails only for want of memory.
fn path_answer(p: &mut Prepared<'_>, first: Item, second: Item) -> Result<Answer, AllocError>
    requires first { IsItemWithin (length p.old.run.instances) first }
    requires second { IsItemWithin (length p.old.run.instances) second }
    ensures unchanged { p.new ≡ p.old }
    ensures path { IfOk result (λ a. (ls : List LinkSeen) → IsGraphOf ls p.old.flat → AreWithin (length p.old.run.instances) ls →
        TellsPath (named_links (names_in p.old.run.instances) ls)
        (option_map (named_port (names_in p.old.run.instances)) first.to)
        (option_map (named_port (names_in p.old.run.instances)) second.from) a) }
{
    let Some(from) = first.to else {
        return Ok(Answer::No);
    };
    let Some(to) = second.from else {
        return Ok(Answer::No);
    };
    let joined = p.flat.joined(from, to)?;
    if joined {
        return Ok(Answer::Yes);
    }
    Ok(Answer::No)
}

/// The answer to a query, whether the second item depends on the first: unknown where either name is that of no item; hidden where either item is not visible under the view; and otherwise yes or no, which hold however the run is finished.
///
/// Cost: two items found by hashing, and one search along the links of the run, or what is left of it where the query before has the same first item. Fails only for want of memory.
fn answer(p: &mut Prepared<'_>, query: &Query<'_>) -> Result<Answer, AllocError>
    ensures unchanged { p.new ≡ p.old }
    ensures told { IfOk result (λ a. IsToldBy p.old query.now.first.now query.now.second.now (answer_text a)) }
{
    let g = p.viewed.grammar();
    let Some(a) = find_item(g, p.run, 0, query.first) else {
        return Ok(Answer::Unknown);
    };
    let Some(b) = find_item(g, p.run, 0, query.second) else {
        return Ok(Answer::Unknown);
    };
    if !p.flat.shows(&a) {
        return Ok(Answer::Hidden);
    }
    if !p.flat.shows(&b) {
        return Ok(Answer::Hidden);
    }
    let told = path_answer(p, a, b)?;
    Ok(told)
}

impl Answerer for Prepared<'_> {
    ghost is_ready = { λ p. Unit {0} };

    ghost Known = { PreparedSeen };

    ghost is_known = { λ p k. k ≡ p };

    ghost words = { IsToldBy };

    ghost wants_memory = { Unit {0} };

    fn answer(&mut self, query: &Query<'_>) -> Result<Answer, AllocError> {
        answer(self, query)
    }
}

// The words of `lineage`, `impact`, `explain` and `verify`, and what they do.
ghost use Rattle.std.specs.Prelude.{[], map};
ghost use Rattle.wf_message.specs.Endings.{end_after};
ghost use Rattle.wf_stage.specs.Promises.{Obeys};
ghost use Rattle.cmd_explain.specs.Words.{listing_of, of_five, explaining_of, command_of, files_of};
ghost use Rattle.cmd_explain.specs.Does.{Does, meant, IsMeant};

use crate::explain::{ExplainWords, explain};
use crate::item::is_item;
use crate::listing::{ListingWords, list_items};
use crate::verify::{VerifyWords, verify};
use std::alloc::Global;
use wf_io::{Shelf, Sink};
use wf_lineage::Direction;
use wf_message::Stop;

/// A command, with the names of the files that it reads and those of items.
#[derive(Clone, Copy)]
pub enum Command<'w> {
    Lineage { words: ListingWords<'w> },
    Impact { words: ListingWords<'w> },
    Explain { words: ExplainWords<'w> },
    Verify { words: VerifyWords<'w> },
}

/// The command of five words that lists, if they are one: `lineage` or `impact`, three files and the name of an item.
fn listing_of<'w>(name: &str, words: ListingWords<'w>) -> Option<Command<'w>>
    ensures { IsMeant (listing_of name.now words.entry.spec.now words.entry.view.now words.entry.labels.now words.entry.item.now) result }
{
    if !is_item(words.item) {
        return None;
    }
    if name == "lineage" {
        return Some(Command::Lineage { words });
    }
    if name == "impact" {
        return Some(Command::Impact { words });
    }
    None
}

/// The command of five words, if they are one: `verify` and four files, or one that lists.
fn of_five<'w>(
    name: &str,
    spec: &'w str,
    view: &'w str,
    third: &'w str,
    last: &'w str,
) -> Option<Command<'w>>
    ensures { IsMeant (of_five name.now spec.now view.now third.now last.now) result }
{
    if name == "verify" {
        let words = VerifyWords {
            spec,
            view,
            events: third,
            chain: last,
        };
        return Some(Command::Verify { words });
    }
    let words = ListingWords {
        spec,
        view,
        labels: third,
        item: last,
    };
    listing_of(name, words)
}

/// The command of six words, if they are one: `explain`, three files and the names of two items.
fn explaining_of<'w>(name: &str, words: ExplainWords<'w>) -> Option<Command<'w>>
    ensures { IsMeant (explaining_of name.now words.entry.spec.now words.entry.view.now words.entry.events.now words.entry.first.now words.entry.second.now) result }
{
    if name != "explain" {
        return None;
    }
    if !is_item(words.first) {
        return None;
    }
    if !is_item(words.second) {
        return None;
    }
    Some(Command::Explain { words })
}

impl<'w> Command<'w> {
    /// The command that the words are, if they are one of these.
    pub fn command_of(words: &'w [&'w str]) -> Option<Command<'w>>
        ensures { IsMeant (command_of (map (λ w. w.now) words.now)) result }
    {
        match words {
            [command, spec, view, third, last] => of_five(command, spec, view, third, last),
            [command, spec, view, events, first, second] => explaining_of(
                command,
                ExplainWords {
                    spec,
                    view,
                    events,
                    first,
                    second,
                },
            ),
            _ => None,
        }
    }

    /// Does the command over the files of a shelf, and puts its text to `out`.
    pub fn obey<H: Shelf, O: Sink>(
        &self,
        alloc: Global,
        shelf: &mut H,
        out: &mut O,
    ) -> Result<(), Stop>
        ensures obeys { Obeys H.files H.readings H.faults H.at_last O.put_bytes O.faults O.at_last (files_of (meant self.now)) []
            (λ f. Does f (meant self.now)) shelf.old shelf.new out.old out.new (end_after result) }
    {
        match self {
            Command::Lineage { words } => {
                list_items(alloc, words, Direction::Upstream, shelf, out)
            }
            Command::Impact { words } => {
                list_items(alloc, words, Direction::Downstream, shelf, out)
            }
            Command::Explain { words } => explain(alloc, words, shelf, out),
            Command::Verify { words } => verify(alloc, words, shelf, out),
        }
    }
}

// The words of `export`, `gen` and `drill`, and what they do.
ghost use Rattle.std.specs.Prelude.{◌≡◌, [], Some, None, map, length, MatchOption};
ghost use Rattle.wf_message.specs.Endings.{end_after};
ghost use Rattle.wf_stage.specs.Promises.{Obeys};
ghost use Rattle.cmd_make.specs.Words.{command_of, files_of, most_expansions, greatest_seed, number_in, gen_of, drill_of};
ghost use Rattle.cmd_make.specs.Does.{Does, meant};

use crate::drill::{DrillWords, drill};
use crate::export::{ExportWords, export};
use crate::generate::{GenWords, generate};
use crate::number::{count_in, seed_in};
use std::alloc::Global;
use wf_io::{Shelf, Sink};
use wf_message::Stop;

/// A command, with the names of the files that it reads and the numbers that it is given: of expansions at most, and a seed.
#[derive(Clone, Copy)]
pub enum Command<'w> {
    Export { words: ExportWords<'w> },
    Gen { words: GenWords<'w> },
    Drill { words: DrillWords<'w> },
}

/// `gen` of a file and two words, if both are numbers.
fn gen_of<'w>(spec: &'w str, n: &str, seed: &str) -> Option<Command<'w>>
    ensures { MatchOption result (gen_of spec.now (number_in most_expansions n.now) (number_in greatest_seed seed.now) ≡ None)
        (λ c. gen_of spec.now (number_in most_expansions n.now) (number_in greatest_seed seed.now) ≡ Some (meant c)) }
{
    let n = count_in(n)?;
    let seed = seed_in(seed)?;
    Some(Command::Gen {
        words: GenWords { spec, n, seed },
    })
}

/// `drill` of two files and two words, if both are numbers.
fn drill_of<'w>(spec: &'w str, view: &'w str, n: &str, seed: &str) -> Option<Command<'w>>
    ensures { MatchOption result (drill_of spec.now view.now (number_in most_expansions n.now) (number_in greatest_seed seed.now) ≡ None)
        (λ c. drill_of spec.now view.now (number_in most_expansions n.now) (number_in greatest_seed seed.now) ≡ Some (meant c)) }
{
    let n = count_in(n)?;
    let seed = seed_in(seed)?;
    Some(Command::Drill {
        words: DrillWords {
            spec,
            view,
            n,
            seed,
        },
    })
}

/// `export` or `gen`, if four words are one of these.
fn command_of_four<'w>(words: &'w [&'w str]) -> Option<Command<'w>>
    requires { length words.now ≡ 4 }
    ensures { MatchOption result (command_of (map (λ w. w.now) words.now) ≡ None) (λ c. command_of (map (λ w. w.now) words.now) ≡ Some (meant c)) }
{
    let [command, spec, second, third] = words else {
        unreachable!();
    };
    if *command == "export" {
        return Some(Command::Export {
            words: ExportWords {
                spec,
                view: second,
                events: third,
            },
        });
    }
    if *command == "gen" {
        return gen_of(spec, second, third);
    }
    None
}

/// `drill`, if five words are this.
fn command_of_five<'w>(words: &'w [&'w str]) -> Option<Command<'w>>
    requires { length words.now ≡ 5 }
    ensures { MatchOption result (command_of (map (λ w. w.now) words.now) ≡ None) (λ c. command_of (map (λ w. w.now) words.now) ≡ Some (meant c)) }
{
    let [command, spec, view, n, seed] = words else {
        unreachable!();
    };
    if *command == "drill" {
        return drill_of(spec, view, n, seed);
    }
    None
}

impl<'w> Command<'w> {
    /// The command that the words are, if they are one of these. A word of a number that is none, or is too great, makes them none.
    pub fn command_of(words: &'w [&'w str]) -> Option<Command<'w>>
        ensures { MatchOption result (command_of (map (λ w. w.now) words.now) ≡ None) (λ c. command_of (map (λ w. w.now) words.now) ≡ Some (meant c)) }
    {
        if words.len() == 4 {
            return command_of_four(words);
        }
        if words.len() == 5 {
            return command_of_five(words);
        }
        None
    }

    /// Does the command over the files of a shelf, and puts its text to `out`.
    pub fn obey<H: Shelf, O: Sink>(
        &self,
        alloc: Global,
        shelf: &mut H,
        out: &mut O,
    ) -> Result<(), Stop>
        ensures obeys { Obeys H.files H.readings H.faults H.at_last O.put_bytes O.faults O.at_last (files_of (meant self.now)) []
            (λ f. Does f (meant self.now)) shelf.old shelf.new out.old out.new (end_after result) }
    {
        match self {
            Command::Export { words } => export(alloc, words, shelf, out),
            Command::Gen { words } => generate(alloc, words, shelf, out),
            Command::Drill { words } => drill(alloc, words, shelf, out),
        }
    }
}

// The words of `package`, `consult` and `compare`, and what they do.
ghost use Rattle.std.specs.Prelude.{◌≡◌, [], Some, None, map, MatchOption};
ghost use Rattle.wf_message.specs.Endings.{end_after, NoMemory};
ghost use Rattle.wf_stage.specs.Promises.{Obeys};
ghost use Rattle.hex.specs.Hex.{decode_of};
ghost use Rattle.cmd_share.specs.Words.{command_of, command_of_two, command_of_three, consult_of, files_of};
ghost use Rattle.cmd_share.specs.Does.{Does, meant};

use crate::compare::{CompareWords, compare_views};
use crate::consult::{ConsultWords, consult};
use crate::package::{PackageWords, package_view};
use label_words::{HexWord, is_hex};
use std::alloc::Global;
use wf_io::{Shelf, Sink};
use wf_message::Stop;

/// A command, with the names of the files that it reads, and the digits of the labels that it is given.
#[derive(Clone, Copy)]
pub enum Command<'w> {
    Package { words: PackageWords<'w> },
    Consult { words: ConsultWords<'w> },
    Compare { words: CompareWords<'w> },
}

/// `consult` of a file and of two words, if these are the digits of labels.
fn consult_of<'w>(source: &'w str, first: &'w str, second: &'w str) -> Option<Command<'w>>
    ensures { MatchOption result (consult_of source.now (decode_of first.now) (decode_of second.now) ≡ None)
        (λ c. consult_of source.now (decode_of first.now) (decode_of second.now) ≡ Some (meant c)) }
{
    if is_hex(first) && is_hex(second) {
        Some(Command::Consult {
            words: ConsultWords {
                source,
                first: HexWord { word: first },
                second: HexWord { word: second },
            },
        })
    } else {
        None
    }
}

/// The command that its name and two words are, if they are one of these.
fn of_two<'w>(name: &str, spec: &'w str, view: &'w str) -> Option<Command<'w>>
    ensures { MatchOption result (command_of_two name.now spec.now view.now ≡ None) (λ c. command_of_two name.now spec.now view.now ≡ Some (meant c)) }
{
    if name == "package" {
        let words = PackageWords { spec, view };
        Some(Command::Package { words })
    } else {
        None
    }
}

/// The command that its name and three words are, if they are one of these.
fn of_three<'w>(name: &str, first: &'w str, second: &'w str, third: &'w str) -> Option<Command<'w>>
    ensures { MatchOption result (command_of_three name.now first.now second.now third.now ≡ None)
        (λ c. command_of_three name.now first.now second.now third.now ≡ Some (meant c)) }
{
    if name == "compare" {
        let words = CompareWords {
            spec: first,
            view: second,
            coarse: third,
        };
        Some(Command::Compare { words })
    } else if name == "consult" {
        consult_of(first, second, third)
    } else {
        None
    }
}

impl<'w> Command<'w> {
    /// The command that the words are, if they are one of these.
    pub fn command_of(words: &'w [&'w str]) -> Option<Command<'w>>
        ensures { MatchOption result (command_of (map (λ w. w.now) words.now) ≡ None) (λ c. command_of (map (λ w. w.now) words.now) ≡ Some (meant c)) }
    {
        match words {
            [name, spec, view] => of_two(name, spec, view),
            [name, first, second, third] => of_three(name, first, second, third),
            _ => None,
        }
    }

    /// Does the command over the files of a shelf, and puts its text to `out`. Where memory is wanting, nothing was put.
    pub fn obey<H: Shelf, O: Sink>(
        &self,
        alloc: Global,
        shelf: &mut H,
        out: &mut O,
    ) -> Result<(), Stop>
        ensures obeys { Obeys H.files H.readings H.faults H.at_last O.put_bytes O.faults O.at_last (files_of (meant self.now)) []
            (λ f. Does f (meant self.now)) shelf.old shelf.new out.old out.new (end_after result) }
        ensures untouched { end_after result ≡ NoMemory → (O.put_bytes out.new ≡ O.put_bytes out.old) × (O.faults out.new ≡ O.faults out.old) }
    {
        match self {
            Command::Package { words } => package_view(alloc, words, shelf, out),
            Command::Consult { words } => consult(alloc, words, shelf, out),
            Command::Compare { words } => compare_views(alloc, words, shelf, out),
        }
    }
}

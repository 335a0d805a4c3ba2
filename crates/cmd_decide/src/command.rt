// The words of `decide`, and what it does.
ghost use Rattle.std.specs.Prelude.{◌≡◌, [], Some, None, map, MatchOption};
ghost use Rattle.wf_message.specs.Endings.{end_after};
ghost use Rattle.wf_stage.specs.Promises.{Obeys};
ghost use Rattle.cmd_decide.specs.Words.{command_of, files_of};
ghost use Rattle.cmd_decide.specs.Does.{Does, meant};

use crate::decide::decide;
use crate::words::DecideWords;
use label_words::{HexWord, is_hex};
use std::alloc::Global;
use wf_io::{Shelf, Sink};
use wf_message::Stop;

/// A command, with the names of the files that it reads and the digits of the labels that it is given.
#[derive(Clone, Copy)]
pub enum Command<'w> {
    Decide { words: DecideWords<'w> },
}

impl<'w> Command<'w> {
    /// The command that the words are, if they are `decide`, two files and the digits of two labels.
    pub fn command_of(words: &'w [&'w str]) -> Option<Command<'w>>
        ensures { MatchOption result (command_of (map (λ w. w.now) words.now) ≡ None) (λ c. command_of (map (λ w. w.now) words.now) ≡ Some (meant c)) }
    {
        match words {
            [command, spec, view, first, second] => {
                if *command == "decide" && is_hex(first) && is_hex(second) {
                    Some(Command::Decide {
                        words: DecideWords {
                            spec,
                            view,
                            first: HexWord { word: first },
                            second: HexWord { word: second },
                        },
                    })
                } else {
                    None
                }
            }
            _ => None,
        }
    }

    /// Does the command over the files of a shelf, and puts its text to `out`.
    pub fn obey<H: Shelf, O: Sink>(
        &self,
        alloc: Global,
        shelf: &mut H,
        out: &mut O,
    ) -> Result<(), Stop>
        ensures obeys { Obeys H.files H.readings H.faults H.at_last O.put_bytes O.faults O.at_last (files_of (meant self.now)) []
            (λ f. Does f (meant self.now)) shelf.old shelf.new out.old out.new (end_after result) }
    {
        match self {
            Command::Decide { words } => decide(alloc, words, shelf, out),
        }
    }
}

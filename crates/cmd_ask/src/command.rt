// The words of `trace` and `ask`, and what they do.
ghost use Rattle.std.specs.Prelude.{◌≡◌, [], Some, None, map, MatchOption};
ghost use Rattle.wf_message.specs.Endings.{end_after, NoMemory};
ghost use Rattle.wf_stage.specs.Promises.{Obeys};
ghost use Rattle.cmd_ask.specs.Words.{command_of, files_of, IsAsk};
ghost use Rattle.cmd_ask.specs.Does.{Does, meant};

use crate::ask::{AskWords, ask};
use crate::trace::{TraceWords, trace};
use std::alloc::Global;
use wf_io::{Shelf, Sink};
use wf_message::Stop;

/// A command, with the names of the files that it reads.
#[derive(Clone, Copy)]
pub enum Command<'w> {
    Trace { words: TraceWords<'w> },
    Ask { words: AskWords<'w> },
}

impl<'w> Command<'w> {
    /// The command that the words are, if they are one of these.
    pub fn command_of(words: &'w [&'w str]) -> Option<Command<'w>>
        ensures { MatchOption result (command_of (map (λ w. w.now) words.now) ≡ None) (λ c. command_of (map (λ w. w.now) words.now) ≡ Some (meant c)) }
    {
        match words {
            [command, spec, view, third, queries] => {
                if *command == "trace" {
                    Some(Command::Trace {
                        words: TraceWords {
                            spec,
                            view,
                            events: third,
                            queries,
                        },
                    })
                } else if *command == "ask" {
                    Some(Command::Ask {
                        words: AskWords {
                            spec,
                            view,
                            labels: third,
                            queries,
                        },
                    })
                } else {
                    None
                }
            }
            _ => None,
        }
    }

    /// Does a command. Where `ask` wants memory, no answer was put.
    pub fn obey<H: Shelf, O: Sink>(
        &self,
        alloc: Global,
        shelf: &mut H,
        out: &mut O,
    ) -> Result<(), Stop>
        ensures obeys { Obeys H.files H.readings H.faults H.at_last O.put_bytes O.faults O.at_last (files_of (meant self.now)) []
            (λ f. Does f (meant self.now)) shelf.old shelf.new out.old out.new (end_after result) }
        ensures untouched { end_after result ≡ NoMemory → IsAsk (meant self.now) →
            (O.put_bytes out.new ≡ O.put_bytes out.old) × (O.faults out.new ≡ O.faults out.old) }
    {
        match self {
            Command::Trace { words } => trace(alloc, words, shelf, out),
            Command::Ask { words } => ask(alloc, words, shelf, out),
        }
    }
}

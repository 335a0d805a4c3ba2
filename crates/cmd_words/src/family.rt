// The family of `words`.
use crate::command::command_of;
use crate::words::obey;
use std::alloc::Global;
use wf_io::{Shelf, Sink};
use wf_message::{Ending, ending_after};
use wf_stage::Commands;

/// `words` as a family of commands.
pub struct Family;

impl Commands for Family {
    ghost use Rattle.wf_stage.specs.Families.{HaveOneOutcome, HaveOutcomes, AreDoneWhereGood};
    ghost use Rattle.cmd_words.specs.Family.{words_commands};

    ghost family = { words_commands };

    fn obey<H: Shelf, O: Sink>(
        alloc: Global,
        words: &[&str],
        shelf: &mut H,
        out: &mut O,
    ) -> Ending {
        match command_of(words) {
            Some(files) => ending_after(obey(alloc, &files, shelf, out)),
            None => Ending::Usage,
        }
    }

    fn one_outcome()
        ensures { HaveOneOutcome words_commands }
    {}

    fn some_outcome()
        ensures { HaveOutcomes words_commands }
    {}

    fn good_call()
        ensures { AreDoneWhereGood words_commands }
    {}
}

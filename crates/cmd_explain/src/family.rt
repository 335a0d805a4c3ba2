// The family of `lineage`, `impact`, `explain` and `verify`.
use crate::command::Command;
use std::alloc::Global;
use wf_io::{Shelf, Sink};
use wf_message::{Ending, ending_after};
use wf_stage::Commands;

/// `lineage`, `impact`, `explain` and `verify` as a family of commands.
pub struct Family;

impl Commands for Family {
    ghost use Rattle.wf_stage.specs.Families.{HaveOneOutcome, HaveOutcomes, AreDoneWhereGood};
    ghost use Rattle.cmd_explain.specs.Family.{explain_commands};

    ghost family = { explain_commands };

    fn obey<H: Shelf, O: Sink>(
        alloc: Global,
        words: &[&str],
        shelf: &mut H,
        out: &mut O,
    ) -> Ending {
        match Command::command_of(words) {
            Some(command) => ending_after(command.obey(alloc, shelf, out)),
            None => Ending::Usage,
        }
    }

    fn one_outcome()
        ensures { HaveOneOutcome explain_commands }
    {}

    fn some_outcome()
        ensures { HaveOutcomes explain_commands }
    {}

    fn good_call()
        ensures { AreDoneWhereGood explain_commands }
    {}
}

// How the lines of a chain stand, as they are taken one by one.
ghost use Rattle.std.specs.Prelude.{◌≡◌, [], List};
ghost use Rattle.wf_chain.specs.ViewedRuns.{grammar_in, view_in, full_in, events_in, IsVisibleIn};
ghost use Rattle.wf_reason.specs.ChainLines.{ItemLine, ViaLine, turn_behind, line_at};
ghost use Rattle.wf_reason.specs.HandedIn.{HandedLine, said};
ghost use Rattle.wf_reason.specs.declared.turn.Turn.TheVariants.{Item as ItemTurn};
ghost use Rattle.wf_reason.specs.Checked.{IsCheckedText, checked_text, last_of};
ghost use Rattle.wf_reason.specs.Standing.{IsConsumer, IsOfRun, LeadTo, LeadInto, Stands, with_one};

use crate::checked::Checked;
use crate::naming::{Consumer, find_consumer, next_item, visible_item};
use wf_chain::ViewedRun;
use wf_flat::Item;

/// How the lines stand that were taken so far.
#[derive(Clone, Copy)]
pub(crate) enum Standing {
    /// There are none.
    Begun,
    /// They lead to this item: by steps, or it is the first.
    AtItem { item: Item, stepped: bool },
    /// They lead to this item, and to this instance, which consumes it.
    AtInstance { item: Item, by: Consumer },
    /// The line of this number is the first that is wrong.
    Wrong { line: u64 },
}

impl Standing {
    /// How lines stand that begin with the line of a number, which names an item.
    fn first(run: &ViewedRun<'_>, line: u64, name: &[u8]) -> Standing
        ensures of_run { IsOfRun run.now result }
        ensures stands { Stands run.now result (with_one [] line (ItemLine name.now)) }
    {
        match visible_item(run, name) {
            Some(item) => Standing::AtItem {
                item,
                stepped: false,
            },
            None => Standing::Wrong { line },
        }
    }

    /// How they stand behind an item, with the line of a number, which names an instance.
    fn instance(run: &ViewedRun<'_>, item: Item, line: u64, name: &[u8]) -> Standing
        requires item { IsVisibleIn run.now item }
        ensures of_run { IsOfRun run.now result }
        ensures stands { (lines : List HandedLine) → LeadTo run.now (said lines) item → Stands run.now result (with_one lines line (ViaLine name.now)) }
    {
        // Two items of a run differ in their names, and so do two instances.
        let _run = run.run();
        match find_consumer(run, &item, name) {
            Some(by) => Standing::AtInstance { item, by },
            None => Standing::Wrong { line },
        }
    }

    /// How they stand behind an instance, with the line of a number, which names an item.
    fn step(run: &ViewedRun<'_>, first: Item, by: Consumer, line: u64, name: &[u8]) -> Standing
        requires by { IsConsumer run.now first by }
        ensures of_run { IsOfRun run.now result }
        ensures stands { (lines : List HandedLine) → LeadInto run.now (said lines) first by → Stands run.now result (with_one lines line (ItemLine name.now)) }
    {
        // Two items of a run differ in their names, and so do two instances.
        let _run = run.run();
        match next_item(run, &first, by, name) {
            Some(item) => Standing::AtItem {
                item,
                stepped: true,
            },
            None => Standing::Wrong { line },
        }
    }

    /// How the lines stand with one more, of a number, which names an item or an instance, as its turn is.
    ///
    /// Cost: that of finding the name, and one step for each entry and exit on the way. Takes no memory.
    pub(crate) fn with_line(self, run: &ViewedRun<'_>, line: u64, name: &[u8]) -> Standing
        requires { IsOfRun run.now self }
        ensures of_run { IsOfRun run.now result }
        ensures stands { (lines : List HandedLine) → Stands run.now self lines →
            Stands run.now result (with_one lines line (line_at (turn_behind ItemTurn lines) name.now)) }
    {
        match self {
            Standing::Begun => Standing::first(run, line, name),
            Standing::AtItem { item, stepped: _ } => Standing::instance(run, item, line, name),
            Standing::AtInstance { item, by } => Standing::step(run, item, by, line, name),
            Standing::Wrong { line } => Standing::Wrong { line },
        }
    }

    /// What is said of lines that stand so, where the last has this number.
    pub(crate) fn checked(self, run: &ViewedRun<'_>, last: u64) -> Checked
        requires { IsOfRun run.now self }
        ensures { (lines : List HandedLine) → Stands run.now self lines → last ≡ last_of 0 lines →
            IsCheckedText (grammar_in run.now) (view_in run.now) (full_in run.now) (grammar_in run.now).start (events_in run.now) lines (checked_text result) }
    {
        match self {
            Standing::Begun => Checked::Unended { last },
            Standing::AtItem { item: _, stepped } => {
                if stepped {
                    Checked::Chain
                } else {
                    Checked::Unended { last }
                }
            }
            Standing::AtInstance { item: _, by: _ } => Checked::Unended { last },
            Standing::Wrong { line } => Checked::Wrong { line },
        }
    }
}

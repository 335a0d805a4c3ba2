// A report is begun: its event is applied where it is ready, and the report is held where it is not.
ghost use Rattle.std.specs.Prelude.{◌≡◌, ◌≤◌, ℕ, IfErr, OnOk, OnErr};
ghost use Rattle.wf_inbox.specs.Inboxes.{IsOrphan, NoneHeld};
ghost use Rattle.wf_intake.specs.Rounds.{held_count};
ghost use Rattle.wf_intake.specs.Growing.{StaysRun, BeginsReport, StopsAtOne};

use crate::fault::IntakeFault;
use crate::grows::Grows;
use crate::reported::Reported;
use crate::round::{apply_event, mark_made};
use crate::standing::{Standing, standing_of};
use wf_inbox::{Inbox, InboxFault};
use wf_model::Event;

/// Begins to take the report of an event by the line of a number. If its event is ready it is applied, and held reports may come to be ready by it, whose events `apply_next` applies one by one, the first of them first; the report is taken once none is ready. If it is not ready the report is held. A repetition of a report is ignored.
///
/// Errors: `Conflict` where the report before on its subject reports another event; `Refused` where the event is ready and the run refuses it; `NoMemory`, which comes also for a line past 4,294,967,295. After each of them the inbox, the lines, the run and its text are as they were: the report is not known, and others can be taken.
///
/// Cost: one look-up where its instance stands, and that of applying its event; for a report that is not ready one look-up where it is known, a copy of its names, and a place in a heap; for each name of an applied event one look-up, where a report is held.
pub fn begin_report<R: Grows>(
    inbox: &mut Inbox<'_>,
    reported: &mut Reported,
    run: &mut R,
    line: u64,
    event: &Event,
) -> Result<(), IntakeFault>
    ensures begun { OnOk result (BeginsReport R.grammar R.most R.is_run R.written R.text inbox.old reported.old run.old inbox.new reported.new run.new line event.now) }
    ensures holds { OnOk result (held_count inbox.old.kept ≤ held_count inbox.new.kept) }
    ensures stopped { IfErr result (StopsAtOne R.grammar R.most R.is_run R.written R.text inbox.old reported.old run.old run.new line event.now) }
    ensures same_inbox { OnErr result (inbox.new.kept ≡ inbox.old.kept) }
    ensures same_lines { OnErr result (reported.new ≡ reported.old) }
    ensures same_run { OnErr result (StaysRun R.is_run run.old run.new) }
    ensures same_text { OnErr result (R.text run.new ≡ R.text run.old) }
    ensures grammar { R.grammar run.new ≡ R.grammar run.old }
    ensures most { R.most run.new ≡ R.most run.old }
    ensures known { (k : R.Known) → R.is_known run.old k → R.is_known run.new k }
{
    match standing_of(reported, run, event) {
        Standing::Same => Ok(()),
        Standing::Other { earlier } => Err(IntakeFault::Conflict { line, earlier }),
        Standing::Ready { number } => {
            apply_event(inbox, reported, run, line, number, event)?;
            mark_made(inbox, event);
            Ok(())
        }
        Standing::Early => match inbox.offer(line, event, false) {
            Ok(_) => Ok(()),
            Err(InboxFault::Conflict { earlier }) => Err(IntakeFault::Conflict { line, earlier }),
            Err(InboxFault::NoMemory) => Err(IntakeFault::NoMemory),
        },
    }
}

/// Whether no report is held any more.
///
/// Errors: `Orphan` with the line of the first report that is held.
pub fn none_held(inbox: &Inbox<'_>) -> Result<(), IntakeFault>
    ensures none { OnOk result (NoneHeld inbox.now.kept) }
    ensures orphan { IfErr result (λ f. (line : ℕ) × (f ≡ IntakeFault.Orphan line) × IsOrphan inbox.now.kept line) }
{
    match inbox.orphan() {
        None => Ok(()),
        Some(line) => Err(IntakeFault::Orphan { line }),
    }
}

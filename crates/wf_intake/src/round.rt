// One round of the intake: the first report that is ready is let go, and its event applied.
ghost use Rattle.std.specs.Prelude.{◌≡◌, ◌≤◌, ◌+◌, length, false, cond, Some, IfOk, IfErr, OnOk, OnErr};
ghost use Rattle.wf_model.specs.declared.event.RunFault.{RunFault};
ghost use Rattle.wf_model.specs.declared.event.RunFault.TheVariants.{NoMemory};
ghost use Rattle.report_model.specs.Intake.{ReportFault, Refused};
ghost use Rattle.wf_inbox.specs.Inboxes.{NoneReady};
ghost use Rattle.wf_intake.specs.declared.fault.IntakeFault.TheVariants.{NoMemory as WantsMemory};
ghost use Rattle.wf_intake.specs.Reported.{with_places, noted};
ghost use Rattle.wf_intake.specs.Intakes.{fault_told};
ghost use Rattle.wf_intake.specs.Rounds.{names_given, all_marked, held_count};
ghost use Rattle.wf_intake.specs.Growing.{IsNumberFor, StaysRun, AppliesEvent, RefusesEvent, DoesRounds, StopsRounds, ForgetsRefused};

use crate::fault::IntakeFault;
use crate::grows::Grows;
use crate::reported::{Reported, kept_for};
use std::alloc::AllocError;
use wf_inbox::Inbox;
use wf_model::{Event, Name, RunFault};

/// The number of the instance that an event expands.
fn number_of<R: Grows>(run: &R, event: &Event) -> Option<u32>
    ensures { IsNumberFor R.grammar R.is_run run.now event.now result }
{
    match event {
        Event::Start { .. } => None,
        Event::Expand { instance, .. } => run.find(instance.bytes()),
    }
}

/// How many names an event gives to instances.
fn count_names(event: &Event) -> usize
    ensures { result ≡ length (names_given event.now) }
{
    match event {
        Event::Start { .. } => 1,
        Event::Expand { names, .. } => names.items().len(),
    }
}

/// Makes room for the names that an event gives, and places for their instances. After an error the lines are as they were, and so are the reports in any case.
fn make_room(
    inbox: &mut Inbox<'_>,
    reported: &mut Reported,
    event: &Event,
) -> Result<(), AllocError>
    ensures room { OnOk result (length (names_given event.now) ≤ inbox.new.spare) }
    ensures kept { inbox.new.kept ≡ inbox.old.kept }
    ensures places { OnOk result (reported.new ≡ with_places reported.old (length (names_given event.now))) }
    ensures same { OnErr result (reported.new ≡ reported.old) }
{
    let count = count_names(event);
    let Ok(few) = u32::try_from(count) else {
        return Err(AllocError);
    };
    inbox.reserve(few)?;
    reported.add(count)
}

/// The instances of these names stand.
fn mark_all(inbox: &mut Inbox<'_>, names: &[Name])
    requires { length names.now ≤ inbox.old.spare }
    ensures { inbox.new.kept ≡ all_marked names.now inbox.old.kept }
{
    let mut left = names;
    while let [first, rest @ ..] = left {
        inbox.stands(first.bytes());
        left = rest;
    }
}

/// The instances that an event made stand.
pub(crate) fn mark_made(inbox: &mut Inbox<'_>, event: &Event)
    requires { length (names_given event.now) ≤ inbox.old.spare }
    ensures { inbox.new.kept ≡ all_marked (names_given event.now) inbox.old.kept }
{
    match event {
        Event::Start { name } => inbox.stands(name.bytes()),
        Event::Expand { names, .. } => mark_all(inbox, names.items()),
    }
}

/// Why a report is refused where the run refuses its event.
fn refusal(line: u64, fault: RunFault) -> IntakeFault
    ensures memory { fault ≡ NoMemory → result ≡ WantsMemory }
    ensures of_memory { result ≡ WantsMemory → fault ≡ NoMemory }
    ensures told { (r : ReportFault) → fault_told result ≡ Some r → r ≡ Refused line fault }
{
    match fault {
        RunFault::NoMemory => IntakeFault::NoMemory,
        _ => IntakeFault::Refused { line, fault },
    }
}

/// Applies the event of a report, and notes its line. The number is that of the instance that it expands. There is room then for the names that it gives. After an error the reports, the lines, the run and its text are as they were.
pub(crate) fn apply_event<R: Grows>(
    inbox: &mut Inbox<'_>,
    reported: &mut Reported,
    run: &mut R,
    line: u64,
    number: Option<u32>,
    event: &Event,
) -> Result<(), IntakeFault>
    requires { IsNumberFor R.grammar R.is_run run.old event.now number }
    ensures applied { OnOk result (AppliesEvent R.grammar R.most R.is_run R.written R.text run.old run.new event.now) }
    ensures noted { OnOk result (reported.new ≡ noted reported.old number line event.now) }
    ensures room { OnOk result (length (names_given event.now) ≤ inbox.new.spare) }
    ensures refused { IfErr result (RefusesEvent R.grammar R.most R.is_run R.written R.text run.old run.new line event.now) }
    ensures told { IfErr result (λ f. (r : ReportFault) → fault_told f ≡ Some r → (fault : RunFault) × (r ≡ Refused line fault)) }
    ensures same_inbox { inbox.new.kept ≡ inbox.old.kept }
    ensures same_lines { OnErr result (reported.new ≡ reported.old) }
    ensures same_run { OnErr result (StaysRun R.is_run run.old run.new) }
    ensures same_text { OnErr result (R.text run.new ≡ R.text run.old) }
    ensures grammar { R.grammar run.new ≡ R.grammar run.old }
    ensures most { R.most run.new ≡ R.most run.old }
    ensures known { (k : R.Known) → R.is_known run.old k → R.is_known run.new k }
{
    let by = kept_for(line, event)?;
    make_room(inbox, reported, event)?;
    match run.apply(number, event) {
        Ok(()) => {
            reported.note(number, line, event, by);
            Ok(())
        }
        Err(fault) => {
            reported.drop_last(count_names(event));
            Err(refusal(line, fault))
        }
    }
}

/// Applies the event of the first report that is held and ready, and lets the report go. False where none is ready. One event is applied at most, so a caller can hand its text on before the next.
///
/// Errors: `Refused` where the run refuses the event, with the line of its report, which is then neither held nor known any more; `NoMemory`, and then the report is held as before. At each of them the lines, the run and its text are as they were, and more reports can be taken.
///
/// Cost: that of making the event anew, of looking its instance up and of applying it; for each of its names one look-up.
pub fn apply_next<R: Grows>(
    inbox: &mut Inbox<'_>,
    reported: &mut Reported,
    run: &mut R,
) -> Result<bool, IntakeFault>
    ensures round { OnOk result (DoesRounds R.grammar R.most R.is_run R.written R.text inbox.old reported.old run.old inbox.new reported.new run.new) }
    ensures last { IfOk result (λ more. more ≡ false → NoneReady inbox.new.kept) }
    ensures one { IfOk result (λ more. held_count inbox.old.kept ≡ held_count inbox.new.kept + cond more 1 0) }
    ensures stopped { IfErr result (StopsRounds R.grammar R.most R.is_run R.written R.text inbox.old reported.old run.old run.new) }
    ensures others { IfErr result (ForgetsRefused R.grammar R.is_run inbox.old reported.old run.old inbox.new reported.new run.new) }
    ensures same_inbox { IfErr result (λ f. f ≡ WantsMemory → inbox.new.kept ≡ inbox.old.kept) }
    ensures same_lines { OnErr result (reported.new ≡ reported.old) }
    ensures same_run { OnErr result (StaysRun R.is_run run.old run.new) }
    ensures same_text { OnErr result (R.text run.new ≡ R.text run.old) }
    ensures grammar { R.grammar run.new ≡ R.grammar run.old }
    ensures most { R.most run.new ≡ R.most run.old }
    ensures known { (k : R.Known) → R.is_known run.old k → R.is_known run.new k }
{
    let Some(held) = inbox.first()? else {
        return Ok(false);
    };
    let number = number_of(run, &held.event);
    match apply_event(inbox, reported, run, held.line, number, &held.event) {
        Ok(()) => {
            inbox.let_go_first();
            mark_made(inbox, &held.event);
            Ok(true)
        }
        Err(IntakeFault::NoMemory) => Err(IntakeFault::NoMemory),
        Err(refused) => {
            inbox.let_go_first();
            Err(refused)
        }
    }
}

// All that the program does.
ghost use Rattle.std.specs.Prelude.{◌≡◌, ◌↔◌, ◌≤◌, None, map};
ghost use Rattle.wf_io.specs.Told.{Rose};
ghost use Rattle.wf_io.specs.Readings.{AreReadInTurn};
ghost use Rattle.wf_message.specs.Endings.{end_by, status_of, NoMemory};
ghost use Rattle.wf_top.specs.Outcome.{command_of, files_of, PutsNothingWanting};
ghost use Rattle.wf_top.specs.Meets.{HasEnded, EndsAsTold};
ghost use Rattle.wf_top.specs.Counts.{HasCounts};

use crate::families::Families;
use std::alloc::Global;
use wf_io::{Shelf, Sink};
use wf_message::{Ending, Status, status_of, tell};
use wf_stage::Commands;

/// Does what the words say over the files of a shelf: text goes to `out`, and a line on a refusal or a fault to `err`.
///
/// Each family of commands says in its crate what its commands write, and FORMATS.md has their words and messages. `IsOutcome` (specs/Outcome) says it of all of them.
///
/// A call that ends for want of memory, or at a failed write, has put a beginning of its text. Where memory is wanting, a command of which its family says so (`PutsNothingWanting`) has put nothing.
pub fn run<H: Shelf, O: Sink, E: Sink>(
    alloc: Global,
    words: &[&str],
    shelf: &mut H,
    out: &mut O,
    err: &mut E,
) -> Status
    ensures ended { HasEnded (H.files shelf.old) (map (λ w. w.now) words.now) result (O.put_bytes out.old)
        (O.put_bytes out.new) (E.put_bytes err.old) (E.put_bytes err.new) (E.faults err.old) (E.faults err.new) (E.at_last err.new) }
    ensures usage { (result ≡ Status.Usage) ↔ (command_of (map (λ w. w.now) words.now) ≡ None) }
    ensures quiet { result ≡ Status.Usage → (O.put_bytes out.new ≡ O.put_bytes out.old) ×
        (H.faults shelf.new ≡ H.faults shelf.old) × (O.faults out.new ≡ O.faults out.old) }
    ensures done { result ≡ Status.Done → (H.faults shelf.new ≡ H.faults shelf.old) × (O.faults out.new ≡ O.faults out.old) }
    ensures refused { result ≡ Status.Refused → (H.faults shelf.new ≡ H.faults shelf.old) × (O.faults out.new ≡ O.faults out.old) }
    ensures read { result ≡ Status.ReadFault → Rose (H.faults shelf.old) (H.faults shelf.new) (H.at_last shelf.new) × (O.faults out.new ≡ O.faults out.old) }
    ensures write { result ≡ Status.WriteFault → Rose (O.faults out.old) (O.faults out.new) (O.at_last out.new) × (H.faults shelf.new ≡ H.faults shelf.old) }
    ensures wanting { result ≡ Status.NoMemory → (H.faults shelf.new ≡ H.faults shelf.old) × (O.faults out.new ≡ O.faults out.old) }
    ensures untouched { result ≡ Status.NoMemory → PutsNothingWanting (command_of (map (λ w. w.now) words.now)) →
        (O.put_bytes out.new ≡ O.put_bytes out.old) × (O.faults out.new ≡ O.faults out.old) }
    ensures in_turn { AreReadInTurn (files_of (command_of (map (λ w. w.now) words.now))) (H.readings shelf.old) (H.readings shelf.new) }
    ensures same { H.files shelf.new ≡ H.files shelf.old }
    ensures later { H.faults shelf.old ≤ H.faults shelf.new }
    ensures put_later { O.faults out.old ≤ O.faults out.new }
    ensures told_later { E.faults err.old ≤ E.faults err.new }
{
    let ending = perform(alloc, words, shelf, out);
    tell(err, &ending);
    status_of(&ending)
}

/// Does what the words say, but for the line on `err`.
fn perform<H: Shelf, O: Sink>(alloc: Global, words: &[&str], shelf: &mut H, out: &mut O) -> Ending
    ensures outcome { EndsAsTold (H.files shelf.old) (map (λ w. w.now) words.now) (end_by result) (O.put_bytes out.old) (O.put_bytes out.new) }
    ensures usage { (result ≡ Ending.Usage) ↔ (command_of (map (λ w. w.now) words.now) ≡ None) }
    ensures quiet { result ≡ Ending.Usage → O.put_bytes out.new ≡ O.put_bytes out.old }
    ensures counts { HasCounts (H.faults shelf.old) (H.faults shelf.new) (H.at_last shelf.new)
        (O.faults out.old) (O.faults out.new) (O.at_last out.new) (status_of (end_by result)) }
    ensures untouched { end_by result ≡ NoMemory → PutsNothingWanting (command_of (map (λ w. w.now) words.now)) → O.put_bytes out.new ≡ O.put_bytes out.old }
    ensures in_turn { AreReadInTurn (files_of (command_of (map (λ w. w.now) words.now))) (H.readings shelf.old) (H.readings shelf.new) }
    ensures same { H.files shelf.new ≡ H.files shelf.old }
    ensures later { H.faults shelf.old ≤ H.faults shelf.new }
    ensures put_later { O.faults out.old ≤ O.faults out.new }
{
    Families::obey(alloc, words, shelf, out)
}

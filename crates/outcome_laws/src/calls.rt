// Calls of the program that come to their outcome.
ghost use Rattle.std.specs.Prelude.{◌≡◌, ◌⊎◌, ℕ, List, Some, map};
ghost use Rattle.wf_io.specs.Told.{File, Rose};
ghost use Rattle.wf_io.specs.Stored.{stored_whole};
ghost use Rattle.wf_message.specs.Endings.{End};
ghost use Rattle.wf_top.specs.Meets.{HasEnded};
ghost use Rattle.wf_top.specs.Outcome.{IsOutcome};
ghost use Rattle.outcome_laws.specs.GoodCalls.{IsGoodCall, EndedAs, IsComplete};

use crate::law::{good_call_law, one_outcome_law};
use std::alloc::Global;
use wf_io::{PlainShelf, PlainSink, Shelf, Sink};
use wf_top::{Status, run};

/// Calls `run`, and ends as it does.
///
/// Over a shelf that tells its files: where no write fails, the call ends as the outcome of the words and the files says and `out` gets its text, or memory is wanting. Where the call is good too, all is done, or memory is wanting.
pub fn call<H: Shelf, O: Sink, E: Sink>(
    alloc: Global,
    words: &[&str],
    shelf: &mut H,
    out: &mut O,
    err: &mut E,
) -> Status
    ensures ended { HasEnded (H.files shelf.old) (map (λ w. w.now) words.now) result (O.put_bytes out.old) (O.put_bytes out.new)
        (E.put_bytes err.old) (E.put_bytes err.new) (E.faults err.old) (E.faults err.new) (E.at_last err.new) }
    ensures as_told { (f : List ℕ → File) → H.files shelf.old ≡ Some f → (Rose (O.faults out.old) (O.faults out.new) (O.at_last out.new) → ⊥)
        → (e : End) (text : List ℕ) → IsOutcome f (map (λ w. w.now) words.now) e text → EndedAs e text result (O.put_bytes out.old) (O.put_bytes out.new) }
    ensures complete { (f : List ℕ → File) → H.files shelf.old ≡ Some f → (Rose (O.faults out.old) (O.faults out.new) (O.at_last out.new) → ⊥)
        → IsGoodCall f (map (λ w. w.now) words.now) → IsComplete f (map (λ w. w.now) words.now) result (O.put_bytes out.old) (O.put_bytes out.new) }
{
    one_outcome_law();
    good_call_law();
    run(alloc, words, shelf, out, err)
}

/// Calls `run` over whole files in memory and a sink that counts bytes. Neither ever fails: where the call is good, all is done, or memory is wanting.
pub fn call_plain<E: Sink>(
    alloc: Global,
    words: &[&str],
    shelf: &mut PlainShelf,
    out: &mut PlainSink,
    err: &mut E,
) -> Status
    ensures complete { IsGoodCall (stored_whole shelf.old) (map (λ w. w.now) words.now) → (result ≡ Status.Done) ⊎ (result ≡ Status.NoMemory) }
{
    call(alloc, words, shelf, out, err)
}

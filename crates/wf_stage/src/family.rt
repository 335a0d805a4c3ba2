// Families of commands, and two families as one.
ghost use Rattle.std.specs.Prelude.{◌≡◌, ◌↔◌, [], Some, None, map};
ghost use Rattle.wf_message.specs.Endings.{end_by, NoMemory};
ghost use Rattle.wf_stage.specs.Promises.{Obeys};
ghost use Rattle.wf_stage.specs.Families.{Family, HaveOneOutcome, HaveOutcomes, AreDoneWhereGood};

use std::alloc::Global;
use wf_io::{Shelf, Sink};
use wf_message::Ending;

/// A family of commands: it reads its words, does its commands, and brings the laws of what they do.
///
/// A family is a type without values of use. The functions without arguments are laws: their contracts say them, and they do nothing.
pub trait Commands {
    /// The family, as definitions: its words, what its commands do, and when their files are good.
    ghost family: { Family };

    /// Does the command that the words are over the files of a shelf, and puts its text to `out`. The ending is `Usage` exactly if the words are no command of the family, and then nothing is done.
    fn obey<H: Shelf, O: Sink>(alloc: Global, words: &[&str], shelf: &mut H, out: &mut O) -> Ending
        ensures taken { (result ≡ Ending.Usage) ↔ (family.command_of (map (λ w. w.now) words.now) ≡ None) }
        ensures idle { result ≡ Ending.Usage → (shelf.new ≡ shelf.old) × (out.new ≡ out.old) }
        ensures obeys { (c : family.Command) → family.command_of (map (λ w. w.now) words.now) ≡ Some c →
            Obeys H.files H.readings H.faults H.at_last O.put_bytes O.faults O.at_last (family.files_of c) []
            (λ f. family.Does f c) shelf.old shelf.new out.old out.new (end_by result) }
        ensures untouched { (c : family.Command) → family.command_of (map (λ w. w.now) words.now) ≡ Some c → end_by result ≡ NoMemory →
            family.PutsNothingWanting c → (O.put_bytes out.new ≡ O.put_bytes out.old) × (O.faults out.new ≡ O.faults out.old) };

    /// A command has one outcome at most over the same files: one end and one text.
    fn one_outcome()
        ensures { HaveOneOutcome family };

    /// A command has an outcome over all files: an end and a text.
    fn some_outcome()
        ensures { HaveOutcomes family };

    /// A command over good files has no end but that all is done.
    fn good_call()
        ensures { AreDoneWhereGood family };
}

/// Two families as one. Words are a command of the first family that takes them.
pub enum Either<A, B> {
    First(A),
    Other(B),
}

impl<A: Commands, B: Commands> Commands for Either<A, B> {
    ghost use Rattle.wf_stage.specs.Families.{either};

    ghost family = { either A.family B.family };

    fn obey<H: Shelf, O: Sink>(
        alloc: Global,
        words: &[&str],
        shelf: &mut H,
        out: &mut O,
    ) -> Ending {
        match A::obey(alloc, words, shelf, out) {
            Ending::Usage => B::obey(alloc, words, shelf, out),
            ending => ending,
        }
    }

    fn one_outcome() {
        A::one_outcome();
        B::one_outcome();
    }

    fn some_outcome() {
        A::some_outcome();
        B::some_outcome();
    }

    fn good_call() {
        A::good_call();
        B::good_call();
    }
}

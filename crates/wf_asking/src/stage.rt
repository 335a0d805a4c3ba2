// QUERIES, answered line by line.
ghost use Rattle.std.specs.Prelude.{◌≡◌, [], ◌∷◌};
ghost use Rattle.wf_query.specs.Lines.{IsOneWord};
ghost use Rattle.wf_message.specs.Endings.{end_after, NoMemory};
ghost use Rattle.wf_stage.specs.Promises.{Obeys};
ghost use Rattle.wf_asking.specs.Queries.{QueriesStage};

use crate::stop::queries_end;
use std::alloc::Global;
use wf_io::{Shelf, Sink};
use wf_message::Stop;
use wf_query::{Answerer, answer_lines};

/// Answers the queries of the lines of QUERIES, one after the other, by whatever answers two names in one word.
///
/// Where an answer wants no memory, want of memory comes before the first answer is put.
///
/// Cost: that of `answer_lines`.
pub fn queries_stage<A: Answerer, H: Shelf, O: Sink>(
    alloc: Global,
    answerer: &mut A,
    shelf: &mut H,
    name: &str,
    out: &mut O,
) -> Result<(), Stop>
    requires { A.is_ready answerer.old }
    ensures obeys { (k : A.Known) → A.is_known answerer.old k → IsOneWord (A.words k) →
        Obeys H.files H.readings H.faults H.at_last O.put_bytes O.faults O.at_last (name.now ∷ []) []
        (λ f. QueriesStage (A.words k) (f name.now))
        shelf.old shelf.new out.old out.new (end_after result) }
    ensures untouched { ¬ A.wants_memory → end_after result ≡ NoMemory → (O.put_bytes out.new ≡ O.put_bytes out.old) × (O.faults out.new ≡ O.faults out.old) }
{
    queries_end(answer_lines(alloc, answerer, shelf, name, out))
}

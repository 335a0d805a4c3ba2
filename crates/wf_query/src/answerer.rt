// What answers queries.
ghost use Rattle.std.specs.Prelude.{ℕ, List, IsErr, IfOk};
ghost use Rattle.wf_query.specs.Answers.{answer_text};

use crate::answers::Answer;
use crate::query::Query;
use std::alloc::AllocError;

/// What answers queries, two item names each.
pub trait Answerer {
    /// Whether it is as each answer needs it.
    ghost is_ready: { Self → Type 0 };

    /// What may be known of it. What is known stays known, whatever it answers.
    ghost Known: { Type 0 };

    /// Whether this is known of it.
    ghost is_known: { Self → Known → Type 0 };

    /// Whether a word answers two names, by what is known.
    ghost words: { Known → List ℕ → List ℕ → List ℕ → Type 0 };

    /// Whether an answer may want memory.
    ghost wants_memory: { Type 0 };

    /// May look at lines, of which the first is answered next. This only saves time: nothing that is told changes.
    fn look_ahead(&mut self, text: &[u8])
        requires { is_ready self.old }
        ensures ready { is_ready self.new }
        ensures known { (k : Known) → is_known self.old k → is_known self.new k }
    {
        let _ = text;
    }

    /// Answers a query.
    fn answer(&mut self, query: &Query<'_>) -> Result<Answer, AllocError>
        requires { is_ready self.old }
        ensures ready { is_ready self.new }
        ensures answer { IfOk result (λ a. (k : Known) → is_known self.old k → words k query.now.first.now query.now.second.now (answer_text a)) }
        ensures memory { IsErr result → wants_memory }
        ensures known { (k : Known) → is_known self.old k → is_known self.new k };
}

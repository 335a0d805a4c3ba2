// The witness of a disagreement.
ghost use Rattle.std.specs.Prelude.{IfOk};
ghost use Rattle.wf_check.specs.Proper.{IsRankingOf};
ghost use Rattle.wf_safe.specs.Disagreeing.{IsFound};
ghost use Rattle.wf_safe.specs.Witness.{IsFirstWitness};

use crate::safety::choices::choices;
use crate::safety::disagreement::Disagreement;
use crate::witness::Witness;
use std::alloc::{AllocError, Global};
use wf_check::Proper;
use wf_view::GrammarView;

/// The witness that two expansions disagree, of a production that does not join the pairs of its head. Fails only for want of memory.
pub fn witness_of(
    alloc: Global,
    v: GrammarView<'_>,
    proper: &Proper,
    found: Disagreement,
) -> Result<Witness, AllocError>
    requires ranking { IsRankingOf v.grammar.now.core proper.now }
    requires found { IsFound v.grammar.now.core v.view.now.core proper.now found }
    ensures { IfOk result (λ w. IsFirstWitness v.entry.grammar.now.core v.entry.view.now.core proper.now w) }
{
    let choice = choices(alloc, v, proper)?;
    let module = v.grammar.production(found.production).head();
    Ok(Witness {
        module,
        one: proper.choice(module),
        other: found.production,
        input: found.pair.input,
        output: found.pair.output,
        joined_by_one: found.pair.in_first,
        choice,
    })
}

// Whether a witness shows that a view is not safe.
ghost use Rattle.std.specs.Prelude.{◌↔◌, IsTrue, IfOk};
ghost use Rattle.wf_safe.specs.Witness.{IsWitness};

mod body;
mod choice;
mod compare;
mod graph;
mod numbers;
mod ports;
mod settle;
mod table;

use crate::check::choice::is_choice;
use crate::check::compare::are_apart;
use crate::check::numbers::has_numbers;
use crate::check::settle::settled_rows;
use crate::witness::Witness;
use std::alloc::{AllocError, Global};
use wf_view::GrammarView;

/// Whether a witness shows two finished expansions that disagree on its pair, whatever its numbers are and whoever made it.
///
/// It says false where a number is out of range, where the choice is not one production for each seen module that the view expands, and where the choice runs in a circle on the way down from the module by `one` or by `other`; a circle that neither expansion meets does not matter.
///
/// It trusts nothing that `full_deps` finds: in rounds it settles the modules whose chosen bodies are settled, and searches each of these bodies from each input. Cost: for each settled module one search of its chosen body for each of its inputs, which looks at each link once, and as many rounds over the choice as modules settle. Fails only for want of memory.
pub fn check_witness(alloc: Global, v: GrammarView<'_>, w: &Witness) -> Result<bool, AllocError>
    ensures { IfOk result (λ b. IsTrue b ↔ IsWitness v.entry.grammar.now.core v.entry.view.now.core w.now) }
{
    let choice = w.choice.items();
    if !is_choice(v, choice) || !has_numbers(v.grammar, w) {
        return Ok(false);
    }
    let rows = settled_rows(alloc, v, choice)?;
    are_apart(alloc, v.grammar, &rows, w)
}

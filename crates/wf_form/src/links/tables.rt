// Ports that are met by links: twice, once or not.
ghost use Rattle.std.specs.Prelude.{◌≡◌, ◌<◌, ◌≤◌, ◌+◌, ◌*◌, ◌↔◌, ℕ, true, false, length, get_or, map, IfOk, IsTrue, MatchOption};
ghost use Rattle.wf_model.specs.Lists.{IsIn, AllDiffer};
ghost use Rattle.wf_model.specs.Grammar.{Inner as InnerSeen};
ghost use Rattle.wf_model.specs.Meaning.{inner_of};
ghost use Rattle.wf_form.specs.Ends.{IsPortOf, place_of, IsTable, IsTwice, HaveFew};
ghost use Rattle.wf_form.specs.Wiring.{AreSmall};

use std::alloc::{AllocError, Global};
use wf_model::Inner;

/// A table of the ports that are met, 64 for each position; none where a port is met twice.
fn table(alloc: Global, positions: usize, ends: &[Inner]) -> Result<Option<Vec<bool>>, AllocError>
    requires few { positions ≤ 64 }
    requires small { AreSmall positions (map inner_of ends.now) }
    ensures { IfOk result (λ t. MatchOption t (IsTwice (map inner_of ends.now)) (λ marks. IsTable positions marks.items (map inner_of ends.now))) }
{
    let mut marks = vec![in alloc; false; positions * 64]?;
    for i in ends {
        let place = i.pos.0 as usize * 64 + i.port.0 as usize;
        if marks[place] {
            return Ok(None);
        }
        marks[place] = true;
    }
    Ok(Some(marks))
}

/// Whether so many flags are set, from the first on.
fn row_is_set(marks: &[bool], first: usize, count: usize) -> bool
    requires { first + count ≤ length marks.now }
    ensures { IsTrue result ↔ ((j : ℕ) → j < count → get_or marks.now (first + j) false ≡ true) }
{
    for j in 0..count {
        if !marks[first + j] {
            return false;
        }
    }
    true
}

/// Whether each port is marked, where the positions have so many ports each.
fn all_are_set(counts: &[usize], marks: &[bool]) -> bool
    requires few { HaveFew counts.now }
    requires count { length marks.now ≡ length counts.now * 64 }
    ensures { IsTrue result ↔ ((i : InnerSeen) → IsPortOf counts.now i → get_or marks.now (place_of i) false ≡ true) }
{
    for k in 0..counts.len() {
        if !row_is_set(marks, k * 64, counts[k]) {
            return false;
        }
    }
    true
}

/// Whether no port is met twice.
///
/// Cost: one look at each end, and a flag for each of 64 ports a position.
pub fn differ(alloc: Global, positions: usize, ends: &[Inner]) -> Result<bool, AllocError>
    requires few { positions ≤ 64 }
    requires small { AreSmall positions (map inner_of ends.now) }
    ensures { IfOk result (λ b. IsTrue b ↔ AllDiffer (map inner_of ends.now)) }
{
    let marks = table(alloc, positions, ends)?;
    Ok(marks.is_some())
}

/// Whether each port is met, where no port is met twice and the positions have so many ports each.
///
/// Cost: one look at each end and at each port, and a flag for each of 64 ports a position.
pub fn are_met(alloc: Global, counts: &[usize], ends: &[Inner]) -> Result<bool, AllocError>
    requires few { HaveFew counts.now }
    requires few_positions { length counts.now ≤ 64 }
    requires small { AreSmall (length counts.now) (map inner_of ends.now) }
    requires once { AllDiffer (map inner_of ends.now) }
    ensures { IfOk result (λ b. IsTrue b ↔ ((i : InnerSeen) → IsPortOf counts.now i → IsIn i (map inner_of ends.now))) }
{
    let marks = table(alloc, counts.len(), ends)?.unwrap();
    Ok(all_are_set(counts, &marks))
}

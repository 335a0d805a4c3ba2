// Whether two productions disagree on a pair, by a table of rows.
ghost use Rattle.std.specs.Prelude.{◌≡◌, ◌↔◌, ◌<◌, IsTrue, IfOk, length, get_or};
ghost use Rattle.wf_model.specs.Meaning.{pairs_of};
ghost use Rattle.wf_model.specs.WellFormed.{IsWellFormed};
ghost use Rattle.bool_mat.specs.Matrix.{has};
ghost use Rattle.wf_safe.specs.Choosing.{HasNumbers};
ghost use Rattle.wf_safe.specs.Settling.{AreApart, IsTable};

use crate::check::body::joined_rows;
use crate::check::table::{are_set, is_set};
use crate::witness::Witness;
use bool_mat::has_column;
use std::alloc::{AllocError, Global};
use wf_spec::{Deps, Grammar, ModNo, PortNo};

/// Whether rows have the pair of an input and an output.
fn have_pair(rows: &[u64], input: PortNo, output: PortNo) -> bool
    requires { output.0 < 64 }
    ensures { result ≡ has (get_or rows.now input.0 0) output.0 }
{
    match rows.get(input.0 as usize) {
        Some(row) => has_column(*row, u32::from(output.0)),
        None => false,
    }
}

/// Whether the table has the pair for a module.
fn is_joined(rows: &Deps, m: ModNo, input: PortNo, output: PortNo) -> bool
    requires m { m.0 < length rows.now }
    requires output { output.0 < 64 }
    ensures { result ≡ pairs_of rows.now m.0 input.0 output.0 }
{
    match rows.rows(m) {
        Some(rows) => have_pair(rows, input, output),
        None => false,
    }
}

/// Whether the chosen production and the other production of a witness disagree on its pair as it says. Fails only for want of memory.
///
/// Cost: one search of the other body for each input of its head.
pub fn are_apart(alloc: Global, g: &Grammar, rows: &Deps, w: &Witness) -> Result<bool, AllocError>
    requires table { IsTable g.now.core rows.now }
    requires numbers { HasNumbers g.now.core w.now }
    requires formed { IsWellFormed g.now.core }
    ensures { IfOk result (λ b. IsTrue b ↔ AreApart g.now.core rows.now w.now) }
{
    if !is_set(rows, w.module) || !are_set(g, rows, w.other) {
        return Ok(false);
    }
    let joined_by_other = joined_rows(alloc, g, w.other, rows)?;
    let one = is_joined(rows, w.module, w.input, w.output);
    let other = have_pair(&joined_by_other, w.input, w.output);
    Ok(one == w.joined_by_one && other != w.joined_by_one)
}

// The matrices of the pairs of modules.
ghost use Rattle.std.specs.Prelude.{IfOk, OnOk, ◌≡◌, ◌<◌, ℕ, length, option_map};
ghost use Rattle.bool_mat.specs.Matrix.{joins};
ghost use Rattle.wf_model.specs.Meaning.{pairs_of};
ghost use Rattle.wf_model.specs.View.{View, expands};
ghost use Rattle.wf_safe.specs.Full.{AreFit, AreFullRows};
ghost use Rattle.wf_vlabel.specs.Groups.{matrix_of};
ghost use Rattle.wf_vlabel.specs.Growing.{Grows, IsRowsGroup};
ghost use Rattle.wf_vlabel.specs.Tables.{AreFullGroups};

use crate::groups::Groups;
use bool_mat::{MatNo, MatPool};
use std::alloc::{AllocError, Global};
use wf_safe::FullDeps;
use wf_spec::{Grammar, ModNo};

/// How many rows the modules have in all.
fn row_count(g: &Grammar, full: &FullDeps) -> usize
    requires { length full.now ≡ length g.now.core.modules }
{
    let deps = full.deps();
    let mut count = 0usize;
    for m in 0..g.modules().len() {
        if let Some(rows) = deps.rows(ModNo(m as u16)) {
            count = count.saturating_add(rows.len());
        }
    }
    count
}

/// Pushes the matrix of the pairs of a module, if it has rows.
fn push_rows(
    g: &Grammar,
    m: ModNo,
    full: &FullDeps,
    pool: &mut MatPool,
) -> Result<Option<MatNo>, AllocError>
    requires module_no { m.0 < length g.now.core.modules }
    requires places { length full.now ≡ length g.now.core.modules }
    requires fit { AreFit g.now.core full.now }
    ensures grown { OnOk result (Grows pool.old pool.new) }
    ensures group { IfOk result (λ n. IsRowsGroup g.now.core full.now m.0 pool.new (option_map (λ k. k.0) n)) }
{
    match full.deps().rows(m) {
        None => Ok(None),
        Some(rows) => {
            let outputs = g.modules()[m.0 as usize].outputs().len();
            let number = pool.push(rows, outputs as u8)?;
            Ok(Some(number))
        }
    }
}

/// The matrix of the pairs of each module that has rows. Fails only for want of memory.
///
/// Room for all of them is made at once. Cost: one copy of each row.
pub(crate) fn full_groups(alloc: Global, g: &Grammar, full: &FullDeps) -> Result<Groups, AllocError>
    requires { (u : View) × AreFullRows g.now.core u full.now }
    ensures groups { IfOk result (λ t. (u : View) → AreFullRows g.now.core u full.now → AreFullGroups g.now.core (expands u) (pairs_of full.now) t) }
    ensures pairs { IfOk result (λ t. (m i o : ℕ) → joins (matrix_of t m 0) i o ≡ pairs_of full.now m i o) }
{
    let modules = g.modules().len();
    let mut pool = MatPool::new(alloc);
    pool.reserve(modules, row_count(g, full))?;
    let mut first = Vec::new(alloc);
    for m in 0..modules {
        let number = push_rows(g, ModNo(m as u16), full, &mut pool)?;
        first.push(number)?;
    }
    Ok(Groups::of_pool(pool, first))
}

// The pairs that are given to the modules of a package.
ghost use Rattle.std.specs.Prelude.{◌≡◌, ◌<◌, ◌≤◌, ◌==◌, ◌++◌, ◌∷◌, [], cond, ℕ, get_or, length, map, IfOk, OnOk};
ghost use Rattle.std.specs.Int.{bit_at};
ghost use Rattle.std.specs.List.{list_all};
ghost use Rattle.wf_model.specs.Lists.{IsIn, numbers_from};
ghost use Rattle.wf_spec.specs.GivenRows.{pair_of};
ghost use Rattle.package_model.specs.Shown.{pairs_of_input, pairs_within};
ghost use Rattle.wf_package.specs.Parts.{all_pairs_pass, made_by_place, given_part};

use bool_mat::has_column;
use std::alloc::{AllocError, Global};
use wf_spec::{Given, ModNo, Pair, PortNo};
use wf_view::GrammarView;

/// Adds a pair, if its bit is set.
fn add_pair(pairs: &mut Vec<Pair>, input: u8, output: u8, row: u64) -> Result<(), AllocError>
    requires { output < 64 }
    ensures { OnOk result (map pair_of pairs.new.items ≡ map pair_of pairs.old.items ++ cond (bit_at row output == 1) ((input, output) ∷ []) []) }
{
    if has_column(row, u32::from(output)) {
        pairs.push(Pair {
            input: PortNo(input),
            output: PortNo(output),
        })?;
    }
    Ok(())
}

/// Adds the pairs of a row.
fn add_row(pairs: &mut Vec<Pair>, input: u8, row: u64, outputs: u8) -> Result<(), AllocError>
    requires { outputs ≤ 64 }
    ensures { OnOk result (map pair_of pairs.new.items ≡ map pair_of pairs.old.items ++ pairs_of_input input outputs (λ o. bit_at row o == 1)) }
{
    for output in 0..outputs {
        add_pair(pairs, input, output, row)?;
    }
    Ok(())
}

/// The pairs of rows, by input and output.
fn pairs_in_rows(alloc: Global, rows: &[u64], outputs: u8) -> Result<Vec<Pair>, AllocError>
    requires rows { length rows.now ≤ 64 }
    requires columns { outputs ≤ 64 }
    ensures { IfOk result (λ ps. map pair_of ps.items ≡ pairs_within (length rows.now) outputs (λ i o. bit_at (get_or rows.now i 0) o == 1)) }
{
    let mut pairs = Vec::new(alloc);
    for i in 0..rows.len() {
        add_row(&mut pairs, i as u8, rows[i], outputs)?;
    }
    Ok(pairs)
}

/// Whether a row has the bits of so many columns.
fn is_full(row: u64, outputs: u8) -> bool
    requires { outputs ≤ 64 }
    ensures { result ≡ list_all (λ o. bit_at row o == 1) (numbers_from 0 outputs) }
{
    for output in 0..outputs {
        if !has_column(row, u32::from(output)) {
            return false;
        }
    }
    true
}

/// Whether all rows have the bits of so many columns.
fn are_full(rows: &[u64], outputs: u8) -> bool
    requires { outputs ≤ 64 }
    ensures { result ≡ all_pairs_pass (length rows.now) outputs (λ i o. bit_at (get_or rows.now i 0) o == 1) }
{
    for i in 0..rows.len() {
        if !is_full(rows[i], outputs) {
            return false;
        }
    }
    true
}

/// Adds the pairs of a module, if the view does not expand it and they are not all.
fn add_given(
    alloc: Global,
    given: &mut Vec<Given>,
    v: GrammarView<'_>,
    k: u16,
    m: ModNo,
) -> Result<(), AllocError>
    requires { m.0 < length v.grammar.now.core.modules }
    ensures { OnOk result (given.new.items ≡ given.old.items ++ given_part v.entry.grammar.now.core v.entry.view.now.core k m.0) }
{
    let outputs = v.grammar.output_count(m);
    let inputs = v.grammar.input_count(m);
    if v.view.expanded(m) {
        return Ok(());
    }
    let rows = v.view.shown_rows(m);
    if are_full(rows, outputs) {
        return Ok(());
    }
    let pairs = pairs_in_rows(alloc, rows, outputs)?;
    given.push(Given::new(ModNo(k), pairs))?;
    Ok(())
}

/// The pairs that are given to the modules of a package, in order of these of the grammar. Fails only for want of memory.
pub(crate) fn placed_pairs(
    alloc: Global,
    v: GrammarView<'_>,
    numbers: &[u16],
) -> Result<Vec<Given>, AllocError>
    requires in_range { (m : ℕ) → IsIn m numbers.now → m < length v.grammar.now.core.modules }
    requires few { length numbers.now ≤ 1024 }
    ensures { IfOk result (λ given. given.items ≡ made_by_place (given_part v.entry.grammar.now.core v.entry.view.now.core) 0 numbers.now) }
{
    let mut given = Vec::new(alloc);
    for k in 0..numbers.len() {
        add_given(alloc, &mut given, v, k as u16, ModNo(numbers[k]))?;
    }
    Ok(given)
}

// The rows of the modules, as inputs lead by them.
ghost use Rattle.std.specs.Prelude.{◌≡◌, ◌<◌, ◌≤◌, ◌∷◌, [], length, option_map, IfOk, OnOk, IfSome, IfNone, MatchOption};
ghost use Rattle.wf_model.specs.Grammar.{inputs_of};
ghost use Rattle.wf_flat.specs.Graph.{IsMadeFor};
ghost use Rattle.wf_flat.specs.Leading.{led_by_row, IsLowestBit, row_of, AddsRowsOf, AreRowsOf};

use std::alloc::{AllocError, Global};
use wf_spec::{Deps, Grammar, ModNo};

/// How an input leads to outputs of its instance: how many ports stand between it and the first output, how many outputs there are, and a bit for each, from the lowest on.
#[derive(Clone, Copy, Drop)]
pub struct Row {
    pub distance: u8,
    pub outputs: u8,
    pub bits: u64,
}

/// How many rows each module has.
pub const ROWS: u8 = 64;

const NO_ROW: Row = Row {
    distance: 0,
    outputs: 0,
    bits: 0,
};

/// The lowest bit that is set.
fn lowest_bit(bits: u64) -> Option<u32>
    ensures none { IfNone result (bits ≡ 0) }
    ensures lowest { IfSome result (IsLowestBit bits) }
{
    if bits == 0 {
        return None;
    }
    Some(bits.trailing_zeros())
}

/// The first of the outputs, from one on, to which the input of a number leads by its row, with the output behind it. Bits that are not set cost nothing.
pub fn next_output(row: Row, input: u32, from: usize) -> Option<(u32, usize)>
    requires narrow { row.outputs ≤ 64 }
    requires small { input < 2147483648 }
    ensures { MatchOption result (led_by_row input row from ≡ []) (λ n. led_by_row input row from ≡ n.0 ∷ led_by_row input row n.1) }
{
    if from >= row.outputs as usize {
        return None;
    }
    let Some(lowest) = lowest_bit(row.bits >> from) else {
        return None;
    };
    let o = from + lowest as usize;
    if o >= row.outputs as usize {
        return None;
    }
    Some((input + u32::from(row.distance) + o as u32, o + 1))
}

/// The row of an input of a module; past its inputs, or where it has no rows, one without a bit.
fn row_of(g: &Grammar, m: ModNo, list: Option<&[u64]>, i: u8) -> Row
    requires in_range { m.0 < length g.now.core.modules }
    requires one_each { IfSome list (λ rows. length rows.now ≡ inputs_of g.now.core m.0) }
    ensures { result ≡ row_of g.now.core m.0 (option_map (λ r. r.now) list.entry) i }
{
    let Some(rows) = list else {
        return NO_ROW;
    };
    if i as usize >= rows.len() {
        return NO_ROW;
    }
    let module = &g.modules()[m.0 as usize];
    Row {
        distance: module.inputs().len() as u8 - i,
        outputs: module.outputs().len() as u8,
        bits: rows[i as usize],
    }
}

/// Adds the rows of a module.
fn add_rows_of(
    rows: &mut Vec<Row>,
    g: &Grammar,
    m: ModNo,
    list: Option<&[u64]>,
) -> Result<(), AllocError>
    requires in_range { m.0 < length g.now.core.modules }
    requires one_each { IfSome list (λ r. length r.now ≡ inputs_of g.now.core m.0) }
    ensures { OnOk result (AddsRowsOf g.now.core m.0 (option_map (λ r. r.now) list.entry) rows.old.items rows.new.items) }
{
    for i in 0..ROWS {
        rows.push(row_of(g, m, list, i))?;
    }
    Ok(())
}

/// The rows of the inputs of each module, 64 for each of them. Fails only for want of memory.
pub fn rows_of(alloc: Global, g: &Grammar, leaf: &Deps) -> Result<Vec<Row>, AllocError>
    requires { IsMadeFor g.now.core leaf.now }
    ensures { IfOk result (λ rows. AreRowsOf g.now.core leaf.now rows.items) }
{
    // A grammar is well-formed: it has few modules.
    let _formed = g.start();
    let count = g.modules().len();
    let mut rows = Vec::with_capacity(alloc, count * ROWS as usize)?;
    for m in 0..count {
        let m = ModNo(m as u16);
        add_rows_of(&mut rows, g, m, leaf.rows(m))?;
    }
    Ok(rows)
}

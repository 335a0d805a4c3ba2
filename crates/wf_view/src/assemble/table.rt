// The rows of the pairs that a view shows of each module.
ghost use Rattle.std.specs.Prelude.{◌≡◌, ◌<◌, [], IfOk, OnOk, length};
ghost use Rattle.wf_model.specs.Grammar.{is_given};
ghost use Rattle.wf_spec.specs.Pairs.{HasKnownPairs};
ghost use Rattle.wf_view.specs.Rules.{number_in, IsModuleName};
ghost use Rattle.wf_view.specs.Tables.{AreKept, AreSound, IsKept, IsTakenIn};

use crate::assemble::rows::{default_rows, named_rows};
use std::alloc::{AllocError, Global};
use wf_spec::{DepsPart, Grammar, ModNo};

/// The rows of a module about which there is no deps part; none where it is expanded.
fn rows_unless(alloc: Global, g: &Grammar, m: ModNo, expanded: bool) -> Result<Vec<u64>, AllocError>
    requires { m.0 < length g.now.core.modules }
    ensures { IfOk result (λ rows. IsKept g.now.core expanded (is_given g.now.core.given m.0) m.0 rows.items) }
{
    if expanded {
        return Ok(Vec::new(alloc));
    }
    default_rows(alloc, g, m)
}

/// The rows of each module where there is no deps part.
fn default_table(alloc: Global, g: &Grammar, marks: &[bool]) -> Result<Vec<Vec<u64>>, AllocError>
    requires { length marks.now ≡ length g.now.core.modules }
    ensures { IfOk result (λ table. AreKept g.now.core marks.now [] (length g.now.core.modules) table.items) }
{
    let mut table = Vec::new(alloc);
    for m in 0..g.modules().len() {
        let rows = rows_unless(alloc, g, ModNo(m as u16), marks[m])?;
        table.push(rows)?;
    }
    Ok(table)
}

/// The module that has a name.
fn known_module(g: &Grammar, name: &[u8]) -> ModNo
    requires { IsModuleName g.now.core name.now }
    ensures place { result.0 ≡ number_in g.now.core name.now }
    ensures within { result.0 < length g.now.core.modules }
{
    g.find(name).unwrap()
}

/// Puts the pairs of a deps part in place of those of its module.
fn take_in(
    alloc: Global,
    g: &Grammar,
    table: &mut [Vec<u64>],
    part: &DepsPart,
) -> Result<(), AllocError>
    requires known { IsModuleName g.now.core part.now.«module» }
    requires pairs { HasKnownPairs g.now.core.modules part.now }
    requires one_each { length table.old ≡ length g.now.core.modules }
    ensures { OnOk result (IsTakenIn g.now.core part.now table.old table.new) }
{
    let m = known_module(g, part.module.bytes());
    let one = &g.modules()[m.0 as usize];
    let rows = named_rows(alloc, one, part.pairs.items())?;
    table[m.0 as usize] = rows;
    Ok(())
}

/// Puts the pairs of all deps parts in place.
fn take_all_in(
    alloc: Global,
    g: &Grammar,
    table: &mut [Vec<u64>],
    deps: &[DepsPart],
    marks: &[bool],
) -> Result<(), AllocError>
    requires sound { AreSound g.now.core marks.now deps.now }
    requires begun { AreKept g.now.core marks.now [] (length g.now.core.modules) table.old }
    ensures { OnOk result (AreKept g.now.core marks.now deps.now (length g.now.core.modules) table.new) }
{
    for part in deps {
        take_in(alloc, g, table, part)?;
    }
    Ok(())
}

/// The rows of each module: none where it is expanded, otherwise those of the pairs that a deps part names, and where no part is about it those of the grammar, or all.
///
/// Cost: for each module a look at its inputs and outputs and 8 bytes for each input, and for each deps part a look-up by hashing and for each pair a look at no more than 64 inputs and 64 outputs.
pub fn shown_table(
    alloc: Global,
    g: &Grammar,
    deps: &[DepsPart],
    marks: &[bool],
) -> Result<Vec<Vec<u64>>, AllocError>
    requires one_each { length marks.now ≡ length g.now.core.modules }
    requires sound { AreSound g.now.core marks.now deps.now }
    ensures { IfOk result (λ table. AreKept g.now.core marks.now deps.now (length g.now.core.modules) table.items) }
{
    let mut table = default_table(alloc, g, marks)?;
    take_all_in(alloc, g, &mut table, deps, marks)?;
    Ok(table)
}

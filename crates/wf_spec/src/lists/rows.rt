// Rows of bits.
ghost use Rattle.std.specs.Prelude.{◌≡◌, ◌^◌, ◌-◌, ◌≤◌, ◌<◌, ◌∷◌, [], ℕ, cond, IfOk, length, map};
ghost use Rattle.wf_model.specs.Grammar.{Given as GivenSeen, Grammar};
ghost use Rattle.wf_model.specs.Lists.{IsIn};
ghost use Rattle.wf_spec.specs.FewPorts.{HaveFewPorts};
ghost use Rattle.wf_spec.specs.Tables.{AreRows};
ghost use Rattle.wf_spec.specs.GivenRows.{pair_of, table_of, AreAllAdded, AreFirst, AreGivenIn, AreNamed, HavePlaces};
ghost use Rattle.wf_spec.specs.Rows.{AreAdded, AreAlike};

use crate::bits::{low_bits, same_rows};
use crate::given::{Given, Pair};
use crate::module::Module;
use std::alloc::{AllocError, Global};

fn row_of(m: &Module, all: bool) -> u64
    requires { length m.now.outputs ≤ 64 }
    ensures { result ≡ cond {A = ℕ} all (2 ^ length m.now.outputs - 1) 0 }
{
    if all {
        return low_bits(m.outputs().len());
    }
    0
}

/// All pairs of a module, or none.
fn alike(alloc: Global, m: &Module, all: bool) -> Result<Vec<u64>, AllocError>
    requires { length m.now.outputs ≤ 64 }
    ensures { IfOk result (λ rows. AreAlike m.now all rows.items) }
{
    let row = row_of(m, all);
    let rows = same_rows(alloc, m.inputs().len(), row)?;
    Ok(rows)
}

fn add_pair(rows: &mut [u64], pair: Pair)
    requires input { pair.input.0 < length rows.old }
    requires output { pair.output.0 < 64 }
    ensures as_many { length rows.new ≡ length rows.old }
    ensures added { AreAdded ((pair.input.0, pair.output.0) ∷ []) rows.old rows.new }
{
    rows[pair.input.0 as usize] |= 1 << pair.output.0;
}

/// Adds pairs to the rows of a module.
fn add_pairs(rows: &mut [u64], pairs: &[Pair])
    requires inputs { (e : Pair) → IsIn e pairs.now → e.input.0 < length rows.old }
    requires outputs { (e : Pair) → IsIn e pairs.now → e.output.0 < 64 }
    ensures as_many { length rows.new ≡ length rows.old }
    ensures added { AreAdded (map pair_of pairs.now) rows.old rows.new }
{
    for pair in pairs {
        add_pair(rows, *pair);
    }
}

/// Adds the pairs of a part to the rows of its module.
fn add_part(table: &mut [Vec<u64>], part: &Given)
    requires { HavePlaces (part.now ∷ []) (table_of table.old) }
    ensures { AreAllAdded (part.now ∷ []) (table_of table.old) (table_of table.new) }
{
    let rows = &mut table[part.module().0 as usize];
    add_pairs(rows, part.pairs());
}

/// Adds the pairs of all parts.
fn add_given(table: &mut [Vec<u64>], given: &[Given])
    requires { HavePlaces given.now (table_of table.old) }
    ensures { AreAllAdded given.now (table_of table.old) (table_of table.new) }
{
    for part in given {
        add_part(table, part);
    }
}

/// For each of so many modules, whether a part names it.
fn are_named(alloc: Global, modules: usize, given: &[Given]) -> Result<Vec<bool>, AllocError>
    requires { (d : GivenSeen) → IsIn d given.now → d.module_no < modules }
    ensures { IfOk result (λ flags. AreNamed given.now modules flags.items) }
{
    let mut flags = vec![in alloc; false; modules]?;
    for part in given {
        flags[part.module().0 as usize] = true;
    }
    Ok(flags)
}

/// All pairs for each module that is not named, and none for the others.
fn first_rows(
    alloc: Global,
    modules: &[Module],
    named: &[bool],
) -> Result<Vec<Vec<u64>>, AllocError>
    requires few_ports { HaveFewPorts modules.now }
    requires one_each { length named.now ≡ length modules.now }
    ensures { IfOk result (λ table. AreFirst modules.now named.now (length modules.now) (table_of table.items)) }
{
    let mut table = Vec::new(alloc);
    for (k, m) in modules.iter().enumerate() {
        let rows = alike(alloc, m, !named[k])?;
        table.push(rows)?;
    }
    Ok(table)
}

/// The rows of each module: the pairs of all parts that name it, and all pairs where none does.
///
/// Cost: linear in the inputs of the modules, and in the pairs of the parts.
pub fn rows_from(
    alloc: Global,
    modules: &[Module],
    given: &[Given],
) -> Result<Vec<Vec<u64>>, AllocError>
    requires few_ports { HaveFewPorts modules.now }
    requires given { AreGivenIn modules.now given.now }
    ensures { IfOk result (λ table. (g : Grammar) → g.modules ≡ modules.now → g.given ≡ given.now → AreRows g (table_of table.items)) }
{
    let named = are_named(alloc, modules.len(), given)?;
    let mut table = first_rows(alloc, modules, &named)?;
    add_given(&mut table, given);
    Ok(table)
}

// Rows of bits for the pairs of a module.
ghost use Rattle.std.specs.Prelude.{◌≡◌, ◌<◌, ◌≤◌, ◌∷◌, [], IfOk, length, map, position, true, bytes_eq};
ghost use Rattle.wf_model.specs.Grammar.{inputs_of, is_given, outputs_of};
ghost use Rattle.wf_model.specs.Lists.{IsIn};
ghost use Rattle.wf_model.specs.WellFormed.{IsWellFormedModule};
ghost use Rattle.wf_spec.specs.Naming.{place_of};
ghost use Rattle.wf_spec.specs.Pairs.{pair_in};
ghost use Rattle.wf_spec.specs.Rows.{AreAdded};
ghost use Rattle.wf_view.specs.Tables.{names_pair, AreRowsBy};

use std::alloc::{AllocError, Global};
use wf_spec::{Grammar, ModNo, Module, Name, PairPart, low_bits, same_rows};

/// All pairs of a module.
fn all_rows(alloc: Global, one: &Module) -> Result<Vec<u64>, AllocError>
    requires { length one.now.outputs ≤ 64 }
    ensures { IfOk result (λ rows. AreRowsBy (length one.now.inputs) (length one.now.outputs) (λ i o. true) rows.items) }
{
    let row = low_bits(one.outputs().len());
    let rows = same_rows(alloc, one.inputs().len(), row)?;
    Ok(rows)
}

/// The pairs of a module about which there is no deps part: those of the grammar for an atomic one, and all for a composite one.
pub fn default_rows(alloc: Global, g: &Grammar, m: ModNo) -> Result<Vec<u64>, AllocError>
    requires { m.0 < length g.now.core.modules }
    ensures { IfOk result (λ rows. AreRowsBy (inputs_of g.now.core m.0) (outputs_of g.now.core m.0) (is_given g.now.core.given m.0) rows.items) }
{
    let one = &g.modules()[m.0 as usize];
    if g.is_composite(m) {
        return all_rows(alloc, one);
    }
    Vec::from_slice(alloc, g.rows(m))
}

fn place_among(ports: &[Name], name: &[u8]) -> Option<usize>
    ensures { result ≡ position (bytes_eq name.now) ports.now }
{
    ports.iter().position(|port| name == port.bytes())
}

/// The place of a port among ports that it is one of.
fn port_place(ports: &[Name], name: &[u8]) -> usize
    requires { IsIn name.now ports.now }
    ensures place { result ≡ place_of ports.now name.now }
    ensures within { result < length ports.now }
{
    place_among(ports, name).unwrap()
}

/// Adds a pair to the rows of a module.
fn add_pair(rows: &mut [u64], one: &Module, pair: &PairPart)
    requires few { length one.now.outputs ≤ 64 }
    requires input { IsIn pair.now.input one.now.inputs }
    requires output { IsIn pair.now.output one.now.outputs }
    requires rows { length rows.old ≡ length one.now.inputs }
    ensures as_many { length rows.new ≡ length rows.old }
    ensures added { AreAdded (pair_in one.now pair.now ∷ []) rows.old rows.new }
{
    let input = port_place(one.inputs(), pair.input.bytes());
    let output = port_place(one.outputs(), pair.output.bytes());
    rows[input] |= 1 << output;
}

/// Adds pairs to the rows of a module.
fn add_pairs(rows: &mut [u64], one: &Module, pairs: &[PairPart])
    requires few { length one.now.outputs ≤ 64 }
    requires known { (e : PairPart) → IsIn e pairs.now → IsIn e.input one.now.inputs × IsIn e.output one.now.outputs }
    requires rows { length rows.old ≡ length one.now.inputs }
    ensures as_many { length rows.new ≡ length rows.old }
    ensures added { AreAdded (map (pair_in one.now) pairs.now) rows.old rows.new }
{
    for pair in pairs {
        add_pair(rows, one, pair);
    }
}

/// The pairs that a deps part names, and no others.
pub fn named_rows(alloc: Global, one: &Module, pairs: &[PairPart]) -> Result<Vec<u64>, AllocError>
    requires formed { IsWellFormedModule one.now }
    requires known { (e : PairPart) → IsIn e pairs.now → IsIn e.input one.now.inputs × IsIn e.output one.now.outputs }
    ensures { IfOk result (λ rows. AreRowsBy (length one.now.inputs) (length one.now.outputs) (names_pair one.now pairs.now) rows.items) }
{
    let mut rows = same_rows(alloc, one.inputs().len(), 0)?;
    add_pairs(&mut rows, one, pairs);
    Ok(rows)
}

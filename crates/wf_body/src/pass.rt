// Passes through a body.
ghost use Rattle.std.specs.Prelude.{◌≡◌, ◌<◌, ◌≤◌, ◌↔◌, ℕ, IsTrue, List, Some, None, map, length, get_or, IfOk};
ghost use Rattle.wf_model.specs.Grammar.{body_of, production_at};
ghost use Rattle.wf_model.specs.Lists.{IsAt};
ghost use Rattle.wf_model.specs.Links.{output};
ghost use Rattle.wf_model.specs.Meaning.{edge_of, pairs_of};
ghost use Rattle.wf_model.specs.WellFormed.{IsWellFormed};
ghost use Rattle.bool_mat.specs.Matrix.{has};
ghost use Rattle.wf_body.specs.Body.{at_port};
ghost use Rattle.wf_body.specs.Matrices.{HaveRows};
ghost use Rattle.wf_body.specs.Words.{AreFirstOutputs, AreInputs, AreLeading, AreOutputs, AreTold, Enters, source};

use crate::leading::leading;
use crate::order::order;
use crate::standing::{output_count, standing};
use crate::word::add;
use bool_mat::{column, single, union};
use std::alloc::{AllocError, Global};
use wf_spec::{Deps, Edge, Grammar, ModNo, PosNo, ProdNo};

/// For each port of each position the word of the sources that reach it.
#[derive(Drop)]
pub struct Words {
    pub ins: Vec<[u64; 64]>,
    pub outs: Vec<[u64; 64]>,
}

/// For each input of a position the word of the inputs of the head from which entries lead to it.
fn entered(g: &Grammar, p: ProdNo, k: PosNo) -> [u64; 64]
    requires { p.0 < length g.now.core.productions }
    ensures { (j x : ℕ) → IsTrue (has (get_or result j 0) x) ↔ IsAt (at_port k.0 j) x (production_at g.now.core p.0).entries }
{
    let entries = g.production(p).entries();
    let mut words = [0u64; 64];
    for h in 0..entries.len() {
        let to = entries[h];
        if to.pos.0 == k.0 {
            add(&mut words, to.port.0 as usize, single(h as u32));
        }
    }
    words
}

/// For each input of a position the word of the sources that entries lead to it.
fn begun(g: &Grammar, p: ProdNo, from: Option<PosNo>, k: PosNo) -> [u64; 64]
    requires { p.0 < length g.now.core.productions }
    ensures { (j x : ℕ) → IsTrue (has (get_or result j 0) x) ↔ Enters g.now.core p.0 from k.0 j x }
{
    match from {
        None => entered(g, p, k),
        Some(_) => [0u64; 64],
    }
}

/// The words of the inputs of a position.
fn ins_of(
    g: &Grammar,
    p: ProdNo,
    from: Option<PosNo>,
    k: PosNo,
    leading: &[Edge],
    outs: &[[u64; 64]],
) -> [u64; 64]
    requires formed { IsWellFormed g.now.core }
    requires production { p.0 < length g.now.core.productions }
    requires leading { AreLeading g.now.core p.0 k.0 (map edge_of leading.now) }
    requires outs { length outs.now ≡ length (body_of g.now.core p.0) }
    ensures { AreInputs g.now.core p.0 from k.0 outs.now result }
{
    let mut ins = begun(g, p, from, k);
    for e in leading {
        let word = outs[e.from.pos.0 as usize][e.from.port.0 as usize];
        add(&mut ins, e.to.port.0 as usize, word);
    }
    ins
}

/// The word of the source that is an output of a position, if one is.
fn itself(from: Option<PosNo>, k: PosNo, o: u32) -> u64
    requires { o < 64 }
    ensures { (x : ℕ) → IsTrue (has result x) ↔ (source from x ≡ output (Some k.0) o) }
{
    match from {
        Some(s) if s.0 == k.0 => single(o),
        _ => 0,
    }
}

/// The rows of a module.
fn rows_of(deps: &Deps, m: ModNo) -> &[u64]
    requires { m.0 < length deps.now }
    ensures { (rows : List ℕ) → get_or deps.now m.0 None ≡ Some rows → result.now ≡ rows }
{
    match deps.rows(m) {
        Some(rows) => rows,
        None => &[],
    }
}

/// The words of so many outputs of a position whose module has these rows.
fn outs_by(from: Option<PosNo>, k: PosNo, ins: &[u64; 64], rows: &[u64], count: usize) -> [u64; 64]
    requires rows { length rows.now ≤ 64 }
    requires count { count ≤ 64 }
    ensures { AreFirstOutputs from k.0 ins.now rows.now count result }
{
    let mut outs = [0u64; 64];
    for o in 0..count {
        outs[o] = union(column(rows, o as u32), ins, 64) | itself(from, k, o as u32);
    }
    outs
}

/// The words of the outputs of a position.
fn outs_of(
    g: &Grammar,
    p: ProdNo,
    from: Option<PosNo>,
    k: PosNo,
    ins: &[u64; 64],
    deps: &Deps,
) -> [u64; 64]
    requires production { p.0 < length g.now.core.productions }
    requires position { k.0 < length (body_of g.now.core p.0) }
    requires rows { HaveRows g.now.core p.0 deps.now }
    ensures { AreOutputs g.now.core (pairs_of deps.now) p.0 from k.0 ins.now result }
{
    let m = standing(g, p, k);
    outs_by(from, k, ins, rows_of(deps, m), output_count(g, m))
}

/// One pass through a body: for each port of each position the word of the sources that reach it, which are the inputs of the head, or the outputs of a position.
///
/// Cost: two looks at each edge, for each position one look at each position and at each entry, and one union of words for each output of each position. Fails only for want of memory.
pub fn pass(
    alloc: Global,
    g: &Grammar,
    p: ProdNo,
    from: Option<PosNo>,
    deps: &Deps,
) -> Result<Words, AllocError>
    requires production { p.0 < length g.now.core.productions }
    requires rows { HaveRows g.now.core p.0 deps.now }
    ensures { IfOk result (λ w. AreTold g.now.core (pairs_of deps.now) p.0 from w.ins.items w.outs.items) }
{
    let order = order(alloc, g, p)?;
    let leading = leading(alloc, g, p)?;
    let count = g.production(p).positions().len();
    let mut ins = vec![in alloc; [0u64; 64]; count]?;
    let mut outs = vec![in alloc; [0u64; 64]; count]?;
    for k in &order {
        let at = k.0 as usize;
        let row = ins_of(g, p, from, *k, &leading[at], &outs);
        outs[at] = outs_of(g, p, from, *k, &row, deps);
        ins[at] = row;
    }
    Ok(Words { ins, outs })
}

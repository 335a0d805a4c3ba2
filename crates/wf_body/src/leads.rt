// Matrices of the paths from sources.
ghost use Rattle.std.specs.Prelude.{◌≡◌, ◌<◌, ◌≤◌, ℕ, length, take, IfOk, OnErr, get_or, []};
ghost use Rattle.wf_model.specs.Grammar.{Inner as InnerSeen, body_of, inputs_of, production_at};
ghost use Rattle.wf_model.specs.Lists.{IsAt};
ghost use Rattle.wf_model.specs.Meaning.{pairs_of};
ghost use Rattle.wf_model.specs.WellFormed.{IsWellFormed};
ghost use Rattle.bool_mat.specs.Matrix.{Adds, matrix_at};
ghost use Rattle.wf_body.specs.Matrices.{AreSourcesOf, HaveRows, LeadsToExits, LeadsToInputs, sources_of, LeadToAllInputs};
ghost use Rattle.wf_body.specs.Words.{word_at};

use crate::pass::pass;
use crate::standing::{input_count, output_count, standing};
use crate::turned::push_turned;
use bool_mat::{MatNo, MatPool};
use std::alloc::{AllocError, Global};
use wf_spec::{Deps, Grammar, PosNo, ProdNo};

/// How many sources there are.
fn source_count(g: &Grammar, p: ProdNo, from: Option<PosNo>) -> usize
    requires production { p.0 < length g.now.core.productions }
    requires sources { AreSourcesOf g.now.core p.0 from }
    ensures count { result ≡ sources_of g.now.core p.0 from }
    ensures few { result ≤ 64 }
    ensures formed { IsWellFormed g.now.core }
{
    match from {
        None => input_count(g, g.production(p).head()),
        Some(s) => output_count(g, standing(g, p, s)),
    }
}

/// For each output of the head the word of the output from which its exit leads.
fn at_exits(g: &Grammar, p: ProdNo, outs: &[[u64; 64]]) -> [u64; 64]
    requires production { p.0 < length g.now.core.productions }
    requires outs { length outs.now ≡ length (body_of g.now.core p.0) }
    ensures words { (o : ℕ) (i : InnerSeen) → IsAt i o (production_at g.now.core p.0).exits → get_or result o 0 ≡ word_at outs.now i.position i.port }
    ensures room { length result ≡ 64 }
{
    let exits = g.production(p).exits();
    let mut words = [0u64; 64];
    for o in 0..exits.len() {
        let port = exits[o];
        words[o] = outs[port.pos.0 as usize][port.port.0 as usize];
    }
    words
}

/// The words of the inputs of a position.
fn input_words<'a>(g: &Grammar, p: ProdNo, k: PosNo, ins: &'a [[u64; 64]]) -> &'a [u64]
    requires production { p.0 < length g.now.core.productions }
    requires position { k.0 < length (body_of g.now.core p.0) }
    requires ins { length ins.now ≡ length (body_of g.now.core p.0) }
    ensures words { result.now ≡ take (inputs_of g.now.core (get_or (body_of g.now.core p.0) k.0 0)) (get_or ins.now k.0 []) }
    ensures count { length result.now ≡ inputs_of g.now.core (get_or (body_of g.now.core p.0) k.0 0) }
    ensures few { length result.now ≤ 64 }
    ensures formed { IsWellFormed g.now.core }
{
    let count = input_count(g, standing(g, p, k));
    &ins[k.0 as usize][..count]
}

/// Pushes the matrix of the paths from sources to the outputs of the head.
pub fn push_to_exits(
    alloc: Global,
    g: &Grammar,
    p: ProdNo,
    from: Option<PosNo>,
    deps: &Deps,
    pool: &mut MatPool,
) -> Result<MatNo, AllocError>
    requires production { p.0 < length g.now.core.productions }
    requires sources { AreSourcesOf g.now.core p.0 from }
    requires rows { HaveRows g.now.core p.0 deps.now }
    ensures added { IfOk result (λ m. Adds pool.old pool.new m.0 1) }
    ensures leads { IfOk result (λ m. LeadsToExits g.now.core (pairs_of deps.now) p.0 from (matrix_at pool.new m.0)) }
    ensures err { OnErr result (pool.new ≡ pool.old) }
    ensures formed { IsWellFormed g.now.core }
{
    let sources = source_count(g, p, from);
    let words = pass(alloc, g, p, from, deps)?;
    let exits = at_exits(g, p, &words.outs);
    let count = output_count(g, g.production(p).head());
    push_turned(pool, &exits[..count], sources)
}

/// Pushes the matrix of the paths from sources to the inputs of a position.
pub fn push_to_inputs(
    alloc: Global,
    g: &Grammar,
    p: ProdNo,
    from: Option<PosNo>,
    k: PosNo,
    deps: &Deps,
    pool: &mut MatPool,
) -> Result<MatNo, AllocError>
    requires production { p.0 < length g.now.core.productions }
    requires sources { AreSourcesOf g.now.core p.0 from }
    requires position { k.0 < length (body_of g.now.core p.0) }
    requires rows { HaveRows g.now.core p.0 deps.now }
    ensures added { IfOk result (λ m. Adds pool.old pool.new m.0 1) }
    ensures leads { IfOk result (λ m. LeadsToInputs g.now.core (pairs_of deps.now) p.0 from k.0 (matrix_at pool.new m.0)) }
    ensures err { OnErr result (pool.new ≡ pool.old) }
    ensures formed { IsWellFormed g.now.core }
{
    let sources = source_count(g, p, from);
    let words = pass(alloc, g, p, from, deps)?;
    let row = input_words(g, p, k, &words.ins);
    push_turned(pool, row, sources)
}

/// Pushes the matrices of the paths from sources to the inputs of each position, in order.
pub fn push_to_all_inputs(
    alloc: Global,
    g: &Grammar,
    p: ProdNo,
    from: Option<PosNo>,
    deps: &Deps,
    pool: &mut MatPool,
) -> Result<MatNo, AllocError>
    requires production { p.0 < length g.now.core.productions }
    requires sources { AreSourcesOf g.now.core p.0 from }
    requires rows { HaveRows g.now.core p.0 deps.now }
    ensures added { IfOk result (λ m. Adds pool.old pool.new m.0 (length (body_of g.now.core p.0))) }
    ensures leads { IfOk result (λ m. LeadToAllInputs g.now.core (pairs_of deps.now) p.0 from pool.new m.0) }
    ensures err { OnErr result (take (length pool.old) pool.new ≡ pool.old) }
{
    let sources = source_count(g, p, from);
    let words = pass(alloc, g, p, from, deps)?;
    let count = g.production(p).positions().len();
    let first = MatNo(pool.len());
    for k in 0..count {
        push_turned(pool, input_words(g, p, PosNo(k as u8), &words.ins), sources)?;
    }
    Ok(first)
}

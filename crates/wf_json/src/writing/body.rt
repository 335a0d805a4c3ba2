// The positions, edges, entries and exits of a production.
ghost use Rattle.std.specs.Prelude.{◌≡◌, ◌<◌, OnOk, length};
ghost use Rattle.wf_json.specs.Canonical.{edge_text, entries_of, entry_text, exit_text, exits_of, list_of, position_at, position_text};
ghost use Rattle.wf_json.specs.Writing.{Takes, edge_at, entry_at, exit_at};
ghost use Rattle.wf_model.specs.Grammar.{module_at, production_at};

use super::list::put_list;
use super::port::{place, put_input, put_output};
use crate::text_sink::TextSink;
use std::alloc::AllocError;
use wf_spec::{Grammar, Module, ProdNo};

/// The module that a production expands.
pub(crate) fn head(g: &Grammar, p: ProdNo) -> &Module
    requires { p.0 < length g.now.core.productions }
    ensures { result.now ≡ module_at g.now.core (production_at g.now.core p.0).head }
{
    &g.modules()[g.production(p).head().0 as usize]
}

/// Writes a position.
fn put_position<S: TextSink>(
    out: &mut S,
    g: &Grammar,
    p: ProdNo,
    k: usize,
) -> Result<(), AllocError>
    requires production { p.0 < length g.now.core.productions }
    requires position { k < length (production_at g.now.core p.0).positions }
    ensures { OnOk result (Takes S.holds out.old out.new (position_text g.now.core (position_at (production_at g.now.core p.0) k))) }
{
    let (name, module) = place(g, p, k);
    out.put(b"[\"")?;
    out.put(name)?;
    out.put(b"\",\"")?;
    out.put(module.name())?;
    out.put(b"\"]")
}

/// Writes an edge.
fn put_edge<S: TextSink>(out: &mut S, g: &Grammar, p: ProdNo, k: usize) -> Result<(), AllocError>
    requires production { p.0 < length g.now.core.productions }
    requires edge { k < length (production_at g.now.core p.0).edges }
    ensures { let r = production_at g.now.core p.0 in OnOk result (Takes S.holds out.old out.new (edge_text g.now.core r (edge_at r k))) }
{
    let edge = g.production(p).edges()[k];
    out.put(b"[\"")?;
    put_output(out, g, p, edge.from)?;
    out.put(b"\",\"")?;
    put_input(out, g, p, edge.to)?;
    out.put(b"\"]")
}

/// Writes an input of the head with the input to which it leads.
fn put_entry<S: TextSink>(out: &mut S, g: &Grammar, p: ProdNo, k: usize) -> Result<(), AllocError>
    requires production { p.0 < length g.now.core.productions }
    requires entry { k < length (production_at g.now.core p.0).entries }
    ensures { let r = production_at g.now.core p.0 in OnOk result (Takes S.holds out.old out.new (entry_text g.now.core r (entry_at g.now.core r k))) }
{
    let to = g.production(p).entries()[k];
    out.put(b"[\"")?;
    out.put(head(g, p).inputs()[k].bytes())?;
    out.put(b"\",\"")?;
    put_input(out, g, p, to)?;
    out.put(b"\"]")
}

/// Writes an output of the head with the output from which it comes.
fn put_exit<S: TextSink>(out: &mut S, g: &Grammar, p: ProdNo, k: usize) -> Result<(), AllocError>
    requires production { p.0 < length g.now.core.productions }
    requires exit { k < length (production_at g.now.core p.0).exits }
    ensures { let r = production_at g.now.core p.0 in OnOk result (Takes S.holds out.old out.new (exit_text g.now.core r (exit_at g.now.core r k))) }
{
    let from = g.production(p).exits()[k];
    out.put(b"[\"")?;
    put_output(out, g, p, from)?;
    out.put(b"\",\"")?;
    out.put(head(g, p).outputs()[k].bytes())?;
    out.put(b"\"]")
}

/// Writes the positions of a production.
pub(crate) fn put_positions<S: TextSink>(
    out: &mut S,
    g: &Grammar,
    p: ProdNo,
) -> Result<(), AllocError>
    requires { p.0 < length g.now.core.productions }
    ensures { OnOk result (Takes S.holds out.old out.new (list_of (position_text g.now.core) (production_at g.now.core p.0).positions)) }
{
    let count = g.production(p).positions().len();
    put_list(out, count, |out, k| put_position(out, g, p, k))
}

/// Writes its edges.
pub(crate) fn put_edges<S: TextSink>(out: &mut S, g: &Grammar, p: ProdNo) -> Result<(), AllocError>
    requires { p.0 < length g.now.core.productions }
    ensures { let r = production_at g.now.core p.0 in OnOk result (Takes S.holds out.old out.new (list_of (edge_text g.now.core r) r.edges)) }
{
    let count = g.production(p).edges().len();
    put_list(out, count, |out, k| put_edge(out, g, p, k))
}

/// Writes its entries, in the order of the head's inputs.
pub(crate) fn put_entries<S: TextSink>(
    out: &mut S,
    g: &Grammar,
    p: ProdNo,
) -> Result<(), AllocError>
    requires { p.0 < length g.now.core.productions }
    ensures { let r = production_at g.now.core p.0 in OnOk result
        (Takes S.holds out.old out.new (list_of (entry_text g.now.core r) (entries_of g.now.core r))) }
{
    let count = g.production(p).entries().len();
    put_list(out, count, |out, k| put_entry(out, g, p, k))
}

/// Writes its exits, in the order of the head's outputs.
pub(crate) fn put_exits<S: TextSink>(out: &mut S, g: &Grammar, p: ProdNo) -> Result<(), AllocError>
    requires { p.0 < length g.now.core.productions }
    ensures { let r = production_at g.now.core p.0 in OnOk result (Takes S.holds out.old out.new (list_of (exit_text g.now.core r) (exits_of g.now.core r))) }
{
    let count = g.production(p).exits().len();
    put_list(out, count, |out, k| put_exit(out, g, p, k))
}

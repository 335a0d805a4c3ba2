// Productions.
ghost use Rattle.std.specs.Prelude.{◌<◌, ◌≤◌, OnOk, length, take};
ghost use Rattle.wf_json.specs.Canonical.{list_of, production_text};
ghost use Rattle.wf_json.specs.Writing.{Takes};
ghost use Rattle.wf_model.specs.Grammar.{production_at};

use super::body::{head, put_edges, put_entries, put_exits, put_positions};
use super::list::put_list;
use super::text::put_quoted;
use crate::text_sink::TextSink;
use std::alloc::AllocError;
use wf_spec::{Grammar, ProdNo};

/// Writes a production.
fn put_production<S: TextSink>(out: &mut S, g: &Grammar, k: usize) -> Result<(), AllocError>
    requires { k < length g.now.core.productions }
    ensures { OnOk result (Takes S.holds out.old out.new (production_text g.now.core (production_at g.now.core k))) }
{
    let _productions = g.productions();
    prove!(k < 1024);
    let p = ProdNo(k as u16);
    out.put(b"{\"head\":")?;
    put_quoted(out, head(g, p).name())?;
    out.put(b",\"body\":")?;
    put_positions(out, g, p)?;
    out.put(b",\"edges\":")?;
    put_edges(out, g, p)?;
    out.put(b",\"in\":")?;
    put_entries(out, g, p)?;
    out.put(b",\"out\":")?;
    put_exits(out, g, p)?;
    out.put(b"}")
}

/// Writes the first `count` productions of a grammar as a list.
pub(crate) fn put_productions<S: TextSink>(
    out: &mut S,
    g: &Grammar,
    count: usize,
) -> Result<(), AllocError>
    requires { count ≤ length g.now.core.productions }
    ensures { OnOk result (Takes S.holds out.old out.new (list_of (production_text g.now.core) (take count g.now.core.productions))) }
{
    put_list(out, count, |out, k| put_production(out, g, k))
}

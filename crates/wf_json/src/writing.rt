// Writing the canonical text of a grammar.
ghost use Rattle.std.specs.Prelude.{◌≡◌, ◌≤◌, length, IfOk, OnOk};
ghost use Rattle.wf_json.specs.Canonical.{canonical_of, members_of};
ghost use Rattle.wf_json.specs.Writing.{Takes, first_members, first_text};

mod body;
mod list;
mod module;
mod port;
mod production;
mod text;

use crate::text_sink::TextSink;
pub use list::put_list;
use module::put_modules;
use production::put_productions;
use std::alloc::{AllocError, Global};
pub use text::put_quoted;
use wf_spec::Grammar;

/// The canonical text of a grammar: its specification in JSON without the given pairs, on one line without spaces, with every member written.
///
/// Errors: want of memory alone. Cost: linear in the text.
pub fn canonical(alloc: Global, g: &Grammar) -> Result<Vec<u8>, AllocError>
    ensures { IfOk result (λ v. v.items ≡ canonical_of g.now.core) }
{
    let mut out = Vec::new(alloc);
    put_first(&mut out, g, g.modules().len(), g.productions().len())?;
    Ok(out)
}

/// Writes the canonical text of a grammar with its first modules and its first productions alone.
pub(crate) fn put_first<S: TextSink>(
    out: &mut S,
    g: &Grammar,
    modules: usize,
    productions: usize,
) -> Result<(), AllocError>
    requires modules { modules ≤ length g.now.core.modules }
    requires productions { productions ≤ length g.now.core.productions }
    ensures { OnOk result (Takes S.holds out.old out.new (first_text g.now.core modules productions)) }
{
    out.put(b"{")?;
    put_first_members(out, g, modules, productions)?;
    out.put(b"}")
}

/// Writes the members `start`, `modules` and `productions` of a grammar, as its canonical text has them, with commas between. Other members may stand before them and behind them.
///
/// Errors: those of the sink. Cost: linear in the text.
pub fn put_members<S: TextSink>(out: &mut S, g: &Grammar) -> Result<(), AllocError>
    ensures { OnOk result (Takes S.holds out.old out.new (members_of g.now.core)) }
{
    put_first_members(out, g, g.modules().len(), g.productions().len())
}

/// Writes these members with the first modules and the first productions alone.
fn put_first_members<S: TextSink>(
    out: &mut S,
    g: &Grammar,
    modules: usize,
    productions: usize,
) -> Result<(), AllocError>
    requires modules { modules ≤ length g.now.core.modules }
    requires productions { productions ≤ length g.now.core.productions }
    ensures { OnOk result (Takes S.holds out.old out.new (first_members g.now.core modules productions)) }
{
    out.put(b"\"start\":")?;
    put_quoted(out, g.modules()[g.start().0 as usize].name())?;
    out.put(b",\"modules\":")?;
    put_modules(out, &g.modules()[..modules])?;
    out.put(b",\"productions\":")?;
    put_productions(out, g, productions)
}

// Modules.
ghost use Rattle.std.specs.Prelude.{◌<◌, [], OnOk, get_or, length};
ghost use Rattle.wf_json.specs.Canonical.{list_of, module_text, text_in_quotes};
ghost use Rattle.wf_json.specs.Writing.{Takes};

use super::list::put_list;
use super::text::put_quoted;
use crate::text_sink::TextSink;
use std::alloc::AllocError;
use wf_spec::{Module, Name};

/// Writes a name of a list.
fn put_name<S: TextSink>(out: &mut S, names: &[Name], k: usize) -> Result<(), AllocError>
    requires { k < length names.now }
    ensures { OnOk result (Takes S.holds out.old out.new (text_in_quotes (get_or names.now k []))) }
{
    put_quoted(out, names[k].bytes())
}

/// Writes a list of names.
fn put_names<S: TextSink>(out: &mut S, names: &[Name]) -> Result<(), AllocError>
    ensures { OnOk result (Takes S.holds out.old out.new (list_of text_in_quotes names.now)) }
{
    put_list(out, names.len(), |out, k| put_name(out, names, k))
}

/// Writes a module of a list.
fn put_module<S: TextSink>(out: &mut S, modules: &[Module], k: usize) -> Result<(), AllocError>
    requires { k < length modules.now }
    ensures { OnOk result (Takes S.holds out.old out.new (module_text (get_or modules.now k (record { name = []; inputs = []; outputs = [] })))) }
{
    let module = &modules[k];
    out.put(b"{\"name\":")?;
    put_quoted(out, module.name())?;
    out.put(b",\"in\":")?;
    put_names(out, module.inputs())?;
    out.put(b",\"out\":")?;
    put_names(out, module.outputs())?;
    out.put(b"}")
}

/// Writes modules as a list.
pub(crate) fn put_modules<S: TextSink>(out: &mut S, modules: &[Module]) -> Result<(), AllocError>
    ensures { OnOk result (Takes S.holds out.old out.new (list_of module_text modules.now)) }
{
    put_list(out, modules.len(), |out, k| put_module(out, modules, k))
}

// Ports of positions.
ghost use Rattle.std.specs.Prelude.{◌≡◌, ◌<◌, OnOk, length};
ghost use Rattle.wf_json.specs.Canonical.{module_there, position_at};
ghost use Rattle.wf_json.specs.Writing.{Takes, input_name, output_name};
ghost use Rattle.wf_model.specs.Grammar.{production_at};
ghost use Rattle.wf_model.specs.Meaning.{inner_of};
ghost use Rattle.wf_model.specs.WellFormed.{IsInnerInput, IsInnerOutput};

use super::text::put_dotted;
use crate::text_sink::TextSink;
use std::alloc::AllocError;
use wf_spec::{Grammar, Inner, Module, ProdNo};

/// The name of a position, and the module that stands there.
pub(crate) fn place(g: &Grammar, p: ProdNo, k: usize) -> (&[u8], &Module)
    requires production { p.0 < length g.now.core.productions }
    requires position { k < length (production_at g.now.core p.0).positions }
    ensures name { result.0.now ≡ (position_at (production_at g.now.core p.0) k).name }
    ensures stands { result.1.now ≡ module_there g.now.core (production_at g.now.core p.0) k }
{
    let position = &g.production(p).positions()[k];
    let module = &g.modules()[position.module.0 as usize];
    (position.name.bytes(), module)
}

/// Writes an input of a position.
pub(crate) fn put_input<S: TextSink>(
    out: &mut S,
    g: &Grammar,
    p: ProdNo,
    i: Inner,
) -> Result<(), AllocError>
    requires production { p.0 < length g.now.core.productions }
    requires port { IsInnerInput g.now.core p.0 (inner_of i) }
    ensures { OnOk result (Takes S.holds out.old out.new (input_name g.now.core (production_at g.now.core p.0) (inner_of i))) }
{
    let (position, module) = place(g, p, i.pos.0 as usize);
    put_dotted(out, position, module.inputs()[i.port.0 as usize].bytes())
}

/// Writes an output of a position.
pub(crate) fn put_output<S: TextSink>(
    out: &mut S,
    g: &Grammar,
    p: ProdNo,
    i: Inner,
) -> Result<(), AllocError>
    requires production { p.0 < length g.now.core.productions }
    requires port { IsInnerOutput g.now.core p.0 (inner_of i) }
    ensures { OnOk result (Takes S.holds out.old out.new (output_name g.now.core (production_at g.now.core p.0) (inner_of i))) }
{
    let (position, module) = place(g, p, i.pos.0 as usize);
    put_dotted(out, position, module.outputs()[i.port.0 as usize].bytes())
}

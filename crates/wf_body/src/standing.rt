// The modules that stand at positions.
ghost use Rattle.std.specs.Prelude.{◌≡◌, ◌<◌, ◌≤◌, length};
ghost use Rattle.wf_model.specs.Grammar.{body_of, inputs_of, outputs_of};
ghost use Rattle.wf_model.specs.Lists.{IsAt};
ghost use Rattle.wf_model.specs.WellFormed.{IsWellFormed};

use wf_spec::{Grammar, ModNo, PosNo, ProdNo};

/// The module at a position.
pub fn standing(g: &Grammar, p: ProdNo, k: PosNo) -> ModNo
    requires production { p.0 < length g.now.core.productions }
    requires position { k.0 < length (body_of g.now.core p.0) }
    ensures stands { IsAt result.0 k.0 (body_of g.now.core p.0) }
    ensures within { result.0 < length g.now.core.modules }
    ensures formed { IsWellFormed g.now.core }
{
    g.production(p).positions()[k.0 as usize].module
}

/// How many inputs a module has.
pub fn input_count(g: &Grammar, m: ModNo) -> usize
    requires { m.0 < length g.now.core.modules }
    ensures count { result ≡ inputs_of g.now.core m.0 }
    ensures few { result ≤ 64 }
{
    g.modules()[m.0 as usize].inputs().len()
}

/// How many outputs a module has.
pub fn output_count(g: &Grammar, m: ModNo) -> usize
    requires { m.0 < length g.now.core.modules }
    ensures count { result ≡ outputs_of g.now.core m.0 }
    ensures few { result ≤ 64 }
{
    g.modules()[m.0 as usize].outputs().len()
}

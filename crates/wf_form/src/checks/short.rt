// Names of 1 to 64 letters, digits, `_` and `-`.
ghost use Rattle.std.specs.Prelude.{◌≡◌, ◌&&◌};
ghost use Rattle.std.specs.List.{list_all};
ghost use Rattle.wf_model.specs.Faults.{is_short_name};
ghost use Rattle.wf_spec.specs.FirstFaults.{each, IsFirstFailing};
ghost use Rattle.wf_form.specs.Rules.{HasShortNames, HasShortPositions};
ghost use Rattle.wf_form.specs.declared.fault.Spot.TheVariants.{Module as AtModule, Production as AtProduction};
ghost use Rattle.wf_form.specs.declared.fault.FormFault.TheVariants.{NameBad};

use name_text::{are_short, is_short};
use wf_model::{ModulePart, PosPart, ProdPart};

fn has_short_names(part: &ModulePart) -> bool
    ensures { result ≡ is_short_name part.now.name && list_all is_short_name part.now.inputs && list_all is_short_name part.now.outputs }
{
    is_short(part.name.bytes()) && are_short(part.inputs.items()) && are_short(part.outputs.items())
}

fn has_short_positions(body: &[PosPart]) -> bool
    ensures { result ≡ list_all (λ q. is_short_name q.name) body.now }
{
    body.iter().all(|q| is_short(q.name.bytes()))
}

/// The first module whose name, or the name of one of whose ports, is none of these.
pub fn first_bad_names(modules: &[ModulePart]) -> Option<usize>
    ensures { IsFirstFailing (each modules.now HasShortNames (λ k. NameBad (AtModule k))) result }
{
    modules.iter().position(|m| !has_short_names(m))
}

/// The first production in whose body a position has a name that is none of these.
pub fn first_bad_positions(productions: &[ProdPart]) -> Option<usize>
    ensures { IsFirstFailing (each productions.now HasShortPositions (λ k. NameBad (AtProduction k))) result }
{
    productions
        .iter()
        .position(|p| !has_short_positions(p.body.items()))
}

// The rules on the names of modules where they are used, and on the positions of bodies.
ghost use Rattle.std.specs.Prelude.{◌≡◌, ◌≤◌, ◌⊎◌, ◌&&◌, length, drop, take, IfErr, OnOk};
ghost use Rattle.std.specs.List.{list_all};
ghost use Rattle.wf_model.specs.Faults.{is_one_of};
ghost use Rattle.wf_model.specs.Lists.{IsIn};
ghost use Rattle.wf_spec.specs.FirstFaults.{each, AllHold, IsFirstFailing, IsFirstFault};
ghost use Rattle.wf_form.specs.Rules.{body_rules, first_rules, module_names, HasKnownModules};
ghost use Rattle.wf_form.specs.declared.fault.Spot.TheVariants.{Production as AtProduction, DepsAt};
ghost use Rattle.wf_form.specs.declared.fault.FormFault.TheVariants.{NoMemory, UnknownModule};

use crate::checks::different::first_position_twice;
use crate::checks::sizes::{first_empty_body, first_long_body, sum_of_squares};
use crate::fault::{FormFault, Spot};
use std::alloc::Global;
use wf_model::{DepsPart, Parts, ProdPart};
use wf_names::Names;

fn has_known_modules(names: &Names, rule: &ProdPart) -> bool
    ensures { result ≡ is_one_of names.now rule.now.head && list_all (λ q. is_one_of names.now q.«module») rule.now.body }
{
    names.holds(rule.head.bytes())
        && rule
            .body
            .items()
            .iter()
            .all(|q| names.holds(q.module.bytes()))
}

/// The first production whose head, or the module of one of whose positions, is none of these.
fn first_unknown_rule(names: &Names, productions: &[ProdPart]) -> Option<usize>
    ensures { IsFirstFailing (each productions.now (HasKnownModules names.now) (λ k. UnknownModule (AtProduction k))) result }
{
    productions
        .iter()
        .position(|p| !has_known_modules(names, p))
}

/// The first deps part whose module is none of these.
fn first_unknown_deps(names: &Names, deps: &[DepsPart]) -> Option<usize>
    ensures { IsFirstFailing (each deps.now (λ d. IsIn d.«module» names.now) (λ k. UnknownModule (DepsAt k))) result }
{
    deps.iter().position(|d| !names.holds(d.module.bytes()))
}

/// The rules on the names of modules: the start, the heads, the modules of positions and those of deps parts are modules.
fn check_known(names: &Names, parts: &Parts) -> Result<(), FormFault>
    requires { names.now ≡ module_names parts.now.modules }
    ensures kept { OnOk result (AllHold (take 3 (body_rules parts.now))) }
    ensures refused { IfErr result (IsFirstFault (take 3 (body_rules parts.now))) }
{
    let productions = parts.productions.items();
    let deps = parts.deps.items();
    if !names.holds(parts.start.bytes()) {
        return Err(FormFault::UnknownModule { at: Spot::Start });
    }
    if let Some(k) = first_unknown_rule(names, productions) {
        return Err(FormFault::UnknownModule {
            at: Spot::Production(k as u64),
        });
    }
    if let Some(k) = first_unknown_deps(names, deps) {
        return Err(FormFault::UnknownModule {
            at: Spot::DepsAt(k as u64),
        });
    }
    Ok(())
}

/// The rules on the positions of bodies.
fn check_positions(alloc: Global, parts: &Parts) -> Result<(), FormFault>
    requires { length parts.now.productions ≤ 1024 }
    ensures kept { OnOk result (AllHold (drop 3 (body_rules parts.now))) }
    ensures refused { IfErr result (λ f. (f ≡ NoMemory) ⊎ IsFirstFault (drop 3 (body_rules parts.now)) f) }
{
    let productions = parts.productions.items();
    if let Some(k) = first_empty_body(productions) {
        return Err(FormFault::EmptyBody {
            production: k as u64,
        });
    }
    if let Some(k) = first_long_body(productions) {
        return Err(FormFault::BodyTooLong {
            production: k as u64,
        });
    }
    if sum_of_squares(productions) > 65536 {
        return Err(FormFault::BodiesTooLarge);
    }
    if let Some(k) = first_position_twice(alloc, productions)? {
        return Err(FormFault::PositionTwice {
            production: k as u64,
        });
    }
    Ok(())
}

/// Whether the rules on the names of modules and on the positions of bodies hold.
///
/// `names` are those of the modules, and the rules of `check_modules` hold.
///
/// Errors: the fault of the first rule that is broken, at the first place, of `UnknownModule`, `EmptyBody`, `BodyTooLong`, `BodiesTooLarge` and `PositionTwice` in this order; `NoMemory` may come at any time.
///
/// Cost: for each head, position and deps part one look-up by hashing, and for each position another and a copy of its name.
pub fn check_bodies(alloc: Global, names: &Names, parts: &Parts) -> Result<(), FormFault>
    requires names { names.now ≡ module_names parts.now.modules }
    requires first { AllHold (first_rules parts.now) }
    ensures kept { OnOk result (AllHold (body_rules parts.now)) }
    ensures refused { IfErr result (λ f. (f ≡ NoMemory) ⊎ IsFirstFault (body_rules parts.now) f) }
{
    check_known(names, parts)?;
    check_positions(alloc, parts)?;
    Ok(())
}

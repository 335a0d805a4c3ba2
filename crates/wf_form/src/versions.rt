// The rules on earlier versions.
ghost use Rattle.std.specs.Prelude.{◌≡◌, ◌≤◌, ◌⊎◌, map, IfErr, IfOk};
ghost use Rattle.wf_model.specs.Lists.{IsIn};
ghost use Rattle.wf_model.specs.Versions.{IsVersion};
ghost use Rattle.wf_spec.specs.FirstFaults.{each, IsFirstFailing, IsFirstFault};
ghost use Rattle.wf_form.specs.Forming.{grammar_of, held_of, version_in, HaveVersions};
ghost use Rattle.wf_form.specs.Rules.{version_rules, AreKept};
ghost use Rattle.wf_form.specs.declared.fault.FormFault.TheVariants.{NoMemory, VersionBad};

use crate::fault::FormFault;
use std::alloc::{AllocError, Global};
use wf_model::{Parts, Seq, VersionPart};
use wf_spec::{Grammar, Version, is_version};

/// The most versions that a specification may name.
const MOST_VERSIONS: usize = 64;

/// The first version that is none of the grammar.
fn first_bad_version(grammar: &Grammar, versions: &[VersionPart]) -> Option<usize>
    ensures { IsFirstFailing (each versions.now (λ v. IsVersion grammar.now.core v.modules v.productions) VersionBad) result }
{
    versions
        .iter()
        .position(|v| !is_version(grammar, v.modules, v.productions))
}

/// The versions of parts.
fn versions_from(alloc: Global, parts: &[VersionPart]) -> Result<Seq<Version>, AllocError>
    requires { (v : VersionPart) → IsIn v parts.now → (v.modules ≤ 1024) × (v.productions ≤ 1024) }
    ensures { IfOk result (λ vs. vs ≡ map version_in parts.now) }
{
    let mut list = Vec::new(alloc);
    for part in parts {
        list.push(Version {
            modules: part.modules as u16,
            productions: part.productions as u16,
        })?;
    }
    Ok(Seq::from_vec(list))
}

/// The grammar of parts with its earlier versions, where the rules on these hold.
///
/// The grammar is that of the parts, and the rules of `check_modules`, `check_bodies` and `wired` hold.
///
/// Errors: the fault of the first rule that is broken, at the first version, of `TooManyVersions` and `VersionBad` in this order; `NoMemory` may come at any time.
///
/// Cost: for each version one look at each position of each of its productions, and 4 bytes.
pub fn versioned(alloc: Global, parts: &Parts, grammar: Grammar) -> Result<Grammar, FormFault>
    requires kept { AreKept parts.now }
    requires grammar { grammar.core ≡ grammar_of parts.now }
    ensures accepted { IfOk result (λ g. (g ≡ held_of parts.now) × HaveVersions parts.now) }
    ensures refused { IfErr result (λ f. (f ≡ NoMemory) ⊎ IsFirstFault (version_rules parts.now) f) }
{
    let versions = parts.versions.items();
    if versions.len() > MOST_VERSIONS {
        return Err(FormFault::TooManyVersions);
    }
    if let Some(k) = first_bad_version(&grammar, versions) {
        return Err(FormFault::VersionBad { version: k as u64 });
    }
    let list = versions_from(alloc, versions)?;
    Ok(grammar.with_versions(list))
}

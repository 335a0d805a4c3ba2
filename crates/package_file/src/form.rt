// The parts of a package, from a JSON value.
ghost use Rattle.std.specs.Prelude.{◌↔◌, ◌≡◌, Some, None, IsTrue, IfOk, IfErr};
ghost use Rattle.serde_json.specs.View.{view};
ghost use Rattle.wf_json.specs.Forms.{member_form};
ghost use Rattle.package_file.specs.Form.{loop_form, SaysGrammar, SaysPackage, IsNumberedOne};
ghost use Rattle.package_file.specs.Unsaid.{IsUnsaid, SaysNoGrammar, SaysNoPackage};

use crate::fault::PackFault;
use crate::parts::{LoopPart, PackageParts};
use serde_json::Value;
use std::alloc::{AllocError, Global};
use wf_json::{FromJson, member, triple};
use wf_model::{DepsPart, ModulePart, Name, Parts, ProdPart, Seq};

impl FromJson for LoopPart {
    ghost form = { loop_form };

    fn from_json(alloc: Global, value: &Value) -> Result<Option<LoopPart>, AllocError> {
        let Some((module, (production, position))) = triple::<Name, u64, u64>(alloc, value)? else {
            return Ok(None);
        };
        Ok(Some(LoopPart {
            module,
            production,
            position,
        }))
    }
}

/// The member of this key, which a package must have in its form.
fn needed<T: FromJson + Drop>(alloc: Global, value: &Value, key: &str) -> Result<T, PackFault>
    ensures said { IfOk result (λ x. member_form key.now T.form (view value.now) ≡ Some x) }
    ensures refused { IfErr result (λ f. IsUnsaid (member_form key.now T.form (view value.now) ≡ None) f) }
{
    match member::<T>(alloc, value, key)? {
        Some(one) => Ok(one),
        None => Err(PackFault::NotPackage),
    }
}

/// The parts of the grammar of a package.
fn grammar_in(alloc: Global, value: &Value) -> Result<Parts, PackFault>
    ensures said { IfOk result (λ parts. SaysGrammar (view value.now) parts) }
    ensures refused { IfErr result (λ f. IsUnsaid (SaysNoGrammar (view value.now)) f) }
{
    let start = needed::<Name>(alloc, value, "start")?;
    let deps = needed::<Seq<DepsPart>>(alloc, value, "deps")?;
    let modules = needed::<Seq<ModulePart>>(alloc, value, "modules")?;
    let productions = needed::<Seq<ProdPart>>(alloc, value, "productions")?;
    Ok(Parts {
        start,
        modules,
        productions,
        deps,
        versions: Seq::from_vec(Vec::new(alloc)),
    })
}

/// Whether the member `package` is the whole number 1.
fn is_numbered_one(alloc: Global, value: &Value) -> Result<bool, AllocError>
    ensures { IfOk result (λ is. IsTrue is ↔ IsNumberedOne (view value.now)) }
{
    match member::<u64>(alloc, value, "package")? {
        Some(number) => Ok(number == 1),
        None => Ok(false),
    }
}

/// The parts of a package.
///
/// Errors: NotPackage where the value says none; NoMemory. Cost: one pass over the value.
pub fn package_in(alloc: Global, value: &Value) -> Result<PackageParts, PackFault>
    ensures said { IfOk result (λ x. SaysPackage (view value.now) x) }
    ensures refused { IfErr result (λ f. IsUnsaid (SaysNoPackage (view value.now)) f) }
{
    if !is_numbered_one(alloc, value)? {
        return Err(PackFault::NotPackage);
    }
    let loops = needed::<Seq<LoopPart>>(alloc, value, "loops")?;
    let grammar = grammar_in(alloc, value)?;
    Ok(PackageParts { grammar, loops })
}

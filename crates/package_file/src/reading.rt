// Reading a package.
ghost use Rattle.std.specs.Prelude.{◌≡◌, ◌⊎◌, [], IfOk, IfErr};
ghost use Rattle.serde_json.specs.View.{view};
ghost use Rattle.wf_json.specs.Reading.{IsReading};
ghost use Rattle.wf_model.specs.Linear.{IsLinear};
ghost use Rattle.wf_model.specs.Proper.{IsProper};
ghost use Rattle.wf_form.specs.Forming.{held_of, IsFormed};
ghost use Rattle.package_file.specs.declared.fault.PackFault.TheVariants.{BadPackage, NoMemory};
ghost use Rattle.package_file.specs.Form.{TellsParts};
ghost use Rattle.package_model.specs.Loops.{AreGoodLoops, AreLoopsOf};
ghost use Rattle.wf_loops.specs.Looped.{loop_in};
ghost use Rattle.package_file.specs.Packed.{said_entries, FormProper, IsGoodWith, IsSafeByDefault, ArePackage, IsDescribedBy, TellsPackage, IsFaultOfBytes, IsBadUnless};

use crate::by_default::is_safe_by_default;
use crate::entries::small_entries;
use crate::fault::PackFault;
use crate::form::package_in;
use crate::packed::Package;
use crate::parts::{LoopPart, PackageParts};
use serde_json::Value;
use std::alloc::Global;
use wf_accept::{AcceptFault, Accepted, Unaccepted, accept};
use wf_form::{FormFault, build_with_key};
use wf_json::{TextFault, read_value};
use wf_loops::{LoopEntry, Looped, LoopsFault};
use wf_model::Parts;
use wf_spec::Grammar;

/// The value of a JSON text.
fn value_of(alloc: Global, bytes: &[u8]) -> Result<Value, PackFault>
    ensures ok { IfOk result (λ v. IsReading bytes.now (view v)) }
    ensures refused { IfErr result (λ f. IsFaultOfBytes bytes.now f) }
{
    match read_value(alloc, bytes) {
        Ok(value) => Ok(value),
        Err(TextFault::NotJson) => Err(PackFault::NotJson),
        Err(TextFault::NoMemory) => Err(PackFault::NoMemory),
    }
}

/// The parts of a package in JSON.
fn parts_of_bytes(alloc: Global, bytes: &[u8]) -> Result<PackageParts, PackFault>
    ensures ok { IfOk result (λ x. TellsParts bytes.now x) }
    ensures refused { IfErr result (λ f. IsFaultOfBytes bytes.now f) }
{
    let value = value_of(alloc, bytes)?;
    package_in(alloc, &value)
}

/// The fault of parts that form no grammar.
fn form_fault(fault: FormFault) -> PackFault
    ensures memory { fault ≡ FormFault.NoMemory → result ≡ NoMemory }
    ensures told { (result ≡ NoMemory) ⊎ (result ≡ BadPackage) }
{
    match fault {
        FormFault::NoMemory => PackFault::NoMemory,
        _ => PackFault::BadPackage,
    }
}

/// The grammar of parts without earlier versions, whose names are hashed with this key.
fn grammar_of_parts(alloc: Global, key: u64, parts: Parts) -> Result<Grammar, PackFault>
    requires { parts.versions ≡ [] }
    ensures grammar { IfOk result (λ g. g ≡ held_of parts) }
    ensures formed { IfOk result (λ _. IsFormed parts) }
    ensures refused { IfErr result (λ f. IsBadUnless (IsFormed parts) f) }
{
    match build_with_key(alloc, key, parts) {
        Ok(grammar) => Ok(grammar),
        Err(fault) => Err(form_fault(fault)),
    }
}

/// The fault of a grammar that is not accepted.
fn accept_fault(unaccepted: &Unaccepted) -> PackFault
    ensures memory { unaccepted.now.fault ≡ AcceptFault.NoMemory → result ≡ NoMemory }
    ensures told { (result ≡ NoMemory) ⊎ (result ≡ BadPackage) }
{
    if matches!(unaccepted.fault, AcceptFault::NoMemory) {
        return PackFault::NoMemory;
    }
    PackFault::BadPackage
}

/// A grammar without earlier versions, if it is proper and strictly linear.
fn accepted(alloc: Global, grammar: Grammar) -> Result<Accepted, PackFault>
    requires { grammar.versions ≡ [] }
    ensures grammar { IfOk result (λ a. a.grammar ≡ grammar) }
    ensures proper { IfOk result (λ _. IsProper grammar.core × IsLinear grammar.core) }
    ensures refused { IfErr result (λ f. IsBadUnless (IsProper grammar.core × IsLinear grammar.core) f) }
{
    match accept(alloc, grammar) {
        Ok(accepted) => {
            let _facts = accepted.grammar();
            Ok(accepted)
        }
        Err(unaccepted) => Err(accept_fault(&unaccepted)),
    }
}

/// The accepted grammar of parts without earlier versions, whose names are hashed with this key.
fn accepted_of_parts(alloc: Global, key: u64, parts: Parts) -> Result<Accepted, PackFault>
    requires { parts.versions ≡ [] }
    ensures grammar { IfOk result (λ a. a.grammar ≡ held_of parts) }
    ensures good { IfOk result (λ _. FormProper parts) }
    ensures refused { IfErr result (λ f. IsBadUnless (FormProper parts) f) }
{
    match grammar_of_parts(alloc, key, parts) {
        Ok(grammar) => accepted(alloc, grammar),
        Err(fault) => Err(fault),
    }
}

/// The package of an accepted grammar with the loops of these entries, of which it is known that its default view is safe.
fn package_of_safe(
    alloc: Global,
    accepted: Accepted,
    entries: &[LoopEntry],
) -> Result<Package, PackFault>
    requires { IsSafeByDefault accepted.grammar.core }
    ensures accepted { IfOk result (λ p. p.accepted ≡ accepted) }
    ensures good { IfOk result (λ _. AreGoodLoops accepted.grammar.core entries.now) }
    ensures loops { IfOk result (λ p. AreLoopsOf accepted.grammar.core entries.now (loop_in p.steps)) }
    ensures refused { IfErr result (λ f. IsBadUnless (AreGoodLoops accepted.grammar.core entries.now) f) }
{
    match Looped::of(alloc, accepted, entries) {
        Ok(looped) => Ok(Package::of_looped(looped)),
        Err(LoopsFault::BadLoops) => Err(PackFault::BadPackage),
        Err(LoopsFault::NoMemory) => Err(PackFault::NoMemory),
    }
}

/// That the default view of an accepted grammar is safe, or the fault that it is not.
fn safe_by_default(alloc: Global, accepted: &Accepted) -> Result<(), PackFault>
    ensures safe { IfOk result (λ _. IsSafeByDefault accepted.now.grammar.core) }
    ensures refused { IfErr result (λ f. IsBadUnless (IsSafeByDefault accepted.now.grammar.core) f) }
{
    if is_safe_by_default(alloc, accepted)? {
        Ok(())
    } else {
        Err(PackFault::BadPackage)
    }
}

/// The entries of the loops of an accepted grammar whose default view is safe, where these can be good loops of it.
fn safe_entries(
    alloc: Global,
    accepted: &Accepted,
    loops: &[LoopPart],
) -> Result<Vec<LoopEntry>, PackFault>
    ensures safe { IfOk result (λ _. IsSafeByDefault accepted.now.grammar.core) }
    ensures entries { IfOk result (λ v. v.items ≡ said_entries loops.now) }
    ensures refused { IfErr result (λ f. IsBadUnless (IsGoodWith accepted.now.grammar.core loops.now) f) }
{
    safe_by_default(alloc, accepted)?;
    small_entries(alloc, accepted, loops)
}

/// `package_of_safe` of entries that are let go.
fn package_of_entries(
    alloc: Global,
    accepted: Accepted,
    entries: Vec<LoopEntry>,
) -> Result<Package, PackFault>
    requires { IsSafeByDefault accepted.grammar.core }
    ensures accepted { IfOk result (λ p. p.accepted ≡ accepted) }
    ensures good { IfOk result (λ _. AreGoodLoops accepted.grammar.core entries.items) }
    ensures loops { IfOk result (λ p. AreLoopsOf accepted.grammar.core entries.items (loop_in p.steps)) }
    ensures refused { IfErr result (λ f. IsBadUnless (AreGoodLoops accepted.grammar.core entries.items) f) }
{
    package_of_safe(alloc, accepted, &entries)
}

/// The package of an accepted grammar with these loops.
fn package_of_accepted(
    alloc: Global,
    accepted: Accepted,
    loops: &[LoopPart],
) -> Result<Package, PackFault>
    ensures accepted { IfOk result (λ p. p.accepted ≡ accepted) }
    ensures good { IfOk result (λ _. IsGoodWith accepted.grammar.core loops.now) }
    ensures loops { IfOk result (λ p. AreLoopsOf accepted.grammar.core (said_entries loops.now) (loop_in p.steps)) }
    ensures refused { IfErr result (λ f. IsBadUnless (IsGoodWith accepted.grammar.core loops.now) f) }
{
    match safe_entries(alloc, &accepted, loops) {
        Ok(entries) => package_of_entries(alloc, accepted, entries),
        Err(fault) => Err(fault),
    }
}

/// The package of a grammar in parts with these loops, whose names are hashed with this key.
fn package_of_grammar(
    alloc: Global,
    key: u64,
    grammar: Parts,
    loops: &[LoopPart],
) -> Result<Package, PackFault>
    requires { grammar.versions ≡ [] }
    ensures described { IfOk result (λ p. IsDescribedBy (record { grammar = grammar; loops = loops.now }) p) }
    ensures good { IfOk result (λ _. ArePackage (record { grammar = grammar; loops = loops.now })) }
    ensures refused { IfErr result (λ f. IsBadUnless (ArePackage (record { grammar = grammar; loops = loops.now })) f) }
{
    match accepted_of_parts(alloc, key, grammar) {
        Ok(accepted) => package_of_accepted(alloc, accepted, loops),
        Err(fault) => Err(fault),
    }
}

/// The package that parts describe, whose names are hashed with this key.
fn package_of_parts(alloc: Global, key: u64, parts: PackageParts) -> Result<Package, PackFault>
    requires { parts.grammar.versions ≡ [] }
    ensures described { IfOk result (λ p. IsDescribedBy parts p) }
    ensures good { IfOk result (λ _. ArePackage parts) }
    ensures refused { IfErr result (λ f. IsBadUnless (ArePackage parts) f) }
{
    let PackageParts { grammar, loops } = parts;
    package_of_grammar(alloc, key, grammar, loops.items())
}

/// Reads a package from its bytes, whoever wrote them; its names are hashed with this key, here and by the grammar.
///
/// The value of the text is an object with all of the members `package`, `start`, `modules`, `productions`, `deps` and `loops`. `package` is the whole number 1; the next four have the forms that they have in a specification; and `loops` is a list of lists of exactly a text and two whole numbers below 2^64: the name of a module, the number of a production and that of a position. Further members are ignored, `versions` among them. Names may hold any bytes. Of a member that is given twice the last counts, and one that is null is there and has not its form.
///
/// Errors: NotJson where the bytes are not UTF-8 or no JSON value of at most 127 levels; NotPackage where the value is no such object; BadPackage where the grammar is not well-formed, proper and strictly linear, or its default view is not safe, or the loops are not good; NoMemory where memory was refused.
///
/// Cost: one reading of the text by `serde_json`, one pass over the value, and those of `build_with_key`, `accept`, `SafeView::of` and `Looped::of`.
pub fn read_package_with_key(alloc: Global, key: u64, bytes: &[u8]) -> Result<Package, PackFault>
    ensures ok { IfOk result (λ p. TellsPackage bytes.now p) }
    ensures refused { IfErr result (λ f. IsFaultOfBytes bytes.now f) }
{
    let parts = parts_of_bytes(alloc, bytes)?;
    package_of_parts(alloc, key, parts)
}

/// Reads a package from its bytes, as `read_package_with_key` with the key 0.
pub fn read_package(alloc: Global, bytes: &[u8]) -> Result<Package, PackFault>
    ensures ok { IfOk result (λ p. TellsPackage bytes.now p) }
    ensures refused { IfErr result (λ f. IsFaultOfBytes bytes.now f) }
{
    read_package_with_key(alloc, 0, bytes)
}

// The names of new instances: whether they are taken, and why a run refuses them.
ghost use Rattle.std.specs.Prelude.{◌≡◌, ◌≤◌, ◌+◌, ◌++◌, ◌∷◌, [], false, Some, length, IfSome, IfNone, OnOk, IfErr, OnErr};
ghost use Rattle.wf_model.specs.declared.event.RunFault.TheVariants.{NoMemory};
ghost use Rattle.wf_model.specs.Faults.{is_one_of, some_twice};
ghost use Rattle.run_faults.specs.Order.{names_fault};
ghost use Rattle.run_faults.specs.NewNames.{AreNamesRefused};

use wf_names::{HeldName, Names};
use wf_spec::{Name, RunFault};

fn is_among(names: &[Name], name: &[u8]) -> bool
    ensures { result ≡ is_one_of names.now name.now }
{
    for one in names {
        if name == one.bytes() {
            return true;
        }
    }
    false
}

/// Whether a name of the list is taken, or stands twice in it.
fn repeats<K: HeldName>(taken: &Names<K>, names: &[Name]) -> bool
    ensures { result ≡ some_twice taken.now names.now }
{
    for k in 0..names.len() {
        let name = names[k].bytes();
        if taken.holds(name) || is_among(&names[..k], name) {
            return true;
        }
    }
    false
}

/// Why names cannot be those of new instances of a run of at most `most`; None where they can. The table has the names of the instances.
///
/// In order of trial: `NameTwice`, `TooManyInstances`.
///
/// Cost: one look-up for each of the names, which is also compared with those before it.
pub fn fault_of_names<K: HeldName>(most: u32, taken: &Names<K>, names: &[Name]) -> Option<RunFault>
    ensures { result ≡ names_fault most taken.now names.now }
{
    if repeats(taken, names) {
        return Some(RunFault::NameTwice);
    }
    if (most as usize) < taken.count().saturating_add(names.len()) {
        return Some(RunFault::TooManyInstances);
    }
    None
}

/// Why names are refused for which a run of at most `most` instances has no room; None where it has room for them, whether they are taken or not. The table has the names of the instances.
///
/// Cost: where there is no room, that of `fault_of_names`.
pub fn fault_without_room<K: HeldName>(
    most: u32,
    taken: &Names<K>,
    names: &[Name],
) -> Option<RunFault>
    ensures fault { IfSome result (λ f. names_fault most taken.now names.now ≡ Some f) }
    ensures room { IfNone result (length taken.now + length names.now ≤ most) }
{
    if taken.count().saturating_add(names.len()) <= most as usize {
        return None;
    }
    fault_of_names(most, taken, names)
}

/// Takes the names of new instances, all or none.
///
/// Errors: `NameTwice` where one is taken already, or stands twice among them; `NoMemory`. The first that is met is told.
///
/// Cost: one look-up for each name.
pub fn take_names<K: HeldName>(taken: &mut Names<K>, names: &[Name]) -> Result<(), RunFault>
    ensures fresh { OnOk result (some_twice taken.old names.now ≡ false) }
    ensures added { OnOk result (taken.new ≡ taken.old ++ names.now) }
    ensures refused { IfErr result (AreNamesRefused taken.old names.now) }
    ensures unchanged { OnErr result (taken.new ≡ taken.old) }
{
    let are_new = taken.insert_all(names)?;
    if !are_new {
        return Err(RunFault::NameTwice);
    }
    Ok(())
}

/// Adds the first instance of a run with its name, or leaves all as it was. The only error is that memory is refused.
pub fn plant<K: HeldName, X: Drop>(
    taken: &mut Names<K>,
    instances: &mut Vec<X>,
    root: X,
    name: &[u8],
) -> Result<(), RunFault>
    requires no_names { taken.old ≡ [] }
    requires no_instances { instances.old.items ≡ [] }
    ensures names { OnOk result (taken.new ≡ name.now ∷ []) }
    ensures instances { OnOk result (instances.new.items ≡ root ∷ []) }
    ensures refused { IfErr result (λ f. f ≡ NoMemory) }
    ensures same_names { OnErr result (taken.new ≡ taken.old) }
    ensures same_instances { OnErr result (instances.new.items ≡ instances.old.items) }
{
    instances.push(root)?;
    if let Err(_) = taken.add(name) {
        instances.truncate(0);
        return Err(RunFault::NoMemory);
    }
    Ok(())
}

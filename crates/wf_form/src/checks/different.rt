// Names that differ, found by hashing.
ghost use Rattle.std.specs.Prelude.{◌≡◌, ◌++◌, [], not, map, IfOk};
ghost use Rattle.std.specs.Bool.{OnTrue};
ghost use Rattle.wf_model.specs.Faults.{some_twice};
ghost use Rattle.wf_spec.specs.FirstFaults.{each, IsFirstFailing};
ghost use Rattle.wf_form.specs.Rules.{position_names, HasDifferentPorts};
ghost use Rattle.wf_model.specs.Lists.{AllDiffer};
ghost use Rattle.wf_form.specs.declared.fault.FormFault.TheVariants.{PortTwice, PositionTwice};

use std::alloc::{AllocError, Global};
use wf_model::{ModulePart, Name, PosPart, ProdPart};
use wf_names::Names;

/// Takes the names one by one, and stops at the first that is taken.
fn take_new(taken: &mut Names, names: &[Name]) -> Result<bool, AllocError>
    ensures told { IfOk result (λ b. b ≡ not (some_twice taken.old names.now)) }
    ensures added { IfOk result (λ b. OnTrue b (taken.new ≡ taken.old ++ names.now)) }
{
    for name in names {
        if taken.holds(name.bytes()) {
            return Ok(false);
        }
        taken.add(name.bytes())?;
    }
    Ok(true)
}

/// Whether the names of ports differ, those of both sides together.
fn ports_differ(
    alloc: Global,
    key: u64,
    inputs: &[Name],
    outputs: &[Name],
) -> Result<bool, AllocError>
    ensures { IfOk result (λ b. b ≡ not (some_twice [] (inputs.now ++ outputs.now))) }
{
    let mut taken = Names::with_key(alloc, key);
    let differ = take_new(&mut taken, inputs)?;
    if !differ {
        return Ok(false);
    }
    let differ = take_new(&mut taken, outputs)?;
    Ok(differ)
}

/// Whether the names of the positions of a body differ. A body that is tried has at most 64.
fn positions_differ(alloc: Global, body: &[PosPart]) -> Result<bool, AllocError>
    ensures { IfOk result (λ b. b ≡ not (some_twice [] (map (λ q. q.name) body.now))) }
{
    let mut taken = Names::new(alloc);
    for q in body {
        if taken.holds(q.name.bytes()) {
            return Ok(false);
        }
        taken.add(q.name.bytes())?;
    }
    Ok(true)
}

/// The first module of which two ports have one name.
///
/// Cost: for each module one look-up with the key and one copy of the name of each port.
pub fn first_port_twice(
    alloc: Global,
    key: u64,
    modules: &[ModulePart],
) -> Result<Option<usize>, AllocError>
    ensures { IfOk result (λ answer. IsFirstFailing (each modules.now HasDifferentPorts PortTwice) answer) }
{
    for (k, one) in modules.iter().enumerate() {
        let differ = ports_differ(alloc, key, one.inputs.items(), one.outputs.items())?;
        if !differ {
            return Ok(Some(k));
        }
    }
    Ok(None)
}

/// The first production in whose body two positions have one name.
///
/// Cost: for each position one look-up and one copy of its name.
pub fn first_position_twice(
    alloc: Global,
    productions: &[ProdPart],
) -> Result<Option<usize>, AllocError>
    ensures { IfOk result (λ answer. IsFirstFailing (each productions.now (λ p. AllDiffer (position_names p)) PositionTwice) answer) }
{
    for (k, rule) in productions.iter().enumerate() {
        let differ = positions_differ(alloc, rule.body.items())?;
        if !differ {
            return Ok(Some(k));
        }
    }
    Ok(None)
}

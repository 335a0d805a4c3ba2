// How many ports the positions of a body have.
ghost use Rattle.std.specs.Prelude.{◌≡◌, ◌<◌, ℕ, length, map, IfOk};
ghost use Rattle.wf_model.specs.Lists.{IsIn};
ghost use Rattle.wf_model.specs.Meaning.{position_of};
ghost use Rattle.wf_spec.specs.Bodies.{modules_at};
ghost use Rattle.wf_form.specs.Bodies.{inputs_in, outputs_in};

use std::alloc::{AllocError, Global};
use wf_model::Position;
use wf_spec::Module;

/// How many inputs each position has.
pub fn input_counts(
    alloc: Global,
    modules: &[Module],
    positions: &[Position],
) -> Result<Vec<usize>, AllocError>
    requires { (m : ℕ) → IsIn m (modules_at (map position_of positions.now)) → m < length modules.now }
    ensures { IfOk result (λ counts. counts.items ≡ map (inputs_in modules.now) (modules_at (map position_of positions.now))) }
{
    let mut counts = Vec::new(alloc);
    for q in positions {
        let one = &modules[q.module.0 as usize];
        counts.push(one.inputs().len())?;
    }
    Ok(counts)
}

/// How many outputs each position has.
pub fn output_counts(
    alloc: Global,
    modules: &[Module],
    positions: &[Position],
) -> Result<Vec<usize>, AllocError>
    requires { (m : ℕ) → IsIn m (modules_at (map position_of positions.now)) → m < length modules.now }
    ensures { IfOk result (λ counts. counts.items ≡ map (outputs_in modules.now) (modules_at (map position_of positions.now))) }
{
    let mut counts = Vec::new(alloc);
    for q in positions {
        let one = &modules[q.module.0 as usize];
        counts.push(one.outputs().len())?;
    }
    Ok(counts)
}

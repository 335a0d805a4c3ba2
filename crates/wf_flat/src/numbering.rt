// The ports of the instances of a run by number.
ghost use Rattle.std.specs.Prelude.{◌≡◌, ◌<◌, ◌≤◌, ◌+◌, ◌++◌, ◌∷◌, ◌↔◌, [], ℕ, length, get_or, IfOk, IfSome, IfNone, IsTrue};
ghost use Rattle.wf_flat.specs.Table.{IsTableOf};
ghost use Rattle.wf_flat.specs.Numbering.{side_of, number_of, IsNumbered, AreBegins};

use crate::graph::Port;
use crate::table::PlainRun;
use std::alloc::{AllocError, Global};
use wf_spec::{Grammar, Side};

/// Above the numbers of ports.
pub const PORTS: u32 = 1 << 31;

/// The side of an instance that a port is on, where each instance has two.
fn side_of(x: Port) -> usize
    ensures { result ≡ side_of x }
{
    let place = match x.side {
        Side::Input => 0,
        Side::Output => 1,
    };
    x.instance as usize * 2 + place
}

/// Adds the number that follows those of a side, whose first is given.
fn add_side(begins: &mut Vec<u32>, next: u32, width: usize) -> Result<u32, AllocError>
    requires { width ≤ 64 }
    ensures sum { IfOk result (λ sum. sum ≡ next + width) }
    ensures added { IfOk result (λ sum. begins.new.items ≡ begins.old.items ++ sum ∷ []) }
    ensures small { IfOk result (λ sum. sum ≤ 2147483648) }
{
    let Some(sum) = next.checked_add(width as u32) else {
        return Err(AllocError);
    };
    if sum > PORTS {
        return Err(AllocError);
    }
    begins.push(sum)?;
    Ok(sum)
}

/// The number of the first port of each side of the instances of a run, and last the count of all. Fails only for want of memory; more than 2^31 ports count as such.
pub fn begins_of(alloc: Global, g: &Grammar, run: &PlainRun) -> Result<Vec<u32>, AllocError>
    requires { IsTableOf g.now.core run.now }
    ensures begins { IfOk result (λ begins. AreBegins g.now.core run.now.instances begins.items) }
    ensures small { IfOk result (λ begins. (k : ℕ) → get_or begins.items k 0 ≤ 2147483648) }
{
    // A grammar is well-formed: the module of an instance is there.
    let _formed = g.start();
    let instances = run.instances();
    let mut begins = Vec::with_capacity(alloc, instances.len() * 2 + 1)?;
    let mut next = 0;
    begins.push(next)?;
    for x in instances {
        let module = &g.modules()[x.module.0 as usize];
        let middle = add_side(&mut begins, next, module.inputs().len())?;
        next = add_side(&mut begins, middle, module.outputs().len())?;
    }
    Ok(begins)
}

/// Whether a port has a number.
fn is_numbered(begins: &[u32], x: Port) -> bool
    ensures { IsTrue result ↔ IsNumbered begins.now x }
{
    let side = side_of(x);
    side + 1 < begins.len()
        && begins[side] as usize + (x.port.0 as usize) < begins[side + 1] as usize
}

/// The number of a port that has one.
pub fn number_of(begins: &[u32], x: Port) -> u32
    requires { IsNumbered begins.now x }
    ensures { result ≡ number_of begins.now x }
{
    begins[side_of(x)] + u32::from(x.port.0)
}

/// The number of a port, if it has one.
pub fn number(begins: &[u32], x: Port) -> Option<u32>
    ensures number { IfSome result (λ n. (n ≡ number_of begins.now x) × IsNumbered begins.now x) }
    ensures none { IfNone result (¬ IsNumbered begins.now x) }
{
    if !is_numbered(begins, x) {
        return None;
    }
    Some(number_of(begins, x))
}

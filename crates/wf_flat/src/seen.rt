// What is seen of a run, where flags mark the modules that are expanded.
ghost use Rattle.std.specs.Prelude.{◌≡◌, ◌<◌, ◌≤◌, ◌+◌, ◌^◌, ◌++◌, ℕ, true, false, ◌&&◌, length, IfOk, OnOk};
ghost use Rattle.wf_model.specs.Lists.{IsIn, numbers_from};
ghost use Rattle.wf_flat.specs.Table.{IsTableOf};
ghost use Rattle.wf_flat.specs.Graph.{flag_of, Agree, children_seen};
ghost use Rattle.wf_flat.specs.Seeing.{AreSeenBy};

use crate::table::{Inst, Opened, PlainRun};
use std::alloc::{AllocError, Global};
use wf_spec::{Grammar, ModNo};

/// Whether a flag is set. Past the end none is.
pub fn is_set(flags: &[bool], k: usize) -> bool
    ensures { result ≡ flag_of flags.now k }
{
    k < flags.len() && flags[k]
}

/// Whether a module is marked.
pub fn is_marked(flags: &[bool], m: ModNo) -> bool
    ensures { result ≡ flag_of flags.now m.0 }
{
    is_set(flags, m.0 as usize)
}

/// Marks the children of an opened instance.
fn see(flags: &mut Vec<bool>, seen: &mut Vec<u32>, first: u32, count: u32) -> Result<(), AllocError>
    requires within { first + count ≤ length flags.old.items }
    requires small { first + count < 2 ^ 32 }
    requires agree { Agree flags.old.items seen.old.items }
    ensures seen { OnOk result (seen.new.items ≡ seen.old.items ++ numbers_from first count) }
    ensures agree { OnOk result (Agree flags.new.items seen.new.items) }
    ensures count { OnOk result (length flags.new.items ≡ length flags.old.items) }
{
    for c in first..first + count {
        flags[c as usize] = true;
        seen.push(c)?;
    }
    Ok(())
}

/// Marks the children of an instance that was expanded, if it is open.
fn see_one(
    flags: &mut Vec<bool>,
    seen: &mut Vec<u32>,
    instances: &[Inst],
    expanded: &[bool],
    o: Opened,
) -> Result<(), AllocError>
    requires there { o.instance < length instances.now }
    requires within { o.first + o.count ≤ length instances.now }
    requires small { length instances.now < 2 ^ 32 }
    requires same { length flags.old.items ≡ length instances.now }
    requires agree { Agree flags.old.items seen.old.items }
    ensures seen { OnOk result (seen.new.items ≡ seen.old.items ++ children_seen flags.old.items expanded.now instances.now o) }
    ensures agree { OnOk result (Agree flags.new.items seen.new.items) }
    ensures count { OnOk result (length flags.new.items ≡ length flags.old.items) }
{
    let is_seen = flags[o.instance as usize];
    let x = &instances[o.instance as usize];
    let is_open = is_marked(expanded, x.module);
    if !is_seen {
        return Ok(());
    }
    if !is_open {
        return Ok(());
    }
    see(flags, seen, o.first, o.count)?;
    Ok(())
}

/// The numbers of the instances that are seen, in order of making.
pub fn seen(
    alloc: Global,
    g: &Grammar,
    run: &PlainRun,
    expanded: &[bool],
) -> Result<Vec<u32>, AllocError>
    requires { IsTableOf g.now.core run.now }
    ensures seen { IfOk result (λ s. AreSeenBy g.now.core run.now expanded.now s.items) }
    ensures there { IfOk result (λ s. (k : ℕ) → IsIn k s.items → k < length run.now.instances) }
{
    let instances = run.instances();
    let order = run.order();
    let mut seen = Vec::new(alloc);
    if instances.is_empty() {
        return Ok(seen);
    }
    let mut flags = vec![in alloc; false; instances.len()]?;
    see(&mut flags, &mut seen, 0, 1)?;
    for o in order {
        see_one(&mut flags, &mut seen, instances, expanded, *o)?;
    }
    Ok(seen)
}

// Which instances of a run are open once they are expanded.
ghost use Rattle.std.specs.Prelude.{◌<◌, ℕ, length, IfOk};
ghost use Rattle.wf_model.specs.Lists.{IsIn};
ghost use Rattle.wf_flat.specs.Graph.{MarkOpen};
ghost use Rattle.wf_flat.specs.Seeing.{AreOpenBy};
ghost use Rattle.wf_flat.specs.Table.{IsTableOf};

use crate::seen::{is_marked, seen};
use crate::table::PlainRun;
use std::alloc::{AllocError, Global};
use wf_spec::Grammar;

/// For each instance, whether it is seen and of a marked module, where the numbers of those that are seen are given.
pub fn opens(
    alloc: Global,
    run: &PlainRun,
    seen: &[u32],
    expanded: &[bool],
) -> Result<Vec<bool>, AllocError>
    requires { (k : ℕ) → IsIn k seen.now → k < length run.now.instances }
    ensures { IfOk result (λ flags. MarkOpen flags.items expanded.now run.now.instances seen.now) }
{
    let instances = run.instances();
    let mut flags = vec![in alloc; false; instances.len()]?;
    for k in seen {
        let k = *k as usize;
        let x = &instances[k];
        flags[k] = is_marked(expanded, x.module);
    }
    Ok(flags)
}

/// For each instance of a run, whether it is seen and of a marked module: once it is expanded, it is open.
///
/// Cost: linear in the run. Fails only for want of memory.
pub fn open_flags(
    alloc: Global,
    g: &Grammar,
    run: &PlainRun,
    expanded: &[bool],
) -> Result<Vec<bool>, AllocError>
    requires { IsTableOf g.now.core run.now }
    ensures { IfOk result (λ flags. AreOpenBy g.now.core run.now expanded.now flags.items) }
{
    let all = seen(alloc, g, run, expanded)?;
    let flags = opens(alloc, run, &all, expanded)?;
    Ok(flags)
}

// What modules derive.
ghost use Rattle.std.specs.Prelude.{◌≡◌, ◌<◌, [], false, length, get_or, IfOk};
ghost use Rattle.wf_recur.specs.Reaching.{AreDerived, rows_in};

use std::alloc::{AllocError, Global};
use wf_graph::reached;
use wf_spec::{Grammar, ModNo, making_graph};

/// A row of marks for each module: those that it derives, itself among them. Fails only for want of memory.
///
/// Cost: a search from each module, each with at most one look at each position of each body: with 1,024 modules and bodies whose lengths have squares of sum 65,536, about 8 million looks; and a mark for each pair of modules, at most 1 MiB.
pub fn derived(alloc: Global, g: &Grammar) -> Result<Vec<Vec<bool>>, AllocError>
    ensures { IfOk result (λ rows. AreDerived g.now.core (rows_in rows.items)) }
{
    let graph = making_graph(alloc, g)?;
    let mut rows = Vec::new(alloc);
    for m in 0..g.modules().len() {
        let row = reached(alloc, &graph, m as u32)?;
        rows.push(row)?;
    }
    Ok(rows)
}

/// Whether the rows mark a module as derived from another.
pub fn derives(rows: &[Vec<bool>], from: ModNo, to: ModNo) -> bool
    requires from { from.0 < length rows.now }
    requires to { to.0 < length (get_or (rows_in rows.now) from.0 []) }
    ensures { result ≡ get_or (get_or (rows_in rows.now) from.0 []) to.0 false }
{
    rows[from.0 as usize][to.0 as usize]
}

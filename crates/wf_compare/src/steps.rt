// The steps of the modules that a view expands, and the graph whose edges they are.
ghost use Rattle.std.specs.Prelude.{◌≡◌, ◌<◌, ◌++◌, drop, length, IfOk, OnOk};
ghost use Rattle.wf_compare.specs.Steps.{leadings_by, open_leadings, targets_in, AreOpenRows};

use std::alloc::{AllocError, Global};
use wf_graph::Graph;
use wf_spec::{Grammar, ModNo, PosNo, ProdNo, Step};
use wf_view::{GrammarView, View};

/// A step, and the module to which it leads.
#[derive(Clone, Copy, Drop)]
pub struct Leading {
    pub step: Step,
    pub target: ModNo,
}

/// Adds the steps of a production, by position.
fn add_steps(row: &mut Vec<Leading>, g: &Grammar, production: ProdNo) -> Result<(), AllocError>
    requires { production.0 < length g.now.core.productions }
    ensures { OnOk result (row.new.items ≡ row.old.items ++ leadings_by g.now.core production.0) }
{
    let positions = g.production(production).positions();
    for k in 0..positions.len() {
        row.push(Leading {
            step: Step {
                production,
                position: PosNo(k as u8),
            },
            target: positions[k].module,
        })?;
    }
    Ok(())
}

/// The steps of a module, by production and then by position, if the view expands it; none otherwise.
fn open_steps(alloc: Global, g: &Grammar, view: &View, m: ModNo) -> Result<Vec<Leading>, AllocError>
    requires { m.0 < length g.now.core.modules }
    ensures { IfOk result (λ row. row.items ≡ open_leadings g.now.core view.now.core m.0) }
{
    let mut row = Vec::new(alloc);
    if !view.expanded(m) {
        return Ok(row);
    }
    for production in g.alternatives(m) {
        add_steps(&mut row, g, *production)?;
    }
    Ok(row)
}

/// For each module its steps, if the view expands it. Fails only for want of memory.
///
/// Cost: one look at each position of each body of an expanded module.
pub fn all_open_steps(alloc: Global, v: GrammarView<'_>) -> Result<Vec<Vec<Leading>>, AllocError>
    ensures { IfOk result (λ rows. AreOpenRows v.entry.grammar.now.core v.entry.view.now.core rows.items) }
{
    let mut rows = Vec::new(alloc);
    for k in 0..v.grammar.modules().len() {
        let row = open_steps(alloc, v.grammar, v.view, ModNo(k as u16))?;
        rows.push(row)?;
    }
    Ok(rows)
}

/// The graph of steps: each module leads to the targets of its steps, in order.
#[derive(Clone, Copy)]
pub struct StepGraph<'r> {
    pub rows: &'r [Vec<Leading>],
}

impl Graph for StepGraph<'_> {
    ghost size = { λ g. length g.rows.now };

    ghost leads = { λ g. targets_in g.rows.now };

    ghost rest = { λ g v mark. drop mark (targets_in g.rows.now v) };

    fn size(&self) -> usize {
        self.rows.len()
    }

    fn begin(&self, _: u32) -> usize {
        0
    }

    fn next(&self, v: u32, mark: usize) -> Option<(u32, usize)> {
        let row = &self.rows[v as usize];
        if mark >= row.len() {
            return None;
        }
        Some((u32::from(row[mark].target.0), mark + 1))
    }
}

// The loops of a package.
ghost use Rattle.std.specs.Prelude.{◌≡◌, ◌<◌, ◌≤◌, ◌++◌, ℕ, length, IfOk, OnOk};
ghost use Rattle.wf_model.specs.Lists.{IsIn};
ghost use Rattle.wf_view.specs.Held.{HeldView};
ghost use Rattle.wf_package.specs.Parts.{held_loops, loop_part, made_by_place};

use std::alloc::{AllocError, Global};
use wf_recur::Linear;
use wf_spec::{ModNo, ProdNo, Step};
use wf_view::View;

/// An entry of the loops: the place of a module, and its continuing step, with the place of its production.
#[derive(Clone, Copy, Drop)]
pub(crate) struct Loop {
    pub module: u16,
    pub step: Step,
}

/// Adds the entry of a module that the view expands, if it has a continuing step.
fn add_loop(
    list: &mut Vec<Loop>,
    g: Linear<'_>,
    view: &View,
    places: &[u16],
    k: u16,
    m: ModNo,
) -> Result<(), AllocError>
    requires in_range { m.0 < length g.grammar.now.core.modules }
    requires one_each { length places.now ≡ length g.grammar.now.core.productions }
    ensures { OnOk result (held_loops list.new.items ≡ held_loops list.old.items ++ loop_part g.entry.grammar.now.core view.now.core places.now k m.0) }
{
    let _formed = g.grammar.start();
    if !view.expanded(m) {
        return Ok(());
    }
    let Some(on) = g.cycles.on(m) else {
        return Ok(());
    };
    let production = ProdNo(places[on.step.production.0 as usize]);
    let position = on.step.position;
    list.push(Loop {
        module: k,
        step: Step {
            production,
            position,
        },
    })?;
    Ok(())
}

/// The loops of a package, in order of these modules of the grammar. Fails only for want of memory.
pub(crate) fn placed_loops(
    alloc: Global,
    g: Linear<'_>,
    view: &View,
    places: &[u16],
    numbers: &[u16],
) -> Result<Vec<Loop>, AllocError>
    requires in_range { (m : ℕ) → IsIn m numbers.now → m < length g.grammar.now.core.modules }
    requires few { length numbers.now ≤ 1024 }
    requires one_each { length places.now ≡ length g.grammar.now.core.productions }
    ensures { IfOk result (λ list. held_loops list.items ≡ made_by_place (loop_part g.entry.grammar.now.core view.now.core places.now) 0 numbers.now) }
{
    let mut list = Vec::new(alloc);
    for k in 0..numbers.len() {
        add_loop(&mut list, g, view, places, k as u16, ModNo(numbers[k]))?;
    }
    Ok(list)
}

// Whether loop steps are good at each module.
ghost use Rattle.std.specs.Prelude.{◌≡◌, ◌<◌, ◌↔◌, length, IsTrue};
ghost use Rattle.wf_loops.specs.Looped.{loop_in};
ghost use Rattle.wf_loops.specs.Good.{AreStepsOfModules, IsGoodTarget, IsGoodAt, AreGoodSteps};
ghost use Rattle.wf_loops.specs.Tables.{steps_in};

use wf_recur::{Linear, target};
use wf_spec::{ModNo, Step};

/// Whether a module, to which the loop step of a module on no cycle leads, is atomic, or has a loop step and is on no cycle.
fn is_good_target(g: Linear<'_>, steps: &[Option<Step>], t: ModNo) -> bool
    requires one_each { length steps.now ≡ length g.grammar.now.core.modules }
    requires in_range { t.0 < length g.grammar.now.core.modules }
    ensures { IsTrue result ↔ IsGoodTarget g.entry.grammar.now.core (loop_in (steps_in steps.now)) t.0 }
{
    let _modules = g.grammar.modules();
    if !g.grammar.is_composite(t) {
        return true;
    }
    steps[t.0 as usize].is_some() && g.cycles.on(t).is_none()
}

/// Whether the loop step of a module is good: on a cycle it must be there and be the continuing step; elsewhere, if it is there, it must lead to a good target.
fn is_good_at(g: Linear<'_>, steps: &[Option<Step>], m: ModNo) -> bool
    requires steps { AreStepsOfModules g.grammar.now.core (steps_in steps.now) }
    requires in_range { m.0 < length g.grammar.now.core.modules }
    ensures { IsTrue result ↔ IsGoodAt g.entry.grammar.now.core (loop_in (steps_in steps.now)) m.0 }
{
    let _modules = g.grammar.modules();
    match (g.cycles.on(m), steps[m.0 as usize]) {
        (Some(on), Some(step)) => step == on.step,
        (Some(_), None) => false,
        (None, Some(step)) => is_good_target(g, steps, target(g.grammar, step)),
        (None, None) => true,
    }
}

/// Whether the loop steps of modules are good: each module on a cycle has its continuing step as its loop step,
/// and loop steps from a module on no cycle lead to an atomic module.
///
/// No walk is needed. Loop steps that come to no cycle come to an atomic module, since each module to which they lead is atomic or has a loop step.
/// Where they come to a cycle, one of them leads there from a module on no cycle.
///
/// Cost: one look at each module and at the target of its loop step. Takes no memory.
pub fn are_good(g: Linear<'_>, steps: &[Option<Step>]) -> bool
    requires { AreStepsOfModules g.grammar.now.core (steps_in steps.now) }
    ensures { IsTrue result ↔ AreGoodSteps g.entry.grammar.now.core (loop_in (steps_in steps.now)) }
{
    for k in 0..g.grammar.modules().len() {
        if !is_good_at(g, steps, ModNo(k as u16)) {
            return false;
        }
    }
    true
}

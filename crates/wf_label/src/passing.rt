// Continuing steps that are passed at once.
ghost use Rattle.std.specs.Prelude.{◌≡◌, ◌≢◌, ◌/◌, ◌%◌, ◌<◌, length, None};
ghost use Rattle.label_model.specs.Continuing.{continuing, after};

use wf_recur::Linear;
use wf_spec::ModNo;

/// How many times so many steps go round a cycle of this length, and how many steps are left then.
///
/// It divides nothing where the cycle has one module, as most have.
#[inline(always)]
pub fn turns(steps: u64, length: u64) -> (u64, u64)
    requires { 0 < length }
    ensures rounds { result.0 ≡ steps / length }
    ensures rest { result.1 ≡ steps % length }
{
    if length == 1 {
        return (steps, 0);
    }
    (steps / length, steps % length)
}

/// The module to which so many continuing steps lead from a module on a cycle.
///
/// Takes no memory. Cost: a few look-ups in the tables, however many steps there are.
#[inline(always)]
pub(crate) fn passed(g: Linear<'_>, m: ModNo, c: u32) -> ModNo
    requires module_no { m.0 < length g.grammar.now.core.modules }
    requires on_cycle { continuing g.grammar.now.core m.0 ≢ None }
    ensures to { result.0 ≡ after g.entry.grammar.now.core c m.0 }
    ensures in_range { result.0 < length g.entry.grammar.now.core.modules }
{
    let _modules = g.grammar.modules();
    let Some(on) = g.cycles.on(m) else {
        return m;
    };
    let length = g.cycles.length(on.cycle) as u64;
    let turned = turns(on.place as u64 + c as u64, length);
    let place = turned.1;
    prove!(place < 65536);
    g.cycles.at(on.cycle, place as u16)
}

// Modules on cycles.
ghost use Rattle.std.specs.Prelude.{◌≡◌, ◌≢◌, ◌<◌, None, length, is_some};
ghost use Rattle.label_model.specs.Continuing.{continuing, after};

use wf_recur::Linear;
use wf_spec::ModNo;

/// Whether a module stands on a cycle.
#[inline(always)]
pub(crate) fn is_on_cycle(g: Linear<'_>, m: ModNo) -> bool
    requires in_range { m.0 < length g.grammar.now.core.modules }
    ensures { result ≡ is_some (continuing g.entry.grammar.now.core m.0) }
{
    // A grammar is well-formed.
    let _formed = g.grammar.start();
    g.cycles.on(m).is_some()
}

/// The module to which so many continuing steps lead from a module on a cycle.
///
/// Takes no memory. Cost: a few look-ups in the tables, however many steps there are.
#[inline(always)]
pub(crate) fn passed(g: Linear<'_>, m: ModNo, c: u32) -> ModNo
    requires module_no { m.0 < length g.grammar.now.core.modules }
    requires on_cycle { continuing g.grammar.now.core m.0 ≢ None }
    ensures to { result.0 ≡ after g.entry.grammar.now.core c m.0 }
    ensures in_range { result.0 < length g.entry.grammar.now.core.modules }
{
    let _modules = g.grammar.modules();
    let Some(on) = g.cycles.on(m) else {
        return m;
    };
    let length = g.cycles.length(on.cycle) as u64;
    let place = (on.place as u64 + c as u64) % length;
    prove!(place < 65536);
    g.cycles.at(on.cycle, place as u16)
}

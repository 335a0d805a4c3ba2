// The first module that gets on a cycle after a version.
ghost use Rattle.std.specs.Prelude.{◌≡◌, ◌↔◌, ◌<◌, length, IsTrue, MatchOption};
ghost use Rattle.wf_model.specs.Grammar.{IsComposite};
ghost use Rattle.wf_model.specs.Versions.{GetsOnCycle, IsVersion, KeepsCycles, version_of};
ghost use Rattle.wf_version.specs.Keeping.{IsFirstChange};
ghost use Rattle.wf_version.specs.Rounds.{AreMarksOf};

use wf_recur::Linear;
use wf_spec::{Grammar, ModNo, Version};

/// Whether a module is composite in the version: the first of its productions is one of the version.
fn is_composite(g: &Grammar, m: ModNo, version: Version) -> bool
    requires module_no { m.0 < length g.now.core.modules }
    requires version { IsVersion g.now.core version.modules version.productions }
    ensures { IsTrue result ↔ IsComposite (version_of g.now.core version.modules version.productions) m.0 }
{
    match g.alternatives(m) {
        [first, ..] => first.0 < version.productions,
        [] => false,
    }
}

/// Whether a module gets on a cycle: it is composite in the version, and stands on a cycle that is not marked.
fn gets_on(g: Linear<'_>, marks: &[bool], m: ModNo, version: Version) -> bool
    requires version { IsVersion g.grammar.now.core version.modules version.productions }
    requires marks { AreMarksOf g.grammar.now.core version.productions g.cycles.now marks.now }
    requires module_no { m.0 < length g.grammar.now.core.modules }
    ensures { IsTrue result ↔ GetsOnCycle g.entry.grammar.now.core version.modules version.productions m.0 }
{
    let _modules = g.grammar.modules();
    let Some(on) = g.cycles.on(m) else {
        return false;
    };
    if marks[on.cycle.0 as usize] {
        return false;
    }
    is_composite(g.grammar, m, version)
}

/// The least module that gets on a cycle, or `None` where the version keeps its cycles.
///
/// Cost: one look at each module.
pub fn first_change(g: Linear<'_>, marks: &[bool], version: Version) -> Option<ModNo>
    requires version { IsVersion g.grammar.now.core version.modules version.productions }
    requires marks { AreMarksOf g.grammar.now.core version.productions g.cycles.now marks.now }
    ensures { MatchOption result (KeepsCycles g.entry.grammar.now.core version.modules version.productions) (λ m. IsFirstChange g.entry.grammar.now.core version m.0) }
{
    for m in 0..g.grammar.modules().len() {
        let module = ModNo(m as u16);
        if gets_on(g, marks, module, version) {
            return Some(module);
        }
    }
    None
}

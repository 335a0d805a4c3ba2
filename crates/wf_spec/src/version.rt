// Earlier versions of a grammar.
ghost use Rattle.std.specs.Prelude.{◌≡◌, ◌&&◌, ◌↔◌, nat_lt, IsTrue};
ghost use Rattle.std.specs.List.{list_all};
ghost use Rattle.wf_model.specs.Versions.{IsVersion};
ghost use Rattle.wf_spec.specs.Bodies.{modules_at};

use crate::grammar::Grammar;
use crate::production::Production;

/// An earlier version of a grammar: its first modules and its first productions, by how many they are.
#[derive(Clone, Copy, Debug, PartialEq, Eq, Drop)]
pub struct Version {
    pub modules: u16,
    pub productions: u16,
}

/// Whether the head of a production, and each module of its body, is among so many first modules.
fn has_first_modules(rule: &Production, modules: u64) -> bool
    ensures { result ≡ nat_lt rule.now.core.head modules && list_all (λ k. nat_lt k modules) (modules_at rule.now.core.positions) }
{
    u64::from(rule.head().0) < modules
        && rule
            .positions()
            .iter()
            .all(|q| u64::from(q.module.0) < modules)
}

/// Whether the first modules and the first productions of a grammar, by how many they are, are an earlier version of it: the start module, and the heads and the modules of the bodies of these productions, are among these modules.
///
/// Cost: one look at each position of each of these productions. Takes no memory.
pub fn is_version(g: &Grammar, modules: u64, productions: u64) -> bool
    ensures { IsTrue result ↔ IsVersion g.now.core modules productions }
{
    if modules > g.modules().len() as u64 || productions > g.productions().len() as u64 {
        return false;
    }
    let first = &g.productions()[..productions as usize];
    u64::from(g.start().0) < modules && first.iter().all(|rule| has_first_modules(rule, modules))
}

// Grammars put together from parts that keep all rules.
ghost use Rattle.std.specs.Prelude.{◌≡◌, IfOk};
ghost use Rattle.wf_form.specs.Forming.{grammar_of, modules_of};
ghost use Rattle.wf_spec.specs.Naming.{names_of};
ghost use Rattle.wf_form.specs.Rules.{AreKept};
ghost use Rattle.wf_form.specs.Wiring.{AreWiringsOf};

mod bodies;
mod ends;
pub mod modules;
mod pairs;

use crate::assemble::bodies::rules_from;
use crate::assemble::pairs::given_from;
use crate::wiring::{Wiring, module_number};
use std::alloc::{AllocError, Global};
use wf_model::Parts;
use wf_names::Names;
use wf_spec::{Grammar, Module};

/// The grammar of parts, with no earlier versions, from its modules, their names, and the links of its productions by numbers. It hashes names with the key.
///
/// Cost: linear in the links, the pairs and the inputs of the modules; a look-up by hashing for the start, for each module and for each deps part, and for each pair a look at no more than 64 inputs and 64 outputs.
pub fn assemble(
    alloc: Global,
    key: u64,
    parts: &Parts,
    names: &Names,
    modules: Vec<Module>,
    wirings: Vec<Wiring>,
) -> Result<Grammar, AllocError>
    requires kept { AreKept parts.now }
    requires modules { modules.items ≡ modules_of parts.now }
    requires names { names.now ≡ names_of modules.items }
    requires wirings { AreWiringsOf modules.items parts.now.productions wirings.items }
    ensures { IfOk result (λ g. g.core ≡ grammar_of parts.now) }
{
    let start = module_number(names, parts.start.bytes());
    let given = given_from(alloc, names, &modules, parts.deps.items())?;
    let rules = rules_from(alloc, &modules, wirings)?;
    Grammar::of_lists(alloc, key, start, modules, rules, given)
}

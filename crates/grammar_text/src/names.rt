// The names of the parts of a grammar, by their numbers.
ghost use Rattle.std.specs.Prelude.{◌≡◌};
ghost use Rattle.wf_model.specs.Steps.{step_of};
ghost use Rattle.grammar_text.specs.Names.{name_of, input_name, output_name, position_name};

use wf_spec::{Grammar, ModNo, PortNo, Step};

/// The name of a module, and none past the end.
pub fn module_name(g: &Grammar, m: ModNo) -> &[u8]
    ensures { result.now ≡ name_of g.now.core m.0 }
{
    match g.modules().get(m.0 as usize) {
        Some(module) => module.name(),
        None => b"",
    }
}

/// The name of an input of a module, and none past the end.
pub fn input_name(g: &Grammar, m: ModNo, i: PortNo) -> &[u8]
    ensures { result.now ≡ input_name g.now.core m.0 i.0 }
{
    let Some(module) = g.modules().get(m.0 as usize) else {
        return b"";
    };
    match module.inputs().get(i.0 as usize) {
        Some(name) => name.bytes(),
        None => b"",
    }
}

/// The name of an output of a module, and none past the end.
pub fn output_name(g: &Grammar, m: ModNo, o: PortNo) -> &[u8]
    ensures { result.now ≡ output_name g.now.core m.0 o.0 }
{
    let Some(module) = g.modules().get(m.0 as usize) else {
        return b"";
    };
    match module.outputs().get(o.0 as usize) {
        Some(name) => name.bytes(),
        None => b"",
    }
}

/// The name of the position to which a step leads, and none past the end.
pub fn position_name(g: &Grammar, step: Step) -> &[u8]
    ensures { result.now ≡ position_name g.now.core (step_of step) }
{
    let Some(rule) = g.productions().get(step.production.0 as usize) else {
        return b"";
    };
    match rule.positions().get(step.position.0 as usize) {
        Some(position) => position.name.bytes(),
        None => b"",
    }
}

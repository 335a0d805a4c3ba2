// Whether the numbers of a witness name what is there.
ghost use Rattle.std.specs.Prelude.{◌↔◌, ◌<◌, IsTrue, length};
ghost use Rattle.wf_model.specs.Grammar.{inputs_of, outputs_of};
ghost use Rattle.wf_model.specs.Safe.{IsChosen};
ghost use Rattle.wf_safe.specs.Choosing.{HasNumbers};
ghost use Rattle.wf_safe.specs.Witness.{chosen_in};

use crate::check::choice::is_production_of;
use crate::witness::{Choice, Witness};
use wf_spec::{Grammar, ModNo, PortNo, ProdNo};

/// Whether a production is chosen for a module.
fn is_chosen(choice: &[Choice], m: ModNo, p: ProdNo) -> bool
    ensures { IsTrue result ↔ IsChosen (chosen_in choice.now) m.0 p.0 }
{
    for c in choice {
        if c.module.0 == m.0 && c.production.0 == p.0 {
            return true;
        }
    }
    false
}

/// Whether a module has such a pair of ports.
fn has_ports(g: &Grammar, m: ModNo, input: PortNo, output: PortNo) -> bool
    requires { m.0 < length g.now.core.modules }
    ensures { IsTrue result ↔ ((input.0 < inputs_of g.now.core m.0) × (output.0 < outputs_of g.now.core m.0)) }
{
    let ports = &g.modules()[m.0 as usize];
    (input.0 as usize) < ports.inputs().len() && (output.0 as usize) < ports.outputs().len()
}

/// Whether the production of a witness is chosen for its module, the other production is one of the module too, and the module has both ports.
pub fn has_numbers(g: &Grammar, w: &Witness) -> bool
    ensures { IsTrue result ↔ HasNumbers g.now.core w.now }
{
    if !is_production_of(g, w.other, w.module) {
        return false;
    }
    is_chosen(w.choice.items(), w.module, w.one) && has_ports(g, w.module, w.input, w.output)
}

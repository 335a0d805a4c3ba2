// How a witness that a lifted view is not safe is told, by the ports before lifting and their states.
ghost use Rattle.std.specs.Prelude.{◌≡◌, ◌<◌, ◌++◌, OnOk};
ghost use Rattle.wf_lift.specs.WitnessText.{lifted_ports_text, lifted_unsafe_text, port_text};

use grammar_text::{add_numbered, add_two, input_name, output_name};
use std::alloc::AllocError;
use wf_safe::Witness;
use wf_spec::{Grammar, PortNo};

/// Appends a word, the name of a port, and a state.
fn add_port(out: &mut Vec<u8>, word: &[u8], name: &[u8], state: u8) -> Result<(), AllocError>
    ensures { OnOk result (out.new.items ≡ out.old.items ++ port_text word.now name.now state) }
{
    add_two(out, word, name)?;
    add_numbered(out, b" state ", u64::from(state))
}

fn add_ports(out: &mut Vec<u8>, g: &Grammar, states: u8, w: &Witness) -> Result<(), AllocError>
    requires { 0 < states }
    ensures { OnOk result (out.new.items ≡ out.old.items ++ lifted_ports_text g.now.core states w.now) }
{
    let input = PortNo(w.input.0 / states);
    let output = PortNo(w.output.0 / states);
    let from = input_name(g, w.module, input);
    let to = output_name(g, w.module, output);
    add_port(out, b" input ", from, w.input.0 % states)?;
    add_port(out, b" output ", to, w.output.0 % states)
}

/// Appends the text of a witness that a lifted view is not safe. The grammar is the one that was lifted, to so many states: the ports of the witness are told by their names in it and their states. Fails only for want of memory.
pub fn add_witness(
    out: &mut Vec<u8>,
    g: &Grammar,
    states: u8,
    w: &Witness,
) -> Result<(), AllocError>
    requires { 0 < states }
    ensures { OnOk result (out.new.items ≡ out.old.items ++ lifted_unsafe_text g.now.core states w.now) }
{
    w.add_productions(out, g)?;
    add_ports(out, g, states, w)?;
    w.add_joined_choice(out, g)
}

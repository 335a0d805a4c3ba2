// The names of ports in states.
ghost use Rattle.std.specs.Prelude.{◌≡◌, ◌++◌, IfOk, OnOk, map};
ghost use Rattle.wf_model.specs.Lists.{numbers_from};
ghost use Rattle.words_model.specs.Lifting.{port_name, lifted_names};

use grammar_text::add_numbered;
use std::alloc::{AllocError, Global};
use wf_spec::{Name, Seq};

/// The name of a port in a state: a letter, the number of the port, `-`, and the state.
fn port_name(alloc: Global, letter: u8, port: u8, state: u8) -> Result<Name, AllocError>
    ensures { IfOk result (λ n. n ≡ port_name letter port state) }
{
    let mut bytes = Vec::new(alloc);
    bytes.push(letter)?;
    add_numbered(&mut bytes, b"", u64::from(port))?;
    add_numbered(&mut bytes, b"-", u64::from(state))?;
    Ok(Name::from_vec(bytes))
}

/// Appends the names of a port in each state.
fn add_names(
    alloc: Global,
    list: &mut Vec<Name>,
    letter: u8,
    port: u8,
    states: u8,
) -> Result<(), AllocError>
    ensures { OnOk result (list.new.items ≡ list.old.items ++ map (port_name letter port) (numbers_from 0 states)) }
{
    for s in 0..states {
        let name = port_name(alloc, letter, port, s)?;
        list.push(name)?;
    }
    Ok(())
}

/// The names of so many ports on one side, in each state.
pub fn lifted_names(
    alloc: Global,
    letter: u8,
    ports: u8,
    states: u8,
) -> Result<Seq<Name>, AllocError>
    ensures { IfOk result (λ names. names ≡ lifted_names letter states ports) }
{
    let mut list = Vec::new(alloc);
    for p in 0..ports {
        add_names(alloc, &mut list, letter, p, states)?;
    }
    Ok(Seq::from_vec(list))
}

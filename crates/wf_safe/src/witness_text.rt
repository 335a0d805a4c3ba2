// How a witness that a view is not safe is told, by the names of modules and ports.
ghost use Rattle.std.specs.Prelude.{◌≡◌, ◌++◌, codes, decimal, OnOk};
ghost use Rattle.wf_safe.specs.WitnessText.{joined_text, choice_text, choices_text, ports_text, productions_text, joined_choice_text, unsafe_text};

use crate::witness::{Choice, Witness};
use grammar_text::{add_numbered, add_two, input_name, module_name, output_name};
use std::alloc::AllocError;
use wf_spec::{Grammar, ProdNo};

/// Appends the numbers of the two productions.
fn add_both(out: &mut Vec<u8>, one: ProdNo, other: ProdNo) -> Result<(), AllocError>
    ensures { OnOk result (out.new.items ≡ out.old.items ++ ((codes " one " ++ decimal one.0) ++ (codes " other " ++ decimal other.0))) }
{
    add_numbered(out, b" one ", u64::from(one.0))?;
    add_numbered(out, b" other ", u64::from(other.0))
}

fn add_ports(out: &mut Vec<u8>, g: &Grammar, w: &Witness) -> Result<(), AllocError>
    ensures { OnOk result (out.new.items ≡ out.old.items ++ ports_text g.now.core w.now) }
{
    add_two(out, b" input ", input_name(g, w.module, w.input))?;
    add_two(out, b" output ", output_name(g, w.module, w.output))
}

fn joined_word(joined: bool) -> &'static [u8]
    ensures { result.now ≡ joined_text joined }
{
    if joined {
        b" joined one"
    } else {
        b" joined other"
    }
}

fn add_choice(out: &mut Vec<u8>, g: &Grammar, c: Choice) -> Result<(), AllocError>
    ensures { OnOk result (out.new.items ≡ out.old.items ++ choice_text g.now.core c) }
{
    add_two(out, b" ", module_name(g, c.module))?;
    add_numbered(out, b"=", u64::from(c.production.0))
}

fn add_choices(out: &mut Vec<u8>, g: &Grammar, choices: &[Choice]) -> Result<(), AllocError>
    ensures { OnOk result (out.new.items ≡ out.old.items ++ choices_text g.now.core choices.now) }
{
    for c in choices {
        add_choice(out, g, *c)?;
    }
    Ok(())
}

impl Witness {
    /// Appends the module of the witness and the two productions that disagree. Fails only for want of memory.
    pub fn add_productions(&self, out: &mut Vec<u8>, g: &Grammar) -> Result<(), AllocError>
        ensures { OnOk result (out.new.items ≡ out.old.items ++ productions_text g.now.core self.now) }
    {
        add_two(out, b"Unsafe module ", module_name(g, self.module))?;
        add_both(out, self.one, self.other)
    }

    /// Appends which expansion joins the ports of the witness, and the choice by which it does. Fails only for want of memory.
    pub fn add_joined_choice(&self, out: &mut Vec<u8>, g: &Grammar) -> Result<(), AllocError>
        ensures { OnOk result (out.new.items ≡ out.old.items ++ joined_choice_text g.now.core self.now) }
    {
        add_two(out, joined_word(self.joined_by_one), b" choice")?;
        add_choices(out, g, self.choice.items())
    }

    /// Appends the text of the witness, which is one of a view of this grammar: its module and the two productions, its ports, which expansion joins them, and the choice. Fails only for want of memory.
    pub fn add_text(&self, out: &mut Vec<u8>, g: &Grammar) -> Result<(), AllocError>
        ensures { OnOk result (out.new.items ≡ out.old.items ++ unsafe_text g.now.core self.now) }
    {
        self.add_productions(out, g)?;
        add_ports(out, g, self)?;
        self.add_joined_choice(out, g)
    }
}

// Pieces that are appended to a text. Each call fails only for want of memory.
ghost use Rattle.std.specs.Prelude.{◌≡◌, ◌++◌, decimal, map, OnOk};
ghost use Rattle.wf_model.specs.Steps.{step_of};
ghost use Rattle.grammar_text.specs.Texts.{numbers_text, step_text};

use crate::names::position_name;
use itoa::Buffer;
use std::alloc::AllocError;
use wf_spec::{Grammar, ProdNo, Step};

/// Appends two pieces, as a word and a name.
pub fn add_two(out: &mut Vec<u8>, first: &[u8], second: &[u8]) -> Result<(), AllocError>
    ensures { OnOk result (out.new.items ≡ out.old.items ++ (first.now ++ second.now)) }
{
    out.extend_from_slice(first)?;
    out.extend_from_slice(second)?;
    Ok(())
}

/// Appends a piece and the decimal digits of a number.
pub fn add_numbered(out: &mut Vec<u8>, piece: &[u8], number: u64) -> Result<(), AllocError>
    ensures { OnOk result (out.new.items ≡ out.old.items ++ (piece.now ++ decimal number)) }
{
    let mut digits = Buffer::new();
    add_two(out, piece, digits.format(number).as_bytes())
}

/// Appends numbers of productions, each behind a space.
fn add_spaced(out: &mut Vec<u8>, productions: &[ProdNo]) -> Result<(), AllocError>
    ensures { OnOk result (out.new.items ≡ out.old.items ++ numbers_text (map (λ p. p.0) productions.now)) }
{
    for p in productions {
        add_numbered(out, b" ", u64::from(p.0))?;
    }
    Ok(())
}

/// Appends a piece and the numbers of productions, each behind a space.
pub fn add_numbers(
    out: &mut Vec<u8>,
    piece: &[u8],
    productions: &[ProdNo],
) -> Result<(), AllocError>
    ensures { OnOk result (out.new.items ≡ out.old.items ++ (piece.now ++ numbers_text (map (λ p. p.0) productions.now))) }
{
    out.extend_from_slice(piece)?;
    add_spaced(out, productions)
}

/// Appends a word and a step: the number of its production, and the name of its position.
pub fn add_step(out: &mut Vec<u8>, word: &[u8], g: &Grammar, step: Step) -> Result<(), AllocError>
    ensures { OnOk result (out.new.items ≡ out.old.items ++ step_text word.now g.now.core (step_of step)) }
{
    add_numbered(out, word, u64::from(step.production.0))?;
    add_two(out, b" ", position_name(g, step))
}

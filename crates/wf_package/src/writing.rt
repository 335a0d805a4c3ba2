// A view written as a package.
ghost use Rattle.std.specs.Prelude.{◌≡◌, map, IfOk};
ghost use Rattle.wf_package.specs.PackageText.{IsPackageText, text_with_loops};
ghost use Rattle.wf_package.specs.Parts.{AreShownParts, bare_package, loop_entry_of, with_given};

use crate::grammar::bare_grammar;
use crate::loops::{Loop, placed_loops};
use crate::pairs::placed_pairs;
use crate::shown::{ShownParts, shown_parts};
use crate::text::put_package;
use std::alloc::{AllocError, Global};
use wf_safe::SafeView;
use wf_spec::{Given, Grammar};

/// The text of a package of these parts. Fails only for want of memory.
fn text_of(
    alloc: Global,
    grammar: &Grammar,
    given: &[Given],
    loops: &[Loop],
) -> Result<Vec<u8>, AllocError>
    ensures { IfOk result (λ text. text.items ≡ text_with_loops (with_given given.now grammar.now.core) (map loop_entry_of loops.now)) }
{
    let mut text = Vec::new(alloc);
    put_package(&mut text, grammar, given, loops)?;
    Ok(text)
}

/// The text of the package of a safe view, whose grammar is made already. Fails only for want of memory.
fn text_with(
    alloc: Global,
    v: &SafeView<'_>,
    parts: &ShownParts,
    grammar: &Grammar,
) -> Result<Vec<u8>, AllocError>
    requires parts { AreShownParts v.now.accepted.grammar.core v.now.view.core parts.now.modules parts.now.productions }
    requires grammar { grammar.now.core ≡ bare_package v.now.accepted.grammar.core v.now.view.core parts.now.modules parts.now.productions }
    ensures { IfOk result (λ text. IsPackageText v.now.accepted.grammar.core v.now.view.core text.items) }
{
    let given = placed_pairs(alloc, v.sight(), &parts.modules.numbers)?;
    let places = parts.productions.places.as_slice();
    let loops = placed_loops(alloc, v.linear(), v.view(), places, &parts.modules.numbers)?;
    text_of(alloc, grammar, &given, &loops)
}

/// The text of the package of a safe view, of which it is known what it shows. Fails only for want of memory.
fn text_of_parts(alloc: Global, v: &SafeView<'_>, parts: &ShownParts) -> Result<Vec<u8>, AllocError>
    requires { AreShownParts v.now.accepted.grammar.core v.now.view.core parts.now.modules parts.now.productions }
    ensures { IfOk result (λ text. IsPackageText v.now.accepted.grammar.core v.now.view.core text.items) }
{
    let grammar = bare_grammar(alloc, v.sight(), parts)?;
    text_with(alloc, v, parts, &grammar)
}

/// The text of the package of a safe view: what the view shows of the grammar, with names of numbers, on one line of JSON with a newline.
///
/// Errors: want of memory alone. Cost: linear in the modules and productions of the grammar and in the text.
pub fn write_package(alloc: Global, v: &SafeView<'_>) -> Result<Vec<u8>, AllocError>
    ensures { IfOk result (λ text. IsPackageText v.now.accepted.grammar.core v.now.view.core text.items) }
{
    let parts = shown_parts(alloc, v.sight())?;
    text_of_parts(alloc, v, &parts)
}

// Grammars and views, read from their texts as the program reads them. A text that is not accepted fails the test. Each is handed out in a box, so that whoever owns one lets it go by one call.
ghost use Rattle.std.specs.Prelude.{◌≡◌, IfOk};
ghost use Rattle.wf_view.specs.Held.{IsHeldFor};

use std::alloc::Global;
use std::test::Fail;
use wf_accept::{Accepted, accept};
use wf_form::build;
use wf_json::{read_spec, read_view};
use wf_safe::SafeView;
use wf_spec::Grammar;
use wf_view::View;

/// The grammar of a specification.
pub fn grammar(alloc: Global, text: &str) -> Result<Box<Grammar>, Fail> {
    let parts = read_spec(alloc, text.as_bytes())?;
    let grammar = build(alloc, parts)?;
    Ok(Box::new(alloc, grammar)?)
}

/// The grammar of a specification, which is accepted.
pub fn sample(alloc: Global, text: &str) -> Result<Box<Accepted>, Fail> {
    let grammar = grammar(alloc, text)?;
    match accept(alloc, Box::into_inner(grammar)) {
        Ok(accepted) => Ok(Box::new(alloc, accepted)?),
        Err(_) => Err(Fail::new("an accepted grammar")),
    }
}

/// The view of a grammar that a text describes.
pub fn view(alloc: Global, g: &Grammar, text: &str) -> Result<Box<View>, Fail>
    ensures { IfOk result (λ v. IsHeldFor g.now.core v.value) }
{
    let parts = read_view(alloc, text.as_bytes())?;
    let view = View::build(alloc, g, &parts)?;
    Ok(Box::new(alloc, view)?)
}

/// The safe view of an accepted grammar that a text describes.
pub fn safe<'a>(alloc: Global, s: &'a Accepted, text: &str) -> Result<Box<SafeView<'a>>, Fail>
    ensures { IfOk result (λ v. v.value.accepted ≡ s.now) }
{
    let view = view(alloc, s.grammar(), text)?;
    match SafeView::of(alloc, s, Box::into_inner(view)) {
        Ok(safe) => Ok(Box::new(alloc, safe)?),
        Err(_) => Err(Fail::new("a safe view")),
    }
}

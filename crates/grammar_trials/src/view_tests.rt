// Views that are made of flags and rows of bits: the modules that they expand and let be seen, and the pairs that they show.
ghost use Rattle.std.specs.Prelude.{IfOk};
ghost use Rattle.wf_view.specs.Held.{IsHeldFor};

use std::alloc::{AllocError, Global};
use std::process::Abort;
use std::test::Fail;
use wf_samples::{TWISTING, grammar};
use wf_spec::Grammar;
use wf_view::{GrammarView, View, rows_fit};

/// Flags and rows of the modules S, L, W and T, each of two inputs and two outputs, and which of these their view lets be seen. An S is done by an L, and an L by a W, an L and a W, or by a T.
const FIT: [([bool; 4], [&[u64]; 4], [bool; 4]); 3] = [
    (
        [true, false, false, false],
        [&[], &[0b01, 0b10], &[0b11, 0b00], &[0b10, 0b01]],
        [true, true, false, false],
    ),
    (
        [true, true, false, false],
        [&[], &[], &[0b10, 0b01], &[0b00, 0b11]],
        [true, true, true, true],
    ),
    (
        [false, true, false, false],
        [&[0b11, 0b01], &[], &[0b00, 0b00], &[0b11, 0b11]],
        [true, false, false, false],
    ),
];

/// Flags and rows of these modules that do not fit: an atomic module is flagged, a flagged one has rows, a row is left out, one is too many, a bit is set past the last output, a module has no flag, one has no list.
const UNFIT: [(&[bool], &[&[u64]]); 7] = [
    (&[true, true, false, true], &[&[], &[], &[0b10, 0b01], &[]]),
    (
        &[true, true, false, false],
        &[&[], &[0b10, 0b01], &[0b10, 0b01], &[0b10, 0b01]],
    ),
    (
        &[true, true, false, false],
        &[&[], &[], &[0b10], &[0b10, 0b01]],
    ),
    (
        &[true, true, false, false],
        &[&[], &[], &[0b10, 0b01, 0b00], &[0b10, 0b01]],
    ),
    (
        &[true, true, false, false],
        &[&[], &[], &[0b10, 0b01], &[0b10, 0b101]],
    ),
    (
        &[true, true, false],
        &[&[], &[], &[0b10, 0b01], &[0b10, 0b01]],
    ),
    (&[true, true, false, false], &[&[], &[], &[0b10, 0b01]]),
];

fn lists_of(alloc: Global, rows: &[&[u64]]) -> Result<Vec<Vec<u64>>, AllocError> {
    let mut lists = Vec::new(alloc);
    for list in rows {
        let list = Vec::from_slice(alloc, list)?;
        lists.push(list)?;
    }
    Ok(lists)
}

/// The view of flags and rows that fit.
fn made(alloc: Global, g: &Grammar, flags: &[bool], rows: &[&[u64]]) -> Result<Box<View>, Fail>
    ensures { IfOk result (λ v. IsHeldFor g.now.core v.value) }
{
    let lists = lists_of(alloc, rows)?;
    if !rows_fit(g, flags, &lists) {
        return Err(Fail::new("flags and rows that fit"));
    }
    let flags = Vec::from_slice(alloc, flags)?;
    let v = View::of_rows(alloc, g, flags, lists)?;
    Ok(Box::new(alloc, v)?)
}

/// Whether a view expands the module of a letter, lets it be seen, and shows these rows of it. A module that is expanded has none.
fn shows(sight: GrammarView<'_>, letter: u8, flags: (bool, bool), rows: &[u64]) -> bool {
    let Some(m) = sight.grammar.find(&[letter]) else {
        return false;
    };
    let is_expanded = sight.view.expanded(m);
    if (is_expanded, sight.view.seen(m)) != flags {
        return false;
    }
    is_expanded || sight.view.shown_rows(m) == rows
}

/// Whether flags and rows fit, and their view expands the flagged modules, lets these be seen, and shows the rows.
fn is_made(
    alloc: Global,
    g: &Grammar,
    flags: &[bool; 4],
    rows: &[&[u64]; 4],
    seen: &[bool; 4],
) -> Result<bool, Fail> {
    let v = made(alloc, g, flags, rows)?;
    let sight = GrammarView {
        grammar: g,
        view: &v,
    };
    for k in 0..4 {
        if !shows(sight, b"SLWT"[k], (flags[k], seen[k]), rows[k]) {
            return Ok(false);
        }
    }
    Ok(true)
}

/// Whether flags and rows do not fit.
fn is_unfit(alloc: Global, g: &Grammar, flags: &[bool], rows: &[&[u64]]) -> Result<bool, Fail> {
    let lists = lists_of(alloc, rows)?;
    Ok(!rows_fit(g, flags, &lists))
}

fn are_made(rt: &impl Abort, alloc: Global, g: &Grammar) -> Result<(), Fail> {
    for (flags, rows, seen) in &FIT {
        assert!(rt; is_made(alloc, g, flags, rows, seen)?, "at {rows:?}");
    }
    for &(flags, rows) in &UNFIT {
        assert!(rt; is_unfit(alloc, g, flags, rows)?, "at {rows:?}");
    }
    Ok(())
}

#[test]
fn a_view_is_made_of_rows_that_fit(rt: HostRuntime) -> Result<(), Fail> {
    let g = grammar(rt.alloc(), TWISTING)?;
    are_made(&rt, rt.alloc(), &g)
}

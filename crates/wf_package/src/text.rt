// The text of a package, put piece by piece.
ghost use Rattle.std.specs.Prelude.{◌≡◌, ◌<◌, ◌≤◌, ◌==◌, ◌++◌, [], length, cond, drop, get_or, map, codes, decimal, OnOk};
ghost use Rattle.std.specs.List.{join_by};
ghost use Rattle.wf_spec.specs.GivenRows.{pair_of};
ghost use Rattle.wf_json.specs.Writing.{Takes};
ghost use Rattle.wf_package.specs.PackageText.{given_text, loop_text, named_pair, text_with_loops};
ghost use Rattle.wf_package.specs.Parts.{loop_entry_of, no_loop_entry, no_given_part, with_given};

use crate::loops::Loop;
use itoa::Buffer;
use std::alloc::AllocError;
use wf_json::{TextSink, put_members};
use wf_spec::{Given, Grammar, Pair};

/// A text that begins with a comma, without the comma where it stands before the first of a list.
fn opening(k: usize, text: &[u8]) -> &[u8]
    requires { 1 ≤ length text.now }
    ensures { result.now ≡ cond (k == 0) (drop 1 text.now) text.now }
{
    if k == 0 { &text[1..] } else { text }
}

/// Writes a text, and behind it the decimal digits of a number.
fn put_numbered<S: TextSink>(out: &mut S, text: &[u8], number: u64) -> Result<(), AllocError>
    ensures { OnOk result (Takes S.holds out.old out.new (text.now ++ decimal number)) }
{
    let mut digits = Buffer::new();
    out.put(text)?;
    out.put(digits.format(number).as_bytes())
}

/// Writes a pair of a list, by the names of its ports.
fn put_pair<S: TextSink>(out: &mut S, pairs: &[Pair], k: usize) -> Result<(), AllocError>
    requires { k < length pairs.now }
    ensures { OnOk result (Takes S.holds out.old out.new (cond (k == 0) [] (codes ",") ++ named_pair (get_or (map pair_of pairs.now) k (0, 0)))) }
{
    let pair = pairs[k];
    put_numbered(out, opening(k, b",[\"i"), u64::from(pair.input.0))?;
    put_numbered(out, b"\",\"o", u64::from(pair.output.0))?;
    out.put(b"\"]")
}

/// Writes pairs, with commas between.
fn put_pairs<S: TextSink>(out: &mut S, pairs: &[Pair]) -> Result<(), AllocError>
    ensures { OnOk result (Takes S.holds out.old out.new (join_by named_pair (codes ",") (map pair_of pairs.now))) }
{
    for k in 0..pairs.len() {
        put_pair(out, pairs, k)?;
    }
    Ok(())
}

/// Writes the pairs that are given to a module of a list.
fn put_part<S: TextSink>(out: &mut S, given: &[Given], k: usize) -> Result<(), AllocError>
    requires { k < length given.now }
    ensures { OnOk result (Takes S.holds out.old out.new (cond (k == 0) [] (codes ",") ++ given_text (get_or given.now k no_given_part))) }
{
    let part = &given[k];
    put_numbered(
        out,
        opening(k, b",{\"module\":\"m"),
        u64::from(part.module().0),
    )?;
    out.put(b"\",\"pairs\":[")?;
    put_pairs(out, part.pairs())?;
    out.put(b"]}")
}

/// Writes the pairs that are given to modules, with commas between.
fn put_given<S: TextSink>(out: &mut S, given: &[Given]) -> Result<(), AllocError>
    ensures { OnOk result (Takes S.holds out.old out.new (join_by given_text (codes ",") given.now)) }
{
    for k in 0..given.len() {
        put_part(out, given, k)?;
    }
    Ok(())
}

/// Writes an entry of the loops.
fn put_loop<S: TextSink>(out: &mut S, loops: &[Loop], k: usize) -> Result<(), AllocError>
    requires { k < length loops.now }
    ensures { OnOk result (Takes S.holds out.old out.new (cond (k == 0) [] (codes ",") ++ loop_text (get_or (map loop_entry_of loops.now) k no_loop_entry))) }
{
    let entry = loops[k];
    put_numbered(out, opening(k, b",[\"m"), u64::from(entry.module))?;
    put_numbered(out, b"\",", u64::from(entry.step.production.0))?;
    put_numbered(out, b",", u64::from(entry.step.position.0))?;
    out.put(b"]")
}

/// Writes the entries of the loops, with commas between.
fn put_loops<S: TextSink>(out: &mut S, loops: &[Loop]) -> Result<(), AllocError>
    ensures { OnOk result (Takes S.holds out.old out.new (join_by loop_text (codes ",") (map loop_entry_of loops.now))) }
{
    for k in 0..loops.len() {
        put_loop(out, loops, k)?;
    }
    Ok(())
}

/// Writes the text of a package: of a grammar, the pairs that are given in it, and its loops. Fails only for want of memory.
///
/// Cost: linear in the text.
pub(crate) fn put_package<S: TextSink>(
    out: &mut S,
    g: &Grammar,
    given: &[Given],
    loops: &[Loop],
) -> Result<(), AllocError>
    ensures { OnOk result (Takes S.holds out.old out.new (text_with_loops (with_given given.now g.now.core) (map loop_entry_of loops.now))) }
{
    out.put(b"{\"package\":1,")?;
    put_members(out, g)?;
    out.put(b",\"deps\":[")?;
    put_given(out, given)?;
    out.put(b"],\"loops\":[")?;
    put_loops(out, loops)?;
    out.put(b"]}\n")
}

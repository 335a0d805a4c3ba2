// The lines of `view`.
ghost use Rattle.std.specs.Prelude.{◌≡◌, ◌<◌, ◌≤◌, ◌++◌, [], cond, length, OnOk};
ghost use Rattle.wf_model.specs.Grammar.{inputs_of};
ghost use Rattle.wf_model.specs.Meaning.{pairs_of};
ghost use Rattle.wf_body.specs.Matrices.{HasRows};
ghost use Rattle.cmd_describe.specs.ViewText.{pair_text, row_text, pairs_text, state_text, module_line};

use bool_mat::has_column;
use grammar_text::{input_name, module_name, output_name};
use std::alloc::AllocError;
use wf_safe::SafeView;
use wf_spec::{Grammar, ModNo, PortNo};

/// Appends a pair of ports of a module.
fn add_pair(
    line: &mut Vec<u8>,
    g: &Grammar,
    m: ModNo,
    i: PortNo,
    o: PortNo,
) -> Result<(), AllocError>
    ensures { OnOk result (line.new.items ≡ line.old.items ++ pair_text g.now.core m.0 i.0 o.0) }
{
    line.extend_from_slice(b" ")?;
    line.extend_from_slice(input_name(g, m, i))?;
    line.extend_from_slice(b">")?;
    line.extend_from_slice(output_name(g, m, o))?;
    Ok(())
}

/// Appends a pair of ports of a module, if each expansion of the module joins them.
fn add_joined(
    line: &mut Vec<u8>,
    v: &SafeView<'_>,
    m: ModNo,
    i: PortNo,
    o: PortNo,
) -> Result<(), AllocError>
    requires rows { HasRows v.now.accepted.grammar.core v.now.full m.0 }
    requires input { i.0 < inputs_of v.now.accepted.grammar.core m.0 }
    requires output { o.0 < 64 }
    ensures { OnOk result (line.new.items ≡ line.old.items ++ cond (pairs_of v.now.full m.0 i.0 o.0) (pair_text v.now.accepted.grammar.core m.0 i.0 o.0) []) }
{
    let rows = v.full().rows(m);
    if has_column(rows[i.0 as usize], u32::from(o.0)) {
        add_pair(line, v.grammar(), m, i, o)?;
    }
    Ok(())
}

/// Appends the pairs of a module with one input, by output.
fn add_row(line: &mut Vec<u8>, v: &SafeView<'_>, m: ModNo, i: PortNo) -> Result<(), AllocError>
    requires in_range { m.0 < length v.now.accepted.grammar.core.modules }
    requires rows { HasRows v.now.accepted.grammar.core v.now.full m.0 }
    requires input { i.0 < inputs_of v.now.accepted.grammar.core m.0 }
    ensures { OnOk result (line.new.items ≡ line.old.items ++ row_text v.now.accepted.grammar.core (pairs_of v.now.full) m.0 i.0) }
{
    for o in 0..v.grammar().output_count(m) {
        add_joined(line, v, m, i, PortNo(o))?;
    }
    Ok(())
}

/// Appends the pairs of a module, by input and output.
fn add_pairs(line: &mut Vec<u8>, v: &SafeView<'_>, m: ModNo) -> Result<(), AllocError>
    requires in_range { m.0 < length v.now.accepted.grammar.core.modules }
    requires rows { HasRows v.now.accepted.grammar.core v.now.full m.0 }
    ensures { OnOk result (line.new.items ≡ line.old.items ++ pairs_text v.now.accepted.grammar.core (pairs_of v.now.full) m.0) }
{
    for i in 0..v.grammar().input_count(m) {
        add_row(line, v, m, PortNo(i))?;
    }
    Ok(())
}

fn state_word(expanded: bool) -> &'static [u8]
    ensures { result.now ≡ state_text expanded }
{
    if expanded { b" expanded" } else { b" shown" }
}

/// Appends the line of a seen module: its name, whether it is expanded or shown, and the pairs that each of its expansions joins.
///
/// Cost: linear in the line and in the pairs of its ports.
pub fn add_module_line(line: &mut Vec<u8>, v: &SafeView<'_>, m: ModNo) -> Result<(), AllocError>
    requires in_range { m.0 < length v.now.accepted.grammar.core.modules }
    requires rows { HasRows v.now.accepted.grammar.core v.now.full m.0 }
    ensures { OnOk result (line.new.items ≡ line.old.items ++ module_line v.now.accepted.grammar.core v.now.view.core (pairs_of v.now.full) m.0) }
{
    line.extend_from_slice(module_name(v.grammar(), m))?;
    line.extend_from_slice(state_word(v.view().expanded(m)))?;
    add_pairs(line, v, m)?;
    line.extend_from_slice(b"\n")?;
    Ok(())
}

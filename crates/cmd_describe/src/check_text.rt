// The text of `check`.
ghost use Rattle.std.specs.Prelude.{◌≡◌, ◌<◌, ◌++◌, [], Some, None, cond, length, flat_map, get_or, IfOk, OnOk};
ghost use Rattle.wf_recur.specs.Cycles.{on_of};
ghost use Rattle.wf_model.specs.Composite.{is_composite};
ghost use Rattle.cmd_describe.specs.CheckText.{composite_modules, cycle_text, check_line, check_text_of};

use grammar_text::{add_numbered, add_step, module_name};
use std::alloc::{AllocError, Global};
use wf_accept::Accepted;
use wf_json::canonical;
use wf_recur::{Cycles, OnCycle};
use wf_spec::{Grammar, ModNo};

/// Appends where a module stands on a cycle.
fn add_place(out: &mut Vec<u8>, g: &Grammar, on: OnCycle) -> Result<(), AllocError>
    ensures { OnOk result (out.new.items ≡ out.old.items ++ cycle_text g.now.core (Some (on_of on))) }
{
    add_numbered(out, b" cycle ", u64::from(on.cycle.0))?;
    add_numbered(out, b" place ", u64::from(on.place))?;
    add_step(out, b" next ", g, on.step)
}

/// Appends whether a module stands on a cycle, and where.
fn add_cycle(out: &mut Vec<u8>, g: &Grammar, c: &Cycles, m: ModNo) -> Result<(), AllocError>
    requires { m.0 < length c.now.on }
    ensures { OnOk result (out.new.items ≡ out.old.items ++ cycle_text g.now.core (get_or c.now.on m.0 None)) }
{
    match c.on(m) {
        Some(on) => add_place(out, g, on),
        None => Ok(out.extend_from_slice(b" cycle -")?),
    }
}

/// Appends the line of a composite module.
fn add_line(out: &mut Vec<u8>, spec: &Accepted, m: ModNo) -> Result<(), AllocError>
    requires in_range { m.0 < length spec.now.grammar.core.modules }
    ensures { OnOk result (out.new.items ≡ out.old.items ++ check_line spec.now.grammar.core spec.now.ranking spec.now.cycles m.0) }
{
    let g = spec.grammar();
    let ranking = spec.ranking();
    out.extend_from_slice(module_name(g, m))?;
    add_numbered(out, b" rank ", u64::from(ranking.rank(m)))?;
    add_numbered(out, b" production ", u64::from(ranking.choice(m).0))?;
    add_cycle(out, g, spec.cycles(), m)?;
    out.extend_from_slice(b"\n")?;
    Ok(())
}

/// Appends the line of a module, if it is composite.
fn add_module(out: &mut Vec<u8>, spec: &Accepted, m: ModNo) -> Result<(), AllocError>
    requires in_range { m.0 < length spec.now.grammar.core.modules }
    ensures { OnOk result (out.new.items ≡ out.old.items ++
        cond (is_composite spec.now.grammar.core m.0) (check_line spec.now.grammar.core spec.now.ranking spec.now.cycles m.0) []) }
{
    if spec.grammar().is_composite(m) {
        add_line(out, spec, m)?;
    }
    Ok(())
}

/// Appends the lines of the composite modules, in order.
fn add_lines(out: &mut Vec<u8>, spec: &Accepted) -> Result<(), AllocError>
    ensures { OnOk result (out.new.items ≡ out.old.items ++
        flat_map (check_line spec.now.grammar.core spec.now.ranking spec.now.cycles) (composite_modules spec.now.grammar.core)) }
{
    let count = spec.grammar().modules().len();
    prove!(count <= 1024);
    for k in 0..count as u16 {
        add_module(out, spec, ModNo(k))?;
    }
    Ok(())
}

/// The canonical text of a grammar, a newline, and for each composite module, in order, the line `NAME rank R production P cycle -`, or `NAME rank R production P cycle C place K next Q I` where the module stands on a cycle: the module's rank, the production that attains it, the number of the cycle, the module's place there, and the production and the position of its continuing step.
///
/// Cost: linear in the text. Fails only for want of memory.
pub fn check_text(alloc: Global, spec: &Accepted) -> Result<Vec<u8>, AllocError>
    ensures { IfOk result (λ v. v.items ≡ check_text_of spec.now.grammar.core spec.now.ranking spec.now.cycles) }
{
    let mut out = canonical(alloc, spec.grammar())?;
    out.push(b'\n')?;
    add_lines(&mut out, spec)?;
    Ok(out)
}

// The text of what is told of two views.
ghost use Rattle.std.specs.Prelude.{◌≡◌, ◌++◌, codes, flat_map, OnOk};
ghost use Rattle.wf_gen.specs.Lines.{event_line};
ghost use Rattle.wf_compare.specs.ComparedText.{pair_text, denied_line, extra_text, compared_text};

use compare_model::Compared;
use grammar_text::{add_two, input_name, module_name, output_name};
use std::alloc::AllocError;
use wf_events::write_event;
use wf_spec::{Event, Grammar, ModNo, PortNo};

/// Appends the names of a module, an input and an output of it, each behind a space.
fn add_pair(
    out: &mut Vec<u8>,
    g: &Grammar,
    m: ModNo,
    input: PortNo,
    output: PortNo,
) -> Result<(), AllocError>
    ensures { OnOk result (out.new.items ≡ out.old.items ++ pair_text g.now.core m.0 input.0 output.0) }
{
    add_two(out, b" ", module_name(g, m))?;
    add_two(out, b" ", input_name(g, m, input))?;
    add_two(out, b" ", output_name(g, m, output))
}

/// Appends the lines of events.
fn add_events(out: &mut Vec<u8>, run: &[Event]) -> Result<(), AllocError>
    ensures { OnOk result (out.new.items ≡ out.old.items ++ flat_map event_line run.now) }
{
    for event in run {
        write_event(event, out)?;
        out.extend_from_slice(b"\n")?;
    }
    Ok(())
}

/// Appends the line of a pair that is denied, and of the instance that shows it.
fn add_denied(
    out: &mut Vec<u8>,
    g: &Grammar,
    m: ModNo,
    input: PortNo,
    output: PortNo,
    instance: &[u8],
) -> Result<(), AllocError>
    ensures { OnOk result (out.new.items ≡ out.old.items ++ denied_line g.now.core m.0 input.0 output.0 instance.now) }
{
    out.extend_from_slice(b"no")?;
    add_pair(out, g, m, input, output)?;
    add_two(out, b" ", instance)?;
    out.extend_from_slice(b"\n")?;
    Ok(())
}

/// Appends the lines of a pair that is added.
fn add_extra(
    out: &mut Vec<u8>,
    g: &Grammar,
    m: ModNo,
    input: PortNo,
    output: PortNo,
) -> Result<(), AllocError>
    ensures { OnOk result (out.new.items ≡ out.old.items ++ extra_text g.now.core m.0 input.0 output.0) }
{
    out.extend_from_slice(b"yes\nextra")?;
    add_pair(out, g, m, input, output)?;
    out.extend_from_slice(b"\n")?;
    Ok(())
}

/// Appends the text of what is told of two views of a grammar.
///
/// Of a pair that is denied: `no` with the names of the module, the input, the output and the instance, and the lines of the run. Of one that is added: `yes`, and `extra` with the names of the module, the input and the output. Else `yes` and `exact`. Fails only for want of memory.
pub fn add_text(out: &mut Vec<u8>, g: &Grammar, told: &Compared) -> Result<(), AllocError>
    ensures { OnOk result (out.new.items ≡ out.old.items ++ compared_text g.now.core told.now) }
{
    match told {
        Compared::Denied {
            module,
            input,
            output,
            instance,
            run,
        } => {
            add_denied(out, g, *module, *input, *output, instance.bytes())?;
            add_events(out, run.items())
        }
        Compared::Extra {
            module,
            input,
            output,
        } => add_extra(out, g, *module, *input, *output),
        Compared::Exact => Ok(out.extend_from_slice(b"yes\nexact\n")?),
    }
}

// Texts in quotes, and names with a dot between.
ghost use Rattle.std.specs.Prelude.{OnOk};
ghost use Rattle.wf_json.specs.Canonical.{text_in_quotes};
ghost use Rattle.wf_json.specs.Writing.{Takes};
ghost use Rattle.wf_model.specs.Items.{dotted};

use crate::text_sink::TextSink;
use std::alloc::AllocError;

/// Writes a text in quotes. It stands there as it is, so it must be one that JSON does not escape, as a name.
pub fn put_quoted<S: TextSink>(out: &mut S, text: &[u8]) -> Result<(), AllocError>
    ensures { OnOk result (Takes S.holds out.old out.new (text_in_quotes text.now)) }
{
    out.put(b"\"")?;
    out.put(text)?;
    out.put(b"\"")
}

/// Writes two names with a dot between.
pub(crate) fn put_dotted<S: TextSink>(
    out: &mut S,
    first: &[u8],
    second: &[u8],
) -> Result<(), AllocError>
    ensures { OnOk result (Takes S.holds out.old out.new (dotted first.now second.now)) }
{
    out.put(first)?;
    out.put(b".")?;
    out.put(second)
}

// Lines of a chain that was handed in, by their form.
ghost use Rattle.std.specs.Prelude.{◌≡◌, ◌++◌, IfSome, IsNone, codes};
ghost use Rattle.wf_model.specs.Items.{IsItemName};
ghost use Rattle.wf_model.specs.WellFormed.{IsShortName};
ghost use Rattle.wf_reason.specs.ChainLines.{IsItemLine, IsViaLine, Says, SaysNothing, line_at};

use crate::turn::Turn;
use name_text::{is_short, split_item};

/// The name of an item, if the line is one.
fn item_line(line: &[u8]) -> Option<&[u8]>
    ensures some { IfSome result (λ name. IsItemLine line.now name.now) }
    ensures none { IsNone result → IsItemName line.now → ⊥ }
{
    let Some(_) = split_item(line) else {
        return None;
    };
    Some(line)
}

/// The name of an instance behind the word `via` and a space, if the line is this.
fn via_line(line: &[u8]) -> Option<&[u8]>
    ensures some { IfSome result (λ name. IsViaLine line.now name.now) }
    ensures none { IsNone result → (name : _) → IsViaLine line.now name → ⊥ }
{
    let Some(name) = line.strip_prefix(b"via ") else {
        return None;
    };
    if !is_short(name) {
        return None;
    }
    Some(name)
}

/// The name in a line, without its newline, if the line has the form of its turn.
///
/// It is a part of the line. Cost: linear in the line. Takes no memory.
pub(crate) fn read_line(turn: Turn, line: &[u8]) -> Option<&[u8]>
    ensures some { IfSome result (λ name. Says turn line.now (line_at turn name.now)) }
    ensures none { IsNone result → SaysNothing turn line.now }
{
    match turn {
        Turn::Item => item_line(line),
        Turn::Instance => via_line(line),
    }
}

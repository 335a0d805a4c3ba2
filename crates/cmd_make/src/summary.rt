// The lines of the summary.
ghost use Rattle.std.specs.Prelude.{◌≡◌, ◌++◌, count_by, IfOk, OnOk};
ghost use Rattle.cmd_make.specs.DrillText.{is_yes, is_no, is_hidden, summary_line, summary};

use itoa::Buffer;
use std::alloc::{AllocError, Global};
use verdict_model::Verdict;

/// How many verdicts say that the second item depends on the first.
fn count_yes(verdicts: &[Verdict]) -> usize
    ensures { result ≡ count_by is_yes verdicts.now }
{
    verdicts
        .iter()
        .filter(|verdict| matches!(verdict, Verdict::Yes))
        .count()
}

/// How many say that it does not.
fn count_no(verdicts: &[Verdict]) -> usize
    ensures { result ≡ count_by is_no verdicts.now }
{
    verdicts
        .iter()
        .filter(|verdict| matches!(verdict, Verdict::No))
        .count()
}

/// How many say that an item is hidden.
fn count_hidden(verdicts: &[Verdict]) -> usize
    ensures { result ≡ count_by is_hidden verdicts.now }
{
    verdicts
        .iter()
        .filter(|verdict| matches!(verdict, Verdict::Hidden1 | Verdict::Hidden2))
        .count()
}

/// Appends a line: a word, a space and a number. The only error is that memory is refused.
fn add_line(text: &mut Vec<u8>, word: &[u8], number: u64) -> Result<(), AllocError>
    ensures { OnOk result (text.new.items ≡ text.old.items ++ summary_line word.now number) }
{
    let mut digits = Buffer::new();
    text.extend_from_slice(word)?;
    text.push(b' ')?;
    text.extend_from_slice(digits.format(number).as_bytes())?;
    text.push(b'\n')?;
    Ok(())
}

/// The lines of the summary: the numbers of instances and items, the bits of the longest label, and how many verdicts of each kind there are. A clash is counted nowhere, since two labels of one run do not clash. Fails only for want of memory.
pub(crate) fn summary_text(
    alloc: Global,
    instances: u32,
    items: usize,
    bits: u32,
    verdicts: &[Verdict],
) -> Result<Vec<u8>, AllocError>
    ensures { IfOk result (λ text. text.items ≡ summary instances items bits verdicts.now) }
{
    let mut text = Vec::with_capacity(alloc, 128)?;
    add_line(&mut text, b"instances", u64::from(instances))?;
    add_line(&mut text, b"items", items as u64)?;
    add_line(&mut text, b"bits", u64::from(bits))?;
    add_line(&mut text, b"yes", count_yes(verdicts) as u64)?;
    add_line(&mut text, b"no", count_no(verdicts) as u64)?;
    add_line(&mut text, b"hidden", count_hidden(verdicts) as u64)?;
    Ok(text)
}

// Lists in brackets.
ghost use Rattle.std.specs.Prelude.{◌<◌, ◌==◌, ℕ, List, [], OnOk, cond, codes};
ghost use Rattle.wf_json.specs.Writing.{Takes, TakesTexts, joined_texts, listed_texts};

use crate::text_sink::TextSink;
use std::alloc::AllocError;

/// Writes a comma before each item but the first.
fn put_comma<S: TextSink>(out: &mut S, k: usize) -> Result<(), AllocError>
    ensures { OnOk result (Takes S.holds out.old out.new (cond (k == 0) [] (codes ","))) }
{
    if k > 0 {
        out.put(b",")?;
    }
    Ok(())
}

/// Writes what `put` writes for each number below `count`, with commas between.
fn put_items<S: TextSink, F: Fn(&mut S, usize) -> Result<(), AllocError>>(
    out: &mut S,
    count: usize,
    put: F,
) -> Result<(), AllocError>
    requires { (v : _) (k : ℕ) → k < count → F.pre put v k }
    ensures { (text : ℕ → List ℕ) → TakesTexts S.holds (F.post put) count text → OnOk result (Takes S.holds out.old out.new (joined_texts text count)) }
{
    for k in 0..count {
        put_comma(out, k)?;
        put(out, k)?;
    }
    Ok(())
}

/// Writes a list of `count` items in brackets, with commas between. `put` writes the item of each number.
pub fn put_list<S: TextSink, F: Fn(&mut S, usize) -> Result<(), AllocError>>(
    out: &mut S,
    count: usize,
    put: F,
) -> Result<(), AllocError>
    requires { (v : _) (k : ℕ) → k < count → F.pre put v k }
    ensures { (text : ℕ → List ℕ) → TakesTexts S.holds (F.post put) count text → OnOk result (Takes S.holds out.old out.new (listed_texts text count)) }
{
    out.put(b"[")?;
    put_items(out, count, put)?;
    out.put(b"]")
}

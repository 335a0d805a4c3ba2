// The words of a verdict.
ghost use Rattle.std.specs.Prelude.{◌≡◌, ◌++◌, codes};
ghost use Rattle.label_words.specs.Verdicts.{verdict_text};

use verdict_model::Verdict;

/// The words of a verdict, and a newline.
pub fn verdict_line(verdict: Verdict) -> &'static [u8]
    ensures { result.now ≡ verdict_text verdict ++ codes "\n" }
{
    match verdict {
        Verdict::Hidden1 => b"hidden 1\n",
        Verdict::Hidden2 => b"hidden 2\n",
        Verdict::Clash => b"clash\n",
        Verdict::Yes => b"yes\n",
        Verdict::No => b"no\n",
    }
}

// Answers to queries.
ghost use Rattle.std.specs.Prelude.{◌≡◌, ◌++◌, codes};
ghost use Rattle.wf_query.specs.Answers.{answer_of, answer_text};

use wf_decode::Verdict;

/// The answer to a query. The first of these that applies:
#[derive(Clone, Copy, Debug, PartialEq, Eq)]
pub enum Answer {
    /// A name has no entry.
    Unknown,
    /// The view hides one of the two items.
    Hidden,
    /// No run has both labels.
    Clash,
    /// The second item depends on the first, however a run that has both is finished.
    Yes,
    /// It does not.
    No,
}

/// The line of an answer: its word, and a newline.
pub fn line_of(answer: Answer) -> &'static [u8]
    ensures { result.now ≡ answer_text answer ++ codes "\n" }
{
    match answer {
        Answer::Unknown => b"unknown\n",
        Answer::Hidden => b"hidden\n",
        Answer::Clash => b"clash\n",
        Answer::Yes => b"yes\n",
        Answer::No => b"no\n",
    }
}

/// The answer that a verdict is.
pub(crate) fn told(verdict: Verdict) -> Answer
    ensures { result ≡ answer_of verdict }
{
    match verdict {
        Verdict::Hidden1 => Answer::Hidden,
        Verdict::Hidden2 => Answer::Hidden,
        Verdict::Clash => Answer::Clash,
        Verdict::Yes => Answer::Yes,
        Verdict::No => Answer::No,
    }
}

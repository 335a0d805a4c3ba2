// Words of bits.
ghost use Rattle.std.specs.Prelude.{◌<◌, ◌↔◌, ℕ, IsTrue, length};
ghost use Rattle.bool_mat.specs.Matrix.{has};
ghost use Rattle.wf_body.specs.Words.{Gains};

/// Adds the bits of a word to the word at a place.
pub fn add(words: &mut [u64], at: usize, word: u64)
    requires { at < length words.old }
    ensures { Gains words.old at word words.new }
{
    words[at] |= word;
}

/// Whether each bit of one word is set in another.
pub fn is_within(part: u64, whole: u64) -> bool
    ensures { IsTrue result ↔ ((x : ℕ) → IsTrue (has part x) → IsTrue (has whole x)) }
{
    part | whole == whole
}

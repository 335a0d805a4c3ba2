// Pieces and texts, cut from the front of bytes.
ghost use Rattle.std.specs.Prelude.{◌≡◌, ◌++◌, ◌∷◌, ◌≤◌, true, length, take, IfSome};
ghost use Rattle.wf_events.specs.Plain.{is_plain, is_plain_text};

/// The bytes behind a piece; None where they do not begin with it. In line, a piece of known length is compared by words.
#[inline(always)]
pub(crate) fn behind<'a>(bytes: &'a [u8], piece: &[u8]) -> Option<&'a [u8]>
    ensures { IfSome result (λ rest. bytes.now ≡ piece.now ++ rest.now) }
{
    bytes.strip_prefix(piece)
}

/// Whether a byte stands for itself in a text. Digits and letters, of which names are made, are told by one range or two.
#[inline(always)]
fn stands_for_itself(b: u8) -> bool
    ensures { result ≡ is_plain b }
{
    if 34 < b && b < 92 {
        return true;
    }
    if 92 < b && b <= 126 {
        return true;
    }
    32 <= b && b <= 126 && b != 34 && b != 92
}

/// How many bytes at the front stand for themselves.
#[inline(always)]
fn plain_length(bytes: &[u8]) -> usize
    ensures within { result ≤ length bytes.now }
    ensures plain { is_plain_text (take result bytes.now) ≡ true }
{
    let mut n = 0;
    while n < bytes.len() && stands_for_itself(bytes[n]) {
        n += 1;
    }
    n
}

/// The text before its closing quote, and the bytes behind the quote; None where a byte before the quote does not stand for itself.
pub(crate) fn cut_text(bytes: &[u8]) -> Option<(&[u8], &[u8])>
    ensures whole { IfSome result (λ p. bytes.now ≡ p.0.now ++ 34 ∷ p.1.now) }
    ensures plain { IfSome result (λ p. is_plain_text p.0.now ≡ true) }
{
    let (text, quoted) = bytes.split_at(plain_length(bytes));
    let rest = behind(quoted, b"\"")?;
    Some((text, rest))
}

// An entry, cut from the front of bytes.
ghost use Rattle.std.specs.Prelude.{◌≡◌, ◌≢◌, ◌*◌, ◌/◌, ◌%◌, ◌^◌, ◌<◌, ◌≤◌, ◌∷◌, ◌++◌, ℕ, List, length, IfSome, IfNone};
ghost use Rattle.label_model.specs.Files.{Entry, IsFront};
ghost use Rattle.label_file.specs.Layout.{entry_at_front};

/// An entry at the front of bytes, and the bytes behind it.
#[derive(Clone, Copy)]
pub(crate) struct Front<'a> {
    pub(crate) name: &'a [u8],
    pub(crate) label: &'a [u8],
    pub(crate) rest: &'a [u8],
}

/// The name at the front, after one byte with its length, and the bytes behind it; None where it is not whole.
fn cut_name(bytes: &[u8]) -> Option<(&[u8], &[u8])>
    ensures name { IfSome result (λ p. bytes.now ≡ length p.0.now ∷ (p.0.now ++ p.1.now)) }
    ensures room { IfSome result (λ p. length p.0.now < 2 ^ 8) }
    ensures none { IfNone result ((name rest : List ℕ) → bytes.now ≢ length name ∷ (name ++ rest)) }
{
    let (length, behind) = bytes.split_first()?;
    behind.split_at_checked(*length as usize)
}

/// The label at the front, after two bytes with its length, the higher byte first, and the bytes behind it; None where it is not whole.
fn cut_label(bytes: &[u8]) -> Option<(&[u8], &[u8])>
    ensures label { IfSome result (λ p. bytes.now ≡ length p.0.now / 256 ∷ (length p.0.now % 256 ∷ (p.0.now ++ p.1.now))) }
    ensures room { IfSome result (λ p. length p.0.now < 2 ^ 16) }
    ensures none { IfNone result ((label rest : List ℕ) → bytes.now ≢ length label / 256 ∷ (length label % 256 ∷ (label ++ rest))) }
{
    let (length, behind) = bytes.split_first_chunk::<2>()?;
    behind.split_at_checked(u16::from_be_bytes(*length) as usize)
}

/// The entry at the front of bytes; None where no whole entry stands there.
///
/// Takes no memory, and reads four bytes at most.
pub(crate) fn cut_front(bytes: &[u8]) -> Option<Front<'_>>
    ensures some { IfSome result (λ f. IsFront (entry_at_front f) bytes.now f.rest.now) }
    ensures none { IfNone result ((e : Entry) (rest : List ℕ) → IsFront e bytes.now rest → ⊥) }
{
    let (name, behind) = cut_name(bytes)?;
    let (label, rest) = cut_label(behind)?;
    Some(Front { name, label, rest })
}

/// How many whole entries stand at the front of bytes, one behind the other. Their names and labels are not looked at.
///
/// Takes no memory. Cost: linear in the number of entries.
pub(crate) fn count_entries(bytes: &[u8]) -> usize
    ensures { 3 * result ≤ length bytes.now }
{
    let mut count = 0;
    let mut left = bytes;
    while let Some(Front { rest, .. }) = cut_front(left) {
        left = rest;
        count += 1;
    }
    count
}

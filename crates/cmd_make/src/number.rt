// Numbers among the words.
ghost use Rattle.std.specs.Prelude.{◌≡◌, ◌≤◌, IfSome};
ghost use Rattle.std.specs.List.{list_all};
ghost use Rattle.cmd_make.specs.Words.{most_expansions, greatest_seed, is_digit, is_number, number_in};

/// The greatest number of expansions that is asked for.
const MOST_EXPANSIONS: u64 = 4_000_000;

fn is_digit(byte: u8) -> bool
    ensures { result ≡ is_digit byte }
{
    48 <= byte && byte <= 57
}

fn are_digits(bytes: &[u8]) -> bool
    ensures { result ≡ list_all is_digit bytes.now }
{
    bytes.iter().all(|byte| is_digit(*byte))
}

/// Whether a word is a number: `0`, or decimal digits of which the first is not 0.
fn is_number(word: &[u8]) -> bool
    ensures { result ≡ is_number word.now }
{
    match word {
        [] => false,
        [only] => is_digit(*only),
        [first, ..] => *first != 48 && are_digits(word),
    }
}

/// The number that a word is, if it is one up to `most`.
fn number_in(most: u64, word: &str) -> Option<u64>
    ensures number { result ≡ number_in most word.now }
    ensures within { IfSome result (λ n. n ≤ most) }
{
    if !is_number(word.as_bytes()) {
        return None;
    }
    let Ok(number) = u64::from_str_radix(word, 10) else {
        return None;
    };
    if number > most {
        return None;
    }
    Some(number)
}

/// The number of expansions that a word is, if it is a number up to the greatest that is asked for. Takes no memory.
pub(crate) fn count_in(word: &str) -> Option<u32>
    ensures { result ≡ number_in most_expansions word.now }
{
    match number_in(MOST_EXPANSIONS, word) {
        Some(number) => Some(number as u32),
        None => None,
    }
}

/// The seed that a word is, if it is a number of 64 bits. Takes no memory.
pub(crate) fn seed_in(word: &str) -> Option<u64>
    ensures { result ≡ number_in greatest_seed word.now }
{
    number_in(u64::MAX, word)
}

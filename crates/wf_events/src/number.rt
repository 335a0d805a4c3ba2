// Decimal numbers, cut from the front of bytes.
ghost use Rattle.std.specs.Prelude.{◌≡◌, ◌<◌, ◌+◌, ◌^◌, ◌++◌, ◌∷◌, [], decimal, IfSome};

/// The value of a digit.
fn digit(b: u8) -> Option<u64>
    ensures { IfSome result (λ d. (d < 10) × (b ≡ 48 + d)) }
{
    if b < 48 {
        return None;
    }
    if 57 < b {
        return None;
    }
    Some(u64::from(b - 48))
}

/// A number with one digit more; None where the byte is no digit, and where the number would not fit.
fn longer(number: u64, b: u8) -> Option<u64>
    requires { 0 < number }
    ensures digits { IfSome result (λ n. decimal n ≡ decimal number ++ b ∷ []) }
    ensures positive { IfSome result (λ n. 0 < n) }
    ensures fits { IfSome result (λ n. n < 2 ^ 64) }
{
    let last = digit(b)?;
    number.checked_mul(10)?.checked_add(last)
}

/// A number with all the digits that follow and fit, and the bytes behind them.
fn longest(first: u64, bytes: &[u8]) -> (u64, &[u8])
    requires { 0 < first }
    ensures whole { decimal first ++ bytes.now ≡ decimal result.0 ++ result.1.now }
    ensures fits { result.0 < 2 ^ 64 }
{
    let mut number = first;
    let mut left = bytes;
    while let [b, rest @ ..] = left {
        let Some(more) = longer(number, *b) else {
            return (number, left);
        };
        number = more;
        left = rest;
    }
    (number, left)
}

/// The number that the first bytes spell in decimal digits without leading zeros, and the bytes behind it; None where they do not begin with a digit.
pub(crate) fn cut_number(bytes: &[u8]) -> Option<(u64, &[u8])>
    ensures whole { IfSome result (λ p. bytes.now ≡ decimal p.0 ++ p.1.now) }
    ensures fits { IfSome result (λ p. p.0 < 2 ^ 64) }
{
    let [b, rest @ ..] = bytes else {
        return None;
    };
    let first = digit(*b)?;
    if first == 0 {
        return Some((0, rest));
    }
    Some(longest(first, rest))
}

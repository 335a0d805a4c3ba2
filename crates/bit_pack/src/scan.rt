// Bits of bytes by their places. The first is the most significant bit of the first byte.
ghost use Rattle.std.specs.Prelude.{◌≡◌, ◌+◌, ◌-◌, ◌*◌, ◌%◌, ◌^◌, ◌<◌, ◌≤◌, ◌↔◌, false, length, take, drop, replicate, MatchOption, IsTrue};
ghost use Rattle.bit_pack.specs.Bits.{bits_of, number};
ghost use Rattle.bit_pack.specs.Reading.{IsNextOne, IsPadding};

/// How many zero bits stand before the first one in bytes.
fn leading_zeros(bytes: &[u8]) -> Option<usize>
    requires { length bytes.now < 2 ^ 60 }
    ensures { MatchOption result
        (bits_of bytes.now ≡ replicate (8 * length bytes.now) false)
        (IsNextOne (bits_of bytes.now) 0) }
{
    let mut zeros = 0;
    for byte in bytes {
        if *byte != 0 {
            return Some(zeros + byte.leading_zeros() as usize);
        }
        zeros += 8;
    }
    None
}

/// The place of the first one from a place on.
pub fn next_one(bytes: &[u8], from: usize) -> Option<usize>
    requires few { length bytes.now < 2 ^ 60 }
    requires inside { from ≤ 8 * length bytes.now }
    ensures { MatchOption result
        (drop from (bits_of bytes.now) ≡ replicate (8 * length bytes.now - from) false)
        (IsNextOne (bits_of bytes.now) from) }
{
    let first = from / 8;
    if first == bytes.len() {
        return None;
    }
    let rest = bytes[first] & (255 >> (from % 8));
    if rest != 0 {
        return Some(8 * first + rest.leading_zeros() as usize);
    }
    match leading_zeros(&bytes[first + 1..]) {
        Some(zeros) => Some(8 * (first + 1) + zeros),
        None => None,
    }
}

/// Whether fewer than eight bits are left from a place on, and all of them are zero.
pub fn is_padding(bytes: &[u8], from: usize) -> bool
    requires few { length bytes.now < 2 ^ 60 }
    requires inside { from ≤ 8 * length bytes.now }
    ensures { IsTrue result ↔ IsPadding (drop from (bits_of bytes.now)) }
{
    if 8 * bytes.len() - from >= 8 {
        return false;
    }
    match next_one(bytes, from) {
        Some(_) => false,
        None => true,
    }
}

/// The number that some bits of one byte tell.
fn part_at(bytes: &[u8], from: usize, count: usize) -> u8
    requires some { 0 < count }
    requires one_byte { from % 8 + count ≤ 8 }
    requires inside { from < 8 * length bytes.now }
    ensures { result ≡ number (take count (drop from (bits_of bytes.now))) }
{
    (bytes[from / 8] >> (8 - from % 8 - count)) & (255 >> (8 - count))
}

/// The number that the bits from a place on tell, so many. It is read byte by byte.
pub fn number_at(bytes: &[u8], from: usize, count: usize) -> u64
    requires few { length bytes.now < 2 ^ 60 }
    requires inside { from + count ≤ 8 * length bytes.now }
    requires fits { count ≤ 64 }
    ensures { result ≡ number (take count (drop from (bits_of bytes.now))) }
{
    let end = from + count;
    let mut number: u64 = 0;
    let mut at = from;
    while at < end {
        let taken = (8 - at % 8).min(end - at);
        let part = part_at(bytes, at, taken);
        number = (number << taken) + part as u64;
        at += taken;
    }
    number
}

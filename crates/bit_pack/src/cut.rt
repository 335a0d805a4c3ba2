// Bits that are cut off the end of bytes.
ghost use Rattle.std.specs.Prelude.{◌≡◌, ◌+◌, ◌*◌, ◌/◌, ◌%◌, ◌<◌, ◌≤◌, length, vec_capacity};
ghost use Rattle.bit_pack.specs.Written.{first_bits, IsFilled};

/// Makes the bits of the last byte zero from a place on, which stands within it.
fn clear_from(bytes: &mut [u8], at: usize)
    requires within { 0 < at % 8 }
    requires last { length bytes.old ≡ at / 8 + 1 }
    ensures bits { first_bits bytes.new at ≡ first_bits bytes.old at }
    ensures filled { IsFilled bytes.new at }
{
    let behind = 8 - at % 8;
    let byte = bytes[at / 8];
    bytes[at / 8] = (byte >> behind) << behind;
}

/// Cuts off the bits behind the first ones, so many. Zero bits fill the last byte.
pub fn cut(bytes: &mut Vec<u8>, count: u32)
    requires { count ≤ 8 * length bytes.old.items }
    ensures bits { first_bits bytes.new.items count ≡ first_bits bytes.old.items count }
    ensures filled { IsFilled bytes.new.items count }
    ensures capacity { vec_capacity bytes.new ≡ vec_capacity bytes.old }
{
    let at = count as usize;
    bytes.truncate((at + 7) / 8);
    if at % 8 != 0 {
        clear_from(bytes, at);
    }
}

// Parts that are laid into bytes, one behind another. A short part is copied without a call.
ghost use Rattle.std.specs.Prelude.{◌≡◌, ◌+◌, ◌<◌, ◌≤◌, [], ◌∷◌, ◌++◌, length, take};

/// Lays a byte into bytes at a place. Gives the place behind it.
#[inline(always)]
pub fn lay_byte(out: &mut [u8], at: usize, byte: u8) -> usize
    requires { at < length out.old }
    ensures place { result ≡ at + 1 }
    ensures laid { take result out.new ≡ take at out.old ++ byte ∷ [] }
{
    out[at] = byte;
    at + 1
}

/// Copies all bytes of a part at once.
#[inline(always)]
fn lay_whole(out: &mut [u8], at: usize, part: &[u8])
    requires { at + length part.now ≤ length out.old }
    ensures { take (at + length part.now) out.new ≡ take at out.old ++ part.now }
{
    out[at..at + part.len()].copy_from_slice(part);
}

/// Copies the first bytes of a part and its last ones, so many of each. Some may be copied twice.
#[inline(always)]
fn lay_ends<const N: usize>(out: &mut [u8], at: usize, part: &[u8])
    requires long { N ≤ length part.now }
    requires short { length part.now ≤ N + N }
    requires room { at + length part.now ≤ length out.old }
    ensures { take (at + length part.now) out.new ≡ take at out.old ++ part.now }
{
    let rest = part.len() - N;
    lay_whole(out, at, &part[..N]);
    lay_whole(out, at + rest, &part[rest..]);
}

/// Lays a part into bytes from a place on. Gives the place behind it.
#[inline(always)]
pub fn lay(out: &mut [u8], at: usize, part: &[u8]) -> usize
    requires { at + length part.now ≤ length out.old }
    ensures place { result ≡ at + length part.now }
    ensures laid { take result out.new ≡ take at out.old ++ part.now }
{
    let count = part.len();
    if 4 <= count && count <= 8 {
        lay_ends::<4>(out, at, part);
    } else if 2 <= count && count <= 4 {
        lay_ends::<2>(out, at, part);
    } else if 8 <= count && count <= 16 {
        lay_ends::<8>(out, at, part);
    } else {
        lay_whole(out, at, part);
    }
    at + count
}

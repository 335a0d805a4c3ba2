// Copying what fits.
ghost use Rattle.std.specs.Prelude.{◌≡◌, length, take, min};

/// Copies bytes into the beginning of a buffer, as many as there are, fit and are allowed. It gives their number.
pub fn copy_some(from: &[u8], to: &mut [u8], most: usize) -> usize
    ensures count { result ≡ min (min (length from.now) (length to.old)) most }
    ensures bytes { take result to.new ≡ take result from.now }
{
    let count = from.len().min(to.len()).min(most);
    to[..count].copy_from_slice(&from[..count]);
    count
}

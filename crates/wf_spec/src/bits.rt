// Rows of bits that are alike.
ghost use Rattle.std.specs.Prelude.{◌≡◌, ◌≤◌, ◌-◌, ◌^◌, IfOk, replicate};

use std::alloc::{AllocError, Global};

/// The number whose lowest bits are set, so many of them.
pub fn low_bits(count: usize) -> u64
    requires { count ≤ 64 }
    ensures { result ≡ 2 ^ count - 1 }
{
    if count == 64 {
        return u64::MAX;
    }
    (1 << count) - 1
}

/// A row, so many times.
pub fn same_rows(alloc: Global, count: usize, row: u64) -> Result<Vec<u64>, AllocError>
    ensures { IfOk result (λ rows. rows.items ≡ replicate count row) }
{
    let mut rows = Vec::new(alloc);
    for k in 0..count {
        rows.push(row)?;
    }
    Ok(rows)
}

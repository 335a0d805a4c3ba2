// Rows, each a number of which bit j stands for column j.
ghost use Rattle.std.specs.Prelude.{◌≡◌, ℕ, ◌<◌, ◌≤◌, ◌^◌, ◌↔◌, IsTrue, length, slice_index};
ghost use Rattle.std.specs.List.{All};
ghost use Rattle.bool_mat.specs.Matrix.{has, IsUnion};

/// Whether the row has column `j`, which is below 64.
///
/// Constant time.
pub fn has_column(row: u64, j: u32) -> bool
    requires { j < 64 }
    ensures { result ≡ has row j }
{
    (row >> j) & 1 == 1
}

/// The row that has column `j`, which is below 64, and no other.
///
/// Constant time.
pub fn single(j: u32) -> u64
    requires { j < 64 }
    ensures columns { (k : ℕ) → IsTrue (has result k) ↔ (k ≡ j) }
    ensures within { result ≡ 2 ^ j }
{
    1u64 << j
}

/// The union of those of the rows that `row` selects: it has a column exactly if one of them has it. A bit of `row` past the last of the rows selects none. No row has a bit past the columns.
///
/// This product is not counted: it is for matrices that are made before a count begins. Time linear in the number of bits that are 1 in `row`.
pub fn union(row: u64, rows: &[u64], columns: u8) -> u64
    requires { All (λ r. r < 2 ^ columns) rows.now }
    ensures union { IsUnion row (record { rows = rows.now; columns = columns }) result }
    ensures within { result < 2 ^ columns }
{
    let mut left = row;
    let mut union = 0u64;
    while left != 0 {
        let at = left.trailing_zeros();
        union |= row_at(rows, at);
        left &= left - 1;
    }
    union
}

/// Column `j` of at most 64 rows, as a row: it has column `i` exactly if row `i` has column `j`. `j` is below 64.
///
/// Time linear in the number of rows.
pub fn column(rows: &[u64], j: u32) -> u64
    requires rows { length rows.now ≤ 64 }
    requires j { j < 64 }
    ensures pairs { (i : ℕ) → IsTrue (has result i) ↔ IsTrue (has (slice_index rows.now i) j) }
    ensures within { result < 2 ^ length rows.now }
{
    let mut column = 0u64;
    for i in 0..rows.len() {
        if has_column(rows[i], j) {
            column |= single(i as u32);
        }
    }
    column
}

// The row of this number, and 0 past the last.
fn row_at(rows: &[u64], at: u32) -> u64
    ensures { result ≡ slice_index rows.now at }
{
    match rows.get(at as usize) {
        Some(row) => *row,
        None => 0,
    }
}

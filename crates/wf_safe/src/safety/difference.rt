// The first pair on which rows differ.
ghost use Rattle.std.specs.Prelude.{◌≡◌, ◌≤◌, length, MatchOption};
ghost use Rattle.wf_safe.specs.Disagreeing.{IsFirstDifference};

use bool_mat::has_column;
use wf_spec::PortNo;

/// A pair that exactly one of two lists of rows has.
#[derive(Clone, Copy, Drop)]
pub struct Difference {
    pub input: PortNo,
    pub output: PortNo,
    /// Whether the first list has it.
    pub in_first: bool,
}

/// The first pair, by row and then column, on which as many rows of two lists differ.
///
/// Cost: one look at each row.
pub fn first_difference(one: &[u64], other: &[u64]) -> Option<Difference>
    requires same { length one.now ≡ length other.now }
    requires few { length one.now ≤ 64 }
    ensures { MatchOption result (one.now ≡ other.now) (λ x. IsFirstDifference one.now other.now x) }
{
    for i in 0..one.len() {
        let differing = one[i] ^ other[i];
        if differing != 0 {
            let o = differing.trailing_zeros();
            return Some(Difference {
                input: PortNo(i as u8),
                output: PortNo(o as u8),
                in_first: has_column(one[i], o),
            });
        }
    }
    None
}

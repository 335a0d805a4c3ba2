// The first pair that one list of rows has and another has not.
ghost use Rattle.std.specs.Prelude.{◌≡◌, ◌≤◌, length, MatchOption};
ghost use Rattle.wf_compare.specs.Pairs.{HasNoMore, IsFirstMore};

use wf_spec::PortNo;

/// An input and an output of a module.
#[derive(Clone, Copy, Drop)]
pub struct PortPair {
    pub input: PortNo,
    pub output: PortNo,
}

/// The first pair, by row and then column, that one list of rows has and another of as many has not.
///
/// Cost: one look at each row.
pub fn first_more(one: &[u64], other: &[u64]) -> Option<PortPair>
    requires same { length one.now ≡ length other.now }
    requires few { length one.now ≤ 64 }
    ensures { MatchOption result (HasNoMore one.now other.now) (λ x. IsFirstMore one.now other.now x.input.0 x.output.0) }
{
    for i in 0..one.len() {
        let more = one[i] & (one[i] ^ other[i]);
        if more != 0 {
            return Some(PortPair {
                input: PortNo(i as u8),
                output: PortNo(more.trailing_zeros() as u8),
            });
        }
    }
    None
}

// Row products of whole rounds of a cycle.
ghost use Rattle.std.specs.Prelude.{◌≡◌, ◌<◌, ◌≤◌, ℕ, true, false, length};
ghost use Rattle.bool_mat.specs.Matrix.{has};
ghost use Rattle.decode_model.specs.Legs.{squares_to, still};
ghost use Rattle.decode_model.specs.Rows.{Progress};
ghost use Rattle.wf_recur.specs.Cycles.{round_at};
ghost use Rattle.wf_vlabel.specs.Seen.{OpensRound, matrices_of};
ghost use Rattle.wf_decode.specs.HeldLegs.{module_on};
ghost use Rattle.wf_decode.specs.Ways.{square_on};

use bool_mat::{MatRef, Steps, row_times};
use std::sync::ledger::Ledger;
use wf_recur::CycleNo;
use wf_vlabel::{ViewLabel, Way};

/// The matrix of `2^k` rounds from a place of a cycle on, or back to it.
#[inline(always)]
fn square<'v>(vl: &'v ViewLabel<'_>, way: Way, cycle: CycleNo, place: u16, k: u8) -> MatRef<'v>
    requires cycle { cycle.0 < length vl.now.cycles.rounds }
    requires place { place < length (round_at vl.now.cycles cycle.0) }
    requires round { OpensRound vl.now (module_on vl.now.cycles cycle.0 place) }
    requires k { k < 24 }
    ensures { result ≡ square_on way (matrices_of vl.now) (module_on vl.now.cycles cycle.0 place) k }
{
    match way {
        Way::Down => vl.square_in(cycle, place, k),
        Way::Up => vl.square_out(cycle, place, k),
    }
}

/// The number of the first square from a place of a cycle on, or back to it, that is its own square; 23 where none is.
#[inline(always)]
fn still_square(vl: &ViewLabel<'_>, way: Way, cycle: CycleNo, place: u16) -> u8
    requires cycle { cycle.0 < length vl.now.cycles.rounds }
    requires place { place < length (round_at vl.now.cycles cycle.0) }
    requires round { OpensRound vl.now (module_on vl.now.cycles cycle.0 place) }
    ensures still { result ≡ still (square_on way (matrices_of vl.now) (module_on vl.now.cycles cycle.0 place)) }
    ensures few { result ≤ 23 }
{
    match way {
        Way::Down => vl.still_in(cycle, place),
        Way::Up => vl.still_out(cycle, place),
    }
}

/// The least place from `k` on, and below `end`, at which the binary digit of a number is 1; `end` where there is none.
#[inline(always)]
fn next_digit(number: u32, k: u8, end: u8) -> u8
    requires order { k ≤ end }
    requires few { end ≤ 24 }
    ensures from { k ≤ result }
    ensures within { result ≤ end }
    ensures zeros { (j : ℕ) → k ≤ j → j < result → has number j ≡ false }
    ensures one { result < end → has number result ≡ true }
{
    let left = number >> k;
    if left == 0 {
        return end;
    }
    (k as u32 + left.trailing_zeros()).min(end as u32) as u8
}

/// So many rounds from a place of a cycle on, or back to it, by the squares for the binary digits of their number: from the first square on that is its own square, this one stands for all digits.
///
/// Cost: one product for each digit below that square that is 1, and one more.
pub(crate) fn whole_rounds<L: Ledger>(
    vl: &ViewLabel<'_>,
    way: Way,
    cycle: CycleNo,
    place: u16,
    rounds: u32,
    row: u64,
    steps: &mut Steps<L>,
) -> u64
    requires cycle { cycle.0 < length vl.now.cycles.rounds }
    requires place { place < length (round_at vl.now.cycles cycle.0) }
    requires round { OpensRound vl.now (module_on vl.now.cycles cycle.0 place) }
    ensures { Progress (squares_to (square_on way (matrices_of vl.now) (module_on vl.now.cycles cycle.0 place)) rounds) row result steps.old steps.new }
{
    let end = still_square(vl, way, cycle, place);
    let mut row = row;
    let mut k = next_digit(rounds, 0, end);
    while k < end {
        row = row_times(row, square(vl, way, cycle, place, k), steps);
        k = next_digit(rounds, k + 1, end);
    }
    if rounds >> end == 0 {
        return row;
    }
    row_times(row, square(vl, way, cycle, place, end), steps)
}

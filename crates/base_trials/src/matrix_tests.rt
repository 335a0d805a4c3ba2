// Boolean matrices that exchange ports. A row is a number of which bit j stands for column j.
ghost use Rattle.std.specs.Prelude.{◌≡◌, ◌<◌, [], length};

use bool_mat::{
    MatNo, MatPool, Steps, has_column, power_table, product, row_times, single, transposed,
};
use std::alloc::AllocError;
use std::marker::Brand;
use std::sync::ledger::{Blank, Ledger};
use std::test::Fail;

// The one exchanges the first two of three, the other the last two.
const FIRST: [u64; 3] = [2, 1, 4];

const LAST: [u64; 3] = [1, 4, 2];

/// Whether a matrix of a pool has these rows.
fn has_rows(pool: &MatPool, m: MatNo, rows: &[u64]) -> bool
    requires { m.0 < length pool.now }
{
    pool.get(m).rows == rows
}

/// Whether an exchange that is done twice keeps two ports, and its matrix stays.
fn is_exchanged_twice(pool: &mut MatPool) -> Result<bool, AllocError> {
    let a = pool.push(&[2, 1], 2)?;
    let twice = product(pool, a, a)?;
    Ok(has_rows(pool, twice, &[1, 2]) && has_rows(pool, a, &[2, 1]))
}

/// Whether the order of two exchanges tells, and the one order is the other backwards.
fn is_ordered(pool: &mut MatPool) -> Result<bool, AllocError> {
    let first = pool.push(&FIRST, 3)?;
    let last = pool.push(&LAST, 3)?;
    let one = product(pool, first, last)?;
    let other = product(pool, last, first)?;
    let turned = transposed(pool, one)?;
    Ok(
        has_rows(pool, one, &[4, 1, 2])
            && has_rows(pool, other, &[2, 4, 1])
            && has_rows(pool, turned, &[2, 4, 1]),
    )
}

/// Whether a rotation of three ports, pushed first of all, has its powers 1, 2 and 2^23: the last is as the second, since 2^23 is 2 more than a multiple of 3.
fn has_powers(pool: &mut MatPool) -> Result<bool, AllocError>
    requires { pool.old ≡ [] }
{
    let a = pool.push(&[4, 1, 2], 3)?;
    let table = power_table(pool, a, 24)?;
    Ok(
        has_rows(pool, table, &[4, 1, 2])
            && has_rows(pool, MatNo(table.0 + 1), &[2, 4, 1])
            && has_rows(pool, MatNo(table.0 + 23), &[2, 4, 1]),
    )
}

/// The first column alone, times one matrix and then the other.
fn through<L: Ledger>(blank: Blank, pool: &MatPool, one: MatNo, other: MatNo) -> u64
    requires name { blank.name ≡ L.name }
    requires parts { blank.parts ≡ L.parts }
    requires some { 0 < blank.parts }
    requires one { one.0 < length pool.now }
    requires other { other.0 < length pool.now }
{
    let mut steps = Steps::<L>::new(blank);
    let row = row_times(single(0), pool.get(one), &mut steps);
    row_times(row, pool.get(other), &mut steps)
}

/// Whether the first of three ports goes through both exchanges to the last.
fn goes_through(pool: &mut MatPool) -> Result<bool, AllocError> {
    let first = pool.push(&FIRST, 3)?;
    let last = pool.push(&LAST, 3)?;
    let row = through::<Brand>(Blank::new(1), pool, first, last);
    Ok(!has_column(row, 1) && has_column(row, 2))
}

#[test]
fn products_and_powers_exchange_ports(rt: HostRuntime) -> Result<(), Fail> {
    let mut pool = MatPool::new(rt.alloc());
    assert!(rt; has_powers(&mut pool)?);
    assert!(rt; is_exchanged_twice(&mut pool)?);
    assert!(rt; is_ordered(&mut pool)?);
    assert!(rt; goes_through(&mut pool)?);
    Ok(())
}

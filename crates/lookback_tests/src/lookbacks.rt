// Rows that are stored as the distance back to the same value: pushed, read, truncated and cleared, by worked rows.

mod copies;
mod stashes;
mod stores;
mod texts;

use crate::rows::numbers;
use crate::runs::Backs;
use columnar_lookback::lookbacks::Lookbacks;
use std::alloc::Global;
use std::test::Fail;
use test_support::columns::reads;
use test_support::stores::front;
use test_support::{equal, holds};

type Two = Lookbacks<Vec<u64>, 2>;

// Twenty occurs again after two values.
static RETURNS: [u64; 5] = [10, 20, 10, 30, 20];

#[test]
fn one_of_the_last_values_is_kept_as_its_distance(rt: HostRuntime) -> Result<(), Fail> {
    let mut column = Backs::empty(rt.alloc());
    holds!(rt; column.is_empty());
    equal!(rt; column.distance_to(10), None);
    holds!(rt; column.takes(10));
    holds!(rt; column.takes_lent(&20));
    equal!(rt; column.distance_to(20), Some(0));
    equal!(rt; column.distance_to(10), Some(1));
    equal!(rt; column.distance_to(30), None);
    holds!(rt; column.takes_ref(&10));
    holds!(rt; column.takes(30));
    holds!(rt; column.takes_lent(&20));
    equal!(rt; column.count(), 5);
    holds!(rt; column.reads(RETURNS.as_slice()));
    holds!(rt; column.keeps([10, 20, 30].as_slice(), [1, 1].as_slice()));
    equal!(rt; column.row(5), None);
    Ok(())
}

// Tests whether these are the values and distances of a column.
fn keeps<const N: u8>(column: &Lookbacks<Vec<u64>, N>, values: &[u64], distances: &[u8]) -> bool {
    column.inner.oks.as_slice() == values && column.inner.errs.as_slice() == distances
}

// Tests whether a column of these rows that looks `N` values back has these values and distances.
fn column_keeps<const N: u8>(
    alloc: Global,
    rows: &[u64],
    values: &[u64],
    distances: &[u8],
) -> Result<bool, Fail> {
    let column = numbers::<Lookbacks<Vec<u64>, N>>(alloc, rows)?;
    Ok(keeps(&column, values, distances) && reads(&column, rows))
}

#[test]
fn no_more_values_are_looked_at_than_are_asked_for(rt: HostRuntime) -> Result<(), Fail> {
    let alloc = rt.alloc();
    let rows = [10, 20, 20, 10, 30, 10, 20];
    let rows = rows.as_slice();
    holds!(rt; column_keeps::<0>(alloc, rows, rows, [].as_slice())?);
    let values = [10, 20, 10, 30, 10, 20];
    holds!(rt; column_keeps::<1>(alloc, rows, values.as_slice(), [0].as_slice())?);
    let values = [10, 20, 30, 10, 20];
    holds!(rt; column_keeps::<2>(alloc, rows, values.as_slice(), [0, 1].as_slice())?);
    let values = [10, 20, 30];
    holds!(rt; column_keeps::<3>(alloc, rows, values.as_slice(), [0, 1, 2, 1].as_slice())?);
    Ok(())
}

#[test]
fn the_last_of_two_hundred_and_fifty_five(rt: HostRuntime) -> Result<(), Fail> {
    let mut rows = Vec::new(rt.alloc());
    for i in 0..256u64 {
        rows.push(i)?;
    }
    let mut column = Backs::of(rt.alloc(), rows.as_slice())?;
    equal!(rt; column.distance_to(0), None);
    equal!(rt; column.distance_to(1), Some(254));
    holds!(rt; column.takes(1));
    holds!(rt; column.keeps(rows.as_slice(), [254].as_slice()));
    equal!(rt; column.row(256), Some(1));
    holds!(rt; column.takes(0));
    rows.push(0)?;
    holds!(rt; column.keeps(rows.as_slice(), [254].as_slice()));
    equal!(rt; column.row(257), Some(0));
    Ok(())
}

#[test]
fn rows_are_read_through_views_and_references(rt: HostRuntime) -> Result<(), Fail> {
    let column = Backs::of(rt.alloc(), RETURNS.as_slice())?;
    holds!(rt; column.reads_lent([&10, &20, &10, &30, &20].as_slice()));
    holds!(rt; column.views_read(RETURNS.as_slice()));
    equal!(rt; column.last(), Some(20));
    Ok(())
}

#[test]
fn rows_are_cut(rt: HostRuntime) -> Result<(), Fail> {
    let mut column = Backs::of(rt.alloc(), RETURNS.as_slice())?;
    column.cut(4);
    holds!(rt; column.keeps([10, 20, 30].as_slice(), [1].as_slice()));
    column.cut(3);
    holds!(rt; column.reads([10, 20, 10].as_slice()));
    holds!(rt; column.keeps([10, 20].as_slice(), [1].as_slice()));
    holds!(rt; column.takes(20));
    holds!(rt; column.takes(30));
    holds!(rt; column.reads([10, 20, 10, 20, 30].as_slice()));
    holds!(rt; column.keeps([10, 20, 30].as_slice(), [1, 0].as_slice()));
    column.cut(0);
    holds!(rt; column.is_empty());
    holds!(rt; column.takes(10));
    holds!(rt; column.keeps([10].as_slice(), [].as_slice()));
    Ok(())
}

#[test]
fn columns_are_cloned_compared_and_cleared(rt: HostRuntime) -> Result<(), Fail> {
    let mut column = Backs::of(rt.alloc(), RETURNS.as_slice())?;
    let twin = column
        .twin(rt.alloc(), RETURNS.as_slice())
        .expect(&rt, "a twin");
    holds!(rt; keeps(&twin, [10, 20, 30].as_slice(), [1, 1].as_slice()));
    holds!(rt; column.is_cut_and_cleared(rt.alloc(), &twin, 4, 20));
    Ok(())
}

#[test]
fn two_thousand_numbers(rt: HostRuntime) -> Result<(), Fail> {
    let mut rows = Vec::new(rt.alloc());
    let mut backs = Vec::new(rt.alloc());
    for i in 0..2000u64 {
        rows.push(i % 200)?;
        if i >= 200 {
            backs.push((199 - i % 200) as u8)?;
        }
    }
    let values = front(rows.as_slice(), 200);
    let column = Backs::of(rt.alloc(), rows.as_slice())?;
    holds!(rt; column.keeps(values, backs.as_slice()));
    holds!(rt; column.reads(rows.as_slice()));
    holds!(rt; column_keeps::<199>(rt.alloc(), rows.as_slice(), rows.as_slice(), [].as_slice())?);
    Ok(())
}

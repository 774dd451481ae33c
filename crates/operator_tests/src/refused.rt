// Calls with a request for memory refused, or none: they are done, or nothing has changed.
use columnar_bits::bools::Bools;
use columnar_core::container::{Borrow, Storage};
use columnar_core::fault::GrowError;
use columnar_core::traits::{Len, Push};
use columnar_core::view::View;
use columnar_operators::merge::merge;
use columnar_operators::select::{filter, filter_checked, take, take_checked};
use columnar_operators::sort::sort_indices;
use std::test::Fail;
use test_support::{equal, holds};

const NONE: [u64; 0] = [];

#[test]
fn rows_are_put_in_order_or_memory_is_lacking(rt: HostRuntime) {
    let rows = [7u64; 30];
    match sort_indices(rt.alloc(), &View::from_slice(rows.as_slice())) {
        Ok(order) => holds!(rt; order.len() == 30 && order[0] == 0 && order[29] == 29),
        Err(error) => equal!(rt; error, GrowError::Memory),
    }
}

// The second run asks for more memory than the first.
#[test]
fn rows_are_taken_or_the_column_stays(rt: HostRuntime) {
    let rows = [5u64, 2, 9, 2];
    let view = View::from_slice(rows.as_slice());
    let mut taken: Vec<u64> = Vec::new(rt.alloc());
    if take(&mut taken, view, [3usize, 0, 1, 2, 3].as_slice()).is_ok() {
        equal!(rt; taken.as_slice(), [2u64, 5, 2, 9, 2].as_slice());
    } else {
        equal!(rt; taken.as_slice(), NONE.as_slice());
    }
    let mut tested: Vec<u64> = Vec::new(rt.alloc());
    if take_checked(&mut tested, view, [3usize, 0, 1, 2, 3].as_slice()) == Ok(Ok(())) {
        equal!(rt; tested.as_slice(), [2u64, 5, 2, 9, 2].as_slice());
    } else {
        equal!(rt; tested.as_slice(), NONE.as_slice());
    }
}

#[test]
fn rows_are_kept_or_the_column_stays(rt: HostRuntime) -> Result<(), Fail> {
    let rows = [5u64, 2, 9, 2];
    let mut bits = Bools::empty(rt.alloc());
    bits.push(true)?;
    bits.push(false)?;
    bits.push(true)?;
    bits.push(true)?;
    let mut kept: Vec<u64> = Vec::new(rt.alloc());
    let view = View::from_slice(rows.as_slice());
    let tests = bits.borrow();
    if tests.len() == view.len() && filter(&mut kept, view, &tests).is_ok() {
        equal!(rt; kept.as_slice(), [5u64, 9, 2].as_slice());
    } else {
        equal!(rt; kept.as_slice(), NONE.as_slice());
    }
    let mut tested: Vec<u64> = Vec::new(rt.alloc());
    if filter_checked(&mut tested, view, &tests) == Ok(Ok(())) {
        equal!(rt; tested.as_slice(), [5u64, 9, 2].as_slice());
    } else {
        equal!(rt; tested.as_slice(), NONE.as_slice());
    }
    Ok(())
}

#[test]
fn columns_are_merged_or_the_column_stays(rt: HostRuntime) {
    let one = [1u64, 5, 6, 7, 8];
    let other = [2u64];
    let mut all: Vec<u64> = Vec::new(rt.alloc());
    if merge(
        &mut all,
        View::from_slice(one.as_slice()),
        View::from_slice(other.as_slice()),
    )
    .is_ok()
    {
        equal!(rt; all.as_slice(), [1u64, 2, 5, 6, 7, 8].as_slice());
    } else {
        equal!(rt; all.as_slice(), NONE.as_slice());
    }
}

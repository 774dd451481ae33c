// Columns of numbers, and columns that are full.
use columnar_bits::bools::Bools;
use columnar_core::container::{Borrow, Storage};
use columnar_core::fault::GrowError;
use columnar_core::traits::{Len, Push};
use columnar_operators::extremes::{max_row, min_row};
use columnar_operators::merge::merge;
use columnar_operators::search::{is_sorted_rows, lower_bound, partition_point, upper_bound};
use columnar_operators::select::{filter, filter_checked, take, take_checked};
use columnar_operators::sort::sort_indices;
use columnar_primitive::empties::Empties;
use std::test::Fail;
use test_support::{equal, holds};

#[test]
fn numbers_are_sorted_and_taken(rt: HostRuntime) -> Result<(), Fail> {
    let column = Vec::from_slice(rt.alloc(), &[5u64, 2, 9, 2])?;
    let order = sort_indices(rt.alloc(), &column)?;
    equal!(rt; order.as_slice(), [1usize, 3, 0, 2].as_slice());
    let mut sorted: Vec<u64> = Vec::from_slice(rt.alloc(), &[7])?;
    holds!(rt; take(&mut sorted, column.borrow(), order.as_slice()).is_ok());
    equal!(rt; sorted.as_slice(), [7u64, 2, 2, 5, 9].as_slice());
    Ok(())
}

#[test]
fn a_number_of_no_row_takes_nothing(rt: HostRuntime) -> Result<(), Fail> {
    let column = Vec::from_slice(rt.alloc(), &[5u64, 2, 9])?;
    let mut taken: Vec<u64> = Vec::new(rt.alloc());
    equal!(rt; take_checked(&mut taken, column.borrow(), [2usize, 3, 4].as_slice()), Err(3usize));
    equal!(rt; taken.as_slice(), [0u64; 0].as_slice());
    equal!(rt; take_checked(&mut taken, column.borrow(), [2usize, 0, 1, 2].as_slice()), Ok(Ok(())));
    equal!(rt; taken.as_slice(), [9u64, 5, 2, 9].as_slice());
    Ok(())
}

#[test]
fn rows_with_a_set_bit_are_kept(rt: HostRuntime) -> Result<(), Fail> {
    let column = Vec::from_slice(rt.alloc(), &[5u64, 2, 9, 4])?;
    let mut bits = Bools::empty(rt.alloc());
    bits.push(true)?;
    bits.push(true)?;
    bits.push(false)?;
    bits.push(true)?;
    let mut kept: Vec<u64> = Vec::new(rt.alloc());
    let view = column.borrow();
    let tests = bits.borrow();
    holds!(rt; tests.len() == view.len() && filter(&mut kept, view, &tests).is_ok());
    equal!(rt; kept.as_slice(), [5u64, 2, 4].as_slice());
    Ok(())
}

#[test]
fn bits_of_another_number_keep_nothing(rt: HostRuntime) -> Result<(), Fail> {
    let column = Vec::from_slice(rt.alloc(), &[5u64, 2, 9])?;
    let mut bits = Bools::empty(rt.alloc());
    bits.push(true)?;
    bits.push(false)?;
    let mut kept: Vec<u64> = Vec::new(rt.alloc());
    equal!(rt; filter_checked(&mut kept, column.borrow(), &bits.borrow()), Err(2usize));
    equal!(rt; kept.as_slice(), [0u64; 0].as_slice());
    bits.push(true)?;
    equal!(rt; filter_checked(&mut kept, column.borrow(), &bits.borrow()), Ok(Ok(())));
    equal!(rt; kept.as_slice(), [5u64, 9].as_slice());
    Ok(())
}

#[test]
fn two_columns_are_merged(rt: HostRuntime) -> Result<(), Fail> {
    let one = Vec::from_slice(rt.alloc(), &[1u64, 2, 3, 10, 11])?;
    let other = Vec::from_slice(rt.alloc(), &[3u64, 4, 12])?;
    let mut all: Vec<u64> = Vec::new(rt.alloc());
    holds!(rt; merge(&mut all, one.borrow(), other.borrow()).is_ok());
    equal!(rt; all.as_slice(), [1u64, 2, 3, 3, 4, 10, 11, 12].as_slice());
    holds!(rt; is_sorted_rows(&all));
    Ok(())
}

#[test]
fn a_column_in_order_is_searched(rt: HostRuntime) -> Result<(), Fail> {
    let column = Vec::from_slice(rt.alloc(), &[1u64, 3, 3, 7])?;
    let view = column.borrow();
    equal!(rt; lower_bound(&view, &3), 1);
    equal!(rt; upper_bound(&view, &3), 3);
    equal!(rt; partition_point(&view, |n| n < 7), 3);
    holds!(rt; min_row(&view) == Some(1));
    holds!(rt; max_row(&view) == Some(7));
    Ok(())
}

// Of three rows a full column can take two, each by itself.
#[test]
fn a_refusal_in_the_midst_takes_all_back(rt: HostRuntime) -> Result<(), Fail> {
    let mut column = Empties::<u64>::empty(rt.alloc());
    column.push(())?;
    let mut full: Empties<u64> = Empties {
        count: u64::MAX - 2,
        empty: (),
    };
    equal!(rt; take(&mut full, column.borrow(), [0usize, 0, 0].as_slice()), Err(GrowError::Length));
    equal!(rt; full.count, u64::MAX - 2);
    equal!(rt; take(&mut full, column.borrow(), [0usize, 0].as_slice()), Ok(()));
    equal!(rt; full.count, u64::MAX);
    Ok(())
}

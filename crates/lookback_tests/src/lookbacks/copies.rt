// Copies of ranges of rows: which values and distances are stored, by worked rows.

use super::{RETURNS, Two, keeps};
use crate::rows::numbers;
use crate::runs::Backs;
use crate::runs::stashes::BackStash;
use columnar_core::container::Borrow;
use std::test::Fail;
use test_support::columns::{copied, reads};
use test_support::holds;

// The rows 7, 7, 7, of which the first two are stored as values.
static TWO_SEVENS: [u64; 11] = [48, 48, 48, 64, 80, 81, 3, 3, 7, 7, 0];

#[test]
fn a_front_is_copied_as_it_stands(rt: HostRuntime) -> Result<(), Fail> {
    let source = Backs::of(rt.alloc(), RETURNS.as_slice())?;
    let mut copy = Backs::with_room_for(rt.alloc(), &source)?;
    holds!(rt; copy.copies(&source, 0, 4));
    holds!(rt; copy.reads([10, 20, 10, 30].as_slice()));
    holds!(rt; copy.keeps([10, 20, 30].as_slice(), [1].as_slice()));
    let stash = BackStash::opened(rt.alloc(), TWO_SEVENS.as_slice()).expect(&rt, "opened");
    let mut sevens = Backs::empty(rt.alloc());
    holds!(rt; stash.is_copied(&mut sevens, 0, 3));
    holds!(rt; sevens.reads([7, 7, 7].as_slice()));
    holds!(rt; sevens.keeps([7, 7].as_slice(), [0].as_slice()));
    Ok(())
}

#[test]
fn a_whole_column_is_copied(rt: HostRuntime) -> Result<(), Fail> {
    let source = Backs::of(rt.alloc(), RETURNS.as_slice())?;
    holds!(rt; source.is_copied_whole(rt.alloc()));
    Ok(())
}

#[test]
fn a_range_brings_its_own_values(rt: HostRuntime) -> Result<(), Fail> {
    let source = Backs::of(rt.alloc(), RETURNS.as_slice())?;
    let mut copy = Backs::empty(rt.alloc());
    holds!(rt; copy.copies(&source, 2, 5));
    holds!(rt; copy.reads([10, 30, 20].as_slice()));
    holds!(rt; copy.keeps([10, 30, 20].as_slice(), [].as_slice()));
    let mut last = Backs::empty(rt.alloc());
    holds!(rt; last.copies(&source, 4, 5));
    holds!(rt; last.reads([20].as_slice()));
    holds!(rt; last.keeps([20].as_slice(), [].as_slice()));
    Ok(())
}

#[test]
fn empty_ranges_are_copied(rt: HostRuntime) -> Result<(), Fail> {
    let source = Backs::of(rt.alloc(), RETURNS.as_slice())?;
    let mut copy = Backs::empty(rt.alloc());
    holds!(rt; copy.copies(&source, 0, 0));
    holds!(rt; copy.copies(&source, 3, 3));
    holds!(rt; copy.copies(&source, 5, 5));
    holds!(rt; copy.is_empty());
    let mut more = Backs::of(rt.alloc(), [4].as_slice())?;
    holds!(rt; more.copies(&source, 3, 3));
    holds!(rt; more.reads([4].as_slice()));
    Ok(())
}

#[test]
fn rows_are_copied_after_the_same_values(rt: HostRuntime) -> Result<(), Fail> {
    let source = Backs::of(rt.alloc(), RETURNS.as_slice())?;
    let mut column = Backs::of(rt.alloc(), [30, 20].as_slice())?;
    holds!(rt; column.copies(&source, 0, 5));
    holds!(rt; column.reads([30, 20, 10, 20, 10, 30, 20].as_slice()));
    holds!(rt; column.keeps([30, 20, 10].as_slice(), [1, 0, 2, 1].as_slice()));
    Ok(())
}

// The source stores its last ten as a new value; after the copied thirty its distance is 1.
#[test]
fn rows_are_copied_no_further_back(rt: HostRuntime) -> Result<(), Fail> {
    let source = numbers::<Two>(rt.alloc(), [10, 20, 10, 30, 10].as_slice())?;
    holds!(rt; keeps(&source, [10, 20, 30, 10].as_slice(), [1].as_slice()));
    let mut column = numbers::<Two>(rt.alloc(), [30].as_slice())?;
    holds!(rt; copied(&mut column, source.borrow(), 1, 5));
    holds!(rt; reads(&column, [30, 20, 10, 30, 10].as_slice()));
    holds!(rt; keeps(&column, [30, 20, 10, 30].as_slice(), [1].as_slice()));
    Ok(())
}

// Copies of ranges of rows: which values are stored, by worked rows.

use crate::rows::RUNS;
use crate::runs::Runs;
use crate::runs::stashes::RunStash;
use std::test::Fail;
use test_support::holds;

// The rows 7, 7, 7, of which the first two are stored as values.
static TWO_SEVENS: [u64; 9] = [40, 40, 40, 56, 72, 3, 3, 7, 7];

#[test]
fn a_front_is_copied_as_it_stands(rt: HostRuntime) -> Result<(), Fail> {
    let source = Runs::of(rt.alloc(), RUNS.as_slice())?;
    let mut copy = Runs::with_room_for(rt.alloc(), &source)?;
    holds!(rt; copy.copies(&source, 0, 4));
    holds!(rt; copy.reads([1, 1, 2, 2].as_slice()));
    holds!(rt; copy.keeps([1, 2].as_slice()));
    let stash = RunStash::opened(rt.alloc(), TWO_SEVENS.as_slice()).expect(&rt, "opened");
    let mut sevens = Runs::empty(rt.alloc());
    holds!(rt; stash.is_copied(&mut sevens, 0, 3));
    holds!(rt; sevens.reads([7, 7, 7].as_slice()));
    holds!(rt; sevens.keeps([7, 7].as_slice()));
    Ok(())
}

#[test]
fn a_whole_column_is_copied(rt: HostRuntime) -> Result<(), Fail> {
    let source = Runs::of(rt.alloc(), RUNS.as_slice())?;
    holds!(rt; source.is_copied_whole(rt.alloc()));
    Ok(())
}

#[test]
fn a_range_begins_in_a_run(rt: HostRuntime) -> Result<(), Fail> {
    let source = Runs::of(rt.alloc(), RUNS.as_slice())?;
    let mut copy = Runs::empty(rt.alloc());
    holds!(rt; copy.copies(&source, 1, 4));
    holds!(rt; copy.reads([1, 2, 2].as_slice()));
    holds!(rt; copy.keeps([1, 2].as_slice()));
    let mut last = Runs::empty(rt.alloc());
    holds!(rt; last.copies(&source, 3, 5));
    holds!(rt; last.reads([2, 1].as_slice()));
    holds!(rt; last.keeps([2, 1].as_slice()));
    Ok(())
}

#[test]
fn a_range_begins_with_a_run(rt: HostRuntime) -> Result<(), Fail> {
    let source = Runs::of(rt.alloc(), RUNS.as_slice())?;
    let mut copy = Runs::empty(rt.alloc());
    holds!(rt; copy.copies(&source, 2, 5));
    holds!(rt; copy.reads([2, 2, 1].as_slice()));
    holds!(rt; copy.keeps([2, 1].as_slice()));
    Ok(())
}

#[test]
fn empty_ranges_are_copied(rt: HostRuntime) -> Result<(), Fail> {
    let source = Runs::of(rt.alloc(), RUNS.as_slice())?;
    let mut copy = Runs::empty(rt.alloc());
    holds!(rt; copy.copies(&source, 0, 0));
    holds!(rt; copy.copies(&source, 3, 3));
    holds!(rt; copy.copies(&source, 5, 5));
    holds!(rt; copy.is_empty());
    let mut more = Runs::of(rt.alloc(), [4].as_slice())?;
    holds!(rt; more.copies(&source, 3, 3));
    holds!(rt; more.reads([4].as_slice()));
    Ok(())
}

#[test]
fn rows_are_copied_after_the_same_row(rt: HostRuntime) -> Result<(), Fail> {
    let source = Runs::of(rt.alloc(), RUNS.as_slice())?;
    let mut column = Runs::of(rt.alloc(), [5, 1].as_slice())?;
    holds!(rt; column.copies(&source, 0, 2));
    holds!(rt; column.reads([5, 1, 1, 1].as_slice()));
    holds!(rt; column.keeps([5, 1].as_slice()));
    holds!(rt; column.copies(&source, 1, 5));
    holds!(rt; column.reads([5, 1, 1, 1, 1, 2, 2, 1].as_slice()));
    holds!(rt; column.keeps([5, 1, 2, 1].as_slice()));
    Ok(())
}

#[test]
fn rows_are_copied_after_another_row(rt: HostRuntime) -> Result<(), Fail> {
    let source = Runs::of(rt.alloc(), RUNS.as_slice())?;
    let mut column = Runs::of(rt.alloc(), [5].as_slice())?;
    holds!(rt; column.copies(&source, 0, 3));
    holds!(rt; column.reads([5, 1, 1, 2].as_slice()));
    holds!(rt; column.keeps([5, 1, 2].as_slice()));
    holds!(rt; column.copies(&source, 1, 2));
    holds!(rt; column.reads([5, 1, 1, 2, 1].as_slice()));
    holds!(rt; column.keeps([5, 1, 2, 1].as_slice()));
    Ok(())
}

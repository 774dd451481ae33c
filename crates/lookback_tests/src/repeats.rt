// Runs of rows that are stored once: pushed, read, truncated and cleared, by worked rows.
use crate::rows::RUNS;
use crate::runs::Runs;
use std::test::Fail;
use test_support::{equal, holds};

#[test]
fn a_run_is_kept_once(rt: HostRuntime) -> Result<(), Fail> {
    let mut column = Runs::empty(rt.alloc());
    holds!(rt; column.is_empty());
    holds!(rt; !column.is_repeated(1));
    holds!(rt; column.takes(1));
    holds!(rt; column.is_repeated(1));
    holds!(rt; !column.is_repeated(2));
    holds!(rt; column.takes_lent(&1));
    holds!(rt; column.takes(2));
    holds!(rt; column.takes_lent(&2));
    holds!(rt; column.takes_lent(&1));
    equal!(rt; column.count(), 5);
    holds!(rt; column.reads(RUNS.as_slice()));
    holds!(rt; column.keeps([1, 2, 1].as_slice()));
    equal!(rt; column.row(5), None);
    Ok(())
}

#[test]
fn rows_are_read_through_views_and_references(rt: HostRuntime) -> Result<(), Fail> {
    let column = Runs::of(rt.alloc(), RUNS.as_slice())?;
    holds!(rt; column.reads_lent([&1, &1, &2, &2, &1].as_slice()));
    holds!(rt; column.views_read(RUNS.as_slice()));
    equal!(rt; column.last(), Some(1));
    Ok(())
}

#[test]
fn rows_are_cut_in_a_run(rt: HostRuntime) -> Result<(), Fail> {
    let mut column = Runs::of(rt.alloc(), RUNS.as_slice())?;
    column.cut(3);
    holds!(rt; column.reads([1, 1, 2].as_slice()));
    holds!(rt; column.keeps([1, 2].as_slice()));
    holds!(rt; column.takes(2));
    holds!(rt; column.keeps([1, 2].as_slice()));
    column.cut(1);
    holds!(rt; column.keeps([1].as_slice()));
    holds!(rt; column.takes(1));
    holds!(rt; column.reads([1, 1].as_slice()));
    holds!(rt; column.keeps([1].as_slice()));
    column.cut(0);
    holds!(rt; column.is_empty());
    holds!(rt; column.takes(1));
    holds!(rt; column.keeps([1].as_slice()));
    Ok(())
}

#[test]
fn columns_are_cloned_compared_and_cleared(rt: HostRuntime) -> Result<(), Fail> {
    let mut column = Runs::of(rt.alloc(), RUNS.as_slice())?;
    let twin = column
        .twin(rt.alloc(), RUNS.as_slice())
        .expect(&rt, "a twin");
    equal!(rt; twin.inner.somes.as_slice(), [1, 2, 1].as_slice());
    holds!(rt; column.is_cut_and_cleared(rt.alloc(), &twin, 4, 2));
    Ok(())
}

#[test]
fn two_thousand_numbers(rt: HostRuntime) -> Result<(), Fail> {
    let mut rows = Vec::new(rt.alloc());
    for i in 0..2000u64 {
        rows.push(i / 3)?;
    }
    let column = Runs::of(rt.alloc(), rows.as_slice())?;
    equal!(rt; column.count(), 2000);
    equal!(rt; column.kept(), 667);
    holds!(rt; column.reads(rows.as_slice()));
    Ok(())
}

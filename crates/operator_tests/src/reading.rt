// Columns of a derived struct are sorted, merged and searched, and a run of equal values is stored once.
ghost use Rattle.columnar.specs.Format.{IsSound};

mod rows;

use crate::hashes::rises;
use columnar::fault::GrowError;
use columnar::operators::{lower_bound, max_row, merge, min_row, sort_indices, take, upper_bound};
use columnar::{
    Borrow, Column, ContainerOf, Index, OwnRow, Push, Repeats, SameAs, SameParts, Storage,
};
use rows::{ReadingColumns, ReadingContainer, ReadingReference};
use std::alloc::Global;
use std::rt::HostRuntime;
use std::test::Fail;
use test_support::columns::{reads, takes_ref};
use test_support::{equal, holds};

// A level, and when it was read.
#[derive(Drop)]
pub struct Reading {
    pub level: u32,
    pub time: u64,
}

type Row = OwnRow<(u32, u64), Reading>;

fn row(level: u32, time: u64) -> Row {
    OwnRow::new((level, time))
}

// Readings, for the calls that the tests make.
#[derive(Drop)]
struct Readings {
    column: ReadingContainer,
    ghost sound: { IsSound ⟦<ReadingContainer as Column>⟧.format (⟦<ReadingContainer as Column>⟧.content column) },
}

impl Readings {
    fn of(alloc: Global, rows: &[(u32, u64)]) -> Result<Readings, GrowError> {
        let mut readings = Readings {
            column: ReadingContainer::empty(alloc),
        };
        for i in 0..rows.len() {
            let (level, time) = rows[i];
            readings.add(level, time)?;
        }
        Ok(readings)
    }

    fn add(&mut self, level: u32, time: u64) -> Result<(), GrowError> {
        self.column.push(ReadingReference { level, time })
    }

    fn order(&self, alloc: Global) -> Result<Vec<usize>, GrowError> {
        sort_indices(alloc, &self.column.borrow())
    }

    fn sorted(&self, alloc: Global) -> Result<Readings, GrowError> {
        let view = self.column.borrow();
        let order = sort_indices(alloc, &view)?;
        let mut column = ReadingContainer::empty(alloc);
        take(&mut column, view, order.as_slice())?;
        Ok(Readings { column })
    }

    fn merged(&self, alloc: Global, other: &Readings) -> Result<Readings, GrowError> {
        let mut column = ReadingContainer::empty(alloc);
        merge(&mut column, self.column.borrow(), other.column.borrow())?;
        Ok(Readings { column })
    }

    // The greatest level, and the sum of the times
    fn by_field(&self) -> (Option<u32>, u64) {
        let view = self.column.borrow();
        let mut sum = 0u64;
        for time in view.time().into_index_iter() {
            sum = sum.saturating_add(time);
        }
        (view.level().into_index_iter().max(), sum)
    }

    // How many rows are less than the key, and how many are not greater
    fn bounds(&self, level: u32, time: u64) -> (usize, usize) {
        let view = self.column.borrow();
        let key = row(level, time);
        (lower_bound(&view, &key), upper_bound(&view, &key))
    }

    // The least row and the greatest one
    fn ends(&self) -> (Option<Row>, Option<Row>) {
        let view = self.column.borrow();
        (min_row(&view), max_row(&view))
    }

    fn reads(&self, rows: &[Row]) -> bool {
        reads(&self.column.borrow(), rows)
    }
}

#[test]
fn readings_are_sorted_by_level_and_then_by_time(rt: HostRuntime) -> Result<(), Fail> {
    let readings = Readings::of(rt.alloc(), &[(2, 9), (1, 7), (2, 4), (1, 7), (0, 8)])?;
    let order = readings.order(rt.alloc())?;
    equal!(rt; order.as_slice(), [4usize, 1, 3, 2, 0].as_slice());
    let sorted = readings.sorted(rt.alloc())?;
    holds!(rt; sorted.reads(&[row(0, 8), row(1, 7), row(1, 7), row(2, 4), row(2, 9)]));
    Ok(())
}

#[test]
fn sorted_readings_are_merged(rt: HostRuntime) -> Result<(), Fail> {
    let one = Readings::of(rt.alloc(), &[(1, 7), (2, 4)])?;
    let other = Readings::of(rt.alloc(), &[(0, 8), (1, 7), (2, 5)])?;
    let merged = one.merged(rt.alloc(), &other)?;
    holds!(rt; merged.reads(&[row(0, 8), row(1, 7), row(1, 7), row(2, 4), row(2, 5)]));
    Ok(())
}

#[test]
fn sorted_readings_are_searched(rt: HostRuntime) -> Result<(), Fail> {
    let readings = Readings::of(rt.alloc(), &[(0, 8), (1, 7), (1, 7), (2, 4), (2, 9)])?;
    equal!(rt; readings.bounds(1, 7), (1, 3));
    equal!(rt; readings.bounds(0, 9), (1, 1));
    equal!(rt; readings.bounds(2, 5), (4, 4));
    equal!(rt; readings.bounds(3, 0), (5, 5));
    Ok(())
}

#[test]
fn least_and_greatest_readings_are_found(rt: HostRuntime) -> Result<(), Fail> {
    let readings = Readings::of(rt.alloc(), &[(2, 4), (0, 8), (2, 9), (1, 0)])?;
    holds!(rt; readings.ends() == (Some(row(0, 8)), Some(row(2, 9))));
    holds!(rt; Readings::of(rt.alloc(), &[])?.ends() == (None, None));
    Ok(())
}

#[test]
fn columns_of_the_fields_have_names(rt: HostRuntime) -> Result<(), Fail> {
    let readings = Readings::of(rt.alloc(), &[(2, 7), (9, 1), (2, 5)])?;
    equal!(rt; readings.by_field(), (Some(9), 13));
    Ok(())
}

#[test]
fn readings_compare_by_level_first(rt: HostRuntime) {
    holds!(rt; rises(&row(1, 9), &row(2, 0)) && rises(&row(1, 7), &row(1, 8)));
    holds!(rt; !rises(&row(1, 7), &row(1, 7)) && !rises(&row(2, 0), &row(1, 9)));
}

/// A value is the same as a row if both fields are.
impl SameParts<ContainerOf<(u32, u64)>, Reading> for Reading {
    fn same_parts(&self, parts: &ContainerOf<(u32, u64)>, at: usize) -> bool {
        parts.same(at, &(&self.level, &self.time))
    }
}

type Runs = Repeats<ReadingContainer>;

// Runs of readings, for the calls that the tests make.
#[derive(Drop)]
struct HeldRuns {
    column: Runs,
    ghost sound: { IsSound ⟦<Runs as Column>⟧.format (⟦<Runs as Column>⟧.content column) },
}

impl HeldRuns {
    fn empty(alloc: Global) -> HeldRuns {
        HeldRuns {
            column: Runs::empty(alloc),
        }
    }

    fn takes(&mut self, level: u32, time: u64) -> bool {
        takes_ref(&mut self.column, &Reading { level, time })
    }

    fn reads(&self, rows: &[Row]) -> bool {
        reads(&self.column.borrow(), rows)
    }

    // The times that are stored
    fn times(&self) -> &[u64] {
        self.column.inner.somes.parts.1.as_slice()
    }
}

#[test]
fn repeated_readings_are_stored_once(rt: HostRuntime) -> Result<(), Fail> {
    let mut held = HeldRuns::empty(rt.alloc());
    holds!(rt; held.takes(1, 7) && held.takes(1, 7) && held.takes(1, 8) && held.takes(2, 8));
    holds!(rt; held.takes(2, 8));
    equal!(rt; held.times(), [7, 8, 8].as_slice());
    holds!(rt; held.reads(&[row(1, 7), row(1, 7), row(1, 8), row(2, 8), row(2, 8)]));
    Ok(())
}

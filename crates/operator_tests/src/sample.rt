// Rows that derive what an attribute names, and a field whose column an attribute names.
ghost use Rattle.columnar.specs.Format.{IsSound};

mod rows;

use columnar::fault::OwnError;
use columnar::{Borrow, Column, Columnar, Index, Len, OwnRow, Repeats, Storage};
use rows::{SampleContainer, SampleReference};
use std::alloc::Global;
use std::default::Default;
use std::rt::HostRuntime;
use std::test::Fail;
use test_support::columns::{reads, takes, takes_ref};
use test_support::{equal, holds};

// A level that seldom changes, and when it was read.
#[derive(Drop)]
// #[columnar(derive(PartialEq, Eq, PartialOrd, Ord, Hash, Default))]
pub struct Sample {
    // #[columnar(column = "Repeats<Vec<u32>>")]
    pub level: u32,
    pub time: u64,
}

type Row = OwnRow<(u32, u64), Sample>;

fn row(level: u32, time: u64) -> Row {
    OwnRow::new((level, time))
}

// Samples, for the calls that the tests make.
#[derive(Drop)]
struct Samples {
    column: SampleContainer,
    ghost sound: { IsSound ⟦<SampleContainer as Column>⟧.format (⟦<SampleContainer as Column>⟧.content column) },
}

impl Samples {
    fn empty(alloc: Global) -> Samples {
        Samples {
            column: SampleContainer::empty(alloc),
        }
    }

    fn takes(&mut self, level: u32, time: u64) -> bool {
        takes_ref(&mut self.column, &Sample { level, time })
    }

    fn takes_row(&mut self, level: u32, time: u64) -> bool {
        takes(&mut self.column, SampleReference { level, time })
    }

    fn reads(&self, rows: &[Row]) -> bool {
        reads(&self.column.borrow(), rows)
    }

    fn shown(&self, index: usize) -> Option<SampleReference<u32, u64>> {
        Some(self.column.borrow().get_checked(index)?.show())
    }

    fn sample(&self, alloc: Global, index: usize) -> Option<Result<Sample, OwnError>> {
        Some(Sample::into_owned(alloc, self.column.borrow().get_checked(index)?))
    }

    // The levels that are stored
    fn levels(&self) -> &[u32] {
        self.column.parts.0.inner.somes.as_slice()
    }
}

#[test]
fn the_named_column_stores_a_level_once(rt: HostRuntime) -> Result<(), Fail> {
    let mut samples = Samples::empty(rt.alloc());
    holds!(rt; samples.takes(7, 1) && samples.takes(7, 2) && samples.takes_row(7, 3));
    holds!(rt; samples.takes_row(8, 4));
    equal!(rt; samples.levels(), [7, 8].as_slice());
    holds!(rt; samples.reads(&[row(7, 1), row(7, 2), row(7, 3), row(8, 4)]));
    match samples.sample(rt.alloc(), 2) {
        Some(Ok(Sample { level, time })) => equal!(rt; (level, time), (7, 3)),
        _ => holds!(rt; false),
    }
    Ok(())
}

#[test]
fn shown_rows_have_what_they_derive(rt: HostRuntime) -> Result<(), Fail> {
    let mut samples = Samples::empty(rt.alloc());
    holds!(rt; samples.takes(7, 1));
    let (low, high) = (
        SampleReference { level: 7, time: 1 },
        SampleReference { level: 7, time: 2 },
    );
    equal!(rt; samples.shown(0), Some(low));
    holds!(rt; low < high && low != high);
    equal!(rt; SampleReference::default(), SampleReference { level: 0, time: 0 });
    Ok(())
}

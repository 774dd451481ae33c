// A struct of numbers: writes in place, repeats, and rows of the column itself.
ghost use Rattle.columnar.specs.Format.{IsSound};

mod rows;

use columnar::{
    Borrow, Column, Field, Index, Len, OwnRow, Push, PushRef, Repeats, SetItem, SetRow, Storage,
};
use rows::PointContainer;
use std::alloc::Global;
use std::rt::HostRuntime;
use std::test::Fail;
use test_support::columns::{reads, takes, takes_ref};
use test_support::{equal, holds};

#[derive(Drop)]
pub struct Point {
    pub x: u64,
    pub y: u32,
}

type Row = OwnRow<(u64, u32), Point>;

fn row(x: u64, y: u32) -> Row {
    OwnRow::new((x, y))
}

// Points, for the calls that the tests make.
#[derive(Drop)]
struct Points {
    column: PointContainer,
    ghost sound: { IsSound ⟦<PointContainer as Column>⟧.format (⟦<PointContainer as Column>⟧.content column) },
}

impl Points {
    fn empty(alloc: Global) -> Points {
        Points {
            column: PointContainer::empty(alloc),
        }
    }

    fn takes(&mut self, point: &Point) -> bool {
        takes_ref(&mut self.column, point)
    }

    fn takes_row(&mut self, row: Row) -> bool {
        takes(&mut self.column, row)
    }

    fn sets(&mut self, index: usize, row: Row) -> bool {
        self.column.set_row_checked(index, row)
    }

    fn sets_x(&mut self, index: usize, x: u64) -> bool {
        if index >= self.column.len() {
            return false;
        }
        self.column.set_x(index, x);
        true
    }

    fn sets_y(&mut self, index: usize, y: u32) -> bool {
        self.column.set_item_checked(index, Field::<1>, y)
    }

    fn reads(&self, rows: &[Row]) -> bool {
        reads(&self.column.borrow(), rows)
    }
}

#[test]
fn points_are_written_in_place(rt: HostRuntime) -> Result<(), Fail> {
    let mut points = Points::empty(rt.alloc());
    holds!(rt; points.takes(&Point { x: 1, y: 2 }) && points.takes_row(row(3, 4)));
    holds!(rt; points.sets(0, row(5, 6)) && !points.sets(2, row(5, 6)));
    holds!(rt; points.sets_y(1, 7) && points.reads(&[row(5, 6), row(3, 7)]));
    holds!(rt; points.sets_x(1, 8) && !points.sets_x(2, 9));
    holds!(rt; points.reads(&[row(5, 6), row(8, 7)]));
    Ok(())
}

// Repeated points, for the calls that the tests make.
#[derive(Drop)]
struct Runs {
    column: Repeats<PointContainer>,
    ghost sound: { IsSound ⟦<Repeats<PointContainer> as Column>⟧.format (⟦<Repeats<PointContainer> as Column>⟧.content column) },
}

impl Runs {
    fn empty(alloc: Global) -> Runs {
        Runs {
            column: Repeats::empty(alloc),
        }
    }

    fn takes(&mut self, row: Row) -> bool {
        takes(&mut self.column, row)
    }

    // The places that are stored
    fn stored(&self) -> &[u64] {
        self.column.inner.somes.parts.0.as_slice()
    }
}

#[test]
fn equal_points_are_stored_once(rt: HostRuntime) -> Result<(), Fail> {
    let mut runs = Runs::empty(rt.alloc());
    holds!(rt; runs.takes(row(1, 2)) && runs.takes(row(1, 2)) && runs.takes(row(3, 2)));
    equal!(rt; runs.stored(), [1, 3].as_slice());
    Ok(())
}

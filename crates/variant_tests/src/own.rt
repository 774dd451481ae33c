// Your own rows: distinguished from those before them, and written in place.
ghost use Rattle.columnar_core.specs.Format.{IsSound};

use columnar_cells::index_mut::IndexMut;
use columnar_cells::items::{Field, SetItem};
use columnar_cells::set::SetRow;
use columnar_core::container::Storage;
use columnar_core::fault::GrowError;
use columnar_core::ordered::OrderedRow;
use columnar_core::traits::{Column, Len, Push};
use columnar_lookback::repeats::Repeats;
use columnar_own::rows::{OwnRow, OwnRows};
use columnar_primitive::offsets::fixeds::Fixeds;
use columnar_variants::cases::{Last, Nth};
use columnar_variants::variants::Variants;
use std::alloc::Global;
use std::cmp::Ordering;
use std::rt::HostRuntime;
use std::test::Fail;
use test_support::columns::{reads, takes, takes_ref};
use test_support::{equal, holds};

// Distinguishes readings from other rows.
struct Reading;

type Readings = OwnRows<(Vec<u64>, Vec<u32>), Reading>;

type Runs = Repeats<Readings>;

type Row = OwnRow<(u64, u32), Reading>;

fn row(time: u64, value: u32) -> Row {
    OwnRow::new((time, value))
}

// Runs of readings, for the calls of the tests.
#[derive(Drop)]
struct HeldRuns {
    column: Runs,
    ghost sound: { IsSound ⟦<Runs as Column>⟧.format (⟦<Runs as Column>⟧.content column) },
}

impl HeldRuns {
    fn empty(alloc: Global) -> HeldRuns {
        HeldRuns {
            column: Runs::empty(alloc),
        }
    }

    fn takes(&mut self, row: Row) -> bool {
        takes(&mut self.column, row)
    }

    fn takes_ref(&mut self, row: &Row) -> bool {
        takes_ref(&mut self.column, row)
    }

    fn reads(&self, rows: &[Row]) -> bool {
        reads(&self.column, rows)
    }

    // Returns the stored times.
    fn times(&self) -> &[u64] {
        self.column.inner.somes.parts.0.as_slice()
    }
}

#[test]
fn runs_of_own_rows_are_kept_once(rt: HostRuntime) -> Result<(), Fail> {
    let mut held = HeldRuns::empty(rt.alloc());
    holds!(rt; held.takes(row(1, 2)) && held.takes_ref(&row(1, 2)) && held.takes(row(3, 2)));
    holds!(rt; held.takes_ref(&row(3, 2)) && held.takes(row(3, 4)));
    equal!(rt; held.times(), [1, 3, 3].as_slice());
    holds!(rt; held.reads(&[row(1, 2), row(1, 2), row(3, 2), row(3, 2), row(3, 4)]));
    Ok(())
}

#[test]
fn own_rows_print_their_parts(rt: HostRuntime) -> Result<(), Fail> {
    let text = format!(in rt.alloc(); "{:?}", row(1, 2))?;
    equal!(rt; text.as_str(), "(1, 2)");
    Ok(())
}

// Readings, for the calls of the tests.
#[derive(Drop)]
struct Held {
    column: Readings,
    ghost sound: { IsSound ⟦<Readings as Column>⟧.format (⟦<Readings as Column>⟧.content column) },
}

impl Held {
    fn empty(alloc: Global) -> Held {
        Held {
            column: Readings::empty(alloc),
        }
    }

    fn takes(&mut self, row: Row) -> bool {
        takes(&mut self.column, row)
    }

    fn sets(&mut self, index: usize, row: Row) -> bool {
        self.column.set_row_checked(index, row)
    }

    fn sets_value(&mut self, index: usize, value: u32) -> bool {
        self.column.set_item_checked(index, Field::<1>, value)
    }

    fn reads(&self, rows: &[Row]) -> bool {
        reads(&self.column, rows)
    }
}

// Writes the value of a row through its loan; returns false if there is no such row.
fn lent_written(column: &mut Readings, index: usize, value: u32) -> bool
    requires { IsSound ⟦<Readings as Column>⟧.format (⟦<Readings as Column>⟧.content column.old) }
{
    if index < column.len() {
        column.get_mut(index).set_item_checked(Field::<1>, value)
    } else {
        false
    }
}

// Writes the time of the last row through its loan; returns false if there is none.
fn last_written(column: &mut Readings, time: u64) -> bool
    requires { IsSound ⟦<Readings as Column>⟧.format (⟦<Readings as Column>⟧.content column.old) }
{
    match column.last_mut() {
        Some(mut last) => last.set_item_checked(Field::<0>, time),
        None => false,
    }
}

#[test]
fn own_rows_are_written_in_place(rt: HostRuntime) -> Result<(), Fail> {
    let mut held = Held::empty(rt.alloc());
    holds!(rt; held.takes(row(1, 2)) && held.takes(row(3, 4)));
    holds!(rt; held.sets(0, row(5, 6)) && !held.sets(2, row(5, 6)));
    holds!(rt; held.sets_value(1, 7) && held.reads(&[row(5, 6), row(3, 7)]));
    Ok(())
}

#[test]
fn own_rows_are_lent(rt: HostRuntime) -> Result<(), Fail> {
    let mut held = Held::empty(rt.alloc());
    holds!(rt; held.takes(row(1, 2)) && held.takes(row(3, 4)));
    let Held { mut column, .. } = held;
    holds!(rt; last_written(&mut column, 8));
    equal!(rt; column.parts.0.as_slice(), [1, 8].as_slice());
    let mut held = Held::empty(rt.alloc());
    holds!(rt; held.takes(row(1, 2)) && held.takes(row(3, 4)));
    let Held { mut column, .. } = held;
    holds!(rt; lent_written(&mut column, 0, 9));
    equal!(rt; column.parts.1.as_slice(), [9, 4].as_slice());
    Ok(())
}

#[test]
fn own_rows_compare_by_their_first_different_part(rt: HostRuntime) -> Result<(), Fail> {
    holds!(rt; row(1, 2) == row(1, 2) && row(1, 2) != row(1, 3));
    holds!(rt; row(1, 2).same_row(&row(1, 2)) && !row(1, 2).same_row(&row(3, 2)));
    equal!(rt; row(1, 9).compare_row(&row(3, 2)), Ordering::Less);
    equal!(rt; row(3, 2).compare_row(&row(3, 2)), Ordering::Equal);
    equal!(rt; row(3, 4).compare_row(&row(3, 2)), Ordering::Greater);
    Ok(())
}

type Either = OwnRow<Nth<u64, Last<u32>>, Reading>;

#[test]
fn own_rows_compare_by_their_variant_first(rt: HostRuntime) -> Result<(), Fail> {
    let first = Either::new(Nth::This(9));
    let second = Either::new(Nth::Next(Last(1)));
    holds!(rt; first.same_row(&first) && !first.same_row(&second));
    equal!(rt; first.compare_row(&second), Ordering::Less);
    equal!(rt; second.compare_row(&Either::new(Nth::Next(Last(0)))), Ordering::Greater);
    Ok(())
}

type Multiples = OwnRows<Fixeds<2>, Reading>;

type Kinds = Variants<(Fixeds<2>, (Vec<u8>,))>;

#[test]
fn a_refused_part_says_why(rt: HostRuntime) -> Result<(), Fail> {
    let mut own = Multiples::empty(rt.alloc());
    let odd = OwnRow::<u64, Reading>::new(3);
    equal!(rt; own.push(odd), Err(GrowError::Offset));
    let mut kinds = Kinds::empty(rt.alloc());
    equal!(rt; kinds.push(Nth::<u64, Last<u8>>::This(3)), Err(GrowError::Offset));
    Ok(())
}

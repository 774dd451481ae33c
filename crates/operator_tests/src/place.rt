// Columns of structs whose fields have no names, of a struct without fields, and of an enum of both.
ghost use Rattle.columnar.specs.Format.{IsSound};

mod refused;
mod rows;

use columnar::fault::OwnError;
use columnar::sums::variants::{Last, Nth};
use columnar::{Borrow, Column, Columnar, Index, Len, OwnRow, Storage};
use rows::{
    FoundContainer, FoundReference, MetersColumns, MetersReference, NowhereContainer,
    NowhereReference, PlaceColumns, PlaceContainer, PlaceReference,
};
use std::alloc::Global;
use std::rt::HostRuntime;
use std::test::Fail;
use test_support::columns::{reads, takes, takes_ref};
use test_support::{equal, holds};

// A length.
#[derive(Drop)]
pub struct Meters(pub u64);

// How far away, and how high.
#[derive(Drop)]
pub struct Place(pub Meters, pub u32);

// No place.
#[derive(Drop)]
pub struct Nowhere;

// Where a thing is.
#[derive(Drop)]
pub enum Found {
    At(Place),
    Lost(Nowhere),
}

type MetersRow = OwnRow<(u64,), Meters>;

type PlaceRow = OwnRow<(MetersRow, u32), Place>;

type NowhereRow = OwnRow<(), Nowhere>;

type FoundRow = OwnRow<Nth<PlaceRow, Last<NowhereRow>>, Found>;

fn place_row(far: u64, high: u32) -> PlaceRow {
    OwnRow::new((OwnRow::new((far,)), high))
}

// Places, for the calls that the tests make.
#[derive(Drop)]
struct Places {
    column: PlaceContainer,
    ghost sound: { IsSound ⟦<PlaceContainer as Column>⟧.format (⟦<PlaceContainer as Column>⟧.content column) },
}

impl Places {
    fn empty(alloc: Global) -> Places {
        Places {
            column: PlaceContainer::empty(alloc),
        }
    }

    fn takes(&mut self, far: u64, high: u32) -> bool {
        takes_ref(&mut self.column, &Place(Meters(far), high))
    }

    fn takes_row(&mut self, far: u64, high: u32) -> bool {
        takes(&mut self.column, PlaceReference(MetersReference(far), high))
    }

    fn reads(&self, rows: &[PlaceRow]) -> bool {
        reads(&self.column.borrow(), rows)
    }

    fn place(&self, alloc: Global, index: usize) -> Option<Result<Place, OwnError>> {
        Some(Place::into_owned(alloc, self.column.borrow().get_checked(index)?))
    }

    // The sum of the lengths, each a field of a field
    fn far(&self) -> u64 {
        let mut sum = 0u64;
        for far in self.column.borrow().field_0().field_0().into_index_iter() {
            sum = sum.saturating_add(far);
        }
        sum
    }

    // The fields of a row, by its struct
    fn shown(&self, index: usize) -> Option<(u64, u32)> {
        let PlaceReference(meters, high) = self.column.borrow().get_checked(index)?.show();
        Some((meters.show().0, high))
    }
}

#[test]
fn fields_without_names_are_pushed_and_read(rt: HostRuntime) -> Result<(), Fail> {
    let mut places = Places::empty(rt.alloc());
    holds!(rt; places.takes(13, 2) && places.takes_row(40, 1));
    holds!(rt; places.reads(&[place_row(13, 2), place_row(40, 1)]));
    equal!(rt; places.far(), 53);
    equal!(rt; places.shown(1), Some((40, 1)));
    equal!(rt; places.shown(2), None);
    match places.place(rt.alloc(), 0) {
        Some(Ok(Place(Meters(far), high))) => equal!(rt; (far, high), (13, 2)),
        _ => holds!(rt; false),
    }
    Ok(())
}

// Rows without fields, for the calls that the tests make.
#[derive(Drop)]
struct Nowheres {
    column: NowhereContainer,
    ghost sound: { IsSound ⟦<NowhereContainer as Column>⟧.format (⟦<NowhereContainer as Column>⟧.content column) },
}

impl Nowheres {
    fn empty(alloc: Global) -> Nowheres {
        Nowheres {
            column: NowhereContainer::empty(alloc),
        }
    }

    fn takes(&mut self) -> bool {
        takes_ref(&mut self.column, &Nowhere) && takes(&mut self.column, NowhereReference)
    }

    fn count(&self) -> usize {
        self.column.len()
    }

    fn value(&self, alloc: Global, index: usize) -> Option<Result<Nowhere, OwnError>> {
        Some(Nowhere::into_owned(alloc, self.column.borrow().get_checked(index)?))
    }
}

#[test]
fn a_struct_without_fields_is_counted(rt: HostRuntime) -> Result<(), Fail> {
    let mut held = Nowheres::empty(rt.alloc());
    holds!(rt; held.takes() && held.takes());
    equal!(rt; held.count(), 4);
    holds!(rt; matches!(&held.value(rt.alloc(), 3), Some(Ok(Nowhere))));
    holds!(rt; matches!(&held.value(rt.alloc(), 4), None));
    Ok(())
}

// What was found, for the calls that the tests make.
#[derive(Drop)]
struct Finds {
    column: FoundContainer,
    ghost sound: { IsSound ⟦<FoundContainer as Column>⟧.format (⟦<FoundContainer as Column>⟧.content column) },
}

impl Finds {
    fn empty(alloc: Global) -> Finds {
        Finds {
            column: FoundContainer::empty(alloc),
        }
    }

    fn takes(&mut self, found: &Found) -> bool {
        takes_ref(&mut self.column, found)
    }

    fn takes_row(&mut self, far: u64, high: u32) -> bool {
        let found: FoundReference<PlaceRow, NowhereRow> = FoundReference::At(place_row(far, high));
        takes(&mut self.column, found)
    }

    fn reads(&self, rows: &[FoundRow]) -> bool {
        reads(&self.column.borrow(), rows)
    }
}

#[test]
fn variants_of_such_structs_are_pushed_and_read(rt: HostRuntime) -> Result<(), Fail> {
    let mut finds = Finds::empty(rt.alloc());
    holds!(rt; finds.takes(&Found::Lost(Nowhere)) && finds.takes(&Found::At(Place(Meters(7), 3))));
    holds!(rt; finds.takes_row(8, 4));
    let lost: FoundRow = OwnRow::new(Nth::Next(Last(OwnRow::new(()))));
    let near: FoundRow = OwnRow::new(Nth::This(place_row(7, 3)));
    let far: FoundRow = OwnRow::new(Nth::This(place_row(8, 4)));
    holds!(rt; finds.reads(&[lost, near, far]));
    Ok(())
}

fn are(names: &[String], expected: &[&str]) -> bool {
    names.len() == expected.len()
        && names
            .iter()
            .zip(expected.iter())
            .all(|(name, other)| name.as_str() == *other)
}

//! Options, by worked rows.
ghost use Rattle.std.specs.Prelude.{IfOk};
ghost use Rattle.columnar_core.specs.Format.{IsSound};

use columnar_bits::bools::Bools;
use columnar_core::bytes::{Check, Stored};
use columnar_core::container::{Borrow, ExtendFrom, Storage};
use columnar_core::fault::StoreFault;
use columnar_core::traits::{Clear, Column, Index, Item, Len, Push, PushRef};
use columnar_core::view::View;
use columnar_sums::option::Options;
use columnar_sums::rank_select::RankSelect;
use std::alloc::Global;
use std::test::Fail;
use test_support::columns::{copied, count, cut, reads, takes, takes_ref};
use test_support::{equal, holds};

type Held = Options<Vec<u64>, Vec<u64>, Vec<u64>, [u64; 2]>;

type Viewed<'a> = Options<View<'a, u64>, View<'a, u64>, View<'a, u64>, View<'a, u64>>;

// Optional numbers, for the calls of several tests.
#[derive(Drop)]
struct Numbers {
    column: Held,
    ghost sound: { IsSound ⟦<Held as Column>⟧.format (⟦<Held as Column>⟧.content column) },
}

impl Numbers {
    // Creates a column of these rows.
    fn of(alloc: Global, rows: &[Option<u64>]) -> Result<Numbers, Fail> {
        Ok(Numbers {
            column: column_of(alloc, rows)?,
        })
    }

    // Creates the rows 1, none, 3, 4, none.
    fn five(alloc: Global) -> Result<Numbers, Fail> {
        Numbers::of(alloc, [Some(1), None, Some(3), Some(4), None].as_slice())
    }

    // Copies these rows of another column.
    fn copies(&mut self, source: &Numbers, start: usize, end: usize) -> bool {
        copied(&mut self.column, source.column.borrow(), start, end)
    }

    // Tests whether it has exactly these rows.
    fn reads(&self, rows: &[Option<u64>]) -> bool {
        reads(&self.column, rows)
    }

    // Tests whether these are the values.
    fn keeps(&self, values: &[u64]) -> bool {
        self.column.somes.as_slice() == values
    }
}

// Creates a column of these rows.
fn column_of<C: Storage + Push<Option<u64>>>(alloc: Global, rows: &[Option<u64>]) -> Result<C, Fail>
    ensures { IfOk result (λ c. IsSound C.format (C.content c)) }
{
    let mut column = C::empty(alloc);
    if Push::extend(&mut column, rows.iter().copied()).is_err() {
        return Err(Fail::from("refused"));
    }
    Ok(column)
}

// Pushes two items by value, one by reference and a reference to one; returns false if a push fails.
fn takes_four<'x, T: Item + Copy, C: Push<T> + PushRef<T> + Push<&'x T>>(
    column: &mut C,
    one: T,
    other: T,
    read: &T,
    lent: &'x T,
) -> bool
    requires sound { IsSound C.format (C.content column.old) }
    requires one_valid { T.valid one }
    requires other_valid { T.valid other }
    requires read_valid { T.valid read.now }
    requires lent_valid { T.valid lent.now }
    ensures { IsSound C.format (C.content column.new) }
{
    takes(column, one) && takes(column, other) && takes_ref(column, read) && takes(column, lent)
}

#[test]
fn some_and_none(rt: HostRuntime) -> Result<(), Fail> {
    let mut column = Held::empty(rt.alloc());
    holds!(rt; column.is_all_none());
    let (nine, none) = (Some(9u64), None);
    holds!(rt; takes_four(&mut column, Some(7), None, &nine, &none));
    equal!(rt; count(&column), 4);
    let rows = [Some(7), None, nine, none];
    holds!(rt; reads(&column, rows.as_slice()));
    holds!(rt; reads(&&column, [Some(&7), None, Some(&9), None].as_slice()));
    holds!(rt; reads(&column.borrow(), rows.as_slice()));
    equal!(rt; Index::last(&column.borrow()), Some(None));
    holds!(rt; !column.is_all_none());
    equal!(rt; column.somes.as_slice(), [7, 9].as_slice());
    holds!(rt; column.borrow().check().is_ok());
    cut(&mut column, 2);
    equal!(rt; column.somes.as_slice(), [7].as_slice());
    equal!(rt; column.len(), 2);
    column.clear();
    holds!(rt; column.is_empty());
    Ok(())
}

#[test]
fn copies_of_ranges(rt: HostRuntime) -> Result<(), Fail> {
    let source = Numbers::five(rt.alloc())?;
    let views = [source.column.borrow()];
    let mut copy = Numbers {
        column: Held::with_capacity_for(rt.alloc(), views.iter().copied())?,
    };
    holds!(rt; copy.copies(&source, 1, 4));
    holds!(rt; copy.keeps([3, 4].as_slice()));
    holds!(rt; copy.reads([None, Some(3), Some(4)].as_slice()));
    Ok(())
}

#[test]
fn copies_after_rows(rt: HostRuntime) -> Result<(), Fail> {
    let mut copy = Numbers::five(rt.alloc())?;
    let source = Numbers::five(rt.alloc())?;
    holds!(rt; copy.copies(&source, 2, 5));
    holds!(rt; copy.keeps([1, 3, 4, 3, 4].as_slice()));
    let rows = [
        Some(1),
        None,
        Some(3),
        Some(4),
        None,
        Some(3),
        Some(4),
        None,
    ];
    holds!(rt; copy.reads(rows.as_slice()));
    Ok(())
}

#[test]
fn copies_of_columns(rt: HostRuntime) -> Result<(), Fail> {
    let mut numbers = Numbers::five(rt.alloc())?;
    let source = Numbers::five(rt.alloc())?;
    let views = [source.column.borrow()];
    holds!(rt; numbers.column.reserve_for(views.iter().copied()).is_ok());
    let same = Numbers {
        column: numbers.column.duplicate(rt.alloc())?,
    };
    holds!(rt; same.reads([Some(1), None, Some(3), Some(4), None].as_slice()));
    let twin = same.column.clone()?;
    holds!(rt; twin == same.column);
    numbers.column.clear();
    holds!(rt; twin != numbers.column);
    Ok(())
}

#[test]
fn values_alone(rt: HostRuntime) -> Result<(), Fail> {
    let all = Numbers::of(rt.alloc(), [Some(1), Some(2)].as_slice())?;
    let values = match all.column.try_unwrap() {
        Some(values) => values,
        None => return Err(Fail::from("none")),
    };
    equal!(rt; values.as_slice(), [1, 2].as_slice());
    let one = Numbers::of(rt.alloc(), [Some(1), None].as_slice())?;
    holds!(rt; one.column.try_unwrap().is_none());
    Ok(())
}

#[test]
fn parts_that_differ(rt: HostRuntime) -> Result<(), Fail> {
    let bits = Bools {
        values: View::from_slice([].as_slice()),
        tail: View::from_slice([1, 2].as_slice()),
    };
    let uneven: Viewed<'_> = Options {
        indexes: RankSelect {
            counts: View::from_slice([].as_slice()),
            values: bits,
        },
        somes: View::from_slice([7, 8].as_slice()),
    };
    equal!(rt; uneven.check(), Err(StoreFault::Parts(0)));
    let mut sizes = Vec::new(rt.alloc());
    holds!(rt; Held::element_sizes(&mut sizes).is_ok());
    equal!(rt; sizes.as_slice(), [8, 8, 8, 8].as_slice());
    Ok(())
}

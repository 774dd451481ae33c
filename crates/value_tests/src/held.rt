//! A well-formed column, and the operations of the tests on many columns. Each call on a column adds the column's impls
//! to the proof of the test; therefore operations that belong together are one call, which is proved once for all
//! columns.
ghost use Rattle.std.specs.Prelude.{◌<◌, All, IsTrue};
ghost use Rattle.std.specs.Iterator.{HoldsAlong, IsFinite};
ghost use Rattle.columnar_core.specs.Format.{IsSound, representable};

use columnar_core::bytes::{AsBytes, Check, Stored};
use columnar_core::container::{Borrow, ContainerBytes, ExtendFrom, Storage};
use columnar_core::traits::{Clear, Column, Index, Item, Len, Push, PushRef};
use std::alloc::Global;
use std::iter::once;
use test_support::columns::{copied, copy_all, cut, row_at, takes, takes_ref};

/// A well-formed column.
#[derive(Drop)]
pub struct Held<C: Column> {
    pub column: C,
    ghost sound: { IsSound C.format (C.content column) },
}

impl<C: Storage> Held<C> {
    // Duplicates the column.
    fn duplicate(&self, alloc: Global) -> Option<Self> {
        let column = self.column.duplicate(alloc).ok()?;
        Some(Held { column })
    }

    // Tests whether it has no rows after `clear`.
    fn clears(mut self) -> bool {
        self.column.clear();
        self.column.is_empty()
    }
}

/// Creates a column of these rows: one is pushed by value, one by reference, one where no lifetime can be named, and
/// the others in order. `None` if a push fails.
pub fn grown<
    'x,
    T: Item,
    C: Storage + Push<T> + Push<&'x T> + PushRef<T>,
    I: Iterator<Item = T> + Drop,
>(alloc: Global, first: T, second: &'x T, third: &T, others: I) -> Option<Held<C>>
    requires first { T.valid first }
    requires second { T.valid second.now }
    requires third { T.valid third.now }
    requires callable { I.can_next others }
    requires finite { IsFinite (I.remaining others) }
    requires others { HoldsAlong I.next_gives others (All T.valid) }
{
    let mut column = C::empty(alloc);
    let by_value = takes(&mut column, first);
    let by_reference = takes(&mut column, second);
    let unnamed = takes_ref(&mut column, third);
    let in_turn = Push::<T>::extend(&mut column, others).is_ok();
    if by_value & by_reference & unnamed & in_turn {
        Some(Held { column })
    } else {
        None
    }
}

/// Creates a column of two rows: one is pushed by value, one by reference. `None` if a push fails.
pub fn pair_of<'x, T: Item, C: Storage + Push<T> + Push<&'x T>>(
    alloc: Global,
    first: T,
    second: &'x T,
) -> Option<Held<C>>
    requires first { T.valid first }
    requires second { T.valid second.now }
{
    let mut column = C::empty(alloc);
    let by_value = takes(&mut column, first);
    let by_reference = takes(&mut column, second);
    if by_value & by_reference {
        Some(Held { column })
    } else {
        None
    }
}

/// Tests whether a column has exactly these rows, read from itself and from its view, and whether the view passes its
/// own test.
pub fn reads<
    'a,
    T: Item + PartialEq + Copy,
    C: Len + Index<Ref = T> + Borrow<'a, Ref = T, Borrowed: Check>,
>(held: &'a Held<C>, rows: &[T]) -> bool
    requires { IsTrue (representable C.Borrowed.format) }
{
    let column = &held.column;
    let view = column.borrow();
    for i in 0..rows.len() {
        if row_at(column, i) != Some(rows[i]) || row_at(&view, i) != Some(rows[i]) {
            return false;
        }
    }
    column.len() == rows.len() && view.check().is_ok()
}

/// The results of `copy_twice` on the rows of a view.
#[derive(Drop)]
pub struct Copies<C: Column> {
    /// All rows.
    pub all: Held<C>,
    /// All rows, and some of them again.
    pub more: Held<C>,
    /// The first rows of `more`.
    pub cut: Held<C>,
    /// A duplicate of `cut`.
    pub again: Held<C>,
}

// Copies all rows of a view, with space for those of the views; none on an error.
fn copy_of<V: Len + Copy, C: Storage + ExtendFrom<V>, I: Iterator<Item = V> + Drop>(
    alloc: Global,
    view: V,
    views: I,
) -> Option<Held<C>>
    requires sound { IsSound V.format (V.content view) }
    requires callable { I.can_next views }
    requires finite { IsFinite (I.remaining views) }
{
    let mut column = C::with_capacity_for(alloc, views).ok()?;
    copy_all(&mut column, view).ok()?;
    Some(Held { column })
}

// Returns the same column with the rows `start..end` of a view appended, then with space for those of the view; none on
// an error.
fn copied_after<V: Len + Copy, C: Storage + ExtendFrom<V>>(
    mut held: Held<C>,
    view: V,
    start: usize,
    end: usize,
) -> Option<Held<C>>
    requires { IsSound V.format (V.content view) }
{
    let taken = copied(&mut held.column, view, start, end);
    let made = held.column.reserve_for(once(view)).is_ok();
    if taken & made { Some(held) } else { None }
}

/// Copies all rows of a view into space for those of the views, and then the rows `start..end`; truncates that to
/// `kept` rows, duplicates and clears it. `None` if a call fails, or if a row remains after `clear`.
pub fn copy_twice<V: Len + Copy, C: Storage + ExtendFrom<V>, I: Iterator<Item = V> + Drop>(
    alloc: Global,
    view: V,
    views: I,
    start: usize,
    end: usize,
    kept: usize,
) -> Option<Copies<C>>
    requires sound { IsSound V.format (V.content view) }
    requires callable { I.can_next views }
    requires finite { IsFinite (I.remaining views) }
{
    let all = copy_of(alloc, view, views)?;
    let more = copied_after(all.duplicate(alloc)?, view, start, end)?;
    let mut first = more.duplicate(alloc)?;
    cut(&mut first.column, kept);
    let again = first.duplicate(alloc)?;
    if again.duplicate(alloc)?.clears() {
        Some(Copies {
            all,
            more,
            cut: first,
            again,
        })
    } else {
        None
    }
}

/// Returns the element sizes of a type, if there is memory.
pub fn sizes_of<C: Stored>(alloc: Global) -> Option<Vec<usize>>
    requires { IsTrue (representable C.format) }
{
    let mut sizes = Vec::new(alloc);
    C::element_sizes(&mut sizes).ok()?;
    Some(sizes)
}

/// Tests whether slice 0 of a column and of its view has this many bytes, and the view's this alignment.
pub fn slices_are<'a, C: ContainerBytes + Borrow<'a, Borrowed: AsBytes<'a>>>(
    column: &'a C,
    align: u64,
    bytes: usize,
) -> bool
    requires representable { IsTrue (representable C.format) }
    requires view_representable { IsTrue (representable C.Borrowed.format) }
    requires some { 0 < C.format.count }
    requires view_some { 0 < C.Borrowed.format.count }
{
    let (found, slice) = column.borrow().get_byte_slice(0);
    found == align && slice.len() == bytes && column.byte_slice(0).len() == bytes
}

//! The traits of a type that can be stored in columns.
ghost use Rattle.std.specs.Prelude.{◌≡◌, Bool, List, [], map, All, Option, None, OnOk, OnErr, IfOk, IfErr};
ghost use Rattle.std.specs.Borrow.{Bor};
ghost use Rattle.std.specs.Iterator.{IsFinite, HoldsAlong, Drains, Yields};
ghost use Rattle.columnar_base.specs.Row.{Row};
ghost use Rattle.columnar_base.specs.declared.fault.OwnError.{OwnError};
ghost use Rattle.columnar_types.specs.Owned.{Unfit, IsFit, IsWhy, IsAnswered};
ghost use Rattle.columnar_types.specs.Made.{Made, NotMade, StoppedMaking};

use columnar_base::fault::{GrowError, OwnError};
use columnar_base::storage::{Storage, Truncate};
use columnar_base::traits::{Column, Item, PushRef};
use columnar_core::container::{Borrow, ReborrowRef};
use std::alloc::Global;

/// A type whose values are the rows of a column. `Container` names the column; an impl of `FromRow` reads a row.
pub trait Columnar: Item {
    // which rows have no value of this type, and why
    ghost unfit: { Unfit → Row → Bool };

    // the error for a row that is reported before any allocation, if there is one
    ghost at_once: { Row → Option OwnError } = { λ _. None };

    /// The column that stores the values.
    type Container: Column;

    /// Returns the value that a row represents.
    ///
    /// # Errors
    /// `Utf8` if a text in the row is not UTF-8; `WrongLength` if a list in it has another length than its array;
    /// `Memory` if an allocation fails. If the type is a text, its UTF-8 is tested before any allocation, and if it is
    /// an array, its length: these errors do not depend on available memory.
    ///
    /// # Requires
    /// `row` is valid.
    final fn into_owned<R: Item>(alloc: Global, row: R) -> Result<Self, OwnError>
    where
        Self: FromRow<R>,
        requires { R.valid row }
        ensures value { IfOk result (λ v. Self.Item.meaning v ≡ R.meaning row) }
        ensures valid { IfOk result Self.Item.valid }
        ensures fit { OnOk result (IsFit unfit (R.meaning row)) }
        ensures why { IfErr result (λ e. IsWhy e unfit (R.meaning row)) }
        ensures at_once { IsAnswered (at_once (R.meaning row)) result }
    {
        Self::from_row(alloc, row)
    }

    /// Replaces the value by the value that a row represents.
    ///
    /// # Errors
    /// As `into_owned`. The old value stays.
    ///
    /// # Requires
    /// `row` is valid.
    final fn copy_from<R: Item>(&mut self, alloc: Global, row: R) -> Result<(), OwnError>
    where
        Self: FromRow<R>,
        requires { R.valid row }
        ensures value { OnOk result (Self.Item.meaning self.new ≡ R.meaning row) }
        ensures valid { OnOk result (Self.Item.valid self.new) }
        ensures fit { OnOk result (IsFit unfit (R.meaning row)) }
        ensures why { IfErr result (λ e. IsWhy e unfit (R.meaning row)) }
        ensures at_once { IsAnswered (at_once (R.meaning row)) result }
        ensures stays { OnErr result (self.new ≡ self.old) }
    {
        let value = Self::from_row(alloc, row)?;
        *self = value;
        Ok(())
    }

    /// Creates a column with a row for each item of a slice, in order.
    ///
    /// # Errors
    /// As a push of the items.
    ///
    /// # Requires
    /// All items are valid.
    final fn column_of(alloc: Global, items: &[Self]) -> Result<Self::Container, GrowError>
    where
        Self: Sized,
        Self::Container: Storage + PushRef<Self>,
        requires { All Self.Item.valid items.now }
        ensures ok { IfOk result (λ c. Made Self.Container.format (Self.Container.content c) (map Self.Item.meaning items.now)) }
        ensures err { IfErr result (λ e. NotMade Self.Container.format (map Self.Item.meaning items.now) e) }
    {
        let mut column = <Self::Container as Storage>::empty(alloc);
        column.push_slice(items)?;
        Ok(column)
    }

    /// Creates a column with a row for each item of an iterator, in order.
    ///
    /// # Errors
    /// As a push of the first item that cannot be pushed. The items after it are not taken from the iterator.
    ///
    /// # Requires
    /// The iterator is finite, and all its items are valid.
    final fn as_columns<'x, I: Iterator<Item = &'x Self> + Drop>(
        alloc: Global,
        items: I,
    ) -> Result<Self::Container, GrowError>
    where
        Self: Sized + 'x,
        Self::Container: Storage + PushRef<Self>,
        requires callable { I.can_next items }
        requires finite { IsFinite (I.remaining items) }
        requires valid { HoldsAlong I.next_gives items (All (λ x. Self.Item.valid x.now)) }
        ensures ok { IfOk result (λ c. (xs : List (Bor Self)) × (Drains I.next_gives items xs × Made Self.Container.format (Self.Container.content c) (map (λ x. Self.Item.meaning x.now) xs))) }
        ensures err { IfErr result (λ e. (xs : List (Bor Self)) × (rest : I) × (Yields I.next_gives items xs rest × StoppedMaking Self.Container.format (map (λ x. Self.Item.meaning x.now) xs) e)) }
    {
        let mut column = <Self::Container as Storage>::empty(alloc);
        for item in items {
            column.push_ref(item)?;
        }
        Ok(column)
    }

    /// Does the same as `as_columns`, and consumes the items.
    ///
    /// # Errors
    /// As `as_columns`.
    ///
    /// # Requires
    /// The iterator is finite, and all its items are valid.
    final fn into_columns<I: Iterator<Item = Self> + Drop>(
        alloc: Global,
        items: I,
    ) -> Result<Self::Container, GrowError>
    where
        Self: Sized + Drop,
        Self::Container: Storage + PushRef<Self>,
        requires callable { I.can_next items }
        requires finite { IsFinite (I.remaining items) }
        requires valid { HoldsAlong I.next_gives items (All Self.Item.valid) }
        ensures ok { IfOk result (λ c. (xs : List Self) × (Drains I.next_gives items xs × Made Self.Container.format (Self.Container.content c) (map Self.Item.meaning xs))) }
        ensures err { IfErr result (λ e. (xs : List Self) × (rest : I) × (Yields I.next_gives items xs rest × StoppedMaking Self.Container.format (map Self.Item.meaning xs) e)) }
    {
        let mut column = <Self::Container as Storage>::empty(alloc);
        for value in items {
            column.push_ref(&value)?;
        }
        Ok(column)
    }

    /// Returns the same row for a shorter lifetime.
    ///
    /// # Requires
    /// `row` is valid.
    final fn reborrow<'b, R: ReborrowRef<'b>>(row: R) -> R::ShortRef
        requires { R.valid row }
        ensures row { R.ShortRef.meaning result ≡ R.meaning row }
        ensures valid { R.ShortRef.valid result }
    {
        row.reborrow_ref()
    }
}

/// A type whose values can be made from rows of type `R`. Your own type implements only its one method.
pub trait FromRow<R: Item>: Columnar + Drop {
    /// Returns the value that a row represents.
    ///
    /// # Errors
    /// Says why the row has no value of this type.
    ///
    /// # Requires
    /// `row` is valid.
    fn from_row(alloc: Global, row: R) -> Result<Self, OwnError>
        requires { R.valid row }
        ensures value { IfOk result (λ v. Self.meaning v ≡ R.meaning row) }
        ensures valid { IfOk result Self.valid }
        ensures fit { OnOk result (IsFit Self.unfit (R.meaning row)) }
        ensures why { IfErr result (λ e. IsWhy e Self.unfit (R.meaning row)) }
        ensures at_once { IsAnswered (Self.at_once (R.meaning row)) result };
}

/// The column that stores the values of a type.
pub type ContainerOf<T> = <T as Columnar>::Container;

/// The view of a column of values of a type.
pub type BorrowedOf<'a, T> = <<T as Columnar>::Container as Borrow<'a>>::Borrowed;

/// A row of a column of values of a type.
pub type Ref<'a, T> = <<T as Columnar>::Container as Borrow<'a>>::Ref;

//! Column traits that do not involve views. The type of a column determines its format, and its value has a content;
//! the two determine its meaning.
ghost use Rattle.std.specs.Prelude.{◌≡◌, ◌+◌, ◌-◌, ◌<◌, ◌≤◌, ◌↔◌, length, map, List, [], ◌∷◌, slice_get, Some, All, OnOk, IfErr, IsTrue, IsNone, IfSome};
ghost use Rattle.std.specs.Iterator.{IsFinite, HoldsAlong, Drains, Yields};
ghost use Rattle.columnar_base.specs.Row.{Row};
ghost use Rattle.columnar_base.specs.Format.{Content, Format, IsSound};
ghost use Rattle.columnar_base.specs.Change.{Took, Refused, StoppedAt};
ghost use Rattle.columnar_base.specs.Room.{WasFull, Leaves, Frees};

use crate::fault::GrowError;
use crate::iter::IterOwn;
use crate::storage::Truncate;

/// A value that represents a row.
pub trait Item {
    // the row
    ghost meaning: { Self → Row };

    // what its reads require: a view inside it is well-formed
    ghost valid: { Self → Type 0 };

    // a push allocates nothing but room for its row
    ghost unbuffered: { Type 0 } = { Unit {0} };
}

/// A list of rows, stored in a few slices.
pub trait Column {
    // how the type is read
    ghost format: { Format };

    // what this value holds
    ghost content: { Self → Content };

    // these rows, pushed in this order, need no allocation
    ghost room: { Self → List Row → Type 0 };
}

/// A column with a length.
pub trait Len: Column {
    /// Returns the number of rows.
    ///
    /// # Requires
    /// A well-formed column.
    fn len(&self) -> usize
        requires { IsSound Self.format (Self.content self.now) }
        ensures { result ≡ length (Self.format.rows (Self.content self.now)) };

    /// Returns whether the column has no rows.
    ///
    /// # Requires
    /// A well-formed column.
    final fn is_empty(&self) -> bool
        requires { IsSound Self.format (Self.content self.now) }
        ensures { IsTrue result ↔ (Self.format.rows (Self.content self.now) ≡ []) }
    {
        self.len() == 0
    }
}

/// A column that can be emptied.
pub trait Clear: Column {
    /// Removes all rows and leaves a well-formed column; allocates nothing. There is room for the removed rows again.
    fn clear(&mut self)
        ensures sound { IsSound Self.format (Self.content self.new) }
        ensures rows { Self.format.rows (Self.content self.new) ≡ [] }
        ensures freed { Frees Self.format (Self.content self.old) 0 (Self.room self.old) (Self.room self.new) };
}

/// A column that takes items of type `T`.
pub trait Push<T: Item>: Column {
    /// Appends a row that represents `item`.
    ///
    /// # Requires
    /// A well-formed column, and a valid item.
    ///
    /// # Errors
    /// `Memory` only if the column has no room for the row; `Length` or `Offset` only if the column cannot hold the rows
    /// together. The rows and the lengths of all parts stay.
    fn push(&mut self, item: T) -> Result<(), GrowError>
        requires sound { IsSound Self.format (Self.content self.old) }
        requires valid { T.valid item }
        ensures ok { OnOk result (Took Self.format (Self.content self.old) (Self.content self.new) (T.meaning item ∷ [])) }
        ensures err { IfErr result (λ e. Refused Self.format (Self.content self.old) (Self.content self.new) (T.meaning item ∷ []) e) }
        ensures wanted { T.unbuffered → IfErr result (WasFull (Self.room self.old) (T.meaning item ∷ [])) }
        ensures left { OnOk result (Leaves (Self.room self.old) (Self.room self.new) (T.meaning item ∷ [])) };

    /// Pushes the items in order.
    ///
    /// # Requires
    /// A well-formed column; a finite iterator of valid items that can be called.
    ///
    /// # Errors
    /// The first error of a push. The items before the refused one stay in the column.
    final fn extend<I: Iterator<Item = T> + Drop>(&mut self, items: I) -> Result<(), GrowError>
        requires sound { IsSound Self.format (Self.content self.old) }
        requires callable { I.can_next items }
        requires finite { IsFinite (I.remaining items) }
        requires valid { HoldsAlong I.next_gives items (All T.valid) }
        ensures ok { OnOk result ((xs : List T) × (Drains I.next_gives items xs × Took Self.format (Self.content self.old) (Self.content self.new) (map T.meaning xs))) }
        ensures err { IfErr result (λ e. (xs : List T) × (rest : I) × (Yields I.next_gives items xs rest × StoppedAt Self.format (Self.content self.old) (Self.content self.new) (map T.meaning xs) e)) }
        ensures wanted { T.unbuffered → IfErr result (λ e. (xs : List T) × (rest : I) × (Yields I.next_gives items xs rest × (StoppedAt Self.format (Self.content self.old) (Self.content self.new) (map T.meaning xs) e × WasFull (Self.room self.old) (map T.meaning xs) e))) }
        ensures left { OnOk result ((xs : List T) × (Drains I.next_gives items xs × (Took Self.format (Self.content self.old) (Self.content self.new) (map T.meaning xs) × Leaves (Self.room self.old) (Self.room self.new) (map T.meaning xs)))) }
    {
        for item in items {
            self.push(item)?;
        }
        Ok(())
    }
}

/// An item that can be pushed to columns of type `C`: `Push` from the item's side.
/// A column of parts has one impl of `Push`, over items of this trait. The compiler finds that impl at once at any
/// depth of nesting, even if the item's type is not yet known.
pub trait PushInto<C: Column>: Item {
    /// Appends a row that represents this item.
    ///
    /// # Requires
    /// A well-formed column, and a valid item.
    ///
    /// # Errors
    /// As `Push::push`.
    fn push_into(self, column: &mut C) -> Result<(), GrowError>
        requires sound { IsSound C.format (C.content column.old) }
        requires valid { Self.valid self }
        ensures ok { OnOk result (Took C.format (C.content column.old) (C.content column.new) (Self.meaning self ∷ [])) }
        ensures err { IfErr result (λ e. Refused C.format (C.content column.old) (C.content column.new) (Self.meaning self ∷ []) e) }
        ensures wanted { Self.unbuffered → IfErr result (WasFull (C.room column.old) (Self.meaning self ∷ [])) }
        ensures left { OnOk result (Leaves (C.room column.old) (C.room column.new) (Self.meaning self ∷ [])) };
}

/// Pushes items by reference, for callers that cannot name the lifetime in `Push<&T>`.
pub trait PushRef<T: Item>: Column {
    /// Appends a row that represents `item`, as a push of `&T` does.
    ///
    /// # Requires
    /// A well-formed column, and a valid item.
    ///
    /// # Errors
    /// As `Push::push`.
    fn push_ref(&mut self, item: &T) -> Result<(), GrowError>
        requires sound { IsSound Self.format (Self.content self.old) }
        requires valid { T.valid item.now }
        ensures ok { OnOk result (Took Self.format (Self.content self.old) (Self.content self.new) (T.meaning item.now ∷ [])) }
        ensures err { IfErr result (λ e. Refused Self.format (Self.content self.old) (Self.content self.new) (T.meaning item.now ∷ []) e) }
        ensures wanted { T.unbuffered → IfErr result (WasFull (Self.room self.old) (T.meaning item.now ∷ [])) }
        ensures left { OnOk result (Leaves (Self.room self.old) (Self.room self.new) (T.meaning item.now ∷ [])) };

    /// Appends rows that represent the items, one each and in order, or none. In contrast, a push of a slice appends
    /// one row, a list.
    ///
    /// # Requires
    /// A well-formed column, and valid items.
    ///
    /// # Errors
    /// As `Push::push`, for all items together. The rows and the lengths of all parts stay.
    fn push_slice(&mut self, items: &[T]) -> Result<(), GrowError>
    where
        Self: Truncate,
        requires sound { IsSound Self.format (Self.content self.old) }
        requires valid { All T.valid items.now }
        ensures ok { OnOk result (Took Self.format (Self.content self.old) (Self.content self.new) (map T.meaning items.now)) }
        ensures err { IfErr result (λ e. Refused Self.format (Self.content self.old) (Self.content self.new) (map T.meaning items.now) e) }
        ensures wanted { T.unbuffered → IfErr result (WasFull (Self.room self.old) (map T.meaning items.now)) }
        ensures left { OnOk result (Leaves (Self.room self.old) (Self.room self.new) (map T.meaning items.now)) }
    {
        let before = self.len();
        for i in 0..items.len() {
            match self.push_ref(&items[i]) {
                Ok(()) => {}
                Err(error) => {
                    self.truncate(before);
                    return Err(error);
                }
            }
        }
        Ok(())
    }
}

/// A column whose rows are read by their index.
pub trait Index: Column {
    ghost use Rattle.columnar_base.specs.RowsLeft.{rows_left};

    /// The type that represents a row.
    type Ref: Copy + Item;

    /// Returns row `index`.
    ///
    /// # Requires
    /// A well-formed column, and `index` below its length.
    fn get(&self, index: usize) -> Self::Ref
        requires sound { IsSound Self.format (Self.content self.now) }
        requires in_range { index < length (Self.format.rows (Self.content self.now)) }
        ensures row { slice_get (Self.format.rows (Self.content self.now)) index ≡ Some (Self.Ref.meaning result) }
        ensures valid { Self.Ref.valid result };

    /// Returns row `index`, or `None` if there is no such row.
    ///
    /// # Requires
    /// A well-formed column.
    final fn get_checked(&self, index: usize) -> Option<Self::Ref>
    where
        Self: Len,
        requires { IsSound Self.format (Self.content self.now) }
        ensures none { IsNone result ↔ (length (Self.format.rows (Self.content self.now)) ≤ index) }
        ensures row { IfSome result (λ r. slice_get (Self.format.rows (Self.content self.now)) index ≡ Some (Self.Ref.meaning r)) }
        ensures valid { IfSome result Self.Ref.valid }
    {
        if index < self.len() {
            Some(self.get(index))
        } else {
            None
        }
    }

    /// Iterates over the rows in order, through a reference to the column.
    ///
    /// # Requires
    /// A well-formed column.
    final fn index_iter(&self) -> IterOwn<&Self>
    where
        Self: Sized,
        requires { IsSound Self.format (Self.content self.now) }
        ensures { rows_left result ≡ Self.format.rows (Self.content self.now) }
    {
        IterOwn::<&Self>::new(0, self)
    }

    /// Iterates over the rows in order, and takes the column.
    ///
    /// # Requires
    /// A well-formed column.
    final fn into_index_iter(self) -> IterOwn<Self>
    where
        Self: Sized,
        requires { IsSound Self.format (Self.content self) }
        ensures { rows_left result ≡ Self.format.rows (Self.content self) }
    {
        IterOwn::<Self>::new(0, self)
    }

    /// Returns the last row, or `None` if there are no rows.
    ///
    /// # Requires
    /// A well-formed column.
    final fn last(&self) -> Option<Self::Ref>
    where
        Self: Len,
        requires { IsSound Self.format (Self.content self.now) }
        ensures none { IsNone result ↔ (Self.format.rows (Self.content self.now) ≡ []) }
        ensures row { IfSome result (λ r. slice_get (Self.format.rows (Self.content self.now)) (length (Self.format.rows (Self.content self.now)) - 1) ≡ Some (Self.Ref.meaning r)) }
        ensures valid { IfSome result Self.Ref.valid }
    {
        let count = self.len();
        if count == 0 {
            None
        } else {
            Some(self.get(count - 1))
        }
    }
}

/// A row that converts to a `T` without an allocation.
pub trait CopyAs<T: Item>: Copy + Item {
    /// Returns the same row as a `T`.
    ///
    /// # Requires
    /// A valid row.
    fn copy_as(self) -> T
        requires { Self.valid self }
        ensures row { T.meaning result ≡ Self.meaning self }
        ensures valid { T.valid result };
}

impl<T: Copy + Item> CopyAs<T> for T {
    fn copy_as(self) -> T {
        self
    }
}

impl<'x, T: Copy + Item> CopyAs<T> for &'x T {
    fn copy_as(self) -> T {
        *self
    }
}

/// A column whose rows are read as values of type `T`.
pub trait IndexAs<T: Item>: Column {
    /// Returns row `index`.
    ///
    /// # Requires
    /// A well-formed column, and `index` below its length.
    fn index_as(&self, index: usize) -> T
        requires sound { IsSound Self.format (Self.content self.now) }
        requires in_range { index < length (Self.format.rows (Self.content self.now)) }
        ensures row { slice_get (Self.format.rows (Self.content self.now)) index ≡ Some (T.meaning result) }
        ensures valid { T.valid result };

    /// Returns the last row, or `None` if there are no rows.
    ///
    /// # Requires
    /// A well-formed column.
    final fn last(&self) -> Option<T>
    where
        Self: Len,
        requires { IsSound Self.format (Self.content self.now) }
        ensures none { IsNone result ↔ (Self.format.rows (Self.content self.now) ≡ []) }
        ensures row { IfSome result (λ r. slice_get (Self.format.rows (Self.content self.now)) (length (Self.format.rows (Self.content self.now)) - 1) ≡ Some (T.meaning r)) }
        ensures valid { IfSome result T.valid }
    {
        let count = self.len();
        if count == 0 {
            None
        } else {
            Some(self.index_as(count - 1))
        }
    }
}

impl<T: Item, C: Index<Ref: CopyAs<T>>> IndexAs<T> for C {
    fn index_as(&self, index: usize) -> T {
        self.get(index).copy_as()
    }
}

impl<'x, T: Item> Item for &'x T {
    ghost meaning = { λ x. T.meaning x.now };

    ghost valid = { λ x. T.valid x.now };

    ghost unbuffered = { T.unbuffered };
}

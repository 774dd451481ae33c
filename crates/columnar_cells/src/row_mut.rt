//! A row borrowed for writing: a column and the row's number.
ghost use Rattle.std.specs.Prelude.{◌≡◌, ◌<◌, ◌↔◌, ℕ, length, slice_get, Some, IsTrue, false};
ghost use Rattle.columnar_base.specs.Format.{IsSound};
ghost use Rattle.columnar_cells.specs.Wrote.{Wrote, row_at};

use crate::items::SetItem;
use crate::set::SetRow;
use columnar_core::traits::{Index, Item, Len};

/// A row borrowed for writing. The column cannot grow or shrink during the loan.
#[derive(Drop)]
pub struct RowMut<'a, C> {
    column: &'a mut C,
    index: usize,
}

impl<'a, C> RowMut<'a, C> {
    /// Borrows row `index` of the column.
    pub fn new(column: &'a mut C, index: usize) -> RowMut<'a, C>
        ensures same_reference { result.column.ghost_name ≡ column.entry.ghost_name }
        ensures column { result.column.now ≡ column.old }
        ensures index { result.index ≡ index }
    {
        RowMut { column, index }
    }
}

impl<'b, C: Index> RowMut<'b, C> {
    /// Reads the row.
    ///
    /// # Requires
    /// The column is well-formed, and has this row.
    pub fn get(&self) -> C::Ref
        requires sound { IsSound C.format (C.content self.now.column.now) }
        requires in_range { self.now.index < length (C.format.rows (C.content self.now.column.now)) }
        ensures row { slice_get (C.format.rows (C.content self.now.column.now)) self.now.index ≡ Some (C.Ref.meaning result) }
        ensures valid { C.Ref.valid result }
    {
        self.column.get(self.index)
    }
}

impl<'b, C: Len> RowMut<'b, C> {
    /// Writes the row as `set_row` does.
    ///
    /// # Requires
    /// As `set_row`.
    pub fn set<T: Item>(&mut self, item: T)
    where
        C: SetRow<T>,
        requires sound { IsSound C.format (C.content self.old.column.now) }
        requires in_range { self.old.index < length (C.format.rows (C.content self.old.column.now)) }
        requires valid { T.valid item }
        requires fits { C.fits (row_at (C.format.rows (C.content self.old.column.now)) self.old.index) item }
        ensures same_reference { self.new.column.ghost_name ≡ self.old.column.ghost_name }
        ensures index { self.new.index ≡ self.old.index }
        ensures wrote { Wrote C.format (C.content self.old.column.now) (C.content self.new.column.now) self.old.index (T.meaning item) }
    {
        let at = self.index;
        self.column.set_row(at, item);
    }

    /// Writes the row as `set_row_checked` does, or returns false.
    ///
    /// # Requires
    /// The column is well-formed, and `item` is valid.
    pub fn set_checked<T: Item + Drop>(&mut self, item: T) -> bool
    where
        C: SetRow<T>,
        requires sound { IsSound C.format (C.content self.old.column.now) }
        requires valid { T.valid item }
        ensures same_reference { self.new.column.ghost_name ≡ self.old.column.ghost_name }
        ensures index { self.new.index ≡ self.old.index }
        ensures exact { IsTrue result ↔ ((self.old.index < length (C.format.rows (C.content self.old.column.now))) × C.fits (row_at (C.format.rows (C.content self.old.column.now)) self.old.index) item) }
        ensures written { IsTrue result → Wrote C.format (C.content self.old.column.now) (C.content self.new.column.now) self.old.index (T.meaning item) }
        ensures kept { result ≡ false → self.new.column.now ≡ self.old.column.now }
    {
        let at = self.index;
        self.column.set_row_checked(at, item)
    }

    /// Writes the item at a position of the row, as `set_item` does.
    ///
    /// # Requires
    /// As `set_item`.
    pub fn set_item<P: Copy, T: Item>(&mut self, at: P, item: T)
    where
        C: SetItem<P, T>,
        requires sound { IsSound C.format (C.content self.old.column.now) }
        requires in_range { self.old.index < length (C.format.rows (C.content self.old.column.now)) }
        requires valid { T.valid item }
        requires fits { C.fits (row_at (C.format.rows (C.content self.old.column.now)) self.old.index) at item }
        ensures same_reference { self.new.column.ghost_name ≡ self.old.column.ghost_name }
        ensures index { self.new.index ≡ self.old.index }
        ensures wrote { Wrote C.format (C.content self.old.column.now) (C.content self.new.column.now) self.old.index (C.put (row_at (C.format.rows (C.content self.old.column.now)) self.old.index) at (T.meaning item)) }
    {
        let index = self.index;
        self.column.set_item(index, at, item);
    }
    /// Writes the item at a position of the row as `set_item_checked` does, or returns false.
    ///
    /// # Requires
    /// The column is well-formed, and `item` is valid.
    pub fn set_item_checked<P: Copy, T: Item + Drop>(&mut self, at: P, item: T) -> bool
    where
        C: SetItem<P, T>,
        requires sound { IsSound C.format (C.content self.old.column.now) }
        requires valid { T.valid item }
        ensures same_reference { self.new.column.ghost_name ≡ self.old.column.ghost_name }
        ensures index { self.new.index ≡ self.old.index }
        ensures exact { IsTrue result ↔ ((self.old.index < length (C.format.rows (C.content self.old.column.now))) × C.fits (row_at (C.format.rows (C.content self.old.column.now)) self.old.index) at item) }
        ensures written { IsTrue result → Wrote C.format (C.content self.old.column.now) (C.content self.new.column.now) self.old.index (C.put (row_at (C.format.rows (C.content self.old.column.now)) self.old.index) at (T.meaning item)) }
        ensures kept { result ≡ false → self.new.column.now ≡ self.old.column.now }
    {
        let index = self.index;
        self.column.set_item_checked(index, at, item)
    }
}

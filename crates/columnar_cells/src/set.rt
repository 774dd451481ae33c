//! In-place writes of rows.
ghost use Rattle.std.specs.Prelude.{◌≡◌, ◌<◌, ◌↔◌, ℕ, length, IsTrue, false};
ghost use Rattle.columnar_base.specs.Row.{Row};
ghost use Rattle.columnar_base.specs.Format.{IsSound};
ghost use Rattle.columnar_cells.specs.Wrote.{Wrote, row_at};

use columnar_core::traits::{Item, Len};

/// A column in which an item can replace a row.
pub trait SetRow<T: Item>: Len {
    // the item may replace the row: if rows have variants, both have the same one, at every depth
    ghost fits: { Row → T → Type 0 };

    /// Tests whether the item may replace row `index`.
    ///
    /// # Requires
    /// The column is well-formed, `index` is less than its length, and `item` is valid.
    fn may_set(&self, index: usize, item: &T) -> bool
        requires sound { IsSound Self.format (Self.content self.now) }
        requires in_range { index < length (Self.format.rows (Self.content self.now)) }
        requires valid { T.valid item.now }
        ensures { IsTrue result ↔ fits (row_at (Self.format.rows (Self.content self.now)) index) item.now };

    /// Writes row `index`. All other rows and all slice lengths stay the same. Allocates nothing.
    ///
    /// # Requires
    /// The column is well-formed, row `index` exists, and `item` is valid and has that row's variant.
    fn set_row(&mut self, index: usize, item: T)
        requires sound { IsSound Self.format (Self.content self.old) }
        requires in_range { index < length (Self.format.rows (Self.content self.old)) }
        requires valid { T.valid item }
        requires fits { fits (row_at (Self.format.rows (Self.content self.old)) index) item }
        ensures { Wrote Self.format (Self.content self.old) (Self.content self.new) index (T.meaning item) };

    /// Writes row `index` and returns true; otherwise returns false and changes nothing. It returns false if and only
    /// if there is no such row, or the item has another variant.
    ///
    /// # Requires
    /// The column is well-formed, and `item` is valid.
    final fn set_row_checked(&mut self, index: usize, item: T) -> bool
    where
        Self: Sized,
        T: Drop,
        requires sound { IsSound Self.format (Self.content self.old) }
        requires valid { T.valid item }
        ensures exact { IsTrue result ↔ ((index < length (Self.format.rows (Self.content self.old))) × fits (row_at (Self.format.rows (Self.content self.old)) index) item) }
        ensures written { IsTrue result → Wrote Self.format (Self.content self.old) (Self.content self.new) index (T.meaning item) }
        ensures kept { result ≡ false → self.new ≡ self.old }
    {
        if index < self.len() && self.may_set(index, &item) {
            self.set_row(index, item);
            true
        } else {
            false
        }
    }
}

/// A column in which every item can replace every row.
pub trait SetAny<T: Item>: SetRow<T> {
    ghost any: { (r : Row) (item : T) → Self.fits r item };
}

//! Writes of one item of a list, or of one field of a tuple.
ghost use Rattle.std.specs.Prelude.{◌≡◌, ◌<◌, ◌+◌, ◌↔◌, ℕ, length, Some, IsTrue, false};
ghost use Rattle.columnar_base.specs.Row.{Row, items_of};
ghost use Rattle.columnar_base.specs.Format.{IsSound};
ghost use Rattle.columnar_cells.specs.Wrote.{Wrote, row_at, item_fits, with_item, option_fits, in_some};

use crate::set::SetRow;
use columnar_core::offsets::Offsets;
use columnar_core::traits::{Index, Item, Len};
use columnar_core::words::Words;
use columnar_lists::parts::range_of;
use columnar_lists::vector::Vecs;
use columnar_sums::option::Options;

/// The position of field N of a tuple, from 0.
#[derive(Clone, Copy)]
pub struct Field<const N: usize>;

/// A column whose rows have items that can be written by position. The position in a list is a number; in a list of
/// lists it is the number of the inner list and a position in that list.
pub trait SetItem<P, T: Item>: Len {
    // the row has an item at the position, and the new one may replace it
    ghost fits: { Row → P → T → Type 0 };

    // the row with another row at the position
    ghost put: { Row → P → Row → Row };

    /// Tests whether row `index` has an item at the position that `item` may replace.
    ///
    /// # Requires
    /// The column is well-formed, `index` is less than its length, and `item` is valid.
    fn may_set_item(&self, index: usize, at: P, item: &T) -> bool
        requires sound { IsSound Self.format (Self.content self.now) }
        requires in_range { index < length (Self.format.rows (Self.content self.now)) }
        requires valid { T.valid item.now }
        ensures { IsTrue result ↔ fits (row_at (Self.format.rows (Self.content self.now)) index) at item.now };

    /// Writes the item of row `index` at the position. All other items, rows and slice lengths stay the same. Allocates
    /// nothing.
    ///
    /// # Requires
    /// The column is well-formed, row `index` exists and has an item there that `item` may replace, and `item` is
    /// valid.
    fn set_item(&mut self, index: usize, at: P, item: T)
        requires sound { IsSound Self.format (Self.content self.old) }
        requires in_range { index < length (Self.format.rows (Self.content self.old)) }
        requires valid { T.valid item }
        requires fits { fits (row_at (Self.format.rows (Self.content self.old)) index) at item }
        ensures { Wrote Self.format (Self.content self.old) (Self.content self.new) index (put (row_at (Self.format.rows (Self.content self.old)) index) at (T.meaning item)) };

    /// Writes the item of row `index` at the position and returns true; otherwise returns false and changes nothing. It
    /// returns false if and only if there is no such row, the row has no such item, or the item has another variant.
    ///
    /// # Requires
    /// The column is well-formed, and `item` is valid.
    final fn set_item_checked(&mut self, index: usize, at: P, item: T) -> bool
    where
        Self: Sized,
        P: Copy,
        T: Drop,
        requires sound { IsSound Self.format (Self.content self.old) }
        requires valid { T.valid item }
        ensures exact { IsTrue result ↔ ((index < length (Self.format.rows (Self.content self.old))) × fits (row_at (Self.format.rows (Self.content self.old)) index) at item) }
        ensures written { IsTrue result → Wrote Self.format (Self.content self.old) (Self.content self.new) index (put (row_at (Self.format.rows (Self.content self.old)) index) at (T.meaning item)) }
        ensures kept { result ≡ false → self.new ≡ self.old }
    {
        if index < self.len() && self.may_set_item(index, at, &item) {
            self.set_item(index, at, item);
            true
        } else {
            false
        }
    }
}

// Returns the number of the value of item `at` of a list that starts at `lower` and ends at `upper`.
fn place_in(lower: usize, upper: usize, at: usize) -> usize
    requires { lower + at < upper }
    ensures { result ≡ lower + at }
{
    lower + at
}

/// Writes item `at` of a list.
impl<T: Item, TC: SetRow<T>, BC: Offsets> SetItem<usize, T> for Vecs<TC, BC> {
    ghost fits = { λ r at item. item_fits TC.fits r at item };

    ghost put = { with_item };

    fn may_set_item(&self, index: usize, at: usize, item: &T) -> bool {
        let (lower, upper) = range_of(&self.bounds, index);
        if at < upper - lower {
            self.values.may_set(place_in(lower, upper, at), item)
        } else {
            false
        }
    }

    fn set_item(&mut self, index: usize, at: usize, item: T) {
        let (lower, upper) = range_of(&self.bounds, index);
        let place = place_in(lower, upper, at);
        self.values.set_row(place, item);
    }
}

/// Writes an item of a list of lists: the position is the number of the inner list and a position in that list.
impl<P: Copy, T: Item, TC: SetItem<P, T>, BC: Offsets> SetItem<(usize, P), T> for Vecs<TC, BC> {
    ghost fits = { λ r at item. item_fits (λ s t. TC.fits s at.1 t) r at.0 item };

    ghost put = { λ r at s. with_item r at.0 (TC.put (row_at (items_of r) at.0) at.1 s) };

    fn may_set_item(&self, index: usize, at: (usize, P), item: &T) -> bool {
        let (lower, upper) = range_of(&self.bounds, index);
        if at.0 < upper - lower {
            self.values
                .may_set_item(place_in(lower, upper, at.0), at.1, item)
        } else {
            false
        }
    }

    fn set_item(&mut self, index: usize, at: (usize, P), item: T) {
        let (lower, upper) = range_of(&self.bounds, index);
        let place = place_in(lower, upper, at.0);
        self.values.set_item(place, at.1, item);
    }
}

/// Writes an item of the value of a row that has one.
impl<P: Copy, T: Item, TC: SetItem<P, T>, CC: Words, VC: Words, WC: Words> SetItem<P, T>
    for Options<TC, CC, VC, WC> {
    ghost fits = { λ r at item. option_fits (λ s t. TC.fits s at t) r (Some item) };

    ghost put = { λ r at s. in_some (λ v. TC.put v at s) r };

    fn may_set_item(&self, index: usize, at: P, item: &T) -> bool {
        if self.indexes.get(index) {
            self.somes.may_set_item(self.indexes.rank(index), at, item)
        } else {
            false
        }
    }

    fn set_item(&mut self, index: usize, at: P, item: T) {
        let rank = self.indexes.rank(index);
        self.somes.set_item(rank, at, item);
    }
}

//! The test for equal rows of your own type: that of the parts.
ghost use Rattle.std.specs.Prelude.{◌≡◌, ◌<◌, length, slice_get, Some};
ghost use Rattle.columnar_base.specs.Row.{Row};
ghost use Rattle.columnar_base.specs.Format.{IsSound};

use crate::rows::{OwnRow, OwnRows};
use columnar_base::traits::{Column, Item};
use columnar_lookback::same::SameAs;

/// An item that can be compared with the rows of a column of values of type `K`, stored in parts of type `P`.
pub trait SameParts<P: Column, K>: Item {
    /// Returns whether row `at` of the parts is the same as this item, by the relation of the parts' format.
    ///
    /// # Requires
    /// Well-formed parts, a row `at`, and a valid item.
    fn same_parts(&self, parts: &P, at: usize) -> bool
        requires sound { IsSound P.format (P.content parts.now) }
        requires in_range { at < length (P.format.rows (P.content parts.now)) }
        requires valid { Self.valid self.now }
        ensures { (r : Row) → slice_get (P.format.rows (P.content parts.now)) at ≡ Some r → result ≡ P.format.kin r (Self.meaning self.now) };
}

impl<'x, T: SameParts<P, K>, P: Column, K> SameParts<P, K> for &'x T {
    fn same_parts(&self, parts: &P, at: usize) -> bool {
        (**self).same_parts(parts, at)
    }
}

impl<R: Item, P: SameAs<R>, K> SameParts<P, K> for OwnRow<R, K> {
    fn same_parts(&self, parts: &P, at: usize) -> bool {
        parts.same(at, &self.parts)
    }
}

impl<T: SameParts<P, K>, P: Column, K> SameAs<T> for OwnRows<P, K> {
    fn same(&self, at: usize, item: &T) -> bool {
        item.same_parts(&self.parts, at)
    }
}

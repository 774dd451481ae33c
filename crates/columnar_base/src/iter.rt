//! An iterator over the rows of a column.
ghost use Rattle.std.specs.Prelude.{◌≡◌, length, drop, Some, IfSome};
ghost use Rattle.columnar_base.specs.Format.{IsSound};

use crate::traits::{Column, Index, Item, Len};

/// Iterates over the rows of a column in order, from an index on.
#[derive(Drop)]
pub struct IterOwn<S: Column> {
    index: usize,
    slice: S,
    ghost sound: { IsSound S.format (S.content slice) },
}

impl<S: Column> IterOwn<S> {
    ghost use Rattle.columnar_base.specs.RowsLeft.{rows_left};

    /// Iterates over the rows of `slice` from row `index` on; over none if there are at most `index` rows.
    ///
    /// # Requires
    /// A well-formed column.
    pub fn new(index: usize, slice: S) -> Self
        requires { IsSound S.format (S.content slice) }
        ensures { rows_left result ≡ drop index (S.format.rows (S.content slice)) }
    {
        IterOwn { index, slice }
    }
}

impl<S: Index + Len + Drop> Iterator for IterOwn<S> {
    ghost use Rattle.columnar_base.specs.RowsLeft.{rows_left, GivesRow};
    ghost use Rattle.std.specs.Iterator.{item_count, UpTo};
    ghost use Rattle.std.specs.Iterator.SizeHint.{IsWithinCount};

    type Item = S::Ref;

    ghost next_gives = { GivesRow rows_left S.Ref.meaning S.Ref.valid };

    ghost remaining = { item_count rows_left };

    /// Returns the next row, or `None` after the last one, at every further call.
    fn next(&mut self) -> Option<S::Ref> {
        if self.index >= self.slice.len() {
            return None;
        }
        let row = self.slice.get(self.index);
        self.index += 1;
        Some(row)
    }

    /// Returns the number of remaining rows as both bounds.
    fn size_hint(&self) -> (usize, Option<usize>)
        ensures lower { IsWithinCount result.0 (item_count rows_left self.now) }
        ensures upper { IfSome result.1 (UpTo (item_count rows_left self.now)) }
        ensures left { result ≡ (length (rows_left self.now), Some (length (rows_left self.now))) }
    {
        let left = ExactSizeIterator::len(self);
        (left, Some(left))
    }
}

impl<S: Index + Len + Drop> ExactSizeIterator for IterOwn<S> {
    /// Returns the number of remaining rows.
    fn len(&self) -> usize {
        self.slice.len().saturating_sub(self.index)
    }
}

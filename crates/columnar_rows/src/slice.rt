//! A range of the rows of a column.
ghost use Rattle.std.specs.Prelude.{ℕ, ◌≡◌, ◌≤◌, ◌-◌, ⊤, Some, refl, max, min, length, map, take, drop};
ghost use Rattle.std.specs.Cmp.{on_total, on_po};
ghost use Rattle.std.specs.Hash as fed;
ghost use Rattle.std.specs.Range.Bound.{start_index, end_index};
ghost use Rattle.columnar_base.specs.Row.{list, items_of};
ghost use Rattle.columnar_rows.specs.RowOrder.{rows_cmp};
ghost use Rattle.columnar_rows.specs.RowOrderLaws.{rows_cmp_total, rows_order, rows_ties, same_rows_equivalence, same_rows_feed};
ghost use Rattle.columnar_base.specs.SameRows.{same_rows};
ghost use Rattle.columnar_base.specs.SameRowsLaws.{same_rows_law};
ghost use Rattle.columnar_base.specs.Format.{part, part_format, part_rows, IsSound};

use crate::ordered::{OrderedRow, compare_rows_of, hash_rows_of, same_rows_as, same_rows_of};
use columnar_base::element::Element;
use columnar_base::iter::IterOwn;
use columnar_base::traits::{Column, Index, Item, Len};
use std::alloc::AllocError;
use std::cmp::Ordering;
use std::fmt::{self, Debug, Formatter, Write};
use std::hash::{Hash, Hasher};
use std::ops::{Bound, RangeBounds};

/// The rows `lower..upper` of a well-formed column that has these rows.
pub struct Slice<S: Column> {
    /// The index of the first row.
    pub lower: usize,
    /// The index after the last row.
    pub upper: usize,
    /// The column.
    pub slice: S,
    pub ghost sound: { IsSound (part_format S.format) (part lower upper (S.content slice)) },
}

impl<S: Column + Copy> Copy for Slice<S> {}

impl<S: Column + Copy> Clone for Slice<S> {
    ghost is_clone = { λ x y. y ≡ x };

    ghost is_infallible = { λ _. ⊤ };

    fn clone(&self) -> Result<Slice<S>, AllocError> {
        Ok(*self)
    }
}

impl<S: Column> Slice<S> {
    ghost use Rattle.columnar_base.specs.RowsLeft.{rows_left};

    /// Returns the range `lower..upper` of the rows of `slice`.
    ///
    /// # Requires
    /// A well-formed column, and `lower <= upper <= slice.len()`.
    pub fn new(lower: usize, upper: usize, slice: S) -> Self
        requires { IsSound (part_format S.format) (part lower upper (S.content slice)) }
        ensures lower { result.lower ≡ lower }
        ensures upper { result.upper ≡ upper }
        ensures slice { result.slice ≡ slice }
    {
        Slice {
            lower,
            upper,
            slice,
        }
    }

    /// Returns the range of all rows of `slice`.
    ///
    /// # Requires
    /// A well-formed column.
    pub fn whole(slice: S) -> Self
    where
        S: Len,
        requires { IsSound S.format (S.content slice) }
        ensures lower { result.lower ≡ 0 }
        ensures upper { result.upper ≡ length (S.format.rows (S.content slice)) }
        ensures slice { result.slice ≡ slice }
    {
        Slice::new(0, slice.len(), slice)
    }

    /// Narrows the range to the rows whose index in the column lies in `range`.
    ///
    /// # Requires
    /// A range that can be read, and whose start, at least `lower`, is at most its end, at most `upper`.
    pub fn slice<R: RangeBounds<usize>>(self, range: R) -> Self
        requires bounds { R.has_bounds range }
        requires ordered { max self.lower (start_index (R.start_bound range)) ≤ min self.upper (end_index (R.end_bound range) self.upper) }
        ensures lower { result.lower ≡ max self.lower (start_index (R.start_bound range)) }
        ensures upper { result.upper ≡ min self.upper (end_index (R.end_bound range) self.upper) }
        ensures slice { result.slice ≡ self.slice }
    {
        let start = match range.start_bound() {
            Bound::Included(&row) => row,
            Bound::Excluded(&row) => row + 1,
            Bound::Unbounded => 0,
        };
        let end = match range.end_bound() {
            Bound::Included(&row) => row.saturating_add(1),
            Bound::Excluded(&row) => row,
            Bound::Unbounded => self.upper,
        };
        let Slice {
            lower,
            upper,
            slice,
        } = self;
        Slice::new(lower.max(start), upper.min(end), slice)
    }

    /// Iterates over the rows in order.
    pub fn into_iter(self) -> IterOwn<Slice<S>>
        ensures { rows_left result ≡ part_rows S.format (part self.lower self.upper (S.content self.slice)) }
    {
        IterOwn::new(0, self)
    }
}

impl<'a, T: Element> Slice<&'a [T]> {
    /// Returns the elements as one slice.
    pub fn as_slice(&self) -> &'a [T]
        ensures { result.now ≡ take (self.now.upper - self.now.lower) (drop self.now.lower self.now.slice.now) }
    {
        &self.slice[self.lower..self.upper]
    }
}

impl<S: Column> Column for Slice<S> {
    ghost format = { part_format S.format };

    ghost content = { λ s. part s.lower s.upper (S.content s.slice) };

    ghost room = { λ c rs. ⊥ };
}

/// Its row is the list of its rows.
impl<S: Column> Item for Slice<S> {
    ghost meaning = { λ s. list (part_rows S.format (part s.lower s.upper (S.content s.slice))) };

    ghost valid = { λ s. IsSound (part_format S.format) (part s.lower s.upper (S.content s.slice)) };
}

impl<S: Column> Len for Slice<S> {
    fn len(&self) -> usize {
        self.upper - self.lower
    }
}

impl<S: Index> Index for Slice<S> {
    type Ref = S::Ref;

    fn get(&self, index: usize) -> S::Ref {
        self.slice.get(self.lower + index)
    }
}

impl<'a, S: Index> Index for &'a Slice<S> {
    type Ref = S::Ref;

    fn get(&self, index: usize) -> S::Ref {
        (**self).get(index)
    }
}

impl<S: Index<Ref: OrderedRow>> Slice<S> {
    /// Returns whether the rows equal the items, in order.
    pub fn eq_slice(&self, items: &[S::Ref]) -> bool
        ensures { result ≡ same_rows (part_rows S.format (part self.now.lower self.now.upper (S.content self.now.slice))) (map S.Ref.meaning items.now) }
    {
        same_rows_as(self, items)
    }
}

/// Compares the rows in order, wherever they are stored.
impl<S: Index<Ref: OrderedRow>> PartialEq for Slice<S> {
    ghost eq = { λ s t. same_rows (part_rows S.format (part s.lower s.upper (S.content s.slice))) (part_rows S.format (part t.lower t.upper (S.content t.slice))) };

    ghost laws = { same_rows_law (λ s. part_rows S.format (part s.lower s.upper (S.content s.slice))) };

    fn eq(&self, other: &Self) -> bool {
        same_rows_of(self, other)
    }
}

impl<S: Index<Ref: OrderedRow>> Eq for Slice<S> {
    ghost laws = { same_rows_equivalence (λ s. part_rows S.format (part s.lower s.upper (S.content s.slice))) };
}

/// The first unequal pair of rows decides, otherwise the lengths.
impl<S: Index<Ref: OrderedRow>> PartialOrd for Slice<S> {
    ghost partial_cmp = { λ s t. Some (rows_cmp (part_rows S.format (part s.lower s.upper (S.content s.slice))) (part_rows S.format (part t.lower t.upper (S.content t.slice)))) };

    ghost laws = { on_po (λ s. part_rows S.format (part s.lower s.upper (S.content s.slice))) rows_order };

    fn partial_cmp(&self, other: &Self) -> Option<Ordering> {
        Some(self.cmp(other))
    }
}

/// The first unequal pair of rows decides, otherwise the lengths.
impl<S: Index<Ref: OrderedRow>> Ord for Slice<S> {
    ghost cmp = { λ s t. rows_cmp (part_rows S.format (part s.lower s.upper (S.content s.slice))) (part_rows S.format (part t.lower t.upper (S.content t.slice))) };

    ghost total = { on_total (λ s. part_rows S.format (part s.lower s.upper (S.content s.slice))) rows_cmp_total };

    ghost matches_partial_cmp = { λ s t. refl };

    ghost matches_eq = { λ s t. rows_ties (part_rows S.format (part s.lower s.upper (S.content s.slice))) (part_rows S.format (part t.lower t.upper (S.content t.slice))) };

    fn cmp(&self, other: &Self) -> Ordering {
        compare_rows_of(self, other)
    }
}

/// Feeds the number of rows, then each row.
impl<S: Index<Ref: OrderedRow>> Hash for Slice<S> {
    ghost hash_input = { λ s. fed.slice S.Ref.row_input (part_rows S.format (part s.lower s.upper (S.content s.slice))) };

    ghost respects_eq = { λ s t h. same_rows_feed (fed.slice S.Ref.row_input) (part_rows S.format (part s.lower s.upper (S.content s.slice))) (part_rows S.format (part t.lower t.upper (S.content t.slice))) h };

    fn hash<H: Hasher>(&self, state: &mut H) {
        hash_rows_of(self, state);
    }
}

/// Prints the rows in brackets.
impl<S: Index<Ref: Debug>> Debug for Slice<S> {
    fn fmt<W: Write>(&self, f: &mut Formatter<W>) -> fmt::Result {
        let mut rows = f.debug_list();
        for i in 0..self.len() {
            rows.entry(&self.get(i));
        }
        rows.finish()
    }
}

/// Compares lists by their rows.
impl<S: Index<Ref: OrderedRow>> OrderedRow for Slice<S> {
    ghost row_input = { λ r. fed.slice S.Ref.row_input (items_of r) };

    fn same_row(&self, other: &Self) -> bool {
        *self == *other
    }

    fn compare_row(&self, other: &Self) -> Ordering {
        Ord::cmp(self, other)
    }

    fn hash_row<H: Hasher>(&self, state: &mut H) {
        self.hash(state);
    }
}

//! Mutable access to rows: each column gives its row as a `&mut` or as a `RowMut`.
ghost use Rattle.std.specs.Prelude.{◌≡◌, ◌<◌, ◌-◌, ◌↔◌, ℕ, [], length, slice_get, Some, IfSome, IsNone};
ghost use Rattle.std.specs.Borrow.{sem, MutBor, Lends, LendsIf};
ghost use Rattle.columnar_base.specs.Format.{IsSound};
ghost use Rattle.columnar_cells.specs.Wrote.{Wrote};

use crate::lent::ValueMut;
use crate::row_mut::RowMut;
use columnar_core::traits::Len;
use columnar_core::words::Words;
use columnar_lists::vector::Vecs;
use columnar_sums::option::Options;
use columnar_sums::result::Results;

/// A column whose rows can be borrowed for writing.
pub trait IndexMut<'a>: Len {
    /// The borrowed row: a `&mut`, or a `RowMut`.
    type IndexMut;

    // the loan is that of row `index` of the column
    ghost lent: { MutBor Self → ℕ → Self.IndexMut → Type 0 };

    /// Borrows row `index` for writing.
    ///
    /// # Requires
    /// The column is well-formed, and `index` is less than its length.
    fn get_mut(&'a mut self, index: usize) -> Self::IndexMut
        requires sound { IsSound Self.format (Self.content self.old) }
        requires in_range { index < length (Self.format.rows (Self.content self.old)) }
        ensures lent { lent self.entry index result };

    /// Borrows the last row for writing; `None` if there are no rows.
    ///
    /// # Requires
    /// The column is well-formed.
    fn last_mut(&'a mut self) -> Option<Self::IndexMut>
        requires sound { IsSound Self.format (Self.content self.old) }
        ensures none { IsNone result ↔ (Self.format.rows (Self.content self.old) ≡ []) }
        ensures lent { IfSome result (lent self.entry (length (Self.format.rows (Self.content self.old)) - 1)) };
}

/// A column that stores each row as one value gives a `&mut` to that value.
impl<'a, C: ValueMut> IndexMut<'a> for C
where
    C::Value: 'a,
{
    type IndexMut = &'a mut C::Value;

    ghost lent = { λ s i r. C.holds s.now i r.now };

    fn get_mut(&'a mut self, index: usize) -> &'a mut C::Value
        requires sound { IsSound C.format (C.content self.old) }
        requires in_range { index < length (C.format.rows (C.content self.old)) }
        ensures* writes_back { sem 𝓛 (Lends C.row C.Value.row self.entry result (C.with self.old index)) }
        ensures lent { C.holds self.old index result.now }
        ensures shows { slice_get (C.format.rows (C.content self.old)) index ≡ Some (C.shown result.now) }
        ensures leaves { (w : C.Value) → Wrote C.format (C.content self.old) (C.content (C.with self.old index w)) index (C.shown w) }
    {
        self.value_mut(index)
    }

    fn last_mut(&'a mut self) -> Option<&'a mut C::Value>
        requires sound { IsSound C.format (C.content self.old) }
        ensures* writes_back { sem 𝓛 (LendsIf C.row C.Value.row self.entry result (C.with self.old (length (C.format.rows (C.content self.old)) - 1)) self.old) }
        ensures none { IsNone result ↔ (C.format.rows (C.content self.old) ≡ []) }
        ensures lent { IfSome result (λ r. C.holds self.old (length (C.format.rows (C.content self.old)) - 1) r.now) }
        ensures shows { IfSome result (λ r. slice_get (C.format.rows (C.content self.old)) (length (C.format.rows (C.content self.old)) - 1) ≡ Some (C.shown r.now)) }
        ensures leaves { IfSome result (λ r. (w : C.Value) → Wrote C.format (C.content self.old) (C.content (C.with self.old (length (C.format.rows (C.content self.old)) - 1) w)) (length (C.format.rows (C.content self.old)) - 1) (C.shown w)) }
    {
        let count = self.len();
        if count == 0 {
            None
        } else {
            Some(self.value_mut(count - 1))
        }
    }
}

impl<'a, TC: Len, CC: Words, VC: Words, WC: Words> IndexMut<'a> for Options<TC, CC, VC, WC>
where
    TC: 'a,
    CC: 'a,
    VC: 'a,
    WC: 'a,
{
    type IndexMut = RowMut<'a, Options<TC, CC, VC, WC>>;

    ghost lent = { λ s i r. (r.column.ghost_name ≡ s.ghost_name) × ((r.column.now ≡ s.now) × (r.index ≡ i)) };

    fn get_mut(&'a mut self, index: usize) -> RowMut<'a, Options<TC, CC, VC, WC>> {
        RowMut::new(self, index)
    }

    fn last_mut(&'a mut self) -> Option<RowMut<'a, Options<TC, CC, VC, WC>>> {
        let count = self.len();
        if count == 0 {
            None
        } else {
            Some(RowMut::new(self, count - 1))
        }
    }
}

impl<'a, SC: Len, TC: Len, CC: Words, VC: Words, WC: Words> IndexMut<'a>
    for Results<SC, TC, CC, VC, WC>
where
    SC: 'a,
    TC: 'a,
    CC: 'a,
    VC: 'a,
    WC: 'a,
{
    type IndexMut = RowMut<'a, Results<SC, TC, CC, VC, WC>>;

    ghost lent = { λ s i r. (r.column.ghost_name ≡ s.ghost_name) × ((r.column.now ≡ s.now) × (r.index ≡ i)) };

    fn get_mut(&'a mut self, index: usize) -> RowMut<'a, Results<SC, TC, CC, VC, WC>> {
        RowMut::new(self, index)
    }

    fn last_mut(&'a mut self) -> Option<RowMut<'a, Results<SC, TC, CC, VC, WC>>> {
        let count = self.len();
        if count == 0 {
            None
        } else {
            Some(RowMut::new(self, count - 1))
        }
    }
}

impl<'a, TC: Len, BC: Len> IndexMut<'a> for Vecs<TC, BC>
where
    TC: 'a,
    BC: 'a,
{
    type IndexMut = RowMut<'a, Vecs<TC, BC>>;

    ghost lent = { λ s i r. (r.column.ghost_name ≡ s.ghost_name) × ((r.column.now ≡ s.now) × (r.index ≡ i)) };

    fn get_mut(&'a mut self, index: usize) -> RowMut<'a, Vecs<TC, BC>> {
        RowMut::new(self, index)
    }

    fn last_mut(&'a mut self) -> Option<RowMut<'a, Vecs<TC, BC>>> {
        let count = self.len();
        if count == 0 {
            None
        } else {
            Some(RowMut::new(self, count - 1))
        }
    }
}

impl<'a, A: Len> IndexMut<'a> for (A,)
where
    A: 'a,
{
    type IndexMut = RowMut<'a, (A,)>;

    ghost lent = { λ s i r. (r.column.ghost_name ≡ s.ghost_name) × ((r.column.now ≡ s.now) × (r.index ≡ i)) };

    fn get_mut(&'a mut self, index: usize) -> RowMut<'a, (A,)> {
        RowMut::new(self, index)
    }

    fn last_mut(&'a mut self) -> Option<RowMut<'a, (A,)>> {
        let count = self.len();
        if count == 0 {
            None
        } else {
            Some(RowMut::new(self, count - 1))
        }
    }
}

impl<'a, A: Len, B: Len> IndexMut<'a> for (A, B)
where
    A: 'a,
    B: 'a,
{
    type IndexMut = RowMut<'a, (A, B)>;

    ghost lent = { λ s i r. (r.column.ghost_name ≡ s.ghost_name) × ((r.column.now ≡ s.now) × (r.index ≡ i)) };

    fn get_mut(&'a mut self, index: usize) -> RowMut<'a, (A, B)> {
        RowMut::new(self, index)
    }

    fn last_mut(&'a mut self) -> Option<RowMut<'a, (A, B)>> {
        let count = self.len();
        if count == 0 {
            None
        } else {
            Some(RowMut::new(self, count - 1))
        }
    }
}

// Made by .ci/widths.py: change .ci/widths/cells.template, and not this file.
//! In-place writes of tuples of three columns: each part writes its field.
ghost use Rattle.columnar_base.specs.Row.{first_of, second_of, tuple};
ghost use Rattle.std.specs.Prelude.{◌≡◌};

use crate::index_mut::IndexMut;
use crate::items::{Field, SetItem};
use crate::row_mut::RowMut;
use crate::set::{SetAny, SetRow};
use columnar_core::traits::{Item, Len};

/// Each part writes its field of the item.
impl<P: Item, Q: Item, R: Item, A: SetRow<P>, B: SetRow<Q>, C: SetRow<R>> SetRow<(P, Q, R)>
    for (A, B, C) {
    ghost fits = { λ r p. A.fits (first_of r) p.0 × (B.fits (first_of (second_of r)) p.1 × C.fits (second_of (second_of r)) p.2) };

    fn may_set(&self, index: usize, item: &(P, Q, R)) -> bool {
        let first = self.0.may_set(index, &item.0);
        let second = self.1.may_set(index, &item.1);
        let third = self.2.may_set(index, &item.2);
        first & (second & third)
    }

    fn set_row(&mut self, index: usize, item: (P, Q, R)) {
        self.0.set_row(index, item.0);
        self.1.set_row(index, item.1);
        self.2.set_row(index, item.2);
    }
}

impl<P: Item, Q: Item, R: Item, A: SetAny<P>, B: SetAny<Q>, C: SetAny<R>> SetAny<(P, Q, R)>
    for (A, B, C) {
    ghost any = { λ r p. (A.any (first_of r) p.0, (B.any (first_of (second_of r)) p.1, C.any (second_of (second_of r)) p.2)) };
}

/// Gives a row as its column and its number.
impl<'a, A: Len, B: Len, C: Len> IndexMut<'a> for (A, B, C)
where
    A: 'a,
    B: 'a,
    C: 'a,
{
    type IndexMut = RowMut<'a, (A, B, C)>;

    ghost lent = { λ s i r. (r.column.ghost_name ≡ s.ghost_name) × ((r.column.now ≡ s.now) × (r.index ≡ i)) };

    fn get_mut(&'a mut self, index: usize) -> RowMut<'a, (A, B, C)> {
        RowMut::new(self, index)
    }

    fn last_mut(&'a mut self) -> Option<RowMut<'a, (A, B, C)>> {
        let count = self.len();
        if count == 0 {
            None
        } else {
            Some(RowMut::new(self, count - 1))
        }
    }
}

/// Writes one field of the row.
impl<Z: Item, A: SetRow<Z>, B: Len, C: Len> SetItem<Field<0>, Z> for (A, B, C) {
    ghost fits = { λ r at item. A.fits (first_of r) item };

    ghost put = { λ r at s. tuple s (tuple (first_of (second_of r)) (second_of (second_of r))) };

    fn may_set_item(&self, index: usize, _at: Field<0>, item: &Z) -> bool {
        self.0.may_set(index, item)
    }

    fn set_item(&mut self, index: usize, _at: Field<0>, item: Z) {
        self.0.set_row(index, item);
    }
}

/// Writes one field of the row.
impl<Z: Item, A: Len, B: SetRow<Z>, C: Len> SetItem<Field<1>, Z> for (A, B, C) {
    ghost fits = { λ r at item. B.fits (first_of (second_of r)) item };

    ghost put = { λ r at s. tuple (first_of r) (tuple s (second_of (second_of r))) };

    fn may_set_item(&self, index: usize, _at: Field<1>, item: &Z) -> bool {
        self.1.may_set(index, item)
    }

    fn set_item(&mut self, index: usize, _at: Field<1>, item: Z) {
        self.1.set_row(index, item);
    }
}

/// Writes one field of the row.
impl<Z: Item, A: Len, B: Len, C: SetRow<Z>> SetItem<Field<2>, Z> for (A, B, C) {
    ghost fits = { λ r at item. C.fits (second_of (second_of r)) item };

    ghost put = { λ r at s. tuple (first_of r) (tuple (first_of (second_of r)) s) };

    fn may_set_item(&self, index: usize, _at: Field<2>, item: &Z) -> bool {
        self.2.may_set(index, item)
    }

    fn set_item(&mut self, index: usize, _at: Field<2>, item: Z) {
        self.2.set_row(index, item);
    }
}

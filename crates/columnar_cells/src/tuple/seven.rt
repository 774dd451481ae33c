// Made by .ci/widths.py: change .ci/widths/cells.template, and not this file.
//! In-place writes of tuples of seven columns: each part writes its field.
ghost use Rattle.columnar_base.specs.Row.{first_of, second_of, tuple};
ghost use Rattle.std.specs.Prelude.{◌≡◌};

use crate::index_mut::IndexMut;
use crate::items::{Field, SetItem};
use crate::row_mut::RowMut;
use crate::set::{SetAny, SetRow};
use columnar_core::traits::{Item, Len};

/// Each part writes its field of the item.
impl<
    P: Item,
    Q: Item,
    R: Item,
    S: Item,
    T: Item,
    U: Item,
    V: Item,
    A: SetRow<P>,
    B: SetRow<Q>,
    C: SetRow<R>,
    D: SetRow<S>,
    E: SetRow<T>,
    F: SetRow<U>,
    G: SetRow<V>,
> SetRow<(P, Q, R, S, T, U, V)> for (A, B, C, D, E, F, G) {
    ghost fits = { λ r p. A.fits (first_of r) p.0 × (B.fits (first_of (second_of r)) p.1 × (C.fits (first_of (second_of (second_of r))) p.2 × (D.fits (first_of (second_of (second_of (second_of r)))) p.3 × (E.fits (first_of (second_of (second_of (second_of (second_of r))))) p.4 × (F.fits (first_of (second_of (second_of (second_of (second_of (second_of r)))))) p.5 × G.fits (second_of (second_of (second_of (second_of (second_of (second_of r)))))) p.6))))) };

    fn may_set(&self, index: usize, item: &(P, Q, R, S, T, U, V)) -> bool {
        let first = self.0.may_set(index, &item.0);
        let second = self.1.may_set(index, &item.1);
        let third = self.2.may_set(index, &item.2);
        let fourth = self.3.may_set(index, &item.3);
        let fifth = self.4.may_set(index, &item.4);
        let sixth = self.5.may_set(index, &item.5);
        let seventh = self.6.may_set(index, &item.6);
        first & (second & (third & (fourth & (fifth & (sixth & seventh)))))
    }

    fn set_row(&mut self, index: usize, item: (P, Q, R, S, T, U, V)) {
        self.0.set_row(index, item.0);
        self.1.set_row(index, item.1);
        self.2.set_row(index, item.2);
        self.3.set_row(index, item.3);
        self.4.set_row(index, item.4);
        self.5.set_row(index, item.5);
        self.6.set_row(index, item.6);
    }
}

impl<
    P: Item,
    Q: Item,
    R: Item,
    S: Item,
    T: Item,
    U: Item,
    V: Item,
    A: SetAny<P>,
    B: SetAny<Q>,
    C: SetAny<R>,
    D: SetAny<S>,
    E: SetAny<T>,
    F: SetAny<U>,
    G: SetAny<V>,
> SetAny<(P, Q, R, S, T, U, V)> for (A, B, C, D, E, F, G) {
    ghost any = { λ r p. (A.any (first_of r) p.0, (B.any (first_of (second_of r)) p.1, (C.any (first_of (second_of (second_of r))) p.2, (D.any (first_of (second_of (second_of (second_of r)))) p.3, (E.any (first_of (second_of (second_of (second_of (second_of r))))) p.4, (F.any (first_of (second_of (second_of (second_of (second_of (second_of r)))))) p.5, G.any (second_of (second_of (second_of (second_of (second_of (second_of r)))))) p.6)))))) };
}

/// Gives a row as its column and its number.
impl<'a, A: Len, B: Len, C: Len, D: Len, E: Len, F: Len, G: Len> IndexMut<'a>
    for (A, B, C, D, E, F, G)
where
    A: 'a,
    B: 'a,
    C: 'a,
    D: 'a,
    E: 'a,
    F: 'a,
    G: 'a,
{
    type IndexMut = RowMut<'a, (A, B, C, D, E, F, G)>;

    ghost lent = { λ s i r. (r.column.ghost_name ≡ s.ghost_name) × ((r.column.now ≡ s.now) × (r.index ≡ i)) };

    fn get_mut(&'a mut self, index: usize) -> RowMut<'a, (A, B, C, D, E, F, G)> {
        RowMut::new(self, index)
    }

    fn last_mut(&'a mut self) -> Option<RowMut<'a, (A, B, C, D, E, F, G)>> {
        let count = self.len();
        if count == 0 {
            None
        } else {
            Some(RowMut::new(self, count - 1))
        }
    }
}

/// Writes one field of the row.
impl<Z: Item, A: SetRow<Z>, B: Len, C: Len, D: Len, E: Len, F: Len, G: Len> SetItem<Field<0>, Z>
    for (A, B, C, D, E, F, G) {
    ghost fits = { λ r at item. A.fits (first_of r) item };

    ghost put = { λ r at s. tuple s (tuple (first_of (second_of r)) (tuple (first_of (second_of (second_of r))) (tuple (first_of (second_of (second_of (second_of r)))) (tuple (first_of (second_of (second_of (second_of (second_of r))))) (tuple (first_of (second_of (second_of (second_of (second_of (second_of r)))))) (second_of (second_of (second_of (second_of (second_of (second_of r))))))))))) };

    fn may_set_item(&self, index: usize, _at: Field<0>, item: &Z) -> bool {
        self.0.may_set(index, item)
    }

    fn set_item(&mut self, index: usize, _at: Field<0>, item: Z) {
        self.0.set_row(index, item);
    }
}

/// Writes one field of the row.
impl<Z: Item, A: Len, B: SetRow<Z>, C: Len, D: Len, E: Len, F: Len, G: Len> SetItem<Field<1>, Z>
    for (A, B, C, D, E, F, G) {
    ghost fits = { λ r at item. B.fits (first_of (second_of r)) item };

    ghost put = { λ r at s. tuple (first_of r) (tuple s (tuple (first_of (second_of (second_of r))) (tuple (first_of (second_of (second_of (second_of r)))) (tuple (first_of (second_of (second_of (second_of (second_of r))))) (tuple (first_of (second_of (second_of (second_of (second_of (second_of r)))))) (second_of (second_of (second_of (second_of (second_of (second_of r))))))))))) };

    fn may_set_item(&self, index: usize, _at: Field<1>, item: &Z) -> bool {
        self.1.may_set(index, item)
    }

    fn set_item(&mut self, index: usize, _at: Field<1>, item: Z) {
        self.1.set_row(index, item);
    }
}

/// Writes one field of the row.
impl<Z: Item, A: Len, B: Len, C: SetRow<Z>, D: Len, E: Len, F: Len, G: Len> SetItem<Field<2>, Z>
    for (A, B, C, D, E, F, G) {
    ghost fits = { λ r at item. C.fits (first_of (second_of (second_of r))) item };

    ghost put = { λ r at s. tuple (first_of r) (tuple (first_of (second_of r)) (tuple s (tuple (first_of (second_of (second_of (second_of r)))) (tuple (first_of (second_of (second_of (second_of (second_of r))))) (tuple (first_of (second_of (second_of (second_of (second_of (second_of r)))))) (second_of (second_of (second_of (second_of (second_of (second_of r))))))))))) };

    fn may_set_item(&self, index: usize, _at: Field<2>, item: &Z) -> bool {
        self.2.may_set(index, item)
    }

    fn set_item(&mut self, index: usize, _at: Field<2>, item: Z) {
        self.2.set_row(index, item);
    }
}

/// Writes one field of the row.
impl<Z: Item, A: Len, B: Len, C: Len, D: SetRow<Z>, E: Len, F: Len, G: Len> SetItem<Field<3>, Z>
    for (A, B, C, D, E, F, G) {
    ghost fits = { λ r at item. D.fits (first_of (second_of (second_of (second_of r)))) item };

    ghost put = { λ r at s. tuple (first_of r) (tuple (first_of (second_of r)) (tuple (first_of (second_of (second_of r))) (tuple s (tuple (first_of (second_of (second_of (second_of (second_of r))))) (tuple (first_of (second_of (second_of (second_of (second_of (second_of r)))))) (second_of (second_of (second_of (second_of (second_of (second_of r))))))))))) };

    fn may_set_item(&self, index: usize, _at: Field<3>, item: &Z) -> bool {
        self.3.may_set(index, item)
    }

    fn set_item(&mut self, index: usize, _at: Field<3>, item: Z) {
        self.3.set_row(index, item);
    }
}

/// Writes one field of the row.
impl<Z: Item, A: Len, B: Len, C: Len, D: Len, E: SetRow<Z>, F: Len, G: Len> SetItem<Field<4>, Z>
    for (A, B, C, D, E, F, G) {
    ghost fits = { λ r at item. E.fits (first_of (second_of (second_of (second_of (second_of r))))) item };

    ghost put = { λ r at s. tuple (first_of r) (tuple (first_of (second_of r)) (tuple (first_of (second_of (second_of r))) (tuple (first_of (second_of (second_of (second_of r)))) (tuple s (tuple (first_of (second_of (second_of (second_of (second_of (second_of r)))))) (second_of (second_of (second_of (second_of (second_of (second_of r))))))))))) };

    fn may_set_item(&self, index: usize, _at: Field<4>, item: &Z) -> bool {
        self.4.may_set(index, item)
    }

    fn set_item(&mut self, index: usize, _at: Field<4>, item: Z) {
        self.4.set_row(index, item);
    }
}

/// Writes one field of the row.
impl<Z: Item, A: Len, B: Len, C: Len, D: Len, E: Len, F: SetRow<Z>, G: Len> SetItem<Field<5>, Z>
    for (A, B, C, D, E, F, G) {
    ghost fits = { λ r at item. F.fits (first_of (second_of (second_of (second_of (second_of (second_of r)))))) item };

    ghost put = { λ r at s. tuple (first_of r) (tuple (first_of (second_of r)) (tuple (first_of (second_of (second_of r))) (tuple (first_of (second_of (second_of (second_of r)))) (tuple (first_of (second_of (second_of (second_of (second_of r))))) (tuple s (second_of (second_of (second_of (second_of (second_of (second_of r))))))))))) };

    fn may_set_item(&self, index: usize, _at: Field<5>, item: &Z) -> bool {
        self.5.may_set(index, item)
    }

    fn set_item(&mut self, index: usize, _at: Field<5>, item: Z) {
        self.5.set_row(index, item);
    }
}

/// Writes one field of the row.
impl<Z: Item, A: Len, B: Len, C: Len, D: Len, E: Len, F: Len, G: SetRow<Z>> SetItem<Field<6>, Z>
    for (A, B, C, D, E, F, G) {
    ghost fits = { λ r at item. G.fits (second_of (second_of (second_of (second_of (second_of (second_of r)))))) item };

    ghost put = { λ r at s. tuple (first_of r) (tuple (first_of (second_of r)) (tuple (first_of (second_of (second_of r))) (tuple (first_of (second_of (second_of (second_of r)))) (tuple (first_of (second_of (second_of (second_of (second_of r))))) (tuple (first_of (second_of (second_of (second_of (second_of (second_of r)))))) s))))) };

    fn may_set_item(&self, index: usize, _at: Field<6>, item: &Z) -> bool {
        self.6.may_set(index, item)
    }

    fn set_item(&mut self, index: usize, _at: Field<6>, item: Z) {
        self.6.set_row(index, item);
    }
}

//! In-place writes of tuples: each part writes its field.
ghost use Rattle.columnar_base.specs.Row.{first_of, second_of, tuple};
ghost use Rattle.columnar_base.specs.Solos.{only_of};

use crate::items::{Field, SetItem};
use crate::set::{SetAny, SetRow};
use columnar_core::traits::{Item, Len};

pub mod eight;
pub mod five;
pub mod four;
pub mod nine;
pub mod seven;
pub mod six;
pub mod ten;
pub mod three;

/// Each part writes its field of the item.
impl<S: Item, T: Item, A: SetRow<S>, B: SetRow<T>> SetRow<(S, T)> for (A, B) {
    ghost fits = { λ r p. A.fits (first_of r) p.0 × B.fits (second_of r) p.1 };

    fn may_set(&self, index: usize, item: &(S, T)) -> bool {
        let first = self.0.may_set(index, &item.0);
        let second = self.1.may_set(index, &item.1);
        first & second
    }

    fn set_row(&mut self, index: usize, item: (S, T)) {
        self.0.set_row(index, item.0);
        self.1.set_row(index, item.1);
    }
}

impl<S: Item, T: Item, A: SetAny<S>, B: SetAny<T>> SetAny<(S, T)> for (A, B) {
    ghost any = { λ r p. (A.any (first_of r) p.0, B.any (second_of r) p.1) };
}

/// The part writes its field of the item.
impl<S: Item, A: SetRow<S>> SetRow<(S,)> for (A,) {
    ghost fits = { λ r p. A.fits (only_of r) p.0 };

    fn may_set(&self, index: usize, item: &(S,)) -> bool {
        self.0.may_set(index, &item.0)
    }

    fn set_row(&mut self, index: usize, item: (S,)) {
        self.0.set_row(index, item.0);
    }
}

impl<S: Item, A: SetAny<S>> SetAny<(S,)> for (A,) {
    ghost any = { λ r p. A.any (only_of r) p.0 };
}

/// Writes the first field of the row.
impl<T: Item, A: SetRow<T>, B: Len> SetItem<Field<0>, T> for (A, B) {
    ghost fits = { λ r at item. A.fits (first_of r) item };

    ghost put = { λ r at s. tuple s (second_of r) };

    fn may_set_item(&self, index: usize, _at: Field<0>, item: &T) -> bool {
        self.0.may_set(index, item)
    }

    fn set_item(&mut self, index: usize, _at: Field<0>, item: T) {
        self.0.set_row(index, item);
    }
}

/// Writes the second field of the row.
impl<T: Item, A: Len, B: SetRow<T>> SetItem<Field<1>, T> for (A, B) {
    ghost fits = { λ r at item. B.fits (second_of r) item };

    ghost put = { λ r at s. tuple (first_of r) s };

    fn may_set_item(&self, index: usize, _at: Field<1>, item: &T) -> bool {
        self.1.may_set(index, item)
    }

    fn set_item(&mut self, index: usize, _at: Field<1>, item: T) {
        self.1.set_row(index, item);
    }
}

//! Wrapping numbers as elements: each is the number inside.
ghost use Rattle.std.specs.Prelude.{ℕ, ◌≡◌};
ghost use Rattle.columnar_base.specs.NumberLaws.{element_inside};

use super::{Element, Primitive, Wide};
use crate::traits::Item;
use std::num::Wrapping;

impl<T: Item> Item for Wrapping<T> {
    ghost meaning = { λ x. T.meaning x.0 };

    ghost valid = { λ x. T.valid x.0 };

    ghost unbuffered = { T.unbuffered };
}

impl<T: Primitive> Element for Wrapping<T> {
    ghost size = { T.size };

    ghost align = { T.align };

    ghost le_bytes = { λ x. T.le_bytes x.0 };

    ghost row_of = { T.row_of };

    ghost element = { element_inside (λ x. x.0) T.element };

    ghost always_valid = { λ x. T.always_valid x.0 };

    fn size() -> usize {
        T::size()
    }

    fn from_le_bytes(bytes: &[u8]) -> Self {
        Wrapping(T::from_le_bytes(bytes))
    }

    fn same(&self, other: &Self) -> bool {
        self.0.same(&other.0)
    }
}

impl<T: Primitive> Primitive for Wrapping<T> {
    ghost small = { T.small };

    ghost MIN = { record { 0 = T.MIN } };

    const MIN: Self = Wrapping(T::MIN);

    ghost MAX = { record { 0 = T.MAX } };

    const MAX: Self = Wrapping(T::MAX);

    fn byte(&self, index: usize) -> u8 {
        self.0.byte(index)
    }
}

impl<T: Primitive> Wide for Wrapping<T> {}

//! Values of the language as rows.
ghost use Rattle.std.specs.Prelude.{◌/◌, ◌%◌, map, All, string_bytes};
ghost use Rattle.std.specs.Box.{boxed_str_bytes};
ghost use Rattle.std.specs.Duration.{as_nanos};
ghost use Rattle.columnar_base.specs.Row.{character, duration, list, unit};
ghost use Rattle.std.specs.Int.{w64, w128};
ghost use Rattle.columnar_base.specs.Floats.{double_row, single_row};
ghost use Rattle.columnar_base.specs.Numbers.{signed_row, unsigned_row};
ghost use Rattle.columnar_base.specs.Texts.{text_row};

use crate::traits::Item;
use smallvec::SmallVec;
use std::boxed::BoxedStr;
use std::time::Duration;

impl Item for () {
    ghost meaning = { λ x. unit };

    ghost valid = { λ x. Unit {0} };
}

impl Item for usize {
    ghost meaning = { unsigned_row w64 };

    ghost valid = { λ x. Unit {0} };
}

impl Item for isize {
    ghost meaning = { signed_row w64 };

    ghost valid = { λ x. Unit {0} };
}

impl Item for u128 {
    ghost meaning = { unsigned_row w128 };

    ghost valid = { λ x. Unit {0} };
}

impl Item for i128 {
    ghost meaning = { signed_row w128 };

    ghost valid = { λ x. Unit {0} };
}

impl Item for char {
    ghost meaning = { character };

    ghost valid = { λ x. Unit {0} };
}

/// Its row is its place in an order of all floats: -0.0 precedes 0.0, and every NaN has the same, last place.
impl Item for f32 {
    ghost meaning = { single_row };

    ghost valid = { λ x. Unit {0} };
}

/// Its row is its place in an order of all floats: -0.0 precedes 0.0, and every NaN has the same, last place.
impl Item for f64 {
    ghost meaning = { double_row };

    ghost valid = { λ x. Unit {0} };
}

/// Its row is the list of its items' rows.
impl<'x, T: Item> Item for &'x [T] {
    ghost meaning = { λ s. list (map T.meaning s.now) };

    ghost valid = { λ s. All T.valid s.now };

    ghost unbuffered = { T.unbuffered };
}

/// Its row is that of the boxed value.
impl<T: Item> Item for Box<T> {
    ghost meaning = { λ b. T.meaning b.value };

    ghost valid = { λ b. T.valid b.value };

    ghost unbuffered = { T.unbuffered };
}

/// Its row is the list of its items' rows.
impl<T: Item> Item for Vec<T> {
    ghost meaning = { λ v. list (map T.meaning v.items) };

    ghost valid = { λ v. All T.valid v.items };

    ghost unbuffered = { T.unbuffered };
}

/// Its row is the list of its items' rows.
impl<T: Item, const N: usize> Item for SmallVec<T, N> {
    ghost meaning = { λ v. list (map T.meaning v.items) };

    ghost valid = { λ v. All T.valid v.items };

    ghost unbuffered = { T.unbuffered };
}

/// Its row is the list of its bytes.
impl<'x> Item for &'x str {
    ghost meaning = { λ s. text_row s.now };

    ghost valid = { λ s. Unit {0} };
}

/// Its row is the list of its bytes.
impl Item for String {
    ghost meaning = { λ s. text_row (string_bytes s) };

    ghost valid = { λ s. Unit {0} };
}

/// Its row is the list of its bytes.
impl Item for BoxedStr {
    ghost meaning = { λ s. text_row (boxed_str_bytes s) };

    ghost valid = { λ s. Unit {0} };
}

/// Its row is its whole seconds and its remaining nanoseconds.
impl Item for Duration {
    ghost meaning = { λ d. duration (as_nanos d / 1000000000) (as_nanos d % 1000000000) };

    ghost valid = { λ x. Unit {0} };
}

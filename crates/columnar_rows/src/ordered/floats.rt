//! Comparing and hashing floats as rows.
ghost use Rattle.std.specs.Prelude.{ℕ, ◌≡◌};
ghost use Rattle.std.specs.Float.{binary32, binary64};
ghost use Rattle.std.specs.Float.Ieee.{to_bits};
ghost use Rattle.std.specs.Hash as fed;
ghost use Rattle.columnar_base.specs.Floats.{float_place};
ghost use Rattle.columnar_base.specs.Row.{number_of};

use super::OrderedRow;
use std::cmp::Ordering;
use std::hash::{Hash, Hasher};
use std::num::{f32_to_bits_with_nan, f64_to_bits_with_nan};

// Returns the place of `x` in the order of all floats.
fn single_place(x: f32) -> u32
    ensures { result ≡ float_place binary32 (to_bits binary32 x) }
{
    let bits = f32_to_bits_with_nan(x);
    if bits < 1 << 31 {
        bits + (1 << 31)
    } else {
        u32::MAX - bits
    }
}

// Returns the place of `x` in the order of all floats.
fn double_place(x: f64) -> u64
    ensures { result ≡ float_place binary64 (to_bits binary64 x) }
{
    let bits = f64_to_bits_with_nan(x);
    if bits < 1 << 63 {
        bits + (1 << 63)
    } else {
        u64::MAX - bits
    }
}

/// Orders by place: -0.0 before 0.0, and all NaNs last, in one place.
impl OrderedRow for f32 {
    ghost row_input = { λ r. fed.u32 (number_of r) };

    fn same_row(&self, other: &Self) -> bool {
        single_place(*self) == single_place(*other)
    }

    fn compare_row(&self, other: &Self) -> Ordering {
        single_place(*self).cmp(&single_place(*other))
    }

    fn hash_row<H: Hasher>(&self, state: &mut H) {
        single_place(*self).hash(state);
    }
}

/// Orders by place: -0.0 before 0.0, and all NaNs last, in one place.
impl OrderedRow for f64 {
    ghost row_input = { λ r. fed.u64 (number_of r) };

    fn same_row(&self, other: &Self) -> bool {
        double_place(*self) == double_place(*other)
    }

    fn compare_row(&self, other: &Self) -> Ordering {
        double_place(*self).cmp(&double_place(*other))
    }

    fn hash_row<H: Hasher>(&self, state: &mut H) {
        double_place(*self).hash(state);
    }
}

//! Columns of floats.
ghost use Rattle.std.specs.Prelude.{◌≡◌, true};
ghost use Rattle.columnar_primitive.specs.Reals.{as_double, as_single};

use crate::codes::{Coded, Codes};
use crate::rule::Rule;
use std::num::{
    f32_from_bits_with_nan, f32_to_bits_with_nan, f64_from_bits_with_nan, f64_to_bits_with_nan,
};

/// A column of `f32`s, stored as their bits. A value reads back unchanged. A NaN reads back as a NaN; its payload stays
/// in the bytes of the column until it is read and pushed again.
pub type Singles<CV = Vec<u32>> = Codes<CV, f32>;

/// A column of `f64`s, stored as their bits, like `Singles`.
pub type Doubles<CV = Vec<u64>> = Codes<CV, f64>;

impl Rule for f32 {
    type Code = u32;

    ghost is_code = { λ r. true };

    fn fits(_code: u32) -> bool {
        true
    }
}

impl Coded for f32 {
    ghost row_of = { as_single };

    fn code(self) -> u32 {
        f32_to_bits_with_nan(self)
    }

    fn from_code(code: u32) -> f32 {
        f32_from_bits_with_nan(code)
    }

    fn always_fits() -> bool
        ensures { result ≡ true }
    {
        true
    }
}

impl Rule for f64 {
    type Code = u64;

    ghost is_code = { λ r. true };

    fn fits(_code: u64) -> bool {
        true
    }
}

impl Coded for f64 {
    ghost row_of = { as_double };

    fn code(self) -> u64 {
        f64_to_bits_with_nan(self)
    }

    fn from_code(code: u64) -> f64 {
        f64_from_bits_with_nan(code)
    }

    fn always_fits() -> bool
        ensures { result ≡ true }
    {
        true
    }
}

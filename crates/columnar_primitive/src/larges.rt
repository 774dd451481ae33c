//! Columns of numbers of 128 bits.
ghost use Rattle.std.specs.Prelude.{◌≡◌, true};
ghost use Rattle.columnar_primitive.specs.Larges.{as_i128, as_u128};

use crate::codes::{Coded, Codes};
use crate::rule::Rule;

/// A column of `u128`s, stored as sixteen bytes each, lowest first.
pub type U128s<CV = Vec<[u8; 16]>> = Codes<CV, u128>;

/// A column of `i128`s, stored as sixteen bytes each in two's complement, lowest first.
pub type I128s<CV = Vec<[u8; 16]>> = Codes<CV, i128>;

impl Rule for u128 {
    type Code = [u8; 16];

    ghost is_code = { λ r. true };

    fn fits(_code: [u8; 16]) -> bool {
        true
    }
}

impl Coded for u128 {
    ghost row_of = { as_u128 };

    fn code(self) -> [u8; 16] {
        u128::to_le_bytes(self)
    }

    fn from_code(code: [u8; 16]) -> u128 {
        u128::from_le_bytes(code)
    }

    fn always_fits() -> bool
        ensures { result ≡ true }
    {
        true
    }
}

impl Rule for i128 {
    type Code = [u8; 16];

    ghost is_code = { λ r. true };

    fn fits(_code: [u8; 16]) -> bool {
        true
    }
}

impl Coded for i128 {
    ghost row_of = { as_i128 };

    fn code(self) -> [u8; 16] {
        i128::to_le_bytes(self)
    }

    fn from_code(code: [u8; 16]) -> i128 {
        i128::from_le_bytes(code)
    }

    fn always_fits() -> bool
        ensures { result ≡ true }
    {
        true
    }
}

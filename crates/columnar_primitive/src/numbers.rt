//! Columns of numbers by other names.
ghost use Rattle.std.specs.Prelude.{◌≡◌, true, IsTrue};
ghost use Rattle.columnar_base.specs.Row.{Row};

use crate::codes::{Coded, Codes};
use crate::rule::Rule;

/// A column of `usize`s, stored as 64-bit numbers.
pub type Usizes<CV = Vec<u64>> = Codes<CV, usize>;

impl Rule for usize {
    type Code = u64;

    ghost is_code = { λ r. true };

    fn fits(_code: u64) -> bool {
        true
    }
}

impl Coded for usize {
    ghost row_of = { λ r. r };

    fn code(self) -> u64 {
        self as u64
    }

    fn from_code(code: u64) -> usize {
        code as usize
    }

    fn always_fits() -> bool
        ensures { result ≡ true }
    {
        true
    }
}

/// A column of `isize`s, stored as 64-bit numbers in two's complement.
pub type Isizes<CV = Vec<i64>> = Codes<CV, isize>;

impl Rule for isize {
    type Code = i64;

    ghost is_code = { λ r. true };

    fn fits(_code: i64) -> bool {
        true
    }
}

impl Coded for isize {
    ghost row_of = { λ r. r };

    fn code(self) -> i64 {
        self as i64
    }

    fn from_code(code: i64) -> isize {
        code as isize
    }

    fn always_fits() -> bool
        ensures { result ≡ true }
    {
        true
    }
}

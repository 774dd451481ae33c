//! Columns of characters.
ghost use Rattle.std.specs.Prelude.{◌≡◌, true};
ghost use Rattle.columnar_primitive.specs.Characters.{as_character, is_character};

use crate::codes::{Coded, Codes};
use crate::rule::Rule;

/// A column of characters, stored as 32-bit codes.
pub type Chars<CV = Vec<u32>> = Codes<CV, char>;

impl Rule for char {
    type Code = u32;

    ghost is_code = { is_character };

    fn fits(code: u32) -> bool {
        code <= 0x10FFFF && !(0xD800 <= code && code <= 0xDFFF)
    }
}

impl Coded for char {
    ghost row_of = { as_character };

    fn code(self) -> u32 {
        self as u32
    }

    fn from_code(code: u32) -> char {
        match char::from_u32(code) {
            Some(character) => character,
            None => unreachable!(),
        }
    }

    fn always_fits() -> bool {
        false
    }
}

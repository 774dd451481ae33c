//! Signed numbers as elements, in two's complement.
ghost use Rattle.std.specs.Prelude.{ℕ, ◌≡◌, ◌-◌, ◌^◌, pos, negsuc, refl};
ghost use Rattle.std.specs.Int.{w8, w16, w32, w64};
ghost use Rattle.columnar_base.specs.Numbers.{signed_bytes, signed_row, signed_row_of};
ghost use Rattle.columnar_base.specs.NumberLaws.{signed_element, at_most_8};

use super::{Element, Primitive, Wide};
use crate::traits::Item;

impl Item for i8 {
    ghost meaning = { signed_row w8 };

    ghost valid = { λ x. Unit {0} };
}

impl Element for i8 {
    ghost size = { 1 };

    ghost align = { 1 };

    ghost le_bytes = { signed_bytes w8 };

    ghost row_of = { signed_row_of w8 };

    ghost element = { signed_element w8 };

    ghost always_valid = { λ x. tt };

    fn size() -> usize {
        1
    }

    fn from_le_bytes(bytes: &[u8]) -> Self {
        i8::from_le_bytes([bytes[0]])
    }

    fn same(&self, other: &Self) -> bool {
        *self == *other
    }
}

impl Primitive for i8 {
    ghost small = { at_most_8 1 refl };

    ghost MIN = { negsuc (2 ^ 7 - 1) };

    const MIN: Self = i8::MIN;

    ghost MAX = { pos (2 ^ 7 - 1) };

    const MAX: Self = i8::MAX;

    fn byte(&self, index: usize) -> u8 {
        self.to_le_bytes()[index]
    }
}

impl Wide for i8 {}

impl Item for i16 {
    ghost meaning = { signed_row w16 };

    ghost valid = { λ x. Unit {0} };
}

impl Element for i16 {
    ghost size = { 2 };

    ghost align = { 2 };

    ghost le_bytes = { signed_bytes w16 };

    ghost row_of = { signed_row_of w16 };

    ghost element = { signed_element w16 };

    ghost always_valid = { λ x. tt };

    fn size() -> usize {
        2
    }

    fn from_le_bytes(bytes: &[u8]) -> Self {
        i16::from_le_bytes([bytes[0], bytes[1]])
    }

    fn same(&self, other: &Self) -> bool {
        *self == *other
    }
}

impl Primitive for i16 {
    ghost small = { at_most_8 2 refl };

    ghost MIN = { negsuc (2 ^ 15 - 1) };

    const MIN: Self = i16::MIN;

    ghost MAX = { pos (2 ^ 15 - 1) };

    const MAX: Self = i16::MAX;

    fn byte(&self, index: usize) -> u8 {
        self.to_le_bytes()[index]
    }
}

impl Wide for i16 {}

impl Item for i32 {
    ghost meaning = { signed_row w32 };

    ghost valid = { λ x. Unit {0} };
}

impl Element for i32 {
    ghost size = { 4 };

    ghost align = { 4 };

    ghost le_bytes = { signed_bytes w32 };

    ghost row_of = { signed_row_of w32 };

    ghost element = { signed_element w32 };

    ghost always_valid = { λ x. tt };

    fn size() -> usize {
        4
    }

    fn from_le_bytes(bytes: &[u8]) -> Self {
        i32::from_le_bytes([bytes[0], bytes[1], bytes[2], bytes[3]])
    }

    fn same(&self, other: &Self) -> bool {
        *self == *other
    }
}

impl Primitive for i32 {
    ghost small = { at_most_8 4 refl };

    ghost MIN = { negsuc (2 ^ 31 - 1) };

    const MIN: Self = i32::MIN;

    ghost MAX = { pos (2 ^ 31 - 1) };

    const MAX: Self = i32::MAX;

    fn byte(&self, index: usize) -> u8 {
        self.to_le_bytes()[index]
    }
}

impl Wide for i32 {}

impl Item for i64 {
    ghost meaning = { signed_row w64 };

    ghost valid = { λ x. Unit {0} };
}

impl Element for i64 {
    ghost size = { 8 };

    ghost align = { 8 };

    ghost le_bytes = { signed_bytes w64 };

    ghost row_of = { signed_row_of w64 };

    ghost element = { signed_element w64 };

    ghost always_valid = { λ x. tt };

    fn size() -> usize {
        8
    }

    fn from_le_bytes(bytes: &[u8]) -> Self {
        i64::from_le_bytes([
            bytes[0], bytes[1], bytes[2], bytes[3], bytes[4], bytes[5], bytes[6], bytes[7],
        ])
    }

    fn same(&self, other: &Self) -> bool {
        *self == *other
    }
}

impl Primitive for i64 {
    ghost small = { at_most_8 8 refl };

    ghost MIN = { negsuc (2 ^ 63 - 1) };

    const MIN: Self = i64::MIN;

    ghost MAX = { pos (2 ^ 63 - 1) };

    const MAX: Self = i64::MAX;

    fn byte(&self, index: usize) -> u8 {
        self.to_le_bytes()[index]
    }
}

impl Wide for i64 {}

//! Unsigned numbers as elements.
ghost use Rattle.std.specs.Prelude.{ℕ, ◌≡◌, ◌-◌, ◌^◌, refl};
ghost use Rattle.std.specs.Int.{to_le_bytes, w8, w16, w32, w64};
ghost use Rattle.columnar_base.specs.Elements.{word_row, word_row_of};
ghost use Rattle.columnar_base.specs.ElementLaws.{word_element};
ghost use Rattle.columnar_base.specs.Numbers.{unsigned_row, unsigned_row_of};
ghost use Rattle.columnar_base.specs.NumberLaws.{unsigned_element, at_most_8};

use super::{Element, Primitive, Wide};
use crate::traits::Item;

impl Item for u8 {
    ghost meaning = { unsigned_row w8 };

    ghost valid = { λ x. Unit {0} };
}

impl Element for u8 {
    ghost size = { 1 };

    ghost align = { 1 };

    ghost le_bytes = { to_le_bytes w8 };

    ghost row_of = { unsigned_row_of w8 };

    ghost element = { unsigned_element w8 };

    ghost always_valid = { λ x. tt };

    fn size() -> usize {
        1
    }

    fn from_le_bytes(bytes: &[u8]) -> Self {
        u8::from_le_bytes([bytes[0]])
    }

    fn same(&self, other: &Self) -> bool {
        *self == *other
    }
}

impl Primitive for u8 {
    ghost small = { at_most_8 1 refl };

    ghost MIN = { 0 };

    const MIN: Self = u8::MIN;

    ghost MAX = { 2 ^ 8 - 1 };

    const MAX: Self = u8::MAX;

    fn byte(&self, index: usize) -> u8 {
        self.to_le_bytes()[index]
    }
}

impl Item for u16 {
    ghost meaning = { unsigned_row w16 };

    ghost valid = { λ x. Unit {0} };
}

impl Element for u16 {
    ghost size = { 2 };

    ghost align = { 2 };

    ghost le_bytes = { to_le_bytes w16 };

    ghost row_of = { unsigned_row_of w16 };

    ghost element = { unsigned_element w16 };

    ghost always_valid = { λ x. tt };

    fn size() -> usize {
        2
    }

    fn from_le_bytes(bytes: &[u8]) -> Self {
        u16::from_le_bytes([bytes[0], bytes[1]])
    }

    fn same(&self, other: &Self) -> bool {
        *self == *other
    }
}

impl Primitive for u16 {
    ghost small = { at_most_8 2 refl };

    ghost MIN = { 0 };

    const MIN: Self = u16::MIN;

    ghost MAX = { 2 ^ 16 - 1 };

    const MAX: Self = u16::MAX;

    fn byte(&self, index: usize) -> u8 {
        self.to_le_bytes()[index]
    }
}

impl Wide for u16 {}

impl Item for u32 {
    ghost meaning = { unsigned_row w32 };

    ghost valid = { λ x. Unit {0} };
}

impl Element for u32 {
    ghost size = { 4 };

    ghost align = { 4 };

    ghost le_bytes = { to_le_bytes w32 };

    ghost row_of = { unsigned_row_of w32 };

    ghost element = { unsigned_element w32 };

    ghost always_valid = { λ x. tt };

    fn size() -> usize {
        4
    }

    fn from_le_bytes(bytes: &[u8]) -> Self {
        u32::from_le_bytes([bytes[0], bytes[1], bytes[2], bytes[3]])
    }

    fn same(&self, other: &Self) -> bool {
        *self == *other
    }
}

impl Primitive for u32 {
    ghost small = { at_most_8 4 refl };

    ghost MIN = { 0 };

    const MIN: Self = u32::MIN;

    ghost MAX = { 2 ^ 32 - 1 };

    const MAX: Self = u32::MAX;

    fn byte(&self, index: usize) -> u8 {
        self.to_le_bytes()[index]
    }
}

impl Wide for u32 {}

impl Item for u64 {
    ghost meaning = { word_row };

    ghost valid = { λ x. Unit {0} };
}

impl Element for u64 {
    ghost size = { 8 };

    ghost align = { 8 };

    ghost le_bytes = { to_le_bytes w64 };

    ghost row_of = { word_row_of };

    ghost element = { word_element };

    ghost always_valid = { λ x. tt };

    fn size() -> usize {
        8
    }

    fn from_le_bytes(bytes: &[u8]) -> Self {
        u64::from_le_bytes([
            bytes[0], bytes[1], bytes[2], bytes[3], bytes[4], bytes[5], bytes[6], bytes[7],
        ])
    }

    fn same(&self, other: &Self) -> bool {
        *self == *other
    }
}

impl Primitive for u64 {
    ghost small = { at_most_8 8 refl };

    ghost MIN = { 0 };

    const MIN: Self = u64::MIN;

    ghost MAX = { 2 ^ 64 - 1 };

    const MAX: Self = u64::MAX;

    fn byte(&self, index: usize) -> u8 {
        self.to_le_bytes()[index]
    }
}

impl Wide for u64 {}

//! Elements of a `Vec`: values of a fixed size, stored as little-endian bytes.
ghost use Rattle.std.specs.Prelude.{◌≡◌, ℕ, ◌<◌, ◌≤◌, ◌-◌, ◌^◌, List, length, min, slice_index};
ghost use Rattle.columnar_base.specs.Row.{Row, row_eq};
ghost use Rattle.columnar_base.specs.Elements.{IsElement};

use crate::traits::Item;
pub use array::ArrayItem;

mod array;
mod signed;
mod unsigned;
mod wrapping;

/// A value of a fixed number of bytes, which a `Vec` stores in little-endian order.
pub trait Element: Copy + Item {
    // its number of bytes
    ghost size: { ℕ };

    // its alignment, in bytes
    ghost align: { ℕ };

    // its bytes, lowest first
    ghost le_bytes: { Self → List ℕ };

    // the row that the bytes represent
    ghost row_of: { List ℕ → Row };

    /// Returns the size of an element in bytes, at least 1; 2^64 - 1 if the size is larger.
    fn size() -> usize
        ensures { result ≡ min size (2 ^ 64 - 1) };

    /// Returns the element of these bytes, lowest first.
    ///
    /// # Requires
    /// As many bytes as the element's size.
    fn from_le_bytes(bytes: &[u8]) -> Self
        requires { length bytes.now ≡ size }
        ensures { le_bytes result ≡ bytes.now };

    /// Returns whether both represent equal rows.
    fn same(&self, other: &Self) -> bool
        ensures { result ≡ row_eq (Self.meaning self.now) (Self.meaning other.now) };

    ghost element: { IsElement size le_bytes row_of Self.meaning };

    ghost always_valid: { (x : Self) → Self.valid x };
}

/// A number of a fixed width of at most 64 bits.
pub trait Primitive: Element {
    ghost MIN: { Self };

    /// The least value.
    const MIN: Self;

    ghost MAX: { Self };

    /// The greatest value.
    const MAX: Self;

    /// Returns byte `index` of the number, lowest first.
    ///
    /// # Requires
    /// `index` below the element's size.
    fn byte(&self, index: usize) -> u8
        requires { index < Self.size }
        ensures { result ≡ slice_index (Self.le_bytes self.now) index };

    ghost small: { Self.size ≤ 8 };
}

/// A number of more than one byte.
pub trait Wide: Primitive {}

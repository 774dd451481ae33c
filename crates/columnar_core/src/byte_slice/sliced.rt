//! Elements whose slices can be written as bytes.
ghost use Rattle.std.specs.Prelude.{ℕ, ◌≡◌, ◌<◌, ◌^◌, IsTrue};
ghost use Rattle.std.specs.List.{flat_map};
ghost use Rattle.columnar_core.specs.Slices.{bytes_in, alignment, has_words};
ghost use Rattle.columnar_core.specs.Bytes.{le_bytes};

use super::{ByteSlice, Elements};
use columnar_base::element::Element;
use std::num::Wrapping;

/// An element whose slices can be written as bytes.
pub trait Sliced: Element {
    /// Returns the alignment of its slices, in bytes.
    fn align() -> u64
        ensures { result ≡ Self.align };

    /// Returns the bytes of the elements as a slice.
    ///
    /// # Requires
    /// An element of at most 2^63 - 1 bytes.
    fn byte_slice(items: &[Self]) -> ByteSlice<'_>
        requires { Self.size < 2 ^ 63 }
        ensures bytes { bytes_in result ≡ flat_map Self.le_bytes items.now }
        ensures align { alignment result ≡ Self.align };
}

impl Sliced for u8 {
    fn align() -> u64 {
        1
    }

    fn byte_slice(items: &[u8]) -> ByteSlice<'_> {
        ByteSlice::of_bytes(items)
    }
}

impl Sliced for u16 {
    fn align() -> u64 {
        2
    }

    fn byte_slice(items: &[u16]) -> ByteSlice<'_> {
        let count = 2 * items.len();
        ByteSlice {
            elements: Elements::U16(items),
            count,
            align: 2,
        }
    }
}

impl Sliced for u32 {
    fn align() -> u64 {
        4
    }

    fn byte_slice(items: &[u32]) -> ByteSlice<'_> {
        let count = 4 * items.len();
        ByteSlice {
            elements: Elements::U32(items),
            count,
            align: 4,
        }
    }
}

impl Sliced for u64 {
    fn align() -> u64 {
        8
    }

    fn byte_slice(items: &[u64]) -> ByteSlice<'_>
        ensures bytes { bytes_in result ≡ le_bytes items.now }
        ensures align { alignment result ≡ 8 }
        ensures words { IsTrue (has_words result) }
    {
        let count = 8 * items.len();
        ByteSlice {
            elements: Elements::U64(items),
            count,
            align: 8,
        }
    }
}

impl Sliced for i8 {
    fn align() -> u64 {
        1
    }

    fn byte_slice(items: &[i8]) -> ByteSlice<'_> {
        let count = items.len();
        ByteSlice {
            elements: Elements::I8(items),
            count,
            align: 1,
        }
    }
}

impl Sliced for i16 {
    fn align() -> u64 {
        2
    }

    fn byte_slice(items: &[i16]) -> ByteSlice<'_> {
        let count = 2 * items.len();
        ByteSlice {
            elements: Elements::I16(items),
            count,
            align: 2,
        }
    }
}

impl Sliced for i32 {
    fn align() -> u64 {
        4
    }

    fn byte_slice(items: &[i32]) -> ByteSlice<'_> {
        let count = 4 * items.len();
        ByteSlice {
            elements: Elements::I32(items),
            count,
            align: 4,
        }
    }
}

impl Sliced for i64 {
    fn align() -> u64 {
        8
    }

    fn byte_slice(items: &[i64]) -> ByteSlice<'_> {
        let count = 8 * items.len();
        ByteSlice {
            elements: Elements::I64(items),
            count,
            align: 8,
        }
    }
}

impl Sliced for Wrapping<u8> {
    fn align() -> u64 {
        1
    }

    fn byte_slice(items: &[Wrapping<u8>]) -> ByteSlice<'_> {
        let count = items.len();
        ByteSlice {
            elements: Elements::WrappingU8(items),
            count,
            align: 1,
        }
    }
}

impl Sliced for Wrapping<u16> {
    fn align() -> u64 {
        2
    }

    fn byte_slice(items: &[Wrapping<u16>]) -> ByteSlice<'_> {
        let count = 2 * items.len();
        ByteSlice {
            elements: Elements::WrappingU16(items),
            count,
            align: 2,
        }
    }
}

impl Sliced for Wrapping<u32> {
    fn align() -> u64 {
        4
    }

    fn byte_slice(items: &[Wrapping<u32>]) -> ByteSlice<'_> {
        let count = 4 * items.len();
        ByteSlice {
            elements: Elements::WrappingU32(items),
            count,
            align: 4,
        }
    }
}

impl Sliced for Wrapping<u64> {
    fn align() -> u64 {
        8
    }

    fn byte_slice(items: &[Wrapping<u64>]) -> ByteSlice<'_> {
        let count = 8 * items.len();
        ByteSlice {
            elements: Elements::WrappingU64(items),
            count,
            align: 8,
        }
    }
}

impl Sliced for Wrapping<i8> {
    fn align() -> u64 {
        1
    }

    fn byte_slice(items: &[Wrapping<i8>]) -> ByteSlice<'_> {
        let count = items.len();
        ByteSlice {
            elements: Elements::WrappingI8(items),
            count,
            align: 1,
        }
    }
}

impl Sliced for Wrapping<i16> {
    fn align() -> u64 {
        2
    }

    fn byte_slice(items: &[Wrapping<i16>]) -> ByteSlice<'_> {
        let count = 2 * items.len();
        ByteSlice {
            elements: Elements::WrappingI16(items),
            count,
            align: 2,
        }
    }
}

impl Sliced for Wrapping<i32> {
    fn align() -> u64 {
        4
    }

    fn byte_slice(items: &[Wrapping<i32>]) -> ByteSlice<'_> {
        let count = 4 * items.len();
        ByteSlice {
            elements: Elements::WrappingI32(items),
            count,
            align: 4,
        }
    }
}

impl Sliced for Wrapping<i64> {
    fn align() -> u64 {
        8
    }

    fn byte_slice(items: &[Wrapping<i64>]) -> ByteSlice<'_> {
        let count = 8 * items.len();
        ByteSlice {
            elements: Elements::WrappingI64(items),
            count,
            align: 8,
        }
    }
}

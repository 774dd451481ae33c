//! Errors: why a call refuses.
ghost use Rattle.std.specs.Prelude.{◌≡◌};
ghost use Rattle.columnar_base.specs.Faults.{fault_number, fault_slice};
ghost use Rattle.columnar_base.specs.declared.fault.GrowError.{GrowError};
ghost use Rattle.columnar_base.specs.declared.fault.GrowError.TheVariants.{Memory};
ghost use Rattle.columnar_base.specs.declared.fault.EncodeError.{EncodeError};
ghost use Rattle.columnar_base.specs.declared.fault.EncodeError.TheVariants.{Memory as EncodeMemory};

use std::alloc::{AllocError, AllocFailed};
use thiserror::Error;

/// Why a column did not grow.
#[derive(Clone, Copy, Debug, PartialEq, Eq, Error)]
pub enum GrowError {
    /// Out of memory: an allocation was refused.
    #[error("no memory")]
    Memory,
    /// A count or a bound would exceed 2^64 - 1.
    #[error("a count or a bound would exceed 2^64 - 1")]
    Length,
    /// A column of offsets cannot take this offset at its place.
    #[error("the column of bounds cannot store this offset")]
    Offset,
    /// A value failed to format as text.
    #[error("a value could not be formatted as text")]
    Format,
}

/// Why a row was not converted to an owned value.
#[derive(Clone, Copy, Debug, PartialEq, Eq, Error)]
pub enum OwnError {
    /// Out of memory: an allocation was refused.
    #[error("no memory")]
    Memory,
    /// The bytes of a text are not UTF-8.
    #[error("the bytes of a text are not UTF-8")]
    Utf8,
    /// The length of a list differs from that of the requested array.
    #[error("the length of a list is not that of the array")]
    WrongLength,
}

/// Why nothing was encoded.
#[derive(Clone, Copy, Debug, PartialEq, Eq, Error)]
pub enum EncodeError {
    /// Out of memory: an allocation was refused.
    #[error("no memory")]
    Memory,
    /// The encoding would exceed 2^64 - 1 bytes.
    #[error("the encoding would exceed 2^64 - 1 bytes")]
    Length,
}

/// Why not all bytes were written.
#[derive(Debug, Drop, Error)]
pub enum WriteFault<E: Drop> {
    /// The encoding would exceed 2^64 - 1 bytes; nothing was written.
    #[error("the encoding would exceed 2^64 - 1 bytes")]
    Length,
    /// The writer failed; it may have received the first bytes of the encoding.
    #[error("the writer failed")]
    Writer(E),
}

/// Why a store was not opened as a type's own form or its earlier form.
#[derive(Clone, Copy, Debug, PartialEq, Eq, Error)]
pub enum EitherFault {
    /// Neither form accepts the store.
    #[error("{0}")]
    Store(StoreFault),
    /// The store has the earlier form, but the column could not be built from it.
    #[error("{0}")]
    Grow(GrowError),
}

/// Why the values of a tree were not summed.
#[derive(Clone, Copy, Debug, PartialEq, Eq, Error)]
pub enum SumError {
    /// The sum would exceed the largest `usize`.
    #[error("the sum would overflow")]
    Overflow,
}

/// The rule that a store breaks, and the number of the slice that breaks it.
/// Slices are counted from 0 in the whole store. A rule of the whole store is reported at slice 0, a rule of a column
/// at its first slice.
#[derive(Clone, Copy, Debug, PartialEq, Eq, Error)]
pub enum StoreFault {
    /// The store is not a whole number of eight-byte words.
    #[error("the length of the store is not a multiple of 8 bytes, slice {0}")]
    NotWords(usize),
    /// The store has no bytes.
    #[error("the store is empty, slice {0}")]
    Empty(usize),
    /// The first offset points into its own word, or not to the start of a word.
    #[error("the first offset does not point to a later word, slice {0}")]
    FirstOffset(usize),
    /// The table of offsets does not fit in the store.
    #[error("the table of offsets does not fit in the store, slice {0}")]
    Table(usize),
    /// The store has more or fewer slices than the type.
    #[error("the store and its type differ in the number of slices, slice {0}")]
    SliceCount(usize),
    /// The slice extends past the end of the store.
    #[error("slice {0} extends past the end of the store")]
    PastEnd(usize),
    /// The slice ends before it starts.
    #[error("slice {0} ends before it starts")]
    Backwards(usize),
    /// The slice is not a whole number of elements.
    #[error("slice {0} is not a whole number of elements long")]
    ElementSize(usize),
    /// A head or a tail is not two words long, or a count is not one word long.
    #[error("slice {0} is a head, tail or count of the wrong size")]
    HeadSize(usize),
    /// The lengths of the column's parts do not match.
    #[error("the lengths of the column's parts do not match, slice {0}")]
    Parts(usize),
    /// Bounds decrease, or do not end at the length of the values.
    #[error("the bounds decrease or do not end at the last value, slice {0}")]
    Bounds(usize),
    /// Counts differ from the numbers of set bits.
    #[error("the counts are not the numbers of set bits, slice {0}")]
    Counts(usize),
    /// A tail has too many bits, or bits set after them.
    #[error("the tail has too many bits, or set bits after its last, slice {0}")]
    TailBits(usize),
    /// The type has no such value.
    #[error("a value is not one of its type, slice {0}")]
    Value(usize),
    /// A row refers back to no stored value.
    #[error("a row refers back to no stored value, slice {0}")]
    Lookback(usize),
    /// The last multiple of a stride exceeds 2^64 - 1.
    #[error("the last multiple of a stride exceeds 2^64 - 1, slice {0}")]
    Stride(usize),
    /// Variants and offsets have none of their legal forms.
    #[error("the variants and offsets have none of their forms, slice {0}")]
    Variant(usize),
    /// Groups and bounds describe no forest.
    #[error("the groups and bounds describe no forest, slice {0}")]
    Tree(usize),
    /// There are more than 2^64 - 1 rows.
    #[error("the column has more than 2^64 - 1 rows, slice {0}")]
    Length(usize),
}

impl StoreFault {
    /// Returns the number of the broken rule, from 1 to 19.
    pub fn number(&self) -> u8
        ensures { result ≡ fault_number self.now }
    {
        match self {
            StoreFault::NotWords(_) => 1,
            StoreFault::Empty(_) => 2,
            StoreFault::FirstOffset(_) => 3,
            StoreFault::Table(_) => 4,
            StoreFault::SliceCount(_) => 5,
            StoreFault::PastEnd(_) => 6,
            StoreFault::Backwards(_) => 7,
            StoreFault::ElementSize(_) => 8,
            StoreFault::HeadSize(_) => 9,
            StoreFault::Parts(_) => 10,
            StoreFault::Bounds(_) => 11,
            StoreFault::Counts(_) => 12,
            StoreFault::TailBits(_) => 13,
            StoreFault::Value(_) => 14,
            StoreFault::Lookback(_) => 15,
            StoreFault::Stride(_) => 16,
            StoreFault::Variant(_) => 17,
            StoreFault::Tree(_) => 18,
            StoreFault::Length(_) => 19,
        }
    }

    /// Returns the number of the slice, counted from 0 in the whole store.
    pub fn slice(&self) -> usize
        ensures { result ≡ fault_slice self.now }
    {
        match self {
            StoreFault::NotWords(slice)
            | StoreFault::Empty(slice)
            | StoreFault::FirstOffset(slice)
            | StoreFault::Table(slice)
            | StoreFault::SliceCount(slice)
            | StoreFault::PastEnd(slice)
            | StoreFault::Backwards(slice)
            | StoreFault::ElementSize(slice)
            | StoreFault::HeadSize(slice)
            | StoreFault::Parts(slice)
            | StoreFault::Bounds(slice)
            | StoreFault::Counts(slice)
            | StoreFault::TailBits(slice)
            | StoreFault::Value(slice)
            | StoreFault::Lookback(slice)
            | StoreFault::Stride(slice)
            | StoreFault::Variant(slice)
            | StoreFault::Tree(slice)
            | StoreFault::Length(slice) => *slice,
        }
    }
}

/// Converts a refused allocation to `Memory`.
impl From<AllocError> for GrowError {
    ghost from_gives = { λ _ e. e ≡ Memory };

    fn from(_error: AllocError) -> GrowError {
        GrowError::Memory
    }
}

/// Converts a refused allocation to `Memory`, and drops the value that could not be stored.
impl<T: Drop> From<AllocFailed<T>> for GrowError {
    ghost from_gives = { λ _ e. e ≡ Memory };

    fn from(_error: AllocFailed<T>) -> GrowError {
        GrowError::Memory
    }
}

/// Converts a refused allocation to `Memory`.
impl From<AllocError> for EncodeError {
    ghost from_gives = { λ _ e. e ≡ EncodeMemory };

    fn from(_error: AllocError) -> EncodeError {
        EncodeError::Memory
    }
}

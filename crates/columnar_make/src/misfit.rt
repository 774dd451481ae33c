//! Why a line of JSON is not a row of a type.
use std::alloc::{AllocError, AllocFailed};
use thiserror::Error;

/// Why a line is not a row of the type.
#[derive(Clone, Copy, Debug, PartialEq, Eq, Error)]
pub enum Misfit {
    /// An allocation failed.
    #[error("no memory")]
    Memory,
    /// The line is not JSON.
    #[error("not JSON")]
    NotJson,
    /// A value has another kind than its type: a text for a number, an object for an array.
    #[error("a value is of another kind than its type")]
    Kind,
    /// A number is not in the range of its type, or not in that of 64-bit integers.
    #[error("a number is out of range")]
    Range,
    /// An array or a tuple has another length than its type.
    #[error("an array has another length than its type")]
    Length,
    /// An object lacks a field of its type, or has one that its type lacks.
    #[error("a field is missing or unknown")]
    Field,
    /// The enum has no such variant.
    #[error("the enum has no such variant")]
    Variant,
    /// The row would be written as another value: a number has more digits than its type keeps.
    #[error("a value has more digits than its type")]
    Differs,
}

impl From<AllocError> for Misfit {
    fn from(_error: AllocError) -> Misfit {
        Misfit::Memory
    }
}

impl<T: Drop> From<AllocFailed<T>> for Misfit {
    fn from(_error: AllocFailed<T>) -> Misfit {
        Misfit::Memory
    }
}

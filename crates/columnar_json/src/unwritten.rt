//! Why a row was not written.
use thiserror::Error;

/// Why a row was not written.
#[derive(Clone, Copy, Debug, PartialEq, Eq, Error)]
pub enum Unwritten {
    /// Out of memory: an allocation was refused.
    #[error("no memory")]
    Memory,
    /// The store has no row with this index.
    #[error("no such row")]
    NoRow,
    /// A text in the row is not UTF-8.
    #[error("a text is not UTF-8")]
    NotText,
    /// An array in the row has another length than its type.
    #[error("an array has another length than its type")]
    WrongLength,
}

//! Errors of calls, and faults of stores.

pub use columnar_bytes::stash::ExactFault;
pub use columnar_core::fault::{
    EitherFault, EncodeError, GrowError, OwnError, StoreFault, SumError, WriteFault,
};

//! Columns in bytes.

pub use columnar_base::tally::Tally;
pub use columnar_bytes::{indexed, stash};
pub use columnar_core::byte_slice::ByteSlice;
pub use columnar_core::bytes::ByteSlices;
pub use columnar_core::earlier::Earlier;
pub use columnar_core::writer::WriteBytes;

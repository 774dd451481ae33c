//! Columns of results.

pub use columnar_sums::result::Results;

//! Columns of options.

pub use columnar_sums::option::Options;

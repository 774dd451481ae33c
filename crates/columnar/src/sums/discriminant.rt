//! The variant of each row.

pub use columnar_sums::discriminant::{Discriminant, Variants};

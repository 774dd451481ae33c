//! Columns in which a row may refer to an earlier one.

pub use columnar_lookback::lookbacks::{Distances, Lookbacks};
pub use columnar_lookback::repeats::Repeats;

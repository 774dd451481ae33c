//! Columns of offsets that follow a stride.

pub use columnar_core::offsets::Offsets;
pub use columnar_core::words::Words;
pub use columnar_primitive::offsets::{Fixeds, Strides};

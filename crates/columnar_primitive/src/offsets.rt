//! Columns of offsets that follow a stride.

pub mod fixeds;
pub mod strides;

pub use fixeds::Fixeds;
pub use strides::Strides;

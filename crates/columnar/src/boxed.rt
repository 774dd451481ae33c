//! Boxed rows.

pub use columnar_core::boxed::Boxed;

//! Shared views.

pub use columnar_core::rc::{from_bytes, from_store};

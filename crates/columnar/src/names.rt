//! Names of slices, so that a fault can name a field.

pub use columnar_names::fault::{FaultNames, NamedFault};
pub use columnar_names::names::{NamedParts, Numbered, PartNames, SliceNames, name_in};

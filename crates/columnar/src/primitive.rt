//! Columns of numbers, characters, durations, units and truth values.

pub mod offsets;

pub use columnar_bits::bools::Bools;
pub use columnar_core::byte_slice::flat::SlicedArray;
pub use columnar_core::vector::Sliced;
pub use columnar_primitive::chars::Chars;
pub use columnar_primitive::codes::{Coded, Codes};
pub use columnar_primitive::count::Count;
pub use columnar_primitive::durations::Durations;
pub use columnar_primitive::empties::Empties;
pub use columnar_primitive::flat::Flat;
pub use columnar_primitive::floats::{Doubles, Singles};
pub use columnar_primitive::larges::{I128s, U128s};
pub use columnar_primitive::numbers::{Isizes, Usizes};
pub use columnar_primitive::rule::Rule;

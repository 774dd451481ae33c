//! Columns of sum types, and offsets in unary.

pub mod discriminant;
pub mod option;
pub mod rank_select;
pub mod result;
pub mod variants;

pub use columnar_sums::unaries::{Unaries, UnaryEnds};

//! In-place writes of rows and cells: a write changes one row and no other, and allocates nothing.
#![tactic(auto)]

pub mod bits;
pub mod index_mut;
pub mod items;
pub mod lent;
pub mod row_mut;
pub mod set;
pub mod sums;
pub mod through;
pub mod tuple;
pub mod values;

//! Your own rows: a struct or an enum as the rows of a column, stored as a column of their parts.
#![tactic(auto)]

pub mod by_refs;
pub mod bytes;
pub mod fields;
pub mod grow;
pub mod push;
pub mod rows;
pub mod same;
pub mod set;

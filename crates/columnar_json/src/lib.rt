//! Rows of a store as JSON texts, for types that are read at run time.
#![tactic(auto)]

mod chosen;
mod fields;
mod leaf;
pub mod names;
mod real;
mod row;
pub mod rows;
mod text;
pub mod unwritten;
mod value;
pub mod view;

//! For a type, the column that stores its values, and the value that a row represents.
#![tactic(auto)]

pub mod array;
pub mod into_value;
pub mod list;
pub mod number;
pub mod sum;
pub mod text;
pub mod tuple;
pub mod types;

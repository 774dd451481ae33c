//! Columns of recursive data.

pub mod tree;

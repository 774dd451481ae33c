//! Columns of lists: the items of all lists one after another, and the end of each list.
#![tactic(auto)]

pub mod arrays;
pub mod each;
pub mod laws;
pub mod parts;
pub mod vector;
pub mod walk;

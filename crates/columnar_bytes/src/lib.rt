//! Columns in bytes: stores that frame slices, and how they are validated, read, encoded and written.
#![tactic(auto)]

pub mod indexed;
pub mod stash;

//! An interface for C and for languages that can call C. It tests whether bytes frame a well-formed column of a type,
//! given as text, and counts the rows. `columnar.h` declares the functions.
#![tactic(auto)]

pub mod answer;
pub mod calls;
pub mod json;

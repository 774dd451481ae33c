//! Columns of strings: the bytes of all strings one after another, and the end of each string.
#![tactic(auto)]

pub mod string;

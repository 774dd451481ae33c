//! Columns of bits: booleans in 64-bit words.
#![tactic(auto)]

pub mod bools;

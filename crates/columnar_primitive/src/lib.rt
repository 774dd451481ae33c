//! Columns of values of the language: numbers by other names, characters, durations, units and offsets.
#![tactic(auto)]

pub mod chars;
pub mod codes;
pub mod count;
pub mod durations;
pub mod empties;
pub mod flat;
pub mod floats;
pub mod larges;
pub mod numbers;
pub mod offsets;
pub mod rule;

//! Shared code of the test crates: calls that are proved once for all containers, stores written as words, writers, and
//! macros for claims. Each call has the preconditions of the calls it makes, and keeps a column well-formed; the tests
//! compare the results.
#![tactic(auto)]

pub mod claims;
pub mod columns;
pub mod keeps;
pub mod runs;
pub mod stashes;
pub mod stores;
pub mod trials;
pub mod writers;

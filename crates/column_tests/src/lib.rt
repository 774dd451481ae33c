//! Tests of stashes, of results, and of runs of commands, by `columnar`'s public calls. They are a crate of their own,
//! so that the tests of `columnar` are proved in two crates in parallel.
#![tactic(auto)]

#[cfg(test)]
mod claims;
#[cfg(test)]
mod tests;

//! Tests of tuples of columns, by their public calls. They are not in the crates of tuples, since a crate with tests is
//! proved twice: without them and with them.
#![tactic(auto)]

#[cfg(test)]
mod claims;
#[cfg(test)]
mod earlier;
#[cfg(test)]
mod stashes;
#[cfg(test)]
mod stores;
#[cfg(test)]
mod widths;
#[cfg(test)]
mod worked;

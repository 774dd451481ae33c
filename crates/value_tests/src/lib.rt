//! Tests of the columns of values, and of the layers below them, by their public calls. They are not in the layers' own
//! crates, since a crate with tests is proved twice: without them and with them.
#![tactic(auto)]

#[cfg(test)]
mod adapters;
#[cfg(test)]
mod bools;
#[cfg(test)]
mod byte_slices;
#[cfg(test)]
mod callers;
#[cfg(test)]
mod claims;
#[cfg(test)]
mod held;
#[cfg(test)]
mod numbers;
#[cfg(test)]
mod offsets;
#[cfg(test)]
mod pairs;
#[cfg(test)]
mod ranges;
#[cfg(test)]
mod tally;
#[cfg(test)]
mod values;

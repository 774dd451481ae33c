//! Tests of lists, strings, options, bounds in unary, trees and framing, by their public calls. They are not in the
//! layers' own crates, since a crate with tests is proved twice: without them and with them.
#![tactic(auto)]

#[cfg(test)]
mod boxed;
#[cfg(test)]
mod claims;
#[cfg(test)]
mod each;
#[cfg(test)]
mod indexed;
#[cfg(test)]
mod lists;
#[cfg(test)]
mod many;
#[cfg(test)]
mod options;
#[cfg(test)]
mod parts;
#[cfg(test)]
mod plain;
#[cfg(test)]
mod ranks;
#[cfg(test)]
mod refused;
#[cfg(test)]
mod rows;
#[cfg(test)]
mod strings;
#[cfg(test)]
mod trees;
#[cfg(test)]
mod unaries;

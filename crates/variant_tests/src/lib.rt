//! Tests of columns of any number of variants, by their public calls.
#![tactic(auto)]

#[cfg(test)]
mod claims;
#[cfg(test)]
mod groups;
#[cfg(test)]
mod own;
#[cfg(test)]
mod refused;
#[cfg(test)]
mod three;
#[cfg(test)]
mod two;

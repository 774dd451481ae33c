//! Tests of types as columns, by `columnar`'s public calls.
#![tactic(auto)]

#[cfg(test)]
mod calls;
#[cfg(test)]
mod claims;
#[cfg(test)]
mod names;
#[cfg(test)]
mod owned;
#[cfg(test)]
mod refused;
#[cfg(test)]
mod stores;
#[cfg(test)]
mod types;

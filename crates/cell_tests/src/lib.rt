//! Tests of in-place writes of rows and cells, and callers that use only the contracts of writes.
#![tactic(auto)]

#[cfg(test)]
mod callers;
#[cfg(test)]
mod claims;
#[cfg(test)]
mod refused;
#[cfg(test)]
mod rows;
#[cfg(test)]
mod tests;

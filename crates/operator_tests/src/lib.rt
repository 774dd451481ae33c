//! Tests of what is done with whole columns: sorted, taken, filtered, merged, searched.
#![tactic(auto)]

#[cfg(test)]
mod claims;
#[cfg(test)]
mod event;
#[cfg(test)]
mod hashes;
#[cfg(test)]
mod numbers;
#[cfg(test)]
mod place;
#[cfg(test)]
mod reading;
#[cfg(test)]
mod refused;
#[cfg(test)]
mod sample;

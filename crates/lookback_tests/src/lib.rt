//! Tests of columns in which a row may refer to an earlier one, by their public calls.
#![tactic(auto)]

#[cfg(test)]
mod callers;
#[cfg(test)]
mod calls;
#[cfg(test)]
mod claims;
#[cfg(test)]
mod copies;
#[cfg(test)]
mod lookbacks;
#[cfg(test)]
mod repeats;
#[cfg(test)]
mod rows;
#[cfg(test)]
mod runs;
#[cfg(test)]
mod same;
#[cfg(test)]
mod stashes;
#[cfg(test)]
mod stores;
#[cfg(test)]
mod tens;

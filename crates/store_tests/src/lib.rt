//! Tests across crates, by `columnar`'s public calls: worked stores, nested columns, and your own records. They are a
//! crate of their own, so that `columnar` is proved once.
#![tactic(auto)]

#[cfg(test)]
mod bounds;
#[cfg(test)]
mod claims;
#[cfg(test)]
mod depth;
#[cfg(test)]
mod entries;
#[cfg(test)]
mod folders;
#[cfg(test)]
mod nests;
#[cfg(test)]
mod options;
#[cfg(test)]
mod records;
#[cfg(test)]
mod stores;
#[cfg(test)]
mod values;
#[cfg(test)]
mod worked;

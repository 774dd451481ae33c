//! Stores from lines of JSON, for types that are read at run time.
#![tactic(auto)]

mod bits;
mod leaf;
pub mod made;
pub mod misfit;
mod row;
mod sink;
mod slice;
mod stands;

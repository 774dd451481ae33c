//! Columns: lists of rows stored in a few flat byte slices. Defines faults, views of elements, and the column traits
//! that do not involve bytes.
#![tactic(auto)]

mod borrowed;
pub mod element;
pub mod fault;
pub mod iter;
pub mod metered;
pub mod storage;
pub mod tally;
pub mod traits;
pub mod truth;
pub mod tuple;
pub mod values;
pub mod vector;
pub mod view;
pub mod words;

//! Columns and bytes: columns lend their slices to a writer, and are read in place from the slices of a store. It also
//! defines what needs views: bulk copies, tuples, boxes, and columns built from an earlier form.
#![tactic(auto)]

pub mod boxed;
pub mod byte_column;
pub mod byte_slice;
pub mod bytes;
pub mod container;
pub mod earlier;
pub mod lent;
pub mod offsets;
pub mod owned;
pub mod rc;
pub mod room;
pub mod sides;
pub mod slice;
pub mod store;
pub mod tuple;
pub mod two;
pub mod values;
pub mod vector;
pub mod viewed;
pub mod words;
pub mod writer;

pub use columnar_base::{element, fault, iter, metered, tally, traits, truth, view};
pub use columnar_rows::ordered;

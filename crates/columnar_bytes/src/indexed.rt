//! Slices in a store of little-endian 64-bit words.
//!
//! For k slices word 0 is `8 * (k + 1)`. Word i, from 1 to k, is the byte at which slice i - 1 ends, counted from the
//! start of the store. Slice 0 starts at the value of word 0, each later slice at the end of the one before, rounded up
//! to a multiple of eight. No slice ends before it starts or past the store. The contents of padding, and words after
//! the last slice, are free; `encode` and `write` pad with zeros, and end after the last slice's padding.

mod decoding;
mod encoding;
pub mod laws;
mod lengths;
mod many;
mod slices;
mod split;
mod structure;
mod validation;
mod writing;

pub use columnar_core::store::{Decode, DecodedStore};
pub use decoding::{decode, decode_index};
pub use encoding::encode;
pub use lengths::{length_in_bytes, length_in_words};
pub use many::Stores;
pub use split::{StoreLength, split_store, store_length, stores};
pub use structure::{validate_structure, validate_structure_tallied};
pub use validation::{validate, validate_tallied};
pub use writing::write;

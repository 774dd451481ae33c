//! Slices of a store that grows.
use crate::misfit::Misfit;
use std::alloc::{AllocError, Global};

/// A slice that grows.
#[derive(Drop)]
pub(crate) struct SliceBuilder {
    /// Its bytes, without the words that are written last.
    pub bytes: Vec<u8>,
    /// The words that are written last: none, the first, or both.
    pub words: usize,
    pub first: u64,
    pub second: u64,
    /// The last bound, the number of set bits, or the number of rows.
    pub total: u64,
    /// The number of rows of each variant.
    pub counts: Vec<u64>,
}

impl SliceBuilder {
    /// Returns a slice with so many words, which are 0.
    pub fn new(alloc: Global, words: usize) -> SliceBuilder {
        SliceBuilder {
            bytes: Vec::new(alloc),
            words,
            first: 0,
            second: 0,
            total: 0,
            counts: Vec::new(alloc),
        }
    }

    /// Appends bytes.
    pub fn append(&mut self, bytes: &[u8]) -> Result<(), Misfit> {
        self.bytes.extend_from_slice(bytes)?;
        Ok(())
    }

    /// Appends a number as 64 bits.
    pub fn append_word(&mut self, word: u64) -> Result<(), Misfit> {
        self.append(&word.to_le_bytes())
    }

    /// Returns the number of bytes, with the words that are written last.
    pub fn size(&self) -> usize {
        self.bytes
            .len()
            .saturating_add(self.words.saturating_mul(8))
    }

    /// Appends the slice to the bytes of a store.
    pub fn write(&self, out: &mut Vec<u8>) -> Result<(), AllocError> {
        out.extend_from_slice(self.bytes.as_slice())?;
        if self.words > 0 {
            out.extend_from_slice(&self.first.to_le_bytes())?;
        }
        if self.words > 1 {
            out.extend_from_slice(&self.second.to_le_bytes())?;
        }
        Ok(())
    }
}

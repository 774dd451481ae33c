//! Stores written as words.
ghost use Rattle.std.specs.Prelude.{IsTrue};
ghost use Rattle.columnar_base.specs.Format.{representable};

use crate::writers::Comparing;
use columnar_bytes::indexed::{validate, write};
use columnar_bytes::stash::Stash;
use columnar_core::byte_slice::ByteSlice;
use columnar_core::bytes::Stored;
use columnar_core::container::ContainerBytes;
use columnar_core::owned::Owned;
use std::alloc::Global;
use std::io::Error;

/// Returns the bytes of words, little-endian.
pub fn bytes_of(alloc: Global, words: &[u64]) -> Result<Vec<u8>, Error> {
    let mut bytes = Vec::new(alloc);
    match ByteSlice::of_words(words).write(&mut bytes) {
        Ok(()) => Ok(bytes),
        Err(fault) => Err(fault),
    }
}

/// Returns the number of the first rule that words break as a store of a type, and its slice; 0 if they break none.
/// Returns 99 if a stash reports anything else about them.
pub fn refusal<C: Stored + Drop>(alloc: Global, words: &[u64]) -> Result<(u8, usize), Error>
    requires { IsTrue (representable C.format) }
{
    let bytes = bytes_of(alloc, words)?;
    let judged = match validate::<C>(bytes.as_slice()) {
        Ok(()) => (0, 0),
        Err(fault) => (fault.number(), fault.slice()),
    };
    match Stash::<C, Vec<u8>>::try_from_bytes(alloc, bytes) {
        Ok(_) if judged.0 == 0 => Ok(judged),
        Err(fault) if (fault.number(), fault.slice()) == judged => Ok(judged),
        _ => Ok((99, 0)),
    }
}

/// Returns the first items.
pub fn front<T>(items: &[T], len: usize) -> &[T] {
    if len <= items.len() {
        &items[..len]
    } else {
        items
    }
}

/// Tests whether these are the words of a column's store.
pub fn is_written<C: ContainerBytes>(column: &C, words: &[u64]) -> bool
    requires { IsTrue (representable C.format) }
{
    let mut comparing = Comparing::new(words);
    write(&mut comparing, &Owned(column)).is_ok() && comparing.is_same()
}

//! The slices of a column, ready to be written.
ghost use Rattle.std.specs.Prelude.{◌≡◌, ◌↔◌, ◌<◌, ◌*◌, ◌+◌, ◌^◌, length, map, slice_index, IfSome, IsSome, IsTrue, IsFalse, OnOk, OnErr};
ghost use Rattle.std.specs.List.{flat_map, range_with_len};
ghost use Rattle.std.specs.Io.KnownBytes.{Appends};
ghost use Rattle.columnar_base.specs.WordViews.{view_bytes};
ghost use Rattle.columnar_core.specs.Bytes.{word, le_bytes, AreBytes};
ghost use Rattle.columnar_core.specs.Sent.{AppendsBeginning};
ghost use Rattle.columnar_core.specs.SliceBytes.{IsCounted, element_bytes};

use super::store::word_in_bytes;
use super::writer::WriteBytes;
use byteorder::{ByteOrder, LittleEndian};
use columnar_base::element::Primitive;
use columnar_base::view::{Items, View};
use std::num::Wrapping;

pub mod flat;
pub mod sliced;

// The number of words per write.
const BLOCK: usize = 128;

/// A slice of a column: elements that are read as their little-endian bytes.
#[derive(Clone, Copy)]
pub struct ByteSlice<'a> {
    elements: Elements<'a>,
    count: usize,
    align: u64,
    ghost counted: { IsCounted count (element_bytes elements) },
}

// The elements of a slice, by their type.
#[derive(Clone, Copy)]
enum Elements<'a> {
    Bytes(&'a [u8]),
    U16(&'a [u16]),
    U32(&'a [u32]),
    U64(&'a [u64]),
    I8(&'a [i8]),
    I16(&'a [i16]),
    I32(&'a [i32]),
    I64(&'a [i64]),
    WrappingU8(&'a [Wrapping<u8>]),
    WrappingU16(&'a [Wrapping<u16>]),
    WrappingU32(&'a [Wrapping<u32>]),
    WrappingU64(&'a [Wrapping<u64>]),
    WrappingI8(&'a [Wrapping<i8>]),
    WrappingI16(&'a [Wrapping<i16>]),
    WrappingI32(&'a [Wrapping<i32>]),
    WrappingI64(&'a [Wrapping<i64>]),
}

impl<'a> ByteSlice<'a> {
    ghost use Rattle.columnar_core.specs.Slices.{bytes_in, alignment, has_words};

    /// Makes a slice of bytes, with alignment 1.
    pub fn of_bytes(bytes: &'a [u8]) -> Self
        ensures bytes { bytes_in result ≡ bytes.entry.now }
        ensures align { alignment result ≡ 1 }
        ensures words { IsFalse (has_words result) }
    {
        ByteSlice::of_le_bytes(bytes, 1)
    }

    /// Makes a slice of the bytes of elements with the alignment `align`.
    pub fn of_le_bytes(bytes: &'a [u8], align: u64) -> Self
        ensures bytes { bytes_in result ≡ bytes.entry.now }
        ensures align { alignment result ≡ align }
        ensures words { IsFalse (has_words result) }
    {
        let count = bytes.len();
        ByteSlice {
            elements: Elements::Bytes(bytes),
            count,
            align,
        }
    }

    /// Makes a slice of the little-endian bytes of words, with alignment 8.
    pub fn of_words(words: &'a [u64]) -> Self
        ensures bytes { bytes_in result ≡ le_bytes words.entry.now }
        ensures align { alignment result ≡ 8 }
        ensures words { IsTrue (has_words result) }
    {
        let count = 8 * words.len();
        ByteSlice {
            elements: Elements::U64(words),
            count,
            align: 8,
        }
    }

    /// Makes a slice of the bytes of a view's words, with alignment 8.
    pub fn of_view(view: View<'a, u64>) -> Self
        ensures bytes { bytes_in result ≡ view_bytes view.entry }
        ensures align { alignment result ≡ 8 }
    {
        match view.items() {
            Items::Typed(words) => ByteSlice::of_words(words),
            Items::Bytes(bytes) => ByteSlice::of_le_bytes(bytes, 8),
        }
    }

    /// Returns the alignment of the elements, in bytes.
    pub fn align(&self) -> u64
        ensures { result ≡ alignment self.now }
    {
        self.align
    }

    /// Returns the number of bytes.
    pub fn len(&self) -> usize
        ensures { result ≡ length (bytes_in self.now) }
    {
        self.count
    }

    /// Returns the words, or `None` if the slice was not made of words in memory.
    pub fn as_words(&self) -> Option<&'a [u64]>
        ensures bytes { IfSome result (λ words. bytes_in self.now ≡ le_bytes words.now) }
        ensures some { IsSome result ↔ IsTrue (has_words self.now) }
    {
        match self.elements {
            Elements::U64(words) => Some(words),
            _ => None,
        }
    }

    /// Fills `block` with the words from word `from` on, lowest byte first; missing bytes of the last word are zeros.
    ///
    /// # Requires
    /// `8 * (from + block.len()) < len() + 8`: the last word has at least one byte.
    pub fn read_words(&self, from: usize, block: &mut [u64])
        requires { 8 * (from + length block.old) < length (bytes_in self.now) + 8 }
        ensures { block.new ≡ map (word (bytes_in self.now)) (range_with_len from (length block.old)) }
    {
        let _count = self.count;
        match self.elements {
            Elements::Bytes(bytes) => read_bytes(bytes, from, block),
            Elements::U16(items) => read_each(items, from, block),
            Elements::U32(items) => read_each(items, from, block),
            Elements::U64(items) => read_each(items, from, block),
            Elements::I8(items) => read_each(items, from, block),
            Elements::I16(items) => read_each(items, from, block),
            Elements::I32(items) => read_each(items, from, block),
            Elements::I64(items) => read_each(items, from, block),
            Elements::WrappingU8(items) => read_each(items, from, block),
            Elements::WrappingU16(items) => read_each(items, from, block),
            Elements::WrappingU32(items) => read_each(items, from, block),
            Elements::WrappingU64(items) => read_each(items, from, block),
            Elements::WrappingI8(items) => read_each(items, from, block),
            Elements::WrappingI16(items) => read_each(items, from, block),
            Elements::WrappingI32(items) => read_each(items, from, block),
            Elements::WrappingI64(items) => read_each(items, from, block),
        }
    }

    /// Returns word `index`, lowest byte first; missing bytes of the last word are zeros.
    ///
    /// # Requires
    /// A byte in that word: `8 * index < len()`.
    pub fn word(&self, index: usize) -> u64
        requires { 8 * index < length (bytes_in self.now) }
        ensures { result ≡ word (bytes_in self.now) index }
    {
        let mut block = [0u64; 1];
        self.read_words(index, &mut block);
        block[0]
    }

    /// Writes the bytes of the slice, and no others.
    ///
    /// # Errors
    /// The writer's error. A beginning of the bytes was then written, but not all.
    pub fn write<W: WriteBytes>(&self, writer: &mut W) -> Result<(), W::Error>
        ensures ok { OnOk result (Appends (W.contents writer.old) (W.contents writer.new) (bytes_in self.now)) }
        ensures err { OnErr result (AppendsBeginning (W.contents writer.old) (W.contents writer.new) (bytes_in self.now)) }
    {
        match self.elements {
            Elements::Bytes(bytes) => writer.write_all(bytes),
            Elements::U64(words) => write_blocks(writer, words),
            _ => self.write_words(writer),
        }
    }

    // Writes the bytes of the slice, a block of words at a time.
    fn write_words<W: WriteBytes>(&self, writer: &mut W) -> Result<(), W::Error>
        ensures ok { OnOk result (Appends (W.contents writer.old) (W.contents writer.new) (bytes_in self.now)) }
        ensures err { OnErr result (AppendsBeginning (W.contents writer.old) (W.contents writer.new) (bytes_in self.now)) }
    {
        let count = self.len();
        let mut block = [0u64; BLOCK];
        let end = count / 8 + (count % 8).min(1);
        let mut at = 0;
        while at < end {
            let left = count - 8 * at;
            let next = BLOCK.min((left - 1) / 8 + 1);
            let words = &mut block[..next];
            self.read_words(at, words);
            let mut bytes = [0u8; 8 * BLOCK];
            LittleEndian::write_u64_into(words, &mut bytes[..8 * next]);
            writer.write_all(&bytes[..left.min(8 * next)])?;
            at += next;
        }
        Ok(())
    }

    /// Does nothing at run time. Its contract states that every number of the slice is a byte.
    pub fn holds_bytes(&self)
        ensures { AreBytes (bytes_in self.now) }
    {}
}

// Writes the bytes of words in memory, a block at a time.
fn write_blocks<W: WriteBytes>(writer: &mut W, words: &[u64]) -> Result<(), W::Error>
    ensures ok { OnOk result (Appends (W.contents writer.old) (W.contents writer.new) (le_bytes words.now)) }
    ensures err { OnErr result (AppendsBeginning (W.contents writer.old) (W.contents writer.new) (le_bytes words.now)) }
{
    let mut block = [0u8; 8 * BLOCK];
    let mut at = 0;
    while at < words.len() {
        let next = at + BLOCK.min(words.len() - at);
        let bytes = &mut block[..8 * (next - at)];
        LittleEndian::write_u64_into(&words[at..next], bytes);
        writer.write_all(bytes)?;
        at = next;
    }
    Ok(())
}

// Fills a block with words of bytes, as `read_words`. Reads all words at once but the last.
fn read_bytes(bytes: &[u8], from: usize, block: &mut [u64])
    requires { 8 * (from + length block.old) < length bytes.now + 8 }
    ensures { block.new ≡ map (word bytes.now) (range_with_len from (length block.old)) }
{
    for i in 0..block.len() {
        block[i] = word_or_zeros(bytes, from + i);
    }
}

// The same for elements of any type.
fn read_each<T: Primitive>(items: &[T], from: usize, block: &mut [u64])
    requires short { length (flat_map T.le_bytes items.now) < 2 ^ 64 }
    requires in_range { 8 * (from + length block.old) < length (flat_map T.le_bytes items.now) + 8 }
    ensures { block.new ≡ map (word (flat_map T.le_bytes items.now)) (range_with_len from (length block.old)) }
{
    for i in 0..block.len() {
        block[i] = word_of(items, from + i);
    }
}

fn word_or_zeros(bytes: &[u8], index: usize) -> u64
    requires { 8 * index < length bytes.now }
    ensures { result ≡ word bytes.now index }
{
    if bytes.len() - 8 * index >= 8 {
        word_in_bytes(bytes, index)
    } else {
        word_of(bytes, index)
    }
}

// Returns byte `at` of the elements' bytes, or 0 past their end.
fn byte_of<T: Primitive>(items: &[T], at: usize) -> u8
    ensures { result ≡ slice_index (flat_map T.le_bytes items.now) at }
{
    let size = T::size();
    let index = at / size;
    if index < items.len() {
        items[index].byte(at % size)
    } else {
        0
    }
}

fn word_of<T: Primitive>(items: &[T], index: usize) -> u64
    requires short { length (flat_map T.le_bytes items.now) < 2 ^ 64 }
    requires in_range { 8 * index < length (flat_map T.le_bytes items.now) }
    ensures { result ≡ word (flat_map T.le_bytes items.now) index }
{
    let at = 8 * index;
    u64::from_le_bytes([
        byte_of(items, at),
        byte_of(items, at + 1),
        byte_of(items, at + 2),
        byte_of(items, at + 3),
        byte_of(items, at + 4),
        byte_of(items, at + 5),
        byte_of(items, at + 6),
        byte_of(items, at + 7),
    ])
}

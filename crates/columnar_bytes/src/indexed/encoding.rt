//! Encoding a column as words.
ghost use Rattle.std.specs.Prelude.{[], ◌∷◌, ◌≡◌, ◌++◌, ◌+◌, ◌<◌, ◌≤◌, ◌*◌, ◌^◌, ◌↔◌, length, vec_len, vec_capacity, IsTrue, OnOk, OnErr};
ghost use Rattle.std.specs.List.{flat_map};
ghost use Rattle.columnar_core.specs.Format.{representable, slices_of};
ghost use Rattle.columnar_core.specs.Words.{table_words, slice_words, words};
ghost use Rattle.columnar_core.specs.Bytes.{le_bytes};
ghost use Rattle.columnar_core.specs.Slices.{bytes_in};

use super::lengths::{length_in_words, words_for};
use super::slices::{byte_slice, slice_count};
use columnar_core::byte_slice::ByteSlice;
use columnar_core::bytes::AsBytes;
use columnar_core::fault::EncodeError;
use columnar_core::store::round_up;

// The number of words that are made at once.
const BLOCK: usize = 128;

/// Appends the column's encoding to the store, with offsets counted from the start of the encoding.
///
/// # Requires
/// A representable type.
///
/// # Errors
/// `Length` if and only if the encoding would exceed 2^64 - 1 bytes; `Memory` only if the store's capacity is too small
/// and cannot grow. The words of the store stay.
pub fn encode<'a, S: AsBytes<'a>>(store: &mut Vec<u64>, item: &S) -> Result<(), EncodeError>
    requires { IsTrue (representable S.format) }
    ensures ok { OnOk result (store.new.items ≡ store.old.items ++ words (slices_of (S.content item.now))) }
    ensures err { OnErr result (store.new.items ≡ store.old.items) }
    ensures counted { OnOk result (8 * length (words (slices_of (S.content item.now))) < 2 ^ 64) }
    ensures length { (result ≡ Err EncodeError.Length) ↔ (2 ^ 64 ≤ 8 * length (words (slices_of (S.content item.now)))) }
    ensures memory { result ≡ Err EncodeError.Memory → vec_capacity store.old < vec_len store.old + length (words (slices_of (S.content item.now))) }
{
    let Some(more) = length_in_words(item) else {
        return Err(EncodeError::Length);
    };
    if store.reserve(more).is_err() {
        return Err(EncodeError::Memory);
    }
    append_table(store, item);
    append_slices(store, item);
    Ok(())
}

// Appends the end of each slice; the capacity suffices.
fn append_table<'a, S: AsBytes<'a>>(store: &mut Vec<u64>, item: &S)
    requires representable { IsTrue (representable S.format) }
    requires counted { 8 * length (words (slices_of (S.content item.now))) < 2 ^ 64 }
    requires room { vec_len store.old + length (table_words (slices_of (S.content item.now))) ≤ vec_capacity store.old }
    ensures items { store.new.items ≡ store.old.items ++ table_words (slices_of (S.content item.now)) }
    ensures capacity { vec_capacity store.old ≤ vec_capacity store.new }
{
    let count = slice_count(item);
    let mut start = 8 * (count + 1);
    push_word(store, start as u64);
    for i in 0..count {
        let end = start + byte_slice(item, i).len();
        push_word(store, end as u64);
        start = round_up(end);
    }
}

// Appends the words of each slice; the capacity suffices.
fn append_slices<'a, S: AsBytes<'a>>(store: &mut Vec<u64>, item: &S)
    requires representable { IsTrue (representable S.format) }
    requires room { vec_len store.old + length (flat_map slice_words (slices_of (S.content item.now))) ≤ vec_capacity store.old }
    ensures { store.new.items ≡ store.old.items ++ flat_map slice_words (slices_of (S.content item.now)) }
{
    for i in 0..slice_count(item) {
        append_slice(store, byte_slice(item, i));
    }
}

fn append_slice(store: &mut Vec<u64>, slice: ByteSlice<'_>)
    requires { vec_len store.old + length (slice_words (bytes_in slice)) ≤ vec_capacity store.old }
    ensures items { store.new.items ≡ store.old.items ++ slice_words (bytes_in slice.entry) }
    ensures capacity { vec_capacity store.old ≤ vec_capacity store.new }
{
    match slice.as_words() {
        Some(words) => append_words(store, words),
        None => append_each(store, slice),
    }
}

// Appends the words of a slice that is made of words, all at once.
fn append_words(store: &mut Vec<u64>, words: &[u64])
    requires { vec_len store.old + length (slice_words (le_bytes words.now)) ≤ vec_capacity store.old }
    ensures items { store.new.items ≡ store.old.items ++ slice_words (le_bytes words.now) }
    ensures capacity { vec_capacity store.old ≤ vec_capacity store.new }
{
    append_all(store, words);
}

fn append_all(store: &mut Vec<u64>, words: &[u64])
    requires { vec_len store.old + length words.now ≤ vec_capacity store.old }
    ensures items { store.new.items ≡ store.old.items ++ words.now }
    ensures capacity { vec_capacity store.old ≤ vec_capacity store.new }
{
    match store.extend_from_slice(words) {
        Ok(()) => {}
        Err(_) => unreachable!(),
    }
}

// Appends the words of a slice of other elements, a block at a time.
fn append_each(store: &mut Vec<u64>, slice: ByteSlice<'_>)
    requires { vec_len store.old + length (slice_words (bytes_in slice)) ≤ vec_capacity store.old }
    ensures items { store.new.items ≡ store.old.items ++ slice_words (bytes_in slice.entry) }
    ensures capacity { vec_capacity store.old ≤ vec_capacity store.new }
{
    let count = words_for(slice.len());
    let mut block = [0u64; BLOCK];
    let mut at = 0;
    while at < count {
        let next = at + BLOCK.min(count - at);
        let words = &mut block[..next - at];
        slice.read_words(at, words);
        append_all(store, words);
        at = next;
    }
}

fn push_word(store: &mut Vec<u64>, word: u64)
    requires { vec_len store.old < vec_capacity store.old }
    ensures items { store.new.items ≡ store.old.items ++ word ∷ [] }
    ensures capacity { vec_capacity store.old ≤ vec_capacity store.new }
{
    match store.push(word) {
        Ok(()) => {}
        Err(_) => unreachable!(),
    }
}

//! Words of 64 bits, read by index: a single word, an array, a `Vec`, or a view of one of these.
ghost use Rattle.std.specs.Prelude.{◌≡◌, ℕ, ◌+◌, ◌*◌, ◌^◌, ◌<◌, ◌≤◌, List, [], ◌∷◌, length, slice_index, vec_capacity};
ghost use Rattle.columnar_base.specs.WordViews.{word, words_in, le_bytes, view_bytes, view_words};

use crate::view::{Items, View, element_at, element_in};

/// Words of 64 bits that can be viewed: a single word, an array of two, a `Vec`, or a view of one of these.
pub trait Words {
    // the bytes of the words, lowest first within a word
    ghost bytes: { Self → List ℕ };

    // so many words fit without an allocation
    ghost capacity: { Self → ℕ };

    /// Returns a view of the words; allocates nothing.
    fn words(&self) -> View<'_, u64>
        ensures { view_bytes result ≡ bytes self.now };

    /// Returns the number of bytes, including those of an incomplete last word.
    final fn size(&self) -> usize
        ensures { result ≡ length (bytes self.now) }
    {
        byte_count(self.words())
    }

    /// Returns word `index`.
    ///
    /// # Requires
    /// A whole word at `index`.
    final fn word(&self, index: usize) -> u64
        requires { 8 * index + 8 ≤ length (bytes self.now) }
        ensures { result ≡ word (bytes self.now) index }
    {
        word_at(self.words(), index)
    }
}

impl Words for u64 {
    ghost bytes = { λ n. le_bytes (n ∷ []) };

    ghost capacity = { λ n. 1 };

    fn words(&self) -> View<'_, u64> {
        View::from_slice(std::slice::from_ref(self))
    }
}

impl Words for Vec<u64> {
    ghost bytes = { λ v. le_bytes v.items };

    ghost capacity = { vec_capacity };

    fn words(&self) -> View<'_, u64> {
        View::from_slice(self.as_slice())
    }
}

impl Words for [u64; 2] {
    ghost bytes = { λ words. le_bytes words };

    ghost capacity = { λ words. 2 };

    fn words(&self) -> View<'_, u64> {
        View::from_slice(self)
    }
}

impl<'v> Words for View<'v, u64> {
    ghost bytes = { λ v. view_bytes v };

    ghost capacity = { λ v. 0 };

    fn words(&self) -> View<'_, u64> {
        *self
    }
}

/// Returns the number of bytes of the view, including those of an incomplete last word.
pub fn byte_count(view: View<'_, u64>) -> usize
    ensures { result ≡ length (view_bytes view.entry) }
{
    match view.items() {
        Items::Typed(items) => 8 * items.len(),
        Items::Bytes(bytes) => bytes.len(),
    }
}

/// Returns the number of whole words of the view, always below 2^61.
pub fn word_count(view: View<'_, u64>) -> usize
    ensures count { result ≡ length (view_words view.entry) }
    ensures short { result < 2 ^ 61 }
{
    match view.items() {
        Items::Typed(items) => items.len(),
        Items::Bytes(bytes) => bytes.len() / 8,
    }
}

/// Returns word `index` of the view.
///
/// # Requires
/// A whole word at `index`.
pub fn word_at(view: View<'_, u64>, index: usize) -> u64
    requires { index < length (view_words view) }
    ensures { result ≡ slice_index (view_words view.entry) index }
{
    match view.items() {
        Items::Typed(items) => element_at(items, index),
        Items::Bytes(bytes) => element_in(bytes, index),
    }
}

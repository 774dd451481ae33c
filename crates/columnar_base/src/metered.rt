//! Views of words that record what is read from them.
//!
//! A body that is generic in `L` and receives metered views and a `Tally<L>` can read nothing unrecorded: it has no
//! other access to the words, and it cannot make a tally of that name.
ghost use Rattle.std.specs.Prelude.{◌≡◌, ℕ, ◌<◌, ◌≤◌, ◌+◌, ◌^◌, List, [], ◌∷◌, ◌++◌, length, slice_index};
ghost use Rattle.columnar_base.specs.WordViews.{bit_words, view_bytes, view_words};

use crate::tally::Tally;
use crate::view::View;
use crate::words::{word_at, word_count};
use std::marker::{Model, PhantomData};

/// A list of counts that records each read.
#[derive(Drop)]
pub struct MeteredCounts<'a, L> {
    counts: View<'a, u64>,
    of: PhantomData<L>,
}

impl<'a, L> Model for MeteredCounts<'a, L> {
    ghost use Rattle.std.specs.Prelude.{ℕ, List};
    ghost use Rattle.columnar_base.specs.WordViews.{view_words};

    ghost Value = { List ℕ };

    ghost view = { λ m. view_words m.counts };
}

impl<'a, L> MeteredCounts<'a, L> {
    /// Wraps the counts of the view.
    pub fn new(counts: View<'a, u64>) -> MeteredCounts<'a, L>
        ensures { result ≡ view_words counts.entry }
    {
        MeteredCounts {
            counts,
            of: PhantomData,
        }
    }

    /// Returns the number of counts, always below 2^61.
    pub fn len(&self) -> usize
        ensures count { result ≡ length self.now }
        ensures short { result < 2 ^ 61 }
    {
        word_count(self.counts)
    }

    /// Returns count `index`, and records the read in the tally.
    ///
    /// # Requires
    /// `index` below the number of counts.
    pub fn read(&self, index: usize, tally: &mut Tally<L>) -> u64
        requires { index < length self.now }
        ensures value { result ≡ slice_index self.now index }
        ensures counts { tally.new.counts ≡ tally.old.counts + 1 }
        ensures words { tally.new.words ≡ tally.old.words }
        ensures turns { tally.new.turns ≡ tally.old.turns }
    {
        tally.count();
        word_at(self.counts, index)
    }
}

/// The words of bits: whole words, then the first word of the tail. It records the number of each word that is read.
#[derive(Drop)]
pub struct MeteredWords<'a, L> {
    values: View<'a, u64>,
    tail: View<'a, u64>,
    of: PhantomData<L>,
}

impl<'a, L> Model for MeteredWords<'a, L> {
    ghost use Rattle.std.specs.Prelude.{ℕ, List, ◌<◌, length};
    ghost use Rattle.columnar_base.specs.WordViews.{bit_words, view_bytes, view_words};

    ghost Value = { List ℕ };

    ghost view = { λ m. bit_words (view_bytes m.values) (view_bytes m.tail) };

    ghost invariant = { λ m. 0 < length (view_words m.tail) };
}

impl<'a, L> MeteredWords<'a, L> {
    /// Wraps the words of `values`, followed by the first word of `tail`.
    ///
    /// # Requires
    /// A tail of at least one word.
    pub fn new(values: View<'a, u64>, tail: View<'a, u64>) -> MeteredWords<'a, L>
        requires { 0 < length (view_words tail) }
        ensures { result ≡ bit_words (view_bytes values.entry) (view_bytes tail.entry) }
    {
        MeteredWords {
            values,
            tail,
            of: PhantomData,
        }
    }

    /// Returns the number of words, the tail's included, at most 2^61.
    pub fn len(&self) -> usize
        ensures count { result ≡ length self.now }
        ensures short { result ≤ 2 ^ 61 }
    {
        let values = self.values;
        word_count(values) + 1
    }

    /// Returns word `index`, and records the read in the tally.
    ///
    /// # Requires
    /// `index` below the number of words.
    pub fn read(&self, index: usize, tally: &mut Tally<L>) -> u64
        requires { index < length self.now }
        ensures value { result ≡ slice_index self.now index }
        ensures words { tally.new.words ≡ tally.old.words ++ index ∷ [] }
        ensures counts { tally.new.counts ≡ tally.old.counts }
        ensures turns { tally.new.turns ≡ tally.old.turns }
    {
        tally.word(index as u64);
        word_or_tail(self.values, self.tail, index)
    }

    /// Returns the whole word `at`, and records the read in the tally. It skips the test of `read` for the tail's word.
    ///
    /// # Requires
    /// `at` below the number of whole words.
    pub fn read_whole(&self, at: usize, tally: &mut Tally<L>) -> u64
        requires { at + 1 < length self.now }
        ensures value { result ≡ slice_index self.now at }
        ensures words { tally.new.words ≡ tally.old.words ++ at ∷ [] }
        ensures counts { tally.new.counts ≡ tally.old.counts }
        ensures turns { tally.new.turns ≡ tally.old.turns }
    {
        tally.word(at as u64);
        word_at(self.values, at)
    }
}

/// Returns word `index` of the whole words followed by the tail's first word.
///
/// # Requires
/// A tail of at least one word, and `index` below the number of words.
pub fn word_or_tail(values: View<'_, u64>, tail: View<'_, u64>, index: usize) -> u64
    requires tail { 0 < length (view_words tail) }
    requires in_range { index < length (bit_words (view_bytes values) (view_bytes tail)) }
    ensures { result ≡ slice_index (bit_words (view_bytes values.entry) (view_bytes tail.entry)) index }
{
    if index < word_count(values) {
        word_at(values, index)
    } else {
        word_at(tail, 0)
    }
}

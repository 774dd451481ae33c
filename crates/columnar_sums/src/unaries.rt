//! Offsets in unary: for each offset a clear bit for each unit above the previous offset, then a set bit.
ghost use Rattle.std.specs.Prelude.{◌≡◌, ℕ, ◌+◌, ◌-◌, ◌*◌, ◌/◌, ◌%◌, ◌^◌, ◌<◌, ◌≤◌, [], ◌∷◌, ◌++◌, length, slice_index_or, nat_eq, take, drop, slice_get, Some, true, false, OnOk, OnErr, IfErr, IsOk};
ghost use Rattle.columnar_core.specs.Row.{number};
ghost use Rattle.columnar_core.specs.Elements.{word_row};
ghost use Rattle.columnar_core.specs.Format.{IsSound, Fits, bytes_held};
ghost use Rattle.columnar_core.specs.Bounds.{numbers, rises};
ghost use Rattle.columnar_core.specs.Store.{slices_in};
ghost use Rattle.std.specs.List.{range_with_len};
ghost use Rattle.columnar_base.specs.Digits.{digits};
ghost use Rattle.columnar_core.specs.WordViews.{words_in};
ghost use Rattle.columnar_sums.specs.Counting.{ones, Adds};
ghost use Rattle.columnar_sums.specs.RankColumns.{ranks_format, ranks_content, bits_ranked};
ghost use Rattle.columnar_sums.specs.Unary.{upto};
ghost use Rattle.columnar_sums.specs.UnaryLaws.{unary_bounds};
ghost use Rattle.columnar_sums.specs.UnaryBitLaws.{four};
ghost use Rattle.columnar_sums.specs.UnaryColumns.{unaries_format, unaries_content, unaries_room, all_falses};

mod bytes;
mod ends;
mod grow;
mod packed;

use crate::rank_select::RankSelect;
use columnar_core::bytes::FromBytes;
use columnar_core::offsets::{Offsets, StoredOffsets};
use columnar_core::store::DecodedStore;
use columnar_core::tally::Tally;
use columnar_core::traits::{Column, Index, Len};
use columnar_core::view::View;
use columnar_core::words::Words;
pub use ends::UnaryEnds;
pub(crate) use packed::in_unary;

/// A column of offsets, as the bounds of lists: for each list a clear bit for each item, then a set bit. A list costs
/// one bit, and each of its items one bit. The column is well-formed if its last bit, if any, is set; offsets never
/// fall.
#[derive(Clone, Copy, PartialEq, Drop)]
pub struct Unaries<CC = Vec<u64>, VC = Vec<u64>, WC = [u64; 2]> {
    /// The bits, and the counts for finding them.
    pub bits: RankSelect<CC, VC, WC>,
}

impl<CC: Words, VC: Words, WC: Words> Column for Unaries<CC, VC, WC> {
    ghost format = { unaries_format };

    ghost content = { unaries_content CC.bytes VC.bytes WC.bytes };

    ghost room = { unaries_room CC.capacity VC.capacity CC.bytes VC.bytes WC.bytes };
}

impl<CC: Words, VC: Words, WC: Words> Len for Unaries<CC, VC, WC> {
    /// Computes the length as the rank of the last bit; `RankSelect::rank_tallied` bounds what it reads.
    fn len(&self) -> usize {
        self.bits.rank(self.bits.len())
    }
}

impl<CC: Words, VC: Words, WC: Words> Index for Unaries<CC, VC, WC> {
    type Ref = u64;

    /// Finds the offset by a select; `find_tallied` bounds what it reads.
    fn get(&self, index: usize) -> u64 {
        self.find(index)
    }
}

impl<CC: Words, VC: Words, WC: Words> Unaries<CC, VC, WC> {
    /// Iterates over all offsets in order.
    ///
    /// # Requires
    /// The column is well-formed.
    pub fn ends(&self) -> UnaryEnds<'_, CC, VC, WC>
        requires { IsSound unaries_format (unaries_content CC.bytes VC.bytes WC.bytes self.now) }
        ensures { result ≡ record { left = numbers (unaries_format.rows (unaries_content CC.bytes VC.bytes WC.bytes self.now)); word = 0 } }
    {
        self.ends_tallied(&mut Tally::new())
    }

    /// Does the same as `ends`, and adds the first word, which it loads, to the tally. Takes no step.
    ///
    /// # Requires
    /// The column is well-formed.
    pub fn ends_tallied<L>(&self, tally: &mut Tally<L>) -> UnaryEnds<'_, CC, VC, WC>
        requires { IsSound unaries_format (unaries_content CC.bytes VC.bytes WC.bytes self.now) }
        ensures stands { result ≡ record { left = numbers (unaries_format.rows (unaries_content CC.bytes VC.bytes WC.bytes self.now)); word = 0 } }
        ensures loads { tally.new.words ≡ tally.old.words ++ 0 ∷ [] }
        ensures counts { tally.new.counts ≡ tally.old.counts }
        ensures turns { tally.new.turns ≡ tally.old.turns }
    {
        UnaryEnds::new(&self.bits, tally)
    }

    // Finds offset `index` by a select.
    fn find(&self, index: usize) -> u64
        requires sound { IsSound unaries_format (unaries_content CC.bytes VC.bytes WC.bytes self.now) }
        requires in_range { index < length (unaries_format.rows (unaries_content CC.bytes VC.bytes WC.bytes self.now)) }
        ensures { slice_get (unaries_format.rows (unaries_content CC.bytes VC.bytes WC.bytes self.now)) index ≡ Some (word_row result) }
    {
        self.find_tallied(index, &mut Tally::new())
    }

    /// Does the same as `get`, and adds what it reads to the tally, at most what `RankSelect::select_tallied` reads.
    ///
    /// # Requires
    /// As `get`.
    pub fn find_tallied<L>(&self, index: usize, tally: &mut Tally<L>) -> u64
        requires sound { IsSound unaries_format (unaries_content CC.bytes VC.bytes WC.bytes self.now) }
        requires in_range { index < length (unaries_format.rows (unaries_content CC.bytes VC.bytes WC.bytes self.now)) }
        ensures row { slice_get (unaries_format.rows (unaries_content CC.bytes VC.bytes WC.bytes self.now)) index ≡ Some (word_row result) }
        ensures reads { Adds (digits (length (words_in (CC.bytes self.now.bits.counts))) + 1) 16 tally.old tally.new }
        ensures turns { tally.new.turns ≤ tally.old.turns + (digits (length (words_in (CC.bytes self.now.bits.counts))) + 19) }
    {
        (self.place_of_tallied(index, tally) - index) as u64
    }

    // Finds the offset after the one that is given, from its end.
    fn next_offset(&self, index: usize, before: u64) -> u64
        requires sound { IsSound unaries_format (unaries_content CC.bytes VC.bytes WC.bytes self.now) }
        requires in_range { index < length (unaries_format.rows (unaries_content CC.bytes VC.bytes WC.bytes self.now)) }
        requires before { slice_get (0 ∷ numbers (unaries_format.rows (unaries_content CC.bytes VC.bytes WC.bytes self.now))) index ≡ Some before }
        ensures { slice_get (unaries_format.rows (unaries_content CC.bytes VC.bytes WC.bytes self.now)) index ≡ Some (number result) }
    {
        self.next_offset_tallied(index, before, &mut Tally::new())
    }

    /// Does the same as `offset_after`, and adds to the tally the words that it loads: in order, from that of the end of
    /// the previous offset up to that of its own, with a step from each to the next. It reads no count.
    ///
    /// # Requires
    /// As `offset_after`.
    pub fn next_offset_tallied<L>(&self, index: usize, before: u64, tally: &mut Tally<L>) -> u64
        requires sound { IsSound unaries_format (unaries_content CC.bytes VC.bytes WC.bytes self.now) }
        requires in_range { index < length (unaries_format.rows (unaries_content CC.bytes VC.bytes WC.bytes self.now)) }
        requires before { slice_get (0 ∷ numbers (unaries_format.rows (unaries_content CC.bytes VC.bytes WC.bytes self.now))) index ≡ Some before }
        ensures row { slice_get (unaries_format.rows (unaries_content CC.bytes VC.bytes WC.bytes self.now)) index ≡ Some (number result) }
        ensures loads { tally.new.words ≡ tally.old.words ++ (before + index) / 64 ∷ [] ++ range_with_len ((before + index) / 64 + 1) ((result + index) / 64 - (before + index) / 64) }
        ensures counts { tally.new.counts ≡ tally.old.counts }
        ensures turns { tally.new.turns + (before + index) / 64 ≡ tally.old.turns + (result + index) / 64 }
    {
        match self.bits.next_true_tallied(before as usize + index, tally) {
            Some(place) => (place - index) as u64,
            None => unreachable!(),
        }
    }

    // Returns the position of the set bit of offset `index`, and adds what it reads to the tally.
    fn place_of_tallied<L>(&self, index: usize, tally: &mut Tally<L>) -> usize
        requires sound { IsSound unaries_format (unaries_content CC.bytes VC.bytes WC.bytes self.now) }
        requires in_range { index < length (unaries_format.rows (unaries_content CC.bytes VC.bytes WC.bytes self.now)) }
        ensures set { slice_index_or (bits_ranked VC.bytes WC.bytes self.now.bits) result false ≡ true }
        ensures rank { ones (bits_ranked VC.bytes WC.bytes self.now.bits) result ≡ index }
        ensures reads { Adds (digits (length (words_in (CC.bytes self.now.bits.counts))) + 1) 16 tally.old tally.new }
        ensures turns { tally.new.turns ≤ tally.old.turns + (digits (length (words_in (CC.bytes self.now.bits.counts))) + 19) }
    {
        match self.bits.select_tallied(index as u64, tally) {
            Some(place) => place,
            None => unreachable!(),
        }
    }

    // Returns the number of bits of the first `n` offsets.
    fn cut_end(&self, n: usize) -> usize
        requires sound { IsSound unaries_format (unaries_content CC.bytes VC.bytes WC.bytes self.now) }
        requires in_range { n ≤ length (unaries_format.rows (unaries_content CC.bytes VC.bytes WC.bytes self.now)) }
        ensures { result ≡ upto (bits_ranked VC.bytes WC.bytes self.now.bits) n }
    {
        self.cut_end_tallied(n, &mut Tally::new())
    }

    // Does the same as `cut_end`, and adds what it reads to the tally.
    fn cut_end_tallied<L>(&self, n: usize, tally: &mut Tally<L>) -> usize
        requires sound { IsSound unaries_format (unaries_content CC.bytes VC.bytes WC.bytes self.now) }
        requires in_range { n ≤ length (unaries_format.rows (unaries_content CC.bytes VC.bytes WC.bytes self.now)) }
        ensures value { result ≡ upto (bits_ranked VC.bytes WC.bytes self.now.bits) n }
        ensures reads { Adds (digits (length (words_in (CC.bytes self.now.bits.counts))) + 1) 16 tally.old tally.new }
        ensures turns { tally.new.turns ≤ tally.old.turns + (digits (length (words_in (CC.bytes self.now.bits.counts))) + 19) }
    {
        if n == 0 {
            return 0;
        }
        self.place_of_tallied(n - 1, tally) + 1
    }
}

// Tests whether `end` bits are clear.
fn ends_at<CC: Words, VC: Words, WC: Words, L>(
    bits: &RankSelect<CC, VC, WC>,
    end: u64,
    tally: &mut Tally<L>,
) -> bool
    requires { IsSound ranks_format (ranks_content CC.bytes VC.bytes WC.bytes bits.now) }
    ensures value { result ≡ nat_eq (all_falses (ranks_content CC.bytes VC.bytes WC.bytes bits.now)) end }
    ensures reads { Adds 1 16 tally.old tally.new }
    ensures turns { tally.new.turns ≤ tally.old.turns + 16 }
{
    let len = bits.len();
    (len - bits.rank_tallied(len, tally)) as u64 == end
}

// Does the same as `ends_at` for slices that were accepted.
fn ends_in<L>(store: &DecodedStore<'_>, offset: usize, end: u64, tally: &mut Tally<L>) -> bool
    requires { Fits ranks_format offset (slices_in store.now) }
    ensures value { result ≡ nat_eq (all_falses (ranks_format.build (drop offset (slices_in store.now)))) end }
    ensures turns { tally.new.turns ≤ tally.old.turns + 16 }
{
    let mut at = offset;
    let bits = RankSelect::<View<'_, u64>, View<'_, u64>, View<'_, u64>>::from_store(
        store, &mut at,
    );
    ends_at(&bits, end, tally)
}

impl<CC: Words, VC: Words, WC: Words> Offsets for Unaries<CC, VC, WC> {
    ghost bounds = { unary_bounds ranks_format four };

    fn offset(&self, index: usize) -> u64 {
        self.get(index)
    }

    /// Searches for the next set bit from the end of the previous offset; `next_offset_tallied` says what it reads.
    fn offset_after(&self, index: usize, before: u64) -> u64 {
        self.next_offset(index, before)
    }

    /// Does the same as `rises_to` by one rank.
    fn rises_to_tallied<L>(&self, end: u64, tally: &mut Tally<L>) -> bool
        requires { IsSound unaries_format (unaries_content CC.bytes VC.bytes WC.bytes self.now) }
        ensures value { result ≡ rises 0 (numbers (unaries_format.rows (unaries_content CC.bytes VC.bytes WC.bytes self.now))) «end» }
        ensures turns { tally.new.turns ≤ tally.old.turns + 8 * bytes_held (unaries_content CC.bytes VC.bytes WC.bytes self.now) }
        ensures rank { tally.new.turns ≤ tally.old.turns + 16 }
    {
        ends_at(&self.bits, end, tally)
    }
}

impl<CC: Words, VC: Words, WC: Words> StoredOffsets for Unaries<CC, VC, WC> {
    ghost stored_bounds = { unary_bounds ranks_format four };

    fn rises_in_tallied<L>(
        store: &DecodedStore<'_>,
        offset: usize,
        end: u64,
        tally: &mut Tally<L>,
    ) -> bool {
        ends_in(store, offset, end, tally)
    }
}

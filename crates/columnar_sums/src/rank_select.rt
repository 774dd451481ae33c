//! Bit vectors with counts of set bits, for rank and select.
ghost use Rattle.std.specs.Prelude.{◌≡◌, ℕ, ◌+◌, ◌-◌, ◌*◌, ◌/◌, ◌%◌, ◌^◌, ◌<◌, ◌≤◌, [], ◌∷◌, ◌++◌, length, slice_index, slice_index_or, slice_range, false, true, take, drop, OnOk, OnErr, IfErr, IsOk, IfSome, IfNone, IsNone, Some, None, refl};
ghost use Rattle.columnar_core.specs.Change.{Stayed};
ghost use Rattle.columnar_core.specs.WordViews.{words_in, bit_words, le_bytes};
ghost use Rattle.columnar_bits.specs.BoolColumns.{IsOfGrowth};
ghost use Rattle.columnar_base.specs.Digits.{digits};
ghost use Rattle.columnar_sums.specs.Counting.{ones, place, Adds};
ghost use Rattle.columnar_sums.specs.RankColumns.{ranks_format, ranks_content, bits_ranked, IsRanked, owned_ranks, ranked_bits};
ghost use Rattle.columnar_sums.specs.RankLaws.{ranks_lawful};
ghost use Rattle.columnar_sums.specs.Rooms.{ranks_room};

mod bytes;
mod cursor;
mod grow;
mod search;

pub(crate) use bytes::trues_in;
use columnar_bits::bools::{Bools, bit_at, count_bits};
use columnar_core::fault::GrowError;
use columnar_core::metered::{MeteredCounts, MeteredWords};
use columnar_core::tally::Tally;
use columnar_core::traits::{Column, Index, Len};
use columnar_core::words::Words;
pub use cursor::{Cursor, Cursor as RankSelectCursor};
pub(crate) use grow::counted;
pub use search::select_in_word;
use search::{rank_in, rank_in_words, select_in};

/// A bit vector, with the number of set bits up to the end of each 1,024 bits.
#[derive(Clone, Copy, PartialEq, Drop)]
pub struct RankSelect<CC = Vec<u64>, VC = Vec<u64>, WC = [u64; 2]> {
    /// One count for each complete 1,024 bits: the number of set bits up to their end.
    pub counts: CC,
    /// The bits.
    pub values: Bools<VC, WC>,
}

impl<CC: Words, VC: Words, WC: Words> Column for RankSelect<CC, VC, WC> {
    ghost format = { ranks_format };

    ghost content = { ranks_content CC.bytes VC.bytes WC.bytes };

    ghost room = { ranks_room CC.capacity VC.capacity VC.bytes WC.bytes };
}

impl<CC: Words, VC: Words, WC: Words> Len for RankSelect<CC, VC, WC> {
    fn len(&self) -> usize {
        count_bits(self.values.values.words(), self.values.tail.words())
    }
}

impl<CC: Words, VC: Words, WC: Words> Index for RankSelect<CC, VC, WC> {
    type Ref = bool;

    fn get(&self, index: usize) -> bool {
        bit_at(self.values.values.words(), self.values.tail.words(), index)
    }
}

impl<CC: Words, VC: Words, WC: Words> RankSelect<CC, VC, WC> {
    // Returns the counts, metered.
    pub(crate) fn metered_counts<L>(&self) -> MeteredCounts<'_, L>
        ensures { result ≡ words_in (CC.bytes self.now.counts) }
    {
        MeteredCounts::new(self.counts.words())
    }

    // Returns the words of the bits, metered.
    pub(crate) fn metered_words<L>(&self) -> MeteredWords<'_, L>
        requires { IsRanked CC.bytes VC.bytes WC.bytes self.now }
        ensures { result ≡ bit_words (VC.bytes self.now.values.values) (WC.bytes self.now.values.tail) }
    {
        MeteredWords::new(self.values.values.words(), self.values.tail.words())
    }

    /// Counts the set bits among the first `index`. `select` finds a set bit by its rank.
    ///
    /// # Requires
    /// The column is well-formed, and `index` is at most the number of bits.
    #[tactic(auto, using(crate::specs::CountLaws::place_some))]
    pub fn rank(&self, index: usize) -> usize
        requires ranked { IsRanked CC.bytes VC.bytes WC.bytes self.now }
        requires in_range { index ≤ length (bits_ranked VC.bytes WC.bytes self.now) }
        ensures value { result ≡ ones (bits_ranked VC.bytes WC.bytes self.now) index }
        ensures found_again { slice_index_or (bits_ranked VC.bytes WC.bytes self.now) index false ≡ true → place (bits_ranked VC.bytes WC.bytes self.now) result ≡ Some index }
    {
        self.rank_tallied(index, &mut Tally::new())
    }

    /// Does the same as `rank`, and adds what it reads to the tally: at most one count and 16 words.
    ///
    /// # Requires
    /// As `rank`.
    pub fn rank_tallied<L>(&self, index: usize, tally: &mut Tally<L>) -> usize
        requires ranked { IsRanked CC.bytes VC.bytes WC.bytes self.now }
        requires in_range { index ≤ length (bits_ranked VC.bytes WC.bytes self.now) }
        ensures value { result ≡ ones (bits_ranked VC.bytes WC.bytes self.now) index }
        ensures reads { Adds 1 16 tally.old tally.new }
        ensures some_read { length tally.old.words < length tally.new.words }
        ensures turns { tally.new.turns ≤ tally.old.turns + 16 }
    {
        rank_in(&self.metered_counts(), &self.metered_words(), index, tally)
    }

    /// Does the same as `rank`, but reads only the words since the last count. It is faster than `rank` if positions
    /// are sequential, as when rows are read in order, and slower if they are random.
    ///
    /// # Requires
    /// As `rank`.
    pub fn rank_in_turn(&self, index: usize) -> usize
        requires ranked { IsRanked CC.bytes VC.bytes WC.bytes self.now }
        requires in_range { index ≤ length (bits_ranked VC.bytes WC.bytes self.now) }
        ensures value { result ≡ ones (bits_ranked VC.bytes WC.bytes self.now) index }
        ensures found_again { slice_index_or (bits_ranked VC.bytes WC.bytes self.now) index false ≡ true → place (bits_ranked VC.bytes WC.bytes self.now) result ≡ Some index }
    {
        self.rank_in_turn_tallied(index, &mut Tally::new())
    }

    /// Does the same as `rank_in_turn`, and adds what it reads to the tally: at most one count, the words since the
    /// last position that is a multiple of 1,024, and the word of the position itself.
    ///
    /// # Requires
    /// As `rank`.
    pub fn rank_in_turn_tallied<L>(&self, index: usize, tally: &mut Tally<L>) -> usize
        requires ranked { IsRanked CC.bytes VC.bytes WC.bytes self.now }
        requires in_range { index ≤ length (bits_ranked VC.bytes WC.bytes self.now) }
        ensures value { result ≡ ones (bits_ranked VC.bytes WC.bytes self.now) index }
        ensures reads { Adds 1 (index / 64 % 16 + 1) tally.old tally.new }
        ensures some_read { length tally.old.words < length tally.new.words }
        ensures turns { tally.new.turns ≤ tally.old.turns + index / 64 % 16 }
    {
        rank_in_words(&self.metered_counts(), &self.metered_words(), index, tally)
    }

    // Counts all set bits, and adds what it reads to the tally: no more than `rank_tallied`.
    pub(crate) fn trues_tallied<L>(&self, tally: &mut Tally<L>) -> usize
        requires { IsRanked CC.bytes VC.bytes WC.bytes self.now }
        ensures value { result ≡ ones (bits_ranked VC.bytes WC.bytes self.now) (length (bits_ranked VC.bytes WC.bytes self.now)) }
        ensures reads { Adds 1 16 tally.old tally.new }
        ensures turns { tally.new.turns ≤ tally.old.turns + 16 }
    {
        self.rank_tallied(self.len(), tally)
    }

    /// Returns the position of the set bit that has `rank` set bits before it; `None` if and only if at most `rank`
    /// bits are set.
    ///
    /// # Requires
    /// The column is well-formed.
    pub fn select(&self, rank: u64) -> Option<usize>
        requires { IsRanked CC.bytes VC.bytes WC.bytes self.now }
        ensures value { result ≡ place (bits_ranked VC.bytes WC.bytes self.now) rank }
        ensures set { IfSome result (λ q. (slice_index_or (bits_ranked VC.bytes WC.bytes self.now) q false ≡ true) × (ones (bits_ranked VC.bytes WC.bytes self.now) q ≡ rank)) }
        ensures none { IfNone result (ones (bits_ranked VC.bytes WC.bytes self.now) (length (bits_ranked VC.bytes WC.bytes self.now)) ≤ rank) }
        ensures past { ones (bits_ranked VC.bytes WC.bytes self.now) (length (bits_ranked VC.bytes WC.bytes self.now)) ≤ rank → IsNone result }
    {
        self.select_tallied(rank, &mut Tally::new())
    }

    /// Does the same as `select`, and adds what it reads to the tally: at most 16 words, and one count more than the
    /// number of counts has binary digits. Takes at most 19 more steps than that number has digits.
    ///
    /// # Requires
    /// The column is well-formed.
    pub fn select_tallied<L>(&self, rank: u64, tally: &mut Tally<L>) -> Option<usize>
        requires { IsRanked CC.bytes VC.bytes WC.bytes self.now }
        ensures value { result ≡ place (bits_ranked VC.bytes WC.bytes self.now) rank }
        ensures reads { Adds (digits (length (words_in (CC.bytes self.now.counts))) + 1) 16 tally.old tally.new }
        ensures some_read { length tally.old.words < length tally.new.words }
        ensures turns { tally.new.turns ≤ tally.old.turns + (digits (length (words_in (CC.bytes self.now.counts))) + 19) }
    {
        select_in(&self.metered_counts(), &self.metered_words(), rank, tally)
    }

    /// Creates a cursor before the first bit.
    ///
    /// # Requires
    /// The column is well-formed.
    pub fn cursor(&self) -> Cursor<'_, CC, VC, WC>
        requires { IsRanked CC.bytes VC.bytes WC.bytes self.now }
        ensures { result ≡ record { bits = bits_ranked VC.bytes WC.bytes self.now; pos = 0; word = 0; counts = length (words_in (CC.bytes self.now.counts)) } }
    {
        self.cursor_tallied(&mut Tally::new())
    }

    /// Does the same as `cursor`, and adds word 0, which it loads, to the tally.
    ///
    /// # Requires
    /// The column is well-formed.
    pub fn cursor_tallied<L>(&self, tally: &mut Tally<L>) -> Cursor<'_, CC, VC, WC>
        requires { IsRanked CC.bytes VC.bytes WC.bytes self.now }
        ensures stands { result ≡ record { bits = bits_ranked VC.bytes WC.bytes self.now; pos = 0; word = 0; counts = length (words_in (CC.bytes self.now.counts)) } }
        ensures loads { tally.new.words ≡ tally.old.words ++ 0 ∷ [] }
        ensures counts { tally.new.counts ≡ tally.old.counts }
        ensures turns { tally.new.turns ≡ tally.old.turns }
    {
        Cursor::new(self, tally)
    }
}

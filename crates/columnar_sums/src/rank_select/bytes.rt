//! The slices of bit vectors with counts, and their validation.
ghost use Rattle.std.specs.Prelude.{◌≡◌, ◌+◌, ◌-◌, ◌*◌, ◌^◌, ◌<◌, ◌≤◌, length, refl, true, false, drop};
ghost use Rattle.columnar_sums.specs.Agree.{numbers_eq};
ghost use Rattle.columnar_core.specs.Format.{slice, both, first, moved, Fits};
ghost use Rattle.columnar_core.specs.Store.{slices_in};
ghost use Rattle.columnar_core.specs.Faults.{verdict};
ghost use Rattle.columnar_core.specs.WordViews.{view_bytes, view_words};
ghost use Rattle.columnar_bits.specs.BoolColumns.{bits_in, SoundBools};
ghost use Rattle.columnar_sums.specs.Counting.{counts_of, ones};
ghost use Rattle.columnar_sums.specs.RankColumns.{ranks_broken, ranks_bits, ranks_format};
ghost use Rattle.columnar_sums.specs.RankLaws.{ranks_storable};

use super::RankSelect;
use columnar_bits::bools::{Bools, count_bits, judged};
use columnar_core::byte_slice::ByteSlice;
use columnar_core::bytes::{AsBytes, Check, FromBytes, Stored};
use columnar_core::container::ContainerBytes;
use columnar_core::fault::{GrowError, StoreFault};
use columnar_core::store::DecodedStore;
use columnar_core::tally::Tally;
use columnar_core::two::{byte_slice_of_two, load_two, sizes_of_two, slice_of_two};
use columnar_core::view::View;
use columnar_core::words::{Words, byte_count, word_at, word_count};
use std::alloc::Global;

// Tests that the counts are those of the bits. Takes one step for each chunk and for each of its words. It reads no
// word of the tail, whose bits have no count; the tail occurs only in the contract.
fn counts_right<L>(
    counts: View<'_, u64>,
    values: View<'_, u64>,
    tail: View<'_, u64>,
    tally: &mut Tally<L>,
) -> bool
    requires { SoundBools (view_bytes values) (view_bytes tail) }
    ensures value { result ≡ numbers_eq (view_words counts.entry) (counts_of (bits_in (view_bytes values.entry) (view_bytes tail.entry))) }
    ensures turns { tally.new.turns ≤ tally.old.turns + (length (view_words counts.entry) + length (view_words values.entry)) }
{
    let chunks = word_count(values) / 16;
    if word_count(counts) != chunks {
        return false;
    }
    let mut sum = 0u64;
    for chunk in 0..chunks {
        tally.tick();
        for at in 16 * chunk..16 * chunk + 16 {
            tally.tick();
            sum += word_at(values, at).count_ones() as u64;
        }
        if word_at(counts, chunk) != sum {
            return false;
        }
    }
    true
}

// Returns the first broken rule of the counts, the words and the tail, with slices numbered from `from`.
fn judged_ranks<L>(
    counts: View<'_, u64>,
    values: View<'_, u64>,
    tail: View<'_, u64>,
    from: usize,
    tally: &mut Tally<L>,
) -> Result<(), StoreFault>
    requires { from + 3 < 2 ^ 64 }
    ensures exact { verdict result ≡ first (moved from (ranks_broken (both (slice (view_bytes counts.entry)) (both (slice (view_bytes values.entry)) (slice (view_bytes tail.entry)))))) }
    ensures turns { tally.new.turns ≤ tally.old.turns + 4 * (length (view_bytes counts.entry) + (length (view_bytes values.entry) + length (view_bytes tail.entry))) }
{
    if byte_count(counts) % 8 != 0 {
        return Err(StoreFault::ElementSize(from));
    }
    judged(values, tail, from + 1)?;
    if !counts_right(counts, values, tail, tally) {
        return Err(StoreFault::Counts(from));
    }
    Ok(())
}

// Counts the set bits in slices that were accepted, and adds what it reads to the tally: no more than a rank.
pub(crate) fn trues_in<L>(store: &DecodedStore<'_>, offset: usize, tally: &mut Tally<L>) -> usize
    requires { Fits ranks_format offset (slices_in store.now) }
    ensures value { result ≡ ones (ranks_bits (ranks_format.build (drop offset (slices_in store.now)))) (length (ranks_bits (ranks_format.build (drop offset (slices_in store.now))))) }
    ensures turns { tally.new.turns ≤ tally.old.turns + 16 }
{
    let mut at = offset;
    let bits = RankSelect::<View<'_, u64>, View<'_, u64>, View<'_, u64>>::from_store(
        store, &mut at,
    );
    bits.trues_tallied(tally)
}

impl<CC: Words, VC: Words, WC: Words> Stored for RankSelect<CC, VC, WC> {
    ghost storable = { ranks_storable };

    ghost counted = { λ r. refl };

    fn slice_count() -> usize {
        3
    }

    fn element_sizes(sizes: &mut Vec<usize>) -> Result<(), GrowError> {
        sizes_of_two::<Vec<u64>, Bools<VC, WC>>(sizes)
    }

    fn judge_tallied<L>(
        store: &DecodedStore<'_>,
        offset: usize,
        tally: &mut Tally<L>,
    ) -> Result<(), StoreFault> {
        let counts = View::from_le_bytes(store.get(offset));
        let values = View::from_le_bytes(store.get(offset + 1));
        let tail = View::from_le_bytes(store.get(offset + 2));
        judged_ranks(counts, values, tail, offset, tally)
    }

    fn rows_in(store: &DecodedStore<'_>, offset: usize) -> usize {
        let values = View::from_le_bytes(store.get(offset + 1));
        let tail = View::from_le_bytes(store.get(offset + 2));
        count_bits(values, tail)
    }
}

impl<CC: Words, VC: Words, WC: Words> Check for RankSelect<CC, VC, WC> {
    fn check_from_tallied<L>(&self, from: usize, tally: &mut Tally<L>) -> Result<(), StoreFault> {
        judged_ranks(
            self.counts.words(),
            self.values.values.words(),
            self.values.tail.words(),
            from,
            tally,
        )
    }
}

impl<'s> FromBytes<'s> for RankSelect<View<'s, u64>, View<'s, u64>, View<'s, u64>> {
    fn from_store(store: &DecodedStore<'s>, offset: &mut usize) -> Self {
        let start = *offset;
        *offset = start + 3;
        let counts = View::from_le_bytes(store.get(start));
        let values = View::from_le_bytes(store.get(start + 1));
        let tail = View::from_le_bytes(store.get(start + 2));
        RankSelect {
            counts,
            values: Bools { values, tail },
        }
    }
}

impl<'s> AsBytes<'s> for RankSelect<View<'s, u64>, View<'s, u64>, View<'s, u64>> {
    fn get_byte_slice(&self, index: usize) -> (u64, ByteSlice<'s>) {
        slice_of_two(&self.counts, &self.values, index)
    }
}

/// If an allocation for the bits fails, the counts already copied are dropped.
impl ContainerBytes for RankSelect<Vec<u64>, Vec<u64>, [u64; 2]> {
    fn byte_slice(&self, index: usize) -> ByteSlice<'_> {
        byte_slice_of_two(&self.counts, &self.values, index)
    }

    fn load(alloc: Global, store: &DecodedStore<'_>, offset: usize) -> Result<Self, GrowError> {
        let (counts, values) = load_two::<Vec<u64>, Bools<Vec<u64>, [u64; 2]>>(
            alloc, store, offset,
        )?;
        Ok(RankSelect { counts, values })
    }
}

//! Booleans in byte slices.
ghost use Rattle.std.specs.Prelude.{◌≡◌, ◌+◌, ◌^◌, ◌<◌, length, refl};
ghost use Rattle.columnar_core.specs.Format.{slice, both, first, moved};
ghost use Rattle.columnar_core.specs.Faults.{verdict};
ghost use Rattle.columnar_core.specs.WordViews.{le_bytes, view_bytes};
ghost use Rattle.columnar_bits.specs.BoolColumns.{bools_broken, is_tail};
ghost use Rattle.columnar_bits.specs.BoolLaws.{bools_storable};

use super::{Bools, count_bits, tail_parts};
use columnar_core::byte_slice::ByteSlice;
use columnar_core::bytes::{AsBytes, Check, FromBytes, Stored};
use columnar_core::container::ContainerBytes;
use columnar_core::earlier::Kept;
use columnar_core::fault::{GrowError, StoreFault};
use columnar_core::store::DecodedStore;
use columnar_core::tally::Tally;
use columnar_core::view::{View, element_in};
use columnar_core::words::{Words, byte_count, word_count};
use std::alloc::Global;

// Returns whether the count is below 64, and no bit from it on is set.
fn fits_tail(word: u64, count: u64) -> bool
    ensures { result ≡ is_tail word count }
{
    count < 64 && word >> count == 0
}

/// Validates the words and the tail, with slices counted from `from` on.
///
/// # Requires
/// Slice numbers below 2^64.
///
/// # Errors
/// The first broken rule.
pub fn judged(values: View<'_, u64>, tail: View<'_, u64>, from: usize) -> Result<(), StoreFault>
    requires { from + 2 < 2 ^ 64 }
    ensures { verdict result ≡ first (moved from (bools_broken (both (slice (view_bytes values.entry)) (slice (view_bytes tail.entry))))) }
{
    if byte_count(values) % 8 != 0 {
        return Err(StoreFault::ElementSize(from));
    }
    if byte_count(tail) != 16 {
        return Err(StoreFault::HeadSize(from + 1));
    }
    let (word, count) = tail_parts(tail);
    if !fits_tail(word, count) {
        return Err(StoreFault::TailBits(from));
    }
    if word_count(values) > usize::MAX / 64 {
        return Err(StoreFault::Length(from));
    }
    Ok(())
}

impl<VC: Words, TC: Words> Stored for Bools<VC, TC> {
    ghost storable = { bools_storable };

    ghost counted = { λ b. refl };

    fn slice_count() -> usize {
        2
    }

    fn element_sizes(sizes: &mut Vec<usize>) -> Result<(), GrowError> {
        sizes.extend_from_slice(&[8, 8])?;
        Ok(())
    }

    fn judge_tallied<L>(
        store: &DecodedStore<'_>,
        offset: usize,
        tally: &mut Tally<L>,
    ) -> Result<(), StoreFault> {
        let values = View::from_le_bytes(store.get(offset));
        let tail = View::from_le_bytes(store.get(offset + 1));
        judged(values, tail, offset)
    }

    fn rows_in(store: &DecodedStore<'_>, offset: usize) -> usize {
        let values = View::from_le_bytes(store.get(offset));
        let tail = View::from_le_bytes(store.get(offset + 1));
        count_bits(values, tail)
    }
}

impl<VC: Words, TC: Words> Check for Bools<VC, TC> {
    fn check_from_tallied<L>(&self, from: usize, tally: &mut Tally<L>) -> Result<(), StoreFault> {
        judged(self.values.words(), self.tail.words(), from)
    }
}

impl<'s> FromBytes<'s> for Bools<View<'s, u64>, View<'s, u64>> {
    fn from_store(store: &DecodedStore<'s>, offset: &mut usize) -> Self {
        let start = *offset;
        *offset = start + 2;
        let values = View::from_le_bytes(store.get(start));
        let tail = View::from_le_bytes(store.get(start + 1));
        Bools { values, tail }
    }
}

impl<'s> AsBytes<'s> for Bools<View<'s, u64>, View<'s, u64>> {
    fn get_byte_slice(&self, index: usize) -> (u64, ByteSlice<'s>) {
        let slice = if index == 0 {
            ByteSlice::of_view(self.values)
        } else {
            ByteSlice::of_view(self.tail)
        };
        (slice.align(), slice)
    }
}

// Returns the two words of 16 bytes.
fn two_words(bytes: &[u8]) -> [u64; 2]
    requires { length bytes.now ≡ 16 }
    ensures { le_bytes result ≡ bytes.now }
{
    let word = element_in(bytes, 0);
    let count = element_in(bytes, 1);
    [word, count]
}

impl ContainerBytes for Bools<Vec<u64>, [u64; 2]> {
    fn byte_slice(&self, index: usize) -> ByteSlice<'_> {
        if index == 0 {
            ByteSlice::of_view(self.values.words())
        } else {
            ByteSlice::of_view(self.tail.words())
        }
    }

    fn load(alloc: Global, store: &DecodedStore<'_>, offset: usize) -> Result<Self, GrowError> {
        let values = <Vec<u64> as ContainerBytes>::load(alloc, store, offset)?;
        Ok(Bools {
            values,
            tail: two_words(store.get(offset + 1)),
        })
    }
}

impl Kept for Bools<Vec<u64>, [u64; 2]> {}

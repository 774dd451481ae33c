//! The slices of columns of variants, and their validation.
ghost use Rattle.std.specs.Prelude.{◌≡◌, ◌+◌, ◌-◌, ◌*◌, ◌^◌, ◌<◌, ◌≤◌, ◌&&◌, [], length, refl, slice_index, slice_set};
ghost use Rattle.columnar_sums.specs.Agree.{numbers_eq};
ghost use Rattle.columnar_core.specs.Format.{slice, both, first, moved};
ghost use Rattle.columnar_core.specs.Faults.{verdict};
ghost use Rattle.columnar_core.specs.WordViews.{view_bytes, view_words};
ghost use Rattle.columnar_sums.specs.Discriminants.{discriminant_format, is_mixed, is_common, earlier, has_form};
ghost use Rattle.columnar_sums.specs.DiscriminantLaws.{discriminant_storable};

use super::{Discriminant, Variants, count_rows};
use columnar_core::byte_slice::ByteSlice;
use columnar_core::bytes::{AsBytes, Check, FromBytes, Stored};
use columnar_core::container::ContainerBytes;
use columnar_core::fault::{GrowError, StoreFault};
use columnar_core::store::DecodedStore;
use columnar_core::tally::Tally;
use columnar_core::view::View;
use columnar_core::words::{Words, byte_count, word_at, word_count};
use std::alloc::Global;

// Reads variant `index`.
pub(super) fn variant_at(variants: &[u8], index: usize) -> u8
    requires { index < length variants.now }
    ensures { result ≡ slice_index variants.now index }
{
    variants[index]
}

// Reads how many rows of a variant were counted so far.
fn count_of(counts: &[u64; 256], variant: u8) -> u64
    ensures { result ≡ slice_index counts.now variant }
{
    counts[variant as usize]
}

// Counts one more row of a variant that had `before` rows.
fn count_one(counts: &mut [u64; 256], variant: u8, before: u64)
    requires { before < 2 ^ 64 - 1 }
    ensures { counts.new ≡ slice_set counts.old variant (before + 1) }
{
    counts[variant as usize] = before + 1;
}

// Tests whether two words describe all rows: a variant plus one, and a number of rows.
fn is_common(tag: u64, count: u64) -> bool
    ensures { result ≡ is_common tag count }
{
    tag >= 1 && tag <= 256 && count >= 1
}

// Tests that each offset is the number of earlier rows of its variant, and that two variants differ. Takes one step for
// each row.
fn are_numbered<L>(variants: &[u8], offsets: View<'_, u64>, tally: &mut Tally<L>) -> bool
    requires some { 0 < length variants.now }
    requires level { length variants.now ≡ length (view_words offsets) }
    ensures value { result ≡ (is_mixed variants.now && numbers_eq (view_words offsets.entry) (earlier [] variants.now)) }
    ensures turns { tally.new.turns ≤ tally.old.turns + length variants.now }
{
    let mut counts = [0u64; 256];
    let rows = word_count(offsets);
    for at in 0..rows {
        tally.tick();
        let variant = variant_at(variants, at);
        let offset = word_at(offsets, at);
        if offset != count_of(&counts, variant) {
            return false;
        }
        // The new count is computed from the word just read, so no row waits for the previous row's count.
        count_one(&mut counts, variant, offset);
    }
    count_of(&counts, variant_at(variants, 0)) < rows as u64
}

// Tests whether variants and offsets have one of the three forms. Takes at most one step for each variant.
fn have_form<L>(variants: &[u8], offsets: View<'_, u64>, tally: &mut Tally<L>) -> bool
    ensures value { result ≡ has_form variants.now (view_words offsets.entry) }
    ensures turns { tally.new.turns ≤ tally.old.turns + length variants.now }
{
    let rows = variants.len();
    let words = word_count(offsets);
    if rows > 0 {
        return words == rows && are_numbered(variants, offsets, tally);
    }
    words == 0 || words == 2 && is_common(word_at(offsets, 0), word_at(offsets, 1))
}

// Returns the first broken rule, with slices numbered from `from`.
fn judged_forms<L>(
    variants: &[u8],
    offsets: View<'_, u64>,
    from: usize,
    tally: &mut Tally<L>,
) -> Result<(), StoreFault>
    requires { from + 2 < 2 ^ 64 }
    ensures exact { verdict result ≡ first (moved from (discriminant_format.broken (both (slice variants.now) (slice (view_bytes offsets.entry))))) }
    ensures turns { tally.new.turns ≤ tally.old.turns + 4 * (length variants.now + length (view_bytes offsets.entry)) }
{
    if byte_count(offsets) % 8 != 0 {
        return Err(StoreFault::ElementSize(from + 1));
    }
    if have_form(variants, offsets, tally) {
        Ok(())
    } else {
        Err(StoreFault::Variant(from))
    }
}

impl<CVar: Variants, COff: Words> Stored for Discriminant<CVar, COff> {
    ghost storable = { discriminant_storable };

    ghost counted = { λ d. refl };

    fn slice_count() -> usize {
        2
    }

    fn element_sizes(sizes: &mut Vec<usize>) -> Result<(), GrowError> {
        sizes.extend_from_slice(&[1, 8])?;
        Ok(())
    }

    fn judge_tallied<L>(
        store: &DecodedStore<'_>,
        offset: usize,
        tally: &mut Tally<L>,
    ) -> Result<(), StoreFault> {
        let offsets = View::from_le_bytes(store.get(offset + 1));
        judged_forms(store.get(offset), offsets, offset, tally)
    }

    fn rows_in(store: &DecodedStore<'_>, offset: usize) -> usize {
        let offsets = View::from_le_bytes(store.get(offset + 1));
        count_rows(store.get(offset), offsets)
    }
}

impl<CVar: Variants, COff: Words> Check for Discriminant<CVar, COff> {
    fn check_from_tallied<L>(&self, from: usize, tally: &mut Tally<L>) -> Result<(), StoreFault> {
        judged_forms(self.variant.variants(), self.offset.words(), from, tally)
    }
}

impl<'s> FromBytes<'s> for Discriminant<&'s [u8], View<'s, u64>> {
    fn from_store(store: &DecodedStore<'s>, offset: &mut usize) -> Self {
        let start = *offset;
        *offset = start + 2;
        Discriminant {
            variant: store.get(start),
            offset: View::from_le_bytes(store.get(start + 1)),
        }
    }
}

impl<'s> AsBytes<'s> for Discriminant<&'s [u8], View<'s, u64>> {
    fn get_byte_slice(&self, index: usize) -> (u64, ByteSlice<'s>) {
        let slice = if index == 0 {
            ByteSlice::of_bytes(self.variant)
        } else {
            ByteSlice::of_view(self.offset)
        };
        (slice.align(), slice)
    }
}

/// If the allocation for the offsets fails, the variants already copied are dropped.
impl ContainerBytes for Discriminant<Vec<u8>, Vec<u64>> {
    fn byte_slice(&self, index: usize) -> ByteSlice<'_> {
        if index == 0 {
            ByteSlice::of_bytes(self.variant.variants())
        } else {
            ByteSlice::of_view(self.offset.words())
        }
    }

    fn load(alloc: Global, store: &DecodedStore<'_>, offset: usize) -> Result<Self, GrowError> {
        let variant = Vec::from_slice(alloc, store.get(offset))?;
        let offset = <Vec<u64> as ContainerBytes>::load(alloc, store, offset + 1)?;
        Ok(Discriminant { variant, offset })
    }
}

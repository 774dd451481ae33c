//! The slices of columns of repeats, and their validation.
ghost use Rattle.std.specs.Prelude.{◌≡◌, drop, refl};
ghost use Rattle.columnar_base.specs.Format.{Fits, IsSound, slices_of};
ghost use Rattle.columnar_base.specs.TwoPartsLaws.{two_counted};
ghost use Rattle.columnar_core.specs.Store.{slices_in};
ghost use Rattle.columnar_sums.specs.RankColumns.{ranks_bits, ranks_content, ranks_format};
ghost use Rattle.columnar_lookback.specs.Repeats.{starts_set};
ghost use Rattle.columnar_lookback.specs.RepeatLaws.{repeats_storable};

use super::Repeats;
use columnar_base::fault::{GrowError, StoreFault};
use columnar_base::tally::Tally;
use columnar_base::traits::{Index, Len};
use columnar_base::view::View;
use columnar_core::byte_slice::ByteSlice;
use columnar_core::bytes::{AsBytes, Check, FromBytes, Stored};
use columnar_core::container::ContainerBytes;
use columnar_core::earlier::Kept;
use columnar_core::store::DecodedStore;
use columnar_core::words::Words;
use columnar_sums::option::Options;
use columnar_sums::rank_select::RankSelect;
use std::alloc::Global;

// Tests in slices that were accepted whether the first bit, if any, is set.
fn starts_in(store: &DecodedStore<'_>, offset: usize) -> bool
    requires { Fits ranks_format offset (slices_in store.now) }
    ensures { result ≡ starts_set (ranks_bits (ranks_format.build (drop offset (slices_in store.now)))) }
{
    let mut at = offset;
    let bits = RankSelect::<View<'_, u64>, View<'_, u64>, View<'_, u64>>::from_store(
        store, &mut at,
    );
    is_started(&bits)
}

// Tests whether the first bit, if any, is set.
fn is_started<CC: Words, VC: Words, WC: Words>(bits: &RankSelect<CC, VC, WC>) -> bool
    requires { IsSound ranks_format (ranks_content CC.bytes VC.bytes WC.bytes bits.now) }
    ensures { result ≡ starts_set (ranks_bits (ranks_content CC.bytes VC.bytes WC.bytes bits.now)) }
{
    bits.len() == 0 || bits.get(0)
}

/// Checks the rules of the options, then that the first row, if any, is a value. The last rule is reported as
/// `Lookback`, at the first slice.
impl<TC: Stored, CC: Words, VC: Words, WC: Words> Stored for Repeats<TC, CC, VC, WC> {
    ghost storable = { repeats_storable TC.format TC.storable };

    ghost counted = { λ r. two_counted (slices_of (ranks_content CC.bytes VC.bytes WC.bytes r.inner.indexes)) (slices_of (TC.content r.inner.somes)) refl (TC.counted r.inner.somes) };

    fn slice_count() -> usize {
        Options::<TC, CC, VC, WC>::slice_count()
    }

    fn element_sizes(sizes: &mut Vec<usize>) -> Result<(), GrowError> {
        Options::<TC, CC, VC, WC>::element_sizes(sizes)
    }

    fn judge_tallied<L>(
        store: &DecodedStore<'_>,
        offset: usize,
        tally: &mut Tally<L>,
    ) -> Result<(), StoreFault> {
        Options::<TC, CC, VC, WC>::judge_tallied(store, offset, tally)?;
        if starts_in(store, offset) {
            Ok(())
        } else {
            Err(StoreFault::Lookback(offset))
        }
    }

    fn rows_in(store: &DecodedStore<'_>, offset: usize) -> usize {
        Options::<TC, CC, VC, WC>::rows_in(store, offset)
    }
}

impl<TC: Check + Len, CC: Words, VC: Words, WC: Words> Check for Repeats<TC, CC, VC, WC> {
    fn check_from_tallied<L>(&self, from: usize, tally: &mut Tally<L>) -> Result<(), StoreFault> {
        self.inner.check_from_tallied(from, tally)?;
        if is_started(&self.inner.indexes) {
            Ok(())
        } else {
            Err(StoreFault::Lookback(from))
        }
    }
}

impl<'s, TC: FromBytes<'s>> FromBytes<'s>
    for Repeats<TC, View<'s, u64>, View<'s, u64>, View<'s, u64>> {
    fn from_store(store: &DecodedStore<'s>, offset: &mut usize) -> Self {
        let inner = Options::<TC, View<'s, u64>, View<'s, u64>, View<'s, u64>>::from_store(
            store, offset,
        );
        Repeats { inner }
    }
}

impl<'s, TC: AsBytes<'s>> AsBytes<'s> for Repeats<TC, View<'s, u64>, View<'s, u64>, View<'s, u64>> {
    fn get_byte_slice(&self, index: usize) -> (u64, ByteSlice<'s>) {
        self.inner.get_byte_slice(index)
    }
}

impl<TC: ContainerBytes> ContainerBytes for Repeats<TC, Vec<u64>, Vec<u64>, [u64; 2]> {
    fn byte_slice(&self, index: usize) -> ByteSlice<'_> {
        self.inner.byte_slice(index)
    }

    fn load(alloc: Global, store: &DecodedStore<'_>, offset: usize) -> Result<Self, GrowError> {
        let inner = Options::<TC, Vec<u64>, Vec<u64>, [u64; 2]>::load(alloc, store, offset)?;
        Ok(Repeats { inner })
    }
}

impl<TC: ContainerBytes + Drop> Kept for Repeats<TC, Vec<u64>, Vec<u64>, [u64; 2]> {}

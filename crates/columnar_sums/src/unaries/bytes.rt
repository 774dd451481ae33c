//! The slices of offsets in unary, and their validation.
ghost use Rattle.std.specs.Prelude.{◌≡◌, ◌+◌, ◌<◌, length, drop, true, refl};
ghost use Rattle.columnar_core.specs.Format.{Fits, IsSound};
ghost use Rattle.columnar_core.specs.Store.{slices_in};
ghost use Rattle.columnar_sums.specs.RankColumns.{ranks_format, ranks_bits, ranks_content};
ghost use Rattle.columnar_sums.specs.RankLaws.{ranks_storable};
ghost use Rattle.columnar_sums.specs.Unary.{last_bit};
ghost use Rattle.columnar_sums.specs.UnaryLaws.{unary_storable};

use super::Unaries;
use crate::rank_select::{RankSelect, trues_in};
use columnar_core::byte_slice::ByteSlice;
use columnar_core::bytes::{AsBytes, Check, FromBytes, Stored};
use columnar_core::container::ContainerBytes;
use columnar_core::fault::{GrowError, StoreFault};
use columnar_core::store::DecodedStore;
use columnar_core::tally::Tally;
use columnar_core::traits::{Index, Len};
use columnar_core::view::View;
use columnar_core::words::Words;
use std::alloc::Global;

type Held = RankSelect<Vec<u64>, Vec<u64>, [u64; 2]>;

// Tests whether the last bit, if any, is set.
fn is_ended<CC: Words, VC: Words, WC: Words>(bits: &RankSelect<CC, VC, WC>) -> bool
    requires { IsSound ranks_format (ranks_content CC.bytes VC.bytes WC.bytes bits.now) }
    ensures { result ≡ last_bit true (ranks_bits (ranks_content CC.bytes VC.bytes WC.bytes bits.now)) }
{
    let len = bits.len();
    len == 0 || bits.get(len - 1)
}

// Does the same as `is_ended` for slices that were accepted.
fn ended_in(store: &DecodedStore<'_>, offset: usize) -> bool
    requires { Fits ranks_format offset (slices_in store.now) }
    ensures { result ≡ last_bit true (ranks_bits (ranks_format.build (drop offset (slices_in store.now)))) }
{
    let mut at = offset;
    let bits = RankSelect::<View<'_, u64>, View<'_, u64>, View<'_, u64>>::from_store(
        store, &mut at,
    );
    is_ended(&bits)
}

impl<CC: Words, VC: Words, WC: Words> Stored for Unaries<CC, VC, WC> {
    ghost storable = { unary_storable ranks_format ranks_storable };

    ghost counted = { λ u. refl };

    fn slice_count() -> usize {
        3
    }

    fn element_sizes(sizes: &mut Vec<usize>) -> Result<(), GrowError> {
        RankSelect::<CC, VC, WC>::element_sizes(sizes)
    }

    fn judge_tallied<L>(
        store: &DecodedStore<'_>,
        offset: usize,
        tally: &mut Tally<L>,
    ) -> Result<(), StoreFault> {
        RankSelect::<CC, VC, WC>::judge_tallied(store, offset, tally)?;
        if ended_in(store, offset) {
            Ok(())
        } else {
            Err(StoreFault::Bounds(offset))
        }
    }

    fn rows_in(store: &DecodedStore<'_>, offset: usize) -> usize {
        trues_in(store, offset, &mut Tally::new())
    }
}

impl<CC: Words, VC: Words, WC: Words> Check for Unaries<CC, VC, WC> {
    fn check_from_tallied<L>(&self, from: usize, tally: &mut Tally<L>) -> Result<(), StoreFault> {
        self.bits.check_from_tallied(from, tally)?;
        if is_ended(&self.bits) {
            Ok(())
        } else {
            Err(StoreFault::Bounds(from))
        }
    }
}

impl<'s> FromBytes<'s> for Unaries<View<'s, u64>, View<'s, u64>, View<'s, u64>> {
    fn from_store(store: &DecodedStore<'s>, offset: &mut usize) -> Self {
        let bits = RankSelect::<View<'s, u64>, View<'s, u64>, View<'s, u64>>::from_store(
            store, offset,
        );
        Unaries { bits }
    }
}

impl<'s> AsBytes<'s> for Unaries<View<'s, u64>, View<'s, u64>, View<'s, u64>> {
    fn get_byte_slice(&self, index: usize) -> (u64, ByteSlice<'s>) {
        self.bits.get_byte_slice(index)
    }
}

impl ContainerBytes for Unaries<Vec<u64>, Vec<u64>, [u64; 2]> {
    fn byte_slice(&self, index: usize) -> ByteSlice<'_> {
        self.bits.byte_slice(index)
    }

    fn load(alloc: Global, store: &DecodedStore<'_>, offset: usize) -> Result<Self, GrowError> {
        let bits = Held::load(alloc, store, offset)?;
        Ok(Unaries { bits })
    }
}

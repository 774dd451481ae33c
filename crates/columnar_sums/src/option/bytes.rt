//! The slices of columns of options, and their validation.
ghost use Rattle.std.specs.Prelude.{refl};
ghost use Rattle.columnar_core.specs.Format.{slices_of};
ghost use Rattle.columnar_core.specs.TwoPartsLaws.{two_counted};
ghost use Rattle.columnar_sums.specs.RankColumns.{ranks_content};
ghost use Rattle.columnar_sums.specs.OptionLaws.{options_storable};

use super::Options;
use crate::rank_select::{RankSelect, trues_in};
use columnar_core::byte_slice::ByteSlice;
use columnar_core::bytes::{AsBytes, Check, FromBytes, Stored};
use columnar_core::container::ContainerBytes;
use columnar_core::fault::{GrowError, StoreFault};
use columnar_core::store::DecodedStore;
use columnar_core::tally::Tally;
use columnar_core::traits::Len;
use columnar_core::two::{
    byte_slice_of_two, check_two, judge_two, load_two, sizes_of_two, slice_of_two,
};
use columnar_core::view::View;
use columnar_core::words::Words;
use std::alloc::Global;

type Held = RankSelect<Vec<u64>, Vec<u64>, [u64; 2]>;

/// Checks the rules of the bits and their counts, then those of the values, then that there are as many values as set
/// bits. The last rule is reported as `Parts`, at the first slice.
impl<TC: Stored, CC: Words, VC: Words, WC: Words> Stored for Options<TC, CC, VC, WC> {
    ghost storable = { options_storable TC.format TC.storable };

    ghost counted = { λ o. two_counted (slices_of (ranks_content CC.bytes VC.bytes WC.bytes o.indexes)) (slices_of (TC.content o.somes)) refl (TC.counted o.somes) };

    fn slice_count() -> usize {
        3 + TC::slice_count()
    }

    fn element_sizes(sizes: &mut Vec<usize>) -> Result<(), GrowError> {
        sizes_of_two::<RankSelect<CC, VC, WC>, TC>(sizes)
    }

    fn judge_tallied<L>(
        store: &DecodedStore<'_>,
        offset: usize,
        tally: &mut Tally<L>,
    ) -> Result<(), StoreFault> {
        judge_two::<RankSelect<CC, VC, WC>, TC, L>(store, offset, tally)?;
        let values = TC::rows_in(store, offset + 3);
        if trues_in(store, offset, tally) == values {
            Ok(())
        } else {
            Err(StoreFault::Parts(offset))
        }
    }

    fn rows_in(store: &DecodedStore<'_>, offset: usize) -> usize {
        RankSelect::<CC, VC, WC>::rows_in(store, offset)
    }
}

impl<TC: Check + Len, CC: Words, VC: Words, WC: Words> Check for Options<TC, CC, VC, WC> {
    fn check_from_tallied<L>(&self, from: usize, tally: &mut Tally<L>) -> Result<(), StoreFault> {
        check_two(&self.indexes, &self.somes, from, tally)?;
        let values = self.somes.len();
        if self.indexes.trues_tallied(tally) == values {
            Ok(())
        } else {
            Err(StoreFault::Parts(from))
        }
    }
}

impl<'s, TC: FromBytes<'s>> FromBytes<'s>
    for Options<TC, View<'s, u64>, View<'s, u64>, View<'s, u64>> {
    fn from_store(store: &DecodedStore<'s>, offset: &mut usize) -> Self {
        let indexes = <RankSelect<View<'s, u64>, View<'s, u64>, View<'s, u64>> as FromBytes<
            's,
        >>::from_store(store, offset);
        let somes = TC::from_store(store, offset);
        Options { indexes, somes }
    }
}

impl<'s, TC: AsBytes<'s>> AsBytes<'s> for Options<TC, View<'s, u64>, View<'s, u64>, View<'s, u64>> {
    fn get_byte_slice(&self, index: usize) -> (u64, ByteSlice<'s>) {
        slice_of_two(&self.indexes, &self.somes, index)
    }
}

/// If an allocation for the values fails, the bits already copied are dropped.
impl<TC: ContainerBytes> ContainerBytes for Options<TC, Vec<u64>, Vec<u64>, [u64; 2]> {
    fn byte_slice(&self, index: usize) -> ByteSlice<'_> {
        byte_slice_of_two(&self.indexes, &self.somes, index)
    }

    fn load(alloc: Global, store: &DecodedStore<'_>, offset: usize) -> Result<Self, GrowError> {
        let (indexes, somes) = load_two::<Held, TC>(alloc, store, offset)?;
        Ok(Options { indexes, somes })
    }
}

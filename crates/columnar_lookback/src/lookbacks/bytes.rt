//! The slices of columns of lookbacks, and their validation.
ghost use Rattle.std.specs.Prelude.{◌≡◌, ◌+◌, ◌≤◌, ◌++◌, [], List, length, refl};
ghost use Rattle.columnar_base.specs.Row.{Row};
ghost use Rattle.columnar_base.specs.Format.{IsSound, slices_of};
ghost use Rattle.columnar_base.specs.TwoPartsLaws.{two_counted};
ghost use Rattle.columnar_sums.specs.Counting.{ones};
ghost use Rattle.columnar_sums.specs.RankColumns.{ranks_bits, ranks_content, ranks_format};
ghost use Rattle.columnar_sums.specs.Results.{weave_results, zeros};
ghost use Rattle.columnar_lookback.specs.Recall.{reaches};
ghost use Rattle.columnar_lookback.specs.Lookbacks.{lookbacks_code};
ghost use Rattle.columnar_lookback.specs.LookbackLaws.{lookbacks_storable};

use super::{Distances, Lookbacks};
use columnar_base::fault::{GrowError, StoreFault};
use columnar_base::tally::Tally;
use columnar_base::traits::{Index, IndexAs, Len};
use columnar_base::view::View;
use columnar_core::byte_slice::ByteSlice;
use columnar_core::bytes::{AsBytes, Check, FromBytes, Stored};
use columnar_core::container::ContainerBytes;
use columnar_core::earlier::Kept;
use columnar_core::store::DecodedStore;
use columnar_core::words::Words;
use columnar_sums::rank_select::RankSelect;
use columnar_sums::result::Results;
use columnar_sums::result::bytes::{check_results, judge_results};
use std::alloc::Global;

/// Tests whether each distance is less than the number of values before it. Adds a step for each row to the tally.
///
/// # Requires
/// Well-formed bits, and a distance for each clear bit.
pub fn all_reach<E: IndexAs<u8>, CC: Words, RC: Words, WC: Words, L>(
    bits: &RankSelect<CC, RC, WC>,
    errs: &E,
    tally: &mut Tally<L>,
) -> bool
    requires bits { IsSound ranks_format (ranks_content CC.bytes RC.bytes WC.bytes bits.now) }
    requires errs { IsSound E.format (E.content errs.now) }
    requires level { zeros (ranks_bits (ranks_content CC.bytes RC.bytes WC.bytes bits.now)) (length (ranks_bits (ranks_content CC.bytes RC.bytes WC.bytes bits.now))) ≡ length (E.format.rows (E.content errs.now)) }
    ensures value { (vs : List Row) → ones (ranks_bits (ranks_content CC.bytes RC.bytes WC.bytes bits.now)) (length (ranks_bits (ranks_content CC.bytes RC.bytes WC.bytes bits.now))) ≡ length vs → result ≡ reaches lookbacks_code [] (weave_results (ranks_bits (ranks_content CC.bytes RC.bytes WC.bytes bits.now)) vs (E.format.rows (E.content errs.now))) }
    ensures turns { tally.new.turns ≤ tally.old.turns + length (ranks_bits (ranks_content CC.bytes RC.bytes WC.bytes bits.now)) }
{
    let rows = bits.len();
    let mut values = 0;
    for i in 0..rows {
        tally.tick();
        if bits.get(i) {
            values += 1;
        } else if errs.index_as(i - values) as usize >= values {
            return false;
        }
    }
    true
}

/// Checks the rules of the results, then that each distance is less than the number of values before it. The last rule
/// is reported as `Lookback`, at the first slice.
impl<TC: Stored, VC: Distances, CC: Words, RC: Words, WC: Words, const N: u8> Stored
    for Lookbacks<TC, N, VC, CC, RC, WC> {
    ghost storable = { lookbacks_storable TC.format VC.format TC.storable VC.storable };

    ghost counted = { λ c. two_counted (slices_of (ranks_content CC.bytes RC.bytes WC.bytes c.inner.indexes)) (slices_of (TC.content c.inner.oks) ++ slices_of (VC.content c.inner.errs)) refl (two_counted (slices_of (TC.content c.inner.oks)) (slices_of (VC.content c.inner.errs)) (TC.counted c.inner.oks) (VC.counted c.inner.errs)) };

    fn slice_count() -> usize {
        Results::<TC, VC, CC, RC, WC>::slice_count()
    }

    fn element_sizes(sizes: &mut Vec<usize>) -> Result<(), GrowError> {
        Results::<TC, VC, CC, RC, WC>::element_sizes(sizes)
    }

    fn judge_tallied<L>(
        store: &DecodedStore<'_>,
        offset: usize,
        tally: &mut Tally<L>,
    ) -> Result<(), StoreFault> {
        judge_results::<TC, VC, L>(store, offset, tally)?;
        let mut at = offset;
        let bits = RankSelect::<View<'_, u64>, View<'_, u64>, View<'_, u64>>::from_store(
            store, &mut at,
        );
        let errs = VC::distances_in(store, offset + 3 + TC::slice_count());
        if all_reach(&bits, &errs, tally) {
            Ok(())
        } else {
            Err(StoreFault::Lookback(offset))
        }
    }

    fn rows_in(store: &DecodedStore<'_>, offset: usize) -> usize {
        Results::<TC, VC, CC, RC, WC>::rows_in(store, offset)
    }
}

impl<TC: Check + Len, VC: Check + Distances, CC: Words, RC: Words, WC: Words, const N: u8> Check
    for Lookbacks<TC, N, VC, CC, RC, WC> {
    fn check_from_tallied<L>(&self, from: usize, tally: &mut Tally<L>) -> Result<(), StoreFault> {
        let Results { indexes, oks, errs } = &self.inner;
        check_results(indexes, oks, errs, from, tally)?;
        if all_reach(indexes, errs, tally) {
            Ok(())
        } else {
            Err(StoreFault::Lookback(from))
        }
    }
}

impl<'s, TC: FromBytes<'s>, const N: u8> FromBytes<'s>
    for Lookbacks<TC, N, &'s [u8], View<'s, u64>, View<'s, u64>, View<'s, u64>> {
    fn from_store(store: &DecodedStore<'s>, offset: &mut usize) -> Self {
        let inner = Results::<
            TC,
            &'s [u8],
            View<'s, u64>,
            View<'s, u64>,
            View<'s, u64>,
        >::from_store(store, offset);
        Lookbacks { inner }
    }
}

impl<'s, TC: AsBytes<'s>, const N: u8> AsBytes<'s>
    for Lookbacks<TC, N, &'s [u8], View<'s, u64>, View<'s, u64>, View<'s, u64>> {
    fn get_byte_slice(&self, index: usize) -> (u64, ByteSlice<'s>) {
        self.inner.get_byte_slice(index)
    }
}

impl<TC: ContainerBytes + Drop, const N: u8> ContainerBytes
    for Lookbacks<TC, N, Vec<u8>, Vec<u64>, Vec<u64>, [u64; 2]> {
    fn byte_slice(&self, index: usize) -> ByteSlice<'_> {
        self.inner.byte_slice(index)
    }

    fn load(alloc: Global, store: &DecodedStore<'_>, offset: usize) -> Result<Self, GrowError> {
        let inner = Results::<TC, Vec<u8>, Vec<u64>, Vec<u64>, [u64; 2]>::load(
            alloc, store, offset,
        )?;
        Ok(Lookbacks { inner })
    }
}

impl<TC: ContainerBytes + Drop, const N: u8> Kept
    for Lookbacks<TC, N, Vec<u8>, Vec<u64>, Vec<u64>, [u64; 2]> {}

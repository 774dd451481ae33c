//! The slices of columns of results, and their validation.
ghost use Rattle.std.specs.Prelude.{◌≡◌, ◌+◌, ◌*◌, ◌^◌, ◌<◌, ◌≤◌, ◌++◌, refl, length, drop, IsTrue};
ghost use Rattle.columnar_core.specs.Faults.{verdict};
ghost use Rattle.columnar_core.specs.Format.{both, bytes_held, first, moved, representable, slices_of};
ghost use Rattle.columnar_core.specs.Store.{slices_in};
ghost use Rattle.columnar_core.specs.TwoPartsLaws.{two_counted};
ghost use Rattle.columnar_sums.specs.RankColumns.{ranks_content, ranks_format};
ghost use Rattle.columnar_sums.specs.Results.{results_format};
ghost use Rattle.columnar_sums.specs.ResultLaws.{results_storable};

use super::Results;
use crate::rank_select::{RankSelect, trues_in};
use columnar_core::byte_slice::ByteSlice;
use columnar_core::bytes::{AsBytes, Check, FromBytes, Stored};
use columnar_core::container::ContainerBytes;
use columnar_core::fault::{GrowError, StoreFault};
use columnar_core::store::DecodedStore;
use columnar_core::tally::Tally;
use columnar_core::traits::Len;
use columnar_core::two::{
    byte_slice_of_two, check_two, judge_two, load_two, sizes_of_two, slice_of_two,
};
use columnar_core::view::View;
use columnar_core::words::Words;
use std::alloc::Global;

type Held = RankSelect<Vec<u64>, Vec<u64>, [u64; 2]>;

/// Does the same as `judge_tallied` of `Results`. Its contract also bounds the steps by part: at most 5 for each byte
/// of the bits and their counts, plus the steps that the other parts take.
///
/// # Requires
/// The format is representable, and the store has its slices from `offset` on.
pub fn judge_results<SC: Stored, TC: Stored, L>(
    store: &DecodedStore<'_>,
    offset: usize,
    tally: &mut Tally<L>,
) -> Result<(), StoreFault>
    requires representable { IsTrue (representable (results_format SC.format TC.format)) }
    requires room { offset + (results_format SC.format TC.format).count ≤ length (slices_in store.now) }
    ensures exact { verdict result ≡ first (moved offset ((results_format SC.format TC.format).broken ((results_format SC.format TC.format).build (drop offset (slices_in store.now))))) }
    ensures turns { tally.new.turns ≤ tally.old.turns + (5 * bytes_held (ranks_format.build (drop offset (slices_in store.now))) + (SC.format.turns * bytes_held (SC.format.build (drop (offset + 3) (slices_in store.now))) + TC.format.turns * bytes_held (TC.format.build (drop (offset + 3 + SC.format.count) (slices_in store.now))))) }
{
    Held::judge_tallied(store, offset, tally)?;
    judge_two::<SC, TC, L>(store, offset + 3, tally)?;
    let rows = Held::rows_in(store, offset);
    let oks = SC::rows_in(store, offset + 3);
    let errs = TC::rows_in(store, offset + 3 + SC::slice_count());
    let trues = trues_in(store, offset, tally);
    if trues == oks && rows - trues == errs {
        Ok(())
    } else {
        Err(StoreFault::Parts(offset))
    }
}

/// Does the same as `check_from_tallied` of `Results`, from its parts, with the steps bounded as for `judge_results`.
///
/// # Requires
/// The format is representable, and its slices numbered from `from` stay below 2^64.
pub fn check_results<SC: Check + Len, TC: Check + Len, CC: Words, VC: Words, WC: Words, L>(
    indexes: &RankSelect<CC, VC, WC>,
    oks: &SC,
    errs: &TC,
    from: usize,
    tally: &mut Tally<L>,
) -> Result<(), StoreFault>
    requires representable { IsTrue (representable (results_format SC.format TC.format)) }
    requires counted { from + (results_format SC.format TC.format).count < 2 ^ 64 }
    ensures exact { verdict result ≡ first (moved from ((results_format SC.format TC.format).broken (both (ranks_content CC.bytes VC.bytes WC.bytes indexes.now) (both (SC.content oks.now) (TC.content errs.now))))) }
    ensures turns { tally.new.turns ≤ tally.old.turns + (5 * bytes_held (ranks_content CC.bytes VC.bytes WC.bytes indexes.now) + (SC.format.turns * bytes_held (SC.content oks.now) + TC.format.turns * bytes_held (TC.content errs.now))) }
{
    indexes.check_from_tallied(from, tally)?;
    check_two(oks, errs, from + 3, tally)?;
    let rows = indexes.len();
    let trues = indexes.trues_tallied(tally);
    if trues == oks.len() && rows - trues == errs.len() {
        Ok(())
    } else {
        Err(StoreFault::Parts(from))
    }
}

/// Checks the rules of the bits and their counts, then those of the values, then those of the errors, then that there
/// are as many values as set bits and as many errors as clear bits. The last rule is reported as `Parts`, at the first
/// slice.
impl<SC: Stored, TC: Stored, CC: Words, VC: Words, WC: Words> Stored
    for Results<SC, TC, CC, VC, WC> {
    ghost storable = { results_storable SC.format TC.format SC.storable TC.storable };

    ghost counted = { λ r. two_counted (slices_of (ranks_content CC.bytes VC.bytes WC.bytes r.indexes)) (slices_of (SC.content r.oks) ++ slices_of (TC.content r.errs)) refl (two_counted (slices_of (SC.content r.oks)) (slices_of (TC.content r.errs)) (SC.counted r.oks) (TC.counted r.errs)) };

    fn slice_count() -> usize {
        3 + (SC::slice_count() + TC::slice_count())
    }

    fn element_sizes(sizes: &mut Vec<usize>) -> Result<(), GrowError> {
        let before = sizes.len();
        RankSelect::<CC, VC, WC>::element_sizes(sizes)?;
        match sizes_of_two::<SC, TC>(sizes) {
            Ok(()) => Ok(()),
            Err(error) => {
                sizes.truncate(before);
                Err(error)
            }
        }
    }

    fn judge_tallied<L>(
        store: &DecodedStore<'_>,
        offset: usize,
        tally: &mut Tally<L>,
    ) -> Result<(), StoreFault> {
        judge_results::<SC, TC, L>(store, offset, tally)
    }

    fn rows_in(store: &DecodedStore<'_>, offset: usize) -> usize {
        RankSelect::<CC, VC, WC>::rows_in(store, offset)
    }
}

impl<SC: Check + Len, TC: Check + Len, CC: Words, VC: Words, WC: Words> Check
    for Results<SC, TC, CC, VC, WC> {
    fn check_from_tallied<L>(&self, from: usize, tally: &mut Tally<L>) -> Result<(), StoreFault> {
        check_results(&self.indexes, &self.oks, &self.errs, from, tally)
    }
}

impl<'s, SC: FromBytes<'s>, TC: FromBytes<'s>> FromBytes<'s>
    for Results<SC, TC, View<'s, u64>, View<'s, u64>, View<'s, u64>> {
    fn from_store(store: &DecodedStore<'s>, offset: &mut usize) -> Self {
        let indexes = <RankSelect<View<'s, u64>, View<'s, u64>, View<'s, u64>> as FromBytes<
            's,
        >>::from_store(store, offset);
        let oks = SC::from_store(store, offset);
        let errs = TC::from_store(store, offset);
        Results { indexes, oks, errs }
    }
}

impl<'s, SC: AsBytes<'s>, TC: AsBytes<'s>> AsBytes<'s>
    for Results<SC, TC, View<'s, u64>, View<'s, u64>, View<'s, u64>> {
    fn get_byte_slice(&self, index: usize) -> (u64, ByteSlice<'s>) {
        if index < 3 {
            self.indexes.get_byte_slice(index)
        } else {
            slice_of_two(&self.oks, &self.errs, index - 3)
        }
    }
}

/// If an allocation for a part fails, the parts already copied are dropped.
impl<SC: ContainerBytes + Drop, TC: ContainerBytes> ContainerBytes
    for Results<SC, TC, Vec<u64>, Vec<u64>, [u64; 2]> {
    fn byte_slice(&self, index: usize) -> ByteSlice<'_> {
        if index < 3 {
            self.indexes.byte_slice(index)
        } else {
            byte_slice_of_two(&self.oks, &self.errs, index - 3)
        }
    }

    fn load(alloc: Global, store: &DecodedStore<'_>, offset: usize) -> Result<Self, GrowError> {
        let indexes = Held::load(alloc, store, offset)?;
        let (oks, errs) = load_two::<SC, TC>(alloc, store, offset + 3)?;
        Ok(Results { indexes, oks, errs })
    }
}

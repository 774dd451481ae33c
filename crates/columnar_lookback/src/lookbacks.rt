//! Columns whose rows refer to one of the last values.
ghost use Rattle.std.specs.Prelude.{◌≡◌, ◌<◌, [], drop, length, slice_get, IsTrue};
ghost use Rattle.std.specs.Int.{to_le_bytes, w8};
ghost use Rattle.columnar_base.specs.Elements.{elements, bytes_format};
ghost use Rattle.columnar_base.specs.Numbers.{unsigned_row_of};
ghost use Rattle.columnar_base.specs.Format.{IsSound, Fits, representable};
ghost use Rattle.columnar_core.specs.Store.{slices_in};
ghost use Rattle.columnar_sums.specs.Results.{results_content, results_format, weave_results};
ghost use Rattle.columnar_sums.specs.RankColumns.{ranks_bits, ranks_content};
ghost use Rattle.columnar_lookback.specs.Recall.{latest, recall};
ghost use Rattle.columnar_lookback.specs.Lookbacks.{lookbacks_code, lookbacks_format, nearest, IsPlain};
ghost use Rattle.columnar_lookback.specs.LookbackLaws.{elements_plain};

pub mod bytes;
mod grow;

use crate::same::SameAs;
use columnar_base::traits::{Column, Index, IndexAs, Item, Len};
use columnar_core::bytes::{FromBytes, Stored};
use columnar_core::store::DecodedStore;
use columnar_core::words::Words;
use columnar_sums::result::Results;

/// A column of distances: a `Vec` of bytes, or a slice of them.
pub trait Distances: IndexAs<u8> + Len + Stored {
    /// Returns the distances in the slices from `offset` on, which were accepted.
    ///
    /// # Requires
    /// The format is representable, and the slices from `offset` on were accepted.
    fn distances_in<'s>(store: &DecodedStore<'s>, offset: usize) -> &'s [u8]
        requires representable { IsTrue (representable Self.format) }
        requires fits { Fits Self.format offset (slices_in store.now) }
        ensures { bytes_format.rows (elements (to_le_bytes w8) result.now) ≡ Self.format.rows (Self.format.build (drop offset (slices_in store.now))) };

    ghost plain: { IsPlain Self.format };
}

impl Distances for Vec<u8> {
    ghost plain = { elements_plain 1 1 (unsigned_row_of w8) };

    fn distances_in<'s>(store: &DecodedStore<'s>, offset: usize) -> &'s [u8] {
        let mut at = offset;
        <&'s [u8] as FromBytes<'s>>::from_store(store, &mut at)
    }
}

impl<'v> Distances for &'v [u8] {
    ghost plain = { elements_plain 1 1 (unsigned_row_of w8) };

    fn distances_in<'s>(store: &DecodedStore<'s>, offset: usize) -> &'s [u8]
        requires representable { IsTrue (representable bytes_format) }
        requires fits { Fits bytes_format offset (slices_in store.now) }
        ensures { bytes_format.rows (elements (to_le_bytes w8) result.now) ≡ bytes_format.rows (bytes_format.build (drop offset (slices_in store.now))) }
    {
        Vec::<u8>::distances_in(store, offset)
    }
}

/// A column that stores a row that is the same as one of the last `N` values (`SameAs`) as its distance from the last
/// of them. It stores the least such distance; the row reads as that value.
#[derive(Clone, Copy, PartialEq, Drop)]
pub struct Lookbacks<TC, const N: u8, VC = Vec<u8>, CC = Vec<u64>, RC = Vec<u64>, WC = [u64; 2]> {
    /// For each row its value, or how many of the values before that row follow the one it refers to.
    pub inner: Results<TC, VC, CC, RC, WC>,
}

impl<TC: Column, VC: Column, CC: Words, RC: Words, WC: Words, const N: u8> Column
    for Lookbacks<TC, N, VC, CC, RC, WC> {
    ghost format = { lookbacks_format TC.format VC.format };

    ghost content = { λ c. results_content TC.content VC.content CC.bytes RC.bytes WC.bytes c.inner };

    ghost room = { λ c rs. ⊥ };
}

impl<TC: Column, VC: Column, CC: Words, RC: Words, WC: Words, const N: u8> Lookbacks<
    TC,
    N,
    VC,
    CC,
    RC,
    WC,
> {
    /// Returns the column of results in which the rows are stored: a value, or the distance to an earlier one.
    ///
    /// # Requires
    /// The column is well-formed.
    pub fn into_inner(self) -> Results<TC, VC, CC, RC, WC>
        requires { IsSound (lookbacks_format TC.format VC.format) (results_content TC.content VC.content CC.bytes RC.bytes WC.bytes self.inner) }
        ensures sound { IsSound (results_format TC.format VC.format) (results_content TC.content VC.content CC.bytes RC.bytes WC.bytes result) }
        ensures rows { (lookbacks_format TC.format VC.format).rows (results_content TC.content VC.content CC.bytes RC.bytes WC.bytes self.inner) ≡ recall lookbacks_code [] ((results_format TC.format VC.format).rows (results_content TC.content VC.content CC.bytes RC.bytes WC.bytes result)) }
        ensures inner { result ≡ self.inner }
    {
        self.inner
    }
}

impl<TC: Len, VC: Len, CC: Words, RC: Words, WC: Words, const N: u8> Len
    for Lookbacks<TC, N, VC, CC, RC, WC> {
    fn len(&self) -> usize {
        self.inner.len()
    }
}

impl<TC: Index, VC: Distances, CC: Words, RC: Words, WC: Words, const N: u8> Index
    for Lookbacks<TC, N, VC, CC, RC, WC> {
    type Ref = TC::Ref;

    fn get(&self, index: usize) -> TC::Ref {
        self.inner.oks.get(self.value_index(index))
    }
}

/// Rows are read through a reference if the values are.
impl<'a, TC: Len, VC: Distances, CC: Words, RC: Words, WC: Words, const N: u8> Index
    for &'a Lookbacks<TC, N, VC, CC, RC, WC>
where
    &'a TC: Index,
{
    type Ref = <&'a TC as Index>::Ref;

    fn get(&self, index: usize) -> <&'a TC as Index>::Ref {
        let column: &'a Lookbacks<TC, N, VC, CC, RC, WC> = *self;
        let values: &'a TC = &column.inner.oks;
        values.get(column.value_index(index))
    }
}

impl<TC: Column, VC: Distances, CC: Words, RC: Words, WC: Words, const N: u8> Lookbacks<
    TC,
    N,
    VC,
    CC,
    RC,
    WC,
> {
    // Returns the number of the value that row `index` reads as.
    fn value_index(&self, index: usize) -> usize
        requires sound { IsSound (lookbacks_format TC.format VC.format) (results_content TC.content VC.content CC.bytes RC.bytes WC.bytes self.now.inner) }
        requires in_range { index < length ((lookbacks_format TC.format VC.format).rows (results_content TC.content VC.content CC.bytes RC.bytes WC.bytes self.now.inner)) }
        ensures within { result < length (TC.format.rows (TC.content self.now.inner.oks)) }
        ensures row { slice_get ((lookbacks_format TC.format VC.format).rows (results_content TC.content VC.content CC.bytes RC.bytes WC.bytes self.now.inner)) index ≡ slice_get (TC.format.rows (TC.content self.now.inner.oks)) result }
    {
        let before = self.inner.indexes.rank_in_turn(index);
        if self.inner.indexes.get(index) {
            before
        } else {
            let back = self.inner.errs.index_as(index - before);
            before - 1 - back as usize
        }
    }
}

impl<TC: Len, VC: Distances, CC: Words, RC: Words, WC: Words, const N: u8> Lookbacks<
    TC,
    N,
    VC,
    CC,
    RC,
    WC,
> {
    /// Returns the least distance below `N` at which a value is the same as the item, 0 for the last value; `None` if
    /// none of them is. Allocates nothing.
    ///
    /// # Requires
    /// The column is well-formed, and `item` is valid.
    pub fn distance_to<T: Item>(&self, item: &T) -> Option<u8>
    where
        TC: SameAs<T>,
        requires sound { IsSound (lookbacks_format TC.format VC.format) (results_content TC.content VC.content CC.bytes RC.bytes WC.bytes self.now.inner) }
        requires valid { T.valid item.now }
        ensures { result ≡ nearest TC.format.kin N (latest lookbacks_code [] (weave_results (ranks_bits (ranks_content CC.bytes RC.bytes WC.bytes self.now.inner.indexes)) (TC.format.rows (TC.content self.now.inner.oks)) (VC.format.rows (VC.content self.now.inner.errs)))) (T.meaning item.now) }
    {
        let values = self.inner.oks.len();
        let most = values.min(N as usize);
        for back in 0..most {
            if self.inner.oks.same(values - 1 - back, item) {
                return Some(back as u8);
            }
        }
        None
    }
}

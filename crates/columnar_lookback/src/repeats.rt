//! Columns that store a run of rows once.
ghost use Rattle.std.specs.Prelude.{◌≡◌, ◌<◌, [], length, slice_get};
ghost use Rattle.columnar_base.specs.Format.{both, IsSound};
ghost use Rattle.columnar_sums.specs.Options.{options_format};
ghost use Rattle.columnar_sums.specs.RankColumns.{ranks_content};
ghost use Rattle.columnar_lookback.specs.Recall.{recall};
ghost use Rattle.columnar_lookback.specs.Repeats.{repeats_code, repeats_format, last_is};

mod bytes;
mod grow;

use crate::same::SameAs;
use columnar_base::traits::{Column, Index, Item, Len};
use columnar_core::words::Words;
use columnar_sums::option::Options;

/// A column that stores a run of rows once: a row that is the same as the previous one (`SameAs`) is stored as `None`,
/// and reads as the last value. The first row, if any, is a value.
#[derive(Clone, Copy, PartialEq, Drop)]
pub struct Repeats<TC, CC = Vec<u64>, VC = Vec<u64>, WC = [u64; 2]> {
    /// For each row its value, or `None` if it repeats the last value.
    pub inner: Options<TC, CC, VC, WC>,
}

impl<TC: Column, CC: Words, VC: Words, WC: Words> Column for Repeats<TC, CC, VC, WC> {
    ghost format = { repeats_format TC.format };

    ghost content = { λ r. both (ranks_content CC.bytes VC.bytes WC.bytes r.inner.indexes) (TC.content r.inner.somes) };

    ghost room = { λ c rs. ⊥ };
}

impl<TC: Len, CC: Words, VC: Words, WC: Words> Len for Repeats<TC, CC, VC, WC> {
    fn len(&self) -> usize {
        self.inner.len()
    }
}

impl<TC: Index, CC: Words, VC: Words, WC: Words> Index for Repeats<TC, CC, VC, WC> {
    type Ref = TC::Ref;

    fn get(&self, index: usize) -> TC::Ref {
        self.inner.somes.get(self.value_index(index))
    }
}

/// Rows are read through a reference if the values are.
impl<'a, TC: Len, CC: Words, VC: Words, WC: Words> Index for &'a Repeats<TC, CC, VC, WC>
where
    &'a TC: Index,
{
    type Ref = <&'a TC as Index>::Ref;

    fn get(&self, index: usize) -> <&'a TC as Index>::Ref {
        let column: &'a Repeats<TC, CC, VC, WC> = *self;
        let values: &'a TC = &column.inner.somes;
        values.get(column.value_index(index))
    }
}

impl<TC: Column, CC: Words, VC: Words, WC: Words> Repeats<TC, CC, VC, WC> {
    // Returns the number of the value that row `index` reads as.
    fn value_index(&self, index: usize) -> usize
        requires sound { IsSound (repeats_format TC.format) (both (ranks_content CC.bytes VC.bytes WC.bytes self.now.inner.indexes) (TC.content self.now.inner.somes)) }
        requires in_range { index < length ((repeats_format TC.format).rows (both (ranks_content CC.bytes VC.bytes WC.bytes self.now.inner.indexes) (TC.content self.now.inner.somes))) }
        ensures within { result < length (TC.format.rows (TC.content self.now.inner.somes)) }
        ensures row { slice_get ((repeats_format TC.format).rows (both (ranks_content CC.bytes VC.bytes WC.bytes self.now.inner.indexes) (TC.content self.now.inner.somes))) index ≡ slice_get (TC.format.rows (TC.content self.now.inner.somes)) result }
    {
        let before = self.inner.indexes.rank_in_turn(index);
        if self.inner.indexes.get(index) {
            before
        } else {
            before - 1
        }
    }
}

impl<TC: Column, CC: Words, VC: Words, WC: Words> Repeats<TC, CC, VC, WC> {
    /// Returns the column of options in which the rows are stored: a value at the start of each run, then `None`.
    ///
    /// # Requires
    /// The column is well-formed.
    pub fn into_inner(self) -> Options<TC, CC, VC, WC>
        requires { IsSound (repeats_format TC.format) (both (ranks_content CC.bytes VC.bytes WC.bytes self.inner.indexes) (TC.content self.inner.somes)) }
        ensures sound { IsSound (options_format TC.format) (both (ranks_content CC.bytes VC.bytes WC.bytes result.indexes) (TC.content result.somes)) }
        ensures rows { (repeats_format TC.format).rows (both (ranks_content CC.bytes VC.bytes WC.bytes self.inner.indexes) (TC.content self.inner.somes)) ≡ recall repeats_code [] ((options_format TC.format).rows (both (ranks_content CC.bytes VC.bytes WC.bytes result.indexes) (TC.content result.somes))) }
        ensures inner { result ≡ self.inner }
    {
        self.inner
    }
}

impl<TC: Len, CC: Words, VC: Words, WC: Words> Repeats<TC, CC, VC, WC> {
    /// Tests whether the item is the same as the last row; false if there are no rows.
    ///
    /// # Requires
    /// The column is well-formed, and `item` is valid.
    pub fn is_repeated<T: Item>(&self, item: &T) -> bool
    where
        TC: SameAs<T>,
        requires sound { IsSound (repeats_format TC.format) (both (ranks_content CC.bytes VC.bytes WC.bytes self.now.inner.indexes) (TC.content self.now.inner.somes)) }
        requires valid { T.valid item.now }
        ensures { result ≡ last_is TC.format.kin ((repeats_format TC.format).rows (both (ranks_content CC.bytes VC.bytes WC.bytes self.now.inner.indexes) (TC.content self.now.inner.somes))) (T.meaning item.now) }
    {
        let values = self.inner.somes.len();
        values > 0 && self.inner.somes.same(values - 1, item)
    }
}

//! Columns of optional rows.
ghost use Rattle.std.specs.Prelude.{◌≡◌, ◌↔◌, ◌≤◌, ℕ, IfSome, IsSome, IsTrue, length, map, take};
ghost use Rattle.columnar_core.specs.Row.{some};
ghost use Rattle.columnar_core.specs.Format.{both, IsSound};
ghost use Rattle.columnar_sums.specs.RankColumns.{ranks_content};
ghost use Rattle.columnar_sums.specs.Rooms.{ranks_room, options_room};
ghost use Rattle.columnar_sums.specs.Options.{options_format, somes, AreSome, AreNone};

mod bytes;
mod grow;

use crate::rank_select::RankSelect;
use columnar_core::traits::{Column, Index, Len};
use columnar_core::words::Words;

/// A column of optional rows: a bit for each row, and the values of the rows that have one.
#[derive(Clone, Copy, PartialEq, Drop)]
pub struct Options<TC, CC = Vec<u64>, VC = Vec<u64>, WC = [u64; 2]> {
    /// For each row, whether it has a value.
    pub indexes: RankSelect<CC, VC, WC>,
    /// The values of the rows that have one.
    pub somes: TC,
}

impl<TC: Column, CC: Words, VC: Words, WC: Words> Column for Options<TC, CC, VC, WC> {
    ghost format = { options_format TC.format };

    ghost content = { λ o. both (ranks_content CC.bytes VC.bytes WC.bytes o.indexes) (TC.content o.somes) };

    ghost room = { λ o. options_room (ranks_room CC.capacity VC.capacity VC.bytes WC.bytes o.indexes) (TC.room o.somes) };
}

impl<TC: Len, CC: Words, VC: Words, WC: Words> Len for Options<TC, CC, VC, WC> {
    fn len(&self) -> usize {
        self.indexes.len()
    }
}

impl<TC: Index, CC: Words, VC: Words, WC: Words> Index for Options<TC, CC, VC, WC> {
    type Ref = Option<TC::Ref>;

    fn get(&self, index: usize) -> Option<TC::Ref> {
        if self.indexes.get(index) {
            let at = self.indexes.rank_in_turn(index);
            Some(self.somes.get(at))
        } else {
            None
        }
    }
}

/// Rows are read through a reference if the values are.
impl<'a, TC: Len, CC: Words, VC: Words, WC: Words> Index for &'a Options<TC, CC, VC, WC>
where
    &'a TC: Index,
{
    type Ref = Option<<&'a TC as Index>::Ref>;

    fn get(&self, index: usize) -> Option<<&'a TC as Index>::Ref> {
        let column: &'a Options<TC, CC, VC, WC> = *self;
        if column.indexes.get(index) {
            let at = column.indexes.rank_in_turn(index);
            let values: &'a TC = &column.somes;
            Some(values.get(at))
        } else {
            None
        }
    }
}

impl<TC: Len, CC: Words, VC: Words, WC: Words> Options<TC, CC, VC, WC> {
    /// Tests whether no row has a value.
    ///
    /// # Requires
    /// The column is well-formed.
    pub fn is_all_none(&self) -> bool
        requires { IsSound (options_format TC.format) (both (ranks_content CC.bytes VC.bytes WC.bytes self.now.indexes) (TC.content self.now.somes)) }
        ensures { IsTrue result ↔ AreNone ((options_format TC.format).rows (both (ranks_content CC.bytes VC.bytes WC.bytes self.now.indexes) (TC.content self.now.somes))) }
    {
        self.somes.len() == 0
    }

    /// Counts those of the first `n` rows that have a value.
    ///
    /// # Requires
    /// The column is well-formed, and `n` is at most its length.
    pub fn rank(&self, n: usize) -> usize
        requires sound { IsSound (options_format TC.format) (both (ranks_content CC.bytes VC.bytes WC.bytes self.now.indexes) (TC.content self.now.somes)) }
        requires in_range { n ≤ length ((options_format TC.format).rows (both (ranks_content CC.bytes VC.bytes WC.bytes self.now.indexes) (TC.content self.now.somes))) }
        ensures { result ≡ length (somes (take n ((options_format TC.format).rows (both (ranks_content CC.bytes VC.bytes WC.bytes self.now.indexes) (TC.content self.now.somes))))) }
    {
        self.indexes.rank(n)
    }
}

impl<TC: Column, CC: Words + Drop, VC: Words + Drop, WC: Words + Drop> Options<TC, CC, VC, WC> {
    /// Returns the column of the values that are present, in order.
    ///
    /// # Requires
    /// The column is well-formed.
    pub fn into_somes(self) -> TC
        requires { IsSound (options_format TC.format) (both (ranks_content CC.bytes VC.bytes WC.bytes self.indexes) (TC.content self.somes)) }
        ensures sound { IsSound TC.format (TC.content result) }
        ensures rows { TC.format.rows (TC.content result) ≡ somes ((options_format TC.format).rows (both (ranks_content CC.bytes VC.bytes WC.bytes self.indexes) (TC.content self.somes))) }
        ensures values { result ≡ self.somes }
    {
        let Options { indexes: _, somes } = self;
        somes
    }
}

impl<TC: Len + Drop, CC: Words + Drop, VC: Words + Drop, WC: Words + Drop> Options<TC, CC, VC, WC> {
    /// Returns the column of values if every row has one; `None` if and only if some row has none.
    ///
    /// # Requires
    /// The column is well-formed.
    pub fn try_unwrap(self) -> Option<TC>
        requires { IsSound (options_format TC.format) (both (ranks_content CC.bytes VC.bytes WC.bytes self.indexes) (TC.content self.somes)) }
        ensures exact { IsSome result ↔ AreSome ((options_format TC.format).rows (both (ranks_content CC.bytes VC.bytes WC.bytes self.indexes) (TC.content self.somes))) }
        ensures content { IfSome result (λ c. TC.content c ≡ TC.content self.somes) }
        ensures rows { IfSome result (λ c. (options_format TC.format).rows (both (ranks_content CC.bytes VC.bytes WC.bytes self.indexes) (TC.content self.somes)) ≡ map some (TC.format.rows (TC.content c))) }
    {
        let Options { indexes, somes } = self;
        if indexes.len() == somes.len() {
            Some(somes)
        } else {
            None
        }
    }
}

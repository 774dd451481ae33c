//! Columns of results.
ghost use Rattle.std.specs.Prelude.{◌≡◌, ◌↔◌, ℕ, IfSome, IsSome, map};
ghost use Rattle.columnar_core.specs.Row.{ok, err};
ghost use Rattle.columnar_core.specs.Format.{IsSound};
ghost use Rattle.columnar_sums.specs.Rooms.{ranks_room, results_room};
ghost use Rattle.columnar_sums.specs.Results.{errs, oks, results_format, results_content, AreOks, AreErrs};

pub mod bytes;
mod grow;

use crate::rank_select::RankSelect;
use columnar_core::traits::{Column, Index, Len};
use columnar_core::words::Words;

/// A column of results: a bit for each row, the values of the `Ok` rows, and the errors of the `Err` rows.
#[derive(Clone, Copy, PartialEq, Drop)]
pub struct Results<SC, TC, CC = Vec<u64>, VC = Vec<u64>, WC = [u64; 2]> {
    /// For each row, whether it is `Ok`.
    pub indexes: RankSelect<CC, VC, WC>,
    /// The values of the `Ok` rows.
    pub oks: SC,
    /// The errors of the `Err` rows.
    pub errs: TC,
}

impl<SC: Column, TC: Column, CC: Words, VC: Words, WC: Words> Column
    for Results<SC, TC, CC, VC, WC> {
    ghost format = { results_format SC.format TC.format };

    ghost content = { results_content SC.content TC.content CC.bytes VC.bytes WC.bytes };

    ghost room = { λ r. results_room (ranks_room CC.capacity VC.capacity VC.bytes WC.bytes r.indexes) (SC.room r.oks) (TC.room r.errs) };
}

impl<SC: Len, TC: Len, CC: Words, VC: Words, WC: Words> Len for Results<SC, TC, CC, VC, WC> {
    fn len(&self) -> usize {
        self.indexes.len()
    }
}

impl<SC: Index, TC: Index, CC: Words, VC: Words, WC: Words> Index for Results<SC, TC, CC, VC, WC> {
    type Ref = Result<SC::Ref, TC::Ref>;

    fn get(&self, index: usize) -> Result<SC::Ref, TC::Ref> {
        let at = self.indexes.rank_in_turn(index);
        if self.indexes.get(index) {
            Ok(self.oks.get(at))
        } else {
            Err(self.errs.get(index - at))
        }
    }
}

/// Rows are read through a reference if the values and the errors are.
impl<'a, SC: Len, TC: Len, CC: Words, VC: Words, WC: Words> Index
    for &'a Results<SC, TC, CC, VC, WC>
where
    &'a SC: Index,
    &'a TC: Index,
{
    type Ref = Result<<&'a SC as Index>::Ref, <&'a TC as Index>::Ref>;

    fn get(&self, index: usize) -> Result<<&'a SC as Index>::Ref, <&'a TC as Index>::Ref> {
        let column: &'a Results<SC, TC, CC, VC, WC> = *self;
        let at = column.indexes.rank_in_turn(index);
        if column.indexes.get(index) {
            let oks: &'a SC = &column.oks;
            Ok(oks.get(at))
        } else {
            let errs: &'a TC = &column.errs;
            Err(errs.get(index - at))
        }
    }
}

impl<SC: Column, TC: Column, CC: Words + Drop, VC: Words + Drop, WC: Words + Drop> Results<
    SC,
    TC,
    CC,
    VC,
    WC,
> {
    /// Returns the columns of the values and of the errors, each in order.
    ///
    /// # Requires
    /// The column is well-formed.
    pub fn into_oks_and_errs(self) -> (SC, TC)
        requires { IsSound (results_format SC.format TC.format) (results_content SC.content TC.content CC.bytes VC.bytes WC.bytes self) }
        ensures oks { IsSound SC.format (SC.content result.0) }
        ensures errs { IsSound TC.format (TC.content result.1) }
        ensures ok_rows { SC.format.rows (SC.content result.0) ≡ oks ((results_format SC.format TC.format).rows (results_content SC.content TC.content CC.bytes VC.bytes WC.bytes self)) }
        ensures err_rows { TC.format.rows (TC.content result.1) ≡ errs ((results_format SC.format TC.format).rows (results_content SC.content TC.content CC.bytes VC.bytes WC.bytes self)) }
        ensures parts { result ≡ (self.oks, self.errs) }
    {
        let Results {
            indexes: _,
            oks,
            errs,
        } = self;
        (oks, errs)
    }
}

impl<SC: Len + Drop, TC: Len + Drop, CC: Words + Drop, VC: Words + Drop, WC: Words + Drop> Results<
    SC,
    TC,
    CC,
    VC,
    WC,
> {
    /// Returns the column of values.
    ///
    /// # Requires
    /// The column is well-formed, and every row is `Ok`.
    pub fn unwrap(self) -> SC
        requires sound { IsSound (results_format SC.format TC.format) (results_content SC.content TC.content CC.bytes VC.bytes WC.bytes self) }
        requires oks { AreOks ((results_format SC.format TC.format).rows (results_content SC.content TC.content CC.bytes VC.bytes WC.bytes self)) }
        ensures content { SC.content result ≡ SC.content self.oks }
        ensures rows { (results_format SC.format TC.format).rows (results_content SC.content TC.content CC.bytes VC.bytes WC.bytes self) ≡ map ok (SC.format.rows (SC.content result)) }
    {
        let Results {
            indexes: _,
            oks,
            errs: _,
        } = self;
        oks
    }

    /// Returns the column of errors.
    ///
    /// # Requires
    /// The column is well-formed, and every row is `Err`.
    pub fn unwrap_err(self) -> TC
        requires sound { IsSound (results_format SC.format TC.format) (results_content SC.content TC.content CC.bytes VC.bytes WC.bytes self) }
        requires errs { AreErrs ((results_format SC.format TC.format).rows (results_content SC.content TC.content CC.bytes VC.bytes WC.bytes self)) }
        ensures content { TC.content result ≡ TC.content self.errs }
        ensures rows { (results_format SC.format TC.format).rows (results_content SC.content TC.content CC.bytes VC.bytes WC.bytes self) ≡ map err (TC.format.rows (TC.content result)) }
    {
        let Results {
            indexes: _,
            oks: _,
            errs,
        } = self;
        errs
    }

    /// Returns the column of values if every row is `Ok`; `None` if and only if some row is `Err`.
    ///
    /// # Requires
    /// The column is well-formed.
    pub fn try_unwrap(self) -> Option<SC>
        requires { IsSound (results_format SC.format TC.format) (results_content SC.content TC.content CC.bytes VC.bytes WC.bytes self) }
        ensures exact { IsSome result ↔ AreOks ((results_format SC.format TC.format).rows (results_content SC.content TC.content CC.bytes VC.bytes WC.bytes self)) }
        ensures content { IfSome result (λ c. SC.content c ≡ SC.content self.oks) }
        ensures rows { IfSome result (λ c. (results_format SC.format TC.format).rows (results_content SC.content TC.content CC.bytes VC.bytes WC.bytes self) ≡ map ok (SC.format.rows (SC.content c))) }
    {
        let errors = self.errs.len();
        if errors == 0 {
            Some(self.unwrap())
        } else {
            None
        }
    }

    /// Returns the column of errors if every row is `Err`; `None` if and only if some row is `Ok`.
    ///
    /// # Requires
    /// The column is well-formed.
    pub fn try_unwrap_err(self) -> Option<TC>
        requires { IsSound (results_format SC.format TC.format) (results_content SC.content TC.content CC.bytes VC.bytes WC.bytes self) }
        ensures exact { IsSome result ↔ AreErrs ((results_format SC.format TC.format).rows (results_content SC.content TC.content CC.bytes VC.bytes WC.bytes self)) }
        ensures content { IfSome result (λ c. TC.content c ≡ TC.content self.errs) }
        ensures rows { IfSome result (λ c. (results_format SC.format TC.format).rows (results_content SC.content TC.content CC.bytes VC.bytes WC.bytes self) ≡ map err (TC.format.rows (TC.content c))) }
    {
        let values = self.oks.len();
        if values == 0 {
            Some(self.unwrap_err())
        } else {
            None
        }
    }
}

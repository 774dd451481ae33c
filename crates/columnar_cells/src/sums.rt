//! In-place writes of options and results: an item replaces a row of its own variant.
ghost use Rattle.columnar_cells.specs.Wrote.{option_fits, result_fits};

use crate::set::SetRow;
use columnar_core::traits::{Index, Item};
use columnar_core::words::Words;
use columnar_sums::option::Options;
use columnar_sums::result::Results;

/// `Some` replaces a row that has a value. `None` replaces a row that has none, and changes nothing.
impl<T: Item, TC: SetRow<T>, CC: Words, VC: Words, WC: Words> SetRow<Option<T>>
    for Options<TC, CC, VC, WC> {
    ghost fits = { λ r item. option_fits TC.fits r item };

    fn may_set(&self, index: usize, item: &Option<T>) -> bool {
        match item {
            Some(value) => {
                if self.indexes.get(index) {
                    self.somes.may_set(self.indexes.rank(index), value)
                } else {
                    false
                }
            }
            None => !self.indexes.get(index),
        }
    }

    fn set_row(&mut self, index: usize, item: Option<T>) {
        match item {
            Some(value) => {
                let at = self.indexes.rank(index);
                self.somes.set_row(at, value);
            }
            None => {}
        }
    }
}

/// `Ok` replaces an `Ok` row, `Err` an `Err` row.
impl<S: Item, T: Item, SC: SetRow<S>, TC: SetRow<T>, CC: Words, VC: Words, WC: Words> SetRow<
    Result<S, T>,
> for Results<SC, TC, CC, VC, WC> {
    ghost fits = { λ r item. result_fits SC.fits TC.fits r item };

    fn may_set(&self, index: usize, item: &Result<S, T>) -> bool {
        let at = self.indexes.rank(index);
        let is_ok = self.indexes.get(index);
        match item {
            Ok(value) => {
                if is_ok {
                    self.oks.may_set(at, value)
                } else {
                    false
                }
            }
            Err(error) => {
                if is_ok {
                    false
                } else {
                    self.errs.may_set(index - at, error)
                }
            }
        }
    }

    fn set_row(&mut self, index: usize, item: Result<S, T>) {
        let at = self.indexes.rank(index);
        match item {
            Ok(value) => self.oks.set_row(at, value),
            Err(error) => self.errs.set_row(index - at, error),
        }
    }
}

//! Comparing and hashing booleans, characters, units, durations, references, tuples, options and results as rows.
ghost use Rattle.std.specs.Prelude.{ℕ, [], ◌++◌, ◌≡◌};
ghost use Rattle.std.specs.Hash as fed;
ghost use Rattle.columnar_base.specs.Row.{first_of, second_of};
ghost use Rattle.columnar_rows.specs.RowParts.{truth_of, character_of, seconds_of, nanos_of, option_input, result_input};
ghost use Rattle.columnar_base.specs.Solos.{only_of};

use super::OrderedRow;
use std::cmp::Ordering;
use std::hash::{Hash, Hasher};
use std::time::Duration;

impl OrderedRow for bool {
    ghost row_input = { λ r. fed.bool (truth_of r) };

    fn same_row(&self, other: &Self) -> bool {
        *self == *other
    }

    fn compare_row(&self, other: &Self) -> Ordering {
        let (mine, theirs): (bool, bool) = (*self, *other);
        mine.cmp(&theirs)
    }

    fn hash_row<H: Hasher>(&self, state: &mut H) {
        let mine: bool = *self;
        mine.hash(state);
    }
}

impl OrderedRow for char {
    ghost row_input = { λ r. fed.char (character_of r) };

    fn same_row(&self, other: &Self) -> bool {
        *self == *other
    }

    fn compare_row(&self, other: &Self) -> Ordering {
        let (mine, theirs): (char, char) = (*self, *other);
        mine.cmp(&theirs)
    }

    fn hash_row<H: Hasher>(&self, state: &mut H) {
        let mine: char = *self;
        mine.hash(state);
    }
}

impl OrderedRow for () {
    ghost row_input = { λ r. [] };

    fn same_row(&self, _other: &Self) -> bool {
        true
    }

    fn compare_row(&self, _other: &Self) -> Ordering {
        Ordering::Equal
    }

    fn hash_row<H: Hasher>(&self, _state: &mut H) {}
}

impl<'x, T: OrderedRow> OrderedRow for &'x T {
    ghost row_input = { T.row_input };

    fn same_row(&self, other: &Self) -> bool {
        (**self).same_row(*other)
    }

    fn compare_row(&self, other: &Self) -> Ordering {
        (**self).compare_row(*other)
    }

    fn hash_row<H: Hasher>(&self, state: &mut H) {
        (**self).hash_row(state);
    }
}

impl<A: OrderedRow, B: OrderedRow> OrderedRow for (A, B) {
    ghost row_input = { λ r. A.row_input (first_of r) ++ B.row_input (second_of r) };

    fn same_row(&self, other: &Self) -> bool {
        self.0.same_row(&other.0) && self.1.same_row(&other.1)
    }

    fn compare_row(&self, other: &Self) -> Ordering {
        let first = self.0.compare_row(&other.0);
        first.then(self.1.compare_row(&other.1))
    }

    fn hash_row<H: Hasher>(&self, state: &mut H) {
        self.0.hash_row(state);
        self.1.hash_row(state);
    }
}

impl<T: OrderedRow> OrderedRow for Option<T> {
    ghost row_input = { option_input T.row_input };

    fn same_row(&self, other: &Self) -> bool {
        match (self, other) {
            (Some(mine), Some(theirs)) => mine.same_row(theirs),
            (None, None) => true,
            _ => false,
        }
    }

    fn compare_row(&self, other: &Self) -> Ordering {
        match (self, other) {
            (Some(mine), Some(theirs)) => mine.compare_row(theirs),
            (None, None) => Ordering::Equal,
            (None, Some(_)) => Ordering::Less,
            (Some(_), None) => Ordering::Greater,
        }
    }

    fn hash_row<H: Hasher>(&self, state: &mut H) {
        match self {
            Some(value) => {
                state.write_isize(1);
                value.hash_row(state);
            }
            None => state.write_isize(0),
        }
    }
}

impl<T: OrderedRow, E: OrderedRow> OrderedRow for Result<T, E> {
    ghost row_input = { result_input T.row_input E.row_input };

    fn same_row(&self, other: &Self) -> bool {
        match (self, other) {
            (Ok(mine), Ok(theirs)) => mine.same_row(theirs),
            (Err(mine), Err(theirs)) => mine.same_row(theirs),
            _ => false,
        }
    }

    fn compare_row(&self, other: &Self) -> Ordering {
        match (self, other) {
            (Ok(mine), Ok(theirs)) => mine.compare_row(theirs),
            (Err(mine), Err(theirs)) => mine.compare_row(theirs),
            (Ok(_), Err(_)) => Ordering::Less,
            (Err(_), Ok(_)) => Ordering::Greater,
        }
    }

    fn hash_row<H: Hasher>(&self, state: &mut H) {
        match self {
            Ok(value) => {
                state.write_isize(0);
                value.hash_row(state);
            }
            Err(error) => {
                state.write_isize(1);
                error.hash_row(state);
            }
        }
    }
}

impl<A: OrderedRow> OrderedRow for (A,) {
    ghost row_input = { λ r. A.row_input (only_of r) };

    fn same_row(&self, other: &Self) -> bool {
        self.0.same_row(&other.0)
    }

    fn compare_row(&self, other: &Self) -> Ordering {
        self.0.compare_row(&other.0)
    }

    fn hash_row<H: Hasher>(&self, state: &mut H) {
        self.0.hash_row(state);
    }
}

/// Orders by whole seconds, then by the remaining nanoseconds.
impl OrderedRow for Duration {
    ghost row_input = { λ r. fed.u64 (seconds_of r) ++ fed.u32 (nanos_of r) };

    fn same_row(&self, other: &Self) -> bool {
        self.as_secs() == other.as_secs() && self.subsec_nanos() == other.subsec_nanos()
    }

    fn compare_row(&self, other: &Self) -> Ordering {
        let seconds = self.as_secs().cmp(&other.as_secs());
        seconds.then(self.subsec_nanos().cmp(&other.subsec_nanos()))
    }

    fn hash_row<H: Hasher>(&self, state: &mut H) {
        state.write_u64(self.as_secs());
        state.write_u32(self.subsec_nanos());
    }
}

//! Comparing and hashing numbers as rows.
ghost use Rattle.std.specs.Prelude.{ℕ, ◌≡◌};
ghost use Rattle.std.specs.Hash as fed;
ghost use Rattle.columnar_base.specs.Row.{number_of};
ghost use Rattle.columnar_rows.specs.RowParts.{integer_of};

use super::OrderedRow;
use std::cmp::Ordering;
use std::hash::{Hash, Hasher};
use std::num::Wrapping;

impl OrderedRow for u8 {
    ghost row_input = { λ r. fed.u8 (number_of r) };

    fn same_row(&self, other: &Self) -> bool {
        *self == *other
    }

    fn compare_row(&self, other: &Self) -> Ordering {
        let (mine, theirs): (u8, u8) = (*self, *other);
        mine.cmp(&theirs)
    }

    fn hash_row<H: Hasher>(&self, state: &mut H) {
        let mine: u8 = *self;
        mine.hash(state);
    }
}

impl OrderedRow for u16 {
    ghost row_input = { λ r. fed.u16 (number_of r) };

    fn same_row(&self, other: &Self) -> bool {
        *self == *other
    }

    fn compare_row(&self, other: &Self) -> Ordering {
        let (mine, theirs): (u16, u16) = (*self, *other);
        mine.cmp(&theirs)
    }

    fn hash_row<H: Hasher>(&self, state: &mut H) {
        let mine: u16 = *self;
        mine.hash(state);
    }
}

impl OrderedRow for u32 {
    ghost row_input = { λ r. fed.u32 (number_of r) };

    fn same_row(&self, other: &Self) -> bool {
        *self == *other
    }

    fn compare_row(&self, other: &Self) -> Ordering {
        let (mine, theirs): (u32, u32) = (*self, *other);
        mine.cmp(&theirs)
    }

    fn hash_row<H: Hasher>(&self, state: &mut H) {
        let mine: u32 = *self;
        mine.hash(state);
    }
}

impl OrderedRow for u64 {
    ghost row_input = { λ r. fed.u64 (number_of r) };

    fn same_row(&self, other: &Self) -> bool {
        *self == *other
    }

    fn compare_row(&self, other: &Self) -> Ordering {
        let (mine, theirs): (u64, u64) = (*self, *other);
        mine.cmp(&theirs)
    }

    fn hash_row<H: Hasher>(&self, state: &mut H) {
        let mine: u64 = *self;
        mine.hash(state);
    }
}

impl OrderedRow for u128 {
    ghost row_input = { λ r. fed.u128 (number_of r) };

    fn same_row(&self, other: &Self) -> bool {
        *self == *other
    }

    fn compare_row(&self, other: &Self) -> Ordering {
        let (mine, theirs): (u128, u128) = (*self, *other);
        mine.cmp(&theirs)
    }

    fn hash_row<H: Hasher>(&self, state: &mut H) {
        let mine: u128 = *self;
        mine.hash(state);
    }
}

impl OrderedRow for usize {
    ghost row_input = { λ r. fed.usize (number_of r) };

    fn same_row(&self, other: &Self) -> bool {
        *self == *other
    }

    fn compare_row(&self, other: &Self) -> Ordering {
        let (mine, theirs): (usize, usize) = (*self, *other);
        mine.cmp(&theirs)
    }

    fn hash_row<H: Hasher>(&self, state: &mut H) {
        let mine: usize = *self;
        mine.hash(state);
    }
}

impl OrderedRow for i8 {
    ghost row_input = { λ r. fed.i8 (integer_of r) };

    fn same_row(&self, other: &Self) -> bool {
        *self == *other
    }

    fn compare_row(&self, other: &Self) -> Ordering {
        let (mine, theirs): (i8, i8) = (*self, *other);
        mine.cmp(&theirs)
    }

    fn hash_row<H: Hasher>(&self, state: &mut H) {
        let mine: i8 = *self;
        mine.hash(state);
    }
}

impl OrderedRow for i16 {
    ghost row_input = { λ r. fed.i16 (integer_of r) };

    fn same_row(&self, other: &Self) -> bool {
        *self == *other
    }

    fn compare_row(&self, other: &Self) -> Ordering {
        let (mine, theirs): (i16, i16) = (*self, *other);
        mine.cmp(&theirs)
    }

    fn hash_row<H: Hasher>(&self, state: &mut H) {
        let mine: i16 = *self;
        mine.hash(state);
    }
}

impl OrderedRow for i32 {
    ghost row_input = { λ r. fed.i32 (integer_of r) };

    fn same_row(&self, other: &Self) -> bool {
        *self == *other
    }

    fn compare_row(&self, other: &Self) -> Ordering {
        let (mine, theirs): (i32, i32) = (*self, *other);
        mine.cmp(&theirs)
    }

    fn hash_row<H: Hasher>(&self, state: &mut H) {
        let mine: i32 = *self;
        mine.hash(state);
    }
}

impl OrderedRow for i64 {
    ghost row_input = { λ r. fed.i64 (integer_of r) };

    fn same_row(&self, other: &Self) -> bool {
        *self == *other
    }

    fn compare_row(&self, other: &Self) -> Ordering {
        let (mine, theirs): (i64, i64) = (*self, *other);
        mine.cmp(&theirs)
    }

    fn hash_row<H: Hasher>(&self, state: &mut H) {
        let mine: i64 = *self;
        mine.hash(state);
    }
}

impl OrderedRow for i128 {
    ghost row_input = { λ r. fed.i128 (integer_of r) };

    fn same_row(&self, other: &Self) -> bool {
        *self == *other
    }

    fn compare_row(&self, other: &Self) -> Ordering {
        let (mine, theirs): (i128, i128) = (*self, *other);
        mine.cmp(&theirs)
    }

    fn hash_row<H: Hasher>(&self, state: &mut H) {
        let mine: i128 = *self;
        mine.hash(state);
    }
}

impl OrderedRow for isize {
    ghost row_input = { λ r. fed.isize (integer_of r) };

    fn same_row(&self, other: &Self) -> bool {
        *self == *other
    }

    fn compare_row(&self, other: &Self) -> Ordering {
        let (mine, theirs): (isize, isize) = (*self, *other);
        mine.cmp(&theirs)
    }

    fn hash_row<H: Hasher>(&self, state: &mut H) {
        let mine: isize = *self;
        mine.hash(state);
    }
}

impl<T: OrderedRow> OrderedRow for Wrapping<T> {
    ghost row_input = { T.row_input };

    fn same_row(&self, other: &Self) -> bool {
        self.0.same_row(&other.0)
    }

    fn compare_row(&self, other: &Self) -> Ordering {
        self.0.compare_row(&other.0)
    }

    fn hash_row<H: Hasher>(&self, state: &mut H) {
        self.0.hash_row(state);
    }
}

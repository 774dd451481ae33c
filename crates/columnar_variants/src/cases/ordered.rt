//! The order, equality and hash of rows of one of several variants.
ghost use Rattle.std.specs.Prelude.{◌≡◌, ℕ, List};
ghost use Rattle.columnar_core.specs.Row.{Row};
ghost use Rattle.columnar_variants.specs.NthOrders.{last_input, nth_input};

use super::{Cases, Last, Nth};
use columnar_core::ordered::OrderedRow;
use std::cmp::Ordering;
use std::hash::Hasher;

/// Rows of the one variant compare by their values.
impl<C: OrderedRow> OrderedRow for Last<C> {
    ghost row_input = { last_input C.row_input };

    fn same_row(&self, other: &Self) -> bool {
        self.0.same_row(&other.0)
    }

    fn compare_row(&self, other: &Self) -> Ordering {
        self.0.compare_row(&other.0)
    }

    fn hash_row<H: Hasher>(&self, state: &mut H) {
        self.0.hash_row(state);
    }
}

/// Rows compare by their variants first, an earlier variant before a later one. Rows of one variant compare by their values.
/// A hasher gets 0 and the value, or 1 and then what a row of the other variants feeds.
impl<A: OrderedRow, B: Cases + OrderedRow> OrderedRow for Nth<A, B> {
    ghost row_input = { nth_input A.row_input B.row_input };

    fn same_row(&self, other: &Self) -> bool {
        match (self, other) {
            (Nth::This(mine), Nth::This(theirs)) => mine.same_row(theirs),
            (Nth::Next(mine), Nth::Next(theirs)) => mine.same_row(theirs),
            _ => false,
        }
    }

    fn compare_row(&self, other: &Self) -> Ordering {
        match (self, other) {
            (Nth::This(mine), Nth::This(theirs)) => mine.compare_row(theirs),
            (Nth::Next(mine), Nth::Next(theirs)) => mine.compare_row(theirs),
            (Nth::This(_), Nth::Next(_)) => Ordering::Less,
            (Nth::Next(_), Nth::This(_)) => Ordering::Greater,
        }
    }

    fn hash_row<H: Hasher>(&self, state: &mut H) {
        match self {
            Nth::This(value) => {
                state.write_isize(0);
                value.hash_row(state);
            }
            Nth::Next(others) => {
                state.write_isize(1);
                others.hash_row(state);
            }
        }
    }
}

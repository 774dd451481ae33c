//! Comparing and hashing slices and arrays as rows.
ghost use Rattle.std.specs.Prelude.{ℕ, ◌≡◌, map, fold};
ghost use Rattle.std.specs.Hash as fed;
ghost use Rattle.columnar_base.specs.Row.{items_of};
ghost use Rattle.columnar_base.specs.SameRows.{same_rows};
ghost use Rattle.columnar_rows.specs.RowOrder.{rows_cmp};

use super::OrderedRow;
use columnar_base::element::ArrayItem;
use std::cmp::Ordering;
use std::hash::Hasher;

// Returns whether the items are equal as rows, in order.
fn same_items<T: OrderedRow>(left: &[T], right: &[T]) -> bool
    ensures { result ≡ same_rows (map T.Item.meaning left.now) (map T.Item.meaning right.now) }
{
    let count = left.len();
    if count != right.len() {
        return false;
    }
    for i in 0..count {
        if !left[i].same_row(&right[i]) {
            return false;
        }
    }
    true
}

// Compares the items as rows: the first unequal pair decides, otherwise the lengths.
fn compare_items<T: OrderedRow>(left: &[T], right: &[T]) -> Ordering
    ensures { result ≡ rows_cmp (map T.Item.meaning left.now) (map T.Item.meaning right.now) }
{
    for i in 0..left.len().min(right.len()) {
        let found = left[i].compare_row(&right[i]);
        if found.is_ne() {
            return found;
        }
    }
    left.len().cmp(&right.len())
}

// Feeds the number of items, then each item as a row to the hasher.
fn hash_items<T: OrderedRow, H: Hasher>(items: &[T], state: &mut H)
    ensures { state.new ≡ fold H.write state.old (fed.slice T.row_input (map T.Item.meaning items.now)) }
{
    let count = items.len();
    state.write_usize(count);
    for i in 0..count {
        items[i].hash_row(state);
    }
}

impl<'x, T: OrderedRow> OrderedRow for &'x [T] {
    ghost row_input = { λ r. fed.slice T.row_input (items_of r) };

    fn same_row(&self, other: &Self) -> bool {
        same_items(*self, *other)
    }

    fn compare_row(&self, other: &Self) -> Ordering {
        compare_items(*self, *other)
    }

    fn hash_row<H: Hasher>(&self, state: &mut H) {
        hash_items(*self, state);
    }
}

impl<T: ArrayItem + OrderedRow, const N: usize> OrderedRow for [T; N] {
    ghost row_input = { λ r. fed.slice T.row_input (items_of r) };

    fn same_row(&self, other: &Self) -> bool {
        same_items(self.as_slice(), other.as_slice())
    }

    fn compare_row(&self, other: &Self) -> Ordering {
        compare_items(self.as_slice(), other.as_slice())
    }

    fn hash_row<H: Hasher>(&self, state: &mut H) {
        hash_items(self.as_slice(), state);
    }
}

//! Comparing and hashing rows by their meaning.
ghost use Rattle.std.specs.Prelude.{◌≡◌, ℕ, List, map, fold};
ghost use Rattle.std.specs.Hash as fed;
ghost use Rattle.std.specs.Ordering.{is_eq};
ghost use Rattle.columnar_base.specs.Row.{Row, row_eq};
ghost use Rattle.columnar_rows.specs.RowOrder.{row_cmp, rows_cmp};
ghost use Rattle.columnar_base.specs.SameRows.{same_rows};
ghost use Rattle.columnar_base.specs.Format.{IsSound};

use columnar_base::traits::{Index, Item, Len};
use std::cmp::Ordering;
use std::hash::{Hash, Hasher};

mod floats;
mod numbers;
mod parts;
mod slices;
mod tuples;

/// A row that is compared with rows of its type and hashed, by its meaning only.
pub trait OrderedRow: Item {
    // the writes with which a row feeds a hasher
    ghost row_input: { Row → List (List ℕ) };

    /// Returns whether both represent equal rows.
    fn same_row(&self, other: &Self) -> bool
        ensures { result ≡ row_eq (Self.meaning self.now) (Self.meaning other.now) };

    /// Compares the two as rows.
    fn compare_row(&self, other: &Self) -> Ordering
        ensures { result ≡ row_cmp (Self.meaning self.now) (Self.meaning other.now) };

    /// Feeds the row to the hasher.
    fn hash_row<H: Hasher>(&self, state: &mut H)
        ensures { state.new ≡ fold H.write state.old (row_input (Self.meaning self.now)) };
}

/// Returns whether two columns have equal rows in the same order.
///
/// # Requires
/// Well-formed columns.
pub fn same_rows_of<S: Index<Ref: OrderedRow> + Len>(left: &S, right: &S) -> bool
    requires left_sound { IsSound S.format (S.content left.now) }
    requires right_sound { IsSound S.format (S.content right.now) }
    ensures { result ≡ same_rows (S.format.rows (S.content left.now)) (S.format.rows (S.content right.now)) }
{
    let count = left.len();
    if count != right.len() {
        return false;
    }
    for i in 0..count {
        if !left.get(i).same_row(&right.get(i)) {
            return false;
        }
    }
    true
}

/// Returns whether the rows of a column equal the items, in order.
///
/// # Requires
/// A well-formed column.
pub fn same_rows_as<S: Index<Ref: OrderedRow> + Len>(column: &S, items: &[S::Ref]) -> bool
    requires { IsSound S.format (S.content column.now) }
    ensures { result ≡ same_rows (S.format.rows (S.content column.now)) (map S.Ref.meaning items.now) }
{
    let count = column.len();
    if count != items.len() {
        return false;
    }
    for i in 0..count {
        if !column.get(i).same_row(&items[i]) {
            return false;
        }
    }
    true
}

/// Compares the rows of two columns lexicographically: the first unequal pair decides, otherwise the lengths.
///
/// # Requires
/// Well-formed columns.
pub fn compare_rows_of<S: Index<Ref: OrderedRow> + Len>(left: &S, right: &S) -> Ordering
    requires left_sound { IsSound S.format (S.content left.now) }
    requires right_sound { IsSound S.format (S.content right.now) }
    ensures { result ≡ rows_cmp (S.format.rows (S.content left.now)) (S.format.rows (S.content right.now)) }
{
    let left_count = left.len();
    let right_count = right.len();
    for i in 0..left_count.min(right_count) {
        let found = left.get(i).compare_row(&right.get(i));
        if found.is_ne() {
            return found;
        }
    }
    left_count.cmp(&right_count)
}

/// Feeds the number of rows, then each row of a column to the hasher.
///
/// # Requires
/// A well-formed column.
pub fn hash_rows_of<S: Index<Ref: OrderedRow> + Len, H: Hasher>(column: &S, state: &mut H)
    requires { IsSound S.format (S.content column.now) }
    ensures { state.new ≡ fold H.write state.old (fed.slice S.Ref.row_input (S.format.rows (S.content column.now))) }
{
    let count = column.len();
    state.write_usize(count);
    for i in 0..count {
        column.get(i).hash_row(state);
    }
}

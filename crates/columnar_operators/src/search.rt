//! Searches columns that are in order, by halves.
ghost use Rattle.std.specs.Prelude.{◌≡◌, ◌+◌, ◌≤◌, ◌↔◌, Bool, true, false, length, IsTrue, IsSorted};
ghost use Rattle.std.specs.List.Sorted.{IsPartitionedBy, IsPartitionPoint};
ghost use Rattle.std.specs.Ordering.{is_lt, is_gt};
ghost use Rattle.columnar_base.specs.Digits.{digits};
ghost use Rattle.columnar_base.specs.Row.{Row};
ghost use Rattle.columnar_base.specs.Format.{IsSound};
ghost use Rattle.columnar_rows.specs.RowOrder.{row_cmp};
ghost use Rattle.columnar_operators.specs.Searches.{AnswersBy};

use columnar_base::tally::Tally;
use columnar_base::traits::{Index, Len};
use columnar_rows::ordered::OrderedRow;

/// Answers whether no row is less than the one before it.
pub fn is_sorted_rows<S: Index<Ref: OrderedRow> + Len>(column: &S) -> bool
    requires { IsSound S.format (S.content column.now) }
    ensures { IsTrue result ↔ IsSorted row_cmp (S.format.rows (S.content column.now)) }
{
    for i in 1..column.len() {
        if column.get(i).compare_row(&column.get(i - 1)).is_lt() {
            return false;
        }
    }
    true
}

/// Counts the rows that pass the test, in a column whose rows that pass come before those that do not. It reads at most
/// as many rows as the number of rows has binary digits.
pub fn partition_point<S: Index + Len, P: FnMut(S::Ref) -> bool>(column: &S, pred: P) -> usize
    requires sound { IsSound S.format (S.content column.now) }
    requires callable { (state : P) (row : _) → S.Ref.valid row → P.pre state row }
    ensures bound { result ≤ length (S.format.rows (S.content column.now)) }
    ensures partitioned { (p : Row → Bool) → AnswersBy P.FnMut S.Ref.meaning p pred → IsPartitionedBy p (S.format.rows (S.content column.now)) → IsPartitionPoint (λ r. p r ≡ true) (λ r. p r ≡ false) (S.format.rows (S.content column.now)) result }
{
    partition_point_tallied(column, pred, &mut Tally::new())
}

/// As `partition_point`; it takes a turn for each row that it reads.
pub fn partition_point_tallied<S: Index + Len, P: FnMut(S::Ref) -> bool, L>(
    column: &S,
    mut pred: P,
    tally: &mut Tally<L>,
) -> usize
    requires sound { IsSound S.format (S.content column.now) }
    requires callable { (state : P) (row : _) → S.Ref.valid row → P.pre state row }
    ensures bound { result ≤ length (S.format.rows (S.content column.now)) }
    ensures partitioned { (p : Row → Bool) → AnswersBy P.FnMut S.Ref.meaning p pred → IsPartitionedBy p (S.format.rows (S.content column.now)) → IsPartitionPoint (λ r. p r ≡ true) (λ r. p r ≡ false) (S.format.rows (S.content column.now)) result }
    ensures turns { tally.new.turns ≤ tally.old.turns + digits (length (S.format.rows (S.content column.now))) }
{
    let mut start = 0;
    let mut end = column.len();
    while start < end {
        tally.tick();
        let middle = start + (end - start) / 2;
        if pred(column.get(middle)) {
            start = middle + 1;
        } else {
            end = middle;
        }
    }
    start
}

/// Counts the rows that are less than the key, in a column that is in order: the number of the first row that is not less,
/// if there is one. It reads at most as many rows as the number of rows has binary digits.
pub fn lower_bound<S: Index<Ref: OrderedRow> + Len>(column: &S, key: &S::Ref) -> usize
    requires { IsSound S.format (S.content column.now) }
    ensures bound { result ≤ length (S.format.rows (S.content column.now)) }
    ensures found { IsSorted row_cmp (S.format.rows (S.content column.now)) → IsPartitionPoint (λ r. is_lt (row_cmp r (S.Ref.meaning key.now)) ≡ true) (λ r. is_lt (row_cmp r (S.Ref.meaning key.now)) ≡ false) (S.format.rows (S.content column.now)) result }
{
    lower_bound_tallied(column, key, &mut Tally::new())
}

/// As `lower_bound`; it takes a turn for each row that it reads.
pub fn lower_bound_tallied<S: Index<Ref: OrderedRow> + Len, L>(
    column: &S,
    key: &S::Ref,
    tally: &mut Tally<L>,
) -> usize
    requires { IsSound S.format (S.content column.now) }
    ensures bound { result ≤ length (S.format.rows (S.content column.now)) }
    ensures found { IsSorted row_cmp (S.format.rows (S.content column.now)) → IsPartitionPoint (λ r. is_lt (row_cmp r (S.Ref.meaning key.now)) ≡ true) (λ r. is_lt (row_cmp r (S.Ref.meaning key.now)) ≡ false) (S.format.rows (S.content column.now)) result }
    ensures turns { tally.new.turns ≤ tally.old.turns + digits (length (S.format.rows (S.content column.now))) }
{
    partition_point_tallied(column, |row| row.compare_row(key).is_lt(), tally)
}

/// Counts the rows that are not greater than the key, in a column that is in order: the number of the first row that is
/// greater, if there is one. It reads at most as many rows as the number of rows has binary digits.
pub fn upper_bound<S: Index<Ref: OrderedRow> + Len>(column: &S, key: &S::Ref) -> usize
    requires { IsSound S.format (S.content column.now) }
    ensures bound { result ≤ length (S.format.rows (S.content column.now)) }
    ensures found { IsSorted row_cmp (S.format.rows (S.content column.now)) → IsPartitionPoint (λ r. is_gt (row_cmp r (S.Ref.meaning key.now)) ≡ false) (λ r. is_gt (row_cmp r (S.Ref.meaning key.now)) ≡ true) (S.format.rows (S.content column.now)) result }
{
    upper_bound_tallied(column, key, &mut Tally::new())
}

/// As `upper_bound`; it takes a turn for each row that it reads.
pub fn upper_bound_tallied<S: Index<Ref: OrderedRow> + Len, L>(
    column: &S,
    key: &S::Ref,
    tally: &mut Tally<L>,
) -> usize
    requires { IsSound S.format (S.content column.now) }
    ensures bound { result ≤ length (S.format.rows (S.content column.now)) }
    ensures found { IsSorted row_cmp (S.format.rows (S.content column.now)) → IsPartitionPoint (λ r. is_gt (row_cmp r (S.Ref.meaning key.now)) ≡ false) (λ r. is_gt (row_cmp r (S.Ref.meaning key.now)) ≡ true) (S.format.rows (S.content column.now)) result }
    ensures turns { tally.new.turns ≤ tally.old.turns + digits (length (S.format.rows (S.content column.now))) }
{
    partition_point_tallied(column, |row| !row.compare_row(key).is_gt(), tally)
}

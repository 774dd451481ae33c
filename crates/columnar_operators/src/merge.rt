//! Merges two columns.
ghost use Rattle.std.specs.Prelude.{◌≡◌, ◌-◌, ◌<◌, ◌≤◌, ◌++◌, length, take, drop, true, false, OnOk, IfErr};
ghost use Rattle.std.specs.Ordering.{is_lt};
ghost use Rattle.columnar_base.specs.Format.{IsSound};
ghost use Rattle.columnar_base.specs.Change.{Took, Refused};
ghost use Rattle.columnar_base.specs.Room.{WasFull, Leaves};
ghost use Rattle.columnar_rows.specs.RowOrder.{row_cmp};
ghost use Rattle.columnar_operators.specs.Merged.{merged};
ghost use Rattle.columnar_operators.specs.Partly.{Partly};
ghost use Rattle.columnar_operators.specs.Picks.{row_at};

use crate::runs::copy_run;
use columnar_base::fault::GrowError;
use columnar_base::traits::{Index, Len};
use columnar_core::container::ExtendFrom;
use columnar_rows::ordered::OrderedRow;

/// Appends the rows of both views: at each step the lesser of the two next rows, and the row of `one` if they are equal.
/// If both views are in order, so are the appended rows.
///
/// # Errors
/// The error of `extend_from_self`, if the column cannot take the rows; it keeps none of them then. `Memory` only if it has
/// no room for them.
pub fn merge<V: Index<Ref: OrderedRow> + Len + Copy, C: ExtendFrom<V>>(
    column: &mut C,
    one: V,
    other: V,
) -> Result<(), GrowError>
    requires sound { IsSound C.format (C.content column.old) }
    requires one_sound { IsSound V.format (V.content one) }
    requires other_sound { IsSound V.format (V.content other) }
    ensures ok { OnOk result (Took C.format (C.content column.old) (C.content column.new) (merged (V.format.rows (V.content one)) (V.format.rows (V.content other)))) }
    ensures err { IfErr result (λ e. Refused C.format (C.content column.old) (C.content column.new) (merged (V.format.rows (V.content one)) (V.format.rows (V.content other))) e) }
    ensures wanted { IfErr result (WasFull (C.room column.old) (merged (V.format.rows (V.content one)) (V.format.rows (V.content other)))) }
    ensures left { OnOk result (Leaves (C.room column.old) (C.room column.new) (merged (V.format.rows (V.content one)) (V.format.rows (V.content other)))) }
{
    let before = column.len();
    let taken = merge_runs(column, one, other);
    if taken.is_err() {
        column.truncate(before);
    }
    taken
}

// The same, run by run; after a refusal the runs before it are there.
fn merge_runs<V: Index<Ref: OrderedRow> + Len + Copy, C: ExtendFrom<V>>(
    column: &mut C,
    one: V,
    other: V,
) -> Result<(), GrowError>
    requires sound { IsSound C.format (C.content column.old) }
    requires one_sound { IsSound V.format (V.content one) }
    requires other_sound { IsSound V.format (V.content other) }
    ensures ok { OnOk result (Took C.format (C.content column.old) (C.content column.new) (merged (V.format.rows (V.content one)) (V.format.rows (V.content other)))) }
    ensures err { IfErr result (λ e. Partly C.format (C.room column.old) (C.content column.old) (C.content column.new) (merged (V.format.rows (V.content one)) (V.format.rows (V.content other))) e) }
    ensures left { OnOk result (Leaves (C.room column.old) (C.room column.new) (merged (V.format.rows (V.content one)) (V.format.rows (V.content other)))) }
{
    let count = one.len();
    let mut i = 0;
    let mut j = 0;
    while i < count {
        let end = end_of_first(&one, i, &other, j);
        copy_run(column, one, i..end)?;
        i = end;
        let end = end_of_second(&one, i, &other, j);
        copy_run(column, other, j..end)?;
        j = end;
    }
    copy_run(column, other, j..other.len())
}

// The first row of `one` from `i` on that comes after row `j` of `other`, or the end.
fn end_of_first<V: Index<Ref: OrderedRow> + Len>(one: &V, i: usize, other: &V, j: usize) -> usize
    requires one_sound { IsSound V.format (V.content one.now) }
    requires other_sound { IsSound V.format (V.content other.now) }
    requires one_place { i ≤ length (V.format.rows (V.content one.now)) }
    requires other_place { j ≤ length (V.format.rows (V.content other.now)) }
    ensures ordered { i ≤ result }
    ensures in_range { result ≤ length (V.format.rows (V.content one.now)) }
    ensures merged { merged (drop i (V.format.rows (V.content one.now))) (drop j (V.format.rows (V.content other.now))) ≡ take (result - i) (drop i (V.format.rows (V.content one.now))) ++ merged (drop result (V.format.rows (V.content one.now))) (drop j (V.format.rows (V.content other.now))) }
    ensures stops { result < length (V.format.rows (V.content one.now)) → (j < length (V.format.rows (V.content other.now))) × (is_lt (row_cmp (row_at (V.format.rows (V.content other.now)) j) (row_at (V.format.rows (V.content one.now)) result)) ≡ true) }
{
    let count = one.len();
    if j == other.len() {
        return count;
    }
    let bound = other.get(j);
    for end in i..count {
        if bound.compare_row(&one.get(end)).is_lt() {
            return end;
        }
    }
    count
}

// The first row of `other` from `j` on that does not come before row `i` of `one`, or the end.
fn end_of_second<V: Index<Ref: OrderedRow> + Len>(one: &V, i: usize, other: &V, j: usize) -> usize
    requires one_sound { IsSound V.format (V.content one.now) }
    requires other_sound { IsSound V.format (V.content other.now) }
    requires one_place { i ≤ length (V.format.rows (V.content one.now)) }
    requires other_place { j ≤ length (V.format.rows (V.content other.now)) }
    ensures ordered { j ≤ result }
    ensures in_range { result ≤ length (V.format.rows (V.content other.now)) }
    ensures merged { merged (drop i (V.format.rows (V.content one.now))) (drop j (V.format.rows (V.content other.now))) ≡ take (result - j) (drop j (V.format.rows (V.content other.now))) ++ merged (drop i (V.format.rows (V.content one.now))) (drop result (V.format.rows (V.content other.now))) }
    ensures stops { result < length (V.format.rows (V.content other.now)) → (i < length (V.format.rows (V.content one.now))) × (is_lt (row_cmp (row_at (V.format.rows (V.content other.now)) result) (row_at (V.format.rows (V.content one.now)) i)) ≡ false) }
{
    let count = other.len();
    if i == one.len() {
        return count;
    }
    let bound = one.get(i);
    for end in j..count {
        if !other.get(end).compare_row(&bound).is_lt() {
            return end;
        }
    }
    count
}

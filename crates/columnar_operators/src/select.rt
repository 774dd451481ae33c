//! Copies rows by their numbers, or by a bit for each row.
ghost use Rattle.std.specs.Prelude.{◌≡◌, ◌<◌, ◌↔◌, length, All, IsOk, OnOk, OnErr, IfOk, IfErr, IsNone, IfSome};
ghost use Rattle.columnar_base.specs.Format.{IsSound};
ghost use Rattle.columnar_base.specs.Change.{Took, Refused};
ghost use Rattle.columnar_base.specs.Room.{WasFull, Leaves};
ghost use Rattle.columnar_operators.specs.Picks.{rows_at, chosen, IsFirstPast};
ghost use Rattle.columnar_operators.specs.Partly.{Partly};

use crate::runs::copy_run;
use columnar_base::fault::GrowError;
use columnar_base::traits::{Column, Index, Len};
use columnar_core::container::ExtendFrom;

/// Appends the rows of the view that the numbers name, in the order of the numbers.
///
/// # Requires
/// Each number is less than the number of rows of the view.
///
/// # Errors
/// The error of `extend_from_self`, if the column cannot take the rows; it keeps none of them then. `Memory` only if it has
/// no room for them.
pub fn take<V: Len + Copy, C: ExtendFrom<V>>(
    column: &mut C,
    view: V,
    indices: &[usize],
) -> Result<(), GrowError>
    requires sound { IsSound C.format (C.content column.old) }
    requires view_sound { IsSound V.format (V.content view) }
    requires in_range { All (λ i. i < length (V.format.rows (V.content view))) indices.now }
    ensures ok { OnOk result (Took C.format (C.content column.old) (C.content column.new) (rows_at (V.format.rows (V.content view)) indices.now)) }
    ensures err { IfErr result (λ e. Refused C.format (C.content column.old) (C.content column.new) (rows_at (V.format.rows (V.content view)) indices.now) e) }
    ensures wanted { IfErr result (WasFull (C.room column.old) (rows_at (V.format.rows (V.content view)) indices.now)) }
    ensures left { OnOk result (Leaves (C.room column.old) (C.room column.new) (rows_at (V.format.rows (V.content view)) indices.now)) }
{
    let before = column.len();
    let taken = take_runs(column, view, indices);
    if taken.is_err() {
        column.truncate(before);
    }
    taken
}

/// Appends what `take` appends, if each number is that of a row of the view.
///
/// # Errors
/// The outer error is the first number that names no row; the column stays as it was then. The inner one is that of `take`.
pub fn take_checked<V: Len + Copy, C: ExtendFrom<V>>(
    column: &mut C,
    view: V,
    indices: &[usize],
) -> Result<Result<(), GrowError>, usize>
    requires sound { IsSound C.format (C.content column.old) }
    requires view_sound { IsSound V.format (V.content view) }
    ensures range { IsOk result ↔ All (λ i. i < length (V.format.rows (V.content view))) indices.now }
    ensures first { IfErr result (λ n. IsFirstPast (length (V.format.rows (V.content view))) indices.now n) }
    ensures stays { OnErr result (C.content column.new ≡ C.content column.old) }
    ensures ok { IfOk result (λ r. OnOk r (Took C.format (C.content column.old) (C.content column.new) (rows_at (V.format.rows (V.content view)) indices.now))) }
    ensures err { IfOk result (λ r. IfErr r (λ e. Refused C.format (C.content column.old) (C.content column.new) (rows_at (V.format.rows (V.content view)) indices.now) e)) }
    ensures wanted { IfOk result (λ r. IfErr r (WasFull (C.room column.old) (rows_at (V.format.rows (V.content view)) indices.now))) }
    ensures left { IfOk result (λ r. OnOk r (Leaves (C.room column.old) (C.room column.new) (rows_at (V.format.rows (V.content view)) indices.now))) }
{
    match first_past(indices, view.len()) {
        Some(number) => Err(number),
        None => Ok(take(column, view, indices)),
    }
}

// Finds the first number that is not below the count.
fn first_past(numbers: &[usize], count: usize) -> Option<usize>
    ensures none { IsNone result ↔ All (λ i. i < count) numbers.now }
    ensures first { IfSome result (λ n. IsFirstPast count numbers.now n) }
{
    for number in numbers {
        if *number >= count {
            return Some(*number);
        }
    }
    None
}

// The same, run by run; after a refusal the runs before it are there.
fn take_runs<V: Len + Copy, C: ExtendFrom<V>>(
    column: &mut C,
    view: V,
    indices: &[usize],
) -> Result<(), GrowError>
    requires sound { IsSound C.format (C.content column.old) }
    requires view_sound { IsSound V.format (V.content view) }
    requires in_range { All (λ i. i < length (V.format.rows (V.content view))) indices.now }
    ensures ok { OnOk result (Took C.format (C.content column.old) (C.content column.new) (rows_at (V.format.rows (V.content view)) indices.now)) }
    ensures err { IfErr result (λ e. Partly C.format (C.room column.old) (C.content column.old) (C.content column.new) (rows_at (V.format.rows (V.content view)) indices.now) e) }
    ensures left { OnOk result (Leaves (C.room column.old) (C.room column.new) (rows_at (V.format.rows (V.content view)) indices.now)) }
{
    // the empty run at the end of the view
    let mut start = view.len();
    let mut end = start;
    for i in indices {
        if *i != end {
            copy_run(column, view, start..end)?;
            start = *i;
        }
        end = *i + 1;
    }
    copy_run(column, view, start..end)
}

/// Appends the rows of the view whose bit is set, in their order.
///
/// # Requires
/// There is a bit for each row of the view.
///
/// # Errors
/// The error of `extend_from_self`, if the column cannot take the rows; it keeps none of them then. `Memory` only if it has
/// no room for them.
pub fn filter<V: Column + Copy, B: Index<Ref = bool> + Len, C: ExtendFrom<V>>(
    column: &mut C,
    view: V,
    bits: &B,
) -> Result<(), GrowError>
    requires sound { IsSound C.format (C.content column.old) }
    requires view_sound { IsSound V.format (V.content view) }
    requires bits_sound { IsSound B.format (B.content bits.now) }
    requires same_length { length (B.format.rows (B.content bits.now)) ≡ length (V.format.rows (V.content view)) }
    ensures ok { OnOk result (Took C.format (C.content column.old) (C.content column.new) (chosen (V.format.rows (V.content view)) (B.format.rows (B.content bits.now)))) }
    ensures err { IfErr result (λ e. Refused C.format (C.content column.old) (C.content column.new) (chosen (V.format.rows (V.content view)) (B.format.rows (B.content bits.now))) e) }
    ensures wanted { IfErr result (WasFull (C.room column.old) (chosen (V.format.rows (V.content view)) (B.format.rows (B.content bits.now)))) }
    ensures left { OnOk result (Leaves (C.room column.old) (C.room column.new) (chosen (V.format.rows (V.content view)) (B.format.rows (B.content bits.now)))) }
{
    let before = column.len();
    let taken = filter_runs(column, view, bits);
    if taken.is_err() {
        column.truncate(before);
    }
    taken
}

/// Appends what `filter` appends, if there is a bit for each row of the view.
///
/// # Errors
/// The outer error is the number of bits, if the view has another number of rows; the column stays as it was then. The
/// inner one is that of `filter`.
pub fn filter_checked<V: Len + Copy, B: Index<Ref = bool> + Len, C: ExtendFrom<V>>(
    column: &mut C,
    view: V,
    bits: &B,
) -> Result<Result<(), GrowError>, usize>
    requires sound { IsSound C.format (C.content column.old) }
    requires view_sound { IsSound V.format (V.content view) }
    requires bits_sound { IsSound B.format (B.content bits.now) }
    ensures same_length { IsOk result ↔ (length (B.format.rows (B.content bits.now)) ≡ length (V.format.rows (V.content view))) }
    ensures count { IfErr result (λ n. n ≡ length (B.format.rows (B.content bits.now))) }
    ensures stays { OnErr result (C.content column.new ≡ C.content column.old) }
    ensures ok { IfOk result (λ r. OnOk r (Took C.format (C.content column.old) (C.content column.new) (chosen (V.format.rows (V.content view)) (B.format.rows (B.content bits.now))))) }
    ensures err { IfOk result (λ r. IfErr r (λ e. Refused C.format (C.content column.old) (C.content column.new) (chosen (V.format.rows (V.content view)) (B.format.rows (B.content bits.now))) e)) }
    ensures wanted { IfOk result (λ r. IfErr r (WasFull (C.room column.old) (chosen (V.format.rows (V.content view)) (B.format.rows (B.content bits.now))))) }
    ensures left { IfOk result (λ r. OnOk r (Leaves (C.room column.old) (C.room column.new) (chosen (V.format.rows (V.content view)) (B.format.rows (B.content bits.now))))) }
{
    let count = bits.len();
    if count != view.len() {
        return Err(count);
    }
    Ok(filter(column, view, bits))
}

// The same, run by run; after a refusal the runs before it are there.
fn filter_runs<V: Column + Copy, B: Index<Ref = bool> + Len, C: ExtendFrom<V>>(
    column: &mut C,
    view: V,
    bits: &B,
) -> Result<(), GrowError>
    requires sound { IsSound C.format (C.content column.old) }
    requires view_sound { IsSound V.format (V.content view) }
    requires bits_sound { IsSound B.format (B.content bits.now) }
    requires same_length { length (B.format.rows (B.content bits.now)) ≡ length (V.format.rows (V.content view)) }
    ensures ok { OnOk result (Took C.format (C.content column.old) (C.content column.new) (chosen (V.format.rows (V.content view)) (B.format.rows (B.content bits.now)))) }
    ensures err { IfErr result (λ e. Partly C.format (C.room column.old) (C.content column.old) (C.content column.new) (chosen (V.format.rows (V.content view)) (B.format.rows (B.content bits.now))) e) }
    ensures left { OnOk result (Leaves (C.room column.old) (C.room column.new) (chosen (V.format.rows (V.content view)) (B.format.rows (B.content bits.now)))) }
{
    let count = bits.len();
    let mut start = 0;
    for i in 0..count {
        if !bits.get(i) {
            copy_run(column, view, start..i)?;
            start = i + 1;
        }
    }
    copy_run(column, view, start..count)
}

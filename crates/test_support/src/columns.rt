//! Reads and changes of columns, each as one call.
ghost use Rattle.std.specs.Prelude.{◌≡◌, IfSome, length};
ghost use Rattle.columnar_base.specs.Format.{IsSound, part, part_format};

use columnar_core::container::{Container, ExtendFrom, Truncate};
use columnar_core::fault::GrowError;
use columnar_core::slice::Slice;
use columnar_core::traits::{Index, Item, Len, Push, PushRef};

/// Counts the rows of a container, through its trait.
pub fn count<'a, C: Container<'a>>(column: &'a C) -> usize
    requires { IsSound C.format (C.content column.now) }
    ensures { result ≡ length (C.format.rows (C.content column.now)) }
{
    column.len()
}

/// Returns row `index`, if there is one.
pub fn row_at<V: Index + Len>(view: &V, index: usize) -> Option<V::Ref>
    requires { IsSound V.format (V.content view.now) }
    ensures { IfSome result V.Ref.valid }
{
    view.get_checked(index)
}

/// Tests whether a column or view has exactly these rows.
pub fn reads<T: Item + PartialEq + Copy, V: Index<Ref = T> + Len>(view: &V, rows: &[T]) -> bool
    requires { IsSound V.format (V.content view.now) }
{
    for i in 0..rows.len() {
        if row_at(view, i) != Some(rows[i]) {
            return false;
        }
    }
    view.len() == rows.len()
}

/// Returns item `index` of a list, if there is one.
pub fn item_of<V: Index + Copy>(list: Option<Slice<V>>, index: usize) -> Option<V::Ref>
    requires { IfSome list (λ s. IsSound (part_format V.format) (part s.lower s.upper (V.content s.slice))) }
    ensures { IfSome result V.Ref.valid }
{
    row_at(&list?, index)
}

/// Pushes an item; returns false on an error.
pub fn takes<T: Item, C: Push<T>>(column: &mut C, item: T) -> bool
    requires sound { IsSound C.format (C.content column.old) }
    requires valid { T.valid item }
    ensures { IsSound C.format (C.content column.new) }
{
    column.push(item).is_ok()
}

/// Pushes a referenced item; returns false on an error.
pub fn takes_ref<T: Item, C: PushRef<T>>(column: &mut C, item: &T) -> bool
    requires sound { IsSound C.format (C.content column.old) }
    requires valid { T.valid item.now }
    ensures { IsSound C.format (C.content column.new) }
{
    column.push_ref(item).is_ok()
}

/// Pushes the rows `lower..upper` of a view as one row; returns false if there are no such rows or the push fails.
pub fn takes_rows<V: Len + Copy, C: Push<Slice<V>>>(
    column: &mut C,
    view: V,
    lower: usize,
    upper: usize,
) -> bool
    requires sound { IsSound C.format (C.content column.old) }
    requires view_sound { IsSound V.format (V.content view) }
    ensures { IsSound C.format (C.content column.new) }
{
    lower <= upper && upper <= view.len() && column.push(Slice::new(lower, upper, view)).is_ok()
}

/// Pushes ranges of a view's rows, each as one row, up to the first failure; returns whether all were pushed.
pub fn takes_ranges<V: Len + Copy, C: Push<Slice<V>>>(
    column: &mut C,
    view: V,
    ranges: &[(usize, usize)],
) -> bool
    requires sound { IsSound C.format (C.content column.old) }
    requires view_sound { IsSound V.format (V.content view) }
    ensures { IsSound C.format (C.content column.new) }
{
    for range in ranges {
        if !takes_rows(column, view, range.0, range.1) {
            return false;
        }
    }
    true
}

/// Copies the rows `start..end` of a view; returns false if there are no such rows or the copy fails.
pub fn copied<V: Len + Copy, C: ExtendFrom<V>>(
    column: &mut C,
    view: V,
    start: usize,
    end: usize,
) -> bool
    requires sound { IsSound C.format (C.content column.old) }
    requires view_sound { IsSound V.format (V.content view) }
    ensures { IsSound C.format (C.content column.new) }
{
    start <= end && end <= view.len() && column.extend_from_self(view, start..end).is_ok()
}

/// Copies all rows of a view.
pub fn copy_all<V: Len + Copy, C: ExtendFrom<V>>(column: &mut C, view: V) -> Result<(), GrowError>
    requires sound { IsSound C.format (C.content column.old) }
    requires view_sound { IsSound V.format (V.content view) }
    ensures { IsSound C.format (C.content column.new) }
{
    let n = view.len();
    column.extend_from_self(view, 0..n)
}

/// Truncates a column to its first `n` rows, if it has that many.
pub fn cut<C: Truncate>(column: &mut C, n: usize)
    requires { IsSound C.format (C.content column.old) }
    ensures { IsSound C.format (C.content column.new) }
{
    if n <= column.len() {
        column.truncate(n);
    }
}

//! Operations of the tests on a column, each proved once for all columns.
ghost use Rattle.std.specs.Prelude.{All, IfOk};
ghost use Rattle.columnar_core.specs.Format.{IsSound};

use columnar_cells::index_mut::IndexMut;
use columnar_cells::items::SetItem;
use columnar_cells::set::SetRow;
use columnar_core::container::Storage;
use columnar_core::traits::{Index, Item, Len, Push};
use std::alloc::Global;
use std::test::Fail;
use test_support::columns::reads;

/// Creates a column of these rows.
pub fn column_of<T: Item + Copy, C: Storage + Push<T>>(alloc: Global, rows: &[T]) -> Result<C, Fail>
    requires { All T.valid rows.now }
    ensures { IfOk result (λ c. IsSound C.format (C.content c)) }
{
    let mut column = C::empty(alloc);
    for i in 0..rows.len() {
        if column.push(rows[i]).is_err() {
            return Err(Fail::from("refused"));
        }
    }
    Ok(column)
}

/// Creates a column of `count` equal rows.
pub fn repeated<T: Item + Copy, C: Storage + Push<T>>(
    alloc: Global,
    count: usize,
    item: T,
) -> Result<C, Fail>
    requires { T.valid item }
    ensures { IfOk result (λ c. IsSound C.format (C.content c)) }
{
    let mut column = C::empty(alloc);
    for _row in 0..count {
        if column.push(item).is_err() {
            return Err(Fail::from("refused"));
        }
    }
    Ok(column)
}

/// Writes row `index` if the item may replace it.
pub fn writes<T: Item + Drop, C: SetRow<T>>(column: &mut C, index: usize, item: T) -> bool
    requires sound { IsSound C.format (C.content column.old) }
    requires valid { T.valid item }
    ensures { IsSound C.format (C.content column.new) }
{
    column.set_row_checked(index, item)
}

/// Writes the item of row `index` at a position if it may replace the old one.
pub fn writes_item<P: Copy, T: Item + Drop, C: SetItem<P, T>>(
    column: &mut C,
    index: usize,
    at: P,
    item: T,
) -> bool
    requires sound { IsSound C.format (C.content column.old) }
    requires valid { T.valid item }
    ensures { IsSound C.format (C.content column.new) }
{
    column.set_item_checked(index, at, item)
}

/// Tests whether a column of these rows has the rows `after` once row `index` is written; `None` if it is not written.
pub fn after_a_write<
    T: Item + Copy + PartialEq + Drop,
    C: Storage + Push<T> + SetRow<T> + Index<Ref = T>,
>(alloc: Global, rows: &[T], index: usize, item: T, after: &[T]) -> Result<Option<bool>, Fail>
    requires rows { All T.valid rows.now }
    requires item { T.valid item }
{
    let mut column: C = column_of(alloc, rows)?;
    if !writes(&mut column, index, item) {
        return Ok(None);
    }
    Ok(Some(reads(&column, after)))
}

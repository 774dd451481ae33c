//! Sorts the rows of a column by their numbers.
ghost use Rattle.std.specs.Prelude.{◌≡◌, ◌<◌, length, map, slice_get, All, IfOk, IfErr, IsPermutation, IsSorted};
ghost use Rattle.std.specs.List.Sorted.{IsStableByKey};
ghost use Rattle.std.specs.List.{range_with_len};
ghost use Rattle.std.specs.Option.{option_cmp};
ghost use Rattle.columnar_base.specs.Format.{IsSound};
ghost use Rattle.columnar_rows.specs.RowOrder.{row_cmp};
ghost use Rattle.columnar_operators.specs.Picks.{rows_at};
ghost use Rattle.columnar_operators.specs.Numbered.{IsNumbered};

use columnar_base::fault::GrowError;
use columnar_base::traits::{Index, Len};
use columnar_rows::ordered::OrderedRow;
use std::alloc::Global;

/// Sorts the rows of a column by their numbers: the numbers of all rows, such that the rows that they name rise. The
/// sort is stable, so equal rows keep their order. It keeps a copy of each row (a number, or a reference into the
/// column) with its number while it sorts.
///
/// # Errors
/// Out of memory.
pub fn sort_indices<S: Index<Ref: OrderedRow> + Len>(
    alloc: Global,
    column: &S,
) -> Result<Vec<usize>, GrowError>
    requires { IsSound S.format (S.content column.now) }
    ensures permutation { IfOk result (λ v. IsPermutation (range_with_len 0 (length (S.format.rows (S.content column.now)))) v.items) }
    ensures in_range { IfOk result (λ v. All (λ i. i < length (S.format.rows (S.content column.now))) v.items) }
    ensures sorted { IfOk result (λ v. IsSorted row_cmp (rows_at (S.format.rows (S.content column.now)) v.items)) }
    ensures stable { IfOk result (λ v. IsStableByKey (slice_get (S.format.rows (S.content column.now))) (option_cmp row_cmp) (range_with_len 0 (length (S.format.rows (S.content column.now)))) v.items) }
    ensures memory { IfErr result (λ e. e ≡ GrowError.Memory) }
{
    let mut rows = numbered(alloc, column)?;
    rows.sort_by(
        |one, other|
            ensures { result ≡ row_cmp (S.Ref.meaning one.now.0) (S.Ref.meaning other.now.0) }
        { one.0.compare_row(&other.0) },
    )?;
    let indices = numbers_of(alloc, rows.as_slice())?;
    Ok(indices)
}

// The rows, each with its number.
fn numbered<S: Index + Len>(alloc: Global, column: &S) -> Result<Vec<(S::Ref, usize)>, GrowError>
    requires { IsSound S.format (S.content column.now) }
    ensures numbered { IfOk result (λ v. IsNumbered S.Ref.meaning (S.format.rows (S.content column.now)) v.items) }
    ensures memory { IfErr result (λ e. e ≡ GrowError.Memory) }
{
    let count = column.len();
    let mut rows = Vec::with_capacity(alloc, count)?;
    for i in 0..count {
        rows.push((column.get(i), i))?;
    }
    Ok(rows)
}

// The numbers alone.
fn numbers_of<R>(alloc: Global, rows: &[(R, usize)]) -> Result<Vec<usize>, GrowError>
    ensures numbers { IfOk result (λ v. v.items ≡ map (λ row. row.1) rows.now) }
    ensures memory { IfErr result (λ e. e ≡ GrowError.Memory) }
{
    let mut numbers = Vec::with_capacity(alloc, rows.len())?;
    for row in rows {
        numbers.push(row.1)?;
    }
    Ok(numbers)
}

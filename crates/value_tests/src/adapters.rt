// The adapters of std over the rows of columns.
ghost use Rattle.columnar_base.specs.Format.{IsSound};

use columnar_base::traits::{Index, Len};
use columnar_base::view::View;
use std::alloc::{AllocError, Global};
use std::test::Fail;
use test_support::equal;

// Collects the rows of a column.
fn rows_of<C: Index + Len + Drop>(alloc: Global, column: C) -> Result<Vec<C::Ref>, AllocError>
    requires { IsSound C.format (C.content column) }
{
    column.into_index_iter().collect(alloc)
}

// Returns the keys of the rows with an even number.
fn even_keys<C: Index<Ref = (u64, u32)> + Len + Drop>(
    alloc: Global,
    column: C,
) -> Result<Vec<u64>, AllocError>
    requires { IsSound C.format (C.content column) }
{
    column
        .into_index_iter()
        .filter(|row| row.1 % 2 == 0)
        .map(|row| row.0)
        .collect(alloc)
}

// Returns the greatest row of a column.
fn greatest<C: Index<Ref = u64> + Len + Drop>(column: C) -> Option<u64>
    requires { IsSound C.format (C.content column) }
{
    column.into_index_iter().max()
}

// Returns the sum of the rows of a column, if it is less than 2^64.
fn total<C: Index<Ref = u64> + Len + Drop>(column: C) -> Option<u64>
    requires { IsSound C.format (C.content column) }
{
    column
        .into_index_iter()
        .try_fold(0u64, |sum, row| sum.checked_add(row))
}

// Tests whether some row of the first column is less than that of the second.
fn is_once_less<C: Index<Ref = u64> + Len + Drop, D: Index<Ref = u32> + Len + Drop>(
    one: C,
    other: D,
) -> bool
    requires one { IsSound C.format (C.content one) }
    requires other { IsSound D.format (D.content other) }
{
    one.into_index_iter()
        .zip(other.into_index_iter())
        .any(|(row, limit)| row < u64::from(limit))
}

#[test]
fn rows_are_filtered_mapped_and_collected(rt: HostRuntime) -> Result<(), Fail> {
    let keys = [7u64, 8, 9];
    let numbers = [4u32, 5, 60];
    let (one, other) = (
        View::from_slice(keys.as_slice()),
        View::from_slice(numbers.as_slice()),
    );
    equal!(rt; rows_of(rt.alloc(), one)?.as_slice(), [7, 8, 9].as_slice());
    equal!(rt; even_keys(rt.alloc(), (one, other))?.as_slice(), [7, 9].as_slice());
    equal!(rt; greatest(one), Some(9));
    equal!(rt; total(one), Some(24));
    equal!(rt; total(View::from_slice([1, u64::MAX].as_slice())), None);
    equal!(rt; is_once_less(one, other), true);
    Ok(())
}

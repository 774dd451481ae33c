// Ranges of rows: truncated, compared, ordered and hashed.
ghost use Rattle.std.specs.Prelude.{◌≡◌};

use columnar_base::traits::Column;
use columnar_base::view::View;
use columnar_core::boxed::Boxed;
use columnar_core::ordered::OrderedRow;
use columnar_core::slice::Slice;
use std::cmp::Ordering;
use std::hash::{DefaultHasher, Hash, Hasher};
use std::num::Wrapping;
use std::test::Fail;
use std::time::Duration;
use test_support::{equal, holds};

// Returns both ends of a range.
fn ends<S: Column + Drop>(range: Slice<S>) -> (usize, usize) {
    (range.lower, range.upper)
}

fn hash_of<T: Hash>(value: &T) -> u64 {
    let mut state = DefaultHasher::new();
    value.hash(&mut state);
    state.finish()
}

fn row_hash_of<T: OrderedRow>(row: &T) -> u64 {
    let mut state = DefaultHasher::new();
    row.hash_row(&mut state);
    state.finish()
}

// Tests in every way whether the first is less than the second.
fn rises<T: Ord + Hash>(less: &T, more: &T) -> bool {
    *less < *more
        && less.partial_cmp(more) == Some(Ordering::Less)
        && more.cmp(less) == Ordering::Greater
        && *less != *more
        && hash_of(less) != hash_of(more)
}

// Tests in every way whether the two are equal.
fn agrees<T: Ord + Hash>(one: &T, other: &T) -> bool {
    *one == *other
        && one.partial_cmp(other) == Some(Ordering::Equal)
        && one.cmp(other) == Ordering::Equal
        && hash_of(one) == hash_of(other)
}

// Tests whether the first is less than the second, as rows.
fn rises_as_row<T: OrderedRow>(less: &T, more: &T) -> bool {
    less.compare_row(more) == Ordering::Less
        && more.compare_row(less) == Ordering::Greater
        && less.compare_row(less) == Ordering::Equal
        && !less.same_row(more)
        && more.same_row(more)
        && row_hash_of(less) != row_hash_of(more)
        && row_hash_of(less) == row_hash_of(less)
}

#[test]
fn ranges_are_cut(rt: HostRuntime) -> Result<(), Fail> {
    let items = [5u64, 6, 7, 8, 9, 10, 11];
    let range = Slice::new(2, 6, View::from_slice(items.as_slice()));
    equal!(rt; ends(range.slice(0..4)), (2, 4));
    equal!(rt; ends(range.slice(3..=4)), (3, 5));
    equal!(rt; ends(range.slice(4..)), (4, 6));
    equal!(rt; ends(range.slice(..3)), (2, 3));
    equal!(rt; ends(range.slice(..=9)), (2, 6));
    equal!(rt; ends(range.slice(..)), (2, 6));
    holds!(rt; range.slice(3..5).eq_slice(&[8, 9]));
    holds!(rt; !range.slice(3..5).eq_slice(&[8]));
    holds!(rt; !range.slice(3..5).eq_slice(&[8, 10]));
    Ok(())
}

#[test]
fn ranges_are_compared(rt: HostRuntime) -> Result<(), Fail> {
    let bytes = [1u8, 9, 1, 2, 3, 1, 2, 3];
    let column = bytes.as_slice();
    let two = Slice::new(0, 2, column);
    let three = Slice::new(2, 5, column);
    holds!(rt; rises(&three, &two));
    holds!(rt; rises(&Slice::new(2, 4, column), &three));
    holds!(rt; agrees(&three, &Slice::new(5, 8, column)));
    holds!(rt; rises_as_row(&three, &two));
    equal!(rt; three.as_slice(), [1, 2, 3].as_slice());
    equal!(rt; hash_of(&three), hash_of(&three.as_slice()));
    Ok(())
}

#[test]
fn rows_are_ordered(rt: HostRuntime) -> Result<(), Fail> {
    holds!(rt; rises_as_row(&1u8, &2));
    holds!(rt; rises_as_row(&255u16, &256));
    holds!(rt; rises_as_row(&255u32, &256));
    holds!(rt; rises_as_row(&255u64, &256));
    holds!(rt; rises_as_row(&255u128, &256));
    holds!(rt; rises_as_row(&255usize, &256));
    holds!(rt; rises_as_row(&-1i8, &1));
    holds!(rt; rises_as_row(&-1i16, &1));
    holds!(rt; rises_as_row(&-1i32, &1));
    holds!(rt; rises_as_row(&-1i64, &1));
    holds!(rt; rises_as_row(&-1i128, &1));
    holds!(rt; rises_as_row(&-1isize, &1));
    holds!(rt; rises_as_row(&Wrapping(1u8), &Wrapping(2)));
    holds!(rt; rises_as_row(&&1u8, &&2));
    holds!(rt; rises_as_row(&'a', &'b'));
    holds!(rt; rises_as_row(&[1u8, 2], &[1, 3]));
    holds!(rt; rises_as_row(&[1u8, 2].as_slice(), &[2].as_slice()));
    holds!(rt; rises_as_row(&Duration::new(1, 9), &Duration::new(2, 0)));
    Ok(())
}

// In ascending order: the infinities at both ends of the numbers, -0.0 before 0.0, and then the NaNs.
#[test]
fn floats_are_ordered(rt: HostRuntime) -> Result<(), Fail> {
    let doubles = [
        -1.0 / 0.0,
        -1.7976931348623157e308,
        -1.0,
        -5e-324,
        -0.0,
        0.0,
        5e-324,
        0.1,
        1.0,
        1.7976931348623157e308,
        1.0 / 0.0,
        0.0 / 0.0,
    ];
    let singles = [
        -1.0f32 / 0.0,
        -3.4028235e38,
        -1.0,
        -1e-45,
        -0.0,
        0.0,
        1e-45,
        0.1,
        1.0,
        3.4028235e38,
        1.0 / 0.0,
        0.0 / 0.0,
    ];
    for i in 1..12usize {
        holds!(rt; rises_as_row::<f64>(&doubles[i - 1], &doubles[i]));
        holds!(rt; rises_as_row::<f32>(&singles[i - 1], &singles[i]));
    }
    holds!(rt; doubles[11].same_row(&(-(0.0 / 0.0))));
    holds!(rt; rises_as_row(&[0.5f64, -0.0], &[0.5, 0.0]));
    holds!(rt; rises_as_row(&[0.5f32].as_slice(), &[0.5, -1.0].as_slice()));
    Ok(())
}

#[test]
fn rows_of_parts_are_ordered(rt: HostRuntime) -> Result<(), Fail> {
    holds!(rt; rises_as_row(&(false, 9u8), &(true, 1)));
    holds!(rt; rises_as_row(&(1u8, ((), 1u8)), &(1, ((), 2))));
    holds!(rt; rises_as_row(&(1u8,), &(2,)));
    holds!(rt; rises_as_row(&(1u8, 1u8, 1u8), &(1, 1, 2)));
    holds!(rt; rises_as_row(&None, &Some(0u8)));
    holds!(rt; rises_as_row(&Some(1u8), &Some(2)));
    holds!(rt; rises_as_row(&Ok::<u8, u8>(9), &Err(1)));
    holds!(rt; rises_as_row(&Err::<u8, u8>(1), &Err(2)));
    holds!(rt; rises_as_row(&Boxed(1u8), &Boxed(2)));
    Ok(())
}

#[test]
fn ranges_print_their_rows(rt: HostRuntime) -> Result<(), Fail> {
    let items = [5u64, 6, 7];
    let rows = Slice::whole(View::from_slice(items.as_slice()));
    equal!(rt; ends(rows), (0, 3));
    let text = format!(in rt.alloc(); "{rows:?}")?;
    equal!(rt; text.as_str(), "[5, 6, 7]");
    let text = format!(in rt.alloc(); "{:?}", Slice::new(1, 1, items.as_slice()))?;
    equal!(rt; text.as_str(), "[]");
    Ok(())
}

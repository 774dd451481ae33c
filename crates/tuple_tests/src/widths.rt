// Each call once, for tuples of one, two, three, seven and ten columns.
ghost use Rattle.std.specs.Prelude.{◌≡◌, IsTrue};
ghost use Rattle.columnar_core.specs.Format.{IsSound, representable};

use super::worked::{ONE, One, SEVEN, Seven, TEN, THREE, TWO, Ten, Three, Two, is_written};
use columnar_bytes::stash::Stash;
use columnar_core::bytes::{AsBytes, Check, FromBytes, Stored};
use columnar_core::container::{Borrow, ExtendFrom, Reserve, Storage, Truncate};
use columnar_core::traits::{Clear, Column, Item, Len, Push, PushRef};
use std::alloc::Global;
use std::iter::once;
use std::test::Fail;
use test_support::stashes::{opened, row_of};
use test_support::{equal, holds};

// A well-formed column.
#[derive(Drop)]
struct Held<C: Column> {
    column: C,
    ghost sound: { IsSound C.format (C.content column) },
}

// Creates a column of one row, which was pushed twice, copied, cleared and truncated; none if a call fails.
fn grown<T: Item + Copy, C: Storage + Reserve + Push<T> + PushRef<T>>(
    alloc: Global,
    row: T,
) -> Option<Held<C>>
    requires { T.valid row }
{
    let mut column = C::empty(alloc);
    column.reserve_room(C::no_room()).ok()?;
    column.push(row).ok()?;
    column.push_ref(&row).ok()?;
    let mut copy = column.duplicate(alloc).ok()?;
    copy.clear();
    if column.len() != 2 || !copy.is_empty() {
        return None;
    }
    column.truncate(1);
    Some(Held { column })
}

// Copies all rows through the view; none if a call fails.
fn copied<'a, C: Storage + Borrow<'a> + ExtendFrom<<C as Borrow<'a>>::Borrowed>>(
    alloc: Global,
    held: &'a Held<C>,
) -> Option<Held<C>> {
    let view = held.column.borrow();
    let count = view.len();
    let mut column = C::empty(alloc);
    column.reserve_for(once(view)).ok()?;
    column.extend_from_self(view, 0..count).ok()?;
    Some(Held { column })
}

// Tests whether the view of a column is written as these words.
fn lends<'a, C: Borrow<'a, Borrowed: AsBytes<'a> + Check>>(
    alloc: Global,
    held: &'a Held<C>,
    words: &[u64],
) -> bool
    requires { IsTrue (representable C.Borrowed.format) }
{
    is_written(alloc, &held.column.borrow(), words)
}

// Tests whether a column of one row, grown and then copied, is written as these words. `column` and `copy` own what is
// borrowed.
fn grows_and_copies<
    'a,
    T: Item + Copy,
    C: Storage
        + Borrow<'a, Borrowed: AsBytes<'a> + Check>
        + ExtendFrom<<C as Borrow<'a>>::Borrowed>
        + Push<T>
        + PushRef<T>,
>(
    alloc: Global,
    column: &'a mut Option<Held<C>>,
    copy: &'a mut Option<Held<C>>,
    row: T,
    words: &[u64],
) -> bool
    requires valid { T.valid row }
    requires representable { IsTrue (representable C.Borrowed.format) }
{
    *column = grown::<T, C>(alloc, row);
    match column {
        Some(column) => *copy = copied(alloc, column),
        None => return false,
    }
    match copy {
        Some(copy) => lends(alloc, copy, words),
        None => false,
    }
}

// Returns the row of one row's words, which are opened in `stash`.
fn row_of_one<'a, C: Stored + Drop + Borrow<'a, Borrowed: FromBytes<'a>>>(
    alloc: Global,
    stash: &'a mut Option<Stash<C, Vec<u8>>>,
    words: &[u64],
) -> Option<C::Ref>
    requires { IsTrue (representable C.format) }
{
    *stash = opened::<C>(alloc, words);
    match stash {
        Some(stash) => row_of(stash, 0),
        None => None,
    }
}

#[test]
fn a_tuple_of_one(rt: HostRuntime) {
    let row = (1u64,);
    holds!(rt; grows_and_copies::<_, One>(rt.alloc(), &mut None, &mut None, row, ONE.as_slice()));
}

#[test]
fn a_tuple_of_two(rt: HostRuntime) {
    let row = (1u64, 2u64);
    holds!(rt; grows_and_copies::<_, Two>(rt.alloc(), &mut None, &mut None, row, TWO.as_slice()));
}

#[test]
fn a_tuple_of_three(rt: HostRuntime) {
    let row = (1u64, 2u64, 3u64);
    holds!(rt; grows_and_copies::<_, Three>(rt.alloc(), &mut None, &mut None, row, THREE.as_slice()));
}

#[test]
fn a_tuple_of_seven(rt: HostRuntime) {
    let row = (1u64, 2u64, 3u64, 4u64, 5u64, 6u64, 7u64);
    holds!(rt; grows_and_copies::<_, Seven>(rt.alloc(), &mut None, &mut None, row, SEVEN.as_slice()));
}

#[test]
fn a_tuple_of_ten(rt: HostRuntime) {
    let row = (0u64, 1u64, 2u64, 3u64, 4u64, 5u64, 6u64, 7u64, 8u64, 9u64);
    holds!(rt; grows_and_copies::<_, Ten>(rt.alloc(), &mut None, &mut None, row, TEN.as_slice()));
}

#[test]
fn a_row_of_ten_is_read(rt: HostRuntime) -> Result<(), Fail> {
    let mut stash = None;
    let row = row_of_one::<Ten>(rt.alloc(), &mut stash, TEN.as_slice()).expect(&rt, "a row");
    equal!(rt; (row.0, row.1, row.8, row.9), (0, 1, 8, 9));
    Ok(())
}

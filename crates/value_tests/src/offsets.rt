// Worked offsets.
ghost use Rattle.std.specs.Prelude.{◌≡◌};
ghost use Rattle.columnar_core.specs.Format.{IsSound};
ghost use Rattle.columnar_primitive.specs.Stride.{strides_format, head_and_bounds};

use columnar_core::bytes::Check;
use columnar_core::container::{Borrow, Container, Storage};
use columnar_core::fault::{GrowError, StoreFault};
use columnar_core::offsets::Offsets;
use columnar_core::traits::{Clear, Len, Push};
use columnar_core::view::View;
use columnar_core::words::Words;
use columnar_primitive::offsets::{Fixeds, Strides};
use std::alloc::Global;
use test_support::columns::cut;
use test_support::{equal, holds};

// The result of a push.
type Answer = Result<(), GrowError>;

// Pushes offsets through the trait; returns whether each has this result.
fn answers<C: Push<u64>>(column: &mut C, cases: &[(u64, Answer)]) -> bool
    requires { IsSound C.format (C.content column.old) }
    ensures { IsSound C.format (C.content column.new) }
{
    for case in cases {
        if column.push(case.0) != case.1 {
            return false;
        }
    }
    true
}

// Returns offset `index`, and whether the offsets rise to each of two ends.
fn told<C: Offsets>(column: &C, index: usize, end: u64, other: u64) -> (Option<u64>, bool, bool)
    requires { IsSound C.format (C.content column.now) }
{
    let offset = if index < column.len() {
        Some(column.offset(index))
    } else {
        None
    };
    (offset, column.rises_to(end), column.rises_to(other))
}

// Tests whether a duplicate equals its column.
fn is_duplicated<C: Storage + PartialEq>(alloc: Global, column: &C) -> bool {
    match column.duplicate(alloc) {
        Ok(same) => same == *column,
        Err(_) => false,
    }
}

// Copies rows through the trait; `None` if the range does not exist.
fn copied<'a, C: Container<'a>>(
    into: &mut C,
    from: &'a C,
    start: usize,
    end: usize,
) -> Option<Result<(), GrowError>>
    requires sound { IsSound C.format (C.content into.old) }
    requires from_sound { IsSound C.format (C.content from.now) }
    ensures { IsSound C.format (C.content into.new) }
{
    if start > end || end > from.len() {
        return None;
    }
    match into.extend_from_self(from.borrow(), start..end) {
        Ok(()) => Some(Ok(())),
        Err(error) => Some(Err(error)),
    }
}

#[test]
fn only_the_next_multiple_is_taken(rt: HostRuntime) {
    let mut column = Fixeds::<3, u64>::empty(rt.alloc());
    holds!(rt; answers(&mut column, [(4, Err(GrowError::Offset))].as_slice()));
    equal!(rt; column.count, 0);
    holds!(rt; answers(&mut column, [(3, Ok(())), (6, Ok(()))].as_slice()));
    equal!(rt; column.count, 2);
    equal!(rt; told(&column, 1, 6, 3), (Some(6), true, false));
    let mut other = Fixeds::<3, u64>::empty(rt.alloc());
    equal!(rt;
        copied(&mut other, &column, 1, 2),
        Some(Err(GrowError::Offset))
    );
    equal!(rt; copied(&mut other, &column, 0, 2), Some(Ok(())));
    equal!(rt; other == column, true);
    cut(&mut other, 1);
    equal!(rt; other.count, 1);
    equal!(rt; copied(&mut other, &column, 1, 2), Some(Ok(())));
    other.clear();
    equal!(rt; other.count, 0);
}

#[test]
fn a_full_count_is_refused_and_accepted_in_a_store(rt: HostRuntime) {
    let full = Fixeds::<1, View<'_, u64>> {
        count: View::from_slice(&[18446744073709551615]),
    };
    equal!(rt; full.check(), Ok(()));
    for (count, wanted) in [
        (
            View::from_slice(&[6148914691236517206]),
            StoreFault::Stride(0),
        ),
        (View::from_slice(&[1, 2]), StoreFault::HeadSize(0)),
        (
            View::from_le_bytes(&[1, 0, 0, 0, 0, 0, 0]),
            StoreFault::HeadSize(0),
        ),
    ] {
        let view = Fixeds::<3, View<'_, u64>> { count };
        equal!(rt; view.check(), Err(wanted));
    }
}

// Returns the bounds of list `index`, if it exists.
fn list_at(column: &Strides<Vec<u64>, [u64; 2]>, index: usize) -> Option<(usize, usize)>
    requires { IsSound strides_format (head_and_bounds column.now.head column.now.bounds.items) }
{
    if index < column.len() {
        Some(column.bounds(index))
    } else {
        None
    }
}

// Returns the only word, if there is exactly one.
fn only<W: Words>(words: &W) -> Option<u64> {
    if words.size() == 8 {
        Some(words.word(0))
    } else {
        None
    }
}

// Removes the last offset, if there is one.
fn popped(column: &mut Strides<Vec<u64>, [u64; 2]>)
    requires { IsSound strides_format (head_and_bounds column.old.head column.old.bounds.items) }
    ensures { IsSound strides_format (head_and_bounds column.new.head column.new.bounds.items) }
{
    if column.len() > 0 {
        column.pop();
    }
}

#[test]
fn a_stride_goes_as_far_as_it_goes(rt: HostRuntime) {
    let mut column = Strides::<Vec<u64>, [u64; 2]>::empty(rt.alloc());
    let offsets = [(3, Ok(())), (6, Ok(())), (10, Ok(())), (13, Ok(()))];
    holds!(rt; answers(&mut column, offsets.as_slice()));
    equal!(rt; column.head, [3, 2]);
    equal!(rt; column.bounds.as_slice(), [10, 13].as_slice());
    equal!(rt; list_at(&column, 0), Some((0, 3)));
    equal!(rt; list_at(&column, 2), Some((6, 10)));
    equal!(rt; told(&column, 3, 13, 10), (Some(13), true, false));
    equal!(rt; column.strided(), None);
    holds!(rt; is_duplicated(rt.alloc(), &column));
}

#[test]
fn a_stride_is_copied_and_cut(rt: HostRuntime) {
    let mut column = Strides::<Vec<u64>, [u64; 2]>::empty(rt.alloc());
    let offsets = [(3, Ok(())), (6, Ok(())), (10, Ok(())), (13, Ok(()))];
    holds!(rt; answers(&mut column, offsets.as_slice()));
    let mut other = Strides::<Vec<u64>, [u64; 2]>::empty(rt.alloc());
    equal!(rt; copied(&mut other, &column, 1, 4), Some(Ok(())));
    equal!(rt; other.head, [6, 1]);
    equal!(rt; other.bounds.as_slice(), [10, 13].as_slice());
    popped(&mut other);
    equal!(rt; other.bounds.as_slice(), [10].as_slice());
    other.clear();
    equal!(rt; other.head, [0, 0]);
    cut(&mut column, 1);
    equal!(rt; column.head, [3, 1]);
    equal!(rt; column.bounds.len(), 0);
    equal!(rt; column.strided(), Some(3));
    popped(&mut column);
    equal!(rt; column.head, [3, 0]);
}

#[test]
fn a_falling_offset_stands_as_it_is(rt: HostRuntime) {
    let mut column = Strides::new(rt.alloc(), 3, 2);
    holds!(rt; answers(&mut column, [(5, Ok(()))].as_slice()));
    equal!(rt; told(&column, 2, 5, 5), (Some(5), false, false));
}

#[test]
fn what_a_head_claims_is_reckoned(rt: HostRuntime) {
    for (head, bounds, wanted) in [
        (
            [8589934592, 8589934592].as_slice(),
            [].as_slice(),
            Err(StoreFault::Stride(0)),
        ),
        (
            [0, 18446744073709551615].as_slice(),
            [0].as_slice(),
            Err(StoreFault::Length(0)),
        ),
        ([0, 18446744073709551615].as_slice(), [].as_slice(), Ok(())),
        ([1, 18446744073709551615].as_slice(), [].as_slice(), Ok(())),
        ([0].as_slice(), [].as_slice(), Err(StoreFault::HeadSize(0))),
    ] {
        equal!(rt; viewed(head, bounds).check(), wanted);
    }
    let odd = Strides {
        head: View::from_slice(&[0, 0]),
        bounds: View::<u64>::from_le_bytes(&[1, 2, 3]),
    };
    equal!(rt; odd.check(), Err(StoreFault::ElementSize(1)));
}

// Returns the view of a head and bounds.
fn viewed<'a>(head: &'a [u64], bounds: &'a [u64]) -> Strides<View<'a, u64>, View<'a, u64>> {
    Strides {
        head: View::from_slice(head),
        bounds: View::from_slice(bounds),
    }
}

#[test]
fn multiples_are_told_from_others(rt: HostRuntime) {
    let alloc = rt.alloc();
    let column = Fixeds::<3, u64>::try_from(Strides::new(alloc, 3, 100)).ok();
    equal!(rt; column.expect(&rt, "accepted").count, 100);
    let view = Fixeds::<3, View<'_, u64>>::try_from(viewed(&[3, 100], &[])).ok();
    equal!(rt; only(&view.expect(&rt, "accepted").count), Some(100));
    holds!(rt; Fixeds::<3, u64>::try_from(Strides::empty(alloc)).is_err());
}

#[test]
fn others_are_given_back(rt: HostRuntime) {
    let mut longer = Strides::new(rt.alloc(), 3, 100);
    holds!(rt; answers(&mut longer, [(302, Ok(()))].as_slice()));
    equal!(rt; longer.strided(), None);
    let view = Fixeds::<3, View<'_, u64>>::try_from(longer.borrow()).err();
    equal!(rt; only(&view.expect(&rt, "refused").bounds), Some(302));
    let back = Fixeds::<3, u64>::try_from(longer)
        .err()
        .expect(&rt, "refused");
    equal!(rt; back.head, [3, 100]);
    equal!(rt; back.bounds.as_slice(), [302].as_slice());
}

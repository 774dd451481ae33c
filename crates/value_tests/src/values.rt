// Columns of values, read and grown as lists of rows.
ghost use Rattle.std.specs.Prelude.{◌≡◌, IsTrue};
ghost use Rattle.columnar_base.specs.Format.{representable};

use crate::held::{copy_twice, grown, pair_of, reads, sizes_of, slices_are};
use columnar_core::bytes::Check;
use columnar_core::container::{Borrow, ExtendFrom, Reborrow, Storage};
use columnar_core::fault::{GrowError, StoreFault};
use columnar_core::traits::Push;
use columnar_core::view::View;
use columnar_primitive::chars::Chars;
use columnar_primitive::count::Count;
use columnar_primitive::durations::Durations;
use columnar_primitive::empties::Empties;
use columnar_primitive::larges::{I128s, U128s};
use columnar_primitive::numbers::{Isizes, Usizes};
use std::iter::{empty, once};
use std::marker::PhantomData;
use std::test::Fail;
use std::time::Duration;
use test_support::columns::{count, row_at};
use test_support::{equal, holds};

type Sizes = Usizes<Vec<u64>>;

type Differences = Isizes<Vec<i64>>;

type Characters = Chars<Vec<u32>>;

type Large = U128s<Vec<[u8; 16]>>;

type LargeSigned = I128s<Vec<[u8; 16]>>;

type Times = Durations<Vec<u64>, Vec<u32>>;

type Units = Empties<u64>;

// Tests through the trait whether a view is well-formed.
fn checked<V: Check>(view: &V) -> Result<(), StoreFault>
    requires { IsTrue (representable V.format) }
{
    match view.check() {
        Ok(()) => Ok(()),
        Err(fault) => Err(fault),
    }
}

#[test]
fn sizes_are_rows(rt: HostRuntime) -> Result<(), Fail> {
    let others = [4usize, 5];
    let held = grown::<_, Sizes, _>(rt.alloc(), 1, &2, &3, others.iter().copied()).expect(
        &rt, "grown",
    );
    equal!(rt; held.column.values.as_slice(), [1, 2, 3, 4, 5].as_slice());
    equal!(rt; count(&held.column), 5);
    holds!(rt; reads(&held, [1, 2, 3, 4, 5].as_slice()));
    equal!(rt; row_at(&&held.column, 2), Some(3));
    let sizes = sizes_of::<Sizes>(rt.alloc()).expect(&rt, "sizes");
    equal!(rt; sizes.as_slice(), [8].as_slice());
    holds!(rt; slices_are(&held.column, 8, 40));
    let view = held.column.borrow().reborrow();
    let copies = copy_twice::<_, Sizes, _>(rt.alloc(), view, once(view), 1, 3, 2).expect(
        &rt, "copies",
    );
    equal!(rt; copies.more.column.values.as_slice(), [1, 2, 3, 4, 5, 2, 3].as_slice());
    equal!(rt; copies.cut.column.values.as_slice(), [1, 2].as_slice());
    equal!(rt; copies.again.column.values.as_slice(), [1, 2].as_slice());
    Ok(())
}

#[test]
fn differences_are_rows(rt: HostRuntime) -> Result<(), Fail> {
    let held = pair_of::<_, Differences>(rt.alloc(), -1, &isize::MIN).expect(&rt, "grown");
    equal!(rt; held.column.values.as_slice(), [-1, i64::MIN].as_slice());
    holds!(rt; reads(&held, [-1, isize::MIN].as_slice()));
    Ok(())
}

#[test]
fn large_numbers_are_rows(rt: HostRuntime) -> Result<(), Fail> {
    let held = pair_of::<_, Large>(rt.alloc(), 1, &u128::MAX).expect(&rt, "grown");
    let one = [1, 0, 0, 0, 0, 0, 0, 0, 0, 0, 0, 0, 0, 0, 0, 0];
    equal!(rt; held.column.values.as_slice(), [one, [255; 16]].as_slice());
    holds!(rt; reads(&held, [1, u128::MAX].as_slice()));
    Ok(())
}

#[test]
fn large_signed_numbers_are_rows(rt: HostRuntime) -> Result<(), Fail> {
    let held = pair_of::<_, LargeSigned>(rt.alloc(), -1, &i128::MIN).expect(&rt, "grown");
    let least = [0, 0, 0, 0, 0, 0, 0, 0, 0, 0, 0, 0, 0, 0, 0, 128];
    equal!(rt; held.column.values.as_slice(), [[255; 16], least].as_slice());
    holds!(rt; reads(&held, [-1, i128::MIN].as_slice()));
    Ok(())
}

#[test]
fn characters_are_rows(rt: HostRuntime) -> Result<(), Fail> {
    let held = pair_of::<_, Characters>(rt.alloc(), 'a', &'\u{10FFFF}').expect(&rt, "grown");
    equal!(rt; held.column.values.as_slice(), [97, 0x10FFFF].as_slice());
    holds!(rt; reads(&held, ['a', '\u{10FFFF}'].as_slice()));
    Ok(())
}

#[test]
fn codes_of_characters_are_judged(rt: HostRuntime) {
    for (codes, wanted) in [
        ([0xD7FF, 0xE000], Ok(())),
        ([97, 0xD800], Err(StoreFault::Value(0))),
        ([0xDFFF, 97], Err(StoreFault::Value(0))),
        ([97, 0x110000], Err(StoreFault::Value(0))),
    ] {
        let view: Chars<View<'_, u32>> = Chars {
            values: View::from_slice(codes.as_slice()),
            of: PhantomData,
        };
        equal!(rt; checked(&view), wanted);
    }
    let short: Chars<View<'_, u32>> = Chars {
        values: View::from_le_bytes([97, 0, 0].as_slice()),
        of: PhantomData,
    };
    equal!(rt; checked(&short), Err(StoreFault::ElementSize(0)));
}

#[test]
fn durations_are_rows(rt: HostRuntime) -> Result<(), Fail> {
    let rows = [
        Duration::new(17, 42),
        Duration::new(1, 999_999_999),
        Duration::ZERO,
        Duration::new(u64::MAX, 5),
    ];
    let mut held = grown::<_, Times, _>(rt.alloc(), rows[0], &rows[1], &rows[2], empty()).expect(
        &rt, "grown",
    );
    holds!(rt; held.column.push_parts(u64::MAX, 5).is_ok());
    equal!(rt; held.column.seconds.as_slice(), [17, 1, 0, u64::MAX].as_slice());
    equal!(rt;
        held.column.nanoseconds.as_slice(),
        [42, 999_999_999, 0, 5].as_slice()
    );
    equal!(rt; count(&held.column), 4);
    holds!(rt; reads(&held, rows.as_slice()));
    equal!(rt; row_at(&&held.column, 0), Some(Duration::new(17, 42)));
    Ok(())
}

#[test]
fn durations_are_copied_and_cut(rt: HostRuntime) -> Result<(), Fail> {
    let held = pair_of::<_, Times>(
        rt.alloc(),
        Duration::new(17, 42),
        &Duration::new(1, 999_999_999),
    )
    .expect(&rt, "grown");
    let view = held.column.borrow();
    let copies = copy_twice::<_, Times, _>(rt.alloc(), view, once(view), 1, 2, 1).expect(
        &rt, "copies",
    );
    holds!(rt; copies.all.column == held.column);
    equal!(rt; copies.more.column.seconds.as_slice(), [17, 1, 1].as_slice());
    equal!(rt; copies.cut.column.nanoseconds.as_slice(), [42].as_slice());
    Ok(())
}

#[test]
fn parts_of_durations_are_judged(rt: HostRuntime) -> Result<(), Fail> {
    for (seconds, nanoseconds, wanted) in [
        (
            [1, 2],
            [0, 1_000_000_000].as_slice(),
            Err(StoreFault::Value(0)),
        ),
        (
            [1, 2],
            [1_000_000_000].as_slice(),
            Err(StoreFault::Parts(0)),
        ),
        ([1, 2], [0, 999_999_999].as_slice(), Ok(())),
    ] {
        let view = Durations {
            seconds: View::from_slice(seconds.as_slice()),
            nanoseconds: View::from_slice(nanoseconds),
        };
        equal!(rt; view.check(), wanted);
    }
    let sizes = sizes_of::<Times>(rt.alloc()).expect(&rt, "sizes");
    equal!(rt; sizes.as_slice(), [8, 4].as_slice());
    Ok(())
}

#[test]
fn units_are_counted(rt: HostRuntime) -> Result<(), Fail> {
    let held = grown::<_, Units, _>(rt.alloc(), (), &(), &(), empty()).expect(&rt, "grown");
    equal!(rt; count(&held.column), 3);
    equal!(rt; held.column.count.count(), 3);
    holds!(rt; reads(&held, [(), (), ()].as_slice()));
    equal!(rt; row_at(&&held.column, 2), Some(&()));
    let view = held.column.borrow();
    let copies = copy_twice::<_, Units, _>(rt.alloc(), view, once(view), 1, 3, 4).expect(
        &rt, "copies",
    );
    equal!(rt; copies.more.column.count, 5);
    equal!(rt; copies.cut.column.count, 4);
    Ok(())
}

#[test]
fn units_are_held_up_to_the_greatest_number(rt: HostRuntime) -> Result<(), Fail> {
    let mut column = Units::empty(rt.alloc());
    column.push(())?;
    let mut full = Empties {
        count: u64::MAX - 1,
        empty: (),
    };
    equal!(rt; full.push(()), Ok(()));
    equal!(rt; full.push(()), Err(GrowError::Length));
    equal!(rt;
        full.extend_from_self(column.borrow(), 0..1),
        Err(GrowError::Length)
    );
    equal!(rt; full.extend_from_self(column.borrow(), 1..1), Ok(()));
    equal!(rt; full.count, u64::MAX);
    Ok(())
}

#[test]
fn a_number_of_units_is_one_word(rt: HostRuntime) -> Result<(), Fail> {
    let two: Empties<View<'_, u64>> = Empties {
        count: View::from_slice([1, 2].as_slice()),
        empty: (),
    };
    equal!(rt; two.check(), Err(StoreFault::HeadSize(0)));
    let none: Empties<View<'_, u64>> = Empties {
        count: View::from_le_bytes([].as_slice()),
        empty: (),
    };
    equal!(rt; none.check(), Err(StoreFault::HeadSize(0)));
    Ok(())
}

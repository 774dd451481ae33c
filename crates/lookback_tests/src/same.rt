// Which rows are the same as an item, for each column that can test it.
ghost use Rattle.columnar_core.specs.Format.{IsSound};

use columnar_bits::bools::Bools;
use columnar_core::boxed::Boxed;
use columnar_core::container::Storage;
use columnar_core::traits::{Item, Len, Push, PushRef};
use columnar_lookback::lookbacks::Lookbacks;
use columnar_lookback::repeats::Repeats;
use columnar_lookback::same::SameAs;
use columnar_primitive::chars::Chars;
use columnar_primitive::durations::Durations;
use columnar_primitive::empties::Empties;
use columnar_primitive::offsets::Strides;
use columnar_strings::string::Strings;
use columnar_sums::option::Options;
use std::alloc::Global;
use std::test::Fail;
use std::time::Duration;
use test_support::equal;

// Tests whether the item is the same as each of two rows.
fn told<T: Item + Copy, C: Storage + Push<T> + SameAs<T> + Drop>(
    alloc: Global,
    first: T,
    second: T,
    item: &T,
) -> Result<(bool, bool), Fail>
    requires first_valid { T.valid first }
    requires second_valid { T.valid second }
    requires valid { T.valid item.now }
{
    let mut column = C::empty(alloc);
    column.push(first)?;
    column.push(second)?;
    if column.len() != 2 {
        return Err(Fail::from("not two rows"));
    }
    Ok((column.same(0, item), column.same(1, item)))
}

#[test]
fn numbers_bits_and_characters(rt: HostRuntime) -> Result<(), Fail> {
    let alloc = rt.alloc();
    equal!(rt; told::<u64, Vec<u64>>(alloc, 1, 2, &2)?, (false, true));
    equal!(rt; told::<&u64, Vec<u64>>(alloc, &1, &2, &&1)?, (true, false));
    equal!(rt; told::<u8, Vec<u8>>(alloc, 1, 2, &3)?, (false, false));
    equal!(rt;
        told::<bool, Bools>(alloc, true, false, &true)?,
        (true, false)
    );
    equal!(rt;
        told::<&bool, Bools>(alloc, &true, &false, &&false)?,
        (false, true)
    );
    equal!(rt; told::<char, Chars>(alloc, 'a', 'b', &'b')?, (false, true));
    equal!(rt;
        told::<&char, Chars>(alloc, &'a', &'b', &&'a')?,
        (true, false)
    );
    Ok(())
}

#[test]
fn durations_units_and_strides(rt: HostRuntime) -> Result<(), Fail> {
    let alloc = rt.alloc();
    let long = Duration::new(2, 1);
    let short = Duration::new(2, 0);
    equal!(rt;
        told::<Duration, Durations>(alloc, long, short, &short)?,
        (false, true)
    );
    equal!(rt;
        told::<&Duration, Durations>(alloc, &long, &short, &&long)?,
        (true, false)
    );
    equal!(rt; told::<(), Empties>(alloc, (), (), &())?, (true, true));
    equal!(rt; told::<&(), Empties>(alloc, &(), &(), &&())?, (true, true));
    equal!(rt; told::<u64, Strides>(alloc, 3, 6, &6)?, (false, true));
    equal!(rt; told::<&u64, Strides>(alloc, &3, &5, &&3)?, (true, false));
    Ok(())
}

#[test]
fn tuples_of_columns(rt: HostRuntime) -> Result<(), Fail> {
    let alloc = rt.alloc();
    equal!(rt;
        told::<_, (Vec<u64>,)>(alloc, (1u64,), (2,), &(1,))?,
        (true, false)
    );
    for (first, second, wanted) in [
        ((1u64, 2u64), (1, 3), (false, true)),
        ((1, 3), (2, 3), (true, false)),
    ] {
        equal!(rt;
            told::<_, (Vec<u64>, Vec<u64>)>(alloc, first, second, &(1, 3))?,
            wanted
        );
    }
    equal!(rt;
        told::<_, (Vec<u64>, Vec<u64>)>(alloc, &(1u64, 3u64), &(2, 3), &&(2, 3))?,
        (false, true)
    );
    Ok(())
}

#[test]
fn tuples_of_three_columns(rt: HostRuntime) -> Result<(), Fail> {
    let alloc = rt.alloc();
    let row = (1u64, 2u64, true);
    for (other, item, wanted) in [
        ((1, 2, false), (1, 2, false), (false, true)),
        ((2, 2, true), (1, 2, true), (true, false)),
    ] {
        equal!(rt;
            told::<_, (Vec<u64>, Vec<u64>, Bools)>(alloc, row, other, &item)?,
            wanted
        );
    }
    Ok(())
}

#[test]
fn rows_that_may_be_absent_and_boxes(rt: HostRuntime) -> Result<(), Fail> {
    let alloc = rt.alloc();
    let one = Some(1u64);
    let two = Some(2u64);
    for (second, item, wanted) in [
        (two, two, (false, true)),
        (None, None, (false, true)),
        (None, one, (true, false)),
    ] {
        equal!(rt;
            told::<_, Options<Vec<u64>>>(alloc, one, second, &item)?,
            wanted
        );
    }
    equal!(rt;
        told::<_, Options<Vec<u64>>>(alloc, &None, &two, &&two)?,
        (false, true)
    );
    equal!(rt;
        told::<_, Boxed<Vec<u64>>>(alloc, Boxed(1u64), Boxed(2), &Boxed(1))?,
        (true, false)
    );
    Ok(())
}

// Creates a column of boxes of these numbers, each pushed by reference.
fn boxes_of<C: Storage + PushRef<Box<u64>>>(
    alloc: Global,
    first: u64,
    second: u64,
    third: u64,
) -> Result<C, Fail> {
    let mut column = C::empty(alloc);
    column.push_ref(&Box::new(alloc, first)?)?;
    column.push_ref(&Box::new(alloc, second)?)?;
    column.push_ref(&Box::new(alloc, third)?)?;
    Ok(column)
}

#[test]
fn boxes_that_come_again(rt: HostRuntime) -> Result<(), Fail> {
    let alloc = rt.alloc();
    let runs = boxes_of::<Repeats<Boxed<Vec<u64>>>>(alloc, 7, 7, 8)?;
    equal!(rt; runs.inner.somes.0.as_slice(), [7, 8].as_slice());
    let backs = boxes_of::<Lookbacks<Boxed<Vec<u64>>, 255>>(alloc, 7, 8, 7)?;
    equal!(rt; backs.inner.oks.0.as_slice(), [7, 8].as_slice());
    equal!(rt; backs.inner.errs.as_slice(), [1].as_slice());
    Ok(())
}

#[test]
fn tuples_of_four_columns(rt: HostRuntime) -> Result<(), Fail> {
    let item = (1u64, 2u64, true, 4u64);
    for (row, wanted) in [
        ((1, 2, true, 4), true),
        ((9, 2, true, 4), false),
        ((1, 9, true, 4), false),
        ((1, 2, false, 4), false),
        ((1, 2, true, 9), false),
    ] {
        equal!(rt;
            told::<_, (Vec<u64>, Vec<u64>, Bools, Vec<u64>)>(rt.alloc(), item, row, &item)?,
            (true, wanted)
        );
    }
    Ok(())
}

#[test]
fn texts(rt: HostRuntime) -> Result<(), Fail> {
    let alloc = rt.alloc();
    for (first, second, item, wanted) in [
        ("abc", "abd", "abc", (true, false)),
        ("abc", "ab", "ab", (false, true)),
        ("", "ab", "", (true, false)),
    ] {
        equal!(rt; told::<&str, Strings>(alloc, first, second, &item)?, wanted);
    }
    equal!(rt;
        told::<&[u8], Strings>(
            alloc,
            b"ab".as_slice(),
            b"\xff".as_slice(),
            &b"\xff".as_slice()
        )?,
        (false, true)
    );
    Ok(())
}

// Numbers that are stored as the distance back to one with the same last decimal digit, by worked rows.
ghost use Rattle.columnar_core.specs.Format.{IsSound};
ghost use Rattle.columnar_bytes.specs.Stashes.{stash_content};

use super::Tens;
use crate::rows::numbers;
use columnar_bytes::stash::Stash;
use columnar_core::container::ContainerBytes;
use columnar_core::traits::Column;
use columnar_lists::vector::Vecs;
use columnar_lookback::lookbacks::Lookbacks;
use std::test::Fail;
use test_support::columns::{item_of, reads, takes};
use test_support::stashes::{opened, row_of, variant, writes};
use test_support::{equal, holds};

pub(super) type Held = Lookbacks<Tens<Vec<u64>>, 255>;

type Lists = Vecs<Held, Vec<u64>>;

// The rows 13, 23, both stored as values.
pub(super) static BOTH_STORED: [u64; 10] = [48, 48, 48, 64, 80, 80, 3, 2, 13, 23];

// The same, each in a list
static TWO_LISTS: [u64; 13] = [56, 72, 72, 72, 88, 104, 104, 1, 2, 3, 2, 13, 23];

#[test]
fn the_same_digit_is_kept_as_its_distance(rt: HostRuntime) -> Result<(), Fail> {
    let column = numbers::<Held>(rt.alloc(), [13, 27, 23].as_slice())?;
    holds!(rt; reads(&column, [13, 27, 13].as_slice()));
    equal!(rt; column.inner.oks.numbers.as_slice(), [13, 27].as_slice());
    equal!(rt; column.inner.errs.as_slice(), [1].as_slice());
    equal!(rt; column.distance_to(&107u64), Some(0));
    equal!(rt; column.distance_to(&3u64), Some(1));
    equal!(rt; column.distance_to(&31u64), None);
    Ok(())
}

#[test]
fn bytes_with_one_digit_twice_are_pushed_to(rt: HostRuntime) -> Result<(), Fail> {
    let mut stash = opened::<Held>(rt.alloc(), BOTH_STORED.as_slice()).expect(&rt, "opened");
    match stash.make_typed() {
        Ok(column) => {
            holds!(rt; takes(column, 33u64));
            holds!(rt; reads(&*column, [13, 23, 23].as_slice()));
        }
        Err(_) => holds!(rt; false),
    }
    equal!(rt; variant(&stash), 0);
    holds!(rt; writes(&stash, [48, 48, 48, 64, 80, 81, 3, 3, 13, 23, 0].as_slice()));
    Ok(())
}

// Tests whether a stash has the lists [13] and [23].
fn has_both_lists<'a>(stash: &'a Stash<Lists, Vec<u8>>) -> bool
    requires { IsSound ⟦<Lists as Column>⟧.format (stash_content stash.now) }
{
    item_of(row_of(stash, 0), 0) == Some(13)
        && item_of(row_of(stash, 0), 1).is_none()
        && item_of(row_of(stash, 1), 0) == Some(23)
        && item_of(row_of(stash, 1), 1).is_none()
}

// Makes a stash typed in place. Its rows stay the same, or an allocation failed.
fn made_typed<C: ContainerBytes + Drop>(stash: &mut Stash<C, Vec<u8>>) -> bool
    requires { IsSound C.format (stash_content stash.old) }
    ensures { IsSound C.format (stash_content stash.new) }
{
    match stash.make_typed() {
        Ok(_column) => true,
        Err(_) => false,
    }
}

#[test]
fn lists_of_digits_are_opened_and_loaded(rt: HostRuntime) -> Result<(), Fail> {
    let stash = opened::<Lists>(rt.alloc(), TWO_LISTS.as_slice()).expect(&rt, "opened");
    equal!(rt; variant(&stash), 1);
    holds!(rt; has_both_lists(&stash));
    let typed = stash.to_typed(rt.alloc())?;
    equal!(rt; variant(&typed), 0);
    holds!(rt; has_both_lists(&typed));
    Ok(())
}

#[test]
fn lists_of_digits_are_made_typed(rt: HostRuntime) -> Result<(), Fail> {
    let mut stash = opened::<Lists>(rt.alloc(), TWO_LISTS.as_slice()).expect(&rt, "opened");
    holds!(rt; made_typed(&mut stash));
    equal!(rt; variant(&stash), 0);
    holds!(rt; has_both_lists(&stash));
    Ok(())
}

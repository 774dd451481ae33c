// Runs of numbers that have the same last decimal digit, by worked rows.
use super::Tens;
use crate::rows::numbers;
use columnar_bytes::stash::Stash;
use columnar_core::container::{Borrow, Storage};
use columnar_core::traits::Len;
use columnar_lookback::repeats::Repeats;
use std::test::Fail;
use test_support::columns::{copied, cut, reads, row_at, takes};
use test_support::stashes::{has, reopened, writes};
use test_support::{equal, holds};

type Held = Repeats<Tens<Vec<u64>>>;

#[test]
fn numbers_of_one_digit_are_kept_once(rt: HostRuntime) -> Result<(), Fail> {
    let mut column = numbers::<Held>(rt.alloc(), [13, 23, 33, 41, 51, 3].as_slice())?;
    holds!(rt; reads(&column, [13, 13, 13, 41, 41, 3].as_slice()));
    equal!(rt;
        column.inner.somes.numbers.as_slice(),
        [13, 41, 3].as_slice()
    );
    holds!(rt; column.is_repeated(&103u64));
    holds!(rt; !column.is_repeated(&31u64));
    cut(&mut column, 2);
    holds!(rt; takes(&mut column, 93u64));
    holds!(rt; takes(&mut column, 94u64));
    holds!(rt; reads(&column, [13, 13, 13, 94].as_slice()));
    equal!(rt; column.inner.somes.numbers.as_slice(), [13, 94].as_slice());
    Ok(())
}

#[test]
fn ranges_are_copied_after_the_same_digit(rt: HostRuntime) -> Result<(), Fail> {
    let source = numbers::<Held>(rt.alloc(), [23, 3, 41, 1].as_slice())?;
    let mut column = numbers::<Held>(rt.alloc(), [13].as_slice())?;
    holds!(rt; copied(&mut column, source.borrow(), 0, 3));
    holds!(rt; reads(&column, [13, 13, 13, 41].as_slice()));
    equal!(rt; column.inner.somes.numbers.as_slice(), [13, 41].as_slice());
    let mut front = Held::empty(rt.alloc());
    holds!(rt; copied(&mut front, source.borrow(), 0, 3));
    holds!(rt; reads(&front, [23, 23, 41].as_slice()));
    let mut inner = Held::empty(rt.alloc());
    holds!(rt; copied(&mut inner, source.borrow(), 1, 4));
    holds!(rt; reads(&inner, [23, 41, 41].as_slice()));
    equal!(rt; inner.inner.somes.numbers.as_slice(), [23, 41].as_slice());
    Ok(())
}

#[test]
fn runs_of_digits_are_written_and_opened(rt: HostRuntime) -> Result<(), Fail> {
    let words = [40, 40, 40, 56, 80, 41, 6, 13, 41, 3];
    let column = numbers::<Held>(rt.alloc(), [13, 23, 33, 41, 51, 3].as_slice())?;
    equal!(rt; row_at(&column.borrow(), 4), Some(41));
    let stash = reopened(rt.alloc(), &Stash::<_, Vec<u8>>::Typed(column)).expect(&rt, "reopened");
    equal!(rt; stash.len(), 6);
    holds!(rt; has(&stash, [13, 13, 13, 41, 41, 3].as_slice()));
    holds!(rt; writes(&stash, words.as_slice()));
    Ok(())
}

// Whole stores of columns of values: written as the words worked out by hand, opened and read, and rejected if they
// break a rule.
use columnar::bytes::indexed::encode;
use columnar::bytes::stash::Stash;
use columnar::fault::GrowError;
use columnar::primitive::offsets::{Fixeds, Strides};
use columnar::primitive::{Bools, Chars, Durations, Empties, Isizes, U128s};
use columnar::{Borrow, Len, Push, PushRef, Storage};
use std::test::Fail;
use std::time::Duration;
use test_support::stashes::{has, opened, row_of, variant, writes};
use test_support::stores::{bytes_of, is_written, refusal};
use test_support::{equal, holds};

type Bytes = Vec<u8>;

type Times = Durations<Vec<u64>, Vec<u32>>;

type Units = Empties<u64>;

type Large = U128s<Vec<[u8; 16]>>;

type Differences = Isizes<Vec<i64>>;

type Steps = Strides<Vec<u64>, [u64; 2]>;

type Bits = Bools<Vec<u64>, [u64; 2]>;

#[test]
fn bytes_are_padded_with_zeros(rt: HostRuntime) -> Result<(), Fail> {
    let mut column = Bytes::empty(rt.alloc());
    holds!(rt; Push::push(&mut column, 1u8).is_ok());
    holds!(rt; Push::push(&mut column, &2u8).is_ok());
    holds!(rt; column.push_ref(&3u8).is_ok());
    let mut words = Vec::new(rt.alloc());
    encode(&mut words, &column.borrow())?;
    equal!(rt; words.as_slice(), [16, 19, 197121].as_slice());
    let stash = opened::<Bytes>(rt.alloc(), words.as_slice()).expect(&rt, "bytes");
    holds!(rt; has(&stash, &[&1, &2, &3]));
    Ok(())
}

#[test]
fn foreign_padding_is_kept_until_it_is_aligned(rt: HostRuntime) -> Result<(), Fail> {
    let padded = [16, 19, 4278387201];
    let mut stash = opened::<Bytes>(rt.alloc(), padded.as_slice()).expect(&rt, "bytes");
    holds!(rt; has(&stash, &[&1, &2, &3]));
    holds!(rt; writes(&stash, padded.as_slice()));
    let aligned = stash.to_aligned(rt.alloc())?;
    equal!(rt; variant(&aligned), 2);
    holds!(rt; writes(&aligned, [16, 19, 197121].as_slice()));
    let wanted = bytes_of(rt.alloc(), [16, 19, 197121].as_slice())?;
    equal!(rt; stash.make_aligned(rt.alloc())?.bytes(), wanted.as_slice());
    equal!(rt; stash.make_aligned(rt.alloc())?.bytes(), wanted.as_slice());
    equal!(rt; variant(&stash), 2);
    Ok(())
}

#[test]
fn slices_of_bytes_are_pushed(rt: HostRuntime) -> Result<(), Fail> {
    let mut column = Bytes::empty(rt.alloc());
    holds!(rt; column.push_slice(&[1, 2]).is_ok());
    holds!(rt; column.push_slice(&[3]).is_ok());
    holds!(rt; column.push_slice(&[]).is_ok());
    holds!(rt; column.push_slice(&[4, 5, 6]).is_ok());
    equal!(rt; column.as_slice(), [1, 2, 3, 4, 5, 6].as_slice());
    Ok(())
}

#[test]
fn a_half_character_is_refused(rt: HostRuntime) -> Result<(), Fail> {
    let alloc = rt.alloc();
    let half = [16, 20, 55296];
    equal!(rt;
        refusal::<Chars<Vec<u32>>>(alloc, half.as_slice())?,
        (14, 0)
    );
    // The code before it is that of a character.
    let stash = opened::<Chars<Vec<u32>>>(alloc, [16, 20, 55295].as_slice()).expect(&rt, "one");
    equal!(rt; row_of(&stash, 0), Some('\u{D7FF}'));
    Ok(())
}

#[test]
fn durations_are_kept_in_two_slices(rt: HostRuntime) -> Result<(), Fail> {
    let store = [24, 32, 36, 17, 42];
    let mut column = Times::empty(rt.alloc());
    holds!(rt; column.push(Duration::new(17, 42)).is_ok());
    let mut words = Vec::new(rt.alloc());
    encode(&mut words, &column.borrow())?;
    equal!(rt; words.as_slice(), store.as_slice());
    let stash = opened::<Times>(rt.alloc(), store.as_slice()).expect(&rt, "durations");
    equal!(rt; stash.len(), 1);
    equal!(rt; row_of(&stash, 0), Some(Duration::new(17, 42)));
    let second = [24, 32, 36, 17, 1_000_000_000];
    equal!(rt; refusal::<Times>(rt.alloc(), second.as_slice())?, (14, 0));
    Ok(())
}

#[test]
fn units_are_a_count(rt: HostRuntime) -> Result<(), Fail> {
    let store = [16, 24, 3];
    let mut column = Units::empty(rt.alloc());
    holds!(rt; column.push(()).is_ok());
    holds!(rt; column.push(&()).is_ok());
    holds!(rt; column.push_ref(&()).is_ok());
    let mut words = Vec::new(rt.alloc());
    encode(&mut words, &column.borrow())?;
    equal!(rt; words.as_slice(), store.as_slice());
    let stash = opened::<Units>(rt.alloc(), store.as_slice()).expect(&rt, "units");
    equal!(rt; stash.len(), 3);
    equal!(rt; row_of(&stash, 2), Some(()));
    equal!(rt; row_of(&stash, 3), None);
    let none = [16, 16];
    equal!(rt; refusal::<Units>(rt.alloc(), none.as_slice())?, (9, 0));
    Ok(())
}

#[test]
fn large_numbers_are_two_words(rt: HostRuntime) -> Result<(), Fail> {
    let store = [16, 32, 1, 0];
    let mut column = Large::empty(rt.alloc());
    holds!(rt; column.push(1u128).is_ok());
    holds!(rt; is_written(&column, store.as_slice()));
    let stash = opened::<Large>(rt.alloc(), store.as_slice()).expect(&rt, "numbers");
    holds!(rt; has(&stash, &[1]));
    Ok(())
}

#[test]
fn differences_are_in_twos_complement(rt: HostRuntime) -> Result<(), Fail> {
    let store = [16, 24, 18446744073709551615];
    let mut column = Differences::empty(rt.alloc());
    holds!(rt; column.push(-1isize).is_ok());
    holds!(rt; is_written(&column, store.as_slice()));
    let stash = opened::<Differences>(rt.alloc(), store.as_slice()).expect(&rt, "numbers");
    holds!(rt; has(&stash, &[-1]));
    Ok(())
}

#[test]
fn what_a_head_claims_is_judged(rt: HostRuntime) -> Result<(), Fail> {
    let alloc = rt.alloc();
    let far = [24, 40, 40, 8589934592, 8589934592];
    equal!(rt; refusal::<Steps>(alloc, far.as_slice())?, (16, 0));
    let many = [24, 40, 48, 0, 18446744073709551615, 0];
    equal!(rt; refusal::<Steps>(alloc, many.as_slice())?, (19, 0));
    Ok(())
}

#[test]
fn only_the_next_multiple_is_pushed(rt: HostRuntime) -> Result<(), Fail> {
    let mut column = Fixeds::<3, u64>::empty(rt.alloc());
    equal!(rt; column.push(4), Err(GrowError::Offset));
    equal!(rt; column.count, 0);
    equal!(rt; column.push(3), Ok(()));
    equal!(rt; column.count, 1);
    let mut stash = Stash::<Fixeds<3, u64>, Vec<u8>>::empty(rt.alloc());
    equal!(rt; stash.push(4u64), Err(GrowError::Offset));
    holds!(rt; stash.is_empty());
    equal!(rt; stash.push(3u64), Ok(()));
    holds!(rt; writes(&stash, [16, 24, 1].as_slice()));
    Ok(())
}

#[test]
fn a_full_count_is_accepted(rt: HostRuntime) -> Result<(), Fail> {
    let full = [16, 24, 18446744073709551615];
    let stash = opened::<Fixeds<1, u64>>(rt.alloc(), full.as_slice()).expect(&rt, "offsets");
    equal!(rt; stash.len(), usize::MAX);
    equal!(rt; row_of(&stash, 0), Some(1));
    equal!(rt; row_of(&stash, usize::MAX - 1), Some(u64::MAX));
    holds!(rt; writes(&stash, full.as_slice()));
    Ok(())
}

#[test]
fn a_part_of_an_element_is_refused(rt: HostRuntime) -> Result<(), Fail> {
    let part = [16, 19, 7];
    equal!(rt; refusal::<Vec<u32>>(rt.alloc(), part.as_slice())?, (8, 0));
    Ok(())
}

#[test]
fn sixty_four_trues_leave_the_tail_empty(rt: HostRuntime) -> Result<(), Fail> {
    let store = [24, 32, 48, 18446744073709551615, 0, 0];
    let mut column = Bits::empty(rt.alloc());
    holds!(rt; Push::extend(&mut column, [true; 64].iter().copied()).is_ok());
    let mut words = Vec::new(rt.alloc());
    encode(&mut words, &column.borrow())?;
    equal!(rt; words.as_slice(), store.as_slice());
    let stash = opened::<Bits>(rt.alloc(), store.as_slice()).expect(&rt, "bits");
    equal!(rt; stash.len(), 64);
    for i in 0..64 {
        equal!(rt; row_of(&stash, i), Some(true));
    }
    equal!(rt; row_of(&stash, 64), None);
    Ok(())
}

#[test]
fn a_tail_is_short_and_clean(rt: HostRuntime) -> Result<(), Fail> {
    let alloc = rt.alloc();
    let dirty = [24, 24, 40, 5, 2];
    equal!(rt; refusal::<Bits>(alloc, dirty.as_slice())?, (13, 0));
    let long = [24, 24, 40, 0, 64];
    equal!(rt; refusal::<Bits>(alloc, long.as_slice())?, (13, 0));
    Ok(())
}

// Several stores in a row, cut off at each byte; stores that continue after their last slice.
use columnar_bytes::indexed::{StoreLength, split_store, store_length, stores};
use columnar_bytes::stash::{ExactFault, Stash};
use columnar_core::fault::StoreFault;
use std::test::Fail;
use test_support::stores::{bytes_of, front};
use test_support::{equal, holds};

// Returns the number of stores, of their bytes, and of the remaining bytes.
fn found(bytes: &[u8]) -> (usize, usize, usize) {
    let all = stores(bytes);
    let mut count = 0usize;
    let mut size = 0usize;
    for store in all {
        count = count.wrapping_add(1);
        size = size.wrapping_add(store.len());
    }
    (count, size, all.rest().len())
}

// Returns what is expected of the first `len` bytes of stores of 24, 24 and 56 bytes.
fn wanted(len: usize) -> (usize, usize, usize) {
    if len < 24 {
        (0, 0, len)
    } else if len < 48 {
        (1, 24, len - 24)
    } else if len < 104 {
        (2, 48, len - 48)
    } else {
        (3, 104, 0)
    }
}

// Returns the lengths of both parts, or why there are none.
fn split(bytes: &[u8]) -> Result<(usize, usize), StoreFault> {
    match split_store(bytes) {
        Ok((first, rest)) => Ok((first.len(), rest.len())),
        Err(fault) => Err(fault),
    }
}

#[test]
fn stores_are_found_torn_at_each_byte(rt: HostRuntime) -> Result<(), Fail> {
    let words = [16, 24, 7, 16, 19, 197121, 24, 40, 56, 1, 2, 3, 4];
    let bytes = bytes_of(rt.alloc(), &words)?;
    for len in 0..105 {
        equal!(rt; found(front(&bytes, len)), wanted(len));
    }
    Ok(())
}

#[test]
fn the_first_store_is_split_off(rt: HostRuntime) -> Result<(), Fail> {
    for (words, len, wanted) in [
        ([16, 24, 7, 9, 9].as_slice(), 40, Ok((24, 16))),
        ([16, 24, 7, 9, 9].as_slice(), 37, Ok((24, 13))),
        ([8, 3].as_slice(), 16, Ok((8, 8))),
        ([16, 19, 197121, 0].as_slice(), 24, Ok((24, 0))),
        (
            [16, 19, 197121, 0].as_slice(),
            23,
            Err(StoreFault::NotWords(0)),
        ),
        (
            [16, 19, 197121, 0].as_slice(),
            18,
            Err(StoreFault::PastEnd(0)),
        ),
        (
            [16, 19, 197121, 0].as_slice(),
            15,
            Err(StoreFault::Table(0)),
        ),
        (
            [16, 19, 197121, 0].as_slice(),
            7,
            Err(StoreFault::NotWords(0)),
        ),
        ([].as_slice(), 0, Err(StoreFault::Empty(0))),
        ([4].as_slice(), 8, Err(StoreFault::FirstOffset(0))),
        (
            [24, 40, 32, 1, 2].as_slice(),
            40,
            Err(StoreFault::Backwards(1)),
        ),
    ] {
        let bytes = bytes_of(rt.alloc(), words)?;
        equal!(rt; split(front(&bytes, len)), wanted);
    }
    Ok(())
}

#[test]
fn a_length_is_known_once_the_table_is_there(rt: HostRuntime) -> Result<(), Fail> {
    for (words, len, wanted) in [
        ([24, 27, 40].as_slice(), 0, Ok(StoreLength::Needs(8))),
        ([24, 27, 40].as_slice(), 7, Ok(StoreLength::Needs(8))),
        ([24, 27, 40].as_slice(), 8, Ok(StoreLength::Needs(24))),
        ([24, 27, 40].as_slice(), 23, Ok(StoreLength::Needs(24))),
        ([24, 27, 40].as_slice(), 24, Ok(StoreLength::Known(40))),
        ([24, 24, 27].as_slice(), 24, Ok(StoreLength::Known(32))),
        ([8, 1].as_slice(), 16, Ok(StoreLength::Known(8))),
        ([8 << 50].as_slice(), 8, Ok(StoreLength::Needs(8 << 50))),
        (
            [16, 1 << 60].as_slice(),
            16,
            Ok(StoreLength::Known(1 << 60)),
        ),
        ([12].as_slice(), 8, Err(StoreFault::FirstOffset(0))),
        ([24, 40, 39].as_slice(), 24, Err(StoreFault::Backwards(1))),
        (
            [24, 40, u64::MAX].as_slice(),
            24,
            Err(StoreFault::PastEnd(1)),
        ),
    ] {
        let bytes = bytes_of(rt.alloc(), words)?;
        equal!(rt; store_length(front(&bytes, len)), wanted);
    }
    Ok(())
}

#[test]
fn an_exact_stash_takes_one_store_and_nothing_after(rt: HostRuntime) -> Result<(), Fail> {
    for (words, wanted) in [
        ([16, 24, 7].as_slice(), None),
        ([16, 24, 7, 9].as_slice(), Some(ExactFault::After(24))),
        (
            [16, 19, 7, 9].as_slice(),
            Some(ExactFault::Store(StoreFault::ElementSize(0))),
        ),
        (
            [16, 32, 7].as_slice(),
            Some(ExactFault::Store(StoreFault::PastEnd(0))),
        ),
    ] {
        let bytes = bytes_of(rt.alloc(), words)?;
        match Stash::<Vec<u64>, Vec<u8>>::try_from_exact(rt.alloc(), bytes) {
            Ok(_) => holds!(rt; wanted.is_none()),
            Err(fault) => equal!(rt; Some(fault), wanted),
        }
    }
    Ok(())
}

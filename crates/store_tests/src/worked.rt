// Stores that were worked out by hand, through the public paths.
use columnar::bytes::indexed::{
    DecodedStore, decode, decode_index, encode, length_in_bytes, length_in_words, validate,
    validate_structure, write,
};
use columnar::bytes::stash::Stash;
use columnar::common::View;
use columnar::fault::{StoreFault, WriteFault};
use columnar::{Borrow, Len, Push, Storage};
use std::alloc::Global;
use std::io::{Error, ErrorKind};
use std::test::Fail;
use test_support::stores::{bytes_of, front, refusal};
use test_support::writers::Slow;
use test_support::{equal, holds};

type Numbers = Vec<u64>;

// The bytes of the store 16, 24, 7
static SEVEN: [u8; 24] = [
    16, 0, 0, 0, 0, 0, 0, 0, 24, 0, 0, 0, 0, 0, 0, 0, 7, 0, 0, 0, 0, 0, 0, 0,
];

// Returns the number of the rule that words break as a store of `slices` slices, and its slice; 0 if they break none.
fn refusal_of_structure(
    alloc: Global,
    words: &[u64],
    expected: usize,
) -> Result<(u8, usize), Error> {
    let bytes = bytes_of(alloc, words)?;
    Ok(match validate_structure(bytes.as_slice(), expected) {
        Ok(()) => (0, 0),
        Err(fault) => (fault.number(), fault.slice()),
    })
}

#[test]
fn a_column_of_seven_is_three_words(rt: HostRuntime) -> Result<(), Fail> {
    let mut column = Numbers::empty(rt.alloc());
    Push::push(&mut column, 7u64)?;
    let mut words = Vec::new(rt.alloc());
    encode(&mut words, &column.borrow())?;
    equal!(rt; words.as_slice(), [16, 24, 7].as_slice());
    equal!(rt; length_in_words(&column.borrow()), Some(3));
    equal!(rt; length_in_bytes(&column.borrow()), Some(24));
    let mut bytes = Vec::new(rt.alloc());
    write(&mut bytes, &column.borrow())?;
    equal!(rt; bytes.as_slice(), SEVEN.as_slice());
    Ok(())
}

#[test]
fn the_empty_column_is_two_words(rt: HostRuntime) -> Result<(), Fail> {
    let column = Numbers::empty(rt.alloc());
    let mut words = Vec::new(rt.alloc());
    encode(&mut words, &column.borrow())?;
    equal!(rt; words.as_slice(), [16, 16].as_slice());
    Ok(())
}

#[test]
fn stores_of_numbers_are_judged(rt: HostRuntime) -> Result<(), Fail> {
    let alloc = rt.alloc();
    let past_end = [16, 32, 7];
    let backwards = [16, 8, 7];
    let words_after = [16, 24, 7, 9];
    for (words, wanted) in [
        (past_end.as_slice(), (6, 0)),
        (backwards.as_slice(), (7, 0)),
        (words_after.as_slice(), (0, 0)),
    ] {
        equal!(rt; refusal::<Numbers>(alloc, words)?, wanted);
    }
    let bytes = bytes_of(alloc, words_after.as_slice())?;
    let Ok(stash) = Stash::<Numbers, Vec<u8>>::try_from_bytes(alloc, bytes) else {
        holds!(rt; false);
        return Ok(());
    };
    equal!(rt; stash.len(), 1);
    Ok(())
}

#[test]
fn structures_are_judged(rt: HostRuntime) -> Result<(), Fail> {
    let alloc = rt.alloc();
    let none: [u64; 0] = [];
    for (words, expected, wanted) in [
        (none.as_slice(), 0, (2, 0)),
        ([0].as_slice(), 0, (3, 0)),
        ([0, 0, 0].as_slice(), 2, (3, 0)),
        ([4].as_slice(), 0, (3, 0)),
        ([16].as_slice(), 1, (4, 0)),
        ([8].as_slice(), 0, (0, 0)),
    ] {
        equal!(rt; refusal_of_structure(alloc, words, expected)?, wanted);
    }
    Ok(())
}

#[test]
fn a_store_without_its_last_byte_is_refused(rt: HostRuntime) -> Result<(), Fail> {
    let cut = front(SEVEN.as_slice(), 23);
    equal!(rt;
        validate::<View<'_, u64>>(cut),
        Err(StoreFault::NotWords(0))
    );
    match Stash::<Numbers, &[u8]>::try_from_bytes(rt.alloc(), cut) {
        Ok(_) => holds!(rt; false),
        Err(fault) => equal!(rt; (fault.number(), fault.slice()), (1, 0)),
    }
    Ok(())
}

#[test]
fn the_slices_are_read_back(rt: HostRuntime) -> Result<(), Fail> {
    let bytes = SEVEN.as_slice();
    match validate_structure(bytes, 1) {
        Ok(()) => {
            let store = DecodedStore::new(bytes);
            equal!(rt; store.len(), 1);
            equal!(rt; store.get(0), [7, 0, 0, 0, 0, 0, 0, 0].as_slice());
            equal!(rt; decode_index(bytes, 0), [7, 0, 0, 0, 0, 0, 0, 0].as_slice());
            equal!(rt; decode(bytes).count(), 1);
        }
        Err(_) => holds!(rt; false),
    }
    Ok(())
}

#[test]
fn a_writer_may_take_one_byte_a_call(rt: HostRuntime) -> Result<(), Fail> {
    let mut column = Numbers::empty(rt.alloc());
    Push::push(&mut column, 7u64)?;
    let mut slow = Slow {
        taken: Vec::new(rt.alloc()),
        limit: 100,
        kind: None,
    };
    holds!(rt; write(&mut slow, &column.borrow()).is_ok());
    equal!(rt; slow.taken.as_slice(), SEVEN.as_slice());
    Ok(())
}

#[test]
fn a_writer_that_fails_ends_the_writing(rt: HostRuntime) -> Result<(), Fail> {
    let mut stash = Stash::<Numbers, Vec<u8>>::empty(rt.alloc());
    stash.push(7u64)?;
    for kind in [
        Some(ErrorKind::BrokenPipe),
        Some(ErrorKind::Interrupted),
        None,
    ] {
        let mut slow = Slow {
            taken: Vec::new(rt.alloc()),
            limit: 10,
            kind,
        };
        let wanted = kind.unwrap_or(ErrorKind::WriteZero);
        match stash.write_bytes(&mut slow) {
            Err(WriteFault::Writer(fault)) => equal!(rt; fault.kind(), wanted),
            _ => holds!(rt; false),
        }
        equal!(rt;
            slow.taken.as_slice(),
            [16, 0, 0, 0, 0, 0, 0, 0, 24, 0].as_slice()
        );
    }
    Ok(())
}

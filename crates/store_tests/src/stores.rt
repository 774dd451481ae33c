// Whole stores that were worked out by hand: lists of units with bounds that follow a stride, rows of arrays, and the
// rules that no other test breaks.
use columnar::bytes::indexed::validate;
use columnar::bytes::stash::Stash;
use columnar::primitive::offsets::{Fixeds, Strides};
use columnar::primitive::{Bools, Empties};
use columnar::{Borrow, Check, Len, Options, Push, Vecs};
use std::alloc::Global;
use std::io::Error;
use std::test::Fail;
use test_support::columns::row_at;
use test_support::stashes::{opened, row_of, writes};
use test_support::stores::{bytes_of, front, refusal};
use test_support::{equal, holds};

// Lists of units, with bounds that follow a stride.
type Spans = Vecs<Empties, Strides>;

// Lists of three units
type Threes = Vecs<Empties, Fixeds<3>>;

// 2^60 empty lists: the stride is 0
static EMPTY_LISTS: [u64; 7] = [32, 48, 48, 56, 0, 1152921504606846976, 0];

static LISTS_OF_ONE: [u64; 7] = [32, 48, 48, 56, 1, 1152921504606846976, 0];

// Counts the rows of words as the store of a type, if they are accepted.
fn rows(alloc: Global, words: &[u64]) -> Option<usize> {
    let stash = opened::<Spans>(alloc, words)?;
    Some(stash.len())
}

#[test]
fn lists_of_a_stride_of_nothing_are_empty(rt: HostRuntime) -> Result<(), Fail> {
    equal!(rt;
        refusal::<Spans>(rt.alloc(), EMPTY_LISTS.as_slice())?,
        (0, 0)
    );
    equal!(rt;
        rows(rt.alloc(), EMPTY_LISTS.as_slice()),
        Some(1152921504606846976)
    );
    equal!(rt;
        refusal::<Spans>(rt.alloc(), LISTS_OF_ONE.as_slice())?,
        (11, 0)
    );
    Ok(())
}

// Counts the lists of words, and the units of the last one, if they are accepted.
fn threes(alloc: Global, words: &[u64]) -> Option<(usize, usize)> {
    let stash = opened::<Threes>(alloc, words)?;
    let list = row_of(&stash, 1)?;
    Some((stash.len(), list.len()))
}

#[test]
fn lists_of_three_units(rt: HostRuntime) -> Result<(), Fail> {
    let two = [24u64, 32, 40, 2, 6];
    let seven_units = [24u64, 32, 40, 2, 7];
    equal!(rt; threes(rt.alloc(), two.as_slice()), Some((2, 3)));
    equal!(rt;
        refusal::<Threes>(rt.alloc(), seven_units.as_slice())?,
        (11, 0)
    );
    Ok(())
}

#[test]
fn a_hundred_lists_of_three_follow_a_stride(rt: HostRuntime) -> Result<(), Fail> {
    let words = [32u64, 48, 48, 56, 3, 100, 300];
    let spans = opened::<Spans>(rt.alloc(), words.as_slice()).expect(&rt, "lists");
    let Stash::Typed(lists) = spans.to_typed(rt.alloc())? else {
        return Err(Fail::from("not a column"));
    };
    let Ok(bounds) = Fixeds::<3>::try_from(lists.bounds) else {
        return Err(Fail::from("not multiples"));
    };
    equal!(rt; bounds.count, 100);
    let threes = Threes {
        bounds,
        values: lists.values,
    };
    let view = threes.borrow();
    holds!(rt; view.check().is_ok());
    for i in 0..100 {
        let list = row_at(&view, i).expect(&rt, "a list");
        equal!(rt; list.len(), 3);
    }
    Ok(())
}

#[test]
fn arrays_of_three_bytes(rt: HostRuntime) -> Result<(), Fail> {
    let one = [16u64, 19, 197121];
    let part = [16u64, 18, 513];
    equal!(rt;
        refusal::<Vec<[u8; 3]>>(rt.alloc(), one.as_slice())?,
        (0, 0)
    );
    equal!(rt;
        refusal::<Vec<[u8; 3]>>(rt.alloc(), part.as_slice())?,
        (8, 0)
    );
    let mut stash = Stash::<Vec<[u8; 3]>, Vec<u8>>::empty(rt.alloc());
    holds!(rt; stash.push([1u8, 2, 3]).is_ok());
    holds!(rt; writes(&stash, one.as_slice()));
    Ok(())
}

#[test]
fn a_tail_has_two_words(rt: HostRuntime) -> Result<(), Fail> {
    let short = [24u64, 24, 32, 5];
    equal!(rt; refusal::<Bools>(rt.alloc(), short.as_slice())?, (9, 1));
    Ok(())
}

#[test]
fn a_store_has_a_table(rt: HostRuntime) -> Result<(), Fail> {
    equal!(rt; refusal::<Vec<u64>>(rt.alloc(), [].as_slice())?, (2, 0));
    equal!(rt; refusal::<Vec<u64>>(rt.alloc(), [0u64].as_slice())?, (3, 0));
    equal!(rt;
        refusal::<Vec<u64>>(rt.alloc(), [16u64].as_slice())?,
        (4, 0)
    );
    equal!(rt; refusal::<Vec<u64>>(rt.alloc(), [8u64].as_slice())?, (5, 0));
    Ok(())
}

// Returns the number of the rule that the first bytes of words break as the store of optional numbers, and its slice.
fn refusal_of_front(alloc: Global, words: &[u64], len: usize) -> Result<(u8, usize), Error> {
    let bytes = bytes_of(alloc, words)?;
    Ok(
        match validate::<Options<Vec<u64>>>(front(bytes.as_slice(), len)) {
            Ok(()) => (0, 0),
            Err(fault) => (fault.number(), fault.slice()),
        },
    )
}

#[test]
fn a_store_is_whole_words(rt: HostRuntime) -> Result<(), Fail> {
    let seven_and_none = [40u64, 40, 40, 56, 64, 1, 2, 7];
    let words = seven_and_none.as_slice();
    equal!(rt; refusal_of_front(rt.alloc(), words, 64)?, (0, 0));
    equal!(rt; refusal_of_front(rt.alloc(), words, 63)?, (1, 0));
    equal!(rt; refusal_of_front(rt.alloc(), words, 56)?, (6, 3));
    Ok(())
}

#[test]
fn the_stride_is_judged_before_the_length(rt: HostRuntime) -> Result<(), Fail> {
    let both = [24u64, 40, 48, 2, 18446744073709551615, 5];
    equal!(rt; refusal::<Strides>(rt.alloc(), both.as_slice())?, (16, 0));
    Ok(())
}

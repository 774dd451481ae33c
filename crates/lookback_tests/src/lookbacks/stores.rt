// Worked stores of lookbacks, and the rules that others break, with their slices.

use super::{RETURNS, Two};
use crate::runs::Backs;
use crate::runs::stashes::BackStash;
use columnar_bits::bools::Bools;
use columnar_core::bytes::Check;
use columnar_core::fault::StoreFault;
use columnar_core::view::View;
use columnar_lookback::lookbacks::Lookbacks;
use columnar_sums::rank_select::RankSelect;
use columnar_sums::result::Results;
use std::test::Fail;
use test_support::stashes::{has, opened};
use test_support::stores::refusal;
use test_support::{equal, holds};

type Held = Lookbacks<Vec<u64>, 255>;

type Viewed<'a> = Lookbacks<
    View<'a, u64>,
    255,
    &'a [u8],
    View<'a, u64>,
    View<'a, u64>,
    View<'a, u64>,
>;

// The rows 10, 20, 10, 30, 20: the bits 1, 1, 0, 1, 0, the values 10, 20, 30 and the distances 1, 1
static RETURNS_STORED: [u64; 12] = [48, 48, 48, 64, 88, 90, 11, 5, 10, 20, 30, 257];

#[test]
fn a_store_that_is_accepted(rt: HostRuntime) -> Result<(), Fail> {
    equal!(rt;
        BackStash::refusal(rt.alloc(), RETURNS_STORED.as_slice()),
        Some((0, 0))
    );
    let stash = BackStash::opened(rt.alloc(), RETURNS_STORED.as_slice()).expect(&rt, "opened");
    equal!(rt; stash.variant(), 1);
    holds!(rt; stash.has(RETURNS.as_slice()));
    let none = [48, 48, 48, 64, 64, 64, 0, 0];
    equal!(rt; BackStash::refusal(rt.alloc(), none.as_slice()), Some((0, 0)));
    let stash = BackStash::opened(rt.alloc(), none.as_slice()).expect(&rt, "opened");
    holds!(rt; stash.is_empty());
    Ok(())
}

#[test]
fn each_distance_is_below_the_values_before_it(rt: HostRuntime) -> Result<(), Fail> {
    let alloc = rt.alloc();
    let first_too_far = [48, 48, 48, 64, 88, 90, 11, 5, 10, 20, 30, 258];
    equal!(rt; BackStash::refusal(alloc, first_too_far.as_slice()), Some((15, 0)));
    let last_too_far = [48, 48, 48, 64, 88, 90, 11, 5, 10, 20, 30, 769];
    equal!(rt; BackStash::refusal(alloc, last_too_far.as_slice()), Some((15, 0)));
    let no_value = [48, 48, 48, 64, 64, 65, 0, 1, 0];
    equal!(rt; BackStash::refusal(alloc, no_value.as_slice()), Some((15, 0)));
    let after_one = [56, 64, 64, 64, 80, 80, 81, 5, 0, 1, 0];
    equal!(rt;
        refusal::<(Vec<u64>, Held)>(alloc, after_one.as_slice())?,
        (15, 1)
    );
    Ok(())
}

// The last row refers to the value two before the last one.
#[test]
fn a_distance_may_be_further_than_a_push_looks(rt: HostRuntime) -> Result<(), Fail> {
    let alloc = rt.alloc();
    let words = [48, 48, 48, 64, 88, 90, 11, 5, 10, 20, 30, 513];
    let rows = [10, 20, 10, 30, 10];
    equal!(rt; BackStash::refusal(alloc, words.as_slice()), Some((0, 0)));
    let far = BackStash::opened(alloc, words.as_slice()).expect(&rt, "opened");
    holds!(rt; far.has(rows.as_slice()));
    equal!(rt; refusal::<Two>(alloc, words.as_slice())?, (0, 0));
    let two = opened::<Two>(alloc, words.as_slice()).expect(&rt, "opened");
    holds!(rt; has(&two, rows.as_slice()));
    Ok(())
}

// If two values are equal, the row refers to the last one.
#[test]
fn the_least_distance_is_kept(rt: HostRuntime) -> Result<(), Fail> {
    let words = [48, 48, 48, 64, 88, 88, 7, 3, 7, 7, 9];
    let mut stash = BackStash::opened(rt.alloc(), words.as_slice()).expect(&rt, "opened");
    holds!(rt; stash.takes(7));
    holds!(rt; stash.has([7, 7, 9, 7].as_slice()));
    holds!(rt; stash.writes([48, 48, 48, 64, 88, 89, 7, 4, 7, 7, 9, 1].as_slice()));
    Ok(())
}

#[test]
fn as_many_values_and_distances_as_bits(rt: HostRuntime) -> Result<(), Fail> {
    let alloc = rt.alloc();
    let one_value_more = [48, 48, 48, 64, 96, 98, 11, 5, 10, 20, 30, 40, 257];
    equal!(rt; BackStash::refusal(alloc, one_value_more.as_slice()), Some((10, 0)));
    let one_distance_less = [48, 48, 48, 64, 88, 89, 11, 5, 10, 20, 30, 1];
    equal!(rt;
        BackStash::refusal(alloc, one_distance_less.as_slice()),
        Some((10, 0))
    );
    // (this rule comes before that of the distances)
    let no_bit = [48, 48, 48, 64, 72, 73, 0, 1, 7, 1];
    equal!(rt; BackStash::refusal(alloc, no_bit.as_slice()), Some((10, 0)));
    Ok(())
}

#[test]
fn a_view_tests_itself(rt: HostRuntime) -> Result<(), Fail> {
    for (tail, values, distances, wanted) in [
        ([3u64, 3], [7u64, 9].as_slice(), [1u8].as_slice(), Ok(())),
        (
            [3, 3],
            [7, 9].as_slice(),
            [2].as_slice(),
            Err(StoreFault::Lookback(0)),
        ),
        (
            [2, 2],
            [7].as_slice(),
            [0].as_slice(),
            Err(StoreFault::Lookback(0)),
        ),
        (
            [3, 3],
            [7].as_slice(),
            [0].as_slice(),
            Err(StoreFault::Parts(0)),
        ),
    ] {
        let bits = Bools {
            values: View::from_slice([].as_slice()),
            tail: View::from_slice(tail.as_slice()),
        };
        let view: Viewed<'_> = Lookbacks {
            inner: Results {
                indexes: RankSelect {
                    counts: View::from_slice([].as_slice()),
                    values: bits,
                },
                oks: View::from_slice(values),
                errs: distances,
            },
        };
        equal!(rt; view.check(), wanted);
    }
    Ok(())
}

#[test]
fn distances_are_written_tested_and_opened(rt: HostRuntime) -> Result<(), Fail> {
    let column = Backs::of(rt.alloc(), RETURNS.as_slice())?;
    holds!(rt; column.is_written(RETURNS_STORED.as_slice()));
    holds!(rt; column.encodes(rt.alloc(), RETURNS_STORED.as_slice()));
    let stash = BackStash::reopened(rt.alloc(), column).expect(&rt, "reopened");
    equal!(rt; stash.variant(), 1);
    holds!(rt; stash.has(RETURNS.as_slice()));
    holds!(rt; stash.writes(RETURNS_STORED.as_slice()));
    Ok(())
}

#[test]
fn a_store_is_loaded_as_it_stands(rt: HostRuntime) -> Result<(), Fail> {
    let two_sevens = [48, 48, 48, 64, 80, 81, 3, 3, 7, 7, 1];
    let stash = BackStash::opened(rt.alloc(), two_sevens.as_slice()).expect(&rt, "opened");
    let column = stash.loaded(rt.alloc())?;
    holds!(rt; column.keeps([7, 7].as_slice(), [1].as_slice()));
    holds!(rt; column.is_written(two_sevens.as_slice()));
    Ok(())
}

#[test]
fn slices_of_distances(rt: HostRuntime) -> Result<(), Fail> {
    holds!(rt; Backs::has_sizes(rt.alloc(), [8, 8, 8, 8, 1].as_slice()));
    let column = Backs::of(rt.alloc(), RETURNS.as_slice())?;
    holds!(rt; column.has_bytes(2, 16));
    holds!(rt; column.has_bytes(3, 24));
    holds!(rt; column.has_bytes(4, 2));
    Ok(())
}

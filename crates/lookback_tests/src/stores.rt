// Worked stores of repeats, and the rules that others break, with their slices.

use crate::rows::{Held, RUNS};
use crate::runs::Runs;
use crate::runs::stashes::RunStash;
use columnar_bits::bools::Bools;
use columnar_core::bytes::Check;
use columnar_core::fault::StoreFault;
use columnar_core::view::View;
use columnar_lookback::repeats::Repeats;
use columnar_sums::option::Options;
use columnar_sums::rank_select::RankSelect;
use std::test::Fail;
use test_support::stores::refusal;
use test_support::{equal, holds};

type Viewed<'a> = Repeats<View<'a, u64>, View<'a, u64>, View<'a, u64>, View<'a, u64>>;

// The rows 7, 7, 9: the bits 1, 0, 1 and the values 7, 9
static SEVENS_AND_NINE: [u64; 9] = [40, 40, 40, 56, 72, 5, 3, 7, 9];

// The rows 1, 1, 2, 2, 1: the bits 1, 0, 1, 0, 1 and the values 1, 2, 1
static RUNS_STORED: [u64; 10] = [40, 40, 40, 56, 80, 21, 5, 1, 2, 1];

// One row that repeats, without a value before it.
static NO_FIRST: [u64; 7] = [40, 40, 40, 56, 56, 0, 1];

#[test]
fn a_store_that_is_accepted(rt: HostRuntime) -> Result<(), Fail> {
    equal!(rt;
        RunStash::refusal(rt.alloc(), SEVENS_AND_NINE.as_slice()),
        Some((0, 0))
    );
    let stash = RunStash::opened(rt.alloc(), SEVENS_AND_NINE.as_slice()).expect(&rt, "opened");
    equal!(rt; stash.variant(), 1);
    holds!(rt; stash.has([7, 7, 9].as_slice()));
    let none = [40, 40, 40, 56, 56, 0, 0];
    equal!(rt; RunStash::refusal(rt.alloc(), none.as_slice()), Some((0, 0)));
    let stash = RunStash::opened(rt.alloc(), none.as_slice()).expect(&rt, "opened");
    holds!(rt; stash.is_empty());
    Ok(())
}

#[test]
fn the_first_row_is_a_value(rt: HostRuntime) -> Result<(), Fail> {
    equal!(rt; RunStash::refusal(rt.alloc(), NO_FIRST.as_slice()), Some((15, 0)));
    let second = [40, 40, 40, 56, 64, 2, 2, 7];
    equal!(rt; RunStash::refusal(rt.alloc(), second.as_slice()), Some((15, 0)));
    let after_one = [48, 56, 56, 56, 72, 72, 5, 0, 1];
    equal!(rt;
        refusal::<(Vec<u64>, Held)>(rt.alloc(), after_one.as_slice())?,
        (15, 1)
    );
    Ok(())
}

#[test]
fn as_many_values_as_bits(rt: HostRuntime) -> Result<(), Fail> {
    let too_many = [40, 40, 40, 56, 80, 5, 3, 7, 9, 8];
    equal!(rt; RunStash::refusal(rt.alloc(), too_many.as_slice()), Some((10, 0)));
    let too_few = [40, 40, 40, 56, 64, 5, 3, 7];
    equal!(rt; RunStash::refusal(rt.alloc(), too_few.as_slice()), Some((10, 0)));
    // (this rule comes before that of the first row)
    let no_bit = [40, 40, 40, 56, 64, 0, 1, 7];
    equal!(rt; RunStash::refusal(rt.alloc(), no_bit.as_slice()), Some((10, 0)));
    Ok(())
}

#[test]
fn a_view_tests_itself(rt: HostRuntime) -> Result<(), Fail> {
    for (tail, values, wanted) in [
        ([5u64, 3], [7u64, 9].as_slice(), Ok(())),
        ([0, 1], [].as_slice(), Err(StoreFault::Lookback(0))),
        ([5, 3], [7].as_slice(), Err(StoreFault::Parts(0))),
    ] {
        let bits = Bools {
            values: View::from_slice([].as_slice()),
            tail: View::from_slice(tail.as_slice()),
        };
        let view: Viewed<'_> = Repeats {
            inner: Options {
                indexes: RankSelect {
                    counts: View::from_slice([].as_slice()),
                    values: bits,
                },
                somes: View::from_slice(values),
            },
        };
        equal!(rt; view.check(), wanted);
    }
    Ok(())
}

#[test]
fn runs_are_written_tested_and_opened(rt: HostRuntime) -> Result<(), Fail> {
    let column = Runs::of(rt.alloc(), RUNS.as_slice())?;
    holds!(rt; column.is_written(RUNS_STORED.as_slice()));
    holds!(rt; column.encodes(rt.alloc(), RUNS_STORED.as_slice()));
    let stash = RunStash::reopened(rt.alloc(), column).expect(&rt, "reopened");
    equal!(rt; stash.variant(), 1);
    holds!(rt; stash.has(RUNS.as_slice()));
    holds!(rt; stash.writes(RUNS_STORED.as_slice()));
    Ok(())
}

#[test]
fn a_store_is_loaded_as_it_stands(rt: HostRuntime) -> Result<(), Fail> {
    let two_sevens = [40, 40, 40, 56, 72, 3, 3, 7, 7];
    let stash = RunStash::opened(rt.alloc(), two_sevens.as_slice()).expect(&rt, "opened");
    let column = stash.loaded(rt.alloc())?;
    holds!(rt; column.keeps([7, 7].as_slice()));
    holds!(rt; column.is_written(two_sevens.as_slice()));
    Ok(())
}

#[test]
fn slices_of_runs(rt: HostRuntime) -> Result<(), Fail> {
    holds!(rt; Runs::has_sizes(rt.alloc(), [8, 8, 8, 8].as_slice()));
    let column = Runs::of(rt.alloc(), RUNS.as_slice())?;
    holds!(rt; column.has_bytes(2, 16));
    holds!(rt; column.has_bytes(3, 24));
    Ok(())
}

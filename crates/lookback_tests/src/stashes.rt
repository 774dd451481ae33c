// A stash of repeats: grown, truncated, written, opened and copied.

use crate::rows::RUNS;
use crate::runs::Runs;
use crate::runs::stashes::RunStash;
use std::test::Fail;
use test_support::{equal, holds};

// The rows 7, 7, 9: the bits 1, 0, 1 and the values 7, 9
static SEVENS_AND_NINE: [u64; 9] = [40, 40, 40, 56, 72, 5, 3, 7, 9];

#[test]
fn a_stash_grows_and_is_cut(rt: HostRuntime) -> Result<(), Fail> {
    let source = Runs::of(rt.alloc(), RUNS.as_slice())?;
    let mut stash = RunStash::empty(rt.alloc());
    holds!(rt; stash.takes(7));
    holds!(rt; stash.takes_lent(&7));
    holds!(rt; stash.takes(9));
    holds!(rt; stash.writes(SEVENS_AND_NINE.as_slice()));
    holds!(rt; stash.copies(&source, 1, 4));
    holds!(rt; stash.has([7, 7, 9, 1, 2, 2].as_slice()));
    equal!(rt; stash.length_in_bytes(), Some(88));
    holds!(rt; stash.is_cut(2));
    holds!(rt; stash.writes([40, 40, 40, 56, 64, 1, 2, 7].as_slice()));
    stash.clear();
    holds!(rt; stash.writes([40, 40, 40, 56, 56, 0, 0].as_slice()));
    Ok(())
}

#[test]
fn opened_bytes_grow(rt: HostRuntime) -> Result<(), Fail> {
    let mut stash = RunStash::opened(rt.alloc(), SEVENS_AND_NINE.as_slice()).expect(&rt, "opened");
    equal!(rt; stash.variant(), 1);
    holds!(rt; stash.aligns(rt.alloc()));
    equal!(rt; stash.variant(), 2);
    holds!(rt; stash.has([7, 7, 9].as_slice()));
    holds!(rt; stash.takes(9));
    equal!(rt; stash.variant(), 0);
    holds!(rt; stash.has([7, 7, 9, 9].as_slice()));
    holds!(rt; stash.writes([40, 40, 40, 56, 72, 5, 4, 7, 9].as_slice()));
    holds!(rt; stash.clone_writes([40, 40, 40, 56, 72, 5, 4, 7, 9].as_slice()));
    Ok(())
}

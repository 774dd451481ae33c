// A stash of lookbacks: grown, truncated, written, opened, copied, and changed by a list of commands.

use super::RETURNS;
use crate::rows::numbers;
use crate::runs::Backs;
use crate::runs::stashes::BackStash;
use columnar_bytes::stash::Command;
use columnar_core::container::Borrow;
use columnar_lookback::lookbacks::Lookbacks;
use std::test::Fail;
use test_support::runs::{DONE, RANGE, ran};
use test_support::{equal, holds};

type Held = Lookbacks<Vec<u64>, 255>;

// The rows 7, 9, 7: the bits 1, 1, 0, the values 7, 9 and the distance 1
static SEVEN_AGAIN: [u64; 11] = [48, 48, 48, 64, 80, 81, 3, 3, 7, 9, 1];

#[test]
fn a_stash_grows_and_is_cut(rt: HostRuntime) -> Result<(), Fail> {
    let source = Backs::of(rt.alloc(), RETURNS.as_slice())?;
    let mut stash = BackStash::empty(rt.alloc());
    holds!(rt; stash.takes(7));
    holds!(rt; stash.takes_lent(&9));
    holds!(rt; stash.takes_ref(&7));
    holds!(rt; stash.writes(SEVEN_AGAIN.as_slice()));
    holds!(rt; stash.copies(&source, 1, 3));
    holds!(rt; stash.has([7, 9, 7, 20, 10].as_slice()));
    equal!(rt; stash.length_in_bytes(), Some(104));
    holds!(rt; stash.is_cut(2));
    holds!(rt; stash.writes([48, 48, 48, 64, 80, 80, 3, 2, 7, 9].as_slice()));
    stash.clear();
    holds!(rt; stash.writes([48, 48, 48, 64, 64, 64, 0, 0].as_slice()));
    Ok(())
}

// The rows 7, 9, 7, 9
static NINE_AGAIN: [u64; 11] = [48, 48, 48, 64, 80, 82, 3, 4, 7, 9, 1];

#[test]
fn opened_bytes_grow(rt: HostRuntime) -> Result<(), Fail> {
    let mut stash = BackStash::opened(rt.alloc(), SEVEN_AGAIN.as_slice()).expect(&rt, "opened");
    equal!(rt; stash.variant(), 1);
    holds!(rt; stash.aligns(rt.alloc()));
    equal!(rt; stash.variant(), 2);
    holds!(rt; stash.has([7, 9, 7].as_slice()));
    holds!(rt; stash.takes(9));
    equal!(rt; stash.variant(), 0);
    holds!(rt; stash.has([7, 9, 7, 9].as_slice()));
    holds!(rt; stash.writes(NINE_AGAIN.as_slice()));
    holds!(rt; stash.clone_writes(NINE_AGAIN.as_slice()));
    Ok(())
}

// The rows 10, 20, 10 and 20 remain.
#[test]
fn a_list_of_commands(rt: HostRuntime) -> Result<(), Fail> {
    let source = numbers::<Held>(rt.alloc(), RETURNS.as_slice())?;
    let commands = [
        Command::Push(10u64),
        Command::Reopen,
        Command::Copy(1, 3),
        Command::Copy(4, 6),
        Command::MakeAligned,
        Command::Push(20u64),
        Command::Push(30u64),
        Command::Truncate(4),
    ];
    let wanted = [DONE, DONE, DONE, RANGE, DONE, DONE, DONE, DONE];
    let after = [48, 48, 48, 64, 80, 82, 3, 4, 10, 20, 1];
    let (replies, _, written) = ran::<_, _, Held>(
        rt.alloc(),
        source.borrow(),
        commands.as_slice(),
        after.as_slice(),
    )?;
    equal!(rt; replies.as_slice(), wanted.as_slice());
    holds!(rt; written);
    Ok(())
}

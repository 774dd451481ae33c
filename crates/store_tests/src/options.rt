// Options: worked stores, nested columns, and a run of commands.
use columnar::bytes::stash::{Command, Stash};
use columnar::fault::StoreFault;
use columnar::{Borrow, Len, Options, Push, Storage, Vecs};
use std::alloc::Global;
use std::test::Fail;
use test_support::columns::{item_of, takes_rows};
use test_support::runs::{DONE, RANGE, ran};
use test_support::stashes::{has, reopened, row_of, variant, writes};
use test_support::stores::bytes_of;
use test_support::{equal, holds};

type Numbers = Options<Vec<u64>>;

type Pairs = Options<(Vec<u64>, Vec<u64>)>;

type Nested = Options<Numbers>;

#[test]
fn some_and_none_are_written_and_opened(rt: HostRuntime) -> Result<(), Fail> {
    let words = [40, 40, 40, 56, 64, 1, 2, 7];
    let mut stash = Stash::<Numbers, Vec<u8>>::empty(rt.alloc());
    holds!(rt; stash.push(Some(7u64)).is_ok());
    holds!(rt; stash.push(None::<u64>).is_ok());
    holds!(rt; writes(&stash, words.as_slice()));
    let stash = reopened(rt.alloc(), &stash).expect(&rt, "reopened");
    equal!(rt; variant(&stash), 1);
    equal!(rt; stash.len(), 2);
    holds!(rt; has(&stash, &[Some(7), None]));
    holds!(rt; writes(&stash, words.as_slice()));
    Ok(())
}

// Returns the fault of words that are not a column of optional numbers.
fn fault(alloc: Global, words: &[u64]) -> Result<Option<StoreFault>, Fail> {
    let bytes = bytes_of(alloc, words)?;
    match Stash::<Numbers, Vec<u8>>::try_from_bytes(alloc, bytes) {
        Ok(_) => Ok(None),
        Err(fault) => Ok(Some(fault)),
    }
}

#[test]
fn stores_that_are_refused(rt: HostRuntime) -> Result<(), Fail> {
    equal!(rt;
        fault(rt.alloc(), [40, 40, 40, 56, 64, 1, 2].as_slice())?,
        Some(StoreFault::PastEnd(3))
    );
    equal!(rt;
        fault(rt.alloc(), [40, 48, 48, 64, 72, 1, 1, 2, 7].as_slice())?,
        Some(StoreFault::Counts(0))
    );
    equal!(rt;
        fault(rt.alloc(), [40, 40, 40, 56, 64, 5, 2, 7].as_slice())?,
        Some(StoreFault::TailBits(1))
    );
    equal!(rt;
        fault(rt.alloc(), [40, 40, 40, 56, 64, 3, 2, 7].as_slice())?,
        Some(StoreFault::Parts(0))
    );
    equal!(rt;
        fault(rt.alloc(), [40, 40, 40, 56, 64, 1, 2, 7].as_slice())?,
        None
    );
    Ok(())
}

#[test]
fn options_of_pairs_and_of_options(rt: HostRuntime) -> Result<(), Fail> {
    let mut pairs = Stash::<Pairs, Vec<u8>>::empty(rt.alloc());
    holds!(rt; pairs.push(None::<(u64, u64)>).is_ok());
    holds!(rt; pairs.push(Some((1u64, 2u64))).is_ok());
    let pairs = reopened(rt.alloc(), &pairs).expect(&rt, "reopened");
    holds!(rt; has(&pairs, &[None, Some((1, 2))]));
    let mut nested = Stash::<Nested, Vec<u8>>::empty(rt.alloc());
    holds!(rt; nested.push(Some(Some(3u64))).is_ok());
    holds!(rt; nested.push(Some(None::<u64>)).is_ok());
    holds!(rt; nested.push(None::<Option<u64>>).is_ok());
    let nested = reopened(rt.alloc(), &nested).expect(&rt, "reopened");
    holds!(rt; has(&nested, &[Some(Some(3)), Some(None), None]));
    Ok(())
}

#[test]
fn lists_of_options(rt: HostRuntime) -> Result<(), Fail> {
    let mut items = Numbers::empty(rt.alloc());
    holds!(rt; Push::extend(&mut items, [Some(1u64), None, Some(3)].iter().copied()).is_ok());
    let mut lists = Vecs::<Numbers>::empty(rt.alloc());
    holds!(rt; takes_rows(&mut lists, items.borrow(), 0, 2));
    holds!(rt; takes_rows(&mut lists, items.borrow(), 2, 3));
    let stash = reopened(rt.alloc(), &Stash::<_, Vec<u8>>::Typed(lists)).expect(&rt, "reopened");
    equal!(rt; item_of(row_of(&stash, 0), 1), Some(None));
    equal!(rt; item_of(row_of(&stash, 1), 0), Some(Some(3)));
    Ok(())
}

#[test]
fn a_run_over_options(rt: HostRuntime) -> Result<(), Fail> {
    let mut source = Numbers::empty(rt.alloc());
    holds!(rt; Push::extend(&mut source, [None, Some(5u64), Some(6)].iter().copied()).is_ok());
    let commands = [
        Command::Push(Some(1u64)),
        Command::Copy(0, 2),
        Command::Reopen,
        Command::Copy(1, 4),
        Command::Push(None),
        Command::Truncate(3),
        Command::Reopen,
    ];
    let (replies, variant, written) = ran::<_, _, Numbers>(
        rt.alloc(),
        source.borrow(),
        commands.as_slice(),
        [40, 40, 40, 56, 72, 5, 3, 1, 5].as_slice(),
    )?;
    equal!(rt;
        replies.as_slice(),
        [DONE, DONE, DONE, RANGE, DONE, DONE, DONE].as_slice()
    );
    equal!(rt; variant, 1);
    holds!(rt; written);
    Ok(())
}

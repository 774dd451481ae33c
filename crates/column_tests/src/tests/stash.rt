// Stashes (a column, opened bytes, aligned bytes), the result of each call, and runs of commands.
ghost use Rattle.columnar_core.specs.Format.{IsSound};
ghost use Rattle.columnar_bytes.specs.Stashes.{stash_content};

use super::runs::ran_from;
use columnar::bytes::stash::{AlignedBytes, ByteStore, Command, Reply, Stash, run};
use columnar::common::View;
use columnar::fault::{EncodeError, GrowError};
use columnar::{Borrow, Check, Clear, Column, Len, Options, Push, PushRef, Vecs};
use std::alloc::Global;
use std::rc::RcSlice;
use std::test::Fail;
use test_support::columns::row_at;
use test_support::runs::{DONE, RANGE, ran};
use test_support::stashes::{has, variant, writes};
use test_support::stores::bytes_of;
use test_support::{equal, holds};

type Pairs = (Vec<u64>, Vec<u64>);

// The numbers 7 and 8, and a word after the last slice.
static WORD_BEHIND: [u64; 5] = [16, 32, 7, 8, 9];

static SEVEN_EIGHT: [u64; 4] = [16, 32, 7, 8];

// A stash of numbers, for the calls of the tests: only this type names the traits of its column.
#[derive(Drop)]
struct Numbers<B: ByteStore> {
    stash: Stash<Vec<u64>, B>,
    ghost sound: { IsSound ⟦<Vec<u64> as Column>⟧.format (stash_content stash) },
}

impl Numbers<Vec<u8>> {
    // Creates a column without rows.
    fn empty(alloc: Global) -> Self {
        Numbers {
            stash: Stash::empty(alloc),
        }
    }

    // Creates the same with space for the rows of a view.
    fn roomy(alloc: Global, view: View<'_, u64>) -> Result<Self, GrowError> {
        Ok(Numbers {
            stash: Stash::with_capacity_for(alloc, [view].iter().copied())?,
        })
    }

    // Runs commands on a column without rows; returns the stash and the replies.
    fn ran(
        alloc: Global,
        source: &[u64],
        commands: &[Command<u64>],
    ) -> (Self, Result<Vec<Reply>, GrowError>) {
        let view = View::from_slice(source);
        let (stash, replies) = run(alloc, Stash::empty(alloc), view, commands);
        (Numbers { stash }, replies)
    }
}

// Opens the bytes of 7 and 8.
fn seven_eight(alloc: Global) -> Result<Numbers<Vec<u8>>, Fail> {
    Numbers::opened(alloc, bytes_of(alloc, WORD_BEHIND.as_slice())?)
}

impl<B: ByteStore> Numbers<B> {
    // Opens accepted bytes.
    fn opened(alloc: Global, bytes: B) -> Result<Self, Fail> {
        match Stash::try_from_bytes(alloc, bytes) {
            Ok(stash) => Ok(Numbers { stash }),
            Err(_) => Err(Fail::from("the bytes are refused")),
        }
    }

    // Tests whether it has exactly these rows.
    fn has(&self, rows: &[u64]) -> bool {
        has(&self.stash, rows)
    }

    // Returns row `index`, if there is one, from the trait's view.
    fn row(&self, index: usize) -> Option<u64> {
        row_through(&self.stash, index)
    }

    fn is_empty(&self) -> bool {
        self.stash.is_empty()
    }

    // Tests whether it writes these words.
    fn writes(&self, words: &[u64]) -> bool {
        writes(&self.stash, words)
    }

    fn variant(&self) -> u8 {
        variant(&self.stash)
    }

    fn length_in_bytes(&self) -> Option<usize> {
        self.stash.length_in_bytes()
    }

    // Returns the number of its bytes; 0 if it is a column.
    fn held(&self) -> usize {
        match &self.stash {
            Stash::Typed(_) => 0,
            Stash::Bytes(checked) => checked.bytes().len(),
            Stash::Align(checked) => checked.bytes().len(),
        }
    }

    fn pushes(&mut self, item: u64) -> bool {
        self.stash.push(item).is_ok()
    }

    // Pushes a reference to a number.
    fn pushes_lent(&mut self, item: &u64) -> bool {
        self.stash.push(item).is_ok()
    }

    // Pushes by reference
    fn pushes_ref(&mut self, item: &u64) -> bool {
        self.stash.push_ref(item).is_ok()
    }

    // Pushes to the column that it gives.
    fn pushes_within(&mut self, item: u64) -> bool {
        match self.stash.make_typed() {
            Ok(column) => Push::push(column, item).is_ok(),
            Err(_) => false,
        }
    }

    // Copies these numbers of a slice.
    fn copies(&mut self, rows: &[u64], start: usize, end: usize) -> bool {
        let view = View::from_slice(rows);
        start <= end && end <= view.len() && self.stash.extend_from_self(view, start..end).is_ok()
    }

    // Reserves space for the rows of views.
    fn makes_room(&mut self, views: &[View<'_, u64>]) -> bool {
        self.stash.reserve_for(views.iter().copied()).is_ok()
    }

    // Truncates it to one row, if it has more.
    fn cuts_to_one(&mut self) -> bool {
        self.stash.len() > 1 && self.stash.truncate(1).is_ok()
    }

    fn clear(&mut self) {
        self.stash.clear();
    }

    // Encodes it into aligned bytes in place.
    fn aligns(&mut self, alloc: Global) -> bool {
        self.stash.make_aligned(alloc).is_ok()
    }

    fn to_typed(&self, alloc: Global) -> Result<Self, GrowError> {
        Ok(Numbers {
            stash: self.stash.to_typed(alloc)?,
        })
    }

    fn to_aligned(&self, alloc: Global) -> Result<Self, EncodeError> {
        Ok(Numbers {
            stash: self.stash.to_aligned(alloc)?,
        })
    }

    fn duplicate(&self, alloc: Global) -> Result<Self, GrowError> {
        Ok(Numbers {
            stash: self.stash.duplicate(alloc)?,
        })
    }

    // Returns a stash over its aligned bytes, if it has them.
    fn into_aligned(self) -> Option<Numbers<AlignedBytes>> {
        let stash = self.stash;
        match stash {
            Stash::Align(checked) => Some(Numbers {
                stash: Stash::Bytes(checked),
            }),
            _ => None,
        }
    }

    // Tests whether a clone has this variant and writes these words.
    fn clones(&self, kind: u8, words: &[u64]) -> bool {
        match self.stash.clone() {
            Ok(copy) => variant(&copy) == kind && writes(&copy, words),
            Err(_) => false,
        }
    }
}

// Returns row `index` of a stash through the trait, if there is one.
fn row_through<'a, S: Borrow<'a>>(stash: &'a S, index: usize) -> Option<S::Ref>
    requires { IsSound S.format (S.content stash.now) }
{
    let view = stash.borrow();
    row_at(&view, index)
}

#[test]
fn a_column_grows_and_is_cut(rt: HostRuntime) -> Result<(), Fail> {
    let mut stash = Numbers::empty(rt.alloc());
    holds!(rt; stash.is_empty());
    holds!(rt; stash.pushes(1));
    holds!(rt; stash.pushes_lent(&2));
    holds!(rt; stash.pushes_ref(&3));
    holds!(rt; stash.copies(&[5, 6, 7], 1, 3));
    holds!(rt; stash.has(&[1, 2, 3, 6, 7]));
    equal!(rt; stash.length_in_bytes(), Some(56));
    holds!(rt; stash.cuts_to_one());
    holds!(rt; stash.writes(&[16, 24, 1]));
    stash.clear();
    holds!(rt; stash.writes(&[16, 16]));
    equal!(rt; stash.variant(), 0);
    Ok(())
}

#[test]
fn opened_bytes_are_given_back_as_they_are(rt: HostRuntime) -> Result<(), Fail> {
    let stash = seven_eight(rt.alloc())?;
    holds!(rt; stash.has(&[7, 8]));
    equal!(rt; stash.length_in_bytes(), Some(32));
    equal!(rt; stash.held(), 40);
    holds!(rt; stash.writes(WORD_BEHIND.as_slice()));
    Ok(())
}

#[test]
fn borrowed_bytes_are_opened(rt: HostRuntime) -> Result<(), Fail> {
    let bytes = bytes_of(rt.alloc(), WORD_BEHIND.as_slice())?;
    let mut stash = Numbers::opened(rt.alloc(), bytes.as_slice())?;
    holds!(rt; stash.has(&[7, 8]));
    holds!(rt; stash.writes(WORD_BEHIND.as_slice()));
    stash.clear();
    holds!(rt; stash.has(&[]));
    Ok(())
}

#[test]
fn shared_bytes_are_opened(rt: HostRuntime) -> Result<(), Fail> {
    let bytes = RcSlice::from_vec(bytes_of(rt.alloc(), WORD_BEHIND.as_slice())?)?;
    let mut stash = Numbers::opened(rt.alloc(), bytes)?;
    holds!(rt; stash.has(&[7, 8]));
    holds!(rt; stash.writes(WORD_BEHIND.as_slice()));
    holds!(rt; stash.pushes(9));
    holds!(rt; stash.has(&[7, 8, 9]));
    Ok(())
}

// Tests whether the bytes of 7 and 8 are opened behind this many other bytes of a buffer.
fn opens_behind(alloc: Global, others: usize) -> Result<bool, Fail> {
    let store = bytes_of(alloc, WORD_BEHIND.as_slice())?;
    let mut buffer = Vec::new(alloc);
    for _ in 0..others {
        buffer.push(255)?;
    }
    buffer.extend_from_slice(store.as_slice())?;
    match buffer.get(others..) {
        Some(bytes) => {
            let stash = Numbers::opened(alloc, bytes)?;
            Ok(stash.has(&[7, 8]) && stash.writes(WORD_BEHIND.as_slice()))
        }
        None => Ok(false),
    }
}

#[test]
fn stores_are_opened_at_any_place_of_a_buffer(rt: HostRuntime) -> Result<(), Fail> {
    let alloc = rt.alloc();
    holds!(rt; opens_behind(alloc, 1)? && opens_behind(alloc, 2)?);
    holds!(rt; opens_behind(alloc, 3)? && opens_behind(alloc, 4)?);
    Ok(())
}

#[test]
fn stashes_are_borrowed_through_the_trait(rt: HostRuntime) -> Result<(), Fail> {
    let alloc = rt.alloc();
    let stash = seven_eight(alloc)?;
    equal!(rt; stash.row(1), Some(8));
    equal!(rt; stash.row(2), None);
    equal!(rt; stash.to_aligned(alloc)?.row(1), Some(8));
    let bytes = bytes_of(alloc, WORD_BEHIND.as_slice())?;
    equal!(rt; Numbers::opened(alloc, bytes.as_slice())?.row(1), Some(8));
    let shared = RcSlice::from_vec(bytes)?;
    equal!(rt; Numbers::opened(alloc, shared)?.row(1), Some(8));
    Ok(())
}

#[test]
fn clones_write_what_their_sources_do(rt: HostRuntime) -> Result<(), Fail> {
    let alloc = rt.alloc();
    let stash = seven_eight(alloc)?;
    holds!(rt; stash.clones(1, WORD_BEHIND.as_slice()));
    holds!(rt; stash.to_typed(alloc)?.clones(0, SEVEN_EIGHT.as_slice()));
    holds!(rt; stash.to_aligned(alloc)?.clones(2, SEVEN_EIGHT.as_slice()));
    holds!(rt; stash.writes(WORD_BEHIND.as_slice()));
    Ok(())
}

#[test]
fn borrowed_and_shared_bytes_are_cloned(rt: HostRuntime) -> Result<(), Fail> {
    let alloc = rt.alloc();
    let bytes = bytes_of(alloc, WORD_BEHIND.as_slice())?;
    holds!(rt; Numbers::opened(alloc, bytes.as_slice())?.clones(1, WORD_BEHIND.as_slice()));
    let shared = RcSlice::from_vec(bytes)?;
    holds!(rt; Numbers::opened(alloc, shared)?.clones(1, WORD_BEHIND.as_slice()));
    Ok(())
}

#[test]
fn duplicates_have_the_same_rows(rt: HostRuntime) -> Result<(), Fail> {
    let alloc = rt.alloc();
    let mut stash = seven_eight(alloc)?;
    let mut copy = stash.duplicate(alloc)?;
    equal!(rt; copy.variant(), 1);
    holds!(rt; copy.pushes(9));
    let again = copy.duplicate(alloc)?;
    equal!(rt; again.variant(), 0);
    holds!(rt; again.has(&[7, 8, 9]));
    holds!(rt; stash.aligns(alloc));
    let aligned = stash.duplicate(alloc)?;
    equal!(rt; aligned.variant(), 2);
    holds!(rt; aligned.has(&[7, 8]));
    Ok(())
}

#[test]
fn a_push_makes_a_column_of_bytes(rt: HostRuntime) -> Result<(), Fail> {
    let mut stash = seven_eight(rt.alloc())?;
    equal!(rt; stash.variant(), 1);
    holds!(rt; stash.pushes(1));
    equal!(rt; stash.variant(), 0);
    holds!(rt; stash.aligns(rt.alloc()));
    equal!(rt; stash.variant(), 2);
    holds!(rt; stash.pushes_ref(&2));
    equal!(rt; stash.variant(), 0);
    holds!(rt; stash.has(&[7, 8, 1, 2]));
    Ok(())
}

#[test]
fn a_copy_makes_a_column_of_bytes(rt: HostRuntime) -> Result<(), Fail> {
    let source = [5, 6, 7];
    let mut stash = seven_eight(rt.alloc())?;
    holds!(rt; stash.copies(source.as_slice(), 0, 2));
    equal!(rt; stash.variant(), 0);
    holds!(rt; stash.aligns(rt.alloc()));
    holds!(rt; stash.copies(source.as_slice(), 3, 3));
    equal!(rt; stash.variant(), 0);
    holds!(rt; stash.has(&[7, 8, 5, 6]));
    Ok(())
}

#[test]
fn a_cut_and_a_clear_make_a_column_of_bytes(rt: HostRuntime) -> Result<(), Fail> {
    let mut stash = seven_eight(rt.alloc())?;
    holds!(rt; stash.cuts_to_one());
    equal!(rt; stash.variant(), 0);
    holds!(rt; stash.has(&[7]));
    holds!(rt; stash.aligns(rt.alloc()));
    stash.clear();
    equal!(rt; stash.variant(), 0);
    holds!(rt; stash.is_empty());
    Ok(())
}

#[test]
fn room_is_made(rt: HostRuntime) -> Result<(), Fail> {
    let source = [5, 6, 7];
    let view = View::from_slice(source.as_slice());
    let mut stash = seven_eight(rt.alloc())?;
    holds!(rt; stash.makes_room(&[view, view]));
    equal!(rt; stash.variant(), 0);
    holds!(rt; stash.has(&[7, 8]));
    let mut roomy = Numbers::roomy(rt.alloc(), view)?;
    holds!(rt; roomy.is_empty());
    holds!(rt; roomy.makes_room(&[view]));
    equal!(rt; roomy.variant(), 0);
    Ok(())
}

#[test]
fn to_typed_leaves_the_bytes(rt: HostRuntime) -> Result<(), Fail> {
    let stash = seven_eight(rt.alloc())?;
    let typed = stash.to_typed(rt.alloc())?;
    equal!(rt; typed.variant(), 0);
    holds!(rt; typed.has(&[7, 8]));
    holds!(rt; typed.writes(SEVEN_EIGHT.as_slice()));
    holds!(rt; typed.to_typed(rt.alloc())?.has(&[7, 8]));
    equal!(rt; stash.variant(), 1);
    holds!(rt; stash.has(&[7, 8]));
    Ok(())
}

#[test]
fn make_typed_lends_the_column(rt: HostRuntime) -> Result<(), Fail> {
    let mut stash = seven_eight(rt.alloc())?;
    holds!(rt; stash.pushes_within(9));
    equal!(rt; stash.variant(), 0);
    holds!(rt; stash.writes(&[16, 40, 7, 8, 9]));
    Ok(())
}

#[test]
fn aligned_bytes_end_with_the_last_slice(rt: HostRuntime) -> Result<(), Fail> {
    let aligned = seven_eight(rt.alloc())?.to_aligned(rt.alloc())?;
    equal!(rt; aligned.variant(), 2);
    equal!(rt; aligned.held(), 32);
    holds!(rt; aligned.has(&[7, 8]));
    equal!(rt; aligned.length_in_bytes(), Some(32));
    holds!(rt; aligned.writes(SEVEN_EIGHT.as_slice()));
    holds!(rt; aligned.to_typed(rt.alloc())?.has(&[7, 8]));
    Ok(())
}

#[test]
fn aligned_bytes_are_a_store_of_their_own(rt: HostRuntime) -> Result<(), Fail> {
    let aligned = seven_eight(rt.alloc())?.to_aligned(rt.alloc())?;
    let moved = aligned.into_aligned().expect(&rt, "aligned bytes");
    equal!(rt; moved.variant(), 1);
    holds!(rt; moved.has(&[7, 8]));
    holds!(rt; moved.clones(1, SEVEN_EIGHT.as_slice()));
    Ok(())
}

#[test]
fn make_aligned_keeps_the_rows(rt: HostRuntime) -> Result<(), Fail> {
    let mut stash = seven_eight(rt.alloc())?;
    holds!(rt; stash.aligns(rt.alloc()));
    holds!(rt; stash.aligns(rt.alloc()));
    equal!(rt; stash.variant(), 2);
    holds!(rt; stash.has(&[7, 8]));
    holds!(rt; stash.writes(SEVEN_EIGHT.as_slice()));
    Ok(())
}

#[test]
fn a_run_answers_each_command(rt: HostRuntime) -> Result<(), Fail> {
    let commands = [
        Command::Push(1u64),
        Command::Copy(1, 3),
        Command::Copy(2, 4),
        Command::Reopen,
        Command::Truncate(2),
        Command::Truncate(9),
    ];
    let (stash, replies) = Numbers::ran(rt.alloc(), &[5, 6, 7], commands.as_slice());
    equal!(rt;
        replies?.as_slice(),
        [DONE, DONE, RANGE, DONE, DONE, RANGE].as_slice()
    );
    equal!(rt; stash.variant(), 0);
    holds!(rt; stash.has(&[1, 6]));
    Ok(())
}

#[test]
fn a_run_changes_the_variant(rt: HostRuntime) -> Result<(), Fail> {
    let commands = [
        Command::MakeAligned,
        Command::Copy(3, 2),
        Command::MakeTyped,
        Command::Push(1u64),
        Command::Clear,
        Command::Copy(0, 3),
        Command::MakeAligned,
    ];
    let (stash, replies) = Numbers::ran(rt.alloc(), &[5, 6, 7], commands.as_slice());
    equal!(rt;
        replies?.as_slice(),
        [DONE, RANGE, DONE, DONE, DONE, DONE, DONE].as_slice()
    );
    equal!(rt; stash.variant(), 2);
    holds!(rt; stash.has(&[5, 6, 7]));
    Ok(())
}

#[test]
fn a_run_over_pairs(rt: HostRuntime) -> Result<(), Fail> {
    let firsts = [5, 6, 7];
    let seconds = [50, 60, 70];
    let source = (
        View::from_slice(firsts.as_slice()),
        View::from_slice(seconds.as_slice()),
    );
    holds!(rt; source.check().is_ok());
    let commands = [
        Command::Push((1u64, 10u64)),
        Command::Reopen,
        Command::Copy(1, 3),
        Command::Copy(0, 4),
        Command::Truncate(2),
        Command::Reopen,
    ];
    let words = [24, 40, 56, 1, 6, 10, 60];
    let (replies, variant, written) = ran::<_, _, Pairs>(
        rt.alloc(),
        source,
        commands.as_slice(),
        words.as_slice(),
    )?;
    equal!(rt;
        replies.as_slice(),
        [DONE, DONE, DONE, RANGE, DONE, DONE].as_slice()
    );
    equal!(rt; variant, 1);
    holds!(rt; written);
    Ok(())
}

// The owner, the age if known, and the marks.
type Marks = (Vec<u64>, (Options<Vec<u32>>, Vecs<Vec<u16>>));

#[test]
fn a_run_over_rows_with_lists(rt: HostRuntime) -> Result<(), Fail> {
    let alloc = rt.alloc();
    let marks = Vec::from_slice(alloc, &[3u16, 5])?;
    let commands = [
        Command::Push((7u64, (Some(12u32), marks))),
        Command::Copy(0, 1),
        Command::Reopen,
    ];
    let source = Stash::<Marks, Vec<u8>>::empty(alloc);
    // The words of the slices: 7; no count, the bit 1 in a tail of one, 12; the end 2, and 3 and 5.
    let words = [64, 72, 72, 72, 88, 92, 104, 108, 7, 1, 1, 12, 2, 327683];
    let (replies, _, written) = ran_from(alloc, &source, commands.as_slice(), words.as_slice())?;
    equal!(rt; replies.as_slice(), [DONE, RANGE, DONE].as_slice());
    holds!(rt; written);
    Ok(())
}

// Stashes of repeats and of lookbacks: a stash is a column, opened bytes or aligned bytes.
ghost use Rattle.columnar_core.specs.Format.{IsSound};
ghost use Rattle.columnar_bytes.specs.Stashes.{stash_content};

use super::{Backs, Runs};
use crate::calls::{aligns, clone_writes, loaded, stash_copies, stash_cut};
use crate::rows::Held;
use columnar_bytes::stash::Stash;
use columnar_core::container::Borrow;
use columnar_core::traits::{Clear, Column, Len, Push, PushRef};
use columnar_lookback::lookbacks::Lookbacks;
use std::alloc::Global;
use std::test::Fail;
use test_support::columns::copied;
use test_support::stashes::{has, opened, reopened, variant, writes};
use test_support::stores::refusal;

type Far = Lookbacks<Vec<u64>, 255>;

// A stash of numbers whose runs are stored once.
#[derive(Drop)]
pub(crate) struct RunStash {
    stash: Stash<Held, Vec<u8>>,
    ghost sound: { IsSound ⟦<Held as Column>⟧.format (stash_content stash) },
}

impl RunStash {
    // Returns the rule that a store breaks, and the slice, if there is memory for the test.
    pub(crate) fn refusal(alloc: Global, words: &[u64]) -> Option<(u8, usize)> {
        refusal::<Held>(alloc, words).ok()
    }

    pub(crate) fn empty(alloc: Global) -> RunStash {
        RunStash {
            stash: Stash::empty(alloc),
        }
    }

    // Opens accepted words.
    pub(crate) fn opened(alloc: Global, words: &[u64]) -> Option<RunStash> {
        Some(RunStash {
            stash: opened(alloc, words)?,
        })
    }

    // Opens what the stash of a column writes.
    pub(crate) fn reopened(alloc: Global, column: Runs) -> Option<RunStash> {
        Some(RunStash {
            stash: reopened(alloc, &Stash::<_, Vec<u8>>::Typed(column.column))?,
        })
    }

    // Loads it as a column.
    pub(crate) fn loaded(&self, alloc: Global) -> Result<Runs, Fail> {
        Ok(Runs {
            column: loaded(alloc, &self.stash)?,
        })
    }

    pub(crate) fn takes(&mut self, item: u64) -> bool {
        self.stash.push(item).is_ok()
    }

    // Pushes a reference to an item; returns whether it succeeds.
    pub(crate) fn takes_lent(&mut self, item: &u64) -> bool {
        self.stash.push(item).is_ok()
    }

    // Copies these rows of a column.
    pub(crate) fn copies(&mut self, source: &Runs, start: usize, end: usize) -> bool {
        stash_copies(&mut self.stash, source.column.borrow(), start, end)
    }

    // Copies these rows to a column.
    pub(crate) fn is_copied(&self, column: &mut Runs, start: usize, end: usize) -> bool {
        copied(&mut column.column, self.stash.borrow(), start, end)
    }

    pub(crate) fn is_cut(&mut self, count: usize) -> bool {
        stash_cut(&mut self.stash, count)
    }

    pub(crate) fn clear(&mut self) {
        self.stash.clear();
    }

    pub(crate) fn aligns(&mut self, alloc: Global) -> bool {
        aligns(alloc, &mut self.stash)
    }

    pub(crate) fn is_empty(&self) -> bool {
        self.stash.is_empty()
    }

    pub(crate) fn variant(&self) -> u8 {
        variant(&self.stash)
    }

    pub(crate) fn length_in_bytes(&self) -> Option<usize> {
        self.stash.length_in_bytes()
    }

    // Tests whether it has exactly these rows.
    pub(crate) fn has(&self, rows: &[u64]) -> bool {
        has(&self.stash, rows)
    }

    pub(crate) fn writes(&self, words: &[u64]) -> bool {
        writes(&self.stash, words)
    }

    // Tests whether its clone writes these words.
    pub(crate) fn clone_writes(&self, words: &[u64]) -> bool {
        clone_writes(&self.stash, words)
    }
}

// A stash of numbers that are stored once within the maximum distance.
#[derive(Drop)]
pub(crate) struct BackStash {
    stash: Stash<Far, Vec<u8>>,
    ghost sound: { IsSound ⟦<Far as Column>⟧.format (stash_content stash) },
}

impl BackStash {
    // Returns the rule that a store breaks, and the slice, if there is memory for the test.
    pub(crate) fn refusal(alloc: Global, words: &[u64]) -> Option<(u8, usize)> {
        refusal::<Far>(alloc, words).ok()
    }

    pub(crate) fn empty(alloc: Global) -> BackStash {
        BackStash {
            stash: Stash::empty(alloc),
        }
    }

    // Opens accepted words.
    pub(crate) fn opened(alloc: Global, words: &[u64]) -> Option<BackStash> {
        Some(BackStash {
            stash: opened(alloc, words)?,
        })
    }

    // Opens what the stash of a column writes.
    pub(crate) fn reopened(alloc: Global, column: Backs) -> Option<BackStash> {
        Some(BackStash {
            stash: reopened(alloc, &Stash::<_, Vec<u8>>::Typed(column.column))?,
        })
    }

    // Loads it as a column.
    pub(crate) fn loaded(&self, alloc: Global) -> Result<Backs, Fail> {
        Ok(Backs {
            column: loaded(alloc, &self.stash)?,
        })
    }

    pub(crate) fn takes(&mut self, item: u64) -> bool {
        self.stash.push(item).is_ok()
    }

    // Pushes a reference to an item; returns whether it succeeds.
    pub(crate) fn takes_lent(&mut self, item: &u64) -> bool {
        self.stash.push(item).is_ok()
    }

    // Pushes an item by `push_ref`; returns whether it succeeds.
    pub(crate) fn takes_ref(&mut self, item: &u64) -> bool {
        self.stash.push_ref(item).is_ok()
    }

    // Copies these rows of a column.
    pub(crate) fn copies(&mut self, source: &Backs, start: usize, end: usize) -> bool {
        stash_copies(&mut self.stash, source.column.borrow(), start, end)
    }

    // Copies these rows to a column.
    pub(crate) fn is_copied(&self, column: &mut Backs, start: usize, end: usize) -> bool {
        copied(&mut column.column, self.stash.borrow(), start, end)
    }

    pub(crate) fn is_cut(&mut self, count: usize) -> bool {
        stash_cut(&mut self.stash, count)
    }

    pub(crate) fn clear(&mut self) {
        self.stash.clear();
    }

    pub(crate) fn aligns(&mut self, alloc: Global) -> bool {
        aligns(alloc, &mut self.stash)
    }

    pub(crate) fn is_empty(&self) -> bool {
        self.stash.is_empty()
    }

    pub(crate) fn variant(&self) -> u8 {
        variant(&self.stash)
    }

    pub(crate) fn length_in_bytes(&self) -> Option<usize> {
        self.stash.length_in_bytes()
    }

    // Tests whether it has exactly these rows.
    pub(crate) fn has(&self, rows: &[u64]) -> bool {
        has(&self.stash, rows)
    }

    pub(crate) fn writes(&self, words: &[u64]) -> bool {
        writes(&self.stash, words)
    }

    // Tests whether its clone writes these words.
    pub(crate) fn clone_writes(&self, words: &[u64]) -> bool {
        clone_writes(&self.stash, words)
    }
}

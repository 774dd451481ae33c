// Columns of repeats and of lookbacks, for the calls of many tests. Only these types name the nested columns, so that a
// test does not. A struct for any column would pass its impls at each call, and a macro may not write a ghost field; so
// there are two structs.
ghost use Rattle.columnar_core.specs.Format.{IsSound};

pub(crate) mod stashes;

use crate::calls::{
    encodes, has_bytes, has_sizes, is_copied_whole, is_cut_and_cleared, twin_of, with_room,
};
use crate::rows::{Held, numbers};
use columnar_core::bytes::Check;
use columnar_core::container::{Borrow, Reborrow, Storage};
use columnar_core::traits::{Column, Index, Len};
use columnar_lookback::lookbacks::Lookbacks;
use std::alloc::Global;
use std::test::Fail;
use test_support::columns::{copied, count, cut, reads, row_at, takes, takes_ref};
use test_support::stores::is_written;

type Far = Lookbacks<Vec<u64>, 255>;

// Numbers whose runs are stored once.
#[derive(Drop)]
pub(crate) struct Runs {
    column: Held,
    ghost sound: { IsSound ⟦<Held as Column>⟧.format (⟦<Held as Column>⟧.content column) },
}

impl Runs {
    pub(crate) fn empty(alloc: Global) -> Runs {
        Runs {
            column: Held::empty(alloc),
        }
    }

    // Creates a column of these rows.
    pub(crate) fn of(alloc: Global, rows: &[u64]) -> Result<Runs, Fail> {
        Ok(Runs {
            column: numbers(alloc, rows)?,
        })
    }

    // Creates an empty column with space for another.
    pub(crate) fn with_room_for(alloc: Global, source: &Runs) -> Result<Runs, Fail> {
        Ok(Runs {
            column: with_room(alloc, source.column.borrow())?,
        })
    }

    pub(crate) fn takes(&mut self, item: u64) -> bool {
        takes(&mut self.column, item)
    }

    // Pushes a reference to an item; returns whether it succeeds.
    pub(crate) fn takes_lent(&mut self, item: &u64) -> bool {
        takes(&mut self.column, item)
    }

    // Copies these rows of another column.
    pub(crate) fn copies(&mut self, source: &Runs, start: usize, end: usize) -> bool {
        copied(&mut self.column, source.column.borrow(), start, end)
    }

    pub(crate) fn is_copied_whole(&self, alloc: Global) -> bool {
        is_copied_whole(alloc, self.column.borrow(), &self.column)
    }

    pub(crate) fn cut(&mut self, n: usize) {
        cut(&mut self.column, n);
    }

    pub(crate) fn is_empty(&self) -> bool {
        self.column.is_empty()
    }

    pub(crate) fn count(&self) -> usize {
        count(&self.column)
    }

    pub(crate) fn is_repeated(&self, item: u64) -> bool {
        self.column.is_repeated(&item)
    }

    pub(crate) fn row(&self, index: usize) -> Option<u64> {
        row_at(&self.column, index)
    }

    // Tests whether it has exactly these rows.
    pub(crate) fn reads(&self, rows: &[u64]) -> bool {
        reads(&self.column, rows)
    }

    // Tests whether it has these rows, read through a reference.
    pub(crate) fn reads_lent(&self, rows: &[&u64]) -> bool {
        reads(&&self.column, rows)
    }

    // Tests whether its view and a shorter-lived one have these rows, and whether the view is well-formed.
    pub(crate) fn views_read(&self, rows: &[u64]) -> bool {
        let view = self.column.borrow();
        reads(&view, rows) && reads(&view.reborrow(), rows) && view.check().is_ok()
    }

    // Returns the last row, through a view.
    pub(crate) fn last(&self) -> Option<u64> {
        Index::last(&self.column.borrow())
    }

    // Tests whether these are its stored values.
    pub(crate) fn keeps(&self, values: &[u64]) -> bool {
        self.column.inner.somes.as_slice() == values
    }

    // Counts its stored values.
    pub(crate) fn kept(&self) -> usize {
        self.column.inner.somes.as_slice().len()
    }

    // Tests whether these are the words of its store.
    pub(crate) fn is_written(&self, words: &[u64]) -> bool {
        is_written(&self.column, words)
    }

    // Tests whether these are the words of its view's store.
    pub(crate) fn encodes(&self, alloc: Global, words: &[u64]) -> bool {
        encodes(alloc, &self.column.borrow(), words)
    }

    // Tests whether its slices have elements of these sizes.
    pub(crate) fn has_sizes(alloc: Global, sizes: &[usize]) -> bool {
        has_sizes::<Held>(alloc, sizes)
    }

    // Tests whether slice `index`, and its view's, has this many bytes.
    pub(crate) fn has_bytes(&self, index: usize, bytes: usize) -> bool {
        has_bytes(&self.column, &self.column.borrow(), index, bytes)
    }

    // Returns the clone of its duplicate, if both have these rows and are equal.
    pub(crate) fn twin(&self, alloc: Global, rows: &[u64]) -> Option<Held> {
        twin_of(alloc, &self.column, rows)
    }

    // Tests whether it differs from its twin after truncation, and whether it is empty after `clear` and then accepts
    // an item.
    pub(crate) fn is_cut_and_cleared(
        &mut self,
        alloc: Global,
        twin: &Held,
        count: usize,
        item: u64,
    ) -> bool {
        is_cut_and_cleared(alloc, &mut self.column, twin, count, item)
    }
}

// Numbers that are stored once within the maximum distance.
#[derive(Drop)]
pub(crate) struct Backs {
    column: Far,
    ghost sound: { IsSound ⟦<Far as Column>⟧.format (⟦<Far as Column>⟧.content column) },
}

impl Backs {
    pub(crate) fn empty(alloc: Global) -> Backs {
        Backs {
            column: Far::empty(alloc),
        }
    }

    // Creates a column of these rows.
    pub(crate) fn of(alloc: Global, rows: &[u64]) -> Result<Backs, Fail> {
        Ok(Backs {
            column: numbers(alloc, rows)?,
        })
    }

    // Creates an empty column with space for another.
    pub(crate) fn with_room_for(alloc: Global, source: &Backs) -> Result<Backs, Fail> {
        Ok(Backs {
            column: with_room(alloc, source.column.borrow())?,
        })
    }

    pub(crate) fn takes(&mut self, item: u64) -> bool {
        takes(&mut self.column, item)
    }

    // Pushes a reference to an item; returns whether it succeeds.
    pub(crate) fn takes_lent(&mut self, item: &u64) -> bool {
        takes(&mut self.column, item)
    }

    // Pushes an item by `push_ref`; returns whether it succeeds.
    pub(crate) fn takes_ref(&mut self, item: &u64) -> bool {
        takes_ref(&mut self.column, item)
    }

    // Copies these rows of another column.
    pub(crate) fn copies(&mut self, source: &Backs, start: usize, end: usize) -> bool {
        copied(&mut self.column, source.column.borrow(), start, end)
    }

    pub(crate) fn is_copied_whole(&self, alloc: Global) -> bool {
        is_copied_whole(alloc, self.column.borrow(), &self.column)
    }

    pub(crate) fn cut(&mut self, n: usize) {
        cut(&mut self.column, n);
    }

    pub(crate) fn is_empty(&self) -> bool {
        self.column.is_empty()
    }

    pub(crate) fn count(&self) -> usize {
        count(&self.column)
    }

    pub(crate) fn distance_to(&self, item: u64) -> Option<u8> {
        self.column.distance_to(&item)
    }

    pub(crate) fn row(&self, index: usize) -> Option<u64> {
        row_at(&self.column, index)
    }

    // Tests whether it has exactly these rows.
    pub(crate) fn reads(&self, rows: &[u64]) -> bool {
        reads(&self.column, rows)
    }

    // Tests whether it has these rows, read through a reference.
    pub(crate) fn reads_lent(&self, rows: &[&u64]) -> bool {
        reads(&&self.column, rows)
    }

    // Tests whether its view and a shorter-lived one have these rows, and whether the view is well-formed.
    pub(crate) fn views_read(&self, rows: &[u64]) -> bool {
        let view = self.column.borrow();
        reads(&view, rows) && reads(&view.reborrow(), rows) && view.check().is_ok()
    }

    // Returns the last row, through a view.
    pub(crate) fn last(&self) -> Option<u64> {
        Index::last(&self.column.borrow())
    }

    // Tests whether these are its stored values and distances.
    pub(crate) fn keeps(&self, values: &[u64], distances: &[u8]) -> bool {
        self.column.inner.oks.as_slice() == values && self.column.inner.errs.as_slice() == distances
    }

    // Tests whether these are the words of its store.
    pub(crate) fn is_written(&self, words: &[u64]) -> bool {
        is_written(&self.column, words)
    }

    // Tests whether these are the words of its view's store.
    pub(crate) fn encodes(&self, alloc: Global, words: &[u64]) -> bool {
        encodes(alloc, &self.column.borrow(), words)
    }

    // Tests whether its slices have elements of these sizes.
    pub(crate) fn has_sizes(alloc: Global, sizes: &[usize]) -> bool {
        has_sizes::<Far>(alloc, sizes)
    }

    // Tests whether slice `index`, and its view's, has this many bytes.
    pub(crate) fn has_bytes(&self, index: usize, bytes: usize) -> bool {
        has_bytes(&self.column, &self.column.borrow(), index, bytes)
    }

    // Returns the clone of its duplicate, if both have these rows and are equal.
    pub(crate) fn twin(&self, alloc: Global, rows: &[u64]) -> Option<Far> {
        twin_of(alloc, &self.column, rows)
    }

    // Tests whether it differs from its twin after truncation, and whether it is empty after `clear` and then accepts
    // an item.
    pub(crate) fn is_cut_and_cleared(
        &mut self,
        alloc: Global,
        twin: &Far,
        count: usize,
        item: u64,
    ) -> bool {
        is_cut_and_cleared(alloc, &mut self.column, twin, count, item)
    }
}

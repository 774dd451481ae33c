//! A report: the number of requests of each page. Its counters are incremented in place.
ghost use Rattle.std.specs.Prelude.{◌≡◌, ◌<◌, ◌+◌, ◌%◌, ◌^◌, ℕ, length, slice_get, Some, Ok, true, false, OnErr};
ghost use Rattle.columnar.specs.Format.{IsSound};
ghost use Rattle.columnar.specs.Stashes.{stash_content};
ghost use Rattle.columnar.specs.Wrote.{Wrote, row_at};

use columnar::bytes::stash::Stash;
use columnar::fault::{GrowError, StoreFault};
use columnar::{Borrow, Column, Field, Index, Len, Push, SetItem};
use std::alloc::Global;
use std::io::{self, Write};

/// The page's number, and its number of requests.
pub type Columns = (Vec<u32>, Vec<u64>);

/// The counters, in columns or in accepted bytes.
#[derive(Drop)]
pub struct Report {
    stash: Stash<Columns, Vec<u8>>,
    ghost sound: { IsSound ⟦<Columns as Column>⟧.format (stash_content stash) },
}

impl Report {
    /// Creates a report without pages.
    pub fn new(alloc: Global) -> Report {
        Report {
            stash: Stash::empty(alloc),
        }
    }

    /// Opens a written report.
    pub fn open(alloc: Global, bytes: Vec<u8>) -> Result<Report, StoreFault> {
        let stash = Stash::try_from_bytes(alloc, bytes)?;
        Ok(Report { stash })
    }

    /// Returns the bytes of the report; fails if an allocation fails.
    pub fn written(&self, alloc: Global) -> anyhow::Result<Vec<u8>> {
        let mut bytes = Vec::new(alloc);
        self.stash.write_bytes(&mut bytes)?;
        Ok(bytes)
    }

    /// Appends a page without requests. On an error, the report stays the same.
    pub fn add(&mut self, page: u32) -> Result<(), GrowError> {
        self.stash.push((page, 0u64))
    }

    /// Increments the counter of row `index` in place; the page and all other rows stay the same. Returns false,
    /// and keeps all rows, if there is no such row. Allocates only if the report is in bytes.
    pub fn raise(&mut self, index: usize) -> Result<bool, GrowError>
        ensures kept { result ≡ Ok false → stash_content self.new.stash ≡ stash_content self.old.stash }
        ensures refused { OnErr result (self.new.stash ≡ self.old.stash) }
    {
        let columns = self.stash.make_typed()?;
        if index >= columns.len() {
            return Ok(false);
        }
        let (_page, count) = Index::get(columns, index);
        columns.set_item(index, Field::<1>, count.wrapping_add(1));
        Ok(true)
    }

    /// Prints a line for each page.
    pub fn print<O: Write>(&self, out: &mut O) -> Result<(), io::Error> {
        for (page, count) in self.stash.borrow().into_index_iter() {
            writeln!(out, "page {page}: {count}")?;
        }
        Ok(())
    }
}

//! Visits, your own struct, and a column of them. `visit/rows.rt`, which `columnar_derive` writes, makes them rows.
ghost use Rattle.columnar.specs.Format.{IsSound};
ghost use Rattle.columnar.specs.Stashes.{stash_content};

mod rows;

use columnar::bytes::stash::Stash;
use columnar::fault::{GrowError, OwnError, StoreFault};
use columnar::{Borrow, Column, Columnar, Index, Len, Push, PushRef};
pub use rows::VisitReference;
use rows::{VisitColumns, VisitContainer};
use std::alloc::Global;
use std::io::{self, Write};

/// Who visited, when, and what they saw.
#[derive(Drop)]
pub struct Visit {
    pub time: u64,
    pub user: String,
    pub pages: Vec<String>,
    pub level: u8,
    pub note: Option<String>,
}

/// Visits in order of arrival, in a column or in accepted bytes.
#[derive(Drop)]
pub struct Visits {
    stash: Stash<VisitContainer, Vec<u8>>,
    ghost sound: { IsSound ⟦<VisitContainer as Column>⟧.format (stash_content stash) },
}

impl Visits {
    /// Creates a list without visits.
    pub fn new(alloc: Global) -> Visits {
        Visits {
            stash: Stash::empty(alloc),
        }
    }

    /// Opens written visits.
    pub fn open(alloc: Global, bytes: Vec<u8>) -> Result<Visits, StoreFault> {
        let stash = Stash::try_from_bytes(alloc, bytes)?;
        Ok(Visits { stash })
    }

    /// Returns the bytes of the visits; fails if an allocation fails.
    pub fn written(&self, alloc: Global) -> anyhow::Result<Vec<u8>> {
        let mut bytes = Vec::new(alloc);
        self.stash.write_bytes(&mut bytes)?;
        Ok(bytes)
    }

    /// Appends a visit that is stored elsewhere.
    pub fn add(&mut self, visit: &Visit) -> Result<(), GrowError> {
        self.stash.push_ref(visit)
    }

    /// Appends a visit whose parts are stored elsewhere.
    pub fn add_parts(&mut self, time: u64, user: &str, pages: &[String]) -> Result<(), GrowError> {
        self.stash.push(VisitReference {
            time,
            user,
            pages,
            level: 0u8,
            note: None::<&str>,
        })
    }

    /// Returns visit `index` as an owned value; `None` if there are not so many.
    pub fn visit(&self, alloc: Global, index: usize) -> Option<Result<Visit, OwnError>> {
        let row = self.stash.borrow().get_checked(index)?;
        Some(Visit::into_owned(alloc, row))
    }

    /// Returns the sum of the times; reads no other field.
    pub fn time(&self) -> u64 {
        let mut sum = 0u64;
        for time in self.stash.borrow().time().into_index_iter() {
            sum = sum.saturating_add(time);
        }
        sum
    }

    /// Prints a line for each visit: the time, the length of the name, the number of pages, and whether there is a
    /// note.
    pub fn print<O: Write>(&self, out: &mut O) -> io::Result<()> {
        for row in self.stash.borrow().into_index_iter() {
            let visit = row.show();
            let (user, pages) = (visit.user.len(), visit.pages.len());
            let noted = visit.note.is_some();
            writeln!(out, "{} {user} {pages} {} {noted}", visit.time, visit.level)?;
        }
        Ok(())
    }
}

//! Stores of readings, read in place: sorted, merged and searched.
ghost use Rattle.columnar.specs.Format.{IsSound};
ghost use Rattle.columnar.specs.Stashes.{stash_content};

use columnar::bytes::stash::Stash;
use columnar::fault::GrowError;
use columnar::operators::{merge, partition_point, sort_indices, take};
use columnar::{Borrow, Column, Columnar, ContainerOf, ExtendFrom, Index, Storage};
use std::alloc::Global;
use std::io::{self, Write};
use std::iter::once;

/// A time and a value.
pub type Reading = (u64, i64);

/// Columns of times and values.
pub type Columns = ContainerOf<Reading>;

/// Readings in bytes that were accepted, or in columns.
#[derive(Drop)]
pub struct Readings {
    stash: Stash<Columns, Vec<u8>>,
    ghost sound: { IsSound ⟦<Columns as Column>⟧.format (stash_content stash) },
}

impl Readings {
    /// Writes the readings as a store, and opens it.
    pub fn stored(alloc: Global, readings: &[Reading]) -> anyhow::Result<Readings> {
        let columns = Reading::column_of(alloc, readings)?;
        let mut bytes = Vec::new(alloc);
        Stash::<Columns, Vec<u8>>::Typed(columns).write_bytes(&mut bytes)?;
        let stash = Stash::try_from_bytes(alloc, bytes)?;
        Ok(Readings { stash })
    }

    /// Returns the same readings, sorted by time and value, in columns with room for them from the start.
    pub fn sorted(&self, alloc: Global) -> Result<Readings, GrowError> {
        let view = self.stash.borrow();
        let order = sort_indices(alloc, &view)?;
        let mut columns = Columns::with_capacity_for(alloc, once(view))?;
        take(&mut columns, view, order.as_slice())?;
        let stash = Stash::Typed(columns);
        Ok(Readings { stash })
    }

    /// Returns the readings of both; they are sorted if both are.
    pub fn merged(&self, alloc: Global, other: &Readings) -> Result<Readings, GrowError> {
        let mut columns = Columns::empty(alloc);
        merge(&mut columns, self.stash.borrow(), other.stash.borrow())?;
        let stash = Stash::Typed(columns);
        Ok(Readings { stash })
    }

    /// Counts the readings before a time, if they are sorted.
    pub fn before(&self, time: u64) -> usize {
        partition_point(&self.stash.borrow(), |(at, _)| at < time)
    }

    /// Prints the readings.
    pub fn print<O: Write>(&self, out: &mut O) -> io::Result<()> {
        for (time, value) in self.stash.borrow().into_index_iter() {
            writeln!(out, "{time} {value}")?;
        }
        Ok(())
    }
}

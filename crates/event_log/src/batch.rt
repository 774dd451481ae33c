//! Batches of events, and a batch that stores its four fields in columns.
ghost use Rattle.std.specs.Prelude.{◌≡◌, ◌++◌, ◌∷◌, [], ℕ, List, IfOk, IfErr, OnOk, IsOk, IsTrue};
ghost use Rattle.columnar_bytes.specs.Accepted.{Accepts, IsFirstFault};
ghost use Rattle.columnar_core.specs.Format.{Format, IsSound, representable};
ghost use Rattle.columnar_core.specs.Row.{Row};
ghost use Rattle.event_log.specs.Batches.{IsStoreOf, store_rows};
ghost use Rattle.event_log.specs.Counting.{AreCounted};
ghost use Rattle.event_log.specs.Lines.{event_row};
ghost use Rattle.event_log.specs.Tables.{table_bytes};

use crate::counts::{Counts, count_rows};
use crate::level::Levels;
use crate::lines::Event;
use crate::told::Failure;
use columnar_bytes::stash::Stash;
use columnar_core::bytes::Stored;
use columnar_core::container::{ContainerBytes, Storage};
use columnar_core::fault::{GrowError, StoreFault, WriteFault};
use columnar_core::traits::{Column, Push};
use columnar_strings::string::Strings;
use std::alloc::Global;

/// Events in order of arrival, which are written as a store.
pub trait Batch: Drop {
    // the format of the store
    ghost format: { Format };

    // the rows of the events
    ghost rows: { Self → List Row };

    /// Creates a batch without events.
    fn none(alloc: Global) -> Self
        ensures { rows result ≡ [] };

    /// Appends an event.
    fn add(&mut self, event: Event<'_>) -> Result<(), Failure>
        ensures { IfOk result (λ u. rows self.new ≡ rows self.old ++ (event_row event.entry ∷ [])) };

    /// Returns its bytes: one store of its rows.
    fn into_store(self, alloc: Global) -> Result<Vec<u8>, Failure>
        ensures { IfOk result (λ bytes. IsStoreOf format (rows self) bytes.items) };

    /// Counts the events of each level of a store, in place. Allocates nothing.
    ///
    /// # Errors
    /// The first fault if the store is not a batch.
    fn count_store(alloc: Global, store: &[u8]) -> Result<Counts, StoreFault>
        ensures ok { IfOk result (λ counts. Accepts format store.now × AreCounted (store_rows format store.now) counts) }
        ensures fault { IfErr result (λ fault. (Accepts format store.now → ⊥) × IsFirstFault format store.now fault) };

    /// Returns the number of bytes of the table of each store.
    fn table_length() -> u64
        ensures { result ≡ table_bytes format };
}

/// Columns of times, users, levels and texts.
pub type Columns = (Vec<u64>, (Strings, (Levels, Strings)));

/// Events in columns.
#[derive(Drop)]
pub struct Events {
    column: Columns,
    ghost sound: { IsSound ⟦<Columns as Column>⟧.format (⟦<Columns as Column>⟧.content column) },
}

impl Batch for Events {
    ghost format = { ⟦<Columns as Column>⟧.format };

    ghost rows = { λ e. ⟦<Columns as Column>⟧.format.rows (⟦<Columns as Column>⟧.content e.column) };

    fn none(alloc: Global) -> Events {
        Events {
            column: Columns::empty(alloc),
        }
    }

    fn add(&mut self, event: Event<'_>) -> Result<(), Failure> {
        let row = (event.time, (event.user, (event.level, event.text)));
        kept(self.column.push(row))
    }

    fn into_store(self, alloc: Global) -> Result<Vec<u8>, Failure> {
        store_of(alloc, self.column)
    }

    fn count_store(alloc: Global, store: &[u8]) -> Result<Counts, StoreFault> {
        let opened = Stash::<Columns, &[u8]>::try_from_bytes(alloc, store)?;
        Ok(count_rows(&opened.borrow()))
    }

    fn table_length() -> u64 {
        8 * (Columns::slice_count() as u64 + 1)
    }
}

// Converts the result of a push into the program's failures.
fn kept(pushed: Result<(), GrowError>) -> Result<(), Failure>
    ensures { OnOk result (IsOk pushed) }
{
    match pushed {
        Ok(()) => Ok(()),
        Err(GrowError::Memory) => Err(Failure::Memory),
        Err(_) => Err(Failure::TooLong),
    }
}

// Returns the bytes of a column: one store of its rows.
fn store_of<C: ContainerBytes + Drop>(alloc: Global, column: C) -> Result<Vec<u8>, Failure>
    requires representable { IsTrue (representable C.format) }
    requires sound { IsSound C.format (C.content column) }
    ensures { IfOk result (λ bytes. IsStoreOf C.format (C.format.rows (C.content column)) bytes.items) }
{
    let stash = Stash::<C, Vec<u8>>::Typed(column);
    let mut bytes = Vec::new(alloc);
    match stash.write_bytes(&mut bytes) {
        Ok(()) => Ok(bytes),
        Err(WriteFault::Length) => Err(Failure::TooLong),
        Err(WriteFault::Writer(_)) => Err(Failure::Memory),
    }
}

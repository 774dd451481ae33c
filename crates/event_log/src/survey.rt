//! The contents of a log: whole batches, and a tail.
ghost use Rattle.std.specs.Prelude.{◌≡◌, IfOk, IfErr};
ghost use Rattle.columnar_bytes.specs.Accepted.{Accepts};
ghost use Rattle.event_log.specs.Batches.{store_rows};
ghost use Rattle.event_log.specs.Counting.{AreCounted};
ghost use Rattle.event_log.specs.Logs.{IsForeign, IsForeignAt, IsFound, IsWholeLog};
ghost use Rattle.event_log.specs.Tables.{begins_with_table, table_bytes};

use crate::batch::Batch;
use crate::counts::Counts;
use columnar_bytes::indexed::split_store;
use columnar_core::fault::StoreFault;
use std::alloc::Global;

/// The contents of a log.
#[derive(Clone, Copy)]
pub struct Found {
    /// The number of whole batches.
    pub batches: u64,
    /// The number of their events of each level.
    pub counts: Counts,
    /// The number of their bytes.
    pub whole: usize,
    /// The number of bytes after them, of an incomplete batch.
    pub torn: usize,
}

/// Why bytes are not a log.
#[derive(Clone, Copy)]
pub enum Foreign {
    /// The store with this number, counted from 1, is not a batch.
    Store(u64, StoreFault),
    /// No batch starts at this byte.
    Tail(usize),
}

// Tests whether a batch could start with these bytes: its first word is the length of its table.
fn begins_batch<B: Batch>(tail: &[u8]) -> bool
    ensures { result ≡ begins_with_table (table_bytes B.format) tail.now }
{
    let table = B::table_length().to_le_bytes();
    tail.starts_with(&table) || table.starts_with(tail)
}

/// Reports the contents of the bytes, or the first that are not a batch. Allocates nothing.
pub fn survey<B: Batch>(alloc: Global, bytes: &[u8]) -> Result<Found, Foreign>
    ensures ok { IfOk result (IsFound B.format bytes.now) }
    ensures err { IfErr result (IsForeign B.format bytes.now) }
{
    let (batches, counts, tail) = read_all::<B>(alloc, bytes)?;
    let torn = tail.len();
    let whole = bytes.len() - torn;
    if !begins_batch::<B>(tail) {
        return Err(Foreign::Tail(whole));
    }
    Ok(Found {
        batches,
        counts,
        whole,
        torn,
    })
}

// Returns the number of whole stores, their events of each level, and the bytes after them.
fn read_all<B: Batch>(alloc: Global, bytes: &[u8]) -> Result<(u64, Counts, &[u8]), Foreign>
    ensures ok { IfOk result (λ r. IsWholeLog B.format bytes.now r.0 r.1 r.2.now) }
    ensures err { IfErr result (IsForeign B.format bytes.now) }
{
    let mut batches = 0u64;
    let mut counts = Counts::none();
    let mut rest = bytes;
    while let Ok((store, after)) = split_store(rest) {
        batches = batches.wrapping_add(1);
        counts = counts.plus(count_batch::<B>(alloc, store, batches)?);
        rest = after;
    }
    Ok((batches, counts, rest))
}

// Counts the events of each level of a store, which has this number.
fn count_batch<B: Batch>(alloc: Global, store: &[u8], number: u64) -> Result<Counts, Foreign>
    ensures ok { IfOk result (λ counts. Accepts B.format store.now × AreCounted (store_rows B.format store.now) counts) }
    ensures err { IfErr result (IsForeignAt B.format store.now number) }
{
    match B::count_store(alloc, store) {
        Ok(counts) => Ok(counts),
        Err(fault) => Err(Foreign::Store(number, fault)),
    }
}

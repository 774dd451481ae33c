//! Consecutive stores: the end of the first one, and all of them.
ghost use Rattle.std.specs.Prelude.{◌≡◌, ◌≢◌, ◌⊎◌, ◌%◌, ◌++◌, ◌<◌, ◌≤◌, ◌+◌, ◌*◌, ◌-◌, ◌^◌, ◌↔◌, length, take, drop, List, ℕ, [], true, false, IsOk, IfOk, IfErr, OnOk, OnErr};
ghost use Rattle.columnar_core.specs.Bytes.{word};
ghost use Rattle.columnar_core.specs.Frame.{slice_count};
ghost use Rattle.columnar_bytes.specs.Streams.{store_end, begins_store, BeginsStore, IsOneStore, HasTable, AreStores, joined, stores_in, rest_in, IsTornFrom};
ghost use Rattle.columnar_bytes.specs.StoresLeft.{stores_left, rest_left};
ghost use Rattle.columnar_bytes.specs.StreamFaults.{IsFlaw, IsSliceFlaw, IfKnown, IfNeeded, IsLengthAfter, IsNeededAfter, IsNoStoreAfter};

use super::many::Stores;
use columnar_core::fault::StoreFault;
use columnar_core::store::{round_up, word_in_bytes};

// The greatest number of bytes of whole words that a `usize` can count.
const MOST: usize = usize::MAX - 7;

/// What the beginning of a store determines about its length.
#[derive(Clone, Copy, Debug, PartialEq, Eq)]
pub enum StoreLength {
    /// The store has this many bytes.
    Known(usize),
    /// This many bytes of the store are needed to determine its length.
    Needs(usize),
}

/// Returns the length in bytes of the store that begins with `prefix`, or how many bytes are needed to determine it: 8,
/// then its table. Allocates nothing, whatever length is claimed.
///
/// # Errors
/// `FirstOffset`, `Backwards`, or `PastEnd` if a slice ends past all bytes that 64 bits can count: then no store begins
/// with `prefix`.
pub fn store_length(prefix: &[u8]) -> Result<StoreLength, StoreFault>
    ensures known { IfOk result (λ l. IfKnown l (λ n. (n ≡ store_end prefix.now) × IsLengthAfter prefix.now n)) }
    ensures needed { IfOk result (λ l. IfNeeded l (λ n. (length prefix.now < n) × IsNeededAfter prefix.now n)) }
    ensures table { IfOk result (λ l. IfNeeded l (λ n. 8 ≤ length prefix.now → n ≡ word prefix.now 0)) }
    ensures fault { IfErr result (IsFlaw prefix.now (2 ^ 64 - 8)) }
    ensures refused { OnErr result (IsNoStoreAfter prefix.now) }
{
    if prefix.len() < 8 {
        return Ok(StoreLength::Needs(8));
    }
    let table = table_length(prefix)?;
    if table > prefix.len() {
        return Ok(StoreLength::Needs(table));
    }
    let end = last_end(prefix, MOST)?;
    Ok(StoreLength::Known(end))
}

/// Splits off the first store, which ends after the padding of its last slice; allocates nothing.
///
/// # Errors
/// The first broken rule, if and only if the bytes begin with no whole store. `NotWords` refers to this store only: the
/// bytes after it are not read.
pub fn split_store(bytes: &[u8]) -> Result<(&[u8], &[u8]), StoreFault>
    ensures exact { IsOk result ↔ BeginsStore bytes.now }
    ensures first { IfOk result (λ r. IsOneStore r.0.now) }
    ensures joined { IfOk result (λ r. bytes.now ≡ r.0.now ++ r.1.now) }
    ensures begins { OnOk result (begins_store bytes.now ≡ true) }
    ensures parts { IfOk result (λ r. (r.0.now ≡ take (store_end bytes.now) bytes.now) × (r.1.now ≡ drop (store_end bytes.now) bytes.now)) }
    ensures fault { IfErr result (IsFlaw bytes.now (length bytes.now)) }
    ensures none { OnErr result (begins_store bytes.now ≡ false) }
{
    let end = first_end(bytes)?;
    Ok((&bytes[..end], &bytes[end..]))
}

// Returns where the first store ends.
fn first_end(bytes: &[u8]) -> Result<usize, StoreFault>
    ensures end { IfOk result (λ n. (n ≡ store_end bytes.now) × (n ≤ length bytes.now)) }
    ensures begins { OnOk result (begins_store bytes.now ≡ true) }
    ensures fault { IfErr result (IsFlaw bytes.now (length bytes.now)) }
    ensures none { OnErr result (begins_store bytes.now ≡ false) }
{
    let len = bytes.len();
    if len == 0 {
        return Err(StoreFault::Empty(0));
    }
    if len < 8 {
        return Err(StoreFault::NotWords(0));
    }
    let table = table_length(bytes)?;
    if table > len {
        return Err(StoreFault::Table(0));
    }
    let end = last_end(bytes, len)?;
    if end > len {
        return Err(StoreFault::NotWords(0));
    }
    Ok(end)
}

/// Iterates over the stores with which the bytes begin, in order; allocates nothing. For stores that were written one
/// after another these are all of them; if bytes are missing at the end, the whole ones.
pub fn stores(bytes: &[u8]) -> Stores<'_>
    ensures stores { stores_left result ≡ stores_in bytes.now }
    ensures rest { rest_left result ≡ rest_in bytes.now }
    ensures again { (all : List (List ℕ)) → AreStores all → bytes.now ≡ joined all → (stores_left result ≡ all) × (rest_left result ≡ []) }
    ensures torn { (all : List (List ℕ)) (missing : List ℕ) → AreStores all → joined all ≡ bytes.now ++ missing → 0 < length missing → IsTornFrom all (stores_left result) (rest_left result) }
{
    Stores { bytes }
}

// Returns the number of bytes of the table.
fn table_length(bytes: &[u8]) -> Result<usize, StoreFault>
    requires { 8 ≤ length bytes.now }
    ensures ok { IfOk result (λ n. (n ≡ word bytes.now 0) × (n ≡ 8 * (slice_count bytes.now + 1))) }
    ensures err { OnErr result ((word bytes.now 0 < 8) ⊎ (word bytes.now 0 % 8 ≢ 0)) }
    ensures fault { IfErr result (λ e. e ≡ StoreFault.FirstOffset 0) }
{
    let first = word_in_bytes(bytes, 0) as usize;
    if first < 8 || first % 8 != 0 {
        return Err(StoreFault::FirstOffset(0));
    }
    Ok(first)
}

// Returns where the last slice of the table ends, rounded up to words. Fails if a slice ends past `limit`, or before it
// starts.
fn last_end(bytes: &[u8], limit: usize) -> Result<usize, StoreFault>
    requires table { HasTable bytes.now limit (slice_count bytes.now) 0 }
    requires limit { limit + 7 < 2 ^ 64 }
    ensures ok { IfOk result (λ n. n ≡ store_end bytes.now) }
    ensures ordered { OnOk result (HasTable bytes.now limit (slice_count bytes.now) (slice_count bytes.now)) }
    ensures err { IfErr result (IsSliceFlaw bytes.now limit) }
{
    let first = word_in_bytes(bytes, 0) as usize;
    let mut start = first;
    for i in 0..first / 8 - 1 {
        let end = word_in_bytes(bytes, i + 1) as usize;
        if end > limit {
            return Err(StoreFault::PastEnd(i));
        }
        if end < start {
            return Err(StoreFault::Backwards(i));
        }
        start = round_up(end);
    }
    Ok(start)
}

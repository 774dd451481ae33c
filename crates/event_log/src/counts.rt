//! Counts of events by level.
ghost use Rattle.std.specs.Prelude.{◌≡◌, ◌+◌, ◌%◌, ◌^◌};
ghost use Rattle.columnar_core.specs.Format.{IsSound};
ghost use Rattle.event_log.specs.Counting.{AreCounted, at_level, rows_at_level};
ghost use Rattle.event_log.specs.Levels.{level_number};

use crate::level::Level;
use columnar_core::traits::{Index, Item, Len};

/// The number of events of each level. Each number wraps at 2^64.
#[derive(Clone, Copy)]
pub struct Counts {
    pub debug: u64,
    pub info: u64,
    pub warn: u64,
    pub error: u64,
}

impl Counts {
    /// Returns counts of 0.
    pub fn none() -> Counts
        ensures { (result.debug ≡ 0) × (result.info ≡ 0) × (result.warn ≡ 0) × (result.error ≡ 0) }
    {
        Counts {
            debug: 0,
            info: 0,
            warn: 0,
            error: 0,
        }
    }

    /// Adds both counts.
    pub fn plus(self, more: Counts) -> Counts
        ensures debug { result.debug ≡ (self.debug + more.debug) % 2 ^ 64 }
        ensures info { result.info ≡ (self.info + more.info) % 2 ^ 64 }
        ensures warn { result.warn ≡ (self.warn + more.warn) % 2 ^ 64 }
        ensures error { result.error ≡ (self.error + more.error) % 2 ^ 64 }
    {
        Counts {
            debug: self.debug.wrapping_add(more.debug),
            info: self.info.wrapping_add(more.info),
            warn: self.warn.wrapping_add(more.warn),
            error: self.error.wrapping_add(more.error),
        }
    }
}

/// A row with a level.
pub trait Levelled: Item {
    /// Adds one if the row has this level. The sum wraps at 2^64.
    fn count_at(&self, level: Level, before: u64) -> u64
        ensures { result ≡ (before + at_level (level_number level) (Self.Item.meaning self.now)) % 2 ^ 64 };
}

impl<T: Item, U: Item, X: Item> Levelled for (T, (U, (Level, X))) {
    fn count_at(&self, level: Level, before: u64) -> u64 {
        if self.1.1.0.number() == level.number() {
            before.wrapping_add(1)
        } else {
            before
        }
    }
}

/// Counts the rows of a level. The count wraps at 2^64.
///
/// # Requires
/// The column is well-formed.
pub fn rows_at<V: Index<Ref: Levelled> + Len>(rows: &V, level: Level) -> u64
    requires { IsSound V.format (V.content rows.now) }
    ensures { result ≡ rows_at_level (level_number level) (V.format.rows (V.content rows.now)) }
{
    let mut count = 0u64;
    for index in 0..rows.len() {
        count = rows.get(index).count_at(level, count);
    }
    count
}

/// Counts the rows of each level.
///
/// # Requires
/// The column is well-formed.
pub fn count_rows<V: Index<Ref: Levelled> + Len>(rows: &V) -> Counts
    requires { IsSound V.format (V.content rows.now) }
    ensures { AreCounted (V.format.rows (V.content rows.now)) result }
{
    Counts {
        debug: rows_at(rows, Level::Debug),
        info: rows_at(rows, Level::Info),
        warn: rows_at(rows, Level::Warn),
        error: rows_at(rows, Level::Error),
    }
}

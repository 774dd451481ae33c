//! Updates of a store of changes: a time, a key and a difference. They are sorted, and the updates of one time and key
//! are merged into one.
ghost use Rattle.columnar.specs.Format.{IsSound};

use columnar::common::OrderedRow;
use columnar::fault::{GrowError, SumError};
use columnar::operators::{sort_indices, take};
use columnar::string::as_text;
use columnar::{Borrow, Column, Index, Len, Push, Storage, Strings};
use std::alloc::Global;
use std::io::Write;

/// The time, the key and the difference.
pub type Columns = (Vec<u64>, Strings, Vec<i64>);

/// Updates, in columns.
#[derive(Drop)]
pub struct Updates {
    columns: Columns,
    ghost sound: { IsSound ⟦<Columns as Column>⟧.format (⟦<Columns as Column>⟧.content columns) },
}

impl Updates {
    /// Creates a list without updates.
    pub fn new(alloc: Global) -> Updates {
        Updates {
            columns: Columns::empty(alloc),
        }
    }

    /// Appends an update. On an error, the others stay the same.
    pub fn add(&mut self, time: u64, key: &[u8], difference: i64) -> Result<(), GrowError> {
        self.columns.push((time, key, difference))
    }

    /// Returns the same updates, sorted by time, key and difference.
    pub fn sorted(&self, alloc: Global) -> Result<Updates, GrowError> {
        let view = self.columns.borrow();
        let order = sort_indices(alloc, &view)?;
        let mut columns = Columns::empty(alloc);
        take(&mut columns, view, order.as_slice())?;
        Ok(Updates { columns })
    }

    /// Returns the updates sorted by time and key, with one update of the summed difference for each time and key; none
    /// if the sum is 0. Fails if a sum overflows.
    pub fn consolidated(&self, alloc: Global) -> anyhow::Result<Updates> {
        let sorted = self.sorted(alloc)?;
        let view = sorted.columns.borrow();
        let mut all = Updates::new(alloc);
        let mut sum = 0i64;
        for i in 0..view.len() {
            let (time, key, difference) = view.get(i);
            sum = sum.checked_add(difference).ok_or(SumError::Overflow)?;
            let goes_on = match view.get_checked(i + 1) {
                Some((next_time, next_key, _)) => time == next_time && key.same_row(&next_key),
                None => false,
            };
            if !goes_on {
                if sum != 0 {
                    all.add(time, key, sum)?;
                }
                sum = 0;
            }
        }
        Ok(all)
    }

    /// Prints the updates.
    pub fn print<O: Write>(&self, out: &mut O) -> anyhow::Result<()> {
        for (time, key, difference) in self.columns.borrow().into_index_iter() {
            let key = as_text(key)?;
            writeln!(out, "{time} {key} {difference}")?;
        }
        Ok(())
    }
}

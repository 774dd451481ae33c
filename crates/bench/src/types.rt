//! Values that are converted to columns and back.
use crate::clock::Random;
use crate::input;
use crate::times::Times;
use columnar_bytes::stash::Stash;
use columnar_types::types::ContainerOf;
use std::io::Write;
use std::rt::Clock;

type Record = (u64, String, Option<u64>);

type Row = (u64, Option<u64>);

const N: usize = 1_000_000;

/// A value whose fields are all read.
pub trait Looked {
    fn looked(&self) -> u64;
}

impl Looked for Row {
    fn looked(&self) -> u64 {
        self.0.wrapping_add(self.1.unwrap_or(0))
    }
}

impl Looked for Record {
    fn looked(&self) -> u64 {
        self.0.wrapping_add(self.1.len() as u64)
    }
}

pub fn measure<R: Clock, O: Write>(times: &mut Times<'_, R, O>) -> Option<()> {
    let mut random = Random::new(29);
    let rows = input::rows(times.alloc, N, &mut random)?;
    let column = times.columns::<Row>("as_columns_rows", rows.as_slice())?;
    let held = Stash::<ContainerOf<Row>, Vec<u8>>::Typed(column);
    times.owned::<Row, _>("into_owned_rows", &held.borrow())?;
    let records = input::records(times.alloc, N, &mut random)?;
    let column = times.columns::<Record>("as_columns_records", records.as_slice())?;
    let held = Stash::<ContainerOf<Record>, Vec<u8>>::Typed(column);
    times.owned::<Record, _>("into_owned_records", &held.borrow())
}

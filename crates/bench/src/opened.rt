//! Stores of records that are validated, and opened to read one field.
use crate::clock::Random;
use crate::times::Times;
use crate::{input, work};
use columnar_base::tuple::three::parts_of_three;
use columnar_base::view::View;
use columnar_bytes::stash::Stash;
use columnar_strings::string::Strings;
use columnar_sums::option::Options;
use std::io::Write;
use std::rt::Clock;

type Record = (u64, String, Option<u64>);

type Records = (Vec<u64>, Strings, Options<Vec<u64>>);

type Held = Stash<Records, Vec<u8>>;

const N: usize = 1_000_000;

pub fn measure<R: Clock, O: Write>(times: &mut Times<'_, R, O>) -> Option<()> {
    let mut random = Random::new(17);
    let records = input::records(times.alloc, N, &mut random)?;
    let bytes = written(times, records.as_slice())?;
    times.validate::<Records>("validate_records", N, bytes.as_slice())?;
    opened(times, bytes)
}

fn written<R: Clock, O: Write>(times: &mut Times<'_, R, O>, records: &[Record]) -> Option<Vec<u8>> {
    let held = Held::Typed(work::push_refs::<Record, Records>(times.alloc, records).ok()?);
    work::written(times.alloc, &held.borrow(), 32 * N)
}

// Sums the first field: first with validation of the bytes, then without.
fn opened<R: Clock, O: Write>(times: &mut Times<'_, R, O>, bytes: Vec<u8>) -> Option<()> {
    let start = times.start();
    let held = Held::try_from_bytes(times.alloc, bytes).ok()?;
    let (numbers, _texts, _options) = parts_of_three(held.borrow());
    let sum = work::sum(&numbers);
    times.summed("open_sum_field", start, N, sum)?;
    times.sum::<View<'_, u64>>("sum_field_records", &numbers)?;
    Some(())
}

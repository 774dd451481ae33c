//! Stores of results and of variants that are validated.
use crate::clock::Random;
use crate::times::Times;
use crate::{input, work};
use columnar_bytes::stash::Stash;
use columnar_sums::discriminant::Discriminant;
use columnar_sums::result::Results;
use std::io::Write;
use std::rt::Clock;

type Row = Result<u64, u32>;

type Rows = Results<Vec<u64>, Vec<u32>>;

const N: usize = 1_000_000;

pub fn measure<R: Clock, O: Write>(times: &mut Times<'_, R, O>) -> Option<()> {
    let mut random = Random::new(19);
    let rows = input::results(times.alloc, N, &mut random)?;
    results(times, rows.as_slice())?;
    let variants = input::variants(times.alloc, N, &mut random)?;
    discriminants(times, variants.as_slice())
}

fn results<R: Clock, O: Write>(times: &mut Times<'_, R, O>, rows: &[Row]) -> Option<()> {
    let column = work::push_refs::<Row, Rows>(times.alloc, rows).ok()?;
    let stash = Stash::<Rows, Vec<u8>>::Typed(column);
    let bytes = work::written(times.alloc, &stash.borrow(), 16 * N)?;
    times.validate::<Rows>("validate_results", N, bytes.as_slice())?;
    Some(())
}

fn discriminants<R: Clock, O: Write>(times: &mut Times<'_, R, O>, variants: &[u8]) -> Option<()> {
    let column = work::push_variants(times.alloc, variants).ok()?;
    let stash = Stash::<Discriminant, Vec<u8>>::Typed(column);
    let bytes = work::written(times.alloc, &stash.borrow(), 16 * N)?;
    times.validate::<Discriminant>("validate_discriminants", N, bytes.as_slice())?;
    Some(())
}

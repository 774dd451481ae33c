//! Results, and the variants of rows.
use crate::clock::Random;
use crate::times::Times;
use crate::{input, work};
use columnar_base::view::View;
use columnar_bytes::stash::Stash;
use columnar_sums::result::Results;
use std::io::Write;
use std::rt::Clock;

type Row = Result<u64, u32>;

type Rows = Results<Vec<u64>, Vec<u32>>;

type Words<'a> = View<'a, u64>;

type Viewed<'a> = Results<Words<'a>, View<'a, u32>, Words<'a>, Words<'a>, Words<'a>>;

const N: usize = 1_000_000;

pub fn measure<R: Clock, O: Write>(times: &mut Times<'_, R, O>) -> Option<()> {
    let mut random = Random::new(19);
    let rows = input::results(times.alloc, N, &mut random)?;
    results(times, rows.as_slice())?;
    let variants = input::variants(times.alloc, N, &mut random)?;
    discriminants(times, variants.as_slice())
}

fn results<R: Clock, O: Write>(times: &mut Times<'_, R, O>, rows: &[Row]) -> Option<()> {
    let stash = Stash::<Rows, Vec<u8>>::Typed(times.refs::<Row, Rows>("push_results", rows)?);
    let view = stash.borrow();
    times.sum("get_results", &view)?;
    times.copy::<Viewed<'_>, Rows>("copy_results_half", view, 250_000, 750_000)
}

fn discriminants<R: Clock, O: Write>(times: &mut Times<'_, R, O>, variants: &[u8]) -> Option<()> {
    let start = times.start();
    let _column = work::push_variants(times.alloc, variants).ok()?;
    times.end("push_discriminants", start, N)
}

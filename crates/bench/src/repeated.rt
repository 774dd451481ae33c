//! Numbers that repeat: in runs, or within the last few values.
use crate::clock::Random;
use crate::input;
use crate::times::Times;
use columnar_bytes::stash::Stash;
use columnar_lookback::lookbacks::Lookbacks;
use columnar_lookback::repeats::Repeats;
use std::io::Write;
use std::rt::Clock;

type Runs = Repeats<Vec<u64>>;

type Recent = Lookbacks<Vec<u64>, 255>;

const N: usize = 1_000_000;

pub fn measure<R: Clock, O: Write>(times: &mut Times<'_, R, O>) -> Option<()> {
    let mut random = Random::new(23);
    let words = input::runs(times.alloc, N, &mut random)?;
    runs(times, words.as_slice())?;
    let few = input::words_below(times.alloc, N, 40, &mut random)?;
    let new = input::words(times.alloc, N / 10, &mut random)?;
    recent(times, few.as_slice(), new.as_slice())
}

fn runs<R: Clock, O: Write>(times: &mut Times<'_, R, O>, words: &[u64]) -> Option<()> {
    let column = times.refs::<u64, Runs>("push_repeats", words)?;
    let stash = Stash::<Runs, Vec<u8>>::Typed(column);
    times.sum("get_repeats", &stash.borrow())?;
    Some(())
}

fn recent<R: Clock, O: Write>(times: &mut Times<'_, R, O>, few: &[u64], new: &[u64]) -> Option<()> {
    let column = times.refs::<u64, Recent>("push_lookbacks_few", few)?;
    let stash = Stash::<Recent, Vec<u8>>::Typed(column);
    times.sum("get_lookbacks", &stash.borrow())?;
    let _column = times.refs::<u64, Recent>("push_lookbacks_new", new)?;
    Some(())
}

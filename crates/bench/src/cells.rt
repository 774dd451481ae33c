//! Writes in place: of single numbers, and of one field of rows of three.
use crate::clock::{Random, line};
use crate::times::Times;
use crate::{input, work};
use std::io::Write;
use std::rt::Clock;

type Row = (u64, u64, u64);

type Rows = (Vec<u64>, Vec<u64>, Vec<u64>);

const N: usize = 1_000_000;

pub fn measure<R: Clock, O: Write>(times: &mut Times<'_, R, O>) -> Option<()> {
    let mut random = Random::new(17);
    let places = input::places(times.alloc, N, 1_000_000, &mut random)?;
    let words = input::words(times.alloc, N, &mut random)?;
    numbers(times, words.as_slice(), places.as_slice())?;
    rows(times, words.as_slice(), places.as_slice())
}

fn numbers<R: Clock, O: Write>(
    times: &mut Times<'_, R, O>,
    words: &[u64],
    places: &[usize],
) -> Option<()> {
    let mut column = work::push_values::<u64, Vec<u64>>(times.alloc, words).ok()?;
    let start = times.start();
    work::add_each(&mut column, places);
    times.end("add_u64_cells", start, N)?;
    line(times.out, "#sum", work::sum(&column), 1)
}

fn rows<R: Clock, O: Write>(
    times: &mut Times<'_, R, O>,
    words: &[u64],
    places: &[usize],
) -> Option<()> {
    let mut items = Vec::<Row>::new(times.alloc);
    for word in words {
        items.push((*word, 0, 1)).ok()?;
    }
    let mut column = work::push_values::<Row, Rows>(times.alloc, items.as_slice()).ok()?;
    let start = times.start();
    work::set_second_each(&mut column, places);
    times.end("set_rows3_field", start, N)?;
    line(times.out, "#sum", work::sum(&column.1), 1)
}

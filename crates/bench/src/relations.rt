//! Rows that are sorted, taken, filtered and merged, each next to the same work by hand.
use crate::clock::Random;
use crate::times::Times;
use crate::{input, work};
use columnar_base::view::View;
use columnar_bits::bools::Bools;
use columnar_operators::sort::sort_indices;
use std::alloc::Global;
use std::io::Write;
use std::rt::Clock;

const N: usize = 1_000_000;

pub fn measure<R: Clock, O: Write>(times: &mut Times<'_, R, O>) -> Option<()> {
    let mut random = Random::new(37);
    let words = input::words(times.alloc, N, &mut random)?;
    let places = input::places(times.alloc, N, N as u64, &mut random)?;
    let bits = input::bits(times.alloc, N, &mut random)?;
    taken(times, words.as_slice(), places.as_slice())?;
    filtered(times, words.as_slice(), bits.as_slice())?;
    let others = input::words(times.alloc, N, &mut random)?;
    ordered(times, words, others)
}

// Takes all rows in order, then rows at random.
fn taken<R: Clock, O: Write>(
    times: &mut Times<'_, R, O>,
    words: &[u64],
    places: &[usize],
) -> Option<()> {
    let view = View::from_slice(words);
    let all: Vec<usize> = (0..words.len()).collect(times.alloc).ok()?;
    times.copy::<View<'_, u64>, Vec<u64>>("take_copy_u64", view, 0, words.len())?;
    let start = times.start();
    let column: Vec<u64> = work::taken(times.alloc, view, all.as_slice())?;
    times.end("take_u64", start, column.len())?;
    let start = times.start();
    let column: Vec<u64> = work::taken(times.alloc, view, places)?;
    times.end("take_u64_random", start, column.len())
}

// Filters a third of the rows.
fn filtered<R: Clock, O: Write>(
    times: &mut Times<'_, R, O>,
    words: &[u64],
    bits: &[bool],
) -> Option<()> {
    let view = View::from_slice(words);
    let mask: Bools = work::push_refs::<bool, Bools>(times.alloc, bits).ok()?;
    let start = times.start();
    let column: Vec<u64> = work::filtered(times.alloc, view, &mask)?;
    times.end("filter_u64", start, words.len())?;
    drop(column);
    let start = times.start();
    let column = filtered_by_hand(times.alloc, words, bits)?;
    times.end("filter_u64_by_hand", start, words.len())?;
    drop(column);
    let start = times.start();
    let column = runs_by_hand(times.alloc, words, bits)?;
    times.end("filter_u64_runs_by_hand", start, words.len())?;
    drop(column);
    Some(())
}

fn ordered<R: Clock, O: Write>(
    times: &mut Times<'_, R, O>,
    words: Vec<u64>,
    others: Vec<u64>,
) -> Option<()> {
    let start = times.start();
    let order = sort_indices(times.alloc, &View::from_slice(words.as_slice())).ok()?;
    times.end("sort_indices_u64", start, words.len())?;
    drop(order);
    let start = times.start();
    let order = sorted_by_hand(times.alloc, words.as_slice())?;
    times.end("sort_rows_by_hand", start, words.len())?;
    drop(order);
    let mut one = words;
    let mut other = others;
    let start = times.start();
    one.sort().ok()?;
    times.end("sort_u64_by_hand", start, one.len())?;
    other.sort().ok()?;
    let start = times.start();
    let column: Vec<u64> = work::merged(
        times.alloc,
        View::from_slice(one.as_slice()),
        View::from_slice(other.as_slice()),
    )?;
    times.end("merge_u64", start, column.len())?;
    drop(column);
    let start = times.start();
    let merged = merged_by_hand(times.alloc, one.as_slice(), other.as_slice())?;
    times.end("merge_u64_by_hand", start, merged.len())
}

#[inline(never)]
fn filtered_by_hand(alloc: Global, words: &[u64], bits: &[bool]) -> Option<Vec<u64>> {
    let mut kept = Vec::new(alloc);
    for (word, bit) in words.iter().zip(bits.iter()) {
        if *bit {
            kept.push(*word).ok()?;
        }
    }
    Some(kept)
}

// Copies each run of words whose bits are set.
#[inline(never)]
fn runs_by_hand(alloc: Global, words: &[u64], bits: &[bool]) -> Option<Vec<u64>> {
    let mut kept = Vec::new(alloc);
    let mut start = 0;
    for (place, bit) in bits.iter().enumerate() {
        if !*bit {
            if start < place {
                kept.extend_from_slice(words.get(start..place)?).ok()?;
            }
            start = place.wrapping_add(1);
        }
    }
    kept.extend_from_slice(words.get(start..)?).ok()?;
    Some(kept)
}

// Sorts pairs of a word and its number, and keeps the numbers.
#[inline(never)]
fn sorted_by_hand(alloc: Global, words: &[u64]) -> Option<Vec<usize>> {
    let mut rows: Vec<(u64, usize)> = Vec::new(alloc);
    for (number, word) in words.iter().enumerate() {
        rows.push((*word, number)).ok()?;
    }
    rows.sort_by(|one, other| one.0.cmp(&other.0)).ok()?;
    let mut numbers = Vec::new(alloc);
    for row in &rows {
        numbers.push(row.1).ok()?;
    }
    Some(numbers)
}

#[inline(never)]
fn merged_by_hand(alloc: Global, one: &[u64], other: &[u64]) -> Option<Vec<u64>> {
    let mut merged = Vec::new(alloc);
    let mut i = 0;
    let mut j = 0;
    for _turn in 0..one.len().saturating_add(other.len()) {
        if i < one.len() && (j >= other.len() || one[i] <= other[j]) {
            merged.push(one[i]).ok()?;
            i += 1;
        } else if j < other.len() {
            merged.push(other[j]).ok()?;
            j += 1;
        }
    }
    Some(merged)
}

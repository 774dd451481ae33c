//! Columns of numbers.
use crate::clock::Random;
use crate::times::Times;
use crate::{input, work};
use columnar_base::traits::PushRef;
use columnar_base::view::View;
use columnar_bytes::indexed::validate;
use columnar_bytes::stash::Stash;
use columnar_core::container::Storage;
use std::alloc::Global;
use std::io::Write;
use std::rt::Clock;

type Numbers = Stash<Vec<u64>, Vec<u8>>;

const N: usize = 1_000_000;

pub fn measure<R: Clock, O: Write>(times: &mut Times<'_, R, O>) -> Option<()> {
    let mut random = Random::new(11);
    let words = input::words(times.alloc, N, &mut random)?;
    pushed(times, words.as_slice())?;
    let bytes = typed(times, words.as_slice())?;
    let start = times.start();
    let sum = validated(bytes.as_slice());
    times.summed("validate_u64_call", start, 1000, sum)?;
    opened(times, bytes)
}

fn pushed<R: Clock, O: Write>(times: &mut Times<'_, R, O>, words: &[u64]) -> Option<()> {
    let start = times.start();
    let column = work::push_refs::<u64, Vec<u64>>(times.alloc, words).ok()?;
    times.end("push_u64", start, N)?;
    drop(column);
    Some(())
}

// Pushes a slice into the memory that the copy before it freed, as the workloads of the Rust crate do: whether that
// memory is in the cache decides the time.
fn taken<R: Clock, O: Write>(times: &mut Times<'_, R, O>, words: &[u64]) -> Option<()> {
    let start = times.start();
    let column = sliced(times.alloc, words)?;
    times.end("push_slice_u64", start, N)?;
    drop(column);
    Some(())
}

fn typed<R: Clock, O: Write>(times: &mut Times<'_, R, O>, words: &[u64]) -> Option<Vec<u8>> {
    let column = work::push_refs::<u64, Vec<u64>>(times.alloc, words).ok()?;
    let stash = Numbers::Typed(column);
    let view = stash.borrow();
    times.copy::<View<'_, u64>, Vec<u64>>("copy_u64", view, 0, N)?;
    taken(times, words)?;
    times.sum("sum_u64_typed", &view)?;
    times.encode("encode_u64", N, &view)?;
    times.write("write_u64", N, &view, 8 * N + 64)
}

fn opened<R: Clock, O: Write>(times: &mut Times<'_, R, O>, bytes: Vec<u8>) -> Option<()> {
    let stash = Numbers::try_from_bytes(times.alloc, bytes).ok()?;
    let view = stash.borrow();
    times.sum("sum_u64_bytes", &view)?;
    times.copy::<View<'_, u64>, Vec<u64>>("copy_u64_bytes", view, 0, N)?;
    times.load("to_typed_u64", N, &stash)
}

#[inline(never)]
fn sliced(alloc: Global, words: &[u64]) -> Option<Vec<u64>> {
    let mut column = <Vec<u64> as Storage>::empty(alloc);
    column.push_slice(words).ok()?;
    Some(column)
}

#[inline(never)]
fn validated(bytes: &[u8]) -> u64 {
    let mut sum = 0u64;
    for _turn in 0..1000 {
        sum = sum.wrapping_add(validate::<Vec<u64>>(bytes).is_ok() as u64);
    }
    sum
}

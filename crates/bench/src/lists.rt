//! Lists.
use crate::clock::Random;
use crate::times::Times;
use crate::{input, work};
use columnar_base::view::View;
use columnar_bytes::stash::Stash;
use columnar_lists::vector::Vecs;
use std::io::Write;
use std::rt::Clock;

type Lists = Vecs<Vec<u64>, Vec<u64>>;

type Words<'a> = View<'a, u64>;

type Viewed<'a> = Vecs<Words<'a>, Words<'a>>;

type Held = Stash<Lists, Vec<u8>>;

/// The number of lists.
pub const N: usize = 1_000_000;

/// The number of items of all lists.
pub const ITEMS: usize = 3_500_000;

pub fn measure<R: Clock, O: Write>(times: &mut Times<'_, R, O>) -> Option<()> {
    let mut random = Random::new(13);
    let words = input::words(times.alloc, N, &mut random)?;
    let lists = input::lists(times.alloc, N, 999_992, &mut random)?;
    let bytes = typed(times, words.as_slice(), lists.as_slice())?;
    times.validate::<Lists>("validate_lists", N, bytes.as_slice())?;
    opened(times, bytes)
}

fn typed<R: Clock, O: Write>(
    times: &mut Times<'_, R, O>,
    words: &[u64],
    lists: &[(usize, usize)],
) -> Option<Vec<u8>> {
    let items = View::from_slice(words);
    let start = times.start();
    let column = work::push_lists::<Words<'_>, Lists>(times.alloc, items, lists).ok()?;
    times.end("push_lists", start, N)?;
    let held = Held::Typed(column);
    let view = held.borrow();
    let start = times.start();
    let sum = work::sum_lists(&view);
    times.summed("get_lists_typed", start, ITEMS, sum)?;
    let start = times.start();
    let sum = work::walk_lists(view.index_iter());
    times.summed("walk_lists", start, ITEMS, sum)?;
    times.copy::<Viewed<'_>, Lists>("copy_lists_half", view, 250_000, 750_000)?;
    work::written(times.alloc, &view, 40 * N)
}

fn opened<R: Clock, O: Write>(times: &mut Times<'_, R, O>, bytes: Vec<u8>) -> Option<()> {
    let held = Held::try_from_bytes(times.alloc, bytes).ok()?;
    let view = held.borrow();
    let start = times.start();
    let sum = work::sum_lists(&view);
    times.summed("get_lists_bytes", start, ITEMS, sum)?;
    Some(())
}

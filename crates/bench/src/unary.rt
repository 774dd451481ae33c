//! Lists with bounds in unary, as in the column of `Vec<T>`. The module `lists` has the same with bounds as numbers.
use crate::clock::Random;
use crate::lists::{ITEMS, N};
use crate::times::Times;
use crate::{input, work};
use columnar_base::view::View;
use columnar_bytes::stash::Stash;
use columnar_lists::vector::Vecs;
use columnar_sums::unaries::Unaries;
use std::io::Write;
use std::rt::Clock;

type Lists = Vecs<Vec<u64>, Unaries<Vec<u64>, Vec<u64>, [u64; 2]>>;

type EarlierLists = Vecs<Vec<u64>, Vec<u64>>;

type Words<'a> = View<'a, u64>;

type Viewed<'a> = Vecs<Words<'a>, Unaries<Words<'a>, Words<'a>, Words<'a>>>;

type Held = Stash<Lists, Vec<u8>>;

pub fn measure<R: Clock, O: Write>(times: &mut Times<'_, R, O>) -> Option<()> {
    let mut random = Random::new(13);
    let words = input::words(times.alloc, N, &mut random)?;
    let lists = input::lists(times.alloc, N, 999_992, &mut random)?;
    typed(times, words.as_slice(), lists.as_slice())?;
    earlier(times, words.as_slice(), lists.as_slice())
}

fn typed<R: Clock, O: Write>(
    times: &mut Times<'_, R, O>,
    words: &[u64],
    lists: &[(usize, usize)],
) -> Option<()> {
    let items = View::from_slice(words);
    let start = times.start();
    let column = work::push_lists::<Words<'_>, Lists>(times.alloc, items, lists).ok()?;
    times.end("push_lists_unary", start, N)?;
    let held = Held::Typed(column);
    let view = held.borrow();
    let start = times.start();
    let sum = work::walk_lists(view.index_iter());
    times.summed("walk_lists_unary", start, ITEMS, sum)?;
    times.copy::<Viewed<'_>, Lists>("copy_lists_half_unary", view, 250_000, 750_000)?;
    let bytes = work::written(times.alloc, &view, 40 * N)?;
    times.validate::<Lists>("validate_lists_unary", N, bytes.as_slice())?;
    Some(())
}

// Loads a store with bounds as numbers, and opens it as a column with bounds in unary.
fn earlier<R: Clock, O: Write>(
    times: &mut Times<'_, R, O>,
    words: &[u64],
    lists: &[(usize, usize)],
) -> Option<()> {
    let items = View::from_slice(words);
    let column = work::push_lists::<Words<'_>, EarlierLists>(times.alloc, items, lists).ok()?;
    let held = Stash::<EarlierLists, Vec<u8>>::Typed(column);
    let bytes = work::written(times.alloc, &held.borrow(), 40 * N)?;
    let kept = Stash::<EarlierLists, Vec<u8>>::try_from_bytes(times.alloc, bytes).ok()?;
    times.load("to_typed_lists", N, &kept)?;
    let bytes = work::written(times.alloc, &kept.borrow(), 40 * N)?;
    let start = times.start();
    let _opened = Held::try_from_either(times.alloc, bytes).ok()?;
    times.end("open_lists_earlier", start, N)
}

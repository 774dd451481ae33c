//! Values of one of three variants.
use crate::clock::Random;
use crate::input;
use crate::input::Kind;
use crate::times::Times;
use columnar_base::view::View;
use columnar_bytes::stash::Stash;
use columnar_variants::variants::Variants;
use std::io::Write;
use std::rt::Clock;

type Rows = Variants<(Vec<u64>, (Vec<u32>, (Vec<u32>,)))>;

type Columns<'a> = (View<'a, u64>, (View<'a, u32>, (View<'a, u32>,)));

type Viewed<'a> = Variants<Columns<'a>, &'a [u8], View<'a, u64>>;

const N: usize = 1_000_000;

pub fn measure<R: Clock, O: Write>(times: &mut Times<'_, R, O>) -> Option<()> {
    let mut random = Random::new(23);
    let rows = input::kinds(times.alloc, N, &mut random)?;
    let column = times.refs::<Kind, Rows>("push_kinds", rows.as_slice())?;
    let stash = Stash::<Rows, Vec<u8>>::Typed(column);
    let view = stash.borrow();
    times.sum("get_kinds", &view)?;
    times.copy::<Viewed<'_>, Rows>("copy_kinds_half", view, 250_000, 750_000)
}

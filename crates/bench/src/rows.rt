//! Rows of a number and an optional number.
use crate::clock::Random;
use crate::input;
use crate::times::Times;
use columnar_base::view::View;
use columnar_bytes::stash::Stash;
use columnar_sums::option::Options;
use std::io::Write;
use std::rt::Clock;

type Row = (u64, Option<u64>);

type Rows = (Vec<u64>, Options<Vec<u64>>);

type Words<'a> = View<'a, u64>;

type Viewed<'a> = (
    Words<'a>,
    Options<Words<'a>, Words<'a>, Words<'a>, Words<'a>>,
);

type Held = Stash<Rows, Vec<u8>>;

const N: usize = 1_000_000;

// The workloads are in the order of those of the Rust crate, because the order decides what is in the cache and where
// the heap has room.
pub fn measure<R: Clock, O: Write>(times: &mut Times<'_, R, O>) -> Option<()> {
    let mut random = Random::new(7);
    let rows = input::rows(times.alloc, N, &mut random)?;
    let typed = Held::Typed(times.refs::<Row, Rows>("push_rows_ref", rows.as_slice())?);
    drop(times.values::<Row, Rows>("push_rows_value", rows.as_slice())?);
    let typed_view = typed.borrow();
    let names = ["push_rows_view", "encode_rows", "write_rows"];
    let bytes = times.stored::<Viewed<'_>, Rows>(names, typed_view, 16 * N)?;
    times.validate::<Rows>("validate_rows", N, bytes.as_slice())?;
    let held = Held::try_from_bytes(times.alloc, bytes).ok()?;
    let view = held.borrow();
    times.sum("get_rows_bytes", &view)?;
    let names = ["get_rows_typed", "copy_rows_half", "copy_rows_half_odd"];
    times.halves::<Viewed<'_>, Rows>(names, typed_view)?;
    times.copy::<Viewed<'_>, Rows>("copy_rows_half_bytes", view, 250_000, 750_000)?;
    times.load("to_typed_rows", N, &held)
}

//! Strings, and records of a number, a string and an optional number.
use crate::clock::Random;
use crate::times::Times;
use crate::{input, work};
use columnar_base::view::View;
use columnar_bytes::stash::Stash;
use columnar_strings::string::Strings;
use columnar_sums::option::Options;
use std::io::Write;
use std::rt::Clock;

type Record = (u64, String, Option<u64>);

type Records = (Vec<u64>, Strings, Options<Vec<u64>>);

type Words<'a> = View<'a, u64>;

type Texts<'a> = Strings<Words<'a>, &'a [u8]>;

type Viewed<'a> = (
    Words<'a>,
    Texts<'a>,
    Options<Words<'a>, Words<'a>, Words<'a>, Words<'a>>,
);

type Held = Stash<Records, Vec<u8>>;

const N: usize = 1_000_000;

pub fn measure<R: Clock, O: Write>(times: &mut Times<'_, R, O>) -> Option<()> {
    let mut random = Random::new(17);
    let records = input::records(times.alloc, N, &mut random)?;
    let texts = input::texts(times.alloc, records.as_slice())?;
    strings(times, texts.as_slice())?;
    stored(times, records.as_slice())
}

fn strings<R: Clock, O: Write>(times: &mut Times<'_, R, O>, texts: &[&str]) -> Option<()> {
    let column = times.values::<&str, Strings>("push_strings", texts)?;
    let stash = Stash::<Strings, Vec<u8>>::Typed(column);
    let view = stash.borrow();
    times.sum("get_strings", &view)?;
    times.copy::<Texts<'_>, Strings>("copy_strings_half", view, 250_000, 750_000)?;
    let bytes = work::written(times.alloc, &view, 32 * N)?;
    times.validate::<Strings>("validate_strings", N, bytes.as_slice())?;
    Some(())
}

fn stored<R: Clock, O: Write>(times: &mut Times<'_, R, O>, records: &[Record]) -> Option<()> {
    let typed = Held::Typed(times.refs::<Record, Records>("push_records_ref", records)?);
    let typed_view = typed.borrow();
    let names = ["push_records_view", "encode_records", "write_records"];
    let bytes = times.stored::<Viewed<'_>, Records>(names, typed_view, 32 * N)?;
    let held = Held::try_from_bytes(times.alloc, bytes).ok()?;
    let view = held.borrow();
    times.sum("get_records_bytes", &view)?;
    times.sum("get_records_typed", &typed_view)?;
    times.copy::<Viewed<'_>, Records>("copy_records_half", typed_view, 250_000, 750_000)?;
    times.load("to_typed_records", N, &held)
}

// Types as columns with one failed allocation, or none: each call succeeds, or returns `Memory`.
use crate::calls::{Outcome, come_back_or_lack_memory, names_or_lack_memory};
use crate::names::Event;
use columnar::adts::tree::Trees;
use columnar::boxed::Boxed;
use columnar::fault::OwnError;
use columnar::primitive::offsets::{Fixeds, Strides};
use columnar::primitive::{Bools, Chars, Durations, Empties};
use columnar::sums::Unaries;
use columnar::sums::variants::Variants;
use columnar::{
    Columnar, Discriminant, Lookbacks, Options, OwnRows, RankSelect, Repeats, Results, Strings,
    Vecs,
};
use std::alloc::{AllocError, Global};
use std::test::Fail;
use test_support::holds;

type Record = (u64, String, Option<u32>);

fn two_records(alloc: Global) -> Result<Vec<Record>, AllocError> {
    let mut records = Vec::with_capacity(alloc, 2)?;
    let ann = String::from_str(alloc, "ann")?;
    let bob = String::from_str(alloc, "bob")?;
    if records.push((12, ann, Some(7))).is_err() || records.push((15, bob, None)).is_err() {
        return Err(AllocError);
    }
    Ok(records)
}

#[test]
fn records_come_back_or_lack_memory(rt: HostRuntime) {
    let alloc = rt.alloc();
    // without memory for the records there is nothing to test
    if let Ok(records) = two_records(alloc) {
        let outcome = come_back_or_lack_memory::<Record>(alloc, &mut None, records.as_slice());
        holds!(rt; outcome != Outcome::Other);
    }
}

#[test]
fn a_text_is_copied_or_stays(rt: HostRuntime) {
    let alloc = rt.alloc();
    if let Ok(mut target) = String::from_str(alloc, "old") {
        match target.copy_from(alloc, "a longer one".as_bytes()) {
            Ok(()) => holds!(rt; target.as_str() == "a longer one"),
            Err(error) => {
                holds!(rt; error == OwnError::Memory);
                holds!(rt; target.as_str() == "old");
            }
        }
    }
}

type Units = Empties;

// Columns of a few slices, as a tuple of ten.
type Plain = (
    Vec<u64>,
    Bools,
    Chars,
    Durations,
    Units,
    Strides,
    Fixeds<3>,
    Discriminant,
    RankSelect,
    Unaries,
);

#[test]
fn slices_of_plain_columns_are_named_or_memory_is_lacking(rt: HostRuntime) {
    let names =
        "0 1.values 1.tail 2.values 3.seconds 3.nanoseconds 4.count 5.head 5.bounds 6.count 7.variant \
        7.offset 8.counts 8.values.values 8.values.tail 9.bits.counts 9.bits.values.values \
        9.bits.values.tail ";
    let outcome = names_or_lack_memory::<Plain>(rt.alloc(), names);
    holds!(rt; outcome != Outcome::Other);
}

// Columns over other columns.
type Nested = (
    Vecs<Vec<u64>>,
    Strings,
    Options<Vec<u64>>,
    Results<Vec<u64>, Vec<u32>>,
    Repeats<Vec<u64>>,
    Lookbacks<Vec<u64>, 8>,
    Boxed<Vec<u64>>,
    OwnRows<Variants<(Vec<u64>, (Vec<u32>,))>, Event>,
);

#[test]
fn slices_of_nested_columns_are_named_or_memory_is_lacking(rt: HostRuntime) {
    let names = "0.bounds 0.values 1.bounds 1.values 2.indexes.counts 2.indexes.values.values \
        2.indexes.values.tail 2.somes 3.indexes.counts 3.indexes.values.values 3.indexes.values.tail \
        3.oks 3.errs 4.inner.indexes.counts 4.inner.indexes.values.values 4.inner.indexes.values.tail \
        4.inner.somes 5.inner.indexes.counts 5.inner.indexes.values.values 5.inner.indexes.values.tail \
        5.inner.oks 5.inner.errs 6 7.user 7.tags 7.indexes.variant 7.indexes.offset ";
    let outcome = names_or_lack_memory::<Nested>(rt.alloc(), names);
    holds!(rt; outcome != Outcome::Other);
    let outcome = names_or_lack_memory::<Trees<Vec<u64>>>(rt.alloc(), "groups bounds values ");
    holds!(rt; outcome != Outcome::Other);
}

// Tuples of one to nine fields.
type Widths = (
    (Units,),
    (Units, Units),
    (Units, Units, Units),
    (Units, Units, Units, Units),
    (Units, Units, Units, Units, Units),
    (Units, Units, Units, Units, Units, Units),
    (Units, Units, Units, Units, Units, Units, Units),
    (Units, Units, Units, Units, Units, Units, Units, Units),
    (
        Units,
        Units,
        Units,
        Units,
        Units,
        Units,
        Units,
        Units,
        Units,
    ),
);

#[test]
fn slices_of_tuples_are_named_or_memory_is_lacking(rt: HostRuntime) {
    let names =
        "0.0.count 1.0.count 1.1.count 2.0.count 2.1.count 2.2.count 3.0.count 3.1.count 3.2.count \
        3.3.count 4.0.count 4.1.count 4.2.count 4.3.count 4.4.count 5.0.count 5.1.count 5.2.count \
        5.3.count 5.4.count 5.5.count 6.0.count 6.1.count 6.2.count 6.3.count 6.4.count 6.5.count \
        6.6.count 7.0.count 7.1.count 7.2.count 7.3.count 7.4.count 7.5.count 7.6.count 7.7.count \
        8.0.count 8.1.count 8.2.count 8.3.count 8.4.count 8.5.count 8.6.count 8.7.count 8.8.count ";
    let outcome = names_or_lack_memory::<Widths>(rt.alloc(), names);
    holds!(rt; outcome != Outcome::Other);
}

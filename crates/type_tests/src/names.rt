// The names of slices: for each type the fields that lead to them.
use crate::calls::has_names;
use columnar::adts::tree::Trees;
use columnar::boxed::Boxed;
use columnar::names::PartNames;
use columnar::primitive::offsets::{Fixeds, Strides};
use columnar::primitive::{Bools, Chars, Durations, Empties};
use columnar::sums::variants::Variants;
use columnar::{ContainerOf, Discriminant, Lookbacks, OwnRows, Repeats, Strings, Vecs};
use std::test::Fail;
use test_support::holds;

#[test]
fn columns_of_numbers_have_names(rt: HostRuntime) -> Result<(), Fail> {
    let alloc = rt.alloc();
    holds!(rt; has_names::<Vec<u64>>(alloc, " ") && has_names::<&[u8]>(alloc, " "));
    holds!(rt; has_names::<Chars>(alloc, "values ") && has_names::<Durations>(alloc, "seconds nanoseconds "));
    holds!(rt; has_names::<Bools>(alloc, "values tail ") && has_names::<Empties>(alloc, "count "));
    holds!(rt; has_names::<Strides>(alloc, "head bounds ") && has_names::<Fixeds<3>>(alloc, "count "));
    holds!(rt; has_names::<Discriminant>(alloc, "variant offset "));
    Ok(())
}

#[test]
fn columns_over_columns_have_names(rt: HostRuntime) -> Result<(), Fail> {
    let alloc = rt.alloc();
    let repeats =
        "inner.indexes.counts inner.indexes.values.values inner.indexes.values.tail inner.somes ";
    let lookbacks =
        "inner.indexes.counts inner.indexes.values.values inner.indexes.values.tail inner.oks.bounds inner.oks.values inner.errs ";
    holds!(rt; has_names::<Repeats<Vec<u64>>>(alloc, repeats));
    holds!(rt; has_names::<Lookbacks<Strings, 8>>(alloc, lookbacks));
    holds!(rt; has_names::<Trees<Boxed<Vec<u64>>>>(alloc, "groups bounds values "));
    Ok(())
}

type Nest = Vec<Result<Option<(u64, String)>, Vec<()>>>;

#[test]
fn the_column_of_a_nest_has_names(rt: HostRuntime) -> Result<(), Fail> {
    let names = "bounds.bits.counts bounds.bits.values.values bounds.bits.values.tail \
        values.indexes.counts values.indexes.values.values values.indexes.values.tail \
        values.oks.indexes.counts values.oks.indexes.values.values values.oks.indexes.values.tail \
        values.oks.somes.0 values.oks.somes.1.bounds values.oks.somes.1.values \
        values.errs.bounds.bits.counts values.errs.bounds.bits.values.values values.errs.bounds.bits.values.tail values.errs.values.count ";
    holds!(rt; has_names::<ContainerOf<Nest>>(rt.alloc(), names));
    Ok(())
}

// A user and tags, or no event.
pub struct Event;

impl PartNames for Event {
    ghost use Rattle.std.specs.Prelude.{[], ◌∷◌, codes};
    ghost use Rattle.columnar.specs.Names.{name_at};

    ghost name_of = { name_at (codes "user" ∷ codes "tags" ∷ []) };

    fn part_name(index: usize) -> &'static str {
        match index {
            0 => "user",
            1 => "tags",
            _ => "",
        }
    }
}

#[test]
fn fields_and_variants_have_names_of_their_own(rt: HostRuntime) -> Result<(), Fail> {
    let alloc = rt.alloc();
    holds!(rt; has_names::<OwnRows<(Vec<u64>, Vecs<Vec<u32>>), Event>>(alloc, "user tags.bounds tags.values "));
    holds!(rt; has_names::<OwnRows<Variants<(Vec<u64>, (Vecs<Vec<u32>>,))>, Event>>(alloc, "user tags.bounds tags.values indexes.variant indexes.offset "));
    holds!(rt; has_names::<Variants<(Vec<u64>, (Vec<u32>,))>>(alloc, "columns.0 columns.1.0 indexes.variant indexes.offset "));
    Ok(())
}

type Units = Empties;

type Ten = (
    Vec<u8>,
    Bools,
    Units,
    Units,
    Units,
    Units,
    Units,
    Units,
    Units,
    Vecs<Vec<u8>>,
);

#[test]
fn fields_of_tuples_have_numbers(rt: HostRuntime) -> Result<(), Fail> {
    let names =
        "0 1.values 1.tail 2.count 3.count 4.count 5.count 6.count 7.count 8.count 9.bounds 9.values ";
    holds!(rt; has_names::<Ten>(rt.alloc(), names));
    holds!(rt; has_names::<(Vecs<Vec<u64>>,)>(rt.alloc(), "0.bounds 0.values "));
    Ok(())
}

// Columns of two variants: a worked store, and stores that break rules.
ghost use Rattle.columnar_core.specs.Format.{IsSound};

use columnar_core::container::Storage;
use columnar_core::traits::{Column, Push, PushRef};
use columnar_variants::cases::{Last, Nth};
use columnar_variants::variants::Variants;
use std::alloc::Global;
use std::rt::HostRuntime;
use std::test::Fail;
use test_support::columns::{reads, takes, takes_ref};
use test_support::stores::{is_written, refusal};
use test_support::{equal, holds};

pub type Two = Variants<(Vec<u64>, (Vec<u64>,))>;

pub type Row = Nth<u64, Last<u64>>;

// A column of two variants, for the calls of the tests.
#[derive(Drop)]
struct Held {
    column: Two,
    ghost sound: { IsSound ⟦<Two as Column>⟧.format (⟦<Two as Column>⟧.content column) },
}

impl Held {
    fn empty(alloc: Global) -> Held {
        Held {
            column: Two::empty(alloc),
        }
    }

    fn takes(&mut self, row: Row) -> bool {
        takes(&mut self.column, row)
    }

    fn takes_ref(&mut self, row: &Row) -> bool {
        takes_ref(&mut self.column, row)
    }

    fn reads(&self, rows: &[Row]) -> bool {
        reads(&self.column, rows)
    }

    fn is_written(&self, words: &[u64]) -> bool {
        is_written(&self.column, words)
    }
}

#[test]
fn rows_are_written_by_their_variants(rt: HostRuntime) -> Result<(), Fail> {
    let rows = [Nth::This(5), Nth::Next(Last(7)), Nth::This(6)];
    let mut held = Held::empty(rt.alloc());
    holds!(rt; held.takes(rows[0]) && held.takes_ref(&rows[1]) && held.takes(rows[2]));
    holds!(rt; held.reads(&rows));
    holds!(rt; held.is_written(&[40, 56, 64, 67, 96, 5, 6, 7, 256, 0, 0, 1]));
    Ok(())
}

#[test]
fn rules_of_two_variants(rt: HostRuntime) -> Result<(), Fail> {
    let alloc = rt.alloc();
    // The rows are 5 of the first variant, 7 of the second, 6 of the first.
    let words = [40, 56, 64, 67, 96, 5, 6, 7, 256, 0, 0, 1];
    let of_a_third_variant = [40, 56, 64, 67, 96, 5, 6, 7, 131328, 0, 0, 0];
    let numbered_from_one = [40, 56, 64, 67, 96, 5, 6, 7, 256, 0, 0, 2];
    let one_first_too_few = [40, 48, 64, 67, 96, 5, 7, 8, 256, 0, 0, 1];
    let one_second_too_many = [40, 48, 64, 66, 88, 5, 7, 8, 256, 0, 0];
    for (words, fault) in [
        (words.as_slice(), (0, 0)),
        (of_a_third_variant.as_slice(), (17, 0)),
        (numbered_from_one.as_slice(), (17, 2)),
        (one_first_too_few.as_slice(), (10, 0)),
        (one_second_too_many.as_slice(), (10, 0)),
    ] {
        equal!(rt; refusal::<Two>(alloc, words)?, fault);
    }
    Ok(())
}

// If all rows have one variant, two words describe them: one more than the variant, and the number of rows.
#[test]
fn heads_of_two_variants(rt: HostRuntime) -> Result<(), Fail> {
    let alloc = rt.alloc();
    let two_firsts = [40, 56, 56, 56, 72, 5, 6, 1, 2];
    let two_seconds = [40, 40, 56, 56, 72, 5, 6, 2, 2];
    let two_thirds = [40, 40, 56, 56, 72, 5, 6, 3, 2];
    let more_than_there_are = [40, 56, 56, 56, 72, 5, 6, 1, u64::MAX];
    let firsts_as_seconds = [40, 56, 56, 56, 72, 5, 6, 2, 2];
    for (words, fault) in [
        (two_firsts.as_slice(), (0, 0)),
        (two_seconds.as_slice(), (0, 0)),
        (two_thirds.as_slice(), (17, 0)),
        (more_than_there_are.as_slice(), (10, 0)),
        (firsts_as_seconds.as_slice(), (10, 0)),
    ] {
        equal!(rt; refusal::<Two>(alloc, words)?, fault);
    }
    Ok(())
}

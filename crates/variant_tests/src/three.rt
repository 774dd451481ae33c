// Columns of three variants: pushes, copies of ranges and truncations.
ghost use Rattle.columnar_core.specs.Format.{IsSound};

use columnar_core::container::{Borrow, Storage};
use columnar_core::traits::{Clear, Column, Len};
use columnar_variants::cases::{Last, Nth};
use columnar_variants::variants::Variants;
use std::alloc::Global;
use std::rt::HostRuntime;
use std::test::Fail;
use test_support::columns::{copied, cut, reads, takes_ref};
use test_support::holds;

type Three = Variants<(Vec<u64>, (Vec<u16>, (Vec<u64>,)))>;

type Row = Nth<u64, Nth<u16, Last<u64>>>;

// A column of three variants, for the calls of the tests.
#[derive(Drop)]
struct Held {
    column: Three,
    ghost sound: { IsSound ⟦<Three as Column>⟧.format (⟦<Three as Column>⟧.content column) },
}

impl Held {
    // Creates a column of these rows, or of those before the first that fails.
    fn of(alloc: Global, rows: &[Row]) -> Held {
        let mut held = Held {
            column: Three::empty(alloc),
        };
        for i in 0..rows.len() {
            let _taken = held.takes(&rows[i]);
        }
        held
    }

    fn takes(&mut self, row: &Row) -> bool {
        takes_ref(&mut self.column, row)
    }

    fn copies(&mut self, source: &Held, start: usize, end: usize) -> bool {
        copied(&mut self.column, source.column.borrow(), start, end)
    }

    fn cut(&mut self, n: usize) {
        cut(&mut self.column, n);
    }

    fn clear(&mut self) {
        self.column.clear();
    }

    fn reads(&self, rows: &[Row]) -> bool {
        reads(&self.column, rows)
    }

    // Counts the values of the second variant.
    fn seconds(&self) -> usize {
        self.column.columns.1.0.len()
    }
}

static ROWS: [Row; 4] = [
    Nth::This(5),
    Nth::Next(Nth::Next(Last(7))),
    Nth::Next(Nth::This(6)),
    Nth::This(8),
];

#[test]
fn ranges_are_copied_and_cut(rt: HostRuntime) -> Result<(), Fail> {
    let alloc = rt.alloc();
    let source = Held::of(alloc, &ROWS);
    let mut held = Held::of(alloc, &ROWS[..2]);
    holds!(rt; held.copies(&source, 1, 4));
    holds!(rt; held.reads(&[ROWS[0], ROWS[1], ROWS[1], ROWS[2], ROWS[3]]));
    held.cut(3);
    holds!(rt; held.reads(&[ROWS[0], ROWS[1], ROWS[1]]) && held.seconds() == 0);
    held.clear();
    holds!(rt; held.reads(&[]) && held.copies(&source, 0, 4) && held.reads(&ROWS));
    Ok(())
}

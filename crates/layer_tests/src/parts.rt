// Parts of sound columns, two levels deep. No function here has a proof file.
ghost use Rattle.columnar_base.specs.Format.{IsSound};
ghost use Rattle.columnar_sums.specs.Results.{results_content, results_format};

use columnar_core::boxed::Boxed;
use columnar_core::container::{Borrow, Storage};
use columnar_core::traits::{Column, Index, Len};
use columnar_core::tuple::parts;
use columnar_core::words::Words;
use columnar_lists::vector::Vecs;
use columnar_sums::option::Options;
use columnar_sums::result::Results;
use std::alloc::Global;
use std::test::Fail;
use test_support::columns::takes;
use test_support::{equal, holds};

// Lists of two fields, some of them absent.
type Records = Options<Vecs<(Vec<u64>, Vec<u32>)>>;

#[derive(Drop)]
struct Held {
    records: Records,
    ghost sound: { IsSound ⟦<Records as Column>⟧.format (⟦<Records as Column>⟧.content records) },
}

impl Held {
    fn empty(alloc: Global) -> Held {
        Held {
            records: Records::empty(alloc),
        }
    }

    fn takes(&mut self, record: Option<&[(u64, u32)]>) -> bool {
        takes(&mut self.records, record)
    }

    // Returns the sum of the second fields in all lists that are present, modulo 2^64.
    fn sum(&self) -> u64 {
        let lists = self.records.borrow().into_somes();
        let (_, counts) = parts(lists.into_values());
        sum_of(counts)
    }
}

// Returns the sum of a column, modulo 2^64.
fn sum_of<C: Index<Ref = u32> + Len + Drop>(column: C) -> u64
    requires { IsSound C.format (C.content column) }
{
    let mut sum = 0u64;
    for row in column.into_index_iter() {
        sum = sum.wrapping_add(u64::from(row));
    }
    sum
}

#[test]
fn fields_in_lists_that_are_present_are_summed(rt: HostRuntime) -> Result<(), Fail> {
    let mut held = Held::empty(rt.alloc());
    holds!(rt; held.takes(Some([(1u64, 20u32), (2, 30)].as_slice())));
    holds!(rt; held.takes(None));
    holds!(rt; held.takes(Some([(3u64, 4u32)].as_slice())));
    equal!(rt; held.sum(), 54);
    Ok(())
}

// Returns the values and the errors of results of boxed rows.
fn unboxed<SC: Column, TC: Column, CC: Words + Drop, VC: Words + Drop, WC: Words + Drop>(
    results: Results<Boxed<SC>, TC, CC, VC, WC>,
) -> (SC, TC)
    requires { IsSound (results_format SC.format TC.format) (results_content ⟦<Boxed<SC> as Column>⟧.content TC.content CC.bytes VC.bytes WC.bytes results) }
    ensures oks { IsSound SC.format (SC.content result.0) }
    ensures errs { IsSound TC.format (TC.content result.1) }
{
    let (oks, errs) = results.into_oks_and_errs();
    (oks.into_inner(), errs)
}

#[test]
fn values_and_errors_are_apart(rt: HostRuntime) -> Result<(), Fail> {
    let mut results = Results::<Boxed<Vec<u64>>, Vec<u32>>::empty(rt.alloc());
    holds!(rt; takes(&mut results, Ok::<Boxed<u64>, u32>(Boxed(7))));
    holds!(rt; takes(&mut results, Err::<Boxed<u64>, u32>(404)));
    holds!(rt; takes(&mut results, Ok::<Boxed<u64>, u32>(Boxed(8))));
    let (oks, errs) = unboxed(results);
    equal!(rt; oks.as_slice(), [7, 8].as_slice());
    equal!(rt; errs.as_slice(), [404].as_slice());
    Ok(())
}

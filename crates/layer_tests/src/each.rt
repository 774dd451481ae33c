// The items of iterators, and displayed texts, as fields of rows: no vector and no string is made for them.
ghost use Rattle.std.specs.Int.{w64};
ghost use Rattle.columnar_base.specs.Numbers.{unsigned_row};
ghost use Rattle.columnar_base.specs.Row.{list};
ghost use Rattle.columnar_lists.specs.Each.{range_rows};

use columnar_core::container::Storage;
use columnar_core::traits::Push;
use columnar_lists::each::{Each, ItemAt, Items};
use columnar_lists::vector::Vecs;
use columnar_strings::string::{Shown, Strings};
use columnar_sums::option::Options;
use std::ops::Range;
use std::test::Fail;
use test_support::columns::{takes, takes_ref};
use test_support::{equal, holds};

type Lists = Vecs<Vec<u64>, Vec<u64>>;

type Texts = Strings<Vec<u64>, Vec<u8>>;

// Makes the list of the numbers below an index.
#[derive(Clone, Copy)]
struct Below;

impl ItemAt for Below {
    type Made = Each<Range<u64>>;

    ghost makes = { λ r i. list (range_rows (unsigned_row w64) (record { start = 0; end = i })) };

    fn item_at(&self, index: usize) -> Each<Range<u64>> {
        Each(0..index as u64)
    }
}

#[test]
fn lists_are_pushed_from_ranges(rt: HostRuntime) -> Result<(), Fail> {
    let mut lists = Lists::empty(rt.alloc());
    holds!(rt; takes(&mut lists, Each(5..8u64)));
    holds!(rt; takes(&mut lists, Each(8..5u64)));
    holds!(rt; takes(&mut lists, Each([1u64, 2].iter())));
    equal!(rt; lists.bounds.as_slice(), [3, 3, 5].as_slice());
    equal!(rt; lists.values.as_slice(), [5, 6, 7, 1, 2].as_slice());
    Ok(())
}

#[test]
fn lists_of_lists_are_pushed_from_a_rule(rt: HostRuntime) -> Result<(), Fail> {
    let mut nested = Vecs::<Lists, Vec<u64>>::empty(rt.alloc());
    holds!(rt; takes(&mut nested, Each(Items::new(4, Below))));
    holds!(rt; takes_ref(&mut nested, &Each(Items::new(2, Below))));
    equal!(rt; nested.bounds.as_slice(), [4, 6].as_slice());
    equal!(rt; nested.values.bounds.as_slice(), [0, 1, 3, 6, 6, 7].as_slice());
    equal!(rt;
        nested.values.values.as_slice(),
        [0, 0, 1, 0, 1, 2, 0].as_slice()
    );
    Ok(())
}

#[test]
fn fields_are_pushed_without_owned_values(rt: HostRuntime) -> Result<(), Fail> {
    let mut rows = <(Texts, Options<Lists>)>::empty(rt.alloc());
    let number = 7u64;
    holds!(rt; takes(&mut rows, (Shown(&number), Some(Each(0..2u64)))));
    let text = format_args!("Brain{number}");
    let none: Option<Each<Range<u64>>> = None;
    holds!(rt; takes(&mut rows, (Shown(&text), none)));
    equal!(rt; rows.0.values.as_slice(), b"7Brain7".as_slice());
    equal!(rt; rows.0.bounds.as_slice(), [1, 7].as_slice());
    equal!(rt; rows.1.somes.values.as_slice(), [0, 1].as_slice());
    Ok(())
}

//! Worked rows, written in place.
ghost use Rattle.columnar_core.specs.Format.{IsSound};

use crate::callers::{writes_through, writes_where_it_fits};
use crate::rows::{after_a_write, column_of, repeated, writes, writes_item};
use columnar_bits::bools::Bools;
use columnar_bytes::stash::Stash;
use columnar_cells::index_mut::IndexMut;
use columnar_cells::items::Field;
use columnar_core::boxed::Boxed;
use columnar_core::container::Storage;
use columnar_core::traits::{Column, Index, Len, Push};
use columnar_lists::vector::Vecs;
use columnar_primitive::chars::Chars;
use columnar_primitive::durations::Durations;
use columnar_primitive::empties::Empties;
use columnar_primitive::larges::{I128s, U128s};
use columnar_primitive::numbers::{Isizes, Usizes};
use columnar_sums::option::Options;
use columnar_sums::result::Results;
use std::alloc::Global;
use std::test::Fail;
use std::time::Duration;
use test_support::columns::{reads, takes};
use test_support::stashes::{has, reopened};
use test_support::{equal, holds};

#[test]
fn options_keep_their_variants(rt: HostRuntime) -> Result<(), Fail> {
    let mut column: Options<Vec<u64>> = column_of(rt.alloc(), [Some(7), None].as_slice())?;
    holds!(rt; writes(&mut column, 0, Some(8)));
    holds!(rt; writes::<Option<u64>, Options<Vec<u64>>>(&mut column, 1, None));
    holds!(rt; !writes(&mut column, 1, Some(9)));
    holds!(rt; !writes::<Option<u64>, Options<Vec<u64>>>(&mut column, 0, None));
    holds!(rt; !writes(&mut column, 2, Some(9)));
    holds!(rt; reads(&column, [Some(8), None].as_slice()));
    Ok(())
}

#[test]
fn results_keep_their_variants(rt: HostRuntime) -> Result<(), Fail> {
    let mut column: Results<Vec<u64>, Vec<u64>> = column_of(
        rt.alloc(),
        [Ok(5), Err(6)].as_slice(),
    )?;
    holds!(rt; writes::<Result<u64, u64>, Results<Vec<u64>, Vec<u64>>>(&mut column, 0, Ok(7)));
    holds!(rt; writes::<Result<u64, u64>, Results<Vec<u64>, Vec<u64>>>(&mut column, 1, Err(8)));
    holds!(rt; !writes::<Result<u64, u64>, Results<Vec<u64>, Vec<u64>>>(&mut column, 0, Err(1)));
    holds!(rt; !writes::<Result<u64, u64>, Results<Vec<u64>, Vec<u64>>>(&mut column, 1, Ok(1)));
    holds!(rt; reads(&column, [Ok(7), Err(8)].as_slice()));
    Ok(())
}

#[test]
fn a_row_through_a_column_that_is_lent(rt: HostRuntime) -> Result<(), Fail> {
    let mut column: Options<Vec<u64>> = column_of(rt.alloc(), [Some(7), None].as_slice())?;
    holds!(rt; writes_through(&mut column, 0, Some(8)));
    holds!(rt; !writes_through(&mut column, 1, Some(9)));
    holds!(rt; !writes_through(&mut column, 2, Some(9)));
    holds!(rt; reads(&column, [Some(8), None].as_slice()));
    Ok(())
}

#[test]
fn one_field_of_a_record(rt: HostRuntime) -> Result<(), Fail> {
    let mut column: (Vec<u64>, Vec<u64>) = column_of(rt.alloc(), [(7, 8), (9, 10)].as_slice())?;
    holds!(rt; writes_item(&mut column, 1, Field::<1>, 11u64));
    holds!(rt; reads(&column, [(7, 8), (9, 11)].as_slice()));
    holds!(rt; !writes_item(&mut column, 2, Field::<0>, 1u64));
    Ok(())
}

#[test]
fn an_item_of_a_list(rt: HostRuntime) -> Result<(), Fail> {
    let mut lists = Vecs::<Vec<u64>>::empty(rt.alloc());
    holds!(rt; takes(&mut lists, [1, 2].as_slice()) && takes(&mut lists, [3].as_slice()));
    holds!(rt; writes_item(&mut lists, 0, 1usize, 9u64));
    equal!(rt; lists.values.as_slice(), [1, 9, 3].as_slice());
    equal!(rt; lists.bounds.as_slice(), [2, 3].as_slice());
    holds!(rt; !writes_item(&mut lists, 1, 1usize, 9u64));
    holds!(rt; !writes_item(&mut lists, 2, 0usize, 9u64));
    Ok(())
}

#[test]
fn an_item_that_may_be_absent(rt: HostRuntime) -> Result<(), Fail> {
    let mut lists = Vecs::<Options<Vec<u64>>>::empty(rt.alloc());
    holds!(rt; takes(&mut lists, [Some(1u64), None].as_slice()));
    holds!(rt; takes(&mut lists, [Some(3u64)].as_slice()));
    holds!(rt; writes_item(&mut lists, 1, 0usize, Some(9u64)));
    holds!(rt; !writes_item(&mut lists, 0, 1usize, Some(9u64)));
    equal!(rt; lists.values.somes.as_slice(), [1, 9].as_slice());
    Ok(())
}

#[test]
fn an_item_of_an_inner_list(rt: HostRuntime) -> Result<(), Fail> {
    let mut lists = Vecs::<Vecs<Vec<u64>>>::empty(rt.alloc());
    let rows = [[1u64, 2].as_slice(), [3].as_slice()];
    holds!(rt; takes(&mut lists, rows.as_slice()) && takes(&mut lists, rows.as_slice()));
    holds!(rt; writes_item(&mut lists, 1, (0usize, 1usize), 9u64));
    holds!(rt; !writes_item(&mut lists, 1, (1usize, 1usize), 9u64));
    equal!(rt; lists.values.values.as_slice(), [1, 2, 3, 1, 9, 3].as_slice());
    Ok(())
}

#[test]
fn an_item_of_a_list_that_may_be_absent(rt: HostRuntime) -> Result<(), Fail> {
    let mut column = Options::<Vecs<Vec<u64>>>::empty(rt.alloc());
    holds!(rt; takes(&mut column, None::<&[u64]>));
    holds!(rt; takes(&mut column, Some([1u64, 2].as_slice())));
    holds!(rt; writes_item(&mut column, 1, 1usize, 9u64));
    holds!(rt; !writes_item(&mut column, 0, 0usize, 9u64));
    equal!(rt; column.somes.values.as_slice(), [1, 9].as_slice());
    Ok(())
}

#[test]
fn a_record_in_a_list(rt: HostRuntime) -> Result<(), Fail> {
    let mut lists = Vecs::<(Vec<u64>, Vec<u64>)>::empty(rt.alloc());
    holds!(rt; takes(&mut lists, [(7u64, 8u64), (9, 10)].as_slice()));
    holds!(rt; writes_item(&mut lists, 0, 0usize, (1u64, 2u64)));
    holds!(rt; writes_item(&mut lists, 0, (1usize, Field::<1>), 3u64));
    equal!(rt; lists.values.0.as_slice(), [1, 9].as_slice());
    equal!(rt; lists.values.1.as_slice(), [2, 3].as_slice());
    Ok(())
}

#[test]
fn numbers_and_values(rt: HostRuntime) -> Result<(), Fail> {
    let alloc = rt.alloc();
    equal!(rt; after_a_write::<u16, Vec<u16>>(alloc, &[1, 2], 1, 9, &[1, 9])?, Some(true));
    equal!(rt; after_a_write::<u16, Vec<u16>>(alloc, &[1, 2], 2, 9, &[])?, None);
    equal!(rt; after_a_write::<usize, Usizes>(alloc, &[1, 2], 0, 9, &[9, 2])?, Some(true));
    equal!(rt; after_a_write::<isize, Isizes>(alloc, &[1, 2], 0, -9, &[-9, 2])?, Some(true));
    equal!(rt; after_a_write::<char, Chars>(alloc, &['a', 'b'], 1, 'ß', &['a', 'ß'])?, Some(true));
    equal!(rt; after_a_write::<u128, U128s>(alloc, &[1, 2], 1, 9, &[1, 9])?, Some(true));
    equal!(rt; after_a_write::<i128, I128s>(alloc, &[1, 2], 1, -9, &[1, -9])?, Some(true));
    equal!(rt; after_a_write::<(), Empties>(alloc, &[(), ()], 1, (), &[(), ()])?, Some(true));
    equal!(rt; after_a_write::<(), Empties>(alloc, &[()], 1, (), &[()])?, None);
    Ok(())
}

#[test]
fn durations_and_boxes(rt: HostRuntime) -> Result<(), Fail> {
    let alloc = rt.alloc();
    let (short, long) = (Duration::new(0, 5), Duration::new(7, 999_999_999));
    equal!(rt; after_a_write::<Duration, Durations>(alloc, &[short, short], 1, long, &[short, long])?, Some(true));
    equal!(rt; after_a_write::<Boxed<u64>, Boxed<Vec<u64>>>(alloc, &[Boxed(1), Boxed(2)], 0, Boxed(9), &[Boxed(9), Boxed(2)])?, Some(true));
    equal!(rt; after_a_write::<(u64,), (Vec<u64>,)>(alloc, &[(1,), (2,)], 0, (9,), &[(9,), (2,)])?, Some(true));
    Ok(())
}

// Tests that writing bit `index` of `count` equal bits changes only that bit.
fn one_bit_turned(alloc: Global, count: usize, bit: bool, index: usize) -> Result<bool, Fail> {
    let mut column: Bools<Vec<u64>, [u64; 2]> = repeated(alloc, count, bit)?;
    if !writes(&mut column, index, !bit) {
        return Ok(false);
    }
    for i in 0..count {
        if column.get_checked(i) != Some(if i == index { !bit } else { bit }) {
            return Ok(false);
        }
    }
    Ok(column.len() == count)
}

#[test]
fn bits(rt: HostRuntime) -> Result<(), Fail> {
    for index in [0usize, 63, 64, 127, 128, 129] {
        holds!(rt; one_bit_turned(rt.alloc(), 130, false, index)?);
        holds!(rt; one_bit_turned(rt.alloc(), 130, true, index)?);
    }
    holds!(rt; !one_bit_turned(rt.alloc(), 130, true, 130)?);
    Ok(())
}

#[test]
fn the_last_row_is_lent(rt: HostRuntime) -> Result<(), Fail> {
    let mut numbers: Vec<u64> = column_of(rt.alloc(), [1, 2].as_slice())?;
    match IndexMut::last_mut(&mut numbers) {
        Some(last) => *last = 9,
        None => {}
    }
    equal!(rt; numbers.as_slice(), [1, 9].as_slice());
    let mut sizes: Usizes = column_of(rt.alloc(), [1, 2].as_slice())?;
    match sizes.last_mut() {
        Some(last) => *last = 9,
        None => {}
    }
    equal!(rt; sizes.values.as_slice(), [1, 9].as_slice());
    let mut none = Vec::<u64>::new(rt.alloc());
    holds!(rt; IndexMut::last_mut(&mut none).is_none());
    let mut units: Empties = column_of(rt.alloc(), [()].as_slice())?;
    holds!(rt; units.last_mut().is_some());
    Ok(())
}

#[test]
fn the_last_row_is_lent_with_its_column(rt: HostRuntime) -> Result<(), Fail> {
    let mut pairs: (Vec<u64>, Vec<u64>) = column_of(rt.alloc(), [(7, 8), (9, 10)].as_slice())?;
    holds!(rt; last_written(&mut pairs, (1u64, 2u64)));
    equal!(rt; pairs.0.as_slice(), [7, 1].as_slice());
    equal!(rt; pairs.1.as_slice(), [8, 2].as_slice());
    let mut none = <(Vec<u64>, Vec<u64>)>::empty(rt.alloc());
    holds!(rt; !last_written(&mut none, (1u64, 2u64)));
    Ok(())
}

// Writes the last pair through its loan; returns false if there is none.
fn last_written(pairs: &mut (Vec<u64>, Vec<u64>), item: (u64, u64)) -> bool
    requires { IsSound ⟦<(Vec<u64>, Vec<u64>) as Column>⟧.format (⟦<(Vec<u64>, Vec<u64>) as Column>⟧.content pairs.old) }
{
    match pairs.last_mut() {
        Some(mut last) => last.set_checked(item),
        None => false,
    }
}

// Writes the last row of options.
fn last_option_written(column: &mut Options<Vec<u64>>, item: Option<u64>) -> bool
    requires { IsSound ⟦<Options<Vec<u64>> as Column>⟧.format (⟦<Options<Vec<u64>> as Column>⟧.content column.old) }
{
    match column.last_mut() {
        Some(mut last) => last.set_checked(item),
        None => false,
    }
}

// Writes the last row of results.
fn last_result_written(column: &mut Results<Vec<u64>, Vec<u64>>, item: Result<u64, u64>) -> bool
    requires { IsSound ⟦<Results<Vec<u64>, Vec<u64>> as Column>⟧.format (⟦<Results<Vec<u64>, Vec<u64>> as Column>⟧.content column.old) }
{
    match column.last_mut() {
        Some(mut last) => last.set_checked(item),
        None => false,
    }
}

// Writes an item of the last list.
fn last_list_written(lists: &mut Vecs<Vec<u64>>, at: usize, item: u64) -> bool
    requires { IsSound ⟦<Vecs<Vec<u64>> as Column>⟧.format (⟦<Vecs<Vec<u64>> as Column>⟧.content lists.old) }
{
    match lists.last_mut() {
        Some(mut last) => last.set_item_checked(at, item),
        None => false,
    }
}

#[test]
fn the_last_option_the_last_result_and_the_last_list(rt: HostRuntime) -> Result<(), Fail> {
    let mut column: Options<Vec<u64>> = column_of(rt.alloc(), [None, Some(7)].as_slice())?;
    holds!(rt; last_option_written(&mut column, Some(8)));
    equal!(rt; column.somes.as_slice(), [8].as_slice());
    holds!(rt; !last_option_written(&mut Options::<Vec<u64>>::empty(rt.alloc()), Some(8)));
    let mut results: Results<Vec<u64>, Vec<u64>> = column_of(
        rt.alloc(),
        [Ok(5), Err(6)].as_slice(),
    )?;
    holds!(rt; last_result_written(&mut results, Err(8)));
    equal!(rt; results.errs.as_slice(), [8].as_slice());
    equal!(rt; results.oks.as_slice(), [5].as_slice());
    let mut lists = Vecs::<Vec<u64>>::empty(rt.alloc());
    holds!(rt; takes(&mut lists, [1, 2].as_slice()) && takes(&mut lists, [3, 4].as_slice()));
    holds!(rt; last_list_written(&mut lists, 1, 9));
    equal!(rt; lists.values.as_slice(), [1, 2, 3, 9].as_slice());
    holds!(rt; !last_list_written(&mut Vecs::<Vec<u64>>::empty(rt.alloc()), 0, 9));
    Ok(())
}

#[test]
fn a_written_stash(rt: HostRuntime) -> Result<(), Fail> {
    let mut stash = Stash::<(Vec<u64>, Options<Vec<u64>>), Vec<u8>>::empty(rt.alloc());
    holds!(rt; stash.push((7u64, Some(8u64))).is_ok() && stash.push((9u64, None::<u64>)).is_ok());
    equal!(rt; writes_where_it_fits(&mut stash, 0, (1u64, Some(2u64))).ok(), Some(true));
    equal!(rt; writes_where_it_fits(&mut stash, 1, (1u64, Some(2u64))).ok(), Some(false));
    let opened = match reopened(rt.alloc(), &stash) {
        Some(opened) => opened,
        None => return Err(Fail::from("not written")),
    };
    holds!(rt; has(&opened, [(1, Some(2)), (9, None)].as_slice()));
    Ok(())
}

//! Writes allocate nothing: building and writing makes as many allocations as building alone. The check of failed
//! allocations compares the two tests of each pair, and lets each allocation fail in turn.
use crate::rows::{writes, writes_item};
use columnar_cells::items::Field;
use columnar_core::container::Storage;
use columnar_lists::vector::Vecs;
use columnar_sums::option::Options;
use std::test::Fail;
use test_support::columns::takes;

#[test]
fn pairs_are_built(rt: HostRuntime) -> Result<(), Fail> {
    let mut pairs = <(Vec<u64>, Vec<u64>)>::empty(rt.alloc());
    let _taken = takes(&mut pairs, (7u64, 8u64));
    Ok(())
}

#[test]
fn pairs_are_built_and_written(rt: HostRuntime) -> Result<(), Fail> {
    let mut pairs = <(Vec<u64>, Vec<u64>)>::empty(rt.alloc());
    if takes(&mut pairs, (7u64, 8u64)) {
        let _row = writes(&mut pairs, 0, (1u64, 2u64));
        let _field = writes_item(&mut pairs, 0, Field::<1>, 3u64);
    }
    Ok(())
}

#[test]
fn lists_are_built(rt: HostRuntime) -> Result<(), Fail> {
    let mut lists = Vecs::<Options<Vec<u64>>>::empty(rt.alloc());
    let _taken = takes(&mut lists, [Some(1u64), None].as_slice());
    Ok(())
}

#[test]
fn lists_are_built_and_written(rt: HostRuntime) -> Result<(), Fail> {
    let mut lists = Vecs::<Options<Vec<u64>>>::empty(rt.alloc());
    if takes(&mut lists, [Some(1u64), None].as_slice()) {
        let _written = writes_item(&mut lists, 0, 0usize, Some(9u64));
    }
    Ok(())
}

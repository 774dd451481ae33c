// Tuples that are made from their earlier form.
use super::worked::{One, Ten, Three, Two};
use columnar_core::container::Storage;
use columnar_core::earlier::Earlier;
use columnar_core::traits::{Item, Len, Push};
use std::alloc::Global;
use test_support::columns::takes;
use test_support::holds;

// Tests whether the tuple that is made from its earlier form, with this row twice, has both rows.
fn is_made_of_two<T: Item + Copy, C: Earlier<Old: Storage + Push<T>> + Len + Drop>(
    alloc: Global,
    row: T,
) -> bool
    requires { T.valid row }
{
    let mut old = <C::Old as Storage>::empty(alloc);
    if !takes(&mut old, row) || !takes(&mut old, row) {
        return false;
    }
    match C::from_old(alloc, old) {
        Ok(new) => new.len() == 2,
        Err(_) => false,
    }
}

#[test]
fn of_one_and_of_two(rt: HostRuntime) {
    holds!(rt; is_made_of_two::<(u64,), One>(rt.alloc(), (1,)));
    holds!(rt; is_made_of_two::<(u64, u64), Two>(rt.alloc(), (1, 2)));
}

#[test]
fn of_three(rt: HostRuntime) {
    holds!(rt; is_made_of_two::<(u64, u64, u64), Three>(rt.alloc(), (1, 2, 3)));
}

#[test]
fn of_ten(rt: HostRuntime) {
    let row = (1u64, 2u64, 3u64, 4u64, 5u64, 6u64, 7u64, 8u64, 9u64, 10u64);
    holds!(rt; is_made_of_two::<_, Ten>(rt.alloc(), row));
}

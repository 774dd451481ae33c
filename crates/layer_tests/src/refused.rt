// Calls with one failed allocation, or none: each succeeds, or changes nothing.

use super::boxed::{Numbers, SEVEN};
use super::unaries::{Held, Lists, opened};
use columnar_base::fault::GrowError;
use columnar_bytes::indexed::validate_structure;
use columnar_core::bytes::Check;
use columnar_core::rc::from_store;
use columnar_core::store::DecodedStore;
use std::test::Fail;
use test_support::stores::front;
use test_support::{equal, holds};

#[test]
fn lists_with_bounds_in_unary(rt: HostRuntime) {
    let items = [7u64; 130];
    let lengths = [0usize, 62, 1, 0, 130, 129, 3];
    let mut held = Held::new(rt.alloc());
    let taken = held.takes_some(items.as_slice(), lengths.as_slice());
    let lengths = front(lengths.as_slice(), taken);
    holds!(rt; held.is(lengths));
    let mut other = Held::new(rt.alloc());
    if other.copies(&held, 0, taken) {
        holds!(rt; other.is(lengths));
    } else {
        holds!(rt; other.is(&[]));
    }
}

#[test]
fn stores_of_an_earlier_form_are_opened(rt: HostRuntime) {
    let new: [u64; 10] = [40, 40, 40, 56, 80, 44, 6, 1, 2, 7];
    // without memory for the bytes of the store there is nothing to open
    if let Ok((kind, rows, _)) = opened::<Lists>(
        rt.alloc(),
        &[24, 48, 72, 2, 2, 3, 1, 2, 7],
        new.as_slice(),
    ) {
        holds!(rt; (kind, rows) == (0, 3) || (kind, rows) == (41, 0));
    }
}

#[test]
fn views_that_are_shared(rt: HostRuntime) -> Result<(), Fail> {
    let bytes = SEVEN.as_slice();
    if validate_structure(bytes, 1).is_err() {
        return Err(Fail::from(GrowError::Format));
    }
    let store = DecodedStore::new(bytes);
    let mut offset = 0;
    match from_store::<Numbers<'_>>(rt.alloc(), &store, &mut offset) {
        Ok(shared) => {
            equal!(rt; offset, 1);
            holds!(rt; shared.check().is_ok());
        }
        Err(error) => {
            equal!(rt; error, GrowError::Memory);
            equal!(rt; offset, 0);
        }
    }
    Ok(())
}

// Names of slices with a request for memory refused, or none.
use super::are;
use super::rows::{NowhereContainer, PlaceContainer};
use columnar::SliceNames;
use columnar::fault::GrowError;
use std::alloc::Global;
use std::rt::HostRuntime;
use test_support::holds;

fn has_names<C: SliceNames>(alloc: Global, expected: &[&str]) -> bool {
    match C::slice_names(alloc) {
        Ok(names) => are(names.as_slice(), expected),
        Err(error) => error == GrowError::Memory,
    }
}

#[test]
fn slices_are_named_or_memory_is_lacking(rt: HostRuntime) {
    holds!(rt; has_names::<PlaceContainer>(rt.alloc(), &["0.0", "1"]));
    holds!(rt; has_names::<NowhereContainer>(rt.alloc(), &["count"]));
}

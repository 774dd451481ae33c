// A push of a number whose digit occurs twice, whichever allocation fails: it succeeds, or the bytes stay the same. An
// allocation that fails elsewhere ends the test.

use super::lookbacks::{BOTH_STORED, Held};
use columnar_base::fault::GrowError;
use columnar_core::traits::Push;
use std::test::Fail;
use test_support::stashes::{has, opened, variant, writes};
use test_support::trials::is_refused;
use test_support::{equal, holds};

#[test]
fn a_push_to_opened_bytes(rt: HostRuntime) -> Result<(), Fail> {
    let alloc = rt.alloc();
    holds!(rt; !is_refused::<Held>(alloc, BOTH_STORED.as_slice()));
    let Some(mut stash) = opened::<Held>(alloc, BOTH_STORED.as_slice()) else {
        return Ok(());
    };
    match stash.push(33u64) {
        Ok(()) => {
            equal!(rt; variant(&stash), 0);
            holds!(rt; has(&stash, [13, 23, 23].as_slice()));
        }
        Err(error) => {
            equal!(rt; error, GrowError::Memory);
            equal!(rt; variant(&stash), 1);
            holds!(rt; has(&stash, [13, 23].as_slice()));
            holds!(rt; writes(&stash, BOTH_STORED.as_slice()));
        }
    }
    Ok(())
}

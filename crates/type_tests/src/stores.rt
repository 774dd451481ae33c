// Stores that were worked out by hand.
use crate::calls::{are_words, come_back};
use std::test::Fail;
use test_support::holds;

#[test]
fn lists_of_numbers(rt: HostRuntime) -> Result<(), Fail> {
    let alloc = rt.alloc();
    let mut lists = Vec::new(alloc);
    lists.push([1u64, 2].to_vec(alloc)?)?;
    lists.push(Vec::new(alloc))?;
    lists.push([7].to_vec(alloc)?)?;
    holds!(rt; are_words::<Vec<u64>>(alloc, lists.as_slice(), [40, 40, 40, 56, 80, 44, 6, 1, 2, 7].as_slice()));
    holds!(rt; come_back::<Vec<u64>>(alloc, &mut None, lists.as_slice()));
    Ok(())
}

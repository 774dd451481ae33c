// Every layout of up to five nodes is rejected unless a forest has it; so is one with a word more or less.
use super::forests::FORESTS;
use columnar_core::bytes::Check;
use columnar_core::fault::StoreFault;
use columnar_core::view::View;
use columnar_nested::trees::Trees;
use std::alloc::{AllocError, Global};
use std::test::Fail;
use test_support::equal;

// Returns the lowest digits of a number.
fn digits(out: &mut Vec<u64>, number: u64, base: u64, count: u32) -> Result<(), AllocError> {
    out.clear();
    let mut left = number;
    for _ in 0..count {
        out.push(left % base.max(1))?;
        left /= base.max(1);
    }
    Ok(())
}

// Returns all rising lists of numbers below `count`.
fn rising(alloc: Global, count: u32) -> Result<Vec<Vec<u64>>, AllocError> {
    let mut lists = Vec::new(alloc);
    for number in 0..2u64.saturating_pow(count) {
        let mut list = Vec::new(alloc);
        let mut left = number;
        for place in 0..count {
            if left % 2 == 1 {
                list.push(u64::from(place))?;
            }
            left /= 2;
        }
        lists.push(list)?;
    }
    Ok(lists)
}

// Returns the verdict on these groups and bounds, with these values.
fn judged(groups: &[u64], bounds: &[u64], values: &[u64]) -> Result<(), StoreFault> {
    let layout = Trees {
        groups: View::from_slice(groups),
        bounds: View::from_slice(bounds),
        values: View::from_slice(values),
    };
    layout.check()
}

// Counts the accepted layouts of this number of nodes, over all bounds and all rising groups of numbers up to it;
// `None` if a rule other than that of trees is reported.
fn accepted(alloc: Global, nodes: u32) -> Result<Option<usize>, Fail> {
    let count = nodes.saturating_add(1);
    let groups = rising(alloc, count)?;
    let mut bounds = Vec::new(alloc);
    let mut values = Vec::new(alloc);
    digits(&mut values, 0, 2, nodes)?;
    let mut found = 0usize;
    for number in 0..u64::from(count).saturating_pow(count) {
        digits(&mut bounds, number, u64::from(count), count)?;
        for list in groups.iter() {
            match judged(list.as_slice(), bounds.as_slice(), values.as_slice()) {
                Ok(()) => found = found.saturating_add(1),
                Err(StoreFault::Tree(0)) => {}
                Err(_) => return Ok(None),
            }
        }
    }
    Ok(Some(found))
}

#[test]
fn all_small_layouts(rt: HostRuntime) -> Result<(), Fail> {
    for nodes in 0..6 {
        equal!(rt; accepted(rt.alloc(), nodes)?, Some(FORESTS[nodes as usize]));
    }
    Ok(())
}

#[test]
fn other_lengths(rt: HostRuntime) -> Result<(), Fail> {
    let groups = [0u64, 3, 4, 6, 6];
    let bounds = [0u64, 3, 3, 3, 4, 6, 6, 7];
    let values = [1u64, 2, 3, 100, 200, 300, 400];
    for g in 0..=groups.len() {
        for b in 0..=bounds.len() {
            for v in 0..=values.len() {
                let wanted = match (g, b, v) {
                    // no trees; the first two; all three
                    (1, 1, 0) | (3, 5, 4) | (4, 7, 6) => Ok(()),
                    // only the first
                    (2, 4, 3) => Ok(()),
                    _ => Err(StoreFault::Tree(0)),
                };
                equal!(rt; judged(&groups[..g], &bounds[..b], &values[..v]), wanted);
            }
        }
    }
    Ok(())
}

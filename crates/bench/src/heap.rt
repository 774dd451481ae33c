//! Preparation of the heap before the measurements.
use std::alloc::Global;

// The number of small blocks of one size that the C library keeps for later requests.
const KEPT: usize = 7;

/// Allocates blocks of each small size and frees them, so that later requests reuse them. If they were allocated later,
/// they would stand between large blocks, and a growing column would have to move.
pub fn small_blocks(alloc: Global) -> Option<()> {
    let mut columns = Vec::new(alloc);
    for _column in 0..KEPT {
        columns.push(Vec::<u64>::new(alloc)).ok()?;
    }
    for word in 0..256 {
        for column in columns.iter_mut() {
            column.push(word).ok()?;
        }
    }
    Some(())
}

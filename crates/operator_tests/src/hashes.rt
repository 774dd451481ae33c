//! Rows that are compared, both ways, and hashed.
use columnar::common::OrderedRow;
use std::cmp::Ordering;
use std::hash::{DefaultHasher, Hasher};

fn hash_of<T: OrderedRow>(row: &T) -> u64 {
    let mut state = DefaultHasher::new();
    row.hash_row(&mut state);
    state.finish()
}

/// Tests that the first row is less than the second one, is not equal to it and has another hash.
pub fn rises<T: OrderedRow>(less: &T, more: &T) -> bool {
    less.compare_row(more) == Ordering::Less
        && more.compare_row(less) == Ordering::Greater
        && less.compare_row(less) == Ordering::Equal
        && !less.same_row(more)
        && more.same_row(more)
        && hash_of(less) != hash_of(more)
        && hash_of(less) == hash_of(less)
}

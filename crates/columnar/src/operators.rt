//! Operations on whole columns: sorting, taking rows by number, filtering, merging and searching.

pub use columnar_operators::extremes::{max_row, min_row};
pub use columnar_operators::merge::merge;
pub use columnar_operators::search::{
    is_sorted_rows, lower_bound, lower_bound_tallied, partition_point, partition_point_tallied,
    upper_bound, upper_bound_tallied,
};
pub use columnar_operators::select::{filter, filter_checked, take, take_checked};
pub use columnar_operators::sort::sort_indices;

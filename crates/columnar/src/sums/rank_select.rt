//! Bit vectors with counts, for rank and select with few reads.

pub use columnar_sums::rank_select::{Cursor, RankSelect, RankSelectCursor, select_in_word};

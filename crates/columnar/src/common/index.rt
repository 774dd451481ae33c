//! Access to rows by number.

pub use columnar_cells::index_mut::IndexMut;
pub use columnar_cells::lent::Lent;
pub use columnar_core::traits::{CopyAs, Index, IndexAs};

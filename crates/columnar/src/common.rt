//! Traits and types shared by all columns.

pub mod index;

pub use columnar_core::bytes::{AsBytes, FromBytes};
pub use columnar_core::container::{BorrowIndexAs, Named, PushIndexAs};
pub use columnar_core::earlier::{Earlier, Kept};
pub use columnar_core::element::{ArrayItem, Element, Primitive, Wide};
pub use columnar_core::iter::IterOwn;
pub use columnar_core::metered::{MeteredCounts, MeteredWords};
pub use columnar_core::ordered::OrderedRow;
pub use columnar_core::slice::Slice;
pub use columnar_core::tally::{Plain, Tally};
pub use columnar_core::traits::{Clear, Len, Push, PushInto, PushRef};
pub use columnar_core::view::{Items, View};
pub use columnar_core::viewed::Viewed;

//! Lists of rows.

pub use columnar_lists::each::{Determined, Each, ItemAt, Items};
pub use columnar_lists::vector::Vecs;
pub use columnar_lists::vector::push::PushRefInto;
pub use columnar_lists::walk::{ListIter, Ranges};

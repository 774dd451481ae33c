//! Trees.

pub use columnar_nested::tree::Tree;
pub use columnar_nested::trees::{NodeBounds, Trees, TreesRef};

//! Columns of trees.
ghost use Rattle.std.specs.Prelude.{◌≡◌, ℕ, ◌+◌, ◌<◌, ◌≤◌, ◌++◌, [], ◌∷◌, List, length, take, slice_index, OnOk, OnErr, IfOk, IfErr};
ghost use Rattle.columnar_base.specs.Change.{Took, Refused};
ghost use Rattle.columnar_base.specs.Format.{IsSound};
ghost use Rattle.columnar_base.specs.WordViews.{words_in, le_bytes, view_bytes};
ghost use Rattle.columnar_nested.specs.Trees.{trees_format, trees_content};

mod bytes;
mod grow;
mod read;

use columnar_base::traits::Column;
use columnar_base::view::View;
use columnar_core::words::word_at;
pub use read::TreesRef;

/// Words that can be the groups and the bounds of trees: those of a `Vec`, of a view, or of a reference to either.
pub trait NodeBounds {
    // the bytes of the words, lowest first within a word
    ghost bytes: { Self → List ℕ };

    /// Returns a view of the words; allocates nothing.
    fn words(&self) -> View<'_, u64>
        ensures { view_bytes result ≡ bytes self.now };

    /// Returns word `index`.
    ///
    /// # Requires
    /// `index` below the number of words.
    final fn bound(&self, index: usize) -> u64
        requires { index < length (words_in (bytes self.now)) }
        ensures { result ≡ slice_index (words_in (bytes self.now)) index }
    {
        word_at(self.words(), index)
    }
}

impl NodeBounds for Vec<u64> {
    ghost bytes = { λ v. le_bytes v.items };

    fn words(&self) -> View<'_, u64> {
        View::from_slice(self.as_slice())
    }
}

impl<'v> NodeBounds for View<'v, u64> {
    ghost bytes = { λ v. view_bytes v };

    fn words(&self) -> View<'_, u64> {
        *self
    }
}

impl<'x, B: NodeBounds> NodeBounds for &'x B {
    ghost bytes = { λ b. B.bytes b.now };

    fn words(&self) -> View<'_, u64> {
        (**self).words()
    }
}

/// A column of trees. It stores the nodes of each tree level by level, tree after tree.
#[derive(Clone, Copy, Drop)]
pub struct Trees<TC, BC = Vec<u64>> {
    /// The number of the first node of each tree, then the number of all nodes.
    pub groups: BC,
    /// A first 0, then for each node the number at which the children of its tree's nodes, up to and including it, end.
    pub bounds: BC,
    /// The value of each node.
    pub values: TC,
}

impl<TC: Column, BC: NodeBounds> Column for Trees<TC, BC> {
    ghost format = { trees_format TC.format };

    ghost content = { trees_content BC.bytes TC.content };

    ghost room = { λ c rs. ⊥ };
}

//! Stored trees that are read in place, node by node.
ghost use Rattle.std.specs.Prelude.{◌≡◌, ◌<◌, length, slice_get, Some};
ghost use Rattle.columnar_base.specs.Format.{both, slice, IsSound};
ghost use Rattle.columnar_nested.specs.NodeRefs.{node_number, ref_row, ref_valid};
ghost use Rattle.columnar_nested.specs.TreeRows.{tree_value, kids_of};
ghost use Rattle.columnar_nested.specs.Trees.{trees_format};
ghost use Rattle.columnar_nested.specs.TreesLaws.{same_trees};

use super::{NodeBounds, Trees};
use columnar_base::traits::{Column, Index, Item, Len};
use columnar_base::view::View;
use columnar_core::container::{Borrow, Named, Reborrow, ReborrowRef};
use columnar_core::words::word_count;

/// A node of stored trees, with all nodes below it. Its calls require that it is valid: a node of a well-formed column
/// of trees, or a `child` of a valid node.
#[derive(Clone, Copy)]
pub struct TreesRef<V, B> {
    index: usize,
    lower: usize,
    upper: usize,
    values: V,
    bounds: B,
}

impl<V: Column, B: NodeBounds> Item for TreesRef<V, B> {
    ghost meaning = { λ r. ref_row B.bytes (λ v. V.format.rows (V.content v)) r };

    ghost valid = { λ r. ref_valid B.bytes V.format V.content r };
}

impl<V: Column, B: NodeBounds> TreesRef<V, B> {
    /// Returns the number of children.
    ///
    /// # Requires
    /// A valid node.
    pub fn kids(&self) -> usize
        requires { ⟦<TreesRef<V, B> as Item>⟧.valid self.now }
        ensures { result ≡ length (kids_of (⟦<TreesRef<V, B> as Item>⟧.meaning self.now)) }
    {
        self.upper - self.lower
    }
}

impl<V: Index, B: NodeBounds> TreesRef<V, B> {
    /// Returns the row of the node's own value.
    ///
    /// # Requires
    /// A valid node.
    pub fn value(&self) -> V::Ref
        requires { ⟦<TreesRef<V, B> as Item>⟧.valid self.now }
        ensures row { V.Ref.meaning result ≡ tree_value (⟦<TreesRef<V, B> as Item>⟧.meaning self.now) }
        ensures valid { V.Ref.valid result }
    {
        self.values.get(self.index)
    }
}

impl<V: Column + Copy, B: NodeBounds + Copy> TreesRef<V, B> {
    /// Returns child `index`. The child is valid too, and its number is greater than this node's.
    ///
    /// # Requires
    /// A valid node, and `index` below its number of children.
    pub fn child(&self, index: usize) -> Self
        requires valid { ⟦<TreesRef<V, B> as Item>⟧.valid self.now }
        requires in_range { index < length (kids_of (⟦<TreesRef<V, B> as Item>⟧.meaning self.now)) }
        ensures kid { slice_get (kids_of (⟦<TreesRef<V, B> as Item>⟧.meaning self.now)) index ≡ Some (⟦<TreesRef<V, B> as Item>⟧.meaning result) }
        ensures valid { ⟦<TreesRef<V, B> as Item>⟧.valid result }
        ensures later { node_number self.now < node_number result }
    {
        let child = self.lower + index;
        TreesRef {
            index: child,
            lower: self.bounds.bound(child) as usize,
            upper: self.bounds.bound(child + 1) as usize,
            values: self.values,
            bounds: self.bounds,
        }
    }
}

// Returns the root of tree `index` of well-formed trees.
fn root_of<G: NodeBounds, V: Column, B: NodeBounds>(
    groups: &G,
    bounds: B,
    values: V,
    index: usize,
) -> TreesRef<V, B>
    requires sound { IsSound (trees_format V.format) (both (slice (G.bytes groups.now)) (both (slice (B.bytes bounds)) (V.content values))) }
    requires in_range { index < length ((trees_format V.format).rows (both (slice (G.bytes groups.now)) (both (slice (B.bytes bounds)) (V.content values)))) }
    ensures tree { slice_get ((trees_format V.format).rows (both (slice (G.bytes groups.now)) (both (slice (B.bytes bounds)) (V.content values)))) index ≡ Some (⟦<TreesRef<V, B> as Item>⟧.meaning result) }
    ensures valid { ⟦<TreesRef<V, B> as Item>⟧.valid result }
{
    // There are fewer than 2^61 bounds, so 64 bits can hold the number after a node's.
    let _count = word_count(bounds.words());
    let root = groups.bound(index) as usize;
    TreesRef {
        index: root,
        lower: root + 1,
        upper: bounds.bound(root + 1) as usize,
        values,
        bounds,
    }
}

impl<TC: Column, BC: NodeBounds> Len for Trees<TC, BC> {
    fn len(&self) -> usize {
        word_count(self.groups.words()) - 1
    }
}

impl<TC: Column + Copy, BC: NodeBounds + Copy> Index for Trees<TC, BC> {
    type Ref = TreesRef<TC, BC>;

    fn get(&self, index: usize) -> TreesRef<TC, BC> {
        root_of(&self.groups, self.bounds, self.values, index)
    }
}

impl<'a, TC: Borrow<'a>> Borrow<'a> for Trees<TC, Vec<u64>> {
    type Ref = TreesRef<TC::Borrowed, View<'a, u64>>;

    type Borrowed = Trees<TC::Borrowed, View<'a, u64>>;

    type Parts = Named<TC::Ref, TC::Parts>;

    ghost same_format = { same_trees TC.same_format };

    fn borrow(&'a self) -> Trees<TC::Borrowed, View<'a, u64>> {
        let groups = View::from_slice(self.groups.as_slice());
        let bounds = View::from_slice(self.bounds.as_slice());
        let values = self.values.borrow();
        Trees {
            groups,
            bounds,
            values,
        }
    }
}

impl<'a, 'b, TC: Reborrow<'b>> Reborrow<'b> for Trees<TC, View<'a, u64>>
where
    'a: 'b,
{
    type Short = Trees<TC::Short, View<'b, u64>>;

    ghost same_short = { same_trees TC.same_short };

    fn reborrow(self) -> Trees<TC::Short, View<'b, u64>> {
        let values = self.values.reborrow();
        Trees {
            groups: self.groups,
            bounds: self.bounds,
            values,
        }
    }
}

impl<'a, TC: Column, BC: NodeBounds> Index for &'a Trees<TC, BC> {
    type Ref = TreesRef<&'a TC, &'a BC>;

    fn get(&self, index: usize) -> TreesRef<&'a TC, &'a BC> {
        root_of(&self.groups, &self.bounds, &self.values, index)
    }
}

impl<'a, 'b, V: Reborrow<'b>> ReborrowRef<'b> for TreesRef<V, View<'a, u64>>
where
    'a: 'b,
{
    type ShortRef = TreesRef<V::Short, View<'b, u64>>;

    fn reborrow_ref(self) -> TreesRef<V::Short, View<'b, u64>> {
        TreesRef {
            index: self.index,
            lower: self.lower,
            upper: self.upper,
            values: self.values.reborrow(),
            bounds: self.bounds,
        }
    }
}

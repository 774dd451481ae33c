// A well-formed column of trees, its reads, and shared code of the tests.
ghost use Rattle.std.specs.Prelude.{◌≡◌, IfSome, IsTrue};
ghost use Rattle.columnar_core.specs.Format.{IsSound, representable};
ghost use Rattle.columnar_bytes.specs.Stashes.{stash_content};
ghost use Rattle.columnar_nested.specs.Trees.{trees_format, owned_trees};

use columnar_bytes::indexed::write;
use columnar_bytes::stash::Stash;
use columnar_core::container::{Borrow, ContainerBytes, Storage, Truncate};
use columnar_core::fault::GrowError;
use columnar_core::owned::Owned;
use columnar_core::traits::{Clear, Column, Index, Item, PushRef};
use columnar_nested::tree::Tree;
use columnar_nested::trees::{NodeBounds, Trees, TreesRef};
use std::alloc::Global;
use std::io::{self};
use test_support::columns::row_at;
use test_support::stores::is_written;

// Trees with values in a column of type TC.
#[derive(Drop)]
pub(super) struct Grove<TC: Column> {
    pub(super) trees: Trees<TC>,
    ghost sound: { IsSound (trees_format TC.format) (owned_trees TC.content trees) },
}

impl<TC: Column> Grove<TC> {
    // Creates a grove without trees.
    pub(super) fn new(alloc: Global) -> Result<Self, GrowError>
    where
        TC: Storage,
    {
        let trees = Trees::new(alloc)?;
        Ok(Grove { trees })
    }

    // Appends a tree.
    pub(super) fn push<T: Item + Drop>(&mut self, tree: Tree<T>) -> Result<(), GrowError>
    where
        TC: PushRef<T> + Truncate,
        requires { ⟦<Tree<T> as Item>⟧.valid tree }
    {
        self.trees.push_tree(tree)
    }

    // Removes all trees.
    pub(super) fn clear(&mut self)
    where
        TC: Clear,
    {
        self.trees.clear();
    }

    // Returns the root of tree `index`, if there is one.
    pub(super) fn root<'a>(&'a self, index: usize) -> Option<<Trees<TC> as Borrow<'a>>::Ref>
    where
        TC: Borrow<'a>,
        ensures { IfSome result ⟦<<Trees<TC> as Borrow<'a>>::Ref as Item>⟧.valid }
    {
        row_at(&self.trees.borrow(), index)
    }

    // Tests whether these are the words of its store.
    pub(super) fn writes(&self, words: &[u64]) -> bool
    where
        TC: ContainerBytes,
        requires { IsTrue (representable (trees_format TC.format)) }
    {
        is_written(&self.trees, words)
    }

    // Writes it and opens the result, if it can be written.
    pub(super) fn reopened(&self, alloc: Global) -> Option<Stash<Trees<TC>, Vec<u8>>>
    where
        TC: ContainerBytes,
        requires { IsTrue (representable (trees_format TC.format)) }
        ensures { IfSome result (λ s. IsSound (trees_format TC.format) (stash_content s)) }
    {
        let mut bytes = Vec::new(alloc);
        if write(&mut bytes, &Owned(&self.trees)).is_err() {
            return None;
        }
        match Stash::<Trees<TC>, Vec<u8>>::try_from_bytes(alloc, bytes) {
            Ok(stash) => Some(stash),
            Err(_) => None,
        }
    }
}

// Returns child `index` of a node, if there is one.
pub(super) fn kid_of<V: Column + Copy, B: NodeBounds + Copy>(
    node: Option<TreesRef<V, B>>,
    index: usize,
) -> Option<TreesRef<V, B>>
    requires { IfSome node ⟦<TreesRef<V, B> as Item>⟧.valid }
    ensures { IfSome result ⟦<TreesRef<V, B> as Item>⟧.valid }
{
    match node {
        Some(node) if index < node.kids() => Some(node.child(index)),
        _ => None,
    }
}

// Returns the value of a node and its number of children.
pub(super) fn node_of<V: Index + Copy, B: NodeBounds + Copy>(
    node: Option<TreesRef<V, B>>,
) -> Option<(V::Ref, usize)>
    requires { IfSome node ⟦<TreesRef<V, B> as Item>⟧.valid }
{
    match node {
        Some(node) => Some((node.value(), node.kids())),
        None => None,
    }
}

// Creates a tree of this value and these children.
pub(super) fn tree<T: Drop, const N: usize>(
    alloc: Global,
    value: T,
    kids: [Tree<T>; N],
) -> Result<Tree<T>, GrowError> {
    let kids = Vec::from_array(alloc, kids)?;
    Ok(Tree { value, kids })
}

// Creates 10 with children 20 and 30; 20 has child 40.
pub(super) fn ten(alloc: Global) -> Result<Tree<u64>, GrowError> {
    let twenty = tree(alloc, 20, [tree(alloc, 40, [])?])?;
    let thirty = tree(alloc, 30, [])?;
    tree(alloc, 10, [twenty, thirty])
}

// Creates 1 with children 2 and 3; 100; 200 with child 300.
pub(super) fn three(alloc: Global) -> Result<Grove<Vec<u64>>, GrowError> {
    let mut grove = Grove::new(alloc)?;
    let kids = [tree(alloc, 2, [])?, tree(alloc, 3, [])?];
    grove.push(tree(alloc, 1, kids)?)?;
    grove.push(tree(alloc, 100, [])?)?;
    let kid = tree(alloc, 300, [])?;
    grove.push(tree(alloc, 200, [kid])?)?;
    Ok(grove)
}

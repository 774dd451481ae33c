// Trees of a million nodes, in a line and as siblings, handled without a deep stack.
ghost use Rattle.std.specs.Prelude.{IfSome};

use super::grove::Grove;
use columnar_core::traits::{Column, Index, Item};
use columnar_nested::tree::Tree;
use columnar_nested::trees::{NodeBounds, TreesRef};
use std::alloc::{AllocError, Global};
use std::test::Fail;
use test_support::{equal, holds};

const MILLION: usize = 1_000_000;

// Creates nodes of one value, each the only child of the previous one.
pub(super) fn line<T: Copy>(alloc: Global, value: T, nodes: usize) -> Result<Tree<T>, AllocError> {
    let mut tree = Tree {
        value,
        kids: Vec::new(alloc),
    };
    for _ in 1..nodes {
        let mut kids = Vec::new(alloc);
        kids.push(tree)?;
        tree = Tree { value, kids };
    }
    Ok(tree)
}

// Creates a node of one value with `kids` children of that value.
pub(super) fn broad<T: Copy>(alloc: Global, value: T, kids: usize) -> Result<Tree<T>, AllocError> {
    let mut all = Vec::new(alloc);
    for _ in 0..kids {
        let kids = Vec::new(alloc);
        all.push(Tree { value, kids })?;
    }
    Ok(Tree { value, kids: all })
}

// Counts the nodes on the path through each node's last child, up to `most`.
fn walked<V: Column + Copy, B: NodeBounds + Copy>(root: TreesRef<V, B>, most: usize) -> usize
    requires { ⟦<TreesRef<V, B> as Item>⟧.valid root }
{
    let mut node = root;
    for met in 1..most {
        let kids = node.kids();
        if kids == 0 {
            return met;
        }
        node = node.child(kids - 1);
    }
    most
}

#[test]
fn a_line_of_a_million_nodes(rt: HostRuntime) -> Result<(), Fail> {
    let alloc = rt.alloc();
    let numbers = line(alloc, 3usize, MILLION)?;
    equal!(rt; numbers.sum(), Ok(3 * MILLION));
    let copy = numbers.clone()?;
    drop(numbers);
    equal!(rt; copy.sum(), Ok(3 * MILLION));
    let mut grove = Grove::<Vec<u64>>::new(alloc)?;
    grove.push(line(alloc, 7u64, MILLION)?)?;
    equal!(rt; grove.trees.groups.as_slice(), [0, 1_000_000].as_slice());
    equal!(rt; grove.trees.bounds.len(), MILLION + 1);
    equal!(rt; grove.trees.values.len(), MILLION);
    match grove.root(0) {
        Some(root) => equal!(rt; walked(root, 2 * MILLION), MILLION),
        None => holds!(rt; false),
    }
    Ok(())
}

// Tests whether a node has this value and this many children, each with the same value and no children.
fn is_broad<T: Item + PartialEq + Copy, V: Index<Ref = T> + Copy, B: NodeBounds + Copy>(
    node: Option<TreesRef<V, B>>,
    value: T,
    kids: usize,
) -> bool
    requires { IfSome node ⟦<TreesRef<V, B> as Item>⟧.valid }
{
    let Some(node) = node else {
        return false;
    };
    for i in 0..node.kids() {
        let kid = node.child(i);
        if kid.value() != value || kid.kids() != 0 {
            return false;
        }
    }
    node.value() == value && node.kids() == kids
}

#[test]
fn a_million_kids(rt: HostRuntime) -> Result<(), Fail> {
    let alloc = rt.alloc();
    let numbers = broad(alloc, 3usize, MILLION - 1)?;
    equal!(rt; numbers.sum(), Ok(3 * MILLION));
    let copy = numbers.clone()?;
    drop(numbers);
    equal!(rt; copy.sum(), Ok(3 * MILLION));
    let mut grove = Grove::<Vec<u64>>::new(alloc)?;
    grove.push(broad(alloc, 7u64, MILLION - 1)?)?;
    holds!(rt; is_broad(grove.root(0), 7, MILLION - 1));
    let copy = grove.trees.clone()?;
    equal!(rt; copy.groups.as_slice(), grove.trees.groups.as_slice());
    equal!(rt; copy.bounds.as_slice(), grove.trees.bounds.as_slice());
    equal!(rt; copy.values.as_slice(), grove.trees.values.as_slice());
    Ok(())
}

// Every forest of up to five nodes: pushed, written, opened and read again.
ghost use Rattle.columnar_core.specs.Format.{IsSound};

use super::grove::Grove;
use columnar_core::container::Borrow;
use columnar_core::traits::{Column, Item, Len};
use columnar_core::view::View;
use columnar_nested::tree::Tree;
use columnar_nested::trees::{Trees, TreesRef};
use std::alloc::Global;
use std::test::Fail;
use test_support::columns::row_at;
use test_support::{equal, holds};

type Node<'a> = TreesRef<View<'a, u64>, View<'a, u64>>;

type Trees64<'a> = Trees<View<'a, u64>, View<'a, u64>>;

// The number of forests with 0, 1, .. nodes.
pub(super) static FORESTS: [usize; 6] = [1, 1, 2, 5, 14, 42];

// Returns the forest of a code: from its lowest bit on, a set bit starts a tree, and a clear bit ends one. A tree's
// value is the number of trees that end before it. `None` if no forest has the code.
pub(super) fn forest(
    alloc: Global,
    code: u64,
    nodes: usize,
) -> Result<Option<Vec<Tree<u64>>>, Fail> {
    let mut above: Vec<Vec<Tree<u64>>> = Vec::new(alloc);
    let mut trees = Vec::new(alloc);
    let mut ended = 0u64;
    let mut left = code;
    for _ in 0..nodes.saturating_mul(2) {
        if left % 2 == 1 {
            above.push(trees)?;
            trees = Vec::new(alloc);
        } else {
            let Some(mut before) = above.pop() else {
                return Ok(None);
            };
            let tree = Tree {
                value: ended,
                kids: trees,
            };
            before.push(tree)?;
            trees = before;
            ended = ended.saturating_add(1);
        }
        left /= 2;
    }
    Ok(if above.is_empty() { Some(trees) } else { None })
}

// Tests whether the tree below a node is this one, with at most `levels` levels.
fn is_tree<'a>(node: Node<'a>, tree: &Tree<u64>, levels: usize) -> bool
    requires { ⟦<Node<'a> as Item>⟧.valid node }
{
    if levels == 0 || node.value() != tree.value || node.kids() != tree.kids.len() {
        return false;
    }
    for i in 0..node.kids() {
        if !is_tree(node.child(i), &tree.kids[i], levels - 1) {
            return false;
        }
    }
    true
}

// Tests whether these are the same tree, with at most `levels` levels.
pub(super) fn same_trees(one: &Tree<u64>, other: &Tree<u64>, levels: usize) -> bool {
    if levels == 0 || one.value != other.value || one.kids.len() != other.kids.len() {
        return false;
    }
    for i in 0..one.kids.len() {
        if !same_trees(&one.kids[i], &other.kids[i], levels - 1) {
            return false;
        }
    }
    true
}

// Creates a column of copies of these trees.
pub(super) fn planted(alloc: Global, trees: &[Tree<u64>]) -> Result<Grove<Vec<u64>>, Fail> {
    let mut grove = Grove::new(alloc)?;
    for i in 0..trees.len() {
        let copy = trees[i].clone()?;
        grove.push(copy)?;
    }
    Ok(grove)
}

// Tests whether the rows of a view are these trees.
fn are_trees<'a>(view: Trees64<'a>, trees: &[Tree<u64>]) -> bool
    requires { IsSound ⟦<Trees64<'a> as Column>⟧.format (⟦<Trees64<'a> as Column>⟧.content view) }
{
    for i in 0..trees.len() {
        match row_at(&view, i) {
            Some(node) if is_tree(node, &trees[i], 5) => {}
            _ => return false,
        }
    }
    view.len() == trees.len()
}

// Tests whether trees read the same from a column and from its written bytes.
fn are_read_back(alloc: Global, trees: &[Tree<u64>]) -> Result<bool, Fail> {
    let grove = planted(alloc, trees)?;
    let Some(opened) = grove.reopened(alloc) else {
        return Ok(false);
    };
    Ok(are_trees(grove.trees.borrow(), trees) && are_trees(opened.borrow(), trees))
}

#[test]
fn all_small_forests(rt: HostRuntime) -> Result<(), Fail> {
    for nodes in 0..FORESTS.len() {
        let mut found = 0usize;
        for code in 0..1024 {
            if code >= 4u64.saturating_pow(nodes as u32) {
                break;
            }
            if let Some(trees) = forest(rt.alloc(), code, nodes)? {
                holds!(rt; are_read_back(rt.alloc(), trees.as_slice())?);
                found = found.saturating_add(1);
            }
        }
        equal!(rt; found, FORESTS[nodes]);
    }
    Ok(())
}

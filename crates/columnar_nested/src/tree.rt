//! Trees of values.
ghost use Rattle.std.specs.Prelude.{◌≡◌, ◌≤◌, ◌+◌, ◌^◌, ℕ, List, [], All, IfOk, OnErr, length, sum, true, false};
ghost use Rattle.columnar_nested.specs.TreeValues.{tree_meaning, values_in};
ghost use Rattle.columnar_nested.specs.Weights.{total};
ghost use Rattle.columnar_nested.specs.declared.tree.Tree.{Tree};
ghost use Rattle.columnar_nested.specs.declared.tree.Tree.TheViews.{out-Tree};

use columnar_base::fault::SumError;
use columnar_base::traits::Item;
use std::alloc::{AllocError, Global};
use std::collections::VecDeque;

/// A value, and the trees below it. It is dropped with a queue, so that a long chain of nodes needs no deep stack.
pub struct Tree<T> {
    /// The value of the root.
    pub value: T,
    /// The trees below it, in order.
    pub kids: Vec<Tree<T>>,
}

/// Its row is its value and the list of its children.
impl<T: Item> Item for Tree<T> {
    ghost meaning = { tree_meaning T.meaning };

    ghost valid = { λ t. All T.valid (values_in t) };
}

impl<T> Tree<T> {
    /// Returns the value and the children.
    pub fn into_parts(self) -> (T, Vec<Tree<T>>)
        ensures value { result.0 ≡ (out-Tree T self).value }
        ensures kids { result.1 ≡ (out-Tree T self).kids }
    {
        let Tree { value, kids } = self;
        (value, kids)
    }
}

/// If the queue cannot grow, the trees that found no place in it are dropped recursively, one by one.
impl<T: Drop> Drop for Tree<T> {
    fn drop(mut self) {
        let mut waiting = VecDeque::new(*self.kids.allocator());
        loop {
            let Tree { value: _, kids } = self;
            let mut next = VecDeque::from_vec(kids);
            if let Err(_) = waiting.append(&mut next) {
                while let Some(kid) = next.pop_front() {
                    drop(kid);
                }
            }
            next.destroy_empty();
            match waiting.pop_front() {
                Some(node) => self = node,
                None => {
                    waiting.destroy_empty();
                    return;
                }
            }
        }
    }
}

// Pushes trees to the stack if there are any and the stack has capacity; then their weight, for any weight h, is added
// to the stack's.
fn keep<'a>(waiting: &mut Vec<&'a [Tree<usize>]>, later: &'a [Tree<usize>]) -> bool
    ensures kept { result ≡ true → (h : List (Tree ℕ) → ℕ) → h [] ≡ 0 → total (λ ts. h ts.now) waiting.new.items ≡ total (λ ts. h ts.now) waiting.old.items + h later.now }
    ensures refused { result ≡ false → waiting.new.items ≡ waiting.old.items }
    ensures longer { length waiting.new.items ≤ length waiting.old.items + 1 }
{
    later.is_empty() || waiting.push(later).is_ok()
}

impl Tree<usize> {
    /// Returns the sum of all values. Visits the nodes with a stack of its own; if that cannot be allocated, it calls
    /// itself for a node that has later siblings.
    ///
    /// # Errors
    /// `Overflow` if and only if the sum exceeds the largest `usize`.
    pub fn sum(&self) -> Result<usize, SumError>
        ensures ok { IfOk result (λ n. n ≡ sum (values_in self.now)) }
        ensures err { OnErr result (2 ^ 64 ≤ sum (values_in self.now)) }
    {
        let mut waiting: Vec<&[Tree<usize>]> = Vec::new(*self.kids.allocator());
        let mut rest = self.kids.as_slice();
        let mut sum = self.value;
        loop {
            match rest.split_first() {
                None => match waiting.pop() {
                    Some(next) => rest = next,
                    None => return Ok(sum),
                },
                Some((node, later)) => {
                    let part = if keep(&mut waiting, later) {
                        rest = node.kids.as_slice();
                        node.value
                    } else {
                        rest = later;
                        node.sum()?
                    };
                    let Some(more) = sum.checked_add(part) else {
                        return Err(SumError::Overflow);
                    };
                    sum = more;
                }
            }
        }
    }
}

/// Copies node by node without a deep stack: a `Vec` holds the nodes above the copied one.
impl<T: Clone> Clone for Tree<T> {
    fn clone(&self) -> Result<Self, AllocError> {
        let alloc = *self.kids.allocator();
        let mut above: Vec<(&Tree<T>, Tree<T>)> = Vec::new(alloc);
        let mut source = self;
        let mut copy = leaf(alloc, &self.value)?;
        loop {
            let done = copy.kids.len();
            if done < source.kids.len() {
                let kid = &source.kids[done];
                let fresh = leaf(alloc, &kid.value)?;
                above.push((source, copy))?;
                source = kid;
                copy = fresh;
            } else {
                let Some((parent, upper)) = above.pop() else {
                    return Ok(copy);
                };
                source = parent;
                copy = with_kid(upper, copy)?;
            }
        }
    }
}

// Returns a tree of one node, with a copy of the value.
fn leaf<T: Clone>(alloc: Global, value: &T) -> Result<Tree<T>, AllocError>
    ensures { IfOk result (λ t. (out-Tree T t).kids.items ≡ []) }
{
    let value = value.clone()?;
    Ok(Tree {
        value,
        kids: Vec::new(alloc),
    })
}

// Returns the tree with one more child after the others.
fn with_kid<T: Drop>(tree: Tree<T>, kid: Tree<T>) -> Result<Tree<T>, AllocError>
    ensures { IfOk result (λ t. length (out-Tree T t).kids.items ≡ length (out-Tree T tree).kids.items + 1) }
{
    let (value, mut kids) = tree.into_parts();
    kids.push(kid)?;
    Ok(Tree { value, kids })
}

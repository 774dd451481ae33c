//! Growth of columns of trees.
ghost use Rattle.std.specs.Prelude.{◌≡◌, ◌+◌, ◌^◌, ◌≤◌, ◌++◌, [], ◌∷◌, List, All, length, take, OnOk, OnErr, IfOk, IfErr, IfSome, IfNone};
ghost use Rattle.columnar_base.specs.Row.{Row};
ghost use Rattle.columnar_base.specs.Change.{Took, Refused, IsTrueOf};
ghost use Rattle.columnar_base.specs.Format.{IsSound, slice, both};
ghost use Rattle.columnar_base.specs.WordViews.{words_in, le_bytes};
ghost use Rattle.columnar_nested.specs.TreeValues.{added_values, added_bounds, values_in};
ghost use Rattle.columnar_nested.specs.Trees.{trees_format, nodes_format, owned_trees};

use super::Trees;
use crate::tree::Tree;
use columnar_base::fault::GrowError;
use columnar_base::storage::{Storage, Truncate};
use columnar_base::traits::{Clear, Item, PushRef};
use std::alloc::Global;
use std::collections::VecDeque;

// Returns where the children of the next node end, if 64 bits can hold it: after the node, the pending nodes and its
// children.
fn bound_of(start: usize, pending: usize, kids: usize) -> Option<u64>
    ensures some { IfSome result (λ b. b ≡ (start + pending + 1) + kids) }
    ensures none { IfNone result (2 ^ 64 ≤ (start + pending + 1) + kids) }
{
    Some(
        start
            .checked_add(pending)?
            .checked_add(1)?
            .checked_add(kids)? as u64,
    )
}

// Appends the nodes of a tree, level by level. If it fails, the old bounds stay in front, and the values may have taken
// some of the nodes' values.
fn lay<T: Item + Drop, TC: PushRef<T> + Truncate>(
    bounds: &mut Vec<u64>,
    values: &mut TC,
    root: Tree<T>,
) -> Result<(), GrowError>
    requires sound { IsSound TC.format (TC.content values.old) }
    requires valid { All T.valid (values_in root) }
    ensures values { OnOk result (Took TC.format (TC.content values.old) (TC.content values.new) (added_values T.meaning (root ∷ []))) }
    ensures bounds { OnOk result (words_in (le_bytes bounds.new.items) ≡ words_in (le_bytes bounds.old.items) ++ added_bounds T.meaning (length (TC.format.rows (TC.content values.old))) (root ∷ [])) }
    ensures begun { (some : List Row) × Took TC.format (TC.content values.old) (TC.content values.new) some }
    ensures kept { take (length bounds.old.items) bounds.new.items ≡ bounds.old.items }
    ensures cause { IfErr result (λ e. IsTrueOf e (nodes_format TC.format) (both (slice (le_bytes bounds.old.items)) (TC.content values.old)) (added_values T.meaning (root ∷ []))) }
{
    let mut waiting = VecDeque::new(*root.kids.allocator());
    waiting.push_back(root)?;
    while let Some(node) = waiting.pop_front() {
        let (value, kids) = node.into_parts();
        let Some(bound) = bound_of(values.len(), waiting.len(), kids.len()) else {
            return Err(GrowError::Length);
        };
        values.push_ref(&value)?;
        bounds.push(bound)?;
        let mut next = VecDeque::from_vec(kids);
        waiting.append(&mut next)?;
    }
    Ok(())
}

impl<TC: Storage> Trees<TC, Vec<u64>> {
    /// Returns a column without trees, whose groups and bounds are a single 0 each.
    ///
    /// # Errors
    /// `Memory`, and no other error.
    pub fn new(alloc: Global) -> Result<Self, GrowError>
        ensures groups { IfOk result (λ t. t.groups.items ≡ 0 ∷ []) }
        ensures bounds { IfOk result (λ t. t.bounds.items ≡ 0 ∷ []) }
        ensures sound { IfOk result (λ t. IsSound (trees_format TC.format) (owned_trees TC.content t)) }
        ensures rows { IfOk result (λ t. (trees_format TC.format).rows (owned_trees TC.content t) ≡ []) }
        ensures memory { IfErr result (λ e. e ≡ GrowError.Memory) }
    {
        let mut groups = Vec::new(alloc);
        let mut bounds = Vec::new(alloc);
        groups.push(0u64)?;
        bounds.push(0u64)?;
        let values = TC::empty(alloc);
        Ok(Trees {
            groups,
            bounds,
            values,
        })
    }
}

impl<TC: Clear> Trees<TC, Vec<u64>> {
    /// Removes all trees; the groups and the bounds are then a single 0 each. Allocates nothing.
    ///
    /// # Requires
    /// A well-formed column.
    pub fn clear(&mut self)
        requires { IsSound (trees_format TC.format) (owned_trees TC.content self.old) }
        ensures groups { self.new.groups.items ≡ 0 ∷ [] }
        ensures bounds { self.new.bounds.items ≡ 0 ∷ [] }
        ensures sound { IsSound (trees_format TC.format) (owned_trees TC.content self.new) }
        ensures rows { (trees_format TC.format).rows (owned_trees TC.content self.new) ≡ [] }
    {
        self.groups.truncate(1);
        self.groups[0] = 0;
        self.bounds.truncate(1);
        self.bounds[0] = 0;
        self.values.clear();
    }
}

impl<TC: Truncate> Trees<TC, Vec<u64>> {
    /// Appends a tree of the same shape, whose values represent those of `tree`. Consumes the tree, even if it refuses
    /// it.
    ///
    /// # Requires
    /// A well-formed column, and a valid tree.
    ///
    /// # Errors
    /// `Memory`; `Length` or `Offset` only if the column cannot hold the values, pushed level by level. The rows and
    /// the lengths of all parts stay.
    pub fn push_tree<T: Item + Drop>(&mut self, tree: Tree<T>) -> Result<(), GrowError>
    where
        TC: PushRef<T>,
        requires sound { IsSound (trees_format TC.format) (owned_trees TC.content self.old) }
        requires valid { ⟦<Tree<T> as Item>⟧.valid tree }
        ensures ok { OnOk result (Took (trees_format TC.format) (owned_trees TC.content self.old) (owned_trees TC.content self.new) (⟦<Tree<T> as Item>⟧.meaning tree ∷ [])) }
        ensures err { IfErr result (λ e. Refused (trees_format TC.format) (owned_trees TC.content self.old) (owned_trees TC.content self.new) (⟦<Tree<T> as Item>⟧.meaning tree ∷ []) e) }
    {
        let bounds = self.bounds.len();
        let values = self.values.len();
        let laid = match lay(&mut self.bounds, &mut self.values, tree) {
            Ok(()) => match self.groups.push(self.values.len() as u64) {
                Ok(()) => return Ok(()),
                Err(_) => GrowError::Memory,
            },
            Err(error) => error,
        };
        self.bounds.truncate(bounds);
        self.values.truncate(values);
        Err(laid)
    }
}

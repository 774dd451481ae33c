//! Laws of trees: when groups and bounds lay out values as trees. No call does anything at run time; its contract is
//! the law.
ghost use Rattle.std.specs.Prelude.{ℕ, List, ◌≡◌, ◌+◌, ◌<◌, ◌↔◌, IsTrue, length};
ghost use Rattle.columnar_base.specs.Row.{Row};
ghost use Rattle.columnar_base.specs.Format.{IsSound};
ghost use Rattle.columnar_base.specs.WordViews.{words_in};
ghost use Rattle.columnar_nested.specs.Forest.{Forest};
ghost use Rattle.columnar_nested.specs.Layout.{IsLayout, IsTreeRule};
ghost use Rattle.columnar_nested.specs.Layouts.{IsOne};
ghost use Rattle.columnar_nested.specs.Pass.{accepts};
ghost use Rattle.columnar_nested.specs.Refs.{IsKidOf, IsWalkFrom};
ghost use Rattle.columnar_nested.specs.TreeRows.{tree_rows};
ghost use Rattle.columnar_nested.specs.Trees.{trees_format, trees_content};

use crate::trees::NodeBounds;
use columnar_base::traits::Column;

/// States that groups and bounds satisfy the rule if and only if exactly one list of trees has them, with these values,
/// as its layout.
pub fn rule_of_one_forest()
    ensures { (groups bounds : List ℕ) (values : List Row) → IsTreeRule groups bounds (length values) ↔ IsOne groups bounds values }
{}

/// States that validation, in one pass over the bounds, decides the rule.
pub fn rule_in_one_walk()
    ensures { (groups bounds : List ℕ) (n : ℕ) → IsTrue (accepts groups bounds n) ↔ IsTreeRule groups bounds n }
{}

/// States that the rows of a well-formed column of trees are the trees that its groups, bounds and values lay out.
pub fn rows_are_the_forest<TC: Column, BC: NodeBounds>()
    ensures { (groups bounds : BC) (values : TC) → IsSound (trees_format TC.format) (trees_content BC.bytes TC.content (record { groups = groups; bounds = bounds; values = values })) → (trees : Forest Row) × (IsLayout trees (words_in (BC.bytes groups)) (words_in (BC.bytes bounds)) (TC.format.rows (TC.content values)) × ((trees_format TC.format).rows (trees_content BC.bytes TC.content (record { groups = groups; bounds = bounds; values = values })) ≡ tree_rows trees)) }
{}

/// States that the number of a child is greater than its parent's, and below the number of nodes.
pub fn kids_come_later()
    ensures { (groups bounds : List ℕ) (n i k : ℕ) → IsTreeRule groups bounds n → i < n → IsKidOf bounds i k → (i < k) × (k < n) }
{}

/// States that a walk down from node `i` takes fewer steps than there are nodes from `i` on.
pub fn walks_down_end()
    ensures { (groups bounds : List ℕ) (n i : ℕ) (walk : List ℕ) → IsTreeRule groups bounds n → i < n → IsWalkFrom bounds i walk → i + length walk < n }
{}

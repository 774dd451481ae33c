//! Laws of lists: when bounds divide values into lists, and which list an array is. No call does anything at run time;
//! its contract is the law.
ghost use Rattle.std.specs.Prelude.{ℕ, List, ◌≡◌, ◌↔◌, IsTrue, length, map};
ghost use Rattle.columnar_base.specs.Row.{Row, list};
ghost use Rattle.columnar_base.specs.Format.{both, IsSound};
ghost use Rattle.columnar_core.specs.Bounds.{rises, numbers};
ghost use Rattle.columnar_lists.specs.Cut.{IsCut};
ghost use Rattle.columnar_lists.specs.Lists.{lists_format};

use columnar_base::element::ArrayItem;
use columnar_base::traits::{Column, Item};

/// States that bounds divide values into lists if and only if, preceded by 0, they never decrease and end at the number
/// of values.
pub fn cut_where_bounds_rise()
    ensures { (bounds : List ℕ) (values : List Row) → IsTrue (rises 0 bounds (length values)) ↔ ((lists : List (List Row)) × IsCut bounds values lists) }
{}

/// States that bounds divide values into lists in only one way.
#[tactic(auto, using(crate::specs::PieceLaws::one_cut))]
pub fn cut_in_one_way()
    ensures { (bounds : List ℕ) (values : List Row) (xs ys : List (List Row)) → IsCut bounds values xs → IsCut bounds values ys → xs ≡ ys }
{}

/// States that the rows of a well-formed column of lists are the lists into which its bounds divide its values.
pub fn rows_are_the_cut<TC: Column, BC: Column>()
    ensures { (bounds : BC) (values : TC) → IsSound (lists_format BC.format TC.format) (both (BC.content bounds) (TC.content values)) → (lists : List (List Row)) × (IsCut (numbers (BC.format.rows (BC.content bounds))) (TC.format.rows (TC.content values)) lists × ((lists_format BC.format TC.format).rows (both (BC.content bounds) (TC.content values)) ≡ map list lists)) }
{}

/// States what `Offsets::rises_to` tests: offsets rise to `end` if and only if they divide any `end` values into lists.
pub fn offsets_cut_any_values()
    ensures { (offsets : List ℕ) (end : ℕ) → IsTrue (rises 0 offsets end) ↔ ((values : List Row) → length values ≡ end → (lists : List (List Row)) × IsCut offsets values lists) }
{}

/// States that the row of an array is the list of its elements' rows.
pub fn array_is_the_list<T: ArrayItem, const N: usize>(_array: &[T; N])
    ensures { ⟦<[T; N] as Item>⟧.meaning _array.now ≡ list (map T.meaning _array.now) }
{}

//! Iterating over lists: the end of each list is found from the end of the one before. So no offset is searched for,
//! even if the offsets are in unary.
ghost use Rattle.std.specs.Prelude.{◌≡◌, ◌+◌, ◌-◌, ◌∷◌, length, slice_get, Some, IfSome, IfNone};
ghost use Rattle.columnar_base.specs.Row.{number};
ghost use Rattle.columnar_base.specs.Format.{both, IsSound};
ghost use Rattle.columnar_core.specs.Bounds.{numbers};
ghost use Rattle.columnar_lists.specs.Lists.{lists_format};
ghost use Rattle.columnar_lists.specs.Walks.{WalkStands};

use columnar_base::traits::{Column, Index, Item, Len};
use columnar_core::offsets::Offsets;
use columnar_core::slice::Slice;

/// The item ranges of consecutive lists.
#[derive(Clone, Copy, Debug, PartialEq, Eq, Drop)]
pub struct Ranges {
    index: usize,
    count: usize,
    start: usize,
}

impl Ranges {
    /// Starts before the first list.
    ///
    /// # Requires
    /// Well-formed bounds.
    pub fn of<BC: Offsets>(bounds: &BC) -> Ranges
        requires { IsSound BC.format (BC.content bounds.now) }
        ensures stands { WalkStands (BC.format.rows (BC.content bounds.now)) result }
        ensures first { result.index ≡ 0 }
    {
        Ranges {
            index: 0,
            count: bounds.len(),
            start: 0,
        }
    }

    /// Returns where the next list starts and ends, or `None` after the last list.
    ///
    /// # Requires
    /// The bounds with which the iteration started, well-formed.
    pub fn next<BC: Offsets>(&mut self, bounds: &BC) -> Option<(usize, usize)>
        requires sound { IsSound BC.format (BC.content bounds.now) }
        requires stands { WalkStands (BC.format.rows (BC.content bounds.now)) self.old }
        ensures lower { IfSome result (λ r. slice_get (0 ∷ numbers (BC.format.rows (BC.content bounds.now))) self.old.index ≡ Some r.0) }
        ensures upper { IfSome result (λ r. slice_get (BC.format.rows (BC.content bounds.now)) self.old.index ≡ Some (number r.1)) }
        ensures onward { IfSome result (λ r. self.new.index ≡ self.old.index + 1) }
        ensures none { IfNone result (self.old.index ≡ length (BC.format.rows (BC.content bounds.now)) × self.new ≡ self.old) }
        ensures stands { WalkStands (BC.format.rows (BC.content bounds.now)) self.new }
    {
        if self.index >= self.count {
            return None;
        }
        let lower = self.start;
        let upper = bounds.offset_after(self.index, lower as u64) as usize;
        self.index += 1;
        self.start = upper;
        Some((lower, upper))
    }

    /// Returns the number of remaining lists.
    pub fn left(&self) -> usize
        ensures { result ≡ self.now.count - self.now.index }
    {
        self.count.saturating_sub(self.index)
    }
}

/// Iterates over lists in order, from their bounds and the column of their items.
#[derive(Drop)]
pub struct ListIter<V: Column, W: Column> {
    values: V,
    bounds: W,
    ranges: Ranges,
    ghost sound: { IsSound (lists_format W.format V.format) (both (W.content bounds) (V.content values)) },
    ghost stands: { WalkStands (W.format.rows (W.content bounds)) ranges },
}

impl<V: Column, W: Offsets> ListIter<V, W> {
    ghost use Rattle.columnar_lists.specs.WalksLeft.{lists_left};

    /// Iterates over all lists.
    ///
    /// # Requires
    /// Parts of a well-formed column of lists.
    pub fn new(bounds: W, values: V) -> Self
        requires { IsSound (lists_format W.format V.format) (both (W.content bounds) (V.content values)) }
        ensures { lists_left result ≡ (lists_format W.format V.format).rows (both (W.content bounds) (V.content values)) }
    {
        let ranges = Ranges::of(&bounds);
        ListIter {
            values,
            bounds,
            ranges,
        }
    }
}

impl<V: Index + Copy, W: Offsets + Drop> Iterator for ListIter<V, W> {
    ghost use Rattle.columnar_base.specs.RowsLeft.{GivesRow};
    ghost use Rattle.columnar_lists.specs.WalksLeft.{lists_left};
    ghost use Rattle.std.specs.Iterator.{item_count, UpTo};
    ghost use Rattle.std.specs.Iterator.SizeHint.{IsWithinCount};

    type Item = Slice<V>;

    ghost next_gives = { GivesRow lists_left ⟦<Slice<V> as Item>⟧.meaning ⟦<Slice<V> as Item>⟧.valid };

    ghost remaining = { item_count lists_left };

    /// Returns the next list, or `None` after the last one, at every further call.
    fn next(&mut self) -> Option<Slice<V>> {
        let Some((lower, upper)) = self.ranges.next(&self.bounds) else {
            return None;
        };
        Some(Slice {
            lower,
            upper,
            slice: self.values,
        })
    }

    /// Returns the number of remaining lists as both bounds.
    fn size_hint(&self) -> (usize, Option<usize>)
        ensures lower { IsWithinCount result.0 (item_count lists_left self.now) }
        ensures upper { IfSome result.1 (UpTo (item_count lists_left self.now)) }
        ensures left { result ≡ (length (lists_left self.now), Some (length (lists_left self.now))) }
    {
        let left = ExactSizeIterator::len(self);
        (left, Some(left))
    }
}

impl<V: Index + Copy, W: Offsets + Drop> ExactSizeIterator for ListIter<V, W> {
    /// Returns the number of remaining lists.
    fn len(&self) -> usize {
        self.ranges.left()
    }
}

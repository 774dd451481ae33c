//! The items of an iterator, pushed as one list.
ghost use Rattle.std.specs.Prelude.{◌≡◌, ℕ, ⊤, List, Option, IfSome, All, map};
ghost use Rattle.std.specs.Iterator.{IsFinite, YieldsFirstBy, item_count};
ghost use Rattle.std.specs.Int.{w8, w16, w32, w64};
ghost use Rattle.std.specs.List.{range_with_len};
ghost use Rattle.std.specs.Slice.Iter.{iter_rest};
ghost use Rattle.columnar_base.specs.Numbers.{unsigned_row};
ghost use Rattle.columnar_base.specs.Row.{Row, list};
ghost use Rattle.columnar_base.specs.RowsLeft.{GivesRow};
ghost use Rattle.columnar_lists.specs.Each.{items_left, range_rows};
ghost use Rattle.columnar_lists.specs.EachLaws.{all_sound, none_needed, range_gives, slice_gives, slice_sound};

use crate::vector::Vecs;
use crate::vector::push::PushRefInto;
use columnar_base::fault::GrowError;
use columnar_base::traits::{Item, Push, PushInto};
use columnar_core::container::Truncate;
use columnar_core::offsets::{Offsets, PushAfter};
use std::ops::Range;
use std::slice::Iter;

/// An iterator whose state determines its remaining items: a range of numbers, a slice's iterator, or `Items`.
pub trait Determined: Iterator<Item: Item> {
    // the rows of the remaining items
    ghost rows: { Self → List Row };

    // what makes all remaining items valid
    ghost sound: { Self → Type 0 };

    // a sound iterator can be called, and ends
    ghost ready: { (s : Self) → sound s → Self.can_next s × IsFinite (Self.remaining s) };

    // a call returns the first remaining item, or `None` if none remains
    ghost gives: { (s : Self) (r : Option Self.Item) (t : Self) → Self.next_gives s r t → YieldsFirstBy Self.Item.meaning rows s r t };

    // a call of a sound iterator returns a valid item, and leaves a sound iterator
    ghost keeps: { (s : Self) (r : Option Self.Item) (t : Self) → Self.next_gives s r t → sound s → IfSome r (λ x. Self.Item.valid x × sound t) };
}

impl Determined for Range<u8> {
    ghost rows = { range_rows (unsigned_row w8) };

    ghost sound = { λ s. ⊤ };

    ghost ready = { λ s h. (tt, tt) };

    ghost gives = { range_gives (unsigned_row w8) };

    ghost keeps = { λ s r t h k. none_needed r };
}

impl Determined for Range<u16> {
    ghost rows = { range_rows (unsigned_row w16) };

    ghost sound = { λ s. ⊤ };

    ghost ready = { λ s h. (tt, tt) };

    ghost gives = { range_gives (unsigned_row w16) };

    ghost keeps = { λ s r t h k. none_needed r };
}

impl Determined for Range<u32> {
    ghost rows = { range_rows (unsigned_row w32) };

    ghost sound = { λ s. ⊤ };

    ghost ready = { λ s h. (tt, tt) };

    ghost gives = { range_gives (unsigned_row w32) };

    ghost keeps = { λ s r t h k. none_needed r };
}

impl Determined for Range<u64> {
    ghost rows = { range_rows (unsigned_row w64) };

    ghost sound = { λ s. ⊤ };

    ghost ready = { λ s h. (tt, tt) };

    ghost gives = { range_gives (unsigned_row w64) };

    ghost keeps = { λ s r t h k. none_needed r };
}

impl Determined for Range<usize> {
    ghost rows = { range_rows (unsigned_row w64) };

    ghost sound = { λ s. ⊤ };

    ghost ready = { λ s h. (tt, tt) };

    ghost gives = { range_gives (unsigned_row w64) };

    ghost keeps = { λ s r t h k. none_needed r };
}

/// Its items are references.
impl<'x, T: Item> Determined for Iter<'x, T> {
    ghost rows = { λ s. map T.meaning (iter_rest s) };

    ghost sound = { λ s. All T.valid (iter_rest s) };

    ghost ready = { λ s h. (tt, tt) };

    ghost gives = { slice_gives T.meaning };

    ghost keeps = { slice_sound T.valid };
}

/// A rule that makes an item for each index.
pub trait ItemAt {
    /// What the rule makes.
    type Made: Item;

    // the row of the item at an index
    ghost makes: { Self → ℕ → Row };

    /// Makes the item at `index`.
    fn item_at(&self, index: usize) -> Self::Made
        ensures row { Self.Made.meaning result ≡ makes self.now index }
        ensures valid { Self.Made.valid result };
}

/// Iterates over the items that a rule makes, from one index to another.
#[derive(Clone, Copy, Drop)]
pub struct Items<F> {
    next: usize,
    end: usize,
    rule: F,
}

impl<F: ItemAt> Items<F> {
    /// Iterates over the items at the indexes 0 to `count - 1`, in order.
    pub fn new(count: usize, rule: F) -> Self
        ensures { items_left F.makes result ≡ map (F.makes rule) (range_with_len 0 count) }
    {
        Items {
            next: 0,
            end: count,
            rule,
        }
    }
}

impl<F: ItemAt + Drop> Iterator for Items<F> {
    type Item = F::Made;

    ghost next_gives = { GivesRow (items_left F.makes) F.Made.meaning F.Made.valid };

    ghost remaining = { item_count (items_left F.makes) };

    /// Makes the next item, or returns `None` after the last one, at every further call.
    fn next(&mut self) -> Option<F::Made> {
        if self.next >= self.end {
            return None;
        }
        let item = self.rule.item_at(self.next);
        self.next += 1;
        Some(item)
    }
}

impl<F: ItemAt + Drop> Determined for Items<F> {
    ghost rows = { items_left F.makes };

    ghost sound = { λ s. ⊤ };

    ghost ready = { λ s h. (tt, tt) };

    ghost gives = { λ s r t h. h.0 };

    ghost keeps = { all_sound (items_left F.makes) F.Made.meaning F.Made.valid };
}

/// The items of an iterator, pushed as one list without a vector of them. `lists.push(Each(0..10u64))` appends the list
/// of the numbers 0 to 9.
#[derive(Drop)]
pub struct Each<I>(pub I);

/// Its row is the list of the rows of all items.
impl<I: Determined> Item for Each<I> {
    ghost meaning = { λ e. list (I.rows e.0) };

    ghost valid = { λ e. I.sound e.0 };

    ghost unbuffered = { I.Item.unbuffered };
}

/// Pushes the items by value.
impl<I: Determined, TC: Truncate + Push<I::Item>, BC: Offsets + PushAfter> PushInto<Vecs<TC, BC>>
    for Each<I> {
    fn push_into(self, column: &mut Vecs<TC, BC>) -> Result<(), GrowError> {
        column.push_iter(self.0)
    }
}

/// Pushes the items of a copy of the iterator.
impl<I: Determined + Copy, TC: Truncate + Push<I::Item>, BC: Offsets + PushAfter> PushRefInto<
    Vecs<TC, BC>,
> for Each<I> {
    fn push_ref_into(&self, column: &mut Vecs<TC, BC>) -> Result<(), GrowError> {
        Each(self.0).push_into(column)
    }
}

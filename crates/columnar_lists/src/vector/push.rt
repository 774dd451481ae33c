//! What can be pushed into a column of lists, each as one list.
ghost use Rattle.std.specs.Prelude.{◌∷◌, ◌+◌, ◌⊎◌, [], List, length, map, All, OnOk, IfErr};
ghost use Rattle.std.specs.Iterator.{IsFinite, HoldsAlong, Drains, Yields};
ghost use Rattle.columnar_base.specs.Row.{list, number};
ghost use Rattle.columnar_base.specs.Format.{IsSound};
ghost use Rattle.columnar_base.specs.Change.{Took, Refused, IsTrueOf};
ghost use Rattle.columnar_base.specs.Room.{WasFull, Leaves};
ghost use Rattle.columnar_lists.specs.Lists.{lists_format};

use super::Vecs;
use crate::arrays::AlwaysValid;
use crate::parts::{end_list, push_list};
use columnar_base::fault::GrowError;
use columnar_base::traits::{Column, Index, Item, Push, PushInto, PushRef};
use columnar_core::container::{ExtendFrom, Truncate};
use columnar_core::offsets::{Offsets, PushAfter};
use columnar_core::slice::Slice;
use smallvec::SmallVec;

// Appends rows that represent all items of the iterator, or none.
fn take_items<I: Iterator<Item: Item> + Drop, TC: Truncate + Push<I::Item>>(
    values: &mut TC,
    items: I,
) -> Result<(), GrowError>
    requires sound { IsSound TC.format (TC.content values.old) }
    requires callable { I.can_next items }
    requires finite { IsFinite (I.remaining items) }
    requires valid { HoldsAlong I.next_gives items (All I.Item.valid) }
    ensures ok { OnOk result ((xs : List I.Item) × (Drains I.next_gives items xs × Took TC.format (TC.content values.old) (TC.content values.new) (map I.Item.meaning xs))) }
    ensures err { IfErr result (λ e. (xs : List I.Item) × (rest : I) × (Yields I.next_gives items xs rest × Refused TC.format (TC.content values.old) (TC.content values.new) (map I.Item.meaning xs) e)) }
    ensures wanted { I.Item.unbuffered → IfErr result (λ e. (xs : List I.Item) × (rest : I) × (Yields I.next_gives items xs rest × (Refused TC.format (TC.content values.old) (TC.content values.new) (map I.Item.meaning xs) e × WasFull (TC.room values.old) (map I.Item.meaning xs) e))) }
    ensures left { OnOk result ((xs : List I.Item) × (Drains I.next_gives items xs × (Took TC.format (TC.content values.old) (TC.content values.new) (map I.Item.meaning xs) × Leaves (TC.room values.old) (TC.room values.new) (map I.Item.meaning xs)))) }
{
    let before = values.len();
    match values.extend(items) {
        Ok(()) => Ok(()),
        Err(error) => {
            values.truncate(before);
            Err(error)
        }
    }
}

impl<TC: Column, BC: Column> Vecs<TC, BC> {
    /// Appends one list, of rows that represent all items of the iterator.
    ///
    /// # Requires
    /// A well-formed column; a finite iterator of valid items that can be called.
    ///
    /// # Errors
    /// That of the values for the items up to the refused one, or of the bounds for the end of the whole list. The rows
    /// and the lengths of all parts stay.
    pub fn push_iter<I: Iterator<Item: Item> + Drop>(&mut self, items: I) -> Result<(), GrowError>
    where
        TC: Truncate + Push<I::Item>,
        BC: Offsets + PushAfter,
        requires sound { IsSound (lists_format BC.format TC.format) (⟦<Vecs<TC, BC> as Column>⟧.content self.old) }
        requires callable { I.can_next items }
        requires finite { IsFinite (I.remaining items) }
        requires valid { HoldsAlong I.next_gives items (All I.Item.valid) }
        ensures ok { OnOk result ((xs : List I.Item) × (Drains I.next_gives items xs × Took (lists_format BC.format TC.format) (⟦<Vecs<TC, BC> as Column>⟧.content self.old) (⟦<Vecs<TC, BC> as Column>⟧.content self.new) (list (map I.Item.meaning xs) ∷ []))) }
        ensures err { IfErr result (λ e. (xs : List I.Item) × (rest : I) × (Yields I.next_gives items xs rest × Refused (lists_format BC.format TC.format) (⟦<Vecs<TC, BC> as Column>⟧.content self.old) (⟦<Vecs<TC, BC> as Column>⟧.content self.new) (list (map I.Item.meaning xs) ∷ []) e)) }
        ensures cause { IfErr result (λ e. (xs : List I.Item) × (((rest : I) × (Yields I.next_gives items xs rest × IsTrueOf e TC.format (TC.content self.old.values) (map I.Item.meaning xs))) ⊎ (Drains I.next_gives items xs × IsTrueOf e BC.format (BC.content self.old.bounds) (number (length (TC.format.rows (TC.content self.old.values)) + length xs) ∷ [])))) }
        ensures wanted { I.Item.unbuffered → IfErr result (λ e. (xs : List I.Item) × (((rest : I) × (Yields I.next_gives items xs rest × WasFull (TC.room self.old.values) (map I.Item.meaning xs) e)) ⊎ (Drains I.next_gives items xs × WasFull (⟦<Vecs<TC, BC> as Column>⟧.room self.old) (list (map I.Item.meaning xs) ∷ []) e))) }
        ensures left { OnOk result ((xs : List I.Item) × (Drains I.next_gives items xs × (Took (lists_format BC.format TC.format) (⟦<Vecs<TC, BC> as Column>⟧.content self.old) (⟦<Vecs<TC, BC> as Column>⟧.content self.new) (list (map I.Item.meaning xs) ∷ []) × Leaves (⟦<Vecs<TC, BC> as Column>⟧.room self.old) (⟦<Vecs<TC, BC> as Column>⟧.room self.new) (list (map I.Item.meaning xs) ∷ [])))) }
    {
        let before = self.values.len();
        take_items(&mut self.values, items)?;
        end_list(&mut self.bounds, &mut self.values, before)
    }
}

/// Takes every item with `PushInto`: ranges of a view, slices, arrays and vectors.
impl<P: PushInto<Vecs<TC, BC>>, TC: Column, BC: Column> Push<P> for Vecs<TC, BC> {
    fn push(&mut self, item: P) -> Result<(), GrowError> {
        item.push_into(self)
    }
}

/// A list that a column of type `C` takes by reference: `PushRef` from the list's side. A column of lists has one impl of
/// `PushRef`, over lists of this trait, which the compiler finds at once at any depth of nesting.
pub trait PushRefInto<C: Column>: Item {
    /// Appends a row that represents this list.
    ///
    /// # Requires
    /// A well-formed column, and a valid list.
    ///
    /// # Errors
    /// As `PushRef::push_ref`.
    fn push_ref_into(&self, column: &mut C) -> Result<(), GrowError>
        requires sound { IsSound C.format (C.content column.old) }
        requires valid { Self.valid self.now }
        ensures ok { OnOk result (Took C.format (C.content column.old) (C.content column.new) (Self.meaning self.now ∷ [])) }
        ensures err { IfErr result (λ e. Refused C.format (C.content column.old) (C.content column.new) (Self.meaning self.now ∷ []) e) }
        ensures wanted { Self.unbuffered → IfErr result (WasFull (C.room column.old) (Self.meaning self.now ∷ [])) }
        ensures left { OnOk result (Leaves (C.room column.old) (C.room column.new) (Self.meaning self.now ∷ [])) };
}

/// Takes every list with `PushRefInto`: ranges of a view, slices, arrays and vectors.
impl<P: PushRefInto<Vecs<TC, BC>>, TC: Column, BC: Column> PushRef<P> for Vecs<TC, BC> {
    fn push_ref(&mut self, item: &P) -> Result<(), GrowError> {
        item.push_ref_into(self)
    }
}

/// Copies the rows of the range at once.
impl<V: Column + Copy, TC: ExtendFrom<V>, BC: Offsets + PushAfter> PushInto<Vecs<TC, BC>>
    for Slice<V> {
    fn push_into(self, column: &mut Vecs<TC, BC>) -> Result<(), GrowError> {
        let before = column.values.len();
        column
            .values
            .extend_from_self(self.slice, self.lower..self.upper)?;
        end_list(&mut column.bounds, &mut column.values, before)
    }
}

/// Pushes the items by reference.
impl<'x, T: Item, TC: Truncate + PushRef<T>, BC: Offsets + PushAfter> PushInto<Vecs<TC, BC>>
    for &'x [T] {
    fn push_into(self, column: &mut Vecs<TC, BC>) -> Result<(), GrowError> {
        push_list(&mut column.bounds, &mut column.values, self)
    }
}

/// Pushes the items by reference.
impl<'x, T: Item, TC: Truncate + PushRef<T>, BC: Offsets + PushAfter> PushInto<Vecs<TC, BC>>
    for &'x Vec<T> {
    fn push_into(self, column: &mut Vecs<TC, BC>) -> Result<(), GrowError> {
        push_list(&mut column.bounds, &mut column.values, self.as_slice())
    }
}

/// Pushes the items by reference, then drops them.
impl<T: Item + Drop, TC: Truncate + PushRef<T>, BC: Offsets + PushAfter> PushInto<Vecs<TC, BC>>
    for Vec<T> {
    fn push_into(self, column: &mut Vecs<TC, BC>) -> Result<(), GrowError> {
        push_list(&mut column.bounds, &mut column.values, self.as_slice())
    }
}

/// Pushes the elements by reference.
impl<
    'x,
    T: AlwaysValid,
    const N: usize,
    TC: Truncate + PushRef<T>,
    BC: Offsets + PushAfter,
> PushInto<Vecs<TC, BC>> for &'x [T; N] {
    fn push_into(self, column: &mut Vecs<TC, BC>) -> Result<(), GrowError> {
        column.push_ref(self)
    }
}

/// Pushes the elements by reference.
impl<
    T: AlwaysValid + Copy,
    const N: usize,
    TC: Truncate + PushRef<T>,
    BC: Offsets + PushAfter,
> PushInto<Vecs<TC, BC>> for [T; N] {
    fn push_into(self, column: &mut Vecs<TC, BC>) -> Result<(), GrowError> {
        column.push_ref(&self)
    }
}

/// Pushes the items by reference.
impl<'x, T: Item, const N: usize, TC: Truncate + PushRef<T>, BC: Offsets + PushAfter> PushInto<
    Vecs<TC, BC>,
> for &'x SmallVec<T, N> {
    fn push_into(self, column: &mut Vecs<TC, BC>) -> Result<(), GrowError> {
        self.as_slice().push_into(column)
    }
}

/// Pushes the items by reference, then drops them.
impl<T: Item + Drop, const N: usize, TC: Truncate + PushRef<T>, BC: Offsets + PushAfter> PushInto<
    Vecs<TC, BC>,
> for SmallVec<T, N> {
    fn push_into(self, column: &mut Vecs<TC, BC>) -> Result<(), GrowError> {
        (&self).push_into(column)
    }
}

impl<'x, T: Item, TC: Truncate + PushRef<T>, BC: Offsets + PushAfter> PushRefInto<Vecs<TC, BC>>
    for &'x [T] {
    fn push_ref_into(&self, column: &mut Vecs<TC, BC>) -> Result<(), GrowError> {
        push_list(&mut column.bounds, &mut column.values, *self)
    }
}

impl<T: Item, TC: Truncate + PushRef<T>, BC: Offsets + PushAfter> PushRefInto<Vecs<TC, BC>>
    for Vec<T> {
    fn push_ref_into(&self, column: &mut Vecs<TC, BC>) -> Result<(), GrowError> {
        column.push_ref(&self.as_slice())
    }
}

impl<
    T: AlwaysValid,
    const N: usize,
    TC: Truncate + PushRef<T>,
    BC: Offsets + PushAfter,
> PushRefInto<Vecs<TC, BC>> for [T; N] {
    fn push_ref_into(&self, column: &mut Vecs<TC, BC>) -> Result<(), GrowError> {
        let items = self.as_slice();
        push_list(&mut column.bounds, &mut column.values, items)
    }
}

impl<T: Item, const N: usize, TC: Truncate + PushRef<T>, BC: Offsets + PushAfter> PushRefInto<
    Vecs<TC, BC>,
> for SmallVec<T, N> {
    fn push_ref_into(&self, column: &mut Vecs<TC, BC>) -> Result<(), GrowError> {
        self.as_slice().push_ref_into(column)
    }
}

impl<V: Column + Copy, TC: ExtendFrom<V>, BC: Offsets + PushAfter> PushRefInto<Vecs<TC, BC>>
    for Slice<V> {
    fn push_ref_into(&self, column: &mut Vecs<TC, BC>) -> Result<(), GrowError> {
        (*self).push_into(column)
    }
}

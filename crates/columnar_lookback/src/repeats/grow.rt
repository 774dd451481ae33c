//! Growth and truncation of columns of repeats.
ghost use Rattle.std.specs.Prelude.{◌≡◌, ◌≢◌, ◌<◌, ◌≤◌, ◌+◌, ◌-◌, [], ◌∷◌, length, take, drop, slice_get, Some, cond, false, OnOk, IfErr};
ghost use Rattle.columnar_base.specs.Row.{Row};
ghost use Rattle.columnar_base.specs.Format.{IsSound};
ghost use Rattle.columnar_base.specs.Change.{Took, Copied, Refused};
ghost use Rattle.columnar_core.specs.Room.{WasFull, Leaves};
ghost use Rattle.columnar_sums.specs.Options.{options_format};
ghost use Rattle.columnar_lookback.specs.Repeats.{last_is, owned_repeats, viewed_repeats, repeats_format, values_between};
ghost use Rattle.columnar_lookback.specs.RepeatLaws.{repeats_lawful, same_repeats};

use super::Repeats;
use crate::same::SameAs;
use columnar_base::fault::GrowError;
use columnar_base::storage::{Reserve, Storage, Truncate};
use columnar_base::traits::{Clear, Column, Index, Item, Len, Push, PushRef};
use columnar_base::tuple::taken_back;
use columnar_base::view::View;
use columnar_core::container::{Borrow, Container, ExtendFrom, Reborrow};
use columnar_sums::marked::{push_marked, push_ref_marked};
use columnar_sums::option::Options;
use std::alloc::Global;
use std::ops::Range;

type Inner<TC> = Options<TC, Vec<u64>, Vec<u64>, [u64; 2]>;

type ViewedInner<'x, V> = Options<V, View<'x, u64>, View<'x, u64>, View<'x, u64>>;

type Viewed<'x, V> = Repeats<V, View<'x, u64>, View<'x, u64>, View<'x, u64>>;

impl<TC: Clear> Clear for Repeats<TC, Vec<u64>, Vec<u64>, [u64; 2]> {
    fn clear(&mut self) {
        self.inner.clear();
    }
}

impl<TC: Truncate> Truncate for Repeats<TC, Vec<u64>, Vec<u64>, [u64; 2]> {
    ghost lawful = { repeats_lawful TC.format TC.lawful };

    fn truncate(&mut self, n: usize) {
        self.inner.truncate(n);
    }
}

impl<TC: Storage> Storage for Repeats<TC, Vec<u64>, Vec<u64>, [u64; 2]> {
    fn empty(alloc: Global) -> Self {
        let inner = Inner::<TC>::empty(alloc);
        Repeats { inner }
    }

    fn duplicate(&self, alloc: Global) -> Result<Self, GrowError> {
        let inner = self.inner.duplicate(alloc)?;
        Ok(Repeats { inner })
    }
}

impl<TC: Reserve> Reserve for Repeats<TC, Vec<u64>, Vec<u64>, [u64; 2]> {
    type Room = <Inner<TC> as Reserve>::Room;

    ghost reserves = { ⊥ };

    ghost covers = { λ r rs. ⊥ };

    fn no_room() -> <Inner<TC> as Reserve>::Room {
        Inner::<TC>::no_room()
    }

    fn reserve_room(&mut self, room: <Inner<TC> as Reserve>::Room) -> Result<(), GrowError> {
        self.inner.reserve_room(room)
    }
}

/// An item that is the same as the last row is stored as `None`, any other as a value.
impl<T: Item + Drop, TC: Truncate + Push<T> + SameAs<T>> Push<T>
    for Repeats<TC, Vec<u64>, Vec<u64>, [u64; 2]> {
    /// Stores the item as a new value, or no value if the item is the same as the last row.
    ///
    /// # Requires
    /// The column is well-formed, and `item` is valid.
    fn push(&mut self, item: T) -> Result<(), GrowError>
        requires sound { IsSound (repeats_format TC.format) (owned_repeats TC.content self.old.inner) }
        requires valid { T.valid item }
        ensures ok { OnOk result (Took (repeats_format TC.format) (owned_repeats TC.content self.old.inner) (owned_repeats TC.content self.new.inner) (T.meaning item ∷ [])) }
        ensures err { IfErr result (λ e. Refused (repeats_format TC.format) (owned_repeats TC.content self.old.inner) (owned_repeats TC.content self.new.inner) (T.meaning item ∷ []) e) }
        ensures wanted { IfErr result (WasFull (⟦<Repeats<TC, Vec<u64>, Vec<u64>, [u64; 2]> as Column>⟧.room self.old) (T.meaning item ∷ [])) }
        ensures left { OnOk result (Leaves (⟦<Repeats<TC, Vec<u64>, Vec<u64>, [u64; 2]> as Column>⟧.room self.old) (⟦<Repeats<TC, Vec<u64>, Vec<u64>, [u64; 2]> as Column>⟧.room self.new) (T.meaning item ∷ [])) }
        ensures stored { OnOk result (length (TC.format.rows (TC.content self.new.inner.somes)) ≡ length (TC.format.rows (TC.content self.old.inner.somes)) + cond (last_is TC.format.kin ((repeats_format TC.format).rows (owned_repeats TC.content self.old.inner)) (T.meaning item)) 0 1) }
        ensures value { OnOk result (last_is TC.format.kin ((repeats_format TC.format).rows (owned_repeats TC.content self.old.inner)) (T.meaning item) ≡ false → Took TC.format (TC.content self.old.inner.somes) (TC.content self.new.inner.somes) (T.meaning item ∷ [])) }
    {
        if self.is_repeated(&item) {
            Push::<Option<T>>::push(&mut self.inner, None)
        } else {
            push_marked(&mut self.inner.somes, item, &mut self.inner.indexes, true)
        }
    }
}

impl<T: Item, TC: Truncate + PushRef<T> + SameAs<T>> PushRef<T>
    for Repeats<TC, Vec<u64>, Vec<u64>, [u64; 2]> {
    /// Stores the item as a new value, or no value if the item is the same as the last row.
    ///
    /// # Requires
    /// The column is well-formed, and `item` is valid.
    fn push_ref(&mut self, item: &T) -> Result<(), GrowError>
        requires sound { IsSound (repeats_format TC.format) (owned_repeats TC.content self.old.inner) }
        requires valid { T.valid item.now }
        ensures ok { OnOk result (Took (repeats_format TC.format) (owned_repeats TC.content self.old.inner) (owned_repeats TC.content self.new.inner) (T.meaning item.now ∷ [])) }
        ensures err { IfErr result (λ e. Refused (repeats_format TC.format) (owned_repeats TC.content self.old.inner) (owned_repeats TC.content self.new.inner) (T.meaning item.now ∷ []) e) }
        ensures wanted { IfErr result (WasFull (⟦<Repeats<TC, Vec<u64>, Vec<u64>, [u64; 2]> as Column>⟧.room self.old) (T.meaning item.now ∷ [])) }
        ensures left { OnOk result (Leaves (⟦<Repeats<TC, Vec<u64>, Vec<u64>, [u64; 2]> as Column>⟧.room self.old) (⟦<Repeats<TC, Vec<u64>, Vec<u64>, [u64; 2]> as Column>⟧.room self.new) (T.meaning item.now ∷ [])) }
        ensures stored { OnOk result (length (TC.format.rows (TC.content self.new.inner.somes)) ≡ length (TC.format.rows (TC.content self.old.inner.somes)) + cond (last_is TC.format.kin ((repeats_format TC.format).rows (owned_repeats TC.content self.old.inner)) (T.meaning item.now)) 0 1) }
        ensures value { OnOk result (last_is TC.format.kin ((repeats_format TC.format).rows (owned_repeats TC.content self.old.inner)) (T.meaning item.now) ≡ false → Took TC.format (TC.content self.old.inner.somes) (TC.content self.new.inner.somes) (T.meaning item.now ∷ [])) }
    {
        if self.is_repeated(item) {
            Push::<bool>::push(&mut self.inner.indexes, false)
        } else {
            push_ref_marked(&mut self.inner.somes, item, &mut self.inner.indexes, true)
        }
    }
}

/// A range that starts at row 0 is copied unchanged into a column without rows. For any other range, the first row is
/// pushed and the inner rows after it are copied; it stores at most one value more than the range has.
impl<'x, V: Index + Copy, TC: ExtendFrom<V> + Push<V::Ref> + SameAs<V::Ref>> ExtendFrom<
    Repeats<V, View<'x, u64>, View<'x, u64>, View<'x, u64>>,
> for Repeats<TC, Vec<u64>, Vec<u64>, [u64; 2]> {
    fn add_room(
        room: <Inner<TC> as Reserve>::Room,
        view: Viewed<'x, V>,
    ) -> <Inner<TC> as Reserve>::Room {
        <Inner<TC> as ExtendFrom<ViewedInner<'x, V>>>::add_room(room, view.inner)
    }

    /// Stores the first row of the range as a value unless it is the same as the last row, and then the range's values
    /// after it. A range that starts at row 0 is stored unchanged in a column without rows.
    ///
    /// # Requires
    /// Both columns are well-formed, and the range is within the view.
    fn extend_from_self(
        &mut self,
        view: Viewed<'x, V>,
        range: Range<usize>,
    ) -> Result<(), GrowError>
        requires sound { IsSound (repeats_format TC.format) (owned_repeats TC.content self.old.inner) }
        requires view_sound { IsSound (repeats_format V.format) (viewed_repeats V.content view.inner) }
        requires ordered { range.start ≤ range.«end» }
        requires in_range { range.«end» ≤ length ((repeats_format V.format).rows (viewed_repeats V.content view.inner)) }
        ensures ok { OnOk result (Copied (repeats_format TC.format) (owned_repeats TC.content self.old.inner) (owned_repeats TC.content self.new.inner) range.start (take (range.«end» - range.start) (drop range.start ((repeats_format V.format).rows (viewed_repeats V.content view.entry.inner))))) }
        ensures err { IfErr result (λ e. Refused (repeats_format TC.format) (owned_repeats TC.content self.old.inner) (owned_repeats TC.content self.new.inner) (take (range.«end» - range.start) (drop range.start ((repeats_format V.format).rows (viewed_repeats V.content view.entry.inner)))) e) }
        ensures wanted { IfErr result (WasFull (⟦<Repeats<TC, Vec<u64>, Vec<u64>, [u64; 2]> as Column>⟧.room self.old) (take (range.«end» - range.start) (drop range.start ((repeats_format V.format).rows (viewed_repeats V.content view.entry.inner))))) }
        ensures left { OnOk result (Leaves (⟦<Repeats<TC, Vec<u64>, Vec<u64>, [u64; 2]> as Column>⟧.room self.old) (⟦<Repeats<TC, Vec<u64>, Vec<u64>, [u64; 2]> as Column>⟧.room self.new) (take (range.«end» - range.start) (drop range.start ((repeats_format V.format).rows (viewed_repeats V.content view.entry.inner))))) }
        ensures stored { OnOk result (length (TC.format.rows (TC.content self.new.inner.somes)) ≤ length (TC.format.rows (TC.content self.old.inner.somes)) + (values_between ((options_format V.format).rows (viewed_repeats V.content view.entry.inner)) range.start range.«end» + 1)) }
        ensures counted { OnOk result ((r : Row) → range.start < range.«end» → slice_get ((repeats_format V.format).rows (viewed_repeats V.content view.entry.inner)) range.start ≡ Some r → ((repeats_format TC.format).rows (owned_repeats TC.content self.old.inner) ≡ [] → range.start ≢ 0) → length (TC.format.rows (TC.content self.new.inner.somes)) ≡ length (TC.format.rows (TC.content self.old.inner.somes)) + cond (last_is TC.format.kin ((repeats_format TC.format).rows (owned_repeats TC.content self.old.inner)) r) 0 1 + values_between ((options_format V.format).rows (viewed_repeats V.content view.entry.inner)) (range.start + 1) range.«end») }
        ensures front { OnOk result ((repeats_format TC.format).rows (owned_repeats TC.content self.old.inner) ≡ [] → range.start ≡ 0 → length (TC.format.rows (TC.content self.new.inner.somes)) ≡ values_between ((options_format V.format).rows (viewed_repeats V.content view.entry.inner)) 0 range.«end») }
    {
        let start = range.start;
        let end = range.end;
        if start >= end {
            return Ok(());
        }
        let before = self.inner.len();
        if before == 0 && start == 0 {
            return self.inner.extend_from_self(view.inner, start..end);
        }
        Push::<V::Ref>::push(self, view.get(start))?;
        match self.inner.extend_from_self(view.inner, start + 1..end) {
            Ok(()) => Ok(()),
            Err(error) => Err(taken_back(self, before, error)),
        }
    }
}

impl<'a, TC: Borrow<'a>> Borrow<'a> for Repeats<TC, Vec<u64>, Vec<u64>, [u64; 2]> {
    type Ref = TC::Ref;

    type Borrowed = Repeats<TC::Borrowed, View<'a, u64>, View<'a, u64>, View<'a, u64>>;

    type Parts = TC::Parts;

    ghost same_format = { same_repeats TC.same_format };

    fn borrow(&'a self) -> Repeats<TC::Borrowed, View<'a, u64>, View<'a, u64>, View<'a, u64>> {
        let inner = self.inner.borrow();
        Repeats { inner }
    }
}

impl<'a, TC: Container<'a> + SameAs<<TC as Borrow<'a>>::Ref>> Container<'a>
    for Repeats<TC, Vec<u64>, Vec<u64>, [u64; 2]> {}

impl<'a, 'b, V: Reborrow<'b>> Reborrow<'b>
    for Repeats<V, View<'a, u64>, View<'a, u64>, View<'a, u64>>
where
    'a: 'b,
{
    type Short = Repeats<V::Short, View<'b, u64>, View<'b, u64>, View<'b, u64>>;

    ghost same_short = { same_repeats V.same_short };

    fn reborrow(self) -> Repeats<V::Short, View<'b, u64>, View<'b, u64>, View<'b, u64>> {
        let Repeats { inner } = self;
        Repeats {
            inner: inner.reborrow(),
        }
    }
}

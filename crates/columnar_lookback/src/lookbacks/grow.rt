//! Growth and truncation of columns of lookbacks.
ghost use Rattle.std.specs.Prelude.{◌≡◌, ◌≢◌, ◌≤◌, ◌+◌, ◌-◌, ◌++◌, [], ◌∷◌, length, take, drop, cond, is_none, None, OnOk, IfErr, IfSome};
ghost use Rattle.columnar_lookback.specs.LookbackLaws.{lookbacks_lawful, same_lookbacks};
ghost use Rattle.std.specs.Int.{to_le_bytes, w8};
ghost use Rattle.columnar_base.specs.Row.{number};
ghost use Rattle.columnar_base.specs.Format.{IsSound};
ghost use Rattle.columnar_base.specs.Change.{Took, Copied, Refused};
ghost use Rattle.columnar_core.specs.Room.{WasFull, Leaves};
ghost use Rattle.columnar_base.specs.Elements.{elements, bytes_format};
ghost use Rattle.columnar_base.specs.Numbers.{unsigned_row_of};
ghost use Rattle.columnar_lookback.specs.Lookbacks.{lookbacks_format, kept_rows, nearest, nearest_each, owned_lookbacks, values_back, viewed_lookbacks};
ghost use Rattle.columnar_base.specs.ElementLaws.{elements_lawful};

use super::Lookbacks;
use crate::same::SameAs;
use columnar_base::fault::GrowError;
use columnar_base::storage::{Reserve, Storage, Truncate};
use columnar_base::traits::{Clear, Column, Index, Item, Len, Push, PushRef};
use columnar_base::tuple::taken_back;
use columnar_base::view::View;
use columnar_core::container::{Borrow, Container, ExtendFrom, Reborrow};
use columnar_sums::marked::{push_marked, push_ref_marked};
use columnar_sums::result::Results;
use std::alloc::Global;
use std::ops::Range;

type Inner<TC> = Results<TC, Vec<u8>, Vec<u64>, Vec<u64>, [u64; 2]>;

type ViewedInner<'x, V> = Results<V, &'x [u8], View<'x, u64>, View<'x, u64>, View<'x, u64>>;

impl<TC: Clear, const N: u8> Clear for Lookbacks<TC, N, Vec<u8>, Vec<u64>, Vec<u64>, [u64; 2]> {
    fn clear(&mut self) {
        self.inner.clear();
    }
}

impl<TC: Truncate, const N: u8> Truncate
    for Lookbacks<TC, N, Vec<u8>, Vec<u64>, Vec<u64>, [u64; 2]> {
    ghost lawful = { lookbacks_lawful TC.format bytes_format TC.lawful (elements_lawful 1 1 (unsigned_row_of w8)) };

    fn truncate(&mut self, n: usize) {
        self.inner.truncate(n);
    }
}

impl<TC: Storage, const N: u8> Storage for Lookbacks<TC, N, Vec<u8>, Vec<u64>, Vec<u64>, [u64; 2]> {
    fn empty(alloc: Global) -> Self {
        let inner = Inner::<TC>::empty(alloc);
        Lookbacks { inner }
    }

    fn duplicate(&self, alloc: Global) -> Result<Self, GrowError> {
        let inner = self.inner.duplicate(alloc)?;
        Ok(Lookbacks { inner })
    }
}

impl<TC: Reserve, const N: u8> Reserve for Lookbacks<TC, N, Vec<u8>, Vec<u64>, Vec<u64>, [u64; 2]> {
    type Room = <Inner<TC> as Reserve>::Room;

    ghost reserves = { ⊥ };

    ghost covers = { λ r rs. ⊥ };

    fn no_room() -> <Inner<TC> as Reserve>::Room {
        Inner::<TC>::no_room()
    }

    fn reserve_room(&mut self, room: <Inner<TC> as Reserve>::Room) -> Result<(), GrowError> {
        self.inner.reserve_room(room)
    }
}

/// An item that is the same as one of the last `N` values is stored as its least distance, any other as a value.
impl<T: Item + Drop, TC: Truncate + Push<T> + SameAs<T>, const N: u8> Push<T>
    for Lookbacks<TC, N, Vec<u8>, Vec<u64>, Vec<u64>, [u64; 2]> {
    /// Stores the least distance at which a value is the same as the item; if there is none, the item as a new value.
    ///
    /// # Requires
    /// The column is well-formed, and `item` is valid.
    fn push(&mut self, item: T) -> Result<(), GrowError>
        requires sound { IsSound (lookbacks_format TC.format bytes_format) (owned_lookbacks TC.content self.old.inner) }
        requires valid { T.valid item }
        ensures ok { OnOk result (Took (lookbacks_format TC.format bytes_format) (owned_lookbacks TC.content self.old.inner) (owned_lookbacks TC.content self.new.inner) (T.meaning item ∷ [])) }
        ensures err { IfErr result (λ e. Refused (lookbacks_format TC.format bytes_format) (owned_lookbacks TC.content self.old.inner) (owned_lookbacks TC.content self.new.inner) (T.meaning item ∷ []) e) }
        ensures wanted { IfErr result (WasFull (⟦<Lookbacks<TC, N, Vec<u8>, Vec<u64>, Vec<u64>, [u64; 2]> as Column>⟧.room self.old) (T.meaning item ∷ [])) }
        ensures left { OnOk result (Leaves (⟦<Lookbacks<TC, N, Vec<u8>, Vec<u64>, Vec<u64>, [u64; 2]> as Column>⟧.room self.old) (⟦<Lookbacks<TC, N, Vec<u8>, Vec<u64>, Vec<u64>, [u64; 2]> as Column>⟧.room self.new) (T.meaning item ∷ [])) }
        ensures stored { OnOk result (length (TC.format.rows (TC.content self.new.inner.oks)) ≡ length (TC.format.rows (TC.content self.old.inner.oks)) + cond (is_none (nearest TC.format.kin N (values_back TC.format (owned_lookbacks TC.content self.old.inner)) (T.meaning item))) 1 0) }
        ensures distance { OnOk result (IfSome (nearest TC.format.kin N (values_back TC.format (owned_lookbacks TC.content self.old.inner)) (T.meaning item)) (λ m. bytes_format.rows (elements (to_le_bytes w8) self.new.inner.errs.items) ≡ bytes_format.rows (elements (to_le_bytes w8) self.old.inner.errs.items) ++ number m ∷ [])) }
        ensures kept { OnOk result (kept_rows TC.format (owned_lookbacks TC.content self.new.inner) ≡ kept_rows TC.format (owned_lookbacks TC.content self.old.inner) ++ nearest TC.format.kin N (values_back TC.format (owned_lookbacks TC.content self.old.inner)) (T.meaning item) ∷ []) }
        ensures value { OnOk result (nearest TC.format.kin N (values_back TC.format (owned_lookbacks TC.content self.old.inner)) (T.meaning item) ≡ None → Took TC.format (TC.content self.old.inner.oks) (TC.content self.new.inner.oks) (T.meaning item ∷ [])) }
    {
        match self.distance_to(&item) {
            Some(back) => Push::<Result<T, u8>>::push(&mut self.inner, Err(back)),
            None => push_marked(&mut self.inner.oks, item, &mut self.inner.indexes, true),
        }
    }
}

impl<T: Item, TC: Truncate + PushRef<T> + SameAs<T>, const N: u8> PushRef<T>
    for Lookbacks<TC, N, Vec<u8>, Vec<u64>, Vec<u64>, [u64; 2]> {
    /// Stores the least distance at which a value is the same as the item; if there is none, the item as a new value.
    ///
    /// # Requires
    /// The column is well-formed, and `item` is valid.
    fn push_ref(&mut self, item: &T) -> Result<(), GrowError>
        requires sound { IsSound (lookbacks_format TC.format bytes_format) (owned_lookbacks TC.content self.old.inner) }
        requires valid { T.valid item.now }
        ensures ok { OnOk result (Took (lookbacks_format TC.format bytes_format) (owned_lookbacks TC.content self.old.inner) (owned_lookbacks TC.content self.new.inner) (T.meaning item.now ∷ [])) }
        ensures err { IfErr result (λ e. Refused (lookbacks_format TC.format bytes_format) (owned_lookbacks TC.content self.old.inner) (owned_lookbacks TC.content self.new.inner) (T.meaning item.now ∷ []) e) }
        ensures wanted { IfErr result (WasFull (⟦<Lookbacks<TC, N, Vec<u8>, Vec<u64>, Vec<u64>, [u64; 2]> as Column>⟧.room self.old) (T.meaning item.now ∷ [])) }
        ensures left { OnOk result (Leaves (⟦<Lookbacks<TC, N, Vec<u8>, Vec<u64>, Vec<u64>, [u64; 2]> as Column>⟧.room self.old) (⟦<Lookbacks<TC, N, Vec<u8>, Vec<u64>, Vec<u64>, [u64; 2]> as Column>⟧.room self.new) (T.meaning item.now ∷ [])) }
        ensures stored { OnOk result (length (TC.format.rows (TC.content self.new.inner.oks)) ≡ length (TC.format.rows (TC.content self.old.inner.oks)) + cond (is_none (nearest TC.format.kin N (values_back TC.format (owned_lookbacks TC.content self.old.inner)) (T.meaning item.now))) 1 0) }
        ensures distance { OnOk result (IfSome (nearest TC.format.kin N (values_back TC.format (owned_lookbacks TC.content self.old.inner)) (T.meaning item.now)) (λ m. bytes_format.rows (elements (to_le_bytes w8) self.new.inner.errs.items) ≡ bytes_format.rows (elements (to_le_bytes w8) self.old.inner.errs.items) ++ number m ∷ [])) }
        ensures kept { OnOk result (kept_rows TC.format (owned_lookbacks TC.content self.new.inner) ≡ kept_rows TC.format (owned_lookbacks TC.content self.old.inner) ++ nearest TC.format.kin N (values_back TC.format (owned_lookbacks TC.content self.old.inner)) (T.meaning item.now) ∷ []) }
        ensures value { OnOk result (nearest TC.format.kin N (values_back TC.format (owned_lookbacks TC.content self.old.inner)) (T.meaning item.now) ≡ None → Took TC.format (TC.content self.old.inner.oks) (TC.content self.new.inner.oks) (T.meaning item.now ∷ [])) }
    {
        match self.distance_to(item) {
            Some(back) => push_marked(&mut self.inner.errs, back, &mut self.inner.indexes, false),
            None => push_ref_marked(&mut self.inner.oks, item, &mut self.inner.indexes, true),
        }
    }
}

/// A range that starts at row 0 is copied unchanged into a column without rows. The rows of any other range are pushed
/// one by one.
impl<
    'x,
    V: Index + Copy,
    TC: ExtendFrom<V> + Push<V::Ref> + SameAs<V::Ref>,
    const N: u8,
> ExtendFrom<Lookbacks<V, N, &'x [u8], View<'x, u64>, View<'x, u64>, View<'x, u64>>>
    for Lookbacks<TC, N, Vec<u8>, Vec<u64>, Vec<u64>, [u64; 2]> {
    fn add_room(
        room: <Inner<TC> as Reserve>::Room,
        view: Lookbacks<V, N, &'x [u8], View<'x, u64>, View<'x, u64>, View<'x, u64>>,
    ) -> <Inner<TC> as Reserve>::Room {
        <Inner<TC> as ExtendFrom<ViewedInner<'x, V>>>::add_room(room, view.inner)
    }

    /// Stores for each row the least distance at which one of the last `N` values is the same; if there is none, a new
    /// value. A range that starts at row 0 is stored unchanged in a column without rows.
    ///
    /// # Requires
    /// Both columns are well-formed, and the range is within the view.
    fn extend_from_self(
        &mut self,
        view: Lookbacks<V, N, &'x [u8], View<'x, u64>, View<'x, u64>, View<'x, u64>>,
        range: Range<usize>,
    ) -> Result<(), GrowError>
        requires sound { IsSound (lookbacks_format TC.format bytes_format) (owned_lookbacks TC.content self.old.inner) }
        requires view_sound { IsSound (lookbacks_format V.format bytes_format) (viewed_lookbacks V.content view.inner.indexes view.inner.oks view.inner.errs.now) }
        requires ordered { range.start ≤ range.«end» }
        requires in_range { range.«end» ≤ length ((lookbacks_format V.format bytes_format).rows (viewed_lookbacks V.content view.inner.indexes view.inner.oks view.inner.errs.now)) }
        ensures ok { OnOk result (Copied (lookbacks_format TC.format bytes_format) (owned_lookbacks TC.content self.old.inner) (owned_lookbacks TC.content self.new.inner) range.start (take (range.«end» - range.start) (drop range.start ((lookbacks_format V.format bytes_format).rows (viewed_lookbacks V.content view.entry.inner.indexes view.entry.inner.oks view.entry.inner.errs.now))))) }
        ensures err { IfErr result (λ e. Refused (lookbacks_format TC.format bytes_format) (owned_lookbacks TC.content self.old.inner) (owned_lookbacks TC.content self.new.inner) (take (range.«end» - range.start) (drop range.start ((lookbacks_format V.format bytes_format).rows (viewed_lookbacks V.content view.entry.inner.indexes view.entry.inner.oks view.entry.inner.errs.now)))) e) }
        ensures wanted { IfErr result (WasFull (⟦<Lookbacks<TC, N, Vec<u8>, Vec<u64>, Vec<u64>, [u64; 2]> as Column>⟧.room self.old) (take (range.«end» - range.start) (drop range.start ((lookbacks_format V.format bytes_format).rows (viewed_lookbacks V.content view.entry.inner.indexes view.entry.inner.oks view.entry.inner.errs.now))))) }
        ensures left { OnOk result (Leaves (⟦<Lookbacks<TC, N, Vec<u8>, Vec<u64>, Vec<u64>, [u64; 2]> as Column>⟧.room self.old) (⟦<Lookbacks<TC, N, Vec<u8>, Vec<u64>, Vec<u64>, [u64; 2]> as Column>⟧.room self.new) (take (range.«end» - range.start) (drop range.start ((lookbacks_format V.format bytes_format).rows (viewed_lookbacks V.content view.entry.inner.indexes view.entry.inner.oks view.entry.inner.errs.now))))) }
        ensures kept { OnOk result (((lookbacks_format TC.format bytes_format).rows (owned_lookbacks TC.content self.old.inner) ≡ [] → range.start ≢ 0) → kept_rows TC.format (owned_lookbacks TC.content self.new.inner) ≡ kept_rows TC.format (owned_lookbacks TC.content self.old.inner) ++ nearest_each TC.format.kin N (values_back TC.format (owned_lookbacks TC.content self.old.inner)) (take (range.«end» - range.start) (drop range.start ((lookbacks_format V.format bytes_format).rows (viewed_lookbacks V.content view.entry.inner.indexes view.entry.inner.oks view.entry.inner.errs.now))))) }
        ensures front { OnOk result ((lookbacks_format TC.format bytes_format).rows (owned_lookbacks TC.content self.old.inner) ≡ [] → range.start ≡ 0 → kept_rows TC.format (owned_lookbacks TC.content self.new.inner) ≡ take (range.«end» - range.start) (drop range.start (kept_rows V.format (viewed_lookbacks V.content view.entry.inner.indexes view.entry.inner.oks view.entry.inner.errs.now)))) }
    {
        let start = range.start;
        let end = range.end;
        let before = self.inner.len();
        if before == 0 && start == 0 {
            return self.inner.extend_from_self(view.inner, start..end);
        }
        for i in start..end {
            if let Err(error) = Push::<V::Ref>::push(self, view.get(i)) {
                return Err(taken_back(self, before, error));
            }
        }
        Ok(())
    }
}

impl<'a, TC: Borrow<'a>, const N: u8> Borrow<'a>
    for Lookbacks<TC, N, Vec<u8>, Vec<u64>, Vec<u64>, [u64; 2]> {
    type Ref = TC::Ref;

    type Borrowed = Lookbacks<
        TC::Borrowed,
        N,
        &'a [u8],
        View<'a, u64>,
        View<'a, u64>,
        View<'a, u64>,
    >;

    type Parts = TC::Parts;

    ghost same_format = { same_lookbacks bytes_format TC.same_format };

    fn borrow(
        &'a self,
    ) -> Lookbacks<TC::Borrowed, N, &'a [u8], View<'a, u64>, View<'a, u64>, View<'a, u64>> {
        let inner = self.inner.borrow();
        Lookbacks { inner }
    }
}

impl<'a, TC: Container<'a> + SameAs<<TC as Borrow<'a>>::Ref>, const N: u8> Container<'a>
    for Lookbacks<TC, N, Vec<u8>, Vec<u64>, Vec<u64>, [u64; 2]> {}

impl<'a, 'b, V: Reborrow<'b>, const N: u8> Reborrow<'b>
    for Lookbacks<V, N, &'a [u8], View<'a, u64>, View<'a, u64>, View<'a, u64>>
where
    'a: 'b,
{
    type Short = Lookbacks<V::Short, N, &'b [u8], View<'b, u64>, View<'b, u64>, View<'b, u64>>;

    ghost same_short = { same_lookbacks bytes_format V.same_short };

    fn reborrow(
        self,
    ) -> Lookbacks<V::Short, N, &'b [u8], View<'b, u64>, View<'b, u64>, View<'b, u64>> {
        let Lookbacks { inner } = self;
        Lookbacks {
            inner: inner.reborrow(),
        }
    }
}

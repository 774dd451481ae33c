// Made by .ci/widths.py: change .ci/widths/base.template, and not this file.
//! Tuples of five columns of equal length.
ghost use Rattle.std.specs.Prelude.{◌≡◌, List, [], ◌∷◌, OnOk, IfErr};
ghost use Rattle.columnar_base.specs.Row.{tuple};
ghost use Rattle.columnar_base.specs.Format.{both, IsSound};
ghost use Rattle.columnar_base.specs.Change.{Refused};
ghost use Rattle.columnar_base.specs.TupleLaws.{pair_lawful};
ghost use Rattle.columnar_base.specs.LongTuples.{nested, tuple_format};
ghost use Rattle.columnar_base.specs.LongTupleLaws.{tuple_lawful};
ghost use Rattle.columnar_base.specs.Entries.{Entered, Level, joined_entry};
ghost use Rattle.columnar_base.specs.Room.{WasFull, Leaves, pair_room};

use crate::fault::GrowError;
use crate::storage::{Reserve, Storage, Truncate};
use crate::traits::{Clear, Column, Index, Item, Len, Push, PushInto, PushRef};
use crate::tuple::four::enter_four;
use crate::tuple::{ByRef, ByValue, Enter, duplicate_after, reserve_after, taken_back};
use std::alloc::Global;

/// Its row is the tuple of its parts' rows.
impl<P: Item, Q: Item, R: Item, S: Item, T: Item> Item for (P, Q, R, S, T) {
    ghost meaning = { λ p. tuple (P.meaning p.0) (tuple (Q.meaning p.1) (tuple (R.meaning p.2) (tuple (S.meaning p.3) (T.meaning p.4)))) };

    ghost valid = { λ p. P.valid p.0 × (Q.valid p.1 × (R.valid p.2 × (S.valid p.3 × T.valid p.4))) };

    ghost unbuffered = { P.unbuffered × (Q.unbuffered × (R.unbuffered × (S.unbuffered × T.unbuffered))) };
}

/// The slices of the parts in order. Each row is the tuple of the parts' rows.
impl<A: Column, B: Column, C: Column, D: Column, E: Column> Column for (A, B, C, D, E) {
    ghost format = { tuple_format A.format B.format (C.format ∷ D.format ∷ E.format ∷ []) };

    ghost content = { λ c. both (A.content c.0) (both (B.content c.1) (both (C.content c.2) (both (D.content c.3) (E.content c.4)))) };

    ghost room = { λ c. pair_room (A.room c.0) (pair_room (B.room c.1) (pair_room (C.room c.2) (pair_room (D.room c.3) (E.room c.4)))) };
}

impl<A: Len, B: Column, C: Column, D: Column, E: Column> Len for (A, B, C, D, E) {
    fn len(&self) -> usize {
        self.0.len()
    }
}

impl<A: Index, B: Index, C: Index, D: Index, E: Index> Index for (A, B, C, D, E) {
    type Ref = (A::Ref, B::Ref, C::Ref, D::Ref, E::Ref);

    fn get(&self, index: usize) -> (A::Ref, B::Ref, C::Ref, D::Ref, E::Ref) {
        let first = self.0.get(index);
        let second = self.1.get(index);
        let third = self.2.get(index);
        let fourth = self.3.get(index);
        let fifth = self.4.get(index);
        (first, second, third, fourth, fifth)
    }
}

/// Reads rows through a reference: each row is the tuple of the parts' rows, read through references.
impl<'a, A, B, C, D, E> Index for &'a (A, B, C, D, E)
where
    A: Column,
    B: Column,
    C: Column,
    D: Column,
    E: Column,
    &'a A: Index,
    &'a B: Index,
    &'a C: Index,
    &'a D: Index,
    &'a E: Index,
{
    type Ref = (
        <&'a A as Index>::Ref,
        <&'a B as Index>::Ref,
        <&'a C as Index>::Ref,
        <&'a D as Index>::Ref,
        <&'a E as Index>::Ref,
    );

    fn get(
        &self,
        index: usize,
    ) -> (
        <&'a A as Index>::Ref,
        <&'a B as Index>::Ref,
        <&'a C as Index>::Ref,
        <&'a D as Index>::Ref,
        <&'a E as Index>::Ref,
    ) {
        let column: &'a (A, B, C, D, E) = *self;
        let first: &'a A = &column.0;
        let second: &'a B = &column.1;
        let third: &'a C = &column.2;
        let fourth: &'a D = &column.3;
        let fifth: &'a E = &column.4;
        (
            first.get(index),
            second.get(index),
            third.get(index),
            fourth.get(index),
            fifth.get(index),
        )
    }
}

impl<A: Clear, B: Clear, C: Clear, D: Clear, E: Clear> Clear for (A, B, C, D, E) {
    fn clear(&mut self) {
        self.0.clear();
        self.1.clear();
        self.2.clear();
        self.3.clear();
        self.4.clear();
    }
}

impl<A: Truncate, B: Truncate, C: Truncate, D: Truncate, E: Truncate> Truncate for (A, B, C, D, E) {
    ghost lawful = { tuple_lawful A.format B.format (C.format ∷ D.format ∷ E.format ∷ []) (pair_lawful A.format (nested B.format (C.format ∷ D.format ∷ E.format ∷ [])) A.lawful (pair_lawful B.format (nested C.format (D.format ∷ E.format ∷ [])) B.lawful (pair_lawful C.format (nested D.format (E.format ∷ [])) C.lawful (pair_lawful D.format (nested E.format ([])) D.lawful E.lawful)))) };

    fn truncate(&mut self, n: usize) {
        self.0.truncate(n);
        self.1.truncate(n);
        self.2.truncate(n);
        self.3.truncate(n);
        self.4.truncate(n);
    }
}

impl<A: Storage, B: Storage, C: Storage, D: Storage, E: Storage> Storage for (A, B, C, D, E) {
    fn empty(alloc: Global) -> Self {
        let first = A::empty(alloc);
        let second = B::empty(alloc);
        let third = C::empty(alloc);
        let fourth = D::empty(alloc);
        let fifth = E::empty(alloc);
        (first, second, third, fourth, fifth)
    }

    fn duplicate(&self, alloc: Global) -> Result<Self, GrowError> {
        let parts = self.0.duplicate(alloc);
        let parts = duplicate_after(parts, &self.1, alloc);
        let parts = duplicate_after(parts, &self.2, alloc);
        let parts = duplicate_after(parts, &self.3, alloc);
        let parts = duplicate_after(parts, &self.4, alloc);
        let ((((first, second), third), fourth), fifth) = parts?;
        Ok((first, second, third, fourth, fifth))
    }
}

impl<A: Reserve, B: Reserve, C: Reserve, D: Reserve, E: Reserve> Reserve for (A, B, C, D, E) {
    type Room = (A::Room, B::Room, C::Room, D::Room, E::Room);

    ghost reserves = { A.reserves × (B.reserves × (C.reserves × (D.reserves × E.reserves))) };

    ghost covers = { λ r. pair_room (A.covers r.0) (pair_room (B.covers r.1) (pair_room (C.covers r.2) (pair_room (D.covers r.3) (E.covers r.4)))) };

    fn no_room() -> (A::Room, B::Room, C::Room, D::Room, E::Room) {
        (
            A::no_room(),
            B::no_room(),
            C::no_room(),
            D::no_room(),
            E::no_room(),
        )
    }

    fn reserve_room(
        &mut self,
        room: (A::Room, B::Room, C::Room, D::Room, E::Room),
    ) -> Result<(), GrowError> {
        let done = self.0.reserve_room(room.0);
        let done = reserve_after(done, &mut self.1, room.1);
        let done = reserve_after(done, &mut self.2, room.2);
        let done = reserve_after(done, &mut self.3, room.3);
        reserve_after(done, &mut self.4, room.4)
    }
}

/// Takes every item with `PushInto`: tuples of items of the parts, by value or by reference.
impl<Z: PushInto<(A, B, C, D, E)>, A: Column, B: Column, C: Column, D: Column, E: Column> Push<Z>
    for (A, B, C, D, E) {
    #[inline(always)]
    fn push(&mut self, item: Z) -> Result<(), GrowError> {
        item.push_into(self)
    }
}

/// Enters each item or range into its part, for five parts. If one part refuses, none changes.
///
/// # Requires
/// A well-formed tuple, valid entries, and equally many rows for all parts, from the same start.
///
/// # Errors
/// The error of the part that refuses.
#[inline(always)]
pub fn enter_five<
    A: Truncate,
    B: Truncate,
    C: Truncate,
    D: Truncate,
    E: Column,
    P: Enter<A>,
    Q: Enter<B> + Drop,
    R: Enter<C> + Drop,
    S: Enter<D> + Drop,
    T: Enter<E> + Drop,
>(
    first: &mut A,
    second: &mut B,
    third: &mut C,
    fourth: &mut D,
    fifth: &mut E,
    p: P,
    q: Q,
    r: R,
    s: S,
    t: T,
) -> Result<(), GrowError>
    requires sound { IsSound (nested A.format (B.format ∷ C.format ∷ D.format ∷ E.format ∷ [])) (both (A.content first.old) (both (B.content second.old) (both (C.content third.old) (both (D.content fourth.old) (E.content fifth.old))))) }
    requires valid { P.valid p × (Q.valid q × (R.valid r × (S.valid s × T.valid t))) }
    requires level { Level (P.entry p) (Q.entry q ∷ R.entry r ∷ S.entry s ∷ T.entry t ∷ []) }
    ensures ok { OnOk result (Entered (nested A.format (B.format ∷ C.format ∷ D.format ∷ E.format ∷ [])) (both (A.content first.old) (both (B.content second.old) (both (C.content third.old) (both (D.content fourth.old) (E.content fifth.old))))) (both (A.content first.new) (both (B.content second.new) (both (C.content third.new) (both (D.content fourth.new) (E.content fifth.new))))) (joined_entry (P.entry p) (Q.entry q ∷ R.entry r ∷ S.entry s ∷ T.entry t ∷ []))) }
    ensures err { IfErr result (λ e. Refused (nested A.format (B.format ∷ C.format ∷ D.format ∷ E.format ∷ [])) (both (A.content first.old) (both (B.content second.old) (both (C.content third.old) (both (D.content fourth.old) (E.content fifth.old))))) (both (A.content first.new) (both (B.content second.new) (both (C.content third.new) (both (D.content fourth.new) (E.content fifth.new))))) (joined_entry (P.entry p) (Q.entry q ∷ R.entry r ∷ S.entry s ∷ T.entry t ∷ [])).rows e) }
    ensures wanted { P.unbuffered × (Q.unbuffered × (R.unbuffered × (S.unbuffered × T.unbuffered))) → IfErr result (WasFull (pair_room (A.room first.old) (pair_room (B.room second.old) (pair_room (C.room third.old) (pair_room (D.room fourth.old) (E.room fifth.old))))) (joined_entry (P.entry p) (Q.entry q ∷ R.entry r ∷ S.entry s ∷ T.entry t ∷ [])).rows) }
    ensures left { OnOk result (Leaves (pair_room (A.room first.old) (pair_room (B.room second.old) (pair_room (C.room third.old) (pair_room (D.room fourth.old) (E.room fifth.old))))) (pair_room (A.room first.new) (pair_room (B.room second.new) (pair_room (C.room third.new) (pair_room (D.room fourth.new) (E.room fifth.new))))) (joined_entry (P.entry p) (Q.entry q ∷ R.entry r ∷ S.entry s ∷ T.entry t ∷ [])).rows) }
{
    let before = first.len();
    p.enter(first)?;
    match enter_four(second, third, fourth, fifth, q, r, s, t) {
        Ok(()) => Ok(()),
        Err(error) => Err(taken_back(first, before, error)),
    }
}

/// Pushes each field to its part. If one part refuses, none changes.
impl<
    P: Item,
    Q: Item + Drop,
    R: Item + Drop,
    S: Item + Drop,
    T: Item + Drop,
    A: Truncate + Push<P>,
    B: Truncate + Push<Q>,
    C: Truncate + Push<R>,
    D: Truncate + Push<S>,
    E: Push<T>,
> PushInto<(A, B, C, D, E)> for (P, Q, R, S, T) {
    #[inline(always)]
    fn push_into(self, column: &mut (A, B, C, D, E)) -> Result<(), GrowError> {
        let (p, q, r, s, t) = self;
        enter_five(
            &mut column.0,
            &mut column.1,
            &mut column.2,
            &mut column.3,
            &mut column.4,
            ByValue(p),
            ByValue(q),
            ByValue(r),
            ByValue(s),
            ByValue(t),
        )
    }
}

/// Pushes the fields by reference.
impl<
    'x,
    P: Item,
    Q: Item,
    R: Item,
    S: Item,
    T: Item,
    A: Truncate + PushRef<P>,
    B: Truncate + PushRef<Q>,
    C: Truncate + PushRef<R>,
    D: Truncate + PushRef<S>,
    E: PushRef<T>,
> PushInto<(A, B, C, D, E)> for &'x (P, Q, R, S, T) {
    #[inline(always)]
    fn push_into(self, column: &mut (A, B, C, D, E)) -> Result<(), GrowError> {
        column.push_ref(self)
    }
}

impl<
    P: Item,
    Q: Item,
    R: Item,
    S: Item,
    T: Item,
    A: Truncate + PushRef<P>,
    B: Truncate + PushRef<Q>,
    C: Truncate + PushRef<R>,
    D: Truncate + PushRef<S>,
    E: PushRef<T>,
> PushRef<(P, Q, R, S, T)> for (A, B, C, D, E) {
    #[inline(always)]
    fn push_ref(&mut self, item: &(P, Q, R, S, T)) -> Result<(), GrowError> {
        enter_five(
            &mut self.0,
            &mut self.1,
            &mut self.2,
            &mut self.3,
            &mut self.4,
            ByRef(&item.0),
            ByRef(&item.1),
            ByRef(&item.2),
            ByRef(&item.3),
            ByRef(&item.4),
        )
    }
}

/// Splits a tuple of five columns into its parts, each well-formed.
///
/// # Requires
/// A well-formed tuple.
pub fn parts_of_five<A: Column, B: Column, C: Column, D: Column, E: Column>(
    tuple: (A, B, C, D, E),
) -> (A, B, C, D, E)
    requires { IsSound (tuple_format A.format B.format (C.format ∷ D.format ∷ E.format ∷ [])) (both (A.content tuple.0) (both (B.content tuple.1) (both (C.content tuple.2) (both (D.content tuple.3) (E.content tuple.4))))) }
    ensures first { IsSound A.format (A.content result.0) }
    ensures second { IsSound B.format (B.content result.1) }
    ensures third { IsSound C.format (C.content result.2) }
    ensures fourth { IsSound D.format (D.content result.3) }
    ensures fifth { IsSound E.format (E.content result.4) }
    ensures tuple { result ≡ tuple }
{
    tuple
}

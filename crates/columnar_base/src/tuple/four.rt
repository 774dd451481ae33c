// Made by .ci/widths.py: change .ci/widths/base.template, and not this file.
//! Tuples of four columns of equal length.
ghost use Rattle.std.specs.Prelude.{◌≡◌, List, [], ◌∷◌, OnOk, IfErr};
ghost use Rattle.columnar_base.specs.Row.{tuple};
ghost use Rattle.columnar_base.specs.Format.{both, IsSound};
ghost use Rattle.columnar_base.specs.Change.{Refused};
ghost use Rattle.columnar_base.specs.TupleLaws.{pair_lawful};
ghost use Rattle.columnar_base.specs.LongTuples.{nested, tuple_format};
ghost use Rattle.columnar_base.specs.LongTupleLaws.{tuple_lawful};
ghost use Rattle.columnar_base.specs.Entries.{Entered, Level, joined_entry};
ghost use Rattle.columnar_base.specs.Room.{WasFull, Leaves, pair_room};

use crate::fault::GrowError;
use crate::storage::{Reserve, Storage, Truncate};
use crate::traits::{Clear, Column, Index, Item, Len, Push, PushInto, PushRef};
use crate::tuple::three::enter_three;
use crate::tuple::{ByRef, ByValue, Enter, duplicate_after, reserve_after, taken_back};
use std::alloc::Global;

/// Its row is the tuple of its parts' rows.
impl<P: Item, Q: Item, R: Item, S: Item> Item for (P, Q, R, S) {
    ghost meaning = { λ p. tuple (P.meaning p.0) (tuple (Q.meaning p.1) (tuple (R.meaning p.2) (S.meaning p.3))) };

    ghost valid = { λ p. P.valid p.0 × (Q.valid p.1 × (R.valid p.2 × S.valid p.3)) };

    ghost unbuffered = { P.unbuffered × (Q.unbuffered × (R.unbuffered × S.unbuffered)) };
}

/// The slices of the parts in order. Each row is the tuple of the parts' rows.
impl<A: Column, B: Column, C: Column, D: Column> Column for (A, B, C, D) {
    ghost format = { tuple_format A.format B.format (C.format ∷ D.format ∷ []) };

    ghost content = { λ c. both (A.content c.0) (both (B.content c.1) (both (C.content c.2) (D.content c.3))) };

    ghost room = { λ c. pair_room (A.room c.0) (pair_room (B.room c.1) (pair_room (C.room c.2) (D.room c.3))) };
}

impl<A: Len, B: Column, C: Column, D: Column> Len for (A, B, C, D) {
    fn len(&self) -> usize {
        self.0.len()
    }
}

impl<A: Index, B: Index, C: Index, D: Index> Index for (A, B, C, D) {
    type Ref = (A::Ref, B::Ref, C::Ref, D::Ref);

    fn get(&self, index: usize) -> (A::Ref, B::Ref, C::Ref, D::Ref) {
        let first = self.0.get(index);
        let second = self.1.get(index);
        let third = self.2.get(index);
        let fourth = self.3.get(index);
        (first, second, third, fourth)
    }
}

/// Reads rows through a reference: each row is the tuple of the parts' rows, read through references.
impl<'a, A, B, C, D> Index for &'a (A, B, C, D)
where
    A: Column,
    B: Column,
    C: Column,
    D: Column,
    &'a A: Index,
    &'a B: Index,
    &'a C: Index,
    &'a D: Index,
{
    type Ref = (
        <&'a A as Index>::Ref,
        <&'a B as Index>::Ref,
        <&'a C as Index>::Ref,
        <&'a D as Index>::Ref,
    );

    fn get(
        &self,
        index: usize,
    ) -> (
        <&'a A as Index>::Ref,
        <&'a B as Index>::Ref,
        <&'a C as Index>::Ref,
        <&'a D as Index>::Ref,
    ) {
        let column: &'a (A, B, C, D) = *self;
        let first: &'a A = &column.0;
        let second: &'a B = &column.1;
        let third: &'a C = &column.2;
        let fourth: &'a D = &column.3;
        (
            first.get(index),
            second.get(index),
            third.get(index),
            fourth.get(index),
        )
    }
}

impl<A: Clear, B: Clear, C: Clear, D: Clear> Clear for (A, B, C, D) {
    fn clear(&mut self) {
        self.0.clear();
        self.1.clear();
        self.2.clear();
        self.3.clear();
    }
}

impl<A: Truncate, B: Truncate, C: Truncate, D: Truncate> Truncate for (A, B, C, D) {
    ghost lawful = { tuple_lawful A.format B.format (C.format ∷ D.format ∷ []) (pair_lawful A.format (nested B.format (C.format ∷ D.format ∷ [])) A.lawful (pair_lawful B.format (nested C.format (D.format ∷ [])) B.lawful (pair_lawful C.format (nested D.format ([])) C.lawful D.lawful))) };

    fn truncate(&mut self, n: usize) {
        self.0.truncate(n);
        self.1.truncate(n);
        self.2.truncate(n);
        self.3.truncate(n);
    }
}

impl<A: Storage, B: Storage, C: Storage, D: Storage> Storage for (A, B, C, D) {
    fn empty(alloc: Global) -> Self {
        let first = A::empty(alloc);
        let second = B::empty(alloc);
        let third = C::empty(alloc);
        let fourth = D::empty(alloc);
        (first, second, third, fourth)
    }

    fn duplicate(&self, alloc: Global) -> Result<Self, GrowError> {
        let parts = self.0.duplicate(alloc);
        let parts = duplicate_after(parts, &self.1, alloc);
        let parts = duplicate_after(parts, &self.2, alloc);
        let parts = duplicate_after(parts, &self.3, alloc);
        let (((first, second), third), fourth) = parts?;
        Ok((first, second, third, fourth))
    }
}

impl<A: Reserve, B: Reserve, C: Reserve, D: Reserve> Reserve for (A, B, C, D) {
    type Room = (A::Room, B::Room, C::Room, D::Room);

    ghost reserves = { A.reserves × (B.reserves × (C.reserves × D.reserves)) };

    ghost covers = { λ r. pair_room (A.covers r.0) (pair_room (B.covers r.1) (pair_room (C.covers r.2) (D.covers r.3))) };

    fn no_room() -> (A::Room, B::Room, C::Room, D::Room) {
        (A::no_room(), B::no_room(), C::no_room(), D::no_room())
    }

    fn reserve_room(
        &mut self,
        room: (A::Room, B::Room, C::Room, D::Room),
    ) -> Result<(), GrowError> {
        let done = self.0.reserve_room(room.0);
        let done = reserve_after(done, &mut self.1, room.1);
        let done = reserve_after(done, &mut self.2, room.2);
        reserve_after(done, &mut self.3, room.3)
    }
}

/// Takes every item with `PushInto`: tuples of items of the parts, by value or by reference.
impl<Z: PushInto<(A, B, C, D)>, A: Column, B: Column, C: Column, D: Column> Push<Z>
    for (A, B, C, D) {
    #[inline(always)]
    fn push(&mut self, item: Z) -> Result<(), GrowError> {
        item.push_into(self)
    }
}

/// Enters each item or range into its part, for four parts. If one part refuses, none changes.
///
/// # Requires
/// A well-formed tuple, valid entries, and equally many rows for all parts, from the same start.
///
/// # Errors
/// The error of the part that refuses.
#[inline(always)]
pub fn enter_four<
    A: Truncate,
    B: Truncate,
    C: Truncate,
    D: Column,
    P: Enter<A>,
    Q: Enter<B> + Drop,
    R: Enter<C> + Drop,
    S: Enter<D> + Drop,
>(
    first: &mut A,
    second: &mut B,
    third: &mut C,
    fourth: &mut D,
    p: P,
    q: Q,
    r: R,
    s: S,
) -> Result<(), GrowError>
    requires sound { IsSound (nested A.format (B.format ∷ C.format ∷ D.format ∷ [])) (both (A.content first.old) (both (B.content second.old) (both (C.content third.old) (D.content fourth.old)))) }
    requires valid { P.valid p × (Q.valid q × (R.valid r × S.valid s)) }
    requires level { Level (P.entry p) (Q.entry q ∷ R.entry r ∷ S.entry s ∷ []) }
    ensures ok { OnOk result (Entered (nested A.format (B.format ∷ C.format ∷ D.format ∷ [])) (both (A.content first.old) (both (B.content second.old) (both (C.content third.old) (D.content fourth.old)))) (both (A.content first.new) (both (B.content second.new) (both (C.content third.new) (D.content fourth.new)))) (joined_entry (P.entry p) (Q.entry q ∷ R.entry r ∷ S.entry s ∷ []))) }
    ensures err { IfErr result (λ e. Refused (nested A.format (B.format ∷ C.format ∷ D.format ∷ [])) (both (A.content first.old) (both (B.content second.old) (both (C.content third.old) (D.content fourth.old)))) (both (A.content first.new) (both (B.content second.new) (both (C.content third.new) (D.content fourth.new)))) (joined_entry (P.entry p) (Q.entry q ∷ R.entry r ∷ S.entry s ∷ [])).rows e) }
    ensures wanted { P.unbuffered × (Q.unbuffered × (R.unbuffered × S.unbuffered)) → IfErr result (WasFull (pair_room (A.room first.old) (pair_room (B.room second.old) (pair_room (C.room third.old) (D.room fourth.old)))) (joined_entry (P.entry p) (Q.entry q ∷ R.entry r ∷ S.entry s ∷ [])).rows) }
    ensures left { OnOk result (Leaves (pair_room (A.room first.old) (pair_room (B.room second.old) (pair_room (C.room third.old) (D.room fourth.old)))) (pair_room (A.room first.new) (pair_room (B.room second.new) (pair_room (C.room third.new) (D.room fourth.new)))) (joined_entry (P.entry p) (Q.entry q ∷ R.entry r ∷ S.entry s ∷ [])).rows) }
{
    let before = first.len();
    p.enter(first)?;
    match enter_three(second, third, fourth, q, r, s) {
        Ok(()) => Ok(()),
        Err(error) => Err(taken_back(first, before, error)),
    }
}

/// Pushes each field to its part. If one part refuses, none changes.
impl<
    P: Item,
    Q: Item + Drop,
    R: Item + Drop,
    S: Item + Drop,
    A: Truncate + Push<P>,
    B: Truncate + Push<Q>,
    C: Truncate + Push<R>,
    D: Push<S>,
> PushInto<(A, B, C, D)> for (P, Q, R, S) {
    #[inline(always)]
    fn push_into(self, column: &mut (A, B, C, D)) -> Result<(), GrowError> {
        let (p, q, r, s) = self;
        enter_four(
            &mut column.0,
            &mut column.1,
            &mut column.2,
            &mut column.3,
            ByValue(p),
            ByValue(q),
            ByValue(r),
            ByValue(s),
        )
    }
}

/// Pushes the fields by reference.
impl<
    'x,
    P: Item,
    Q: Item,
    R: Item,
    S: Item,
    A: Truncate + PushRef<P>,
    B: Truncate + PushRef<Q>,
    C: Truncate + PushRef<R>,
    D: PushRef<S>,
> PushInto<(A, B, C, D)> for &'x (P, Q, R, S) {
    #[inline(always)]
    fn push_into(self, column: &mut (A, B, C, D)) -> Result<(), GrowError> {
        column.push_ref(self)
    }
}

impl<
    P: Item,
    Q: Item,
    R: Item,
    S: Item,
    A: Truncate + PushRef<P>,
    B: Truncate + PushRef<Q>,
    C: Truncate + PushRef<R>,
    D: PushRef<S>,
> PushRef<(P, Q, R, S)> for (A, B, C, D) {
    #[inline(always)]
    fn push_ref(&mut self, item: &(P, Q, R, S)) -> Result<(), GrowError> {
        enter_four(
            &mut self.0,
            &mut self.1,
            &mut self.2,
            &mut self.3,
            ByRef(&item.0),
            ByRef(&item.1),
            ByRef(&item.2),
            ByRef(&item.3),
        )
    }
}

/// Splits a tuple of four columns into its parts, each well-formed.
///
/// # Requires
/// A well-formed tuple.
pub fn parts_of_four<A: Column, B: Column, C: Column, D: Column>(
    tuple: (A, B, C, D),
) -> (A, B, C, D)
    requires { IsSound (tuple_format A.format B.format (C.format ∷ D.format ∷ [])) (both (A.content tuple.0) (both (B.content tuple.1) (both (C.content tuple.2) (D.content tuple.3)))) }
    ensures first { IsSound A.format (A.content result.0) }
    ensures second { IsSound B.format (B.content result.1) }
    ensures third { IsSound C.format (C.content result.2) }
    ensures fourth { IsSound D.format (D.content result.3) }
    ensures tuple { result ≡ tuple }
{
    tuple
}

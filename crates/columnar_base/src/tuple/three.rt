// Made by .ci/widths.py: change .ci/widths/base.template, and not this file.
//! Tuples of three columns of equal length.
ghost use Rattle.std.specs.Prelude.{◌≡◌, List, [], ◌∷◌, OnOk, IfErr};
ghost use Rattle.columnar_base.specs.Row.{tuple};
ghost use Rattle.columnar_base.specs.Format.{both, IsSound};
ghost use Rattle.columnar_base.specs.Change.{Refused};
ghost use Rattle.columnar_base.specs.TupleLaws.{pair_lawful};
ghost use Rattle.columnar_base.specs.LongTuples.{nested, tuple_format};
ghost use Rattle.columnar_base.specs.LongTupleLaws.{tuple_lawful};
ghost use Rattle.columnar_base.specs.Entries.{Entered, Level, joined_entry};
ghost use Rattle.columnar_base.specs.Room.{WasFull, Leaves, pair_room};

use crate::fault::GrowError;
use crate::storage::{Reserve, Storage, Truncate};
use crate::traits::{Clear, Column, Index, Item, Len, Push, PushInto, PushRef};
use crate::tuple::{ByRef, ByValue, Enter, duplicate_after, enter_two, reserve_after, taken_back};
use std::alloc::Global;

/// Its row is the tuple of its parts' rows.
impl<P: Item, Q: Item, R: Item> Item for (P, Q, R) {
    ghost meaning = { λ p. tuple (P.meaning p.0) (tuple (Q.meaning p.1) (R.meaning p.2)) };

    ghost valid = { λ p. P.valid p.0 × (Q.valid p.1 × R.valid p.2) };

    ghost unbuffered = { P.unbuffered × (Q.unbuffered × R.unbuffered) };
}

/// The slices of the parts in order. Each row is the tuple of the parts' rows.
impl<A: Column, B: Column, C: Column> Column for (A, B, C) {
    ghost format = { tuple_format A.format B.format (C.format ∷ []) };

    ghost content = { λ c. both (A.content c.0) (both (B.content c.1) (C.content c.2)) };

    ghost room = { λ c. pair_room (A.room c.0) (pair_room (B.room c.1) (C.room c.2)) };
}

impl<A: Len, B: Column, C: Column> Len for (A, B, C) {
    fn len(&self) -> usize {
        self.0.len()
    }
}

impl<A: Index, B: Index, C: Index> Index for (A, B, C) {
    type Ref = (A::Ref, B::Ref, C::Ref);

    fn get(&self, index: usize) -> (A::Ref, B::Ref, C::Ref) {
        let first = self.0.get(index);
        let second = self.1.get(index);
        let third = self.2.get(index);
        (first, second, third)
    }
}

/// Reads rows through a reference: each row is the tuple of the parts' rows, read through references.
impl<'a, A, B, C> Index for &'a (A, B, C)
where
    A: Column,
    B: Column,
    C: Column,
    &'a A: Index,
    &'a B: Index,
    &'a C: Index,
{
    type Ref = (
        <&'a A as Index>::Ref,
        <&'a B as Index>::Ref,
        <&'a C as Index>::Ref,
    );

    fn get(
        &self,
        index: usize,
    ) -> (
        <&'a A as Index>::Ref,
        <&'a B as Index>::Ref,
        <&'a C as Index>::Ref,
    ) {
        let column: &'a (A, B, C) = *self;
        let first: &'a A = &column.0;
        let second: &'a B = &column.1;
        let third: &'a C = &column.2;
        (first.get(index), second.get(index), third.get(index))
    }
}

impl<A: Clear, B: Clear, C: Clear> Clear for (A, B, C) {
    fn clear(&mut self) {
        self.0.clear();
        self.1.clear();
        self.2.clear();
    }
}

impl<A: Truncate, B: Truncate, C: Truncate> Truncate for (A, B, C) {
    ghost lawful = { tuple_lawful A.format B.format (C.format ∷ []) (pair_lawful A.format (nested B.format (C.format ∷ [])) A.lawful (pair_lawful B.format (nested C.format ([])) B.lawful C.lawful)) };

    fn truncate(&mut self, n: usize) {
        self.0.truncate(n);
        self.1.truncate(n);
        self.2.truncate(n);
    }
}

impl<A: Storage, B: Storage, C: Storage> Storage for (A, B, C) {
    fn empty(alloc: Global) -> Self {
        let first = A::empty(alloc);
        let second = B::empty(alloc);
        let third = C::empty(alloc);
        (first, second, third)
    }

    fn duplicate(&self, alloc: Global) -> Result<Self, GrowError> {
        let parts = self.0.duplicate(alloc);
        let parts = duplicate_after(parts, &self.1, alloc);
        let parts = duplicate_after(parts, &self.2, alloc);
        let ((first, second), third) = parts?;
        Ok((first, second, third))
    }
}

impl<A: Reserve, B: Reserve, C: Reserve> Reserve for (A, B, C) {
    type Room = (A::Room, B::Room, C::Room);

    ghost reserves = { A.reserves × (B.reserves × C.reserves) };

    ghost covers = { λ r. pair_room (A.covers r.0) (pair_room (B.covers r.1) (C.covers r.2)) };

    fn no_room() -> (A::Room, B::Room, C::Room) {
        (A::no_room(), B::no_room(), C::no_room())
    }

    fn reserve_room(&mut self, room: (A::Room, B::Room, C::Room)) -> Result<(), GrowError> {
        let done = self.0.reserve_room(room.0);
        let done = reserve_after(done, &mut self.1, room.1);
        reserve_after(done, &mut self.2, room.2)
    }
}

/// Takes every item with `PushInto`: tuples of items of the parts, by value or by reference.
impl<Z: PushInto<(A, B, C)>, A: Column, B: Column, C: Column> Push<Z> for (A, B, C) {
    #[inline(always)]
    fn push(&mut self, item: Z) -> Result<(), GrowError> {
        item.push_into(self)
    }
}

/// Enters each item or range into its part, for three parts. If one part refuses, none changes.
///
/// # Requires
/// A well-formed tuple, valid entries, and equally many rows for all parts, from the same start.
///
/// # Errors
/// The error of the part that refuses.
#[inline(always)]
pub fn enter_three<
    A: Truncate,
    B: Truncate,
    C: Column,
    P: Enter<A>,
    Q: Enter<B> + Drop,
    R: Enter<C> + Drop,
>(first: &mut A, second: &mut B, third: &mut C, p: P, q: Q, r: R) -> Result<(), GrowError>
    requires sound { IsSound (nested A.format (B.format ∷ C.format ∷ [])) (both (A.content first.old) (both (B.content second.old) (C.content third.old))) }
    requires valid { P.valid p × (Q.valid q × R.valid r) }
    requires level { Level (P.entry p) (Q.entry q ∷ R.entry r ∷ []) }
    ensures ok { OnOk result (Entered (nested A.format (B.format ∷ C.format ∷ [])) (both (A.content first.old) (both (B.content second.old) (C.content third.old))) (both (A.content first.new) (both (B.content second.new) (C.content third.new))) (joined_entry (P.entry p) (Q.entry q ∷ R.entry r ∷ []))) }
    ensures err { IfErr result (λ e. Refused (nested A.format (B.format ∷ C.format ∷ [])) (both (A.content first.old) (both (B.content second.old) (C.content third.old))) (both (A.content first.new) (both (B.content second.new) (C.content third.new))) (joined_entry (P.entry p) (Q.entry q ∷ R.entry r ∷ [])).rows e) }
    ensures wanted { P.unbuffered × (Q.unbuffered × R.unbuffered) → IfErr result (WasFull (pair_room (A.room first.old) (pair_room (B.room second.old) (C.room third.old))) (joined_entry (P.entry p) (Q.entry q ∷ R.entry r ∷ [])).rows) }
    ensures left { OnOk result (Leaves (pair_room (A.room first.old) (pair_room (B.room second.old) (C.room third.old))) (pair_room (A.room first.new) (pair_room (B.room second.new) (C.room third.new))) (joined_entry (P.entry p) (Q.entry q ∷ R.entry r ∷ [])).rows) }
{
    let before = first.len();
    p.enter(first)?;
    match enter_two(second, third, q, r) {
        Ok(()) => Ok(()),
        Err(error) => Err(taken_back(first, before, error)),
    }
}

/// Pushes each field to its part. If one part refuses, none changes.
impl<
    P: Item,
    Q: Item + Drop,
    R: Item + Drop,
    A: Truncate + Push<P>,
    B: Truncate + Push<Q>,
    C: Push<R>,
> PushInto<(A, B, C)> for (P, Q, R) {
    #[inline(always)]
    fn push_into(self, column: &mut (A, B, C)) -> Result<(), GrowError> {
        let (p, q, r) = self;
        enter_three(
            &mut column.0,
            &mut column.1,
            &mut column.2,
            ByValue(p),
            ByValue(q),
            ByValue(r),
        )
    }
}

/// Pushes the fields by reference.
impl<
    'x,
    P: Item,
    Q: Item,
    R: Item,
    A: Truncate + PushRef<P>,
    B: Truncate + PushRef<Q>,
    C: PushRef<R>,
> PushInto<(A, B, C)> for &'x (P, Q, R) {
    #[inline(always)]
    fn push_into(self, column: &mut (A, B, C)) -> Result<(), GrowError> {
        column.push_ref(self)
    }
}

impl<
    P: Item,
    Q: Item,
    R: Item,
    A: Truncate + PushRef<P>,
    B: Truncate + PushRef<Q>,
    C: PushRef<R>,
> PushRef<(P, Q, R)> for (A, B, C) {
    #[inline(always)]
    fn push_ref(&mut self, item: &(P, Q, R)) -> Result<(), GrowError> {
        enter_three(
            &mut self.0,
            &mut self.1,
            &mut self.2,
            ByRef(&item.0),
            ByRef(&item.1),
            ByRef(&item.2),
        )
    }
}

/// Splits a tuple of three columns into its parts, each well-formed.
///
/// # Requires
/// A well-formed tuple.
pub fn parts_of_three<A: Column, B: Column, C: Column>(tuple: (A, B, C)) -> (A, B, C)
    requires { IsSound (tuple_format A.format B.format (C.format ∷ [])) (both (A.content tuple.0) (both (B.content tuple.1) (C.content tuple.2))) }
    ensures first { IsSound A.format (A.content result.0) }
    ensures second { IsSound B.format (B.content result.1) }
    ensures third { IsSound C.format (C.content result.2) }
    ensures tuple { result ≡ tuple }
{
    tuple
}

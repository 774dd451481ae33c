// Made by .ci/widths.py: change .ci/widths/core.template, and not this file.
//! Tuples of six containers.
ghost use Rattle.std.specs.Prelude.{◌≡◌, List, [], ◌∷◌};
ghost use Rattle.std.proofs.Common.{ap};
ghost use Rattle.columnar_base.specs.Format.{both, slices_of};
ghost use Rattle.columnar_base.specs.TwoPartsLaws.{two_counted};
ghost use Rattle.columnar_base.specs.TupleLaws.{pair_storable};
ghost use Rattle.columnar_base.specs.LongTuples.{nested};
ghost use Rattle.columnar_base.specs.LongTupleLaws.{same_parts, same_tuple, tuple_storable};

use crate::byte_slice::ByteSlice;
use crate::bytes::{AsBytes, Check, FromBytes, Stored};
use crate::container::{Borrow, Container, ContainerBytes, ExtendFrom, Reborrow, ReborrowRef};
use crate::owned::Owned;
use crate::sides::{check_tuple, judge_tuple};
use crate::store::DecodedStore;
use crate::tuple::FromView;
use columnar_base::fault::{GrowError, StoreFault};
use columnar_base::tally::Tally;
use columnar_base::traits::{Column, Len};
use columnar_base::tuple::six::enter_six;
use std::alloc::Global;
use std::ops::Range;

/// Each part copies the range from its own view. If one part refuses, none changes.
impl<
    P: Column + Copy,
    Q: Column + Copy,
    R: Column + Copy,
    S: Column + Copy,
    T: Column + Copy,
    U: Column + Copy,
    A: ExtendFrom<P>,
    B: ExtendFrom<Q>,
    C: ExtendFrom<R>,
    D: ExtendFrom<S>,
    E: ExtendFrom<T>,
    F: ExtendFrom<U>,
> ExtendFrom<(P, Q, R, S, T, U)> for (A, B, C, D, E, F) {
    fn add_room(
        room: (A::Room, B::Room, C::Room, D::Room, E::Room, F::Room),
        view: (P, Q, R, S, T, U),
    ) -> (A::Room, B::Room, C::Room, D::Room, E::Room, F::Room) {
        (
            A::add_room(room.0, view.0),
            B::add_room(room.1, view.1),
            C::add_room(room.2, view.2),
            D::add_room(room.3, view.3),
            E::add_room(room.4, view.4),
            F::add_room(room.5, view.5),
        )
    }

    fn extend_from_self(
        &mut self,
        view: (P, Q, R, S, T, U),
        range: Range<usize>,
    ) -> Result<(), GrowError> {
        enter_six(
            &mut self.0,
            &mut self.1,
            &mut self.2,
            &mut self.3,
            &mut self.4,
            &mut self.5,
            FromView(view.0, range.start, range.end),
            FromView(view.1, range.start, range.end),
            FromView(view.2, range.start, range.end),
            FromView(view.3, range.start, range.end),
            FromView(view.4, range.start, range.end),
            FromView(view.5, range.start, range.end),
        )
    }
}

/// The view is the tuple of the parts' views.
impl<
    'a,
    A: Borrow<'a>,
    B: Borrow<'a>,
    C: Borrow<'a>,
    D: Borrow<'a>,
    E: Borrow<'a>,
    F: Borrow<'a>,
> Borrow<'a> for (A, B, C, D, E, F) {
    type Ref = (A::Ref, B::Ref, C::Ref, D::Ref, E::Ref, F::Ref);

    type Borrowed = (
        A::Borrowed,
        B::Borrowed,
        C::Borrowed,
        D::Borrowed,
        E::Borrowed,
        F::Borrowed,
    );

    type Parts = (A::Parts, B::Parts, C::Parts, D::Parts, E::Parts, F::Parts);

    ghost same_format = { same_tuple A.same_format B.same_format (same_parts C.same_format (same_parts D.same_format (same_parts E.same_format (ap (λ f. f ∷ []) F.same_format)))) };

    fn borrow(
        &'a self,
    ) -> (
        A::Borrowed,
        B::Borrowed,
        C::Borrowed,
        D::Borrowed,
        E::Borrowed,
        F::Borrowed,
    ) {
        let first = self.0.borrow();
        let second = self.1.borrow();
        let third = self.2.borrow();
        let fourth = self.3.borrow();
        let fifth = self.4.borrow();
        let sixth = self.5.borrow();
        (first, second, third, fourth, fifth, sixth)
    }
}

impl<
    'a,
    A: Container<'a>,
    B: Container<'a>,
    C: Container<'a>,
    D: Container<'a>,
    E: Container<'a>,
    F: Container<'a>,
> Container<'a> for (A, B, C, D, E, F) {}

impl<
    'b,
    A: Reborrow<'b>,
    B: Reborrow<'b>,
    C: Reborrow<'b>,
    D: Reborrow<'b>,
    E: Reborrow<'b>,
    F: Reborrow<'b>,
> Reborrow<'b> for (A, B, C, D, E, F) {
    type Short = (A::Short, B::Short, C::Short, D::Short, E::Short, F::Short);

    ghost same_short = { same_tuple A.same_short B.same_short (same_parts C.same_short (same_parts D.same_short (same_parts E.same_short (ap (λ f. f ∷ []) F.same_short)))) };

    fn reborrow(self) -> (A::Short, B::Short, C::Short, D::Short, E::Short, F::Short) {
        let (first, second, third, fourth, fifth, sixth) = self;
        (
            first.reborrow(),
            second.reborrow(),
            third.reborrow(),
            fourth.reborrow(),
            fifth.reborrow(),
            sixth.reborrow(),
        )
    }
}

impl<
    'b,
    P: ReborrowRef<'b>,
    Q: ReborrowRef<'b>,
    R: ReborrowRef<'b>,
    S: ReborrowRef<'b>,
    T: ReborrowRef<'b>,
    U: ReborrowRef<'b>,
> ReborrowRef<'b> for (P, Q, R, S, T, U) {
    type ShortRef = (
        P::ShortRef,
        Q::ShortRef,
        R::ShortRef,
        S::ShortRef,
        T::ShortRef,
        U::ShortRef,
    );

    fn reborrow_ref(
        self,
    ) -> (
        P::ShortRef,
        Q::ShortRef,
        R::ShortRef,
        S::ShortRef,
        T::ShortRef,
        U::ShortRef,
    ) {
        let (first, second, third, fourth, fifth, sixth) = self;
        (
            first.reborrow_ref(),
            second.reborrow_ref(),
            third.reborrow_ref(),
            fourth.reborrow_ref(),
            fifth.reborrow_ref(),
            sixth.reborrow_ref(),
        )
    }
}

/// The rules of the parts in order, then that all have equally many rows: `Parts`, at the first slice.
impl<A: Stored, B: Stored, C: Stored, D: Stored, E: Stored, F: Stored> Stored
    for (A, B, C, D, E, F) {
    ghost storable = { tuple_storable A.format B.format (C.format ∷ D.format ∷ E.format ∷ F.format ∷ []) (pair_storable A.format (nested B.format (C.format ∷ D.format ∷ E.format ∷ F.format ∷ [])) A.storable (pair_storable B.format (nested C.format (D.format ∷ E.format ∷ F.format ∷ [])) B.storable (pair_storable C.format (nested D.format (E.format ∷ F.format ∷ [])) C.storable (pair_storable D.format (nested E.format (F.format ∷ [])) D.storable (pair_storable E.format (nested F.format ([])) E.storable F.storable))))) };

    ghost counted = { λ c. two_counted (slices_of (A.content c.0)) (slices_of (both (B.content c.1) (both (C.content c.2) (both (D.content c.3) (both (E.content c.4) (F.content c.5)))))) (A.counted c.0) (two_counted (slices_of (B.content c.1)) (slices_of (both (C.content c.2) (both (D.content c.3) (both (E.content c.4) (F.content c.5))))) (B.counted c.1) (two_counted (slices_of (C.content c.2)) (slices_of (both (D.content c.3) (both (E.content c.4) (F.content c.5)))) (C.counted c.2) (two_counted (slices_of (D.content c.3)) (slices_of (both (E.content c.4) (F.content c.5))) (D.counted c.3) (two_counted (slices_of (E.content c.4)) (slices_of (F.content c.5)) (E.counted c.4) (F.counted c.5))))) };

    fn slice_count() -> usize {
        <(A, (B, (C, (D, (E, F)))))>::slice_count()
    }

    fn element_sizes(sizes: &mut Vec<usize>) -> Result<(), GrowError> {
        <(A, (B, (C, (D, (E, F)))))>::element_sizes(sizes)
    }

    fn judge_tallied<L>(
        store: &DecodedStore<'_>,
        offset: usize,
        tally: &mut Tally<L>,
    ) -> Result<(), StoreFault> {
        judge_tuple::<A, (B, (C, (D, (E, (F,))))), L>(store, offset, tally)
    }

    fn rows_in(store: &DecodedStore<'_>, offset: usize) -> usize {
        <(A, (B, (C, (D, (E, F)))))>::rows_in(store, offset)
    }
}

impl<
    A: Check + Len,
    B: Check + Len,
    C: Check + Len,
    D: Check + Len,
    E: Check + Len,
    F: Check + Len,
> Check for (A, B, C, D, E, F) {
    fn check_from_tallied<L>(&self, from: usize, tally: &mut Tally<L>) -> Result<(), StoreFault> {
        check_tuple(
            &(
                &self.0,
                (&self.1, (&self.2, (&self.3, (&self.4, (&self.5,))))),
            ),
            from,
            tally,
        )
    }
}

impl<
    's,
    A: FromBytes<'s>,
    B: FromBytes<'s>,
    C: FromBytes<'s>,
    D: FromBytes<'s>,
    E: FromBytes<'s>,
    F: FromBytes<'s>,
> FromBytes<'s> for (A, B, C, D, E, F) {
    fn from_store(store: &DecodedStore<'s>, offset: &mut usize) -> Self {
        let (first, (second, (third, (fourth, (fifth, sixth))))) = <(
            A,
            (B, (C, (D, (E, F)))),
        )>::from_store(store, offset);
        (first, second, third, fourth, fifth, sixth)
    }
}

impl<
    's,
    A: AsBytes<'s>,
    B: AsBytes<'s>,
    C: AsBytes<'s>,
    D: AsBytes<'s>,
    E: AsBytes<'s>,
    F: AsBytes<'s>,
> AsBytes<'s> for (A, B, C, D, E, F) {
    fn get_byte_slice(&self, index: usize) -> (u64, ByteSlice<'s>) {
        (&self.0, (&self.1, (&self.2, (&self.3, (&self.4, &self.5))))).get_byte_slice(index)
    }
}

/// If a part cannot be loaded, those already loaded are dropped.
impl<
    A: ContainerBytes + Drop,
    B: ContainerBytes + Drop,
    C: ContainerBytes + Drop,
    D: ContainerBytes + Drop,
    E: ContainerBytes + Drop,
    F: ContainerBytes,
> ContainerBytes for (A, B, C, D, E, F) {
    fn byte_slice(&self, index: usize) -> ByteSlice<'_> {
        let later = (Owned(&self.3), (Owned(&self.4), Owned(&self.5)));
        let parts = (Owned(&self.0), (Owned(&self.1), (Owned(&self.2), later)));
        parts.get_byte_slice(index).1
    }

    fn load(alloc: Global, store: &DecodedStore<'_>, offset: usize) -> Result<Self, GrowError> {
        let (first, (second, (third, (fourth, (fifth, sixth))))) = <(
            A,
            (B, (C, (D, (E, F)))),
        )>::load(alloc, store, offset)?;
        Ok((first, second, third, fourth, fifth, sixth))
    }
}

// Made by .ci/widths.py: change .ci/widths/core.template, and not this file.
//! Tuples of seven containers.
ghost use Rattle.std.specs.Prelude.{◌≡◌, List, [], ◌∷◌};
ghost use Rattle.std.proofs.Common.{ap};
ghost use Rattle.columnar_base.specs.Format.{both, slices_of};
ghost use Rattle.columnar_base.specs.TwoPartsLaws.{two_counted};
ghost use Rattle.columnar_base.specs.TupleLaws.{pair_storable};
ghost use Rattle.columnar_base.specs.LongTuples.{nested};
ghost use Rattle.columnar_base.specs.LongTupleLaws.{same_parts, same_tuple, tuple_storable};

use crate::byte_slice::ByteSlice;
use crate::bytes::{AsBytes, Check, FromBytes, Stored};
use crate::container::{Borrow, Container, ContainerBytes, ExtendFrom, Reborrow, ReborrowRef};
use crate::owned::Owned;
use crate::sides::{check_long, judge_tuple};
use crate::store::DecodedStore;
use crate::tuple::FromView;
use columnar_base::fault::{GrowError, StoreFault};
use columnar_base::tally::Tally;
use columnar_base::traits::{Column, Len};
use columnar_base::tuple::seven::enter_seven;
use std::alloc::Global;
use std::ops::Range;

/// Each part copies the range from its own view. If one part refuses, none changes.
impl<
    P: Column + Copy,
    Q: Column + Copy,
    R: Column + Copy,
    S: Column + Copy,
    T: Column + Copy,
    U: Column + Copy,
    V: Column + Copy,
    A: ExtendFrom<P>,
    B: ExtendFrom<Q>,
    C: ExtendFrom<R>,
    D: ExtendFrom<S>,
    E: ExtendFrom<T>,
    F: ExtendFrom<U>,
    G: ExtendFrom<V>,
> ExtendFrom<(P, Q, R, S, T, U, V)> for (A, B, C, D, E, F, G) {
    fn add_room(
        room: (
            A::Room,
            B::Room,
            C::Room,
            D::Room,
            E::Room,
            F::Room,
            G::Room,
        ),
        view: (P, Q, R, S, T, U, V),
    ) -> (
        A::Room,
        B::Room,
        C::Room,
        D::Room,
        E::Room,
        F::Room,
        G::Room,
    ) {
        (
            A::add_room(room.0, view.0),
            B::add_room(room.1, view.1),
            C::add_room(room.2, view.2),
            D::add_room(room.3, view.3),
            E::add_room(room.4, view.4),
            F::add_room(room.5, view.5),
            G::add_room(room.6, view.6),
        )
    }

    fn extend_from_self(
        &mut self,
        view: (P, Q, R, S, T, U, V),
        range: Range<usize>,
    ) -> Result<(), GrowError> {
        enter_seven(
            &mut self.0,
            &mut self.1,
            &mut self.2,
            &mut self.3,
            &mut self.4,
            &mut self.5,
            &mut self.6,
            FromView(view.0, range.start, range.end),
            FromView(view.1, range.start, range.end),
            FromView(view.2, range.start, range.end),
            FromView(view.3, range.start, range.end),
            FromView(view.4, range.start, range.end),
            FromView(view.5, range.start, range.end),
            FromView(view.6, range.start, range.end),
        )
    }
}

/// The view is the tuple of the parts' views.
impl<
    'a,
    A: Borrow<'a>,
    B: Borrow<'a>,
    C: Borrow<'a>,
    D: Borrow<'a>,
    E: Borrow<'a>,
    F: Borrow<'a>,
    G: Borrow<'a>,
> Borrow<'a> for (A, B, C, D, E, F, G) {
    type Ref = (A::Ref, B::Ref, C::Ref, D::Ref, E::Ref, F::Ref, G::Ref);

    type Borrowed = (
        A::Borrowed,
        B::Borrowed,
        C::Borrowed,
        D::Borrowed,
        E::Borrowed,
        F::Borrowed,
        G::Borrowed,
    );

    type Parts = (
        A::Parts,
        B::Parts,
        C::Parts,
        D::Parts,
        E::Parts,
        F::Parts,
        G::Parts,
    );

    ghost same_format = { same_tuple A.same_format B.same_format (same_parts C.same_format (same_parts D.same_format (same_parts E.same_format (same_parts F.same_format (ap (λ f. f ∷ []) G.same_format))))) };

    fn borrow(
        &'a self,
    ) -> (
        A::Borrowed,
        B::Borrowed,
        C::Borrowed,
        D::Borrowed,
        E::Borrowed,
        F::Borrowed,
        G::Borrowed,
    ) {
        let first = self.0.borrow();
        let second = self.1.borrow();
        let third = self.2.borrow();
        let fourth = self.3.borrow();
        let fifth = self.4.borrow();
        let sixth = self.5.borrow();
        let seventh = self.6.borrow();
        (first, second, third, fourth, fifth, sixth, seventh)
    }
}

impl<
    'a,
    A: Container<'a>,
    B: Container<'a>,
    C: Container<'a>,
    D: Container<'a>,
    E: Container<'a>,
    F: Container<'a>,
    G: Container<'a>,
> Container<'a> for (A, B, C, D, E, F, G) {}

impl<
    'b,
    A: Reborrow<'b>,
    B: Reborrow<'b>,
    C: Reborrow<'b>,
    D: Reborrow<'b>,
    E: Reborrow<'b>,
    F: Reborrow<'b>,
    G: Reborrow<'b>,
> Reborrow<'b> for (A, B, C, D, E, F, G) {
    type Short = (
        A::Short,
        B::Short,
        C::Short,
        D::Short,
        E::Short,
        F::Short,
        G::Short,
    );

    ghost same_short = { same_tuple A.same_short B.same_short (same_parts C.same_short (same_parts D.same_short (same_parts E.same_short (same_parts F.same_short (ap (λ f. f ∷ []) G.same_short))))) };

    fn reborrow(
        self,
    ) -> (
        A::Short,
        B::Short,
        C::Short,
        D::Short,
        E::Short,
        F::Short,
        G::Short,
    ) {
        let (first, second, third, fourth, fifth, sixth, seventh) = self;
        (
            first.reborrow(),
            second.reborrow(),
            third.reborrow(),
            fourth.reborrow(),
            fifth.reborrow(),
            sixth.reborrow(),
            seventh.reborrow(),
        )
    }
}

impl<
    'b,
    P: ReborrowRef<'b>,
    Q: ReborrowRef<'b>,
    R: ReborrowRef<'b>,
    S: ReborrowRef<'b>,
    T: ReborrowRef<'b>,
    U: ReborrowRef<'b>,
    V: ReborrowRef<'b>,
> ReborrowRef<'b> for (P, Q, R, S, T, U, V) {
    type ShortRef = (
        P::ShortRef,
        Q::ShortRef,
        R::ShortRef,
        S::ShortRef,
        T::ShortRef,
        U::ShortRef,
        V::ShortRef,
    );

    fn reborrow_ref(
        self,
    ) -> (
        P::ShortRef,
        Q::ShortRef,
        R::ShortRef,
        S::ShortRef,
        T::ShortRef,
        U::ShortRef,
        V::ShortRef,
    ) {
        let (first, second, third, fourth, fifth, sixth, seventh) = self;
        (
            first.reborrow_ref(),
            second.reborrow_ref(),
            third.reborrow_ref(),
            fourth.reborrow_ref(),
            fifth.reborrow_ref(),
            sixth.reborrow_ref(),
            seventh.reborrow_ref(),
        )
    }
}

/// The rules of the parts in order, then that all have equally many rows: `Parts`, at the first slice.
impl<A: Stored, B: Stored, C: Stored, D: Stored, E: Stored, F: Stored, G: Stored> Stored
    for (A, B, C, D, E, F, G) {
    ghost storable = { tuple_storable A.format B.format (C.format ∷ D.format ∷ E.format ∷ F.format ∷ G.format ∷ []) (pair_storable A.format (nested B.format (C.format ∷ D.format ∷ E.format ∷ F.format ∷ G.format ∷ [])) A.storable (pair_storable B.format (nested C.format (D.format ∷ E.format ∷ F.format ∷ G.format ∷ [])) B.storable (pair_storable C.format (nested D.format (E.format ∷ F.format ∷ G.format ∷ [])) C.storable (pair_storable D.format (nested E.format (F.format ∷ G.format ∷ [])) D.storable (pair_storable E.format (nested F.format (G.format ∷ [])) E.storable (pair_storable F.format (nested G.format ([])) F.storable G.storable)))))) };

    ghost counted = { λ c. two_counted (slices_of (A.content c.0)) (slices_of (both (B.content c.1) (both (C.content c.2) (both (D.content c.3) (both (E.content c.4) (both (F.content c.5) (G.content c.6))))))) (A.counted c.0) (two_counted (slices_of (B.content c.1)) (slices_of (both (C.content c.2) (both (D.content c.3) (both (E.content c.4) (both (F.content c.5) (G.content c.6)))))) (B.counted c.1) (two_counted (slices_of (C.content c.2)) (slices_of (both (D.content c.3) (both (E.content c.4) (both (F.content c.5) (G.content c.6))))) (C.counted c.2) (two_counted (slices_of (D.content c.3)) (slices_of (both (E.content c.4) (both (F.content c.5) (G.content c.6)))) (D.counted c.3) (two_counted (slices_of (E.content c.4)) (slices_of (both (F.content c.5) (G.content c.6))) (E.counted c.4) (two_counted (slices_of (F.content c.5)) (slices_of (G.content c.6)) (F.counted c.5) (G.counted c.6)))))) };

    fn slice_count() -> usize {
        <(A, (B, (C, (D, (E, (F, G))))))>::slice_count()
    }

    fn element_sizes(sizes: &mut Vec<usize>) -> Result<(), GrowError> {
        <(A, (B, (C, (D, (E, (F, G))))))>::element_sizes(sizes)
    }

    fn judge_tallied<L>(
        store: &DecodedStore<'_>,
        offset: usize,
        tally: &mut Tally<L>,
    ) -> Result<(), StoreFault> {
        judge_tuple::<A, (B, (C, (D, (E, (F, (G,)))))), L>(store, offset, tally)
    }

    fn rows_in(store: &DecodedStore<'_>, offset: usize) -> usize {
        <(A, (B, (C, (D, (E, (F, G))))))>::rows_in(store, offset)
    }
}

impl<
    A: Check + Len,
    B: Check + Len,
    C: Check + Len,
    D: Check + Len,
    E: Check + Len,
    F: Check + Len,
    G: Check + Len,
> Check for (A, B, C, D, E, F, G) {
    fn check_from_tallied<L>(&self, from: usize, tally: &mut Tally<L>) -> Result<(), StoreFault> {
        let later = (&self.5, (&self.6,));
        check_long(
            &self.0, &self.1, &self.2, &self.3, &self.4, later, from, tally,
        )
    }
}

impl<
    's,
    A: FromBytes<'s>,
    B: FromBytes<'s>,
    C: FromBytes<'s>,
    D: FromBytes<'s>,
    E: FromBytes<'s>,
    F: FromBytes<'s>,
    G: FromBytes<'s>,
> FromBytes<'s> for (A, B, C, D, E, F, G) {
    fn from_store(store: &DecodedStore<'s>, offset: &mut usize) -> Self {
        let (first, (second, (third, (fourth, (fifth, (sixth, seventh)))))) = <(
            A,
            (B, (C, (D, (E, (F, G))))),
        )>::from_store(store, offset);
        (first, second, third, fourth, fifth, sixth, seventh)
    }
}

impl<
    's,
    A: AsBytes<'s>,
    B: AsBytes<'s>,
    C: AsBytes<'s>,
    D: AsBytes<'s>,
    E: AsBytes<'s>,
    F: AsBytes<'s>,
    G: AsBytes<'s>,
> AsBytes<'s> for (A, B, C, D, E, F, G) {
    fn get_byte_slice(&self, index: usize) -> (u64, ByteSlice<'s>) {
        let later = (&self.3, (&self.4, (&self.5, &self.6)));
        (&self.0, (&self.1, (&self.2, later))).get_byte_slice(index)
    }
}

/// If a part cannot be loaded, those already loaded are dropped.
impl<
    A: ContainerBytes + Drop,
    B: ContainerBytes + Drop,
    C: ContainerBytes + Drop,
    D: ContainerBytes + Drop,
    E: ContainerBytes + Drop,
    F: ContainerBytes + Drop,
    G: ContainerBytes,
> ContainerBytes for (A, B, C, D, E, F, G) {
    fn byte_slice(&self, index: usize) -> ByteSlice<'_> {
        let later = (
            Owned(&self.3),
            (Owned(&self.4), (Owned(&self.5), Owned(&self.6))),
        );
        let parts = (Owned(&self.0), (Owned(&self.1), (Owned(&self.2), later)));
        parts.get_byte_slice(index).1
    }

    fn load(alloc: Global, store: &DecodedStore<'_>, offset: usize) -> Result<Self, GrowError> {
        let (first, (second, (third, (fourth, (fifth, (sixth, seventh)))))) = <(
            A,
            (B, (C, (D, (E, (F, G))))),
        )>::load(alloc, store, offset)?;
        Ok((first, second, third, fourth, fifth, sixth, seventh))
    }
}

// Made by .ci/widths.py: change .ci/widths/core.template, and not this file.
//! Tuples of eight containers.
ghost use Rattle.std.specs.Prelude.{◌≡◌, List, [], ◌∷◌};
ghost use Rattle.std.proofs.Common.{ap};
ghost use Rattle.columnar_base.specs.Format.{both, slices_of};
ghost use Rattle.columnar_base.specs.TwoPartsLaws.{two_counted};
ghost use Rattle.columnar_base.specs.TupleLaws.{pair_storable};
ghost use Rattle.columnar_base.specs.LongTuples.{nested};
ghost use Rattle.columnar_base.specs.LongTupleLaws.{same_parts, same_tuple, tuple_storable};

use crate::byte_slice::ByteSlice;
use crate::bytes::{AsBytes, Check, FromBytes, Stored};
use crate::container::{Borrow, Container, ContainerBytes, ExtendFrom, Reborrow, ReborrowRef};
use crate::owned::Owned;
use crate::sides::{check_long, judge_tuple};
use crate::store::DecodedStore;
use crate::tuple::FromView;
use columnar_base::fault::{GrowError, StoreFault};
use columnar_base::tally::Tally;
use columnar_base::traits::{Column, Len};
use columnar_base::tuple::eight::enter_eight;
use std::alloc::Global;
use std::ops::Range;

/// Each part copies the range from its own view. If one part refuses, none changes.
impl<
    P: Column + Copy,
    Q: Column + Copy,
    R: Column + Copy,
    S: Column + Copy,
    T: Column + Copy,
    U: Column + Copy,
    V: Column + Copy,
    W: Column + Copy,
    A: ExtendFrom<P>,
    B: ExtendFrom<Q>,
    C: ExtendFrom<R>,
    D: ExtendFrom<S>,
    E: ExtendFrom<T>,
    F: ExtendFrom<U>,
    G: ExtendFrom<V>,
    H: ExtendFrom<W>,
> ExtendFrom<(P, Q, R, S, T, U, V, W)> for (A, B, C, D, E, F, G, H) {
    fn add_room(
        room: (
            A::Room,
            B::Room,
            C::Room,
            D::Room,
            E::Room,
            F::Room,
            G::Room,
            H::Room,
        ),
        view: (P, Q, R, S, T, U, V, W),
    ) -> (
        A::Room,
        B::Room,
        C::Room,
        D::Room,
        E::Room,
        F::Room,
        G::Room,
        H::Room,
    ) {
        (
            A::add_room(room.0, view.0),
            B::add_room(room.1, view.1),
            C::add_room(room.2, view.2),
            D::add_room(room.3, view.3),
            E::add_room(room.4, view.4),
            F::add_room(room.5, view.5),
            G::add_room(room.6, view.6),
            H::add_room(room.7, view.7),
        )
    }

    fn extend_from_self(
        &mut self,
        view: (P, Q, R, S, T, U, V, W),
        range: Range<usize>,
    ) -> Result<(), GrowError> {
        enter_eight(
            &mut self.0,
            &mut self.1,
            &mut self.2,
            &mut self.3,
            &mut self.4,
            &mut self.5,
            &mut self.6,
            &mut self.7,
            FromView(view.0, range.start, range.end),
            FromView(view.1, range.start, range.end),
            FromView(view.2, range.start, range.end),
            FromView(view.3, range.start, range.end),
            FromView(view.4, range.start, range.end),
            FromView(view.5, range.start, range.end),
            FromView(view.6, range.start, range.end),
            FromView(view.7, range.start, range.end),
        )
    }
}

/// The view is the tuple of the parts' views.
impl<
    'a,
    A: Borrow<'a>,
    B: Borrow<'a>,
    C: Borrow<'a>,
    D: Borrow<'a>,
    E: Borrow<'a>,
    F: Borrow<'a>,
    G: Borrow<'a>,
    H: Borrow<'a>,
> Borrow<'a> for (A, B, C, D, E, F, G, H) {
    type Ref = (
        A::Ref,
        B::Ref,
        C::Ref,
        D::Ref,
        E::Ref,
        F::Ref,
        G::Ref,
        H::Ref,
    );

    type Borrowed = (
        A::Borrowed,
        B::Borrowed,
        C::Borrowed,
        D::Borrowed,
        E::Borrowed,
        F::Borrowed,
        G::Borrowed,
        H::Borrowed,
    );

    type Parts = (
        A::Parts,
        B::Parts,
        C::Parts,
        D::Parts,
        E::Parts,
        F::Parts,
        G::Parts,
        H::Parts,
    );

    ghost same_format = { same_tuple A.same_format B.same_format (same_parts C.same_format (same_parts D.same_format (same_parts E.same_format (same_parts F.same_format (same_parts G.same_format (ap (λ f. f ∷ []) H.same_format)))))) };

    fn borrow(
        &'a self,
    ) -> (
        A::Borrowed,
        B::Borrowed,
        C::Borrowed,
        D::Borrowed,
        E::Borrowed,
        F::Borrowed,
        G::Borrowed,
        H::Borrowed,
    ) {
        let first = self.0.borrow();
        let second = self.1.borrow();
        let third = self.2.borrow();
        let fourth = self.3.borrow();
        let fifth = self.4.borrow();
        let sixth = self.5.borrow();
        let seventh = self.6.borrow();
        let eighth = self.7.borrow();
        (first, second, third, fourth, fifth, sixth, seventh, eighth)
    }
}

impl<
    'a,
    A: Container<'a>,
    B: Container<'a>,
    C: Container<'a>,
    D: Container<'a>,
    E: Container<'a>,
    F: Container<'a>,
    G: Container<'a>,
    H: Container<'a>,
> Container<'a> for (A, B, C, D, E, F, G, H) {}

impl<
    'b,
    A: Reborrow<'b>,
    B: Reborrow<'b>,
    C: Reborrow<'b>,
    D: Reborrow<'b>,
    E: Reborrow<'b>,
    F: Reborrow<'b>,
    G: Reborrow<'b>,
    H: Reborrow<'b>,
> Reborrow<'b> for (A, B, C, D, E, F, G, H) {
    type Short = (
        A::Short,
        B::Short,
        C::Short,
        D::Short,
        E::Short,
        F::Short,
        G::Short,
        H::Short,
    );

    ghost same_short = { same_tuple A.same_short B.same_short (same_parts C.same_short (same_parts D.same_short (same_parts E.same_short (same_parts F.same_short (same_parts G.same_short (ap (λ f. f ∷ []) H.same_short)))))) };

    fn reborrow(
        self,
    ) -> (
        A::Short,
        B::Short,
        C::Short,
        D::Short,
        E::Short,
        F::Short,
        G::Short,
        H::Short,
    ) {
        let (first, second, third, fourth, fifth, sixth, seventh, eighth) = self;
        (
            first.reborrow(),
            second.reborrow(),
            third.reborrow(),
            fourth.reborrow(),
            fifth.reborrow(),
            sixth.reborrow(),
            seventh.reborrow(),
            eighth.reborrow(),
        )
    }
}

impl<
    'b,
    P: ReborrowRef<'b>,
    Q: ReborrowRef<'b>,
    R: ReborrowRef<'b>,
    S: ReborrowRef<'b>,
    T: ReborrowRef<'b>,
    U: ReborrowRef<'b>,
    V: ReborrowRef<'b>,
    W: ReborrowRef<'b>,
> ReborrowRef<'b> for (P, Q, R, S, T, U, V, W) {
    type ShortRef = (
        P::ShortRef,
        Q::ShortRef,
        R::ShortRef,
        S::ShortRef,
        T::ShortRef,
        U::ShortRef,
        V::ShortRef,
        W::ShortRef,
    );

    fn reborrow_ref(
        self,
    ) -> (
        P::ShortRef,
        Q::ShortRef,
        R::ShortRef,
        S::ShortRef,
        T::ShortRef,
        U::ShortRef,
        V::ShortRef,
        W::ShortRef,
    ) {
        let (first, second, third, fourth, fifth, sixth, seventh, eighth) = self;
        (
            first.reborrow_ref(),
            second.reborrow_ref(),
            third.reborrow_ref(),
            fourth.reborrow_ref(),
            fifth.reborrow_ref(),
            sixth.reborrow_ref(),
            seventh.reborrow_ref(),
            eighth.reborrow_ref(),
        )
    }
}

/// The rules of the parts in order, then that all have equally many rows: `Parts`, at the first slice.
impl<A: Stored, B: Stored, C: Stored, D: Stored, E: Stored, F: Stored, G: Stored, H: Stored> Stored
    for (A, B, C, D, E, F, G, H) {
    ghost storable = { tuple_storable A.format B.format (C.format ∷ D.format ∷ E.format ∷ F.format ∷ G.format ∷ H.format ∷ []) (pair_storable A.format (nested B.format (C.format ∷ D.format ∷ E.format ∷ F.format ∷ G.format ∷ H.format ∷ [])) A.storable (pair_storable B.format (nested C.format (D.format ∷ E.format ∷ F.format ∷ G.format ∷ H.format ∷ [])) B.storable (pair_storable C.format (nested D.format (E.format ∷ F.format ∷ G.format ∷ H.format ∷ [])) C.storable (pair_storable D.format (nested E.format (F.format ∷ G.format ∷ H.format ∷ [])) D.storable (pair_storable E.format (nested F.format (G.format ∷ H.format ∷ [])) E.storable (pair_storable F.format (nested G.format (H.format ∷ [])) F.storable (pair_storable G.format (nested H.format ([])) G.storable H.storable))))))) };

    ghost counted = { λ c. two_counted (slices_of (A.content c.0)) (slices_of (both (B.content c.1) (both (C.content c.2) (both (D.content c.3) (both (E.content c.4) (both (F.content c.5) (both (G.content c.6) (H.content c.7)))))))) (A.counted c.0) (two_counted (slices_of (B.content c.1)) (slices_of (both (C.content c.2) (both (D.content c.3) (both (E.content c.4) (both (F.content c.5) (both (G.content c.6) (H.content c.7))))))) (B.counted c.1) (two_counted (slices_of (C.content c.2)) (slices_of (both (D.content c.3) (both (E.content c.4) (both (F.content c.5) (both (G.content c.6) (H.content c.7)))))) (C.counted c.2) (two_counted (slices_of (D.content c.3)) (slices_of (both (E.content c.4) (both (F.content c.5) (both (G.content c.6) (H.content c.7))))) (D.counted c.3) (two_counted (slices_of (E.content c.4)) (slices_of (both (F.content c.5) (both (G.content c.6) (H.content c.7)))) (E.counted c.4) (two_counted (slices_of (F.content c.5)) (slices_of (both (G.content c.6) (H.content c.7))) (F.counted c.5) (two_counted (slices_of (G.content c.6)) (slices_of (H.content c.7)) (G.counted c.6) (H.counted c.7))))))) };

    fn slice_count() -> usize {
        <(A, (B, (C, (D, (E, (F, (G, H)))))))>::slice_count()
    }

    fn element_sizes(sizes: &mut Vec<usize>) -> Result<(), GrowError> {
        <(A, (B, (C, (D, (E, (F, (G, H)))))))>::element_sizes(sizes)
    }

    fn judge_tallied<L>(
        store: &DecodedStore<'_>,
        offset: usize,
        tally: &mut Tally<L>,
    ) -> Result<(), StoreFault> {
        judge_tuple::<A, (B, (C, (D, (E, (F, (G, (H,))))))), L>(store, offset, tally)
    }

    fn rows_in(store: &DecodedStore<'_>, offset: usize) -> usize {
        <(A, (B, (C, (D, (E, (F, (G, H)))))))>::rows_in(store, offset)
    }
}

impl<
    A: Check + Len,
    B: Check + Len,
    C: Check + Len,
    D: Check + Len,
    E: Check + Len,
    F: Check + Len,
    G: Check + Len,
    H: Check + Len,
> Check for (A, B, C, D, E, F, G, H) {
    fn check_from_tallied<L>(&self, from: usize, tally: &mut Tally<L>) -> Result<(), StoreFault> {
        let later = (&self.5, (&self.6, (&self.7,)));
        check_long(
            &self.0, &self.1, &self.2, &self.3, &self.4, later, from, tally,
        )
    }
}

impl<
    's,
    A: FromBytes<'s>,
    B: FromBytes<'s>,
    C: FromBytes<'s>,
    D: FromBytes<'s>,
    E: FromBytes<'s>,
    F: FromBytes<'s>,
    G: FromBytes<'s>,
    H: FromBytes<'s>,
> FromBytes<'s> for (A, B, C, D, E, F, G, H) {
    fn from_store(store: &DecodedStore<'s>, offset: &mut usize) -> Self {
        let (first, (second, (third, (fourth, (fifth, (sixth, (seventh, eighth))))))) = <(
            A,
            (B, (C, (D, (E, (F, (G, H)))))),
        )>::from_store(store, offset);
        (first, second, third, fourth, fifth, sixth, seventh, eighth)
    }
}

impl<
    's,
    A: AsBytes<'s>,
    B: AsBytes<'s>,
    C: AsBytes<'s>,
    D: AsBytes<'s>,
    E: AsBytes<'s>,
    F: AsBytes<'s>,
    G: AsBytes<'s>,
    H: AsBytes<'s>,
> AsBytes<'s> for (A, B, C, D, E, F, G, H) {
    fn get_byte_slice(&self, index: usize) -> (u64, ByteSlice<'s>) {
        let later = (&self.4, (&self.5, (&self.6, &self.7)));
        (&self.0, (&self.1, (&self.2, (&self.3, later)))).get_byte_slice(index)
    }
}

/// If a part cannot be loaded, those already loaded are dropped.
impl<
    A: ContainerBytes + Drop,
    B: ContainerBytes + Drop,
    C: ContainerBytes + Drop,
    D: ContainerBytes + Drop,
    E: ContainerBytes + Drop,
    F: ContainerBytes + Drop,
    G: ContainerBytes + Drop,
    H: ContainerBytes,
> ContainerBytes for (A, B, C, D, E, F, G, H) {
    fn byte_slice(&self, index: usize) -> ByteSlice<'_> {
        let later = (
            Owned(&self.4),
            (Owned(&self.5), (Owned(&self.6), Owned(&self.7))),
        );
        let parts = (
            Owned(&self.0),
            (Owned(&self.1), (Owned(&self.2), (Owned(&self.3), later))),
        );
        parts.get_byte_slice(index).1
    }

    fn load(alloc: Global, store: &DecodedStore<'_>, offset: usize) -> Result<Self, GrowError> {
        let (first, (second, (third, (fourth, (fifth, (sixth, (seventh, eighth))))))) = <(
            A,
            (B, (C, (D, (E, (F, (G, H)))))),
        )>::load(alloc, store, offset)?;
        Ok((first, second, third, fourth, fifth, sixth, seventh, eighth))
    }
}

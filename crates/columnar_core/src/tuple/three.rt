// Made by .ci/widths.py: change .ci/widths/core.template, and not this file.
//! Tuples of three containers.
ghost use Rattle.std.specs.Prelude.{◌≡◌, List, [], ◌∷◌};
ghost use Rattle.std.proofs.Common.{ap};
ghost use Rattle.columnar_base.specs.Format.{both, slices_of};
ghost use Rattle.columnar_base.specs.TwoPartsLaws.{two_counted};
ghost use Rattle.columnar_base.specs.TupleLaws.{pair_storable};
ghost use Rattle.columnar_base.specs.LongTuples.{nested};
ghost use Rattle.columnar_base.specs.LongTupleLaws.{same_tuple, tuple_storable};

use crate::byte_slice::ByteSlice;
use crate::bytes::{AsBytes, Check, FromBytes, Stored};
use crate::container::{Borrow, Container, ContainerBytes, ExtendFrom, Reborrow, ReborrowRef};
use crate::owned::Owned;
use crate::sides::{check_tuple, judge_tuple};
use crate::store::DecodedStore;
use crate::tuple::FromView;
use columnar_base::fault::{GrowError, StoreFault};
use columnar_base::tally::Tally;
use columnar_base::traits::{Column, Len};
use columnar_base::tuple::three::enter_three;
use std::alloc::Global;
use std::ops::Range;

/// Each part copies the range from its own view. If one part refuses, none changes.
impl<
    P: Column + Copy,
    Q: Column + Copy,
    R: Column + Copy,
    A: ExtendFrom<P>,
    B: ExtendFrom<Q>,
    C: ExtendFrom<R>,
> ExtendFrom<(P, Q, R)> for (A, B, C) {
    fn add_room(room: (A::Room, B::Room, C::Room), view: (P, Q, R)) -> (A::Room, B::Room, C::Room) {
        (
            A::add_room(room.0, view.0),
            B::add_room(room.1, view.1),
            C::add_room(room.2, view.2),
        )
    }

    fn extend_from_self(&mut self, view: (P, Q, R), range: Range<usize>) -> Result<(), GrowError> {
        enter_three(
            &mut self.0,
            &mut self.1,
            &mut self.2,
            FromView(view.0, range.start, range.end),
            FromView(view.1, range.start, range.end),
            FromView(view.2, range.start, range.end),
        )
    }
}

/// The view is the tuple of the parts' views.
impl<'a, A: Borrow<'a>, B: Borrow<'a>, C: Borrow<'a>> Borrow<'a> for (A, B, C) {
    type Ref = (A::Ref, B::Ref, C::Ref);

    type Borrowed = (A::Borrowed, B::Borrowed, C::Borrowed);

    type Parts = (A::Parts, B::Parts, C::Parts);

    ghost same_format = { same_tuple A.same_format B.same_format (ap (λ f. f ∷ []) C.same_format) };

    fn borrow(&'a self) -> (A::Borrowed, B::Borrowed, C::Borrowed) {
        let first = self.0.borrow();
        let second = self.1.borrow();
        let third = self.2.borrow();
        (first, second, third)
    }
}

impl<'a, A: Container<'a>, B: Container<'a>, C: Container<'a>> Container<'a> for (A, B, C) {}

impl<'b, A: Reborrow<'b>, B: Reborrow<'b>, C: Reborrow<'b>> Reborrow<'b> for (A, B, C) {
    type Short = (A::Short, B::Short, C::Short);

    ghost same_short = { same_tuple A.same_short B.same_short (ap (λ f. f ∷ []) C.same_short) };

    fn reborrow(self) -> (A::Short, B::Short, C::Short) {
        let (first, second, third) = self;
        (first.reborrow(), second.reborrow(), third.reborrow())
    }
}

impl<'b, P: ReborrowRef<'b>, Q: ReborrowRef<'b>, R: ReborrowRef<'b>> ReborrowRef<'b> for (P, Q, R) {
    type ShortRef = (P::ShortRef, Q::ShortRef, R::ShortRef);

    fn reborrow_ref(self) -> (P::ShortRef, Q::ShortRef, R::ShortRef) {
        let (first, second, third) = self;
        (
            first.reborrow_ref(),
            second.reborrow_ref(),
            third.reborrow_ref(),
        )
    }
}

/// The rules of the parts in order, then that all have equally many rows: `Parts`, at the first slice.
impl<A: Stored, B: Stored, C: Stored> Stored for (A, B, C) {
    ghost storable = { tuple_storable A.format B.format (C.format ∷ []) (pair_storable A.format (nested B.format (C.format ∷ [])) A.storable (pair_storable B.format (nested C.format ([])) B.storable C.storable)) };

    ghost counted = { λ c. two_counted (slices_of (A.content c.0)) (slices_of (both (B.content c.1) (C.content c.2))) (A.counted c.0) (two_counted (slices_of (B.content c.1)) (slices_of (C.content c.2)) (B.counted c.1) (C.counted c.2)) };

    fn slice_count() -> usize {
        <(A, (B, C))>::slice_count()
    }

    fn element_sizes(sizes: &mut Vec<usize>) -> Result<(), GrowError> {
        <(A, (B, C))>::element_sizes(sizes)
    }

    fn judge_tallied<L>(
        store: &DecodedStore<'_>,
        offset: usize,
        tally: &mut Tally<L>,
    ) -> Result<(), StoreFault> {
        judge_tuple::<A, (B, (C,)), L>(store, offset, tally)
    }

    fn rows_in(store: &DecodedStore<'_>, offset: usize) -> usize {
        <(A, (B, C))>::rows_in(store, offset)
    }
}

impl<A: Check + Len, B: Check + Len, C: Check + Len> Check for (A, B, C) {
    fn check_from_tallied<L>(&self, from: usize, tally: &mut Tally<L>) -> Result<(), StoreFault> {
        check_tuple(&(&self.0, (&self.1, (&self.2,))), from, tally)
    }
}

impl<'s, A: FromBytes<'s>, B: FromBytes<'s>, C: FromBytes<'s>> FromBytes<'s> for (A, B, C) {
    fn from_store(store: &DecodedStore<'s>, offset: &mut usize) -> Self {
        let (first, (second, third)) = <(A, (B, C))>::from_store(store, offset);
        (first, second, third)
    }
}

impl<'s, A: AsBytes<'s>, B: AsBytes<'s>, C: AsBytes<'s>> AsBytes<'s> for (A, B, C) {
    fn get_byte_slice(&self, index: usize) -> (u64, ByteSlice<'s>) {
        (&self.0, (&self.1, &self.2)).get_byte_slice(index)
    }
}

/// If a part cannot be loaded, those already loaded are dropped.
impl<A: ContainerBytes + Drop, B: ContainerBytes + Drop, C: ContainerBytes> ContainerBytes
    for (A, B, C) {
    fn byte_slice(&self, index: usize) -> ByteSlice<'_> {
        let parts = (Owned(&self.0), (Owned(&self.1), Owned(&self.2)));
        parts.get_byte_slice(index).1
    }

    fn load(alloc: Global, store: &DecodedStore<'_>, offset: usize) -> Result<Self, GrowError> {
        let (first, (second, third)) = <(A, (B, C))>::load(alloc, store, offset)?;
        Ok((first, second, third))
    }
}

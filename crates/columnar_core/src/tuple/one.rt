//! Tuples of one container.
ghost use Rattle.columnar_base.specs.SoloLaws.{same_solo, solo_storable};

use crate::byte_slice::ByteSlice;
use crate::bytes::{AsBytes, Check, FromBytes, Stored};
use crate::container::{Borrow, Container, ContainerBytes, ExtendFrom, Reborrow, ReborrowRef};
use crate::store::DecodedStore;
use columnar_base::fault::{GrowError, StoreFault};
use columnar_base::tally::Tally;
use columnar_base::traits::Column;
use std::alloc::Global;
use std::ops::Range;

/// The part copies the range from its own view.
impl<P: Column + Copy, A: ExtendFrom<P>> ExtendFrom<(P,)> for (A,) {
    fn add_room(room: (A::Room,), view: (P,)) -> (A::Room,) {
        (A::add_room(room.0, view.0),)
    }

    fn extend_from_self(&mut self, view: (P,), range: Range<usize>) -> Result<(), GrowError> {
        self.0.extend_from_self(view.0, range)
    }
}

/// The view is the tuple of the part's view.
impl<'a, A: Borrow<'a>> Borrow<'a> for (A,) {
    type Ref = (A::Ref,);

    type Borrowed = (A::Borrowed,);

    type Parts = (A::Parts,);

    ghost same_format = { same_solo A.same_format };

    fn borrow(&'a self) -> (A::Borrowed,) {
        (self.0.borrow(),)
    }
}

impl<'a, A: Container<'a>> Container<'a> for (A,) {}

impl<'b, A: Reborrow<'b>> Reborrow<'b> for (A,) {
    type Short = (A::Short,);

    ghost same_short = { same_solo A.same_short };

    fn reborrow(self) -> (A::Short,) {
        let (first,) = self;
        (first.reborrow(),)
    }
}

impl<'b, P: ReborrowRef<'b>> ReborrowRef<'b> for (P,) {
    type ShortRef = (P::ShortRef,);

    fn reborrow_ref(self) -> (P::ShortRef,) {
        let (first,) = self;
        (first.reborrow_ref(),)
    }
}

/// The rules of the part.
impl<A: Stored> Stored for (A,) {
    ghost storable = { solo_storable A.format A.storable };

    ghost counted = { λ c. A.counted c.0 };

    fn slice_count() -> usize {
        A::slice_count()
    }

    fn element_sizes(sizes: &mut Vec<usize>) -> Result<(), GrowError> {
        A::element_sizes(sizes)
    }

    fn judge_tallied<L>(
        store: &DecodedStore<'_>,
        offset: usize,
        tally: &mut Tally<L>,
    ) -> Result<(), StoreFault> {
        A::judge_tallied(store, offset, tally)
    }

    fn rows_in(store: &DecodedStore<'_>, offset: usize) -> usize {
        A::rows_in(store, offset)
    }
}

impl<A: Check> Check for (A,) {
    fn check_from_tallied<L>(&self, from: usize, tally: &mut Tally<L>) -> Result<(), StoreFault> {
        self.0.check_from_tallied(from, tally)
    }
}

impl<'s, A: FromBytes<'s>> FromBytes<'s> for (A,) {
    fn from_store(store: &DecodedStore<'s>, offset: &mut usize) -> Self {
        (A::from_store(store, offset),)
    }
}

impl<'s, A: AsBytes<'s>> AsBytes<'s> for (A,) {
    fn get_byte_slice(&self, index: usize) -> (u64, ByteSlice<'s>) {
        self.0.get_byte_slice(index)
    }
}

impl<A: ContainerBytes> ContainerBytes for (A,) {
    fn byte_slice(&self, index: usize) -> ByteSlice<'_> {
        self.0.byte_slice(index)
    }

    fn load(alloc: Global, store: &DecodedStore<'_>, offset: usize) -> Result<Self, GrowError> {
        let first = A::load(alloc, store, offset)?;
        Ok((first,))
    }
}

//! Tuples of containers: containers of tuples.
ghost use Rattle.std.specs.Prelude.{◌≡◌};
ghost use Rattle.columnar_base.specs.Format.{slices_of};
ghost use Rattle.columnar_base.specs.TwoPartsLaws.{two_counted};
ghost use Rattle.columnar_base.specs.TupleLaws.{pair_storable, same_pair};
ghost use Rattle.columnar_base.specs.Entries.{HasPiece, piece};

use crate::byte_slice::ByteSlice;
use crate::bytes::{AsBytes, Check, FromBytes, Stored};
use crate::container::{Borrow, Container, ContainerBytes, ExtendFrom, Reborrow, ReborrowRef};
use crate::store::DecodedStore;
use crate::two::{byte_slice_of_two, check_two, judge_two, load_two, sizes_of_two, slice_of_two};
use columnar_base::fault::{GrowError, StoreFault};
use columnar_base::tally::Tally;
use columnar_base::traits::{Column, Len};
pub use columnar_base::tuple::parts;
use columnar_base::tuple::{Enter, enter_two};
use std::alloc::Global;
use std::ops::Range;

pub mod eight;
pub mod five;
pub mod four;
pub mod nine;
pub mod one;
pub mod seven;
pub mod six;
pub mod ten;
pub mod three;

/// The rows `.1..` to `.2` (exclusive) of a view, to be copied.
#[derive(Clone, Copy)]
pub struct FromView<V>(pub V, pub usize, pub usize);

impl<V: Column + Copy, C: ExtendFrom<V>> Enter<C> for FromView<V> {
    ghost entry = { λ v. piece V.format (V.content v.0) v.1 v.2 };

    ghost valid = { λ v. HasPiece V.format (V.content v.0) v.1 v.2 };

    #[inline(always)]
    fn enter(self, column: &mut C) -> Result<(), GrowError> {
        column.extend_from_self(self.0, self.1..self.2)
    }
}

/// Each part copies the range from its own view. If one part refuses, neither changes.
impl<V: Column + Copy, W: Column + Copy, A: ExtendFrom<V>, B: ExtendFrom<W>> ExtendFrom<(V, W)>
    for (A, B) {
    fn add_room(room: (A::Room, B::Room), view: (V, W)) -> (A::Room, B::Room) {
        (A::add_room(room.0, view.0), B::add_room(room.1, view.1))
    }

    fn extend_from_self(&mut self, view: (V, W), range: Range<usize>) -> Result<(), GrowError> {
        enter_two(
            &mut self.0,
            &mut self.1,
            FromView(view.0, range.start, range.end),
            FromView(view.1, range.start, range.end),
        )
    }
}

/// The view is the tuple of the parts' views.
impl<'a, A: Borrow<'a>, B: Borrow<'a>> Borrow<'a> for (A, B) {
    type Ref = (A::Ref, B::Ref);

    type Borrowed = (A::Borrowed, B::Borrowed);

    type Parts = (A::Parts, B::Parts);

    ghost same_format = { same_pair A.same_format B.same_format };

    fn borrow(&'a self) -> (A::Borrowed, B::Borrowed) {
        let first = self.0.borrow();
        let second = self.1.borrow();
        (first, second)
    }
}

impl<'a, A: Container<'a>, B: Container<'a>> Container<'a> for (A, B) {}

impl<'b, A: Reborrow<'b>, B: Reborrow<'b>> Reborrow<'b> for (A, B) {
    type Short = (A::Short, B::Short);

    ghost same_short = { same_pair A.same_short B.same_short };

    fn reborrow(self) -> (A::Short, B::Short) {
        let (first, second) = self;
        (first.reborrow(), second.reborrow())
    }
}

impl<'b, S: ReborrowRef<'b>, T: ReborrowRef<'b>> ReborrowRef<'b> for (S, T) {
    type ShortRef = (S::ShortRef, T::ShortRef);

    fn reborrow_ref(self) -> (S::ShortRef, T::ShortRef) {
        let (first, second) = self;
        (first.reborrow_ref(), second.reborrow_ref())
    }
}

/// The rules of the first part, then those of the second, then that both have equally many rows: `Parts`, at the first
/// slice.
impl<A: Stored, B: Stored> Stored for (A, B) {
    ghost storable = { pair_storable A.format B.format A.storable B.storable };

    ghost counted = { λ c. two_counted (slices_of (A.content c.0)) (slices_of (B.content c.1)) (A.counted c.0) (B.counted c.1) };

    fn slice_count() -> usize {
        A::slice_count() + B::slice_count()
    }

    fn element_sizes(sizes: &mut Vec<usize>) -> Result<(), GrowError> {
        sizes_of_two::<A, B>(sizes)
    }

    fn judge_tallied<L>(
        store: &DecodedStore<'_>,
        offset: usize,
        tally: &mut Tally<L>,
    ) -> Result<(), StoreFault> {
        judge_two::<A, B, L>(store, offset, tally)?;
        let rows = A::rows_in(store, offset);
        if rows == B::rows_in(store, offset + A::slice_count()) {
            Ok(())
        } else {
            Err(StoreFault::Parts(offset))
        }
    }

    fn rows_in(store: &DecodedStore<'_>, offset: usize) -> usize {
        A::rows_in(store, offset)
    }
}

impl<A: Check + Len, B: Check + Len> Check for (A, B) {
    fn check_from_tallied<L>(&self, from: usize, tally: &mut Tally<L>) -> Result<(), StoreFault> {
        check_two(&self.0, &self.1, from, tally)?;
        let rows = self.0.len();
        if rows == self.1.len() {
            Ok(())
        } else {
            Err(StoreFault::Parts(from))
        }
    }
}

impl<'s, A: FromBytes<'s>, B: FromBytes<'s>> FromBytes<'s> for (A, B) {
    fn from_store(store: &DecodedStore<'s>, offset: &mut usize) -> Self {
        let first = A::from_store(store, offset);
        let second = B::from_store(store, offset);
        (first, second)
    }
}

impl<'s, A: AsBytes<'s>, B: AsBytes<'s>> AsBytes<'s> for (A, B) {
    fn get_byte_slice(&self, index: usize) -> (u64, ByteSlice<'s>) {
        slice_of_two(&self.0, &self.1, index)
    }
}

/// If the second part cannot be loaded, the first one is dropped.
impl<A: ContainerBytes + Drop, B: ContainerBytes> ContainerBytes for (A, B) {
    fn byte_slice(&self, index: usize) -> ByteSlice<'_> {
        byte_slice_of_two(&self.0, &self.1, index)
    }

    fn load(alloc: Global, store: &DecodedStore<'_>, offset: usize) -> Result<Self, GrowError> {
        load_two(alloc, store, offset)
    }
}

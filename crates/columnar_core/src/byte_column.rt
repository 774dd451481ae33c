//! Columns of bytes, borrowed as slices.
ghost use Rattle.std.specs.Prelude.{◌≡◌, ◌+◌, ◌-◌, ◌*◌, ◌<◌, refl};
ghost use Rattle.columnar_base.specs.Format.{slice};
ghost use Rattle.columnar_base.specs.Elements.{elements};
ghost use Rattle.columnar_base.specs.ElementLaws.{elements_storable};
ghost use Rattle.std.specs.Int.{to_le_bytes, w8};

use crate::byte_slice::ByteSlice;
use crate::byte_slice::sliced::Sliced;
use crate::bytes::{AsBytes, Check, FromBytes, Stored};
use crate::container::{Borrow, Container, ExtendFrom, Reborrow, ReborrowRef};
use crate::store::DecodedStore;
use crate::vector::{append_typed, elements_between};
use columnar_base::element::Element;
use columnar_base::fault::{GrowError, StoreFault};
use columnar_base::tally::Tally;
use columnar_base::traits::{Column, Item};
use std::ops::Range;

impl<'x> ExtendFrom<&'x [u8]> for Vec<u8> {
    fn add_room(room: usize, view: &'x [u8]) -> usize {
        room.saturating_add(view.len())
    }

    fn extend_from_self(&mut self, view: &'x [u8], range: Range<usize>) -> Result<(), GrowError> {
        append_typed(self, elements_between(view, range.start, range.end))
    }
}

impl<'a> Borrow<'a> for Vec<u8> {
    type Ref = &'a u8;

    type Borrowed = &'a [u8];

    type Parts = u8;

    ghost same_format = { refl };

    fn borrow(&'a self) -> &'a [u8] {
        self.as_slice()
    }
}

impl<'a> Container<'a> for Vec<u8> {}

impl<'a, 'b, T: Element> Reborrow<'b> for &'a [T]
where
    'a: 'b,
{
    type Short = &'b [T];

    ghost same_short = { refl };

    fn reborrow(self) -> &'b [T] {
        let items: &'b [T] = self;
        items
    }
}

impl<'a, 'b, T: Item> ReborrowRef<'b> for &'a T
where
    'a: 'b,
{
    type ShortRef = &'b T;

    fn reborrow_ref(self) -> &'b T {
        self
    }
}

impl<'a, 'b, T: Item> ReborrowRef<'b> for &'a [T]
where
    'a: 'b,
{
    type ShortRef = &'b [T];

    fn reborrow_ref(self) -> &'b [T] {
        self
    }
}

impl<'v, T: Element> Stored for &'v [T] {
    ghost storable = { elements_storable T.size T.align T.row_of };

    ghost counted = { λ v. refl };

    fn slice_count() -> usize {
        1
    }

    fn element_sizes(sizes: &mut Vec<usize>) -> Result<(), GrowError> {
        Vec::<T>::element_sizes(sizes)
    }

    fn judge_tallied<L>(
        store: &DecodedStore<'_>,
        offset: usize,
        tally: &mut Tally<L>,
    ) -> Result<(), StoreFault> {
        Vec::<T>::judge_tallied(store, offset, tally)
    }

    fn rows_in(store: &DecodedStore<'_>, offset: usize) -> usize {
        Vec::<T>::rows_in(store, offset)
    }
}

/// A slice of elements is always well-formed.
impl<'v, T: Element> Check for &'v [T] {
    fn check_from_tallied<L>(&self, _from: usize, _tally: &mut Tally<L>) -> Result<(), StoreFault> {
        Ok(())
    }
}

impl<'s> FromBytes<'s> for &'s [u8] {
    fn from_store(store: &DecodedStore<'s>, offset: &mut usize) -> Self {
        let start = *offset;
        *offset = start + 1;
        as_elements(store.get(start))
    }
}

impl<'s, T: Sliced> AsBytes<'s> for &'s [T] {
    /// Returns the only slice, with the alignment of the type.
    fn get_byte_slice(&self, index: usize) -> (u64, ByteSlice<'s>) {
        let slice = T::byte_slice(*self);
        (slice.align(), slice)
    }
}

// Returns the bytes; as elements, bytes represent themselves.
fn as_elements<'s>(bytes: &'s [u8]) -> &'s [u8]
    ensures { elements (to_le_bytes w8) result.now ≡ slice bytes.entry.now }
{
    bytes
}

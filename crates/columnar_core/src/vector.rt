//! Columns of elements in a `Vec`, as containers.
ghost use Rattle.std.specs.Prelude.{◌≡◌, ◌+◌, ◌-◌, ◌*◌, ◌%◌, ◌<◌, ◌≤◌, ◌/◌, ◌++◌, length, vec_len, vec_capacity, take, drop, OnOk, OnErr, IfOk, IfErr, refl};
ghost use Rattle.std.specs.List.{flat_map};
ghost use Rattle.columnar_base.specs.Format.{IsSound};
ghost use Rattle.columnar_base.specs.Elements.{elements, elements_format, elements_rows};
ghost use Rattle.columnar_base.specs.ElementLaws.{elements_storable};
ghost use Rattle.columnar_core.specs.Appended.{Appended};

use crate::byte_slice::ByteSlice;
pub use crate::byte_slice::sliced::Sliced;
use crate::bytes::{AsBytes, Check, FromBytes, Stored};
use crate::container::{Borrow, Container, ContainerBytes, ExtendFrom, Reborrow, ReborrowRef};
use crate::store::DecodedStore;
use crate::viewed::Viewed;
use columnar_base::element::Element;
use columnar_base::fault::{GrowError, StoreFault};
use columnar_base::tally::Tally;
use columnar_base::traits::{Column, Index, Item, Len};
use columnar_base::view::{Items, View, count_in, element_in};
use std::alloc::Global;
use std::mem;
use std::ops::Range;

// Appends the elements, or none if an allocation fails. With enough capacity it is a copy and a new length, and for no
// elements it does nothing. That test is worthwhile: for few elements the C library's copy branches on their number.
#[inline(always)]
pub(crate) fn append_typed<T: Element>(column: &mut Vec<T>, items: &[T]) -> Result<(), GrowError>
    ensures ok { OnOk result (column.new.items ≡ column.old.items ++ items.now) }
    ensures err { OnErr result (column.new.items ≡ column.old.items) }
    ensures memory { IfErr result (λ e. e ≡ GrowError.Memory) }
    ensures len { OnOk result (vec_len column.new ≡ vec_len column.old + length items.now) }
    ensures capacity { vec_capacity column.old ≤ vec_capacity column.new }
    ensures full { OnErr result (vec_capacity column.old < vec_len column.old + length items.now) }
{
    if items.len() > column.capacity() - Vec::len(column) {
        return append_grown(column, items);
    }
    if items.len() > 0 {
        column.extend_from_slice(items)?;
    }
    Ok(())
}

// As `append_typed`, when the capacity is too small. It is a separate function so that a copy is small enough to be
// inlined into a push.
#[cold]
#[inline(never)]
fn append_grown<T: Element>(column: &mut Vec<T>, items: &[T]) -> Result<(), GrowError>
    ensures ok { OnOk result (column.new.items ≡ column.old.items ++ items.now) }
    ensures err { OnErr result (column.new.items ≡ column.old.items) }
    ensures memory { IfErr result (λ e. e ≡ GrowError.Memory) }
    ensures len { OnOk result (vec_len column.new ≡ vec_len column.old + length items.now) }
    ensures capacity { vec_capacity column.old ≤ vec_capacity column.new }
    ensures full { OnErr result (vec_capacity column.old < vec_len column.old + length items.now) }
{
    column.extend_from_slice(items)?;
    Ok(())
}

// Returns the column followed by the elements of the bytes; the capacity suffices. It takes the column by value: then
// the compiler knows that the writes change neither its length nor its address.
#[inline]
fn with_all<T: Element>(column: Vec<T>, bytes: &[u8]) -> Vec<T>
    requires whole { length bytes.now % T.size ≡ 0 }
    requires room { vec_len column + length bytes.now / T.size ≤ vec_capacity column }
    ensures items { Appended T.le_bytes column.items result.items bytes.now }
    ensures len { vec_len result ≡ vec_len column + length bytes.now / T.size }
    ensures capacity { vec_capacity result ≡ vec_capacity column }
{
    let mut column = column;
    for i in 0..count_in::<T>(bytes) {
        column.push_reserved(element_in(bytes, i));
    }
    column
}

// Appends the elements of the bytes, or none if an allocation fails. Its loop is outside of the copy's body, so that a
// copy of elements is small enough to be inlined into a push.
#[inline(never)]
fn append_bytes<T: Element>(column: &mut Vec<T>, bytes: &[u8]) -> Result<(), GrowError>
    requires { length bytes.now % T.size ≡ 0 }
    ensures ok { OnOk result (Appended T.le_bytes column.old.items column.new.items bytes.now) }
    ensures err { OnErr result (column.new.items ≡ column.old.items) }
    ensures memory { IfErr result (λ e. e ≡ GrowError.Memory) }
    ensures len { OnOk result (vec_len column.new ≡ vec_len column.old + length bytes.now / T.size) }
    ensures capacity { vec_capacity column.old ≤ vec_capacity column.new }
    ensures full { OnErr result (vec_capacity column.old < vec_len column.old + length bytes.now / T.size) }
{
    column.reserve(count_in::<T>(bytes))?;
    let empty = Vec::new(*column.allocator());
    let own = mem::replace(column, empty);
    *column = with_all(own, bytes);
    Ok(())
}

impl<'x, T: Viewed + 'x> ExtendFrom<View<'x, T>> for Vec<T> {
    fn add_room(room: usize, view: View<'x, T>) -> usize {
        room.saturating_add(view.len())
    }

    #[inline(always)]
    fn extend_from_self(
        &mut self,
        view: View<'x, T>,
        range: Range<usize>,
    ) -> Result<(), GrowError> {
        match view.part(range.start, range.end).items() {
            Items::Typed(items) => append_typed(self, items),
            Items::Bytes(bytes) => append_bytes(self, bytes),
        }
    }
}

impl<'a, T: Viewed + 'a> Borrow<'a> for Vec<T> {
    type Ref = T;

    type Borrowed = View<'a, T>;

    type Parts = T;

    ghost same_format = { refl };

    fn borrow(&'a self) -> View<'a, T> {
        View::from_slice(self.as_slice())
    }
}

impl<'a, T: Viewed + 'a> Container<'a> for Vec<T> {}

impl<'a, 'b, T: Element> Reborrow<'b> for View<'a, T>
where
    'a: 'b,
{
    type Short = View<'b, T>;

    ghost same_short = { refl };

    fn reborrow(self) -> View<'b, T> {
        self
    }
}

impl<T: Element> Stored for Vec<T> {
    ghost storable = { elements_storable T.size T.align T.row_of };

    ghost counted = { λ v. refl };

    fn slice_count() -> usize {
        1
    }

    fn element_sizes(sizes: &mut Vec<usize>) -> Result<(), GrowError> {
        sizes.push(T::size())?;
        Ok(())
    }

    fn judge_tallied<L>(
        store: &DecodedStore<'_>,
        offset: usize,
        tally: &mut Tally<L>,
    ) -> Result<(), StoreFault> {
        let bytes = store.get(offset);
        if bytes.len() % T::size() == 0 {
            Ok(())
        } else {
            Err(StoreFault::ElementSize(offset))
        }
    }

    fn rows_in(store: &DecodedStore<'_>, offset: usize) -> usize {
        count_in::<T>(store.get(offset))
    }
}

impl<'v, T: Element> Stored for View<'v, T> {
    ghost use Rattle.columnar_base.specs.ViewLaws.{items_counted};

    ghost storable = { elements_storable T.size T.align T.row_of };

    ghost counted = { λ v. items_counted T.le_bytes v.items };

    fn slice_count() -> usize {
        1
    }

    fn element_sizes(sizes: &mut Vec<usize>) -> Result<(), GrowError> {
        Vec::<T>::element_sizes(sizes)
    }

    fn judge_tallied<L>(
        store: &DecodedStore<'_>,
        offset: usize,
        tally: &mut Tally<L>,
    ) -> Result<(), StoreFault> {
        Vec::<T>::judge_tallied(store, offset, tally)
    }

    fn rows_in(store: &DecodedStore<'_>, offset: usize) -> usize {
        Vec::<T>::rows_in(store, offset)
    }
}

impl<'v, T: Element> Check for View<'v, T> {
    fn check_from_tallied<L>(&self, from: usize, tally: &mut Tally<L>) -> Result<(), StoreFault> {
        match self.items() {
            Items::Typed(_) => Ok(()),
            Items::Bytes(bytes) => {
                if bytes.len() % T::size() == 0 {
                    Ok(())
                } else {
                    Err(StoreFault::ElementSize(from))
                }
            }
        }
    }
}

impl<'s, T: Element> FromBytes<'s> for View<'s, T> {
    fn from_store(store: &DecodedStore<'s>, offset: &mut usize) -> Self {
        let start = *offset;
        *offset = start + 1;
        View::from_le_bytes(store.get(start))
    }
}

impl<'s, T: Sliced> AsBytes<'s> for View<'s, T> {
    /// Returns the only slice, with the alignment of the type, wherever the elements are stored.
    fn get_byte_slice(&self, index: usize) -> (u64, ByteSlice<'s>) {
        let slice = match self.items() {
            Items::Typed(items) => T::byte_slice(items),
            Items::Bytes(bytes) => ByteSlice::of_le_bytes(bytes, T::align()),
        };
        (slice.align(), slice)
    }
}

impl<T: Sliced> ContainerBytes for Vec<T> {
    fn byte_slice(&self, index: usize) -> ByteSlice<'_> {
        T::byte_slice(self.as_slice())
    }

    fn load(alloc: Global, store: &DecodedStore<'_>, offset: usize) -> Result<Self, GrowError> {
        elements_of(alloc, store.get(offset))
    }
}

// Copies the elements of the bytes to a new `Vec`.
fn elements_of<T: Element>(alloc: Global, bytes: &[u8]) -> Result<Vec<T>, GrowError>
    requires { length bytes.now % T.size ≡ 0 }
    ensures elements { IfOk result (λ v. flat_map T.le_bytes v.items ≡ bytes.now) }
    ensures memory { IfErr result (λ e. e ≡ GrowError.Memory) }
{
    let column = Vec::with_capacity(alloc, count_in::<T>(bytes))?;
    Ok(with_all(column, bytes))
}

/// Returns the elements `start..end` of a slice.
///
/// # Requires
/// `start <= end <= items.len()`.
pub fn elements_between<T>(items: &[T], start: usize, end: usize) -> &[T]
    requires ordered { start ≤ end }
    requires in_range { end ≤ length items.now }
    ensures { result.now ≡ take (end - start) (drop start items.now) }
{
    &items[start..end]
}

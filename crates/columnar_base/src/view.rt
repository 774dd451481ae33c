//! Views of elements, read in place from a slice of elements or from little-endian bytes.
ghost use Rattle.std.specs.Prelude.{◌≡◌, ℕ, ◌+◌, ◌-◌, ◌*◌, ◌/◌, ◌<◌, ◌≤◌, length, refl, take, drop, slice_get, Some};
ghost use Rattle.columnar_base.specs.Format.{slice, IsSound};
ghost use Rattle.columnar_base.specs.Elements.{elements_format, elements_rows, elements};
ghost use Rattle.columnar_base.specs.SameRows.{same_rows};
ghost use Rattle.columnar_base.specs.SameRowsLaws.{same_rows_law};
ghost use Rattle.columnar_base.specs.Views.{items_content};

use crate::element::Element;
use crate::traits::{Clear, Column, Index, Len};

/// Where a view reads its elements.
#[derive(Clone, Copy)]
pub enum Items<'a, T> {
    /// A slice of elements.
    Typed(&'a [T]),
    /// Their little-endian bytes.
    Bytes(&'a [u8]),
}

/// Elements in a slice or in little-endian bytes, read by value.
#[derive(Clone, Copy)]
pub struct View<'a, T> {
    items: Items<'a, T>,
}

impl<'v, T: Element> Column for View<'v, T> {
    ghost format = { elements_format T.size T.align T.row_of };

    ghost content = { λ v. items_content T.le_bytes v.items };

    ghost room = { λ v rs. ⊥ };
}

impl<'a, T: Element> View<'a, T> {
    /// Views the elements of a slice; the view is well-formed.
    pub fn from_slice(items: &'a [T]) -> Self
        ensures content { ⟦<View<'a, T> as Column>⟧.content result ≡ elements T.le_bytes items.now }
        ensures sound { IsSound (elements_format T.size T.align T.row_of) (⟦<View<'a, T> as Column>⟧.content result) }
    {
        View {
            items: Items::Typed(items),
        }
    }

    /// Views little-endian bytes as elements. The view is well-formed if the number of bytes is a multiple of the
    /// element size.
    pub fn from_le_bytes(bytes: &'a [u8]) -> Self
        ensures { ⟦<View<'a, T> as Column>⟧.content result ≡ slice bytes.now }
    {
        View {
            items: Items::Bytes(bytes),
        }
    }

    /// Returns the view of the elements `lower..upper`.
    ///
    /// # Requires
    /// A well-formed view, and `lower <= upper <= len()`.
    pub fn part(&self, lower: usize, upper: usize) -> Self
        requires sound { IsSound (elements_format T.size T.align T.row_of) (⟦<View<'a, T> as Column>⟧.content self.now) }
        requires ordered { lower ≤ upper }
        requires in_range { upper ≤ length (elements_rows T.size T.row_of (⟦<View<'a, T> as Column>⟧.content self.now)) }
        ensures sound { IsSound (elements_format T.size T.align T.row_of) (⟦<View<'a, T> as Column>⟧.content result) }
        ensures rows { elements_rows T.size T.row_of (⟦<View<'a, T> as Column>⟧.content result) ≡ take (upper - lower) (drop lower (elements_rows T.size T.row_of (⟦<View<'a, T> as Column>⟧.content self.now))) }
    {
        match self.items {
            Items::Typed(items) => View::from_slice(between(items, lower, upper)),
            Items::Bytes(bytes) => View::from_le_bytes(bytes_between::<T>(bytes, lower, upper)),
        }
    }

    // Returns element `index`; requires that it exists.
    fn at(&self, index: usize) -> T
        requires { index < length (elements_rows T.size T.row_of (⟦<View<'a, T> as Column>⟧.content self.now)) }
        ensures { slice_get (elements_rows T.size T.row_of (⟦<View<'a, T> as Column>⟧.content self.now)) index ≡ Some (T.meaning result) }
    {
        match self.items {
            Items::Typed(items) => element_at(items, index),
            Items::Bytes(bytes) => element_in(bytes, index),
        }
    }

    /// Returns where the view reads its elements.
    pub fn items(&self) -> Items<'a, T>
        ensures { items_content T.le_bytes result ≡ ⟦<View<'a, T> as Column>⟧.content self.now }
    {
        self.items
    }
}

impl<'v, T: Element> Len for View<'v, T> {
    fn len(&self) -> usize
        ensures { result ≡ length (elements_rows T.size T.row_of (items_content T.le_bytes self.now.items)) }
    {
        match self.items {
            Items::Typed(items) => items.len(),
            Items::Bytes(bytes) => count_in::<T>(bytes),
        }
    }
}

/// Returns the number of whole elements in the bytes.
pub fn count_in<T: Element>(bytes: &[u8]) -> usize
    ensures { result ≡ length bytes.now / T.size }
{
    let length = bytes.len();
    length / T::size()
}

pub(crate) fn element_at<T: Element>(items: &[T], index: usize) -> T
    requires { index < length items.now }
    ensures { slice_get items.now index ≡ Some result }
{
    items[index]
}

/// Returns element `index` of the bytes.
///
/// # Requires
/// All bytes of that element.
pub fn element_in<T: Element>(bytes: &[u8], index: usize) -> T
    requires { T.size * index + T.size ≤ length bytes.now }
    ensures { T.le_bytes result ≡ take T.size (drop (T.size * index) bytes.now) }
{
    let size = T::size();
    let start = size * index;
    T::from_le_bytes(&bytes[start..start + size])
}

impl<'v, T: Element> Index for View<'v, T> {
    type Ref = T;

    fn get(&self, index: usize) -> T {
        self.at(index)
    }
}

impl<'a, 'v, T: Element> Index for &'a View<'v, T> {
    type Ref = T;

    fn get(&self, index: usize) -> T {
        (**self).get(index)
    }
}

/// Leaves the empty view; no element changes.
impl<'v, T: Element> Clear for View<'v, T> {
    fn clear(&mut self) {
        self.items = Items::Bytes(&[]);
    }
}

/// Compares the rows in order. A slice of elements and the bytes of equal elements are equal.
impl<'v, T: Element> PartialEq for View<'v, T> {
    ghost eq = { λ v w. same_rows (elements_rows T.size T.row_of (items_content T.le_bytes v.items)) (elements_rows T.size T.row_of (items_content T.le_bytes w.items)) };

    ghost laws = { same_rows_law (λ v. elements_rows T.size T.row_of (items_content T.le_bytes v.items)) };

    fn eq(&self, other: &Self) -> bool {
        let count = Len::len(self);
        if count != Len::len(other) {
            return false;
        }
        for i in 0..count {
            if !self.at(i).same(&other.at(i)) {
                return false;
            }
        }
        true
    }
}

// Returns the elements `lower..upper` of a slice; requires that range.
fn between<T>(items: &[T], lower: usize, upper: usize) -> &[T]
    requires ordered { lower ≤ upper }
    requires in_range { upper ≤ length items.now }
    ensures { result.now ≡ take (upper - lower) (drop lower items.now) }
{
    &items[lower..upper]
}

// Returns the bytes of the elements `lower..upper`; requires that range.
fn bytes_between<T: Element>(bytes: &[u8], lower: usize, upper: usize) -> &[u8]
    requires ordered { lower ≤ upper }
    requires in_range { T.size * upper ≤ length bytes.now }
    ensures { result.now ≡ take (T.size * (upper - lower)) (drop (T.size * lower) bytes.now) }
{
    if upper == 0 {
        return between(bytes, 0, 0);
    }
    let size = T::size();
    between(bytes, size * lower, size * upper)
}

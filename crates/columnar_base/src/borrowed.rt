//! Slices, arrays and references as columns.
ghost use Rattle.std.specs.Prelude.{◌≡◌, ◌<◌, ℕ, length, slice_get, Some};
ghost use Rattle.columnar_base.specs.Elements.{elements, elements_format, elements_rows};
ghost use Rattle.columnar_base.specs.Format.{IsSound};

use crate::element::Element;
use crate::traits::{Clear, Column, Index, Len};
use crate::view::element_at;
use std::rc::Rc;

impl<'a, T: Element> Column for &'a [T] {
    ghost format = { elements_format T.size T.align T.row_of };

    ghost content = { λ s. elements T.le_bytes s.now };

    ghost room = { λ c rs. ⊥ };
}

impl<'a, T: Element> Len for &'a [T] {
    fn len(&self) -> usize {
        count_of(*self)
    }
}

/// Leaves the empty slice; no element changes.
impl<'a, T: Element> Clear for &'a [T] {
    fn clear(&mut self) {
        *self = &[];
    }
}

impl<'a, T: Element> Index for &'a [T] {
    type Ref = &'a T;

    fn get(&self, index: usize) -> &'a T {
        shared_at(*self, index)
    }
}

impl<T: Element, const N: usize> Column for [T; N] {
    ghost format = { elements_format T.size T.align T.row_of };

    ghost content = { λ s. elements T.le_bytes s };

    ghost room = { λ c rs. ⊥ };
}

impl<T: Element, const N: usize> Len for [T; N] {
    fn len(&self) -> usize {
        count_of(self.as_slice())
    }
}

impl<T: Element, const N: usize> Index for [T; N] {
    type Ref = T;

    fn get(&self, index: usize) -> T {
        element_at(self.as_slice(), index)
    }
}

impl<'a, C: Column> Column for &'a C {
    ghost format = { C.format };

    ghost content = { λ c. C.content c.now };

    ghost room = { λ c rs. ⊥ };
}

impl<'a, C: Len> Len for &'a C {
    fn len(&self) -> usize {
        (**self).len()
    }
}

impl<'a, C: Column> Column for &'a mut C {
    ghost format = { C.format };

    ghost content = { λ c. C.content c.now };

    ghost room = { λ c rs. ⊥ };
}

impl<'a, C: Len> Len for &'a mut C {
    fn len(&self) -> usize {
        Len::len(&**self)
    }
}

impl<'a, T: Element> Index for &'a Vec<T> {
    type Ref = &'a T;

    fn get(&self, index: usize) -> &'a T {
        shared_at(self.as_slice(), index)
    }
}

// Returns the number of items of a slice.
fn count_of<T>(items: &[T]) -> usize
    ensures { result ≡ length items.now }
{
    items.len()
}

// Returns item `index` of a slice; requires that it exists.
fn shared_at<'a, T>(items: &'a [T], index: usize) -> &'a T
    requires { index < length items.now }
    ensures { slice_get items.now index ≡ Some result.now }
{
    &items[index]
}

impl<C: Column> Column for Rc<C> {
    ghost format = { C.format };

    ghost content = { λ r. C.content r.value };

    ghost room = { λ c rs. ⊥ };
}

impl<C: Len> Len for Rc<C> {
    fn len(&self) -> usize {
        self.as_ref().len()
    }
}

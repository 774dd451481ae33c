//! Columns of elements in a `Vec`.
ghost use Rattle.columnar_base.specs.Elements.{elements_format, elements};
ghost use Rattle.columnar_base.specs.ElementLaws.{elements_lawful};
ghost use Rattle.columnar_base.specs.Room.{up_to_count};
ghost use Rattle.std.specs.Prelude.{◌+◌, ◌≤◌, length, vec_len, vec_capacity};

use crate::element::Element;
use crate::fault::GrowError;
use crate::storage::{Reserve, Storage, Truncate};
use crate::traits::{Clear, Column, Index, Len, Push, PushRef};
use crate::view::element_at;
use std::alloc::Global;

impl<T: Element> Column for Vec<T> {
    ghost format = { elements_format T.size T.align T.row_of };

    ghost content = { λ v. elements T.le_bytes v.items };

    ghost room = { λ v rs. vec_len v + length rs ≤ vec_capacity v };
}

impl<T: Element> Len for Vec<T> {
    fn len(&self) -> usize {
        self.as_slice().len()
    }
}

impl<T: Element> Clear for Vec<T> {
    fn clear(&mut self) {
        Vec::clear(self);
    }
}

impl<T: Element> Index for Vec<T> {
    type Ref = T;

    fn get(&self, index: usize) -> T {
        element_at(self.as_slice(), index)
    }
}

impl<T: Element> Push<T> for Vec<T> {
    fn push(&mut self, item: T) -> Result<(), GrowError> {
        Vec::push(self, item)?;
        Ok(())
    }
}

impl<'x, T: Element> Push<&'x T> for Vec<T> {
    fn push(&mut self, item: &'x T) -> Result<(), GrowError> {
        Vec::push(self, *item)?;
        Ok(())
    }
}

impl<T: Element> PushRef<T> for Vec<T> {
    fn push_ref(&mut self, item: &T) -> Result<(), GrowError> {
        Vec::push(self, *item)?;
        Ok(())
    }

    fn push_slice(&mut self, items: &[T]) -> Result<(), GrowError> {
        self.extend_from_slice(items)?;
        Ok(())
    }
}

impl<T: Element> Truncate for Vec<T> {
    ghost lawful = { elements_lawful T.size T.align T.row_of };

    fn truncate(&mut self, n: usize) {
        Vec::truncate(self, n);
    }
}

impl<T: Element> Storage for Vec<T> {
    fn empty(alloc: Global) -> Self {
        Vec::new(alloc)
    }

    fn duplicate(&self, alloc: Global) -> Result<Self, GrowError> {
        Ok(Vec::from_slice(alloc, self.as_slice())?)
    }
}

impl<T: Element> Reserve for Vec<T> {
    type Room = usize;

    ghost reserves = { Unit {0} };

    ghost covers = { up_to_count };

    fn no_room() -> usize {
        0
    }

    fn reserve_room(&mut self, room: usize) -> Result<(), GrowError> {
        // no memory has so many elements: a saturated sum
        if room == usize::MAX {
            return Err(GrowError::Memory);
        }
        self.reserve(room)?;
        Ok(())
    }
}

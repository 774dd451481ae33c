//! Lists: a row is a range of the values' rows.
ghost use Rattle.columnar_types.specs.Owned.{list_unfit};

use crate::types::{Columnar, FromRow};
use columnar_base::fault::OwnError;
use columnar_base::traits::{Index, Len};
use columnar_core::slice::Slice;
use columnar_lists::vector::Vecs;
use columnar_sums::unaries::Unaries;
use smallvec::SmallVec;
use std::alloc::Global;
use std::default::MadeWith;

/// Each list costs one bit, and each item one bit in addition to its own storage.
impl<T: Columnar> Columnar for Vec<T> {
    ghost unfit = { list_unfit T.unfit };

    type Container = Vecs<T::Container, Unaries<Vec<u64>, Vec<u64>, [u64; 2]>>;
}

impl<V: Index + Copy, T: FromRow<V::Ref>> FromRow<Slice<V>> for Vec<T> {
    fn from_row(alloc: Global, row: Slice<V>) -> Result<Vec<T>, OwnError> {
        let mut values = Vec::new(alloc);
        for index in 0..row.len() {
            let value = T::from_row(alloc, row.get(index))?;
            match values.push(value) {
                Ok(()) => {}
                Err(_) => return Err(OwnError::Memory),
            }
        }
        Ok(values)
    }
}

impl<T: Columnar, const N: usize> Columnar for SmallVec<T, N> {
    ghost unfit = { list_unfit T.unfit };

    type Container = Vecs<T::Container, Vec<u64>>;
}

impl<V: Index + Copy, T: FromRow<V::Ref> + MadeWith<Global>, const N: usize> FromRow<Slice<V>>
    for SmallVec<T, N> {
    fn from_row(alloc: Global, row: Slice<V>) -> Result<SmallVec<T, N>, OwnError> {
        let mut values = SmallVec::new(alloc);
        for index in 0..row.len() {
            let value = T::from_row(alloc, row.get(index))?;
            match values.push(value) {
                Ok(()) => {}
                Err(_) => return Err(OwnError::Memory),
            }
        }
        Ok(values)
    }
}

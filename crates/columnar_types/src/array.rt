//! Arrays: lists of a fixed length.
ghost use Rattle.columnar_types.specs.Owned.{array_at_once, array_unfit};

use crate::types::{Columnar, FromRow};
use columnar_base::element::ArrayItem;
use columnar_base::fault::OwnError;
use columnar_base::traits::{Index, Len};
use columnar_core::slice::Slice;
use columnar_lists::vector::Vecs;
use std::alloc::Global;

impl<T: Columnar + ArrayItem, const N: usize> Columnar for [T; N] {
    ghost unfit = { array_unfit N T.unfit };

    ghost at_once = { array_at_once N };

    type Container = Vecs<T::Container, Vec<u64>>;
}

impl<V: Index + Copy, T: FromRow<V::Ref> + ArrayItem + Copy, const N: usize> FromRow<Slice<V>>
    for [T; N] {
    fn from_row(alloc: Global, row: Slice<V>) -> Result<[T; N], OwnError> {
        if row.len() != N {
            return Err(OwnError::WrongLength);
        }
        let values = Vec::<T>::from_row(alloc, row)?;
        match <[T; N]>::try_from(values) {
            Ok(items) => Ok(items),
            Err(_values) => Err(OwnError::WrongLength),
        }
    }
}

//! Options, results and boxes.
ghost use Rattle.columnar_types.specs.Owned.{option_at_once, option_unfit, result_at_once, result_unfit};

use crate::types::{Columnar, FromRow};
use columnar_base::fault::OwnError;
use columnar_base::traits::Item;
use columnar_core::boxed::Boxed;
use columnar_sums::option::Options;
use columnar_sums::result::Results;
use std::alloc::Global;

impl<T: Columnar> Columnar for Option<T> {
    ghost unfit = { option_unfit T.unfit };

    ghost at_once = { option_at_once T.at_once };

    type Container = Options<T::Container, Vec<u64>, Vec<u64>, [u64; 2]>;
}

impl<R: Item, T: FromRow<R>> FromRow<Option<R>> for Option<T> {
    fn from_row(alloc: Global, row: Option<R>) -> Result<Option<T>, OwnError> {
        match row {
            Some(row) => Ok(Some(T::from_row(alloc, row)?)),
            None => Ok(None),
        }
    }
}

impl<S: Columnar, T: Columnar> Columnar for Result<S, T> {
    ghost unfit = { result_unfit S.unfit T.unfit };

    ghost at_once = { result_at_once S.at_once T.at_once };

    type Container = Results<S::Container, T::Container, Vec<u64>, Vec<u64>, [u64; 2]>;
}

impl<Q: Item, R: Item, S: FromRow<Q>, T: FromRow<R>> FromRow<Result<Q, R>> for Result<S, T> {
    fn from_row(alloc: Global, row: Result<Q, R>) -> Result<Result<S, T>, OwnError> {
        match row {
            Ok(row) => Ok(Ok(S::from_row(alloc, row)?)),
            Err(row) => Ok(Err(T::from_row(alloc, row)?)),
        }
    }
}

/// As a row, a box is its content.
impl<T: Columnar> Columnar for Box<T> {
    ghost unfit = { T.unfit };

    ghost at_once = { T.at_once };

    type Container = Boxed<T::Container>;
}

impl<R: Item, T: FromRow<R>> FromRow<Boxed<R>> for Box<T> {
    fn from_row(alloc: Global, row: Boxed<R>) -> Result<Box<T>, OwnError> {
        let value = T::from_row(alloc, row.0)?;
        match Box::new(alloc, value) {
            Ok(value) => Ok(value),
            Err(_) => Err(OwnError::Memory),
        }
    }
}

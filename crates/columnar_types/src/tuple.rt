//! Tuples of one and of two fields; wider ones are read as nested pairs.
ghost use Rattle.columnar_types.specs.Owned.{pair_unfit, solo_unfit};

mod eight;
mod five;
mod four;
mod nine;
mod seven;
mod six;
mod ten;
mod three;

use crate::types::{Columnar, FromRow};
use columnar_base::fault::OwnError;
use columnar_base::traits::Item;
use std::alloc::Global;

impl<A: Columnar> Columnar for (A,) {
    ghost unfit = { solo_unfit A.unfit };

    type Container = (A::Container,);
}

impl<P: Item, A: FromRow<P>> FromRow<(P,)> for (A,) {
    fn from_row(alloc: Global, row: (P,)) -> Result<(A,), OwnError> {
        let (first,) = row;
        let first = A::from_row(alloc, first)?;
        Ok((first,))
    }
}

impl<A: Columnar, B: Columnar> Columnar for (A, B) {
    ghost unfit = { pair_unfit A.unfit B.unfit };

    type Container = (A::Container, B::Container);
}

impl<P: Item, Q: Item + Drop, A: FromRow<P>, B: FromRow<Q>> FromRow<(P, Q)> for (A, B) {
    fn from_row(alloc: Global, row: (P, Q)) -> Result<(A, B), OwnError> {
        let (first, second) = row;
        let first = A::from_row(alloc, first)?;
        let second = B::from_row(alloc, second)?;
        Ok((first, second))
    }
}

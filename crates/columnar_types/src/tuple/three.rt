// Made by .ci/widths.py: change .ci/widths/types.template, and not this file.
//! Tuples of three fields.
ghost use Rattle.columnar_types.specs.Owned.{pair_unfit};

use crate::types::{Columnar, FromRow};
use columnar_base::fault::OwnError;
use columnar_base::traits::Item;
use std::alloc::Global;

impl<A: Columnar, B: Columnar, C: Columnar> Columnar for (A, B, C) {
    ghost unfit = { pair_unfit A.unfit (pair_unfit B.unfit C.unfit) };

    type Container = (A::Container, B::Container, C::Container);
}

/// A row is read as nested pairs: the first value, and the others.
impl<P: Item, Q: Item + Drop, R: Item + Drop, A: FromRow<P>, B: FromRow<Q>, C: FromRow<R>> FromRow<
    (P, Q, R),
> for (A, B, C) {
    fn from_row(alloc: Global, row: (P, Q, R)) -> Result<(A, B, C), OwnError> {
        let (first, second, third) = row;
        let (first, (second, third)) = <(A, (B, C)) as FromRow<(P, (Q, R))>>::from_row(
            alloc,
            (first, (second, third)),
        )?;
        Ok((first, second, third))
    }
}

// Made by .ci/widths.py: change .ci/widths/types.template, and not this file.
//! Tuples of four fields.
ghost use Rattle.columnar_types.specs.Owned.{pair_unfit};

use crate::types::{Columnar, FromRow};
use columnar_base::fault::OwnError;
use columnar_base::traits::Item;
use std::alloc::Global;

impl<A: Columnar, B: Columnar, C: Columnar, D: Columnar> Columnar for (A, B, C, D) {
    ghost unfit = { pair_unfit A.unfit (pair_unfit B.unfit (pair_unfit C.unfit D.unfit)) };

    type Container = (A::Container, B::Container, C::Container, D::Container);
}

/// A row is read as nested pairs: the first value, and the others.
impl<
    P: Item,
    Q: Item + Drop,
    R: Item + Drop,
    S: Item + Drop,
    A: FromRow<P>,
    B: FromRow<Q>,
    C: FromRow<R>,
    D: FromRow<S>,
> FromRow<(P, Q, R, S)> for (A, B, C, D) {
    fn from_row(alloc: Global, row: (P, Q, R, S)) -> Result<(A, B, C, D), OwnError> {
        let (first, second, third, fourth) = row;
        let (first, (second, (third, fourth))) = <(A, (B, (C, D))) as FromRow<
            (P, (Q, (R, S))),
        >>::from_row(alloc, (first, (second, (third, fourth))))?;
        Ok((first, second, third, fourth))
    }
}

// Made by .ci/widths.py: change .ci/widths/types.template, and not this file.
//! Tuples of five fields.
ghost use Rattle.columnar_types.specs.Owned.{pair_unfit};

use crate::types::{Columnar, FromRow};
use columnar_base::fault::OwnError;
use columnar_base::traits::Item;
use std::alloc::Global;

impl<A: Columnar, B: Columnar, C: Columnar, D: Columnar, E: Columnar> Columnar for (A, B, C, D, E) {
    ghost unfit = { pair_unfit A.unfit (pair_unfit B.unfit (pair_unfit C.unfit (pair_unfit D.unfit E.unfit))) };

    type Container = (
        A::Container,
        B::Container,
        C::Container,
        D::Container,
        E::Container,
    );
}

/// A row is read as nested pairs: the first value, and the others.
impl<
    P: Item,
    Q: Item + Drop,
    R: Item + Drop,
    S: Item + Drop,
    T: Item + Drop,
    A: FromRow<P>,
    B: FromRow<Q>,
    C: FromRow<R>,
    D: FromRow<S>,
    E: FromRow<T>,
> FromRow<(P, Q, R, S, T)> for (A, B, C, D, E) {
    fn from_row(alloc: Global, row: (P, Q, R, S, T)) -> Result<(A, B, C, D, E), OwnError> {
        let (first, second, third, fourth, fifth) = row;
        let (first, (second, (third, (fourth, fifth)))) = <(A, (B, (C, (D, E)))) as FromRow<
            (P, (Q, (R, (S, T)))),
        >>::from_row(alloc, (first, (second, (third, (fourth, fifth)))))?;
        Ok((first, second, third, fourth, fifth))
    }
}

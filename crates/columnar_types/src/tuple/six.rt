// Made by .ci/widths.py: change .ci/widths/types.template, and not this file.
//! Tuples of six fields.
ghost use Rattle.columnar_types.specs.Owned.{pair_unfit};

use crate::types::{Columnar, FromRow};
use columnar_base::fault::OwnError;
use columnar_base::traits::Item;
use std::alloc::Global;

impl<A: Columnar, B: Columnar, C: Columnar, D: Columnar, E: Columnar, F: Columnar> Columnar
    for (A, B, C, D, E, F) {
    ghost unfit = { pair_unfit A.unfit (pair_unfit B.unfit (pair_unfit C.unfit (pair_unfit D.unfit (pair_unfit E.unfit F.unfit)))) };

    type Container = (
        A::Container,
        B::Container,
        C::Container,
        D::Container,
        E::Container,
        F::Container,
    );
}

/// A row is read as nested pairs: the first value, and the others.
impl<
    P: Item,
    Q: Item + Drop,
    R: Item + Drop,
    S: Item + Drop,
    T: Item + Drop,
    U: Item + Drop,
    A: FromRow<P>,
    B: FromRow<Q>,
    C: FromRow<R>,
    D: FromRow<S>,
    E: FromRow<T>,
    F: FromRow<U>,
> FromRow<(P, Q, R, S, T, U)> for (A, B, C, D, E, F) {
    fn from_row(alloc: Global, row: (P, Q, R, S, T, U)) -> Result<(A, B, C, D, E, F), OwnError> {
        let (first, second, third, fourth, fifth, sixth) = row;
        let (first, (second, (third, (fourth, (fifth, sixth))))) = <(
            A,
            (B, (C, (D, (E, F)))),
        ) as FromRow<(P, (Q, (R, (S, (T, U)))))>>::from_row(
            alloc,
            (first, (second, (third, (fourth, (fifth, sixth))))),
        )?;
        Ok((first, second, third, fourth, fifth, sixth))
    }
}

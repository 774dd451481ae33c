// Made by .ci/widths.py: change .ci/widths/types.template, and not this file.
//! Tuples of seven fields.
ghost use Rattle.columnar_types.specs.Owned.{pair_unfit};

use crate::types::{Columnar, FromRow};
use columnar_base::fault::OwnError;
use columnar_base::traits::Item;
use std::alloc::Global;

impl<
    A: Columnar,
    B: Columnar,
    C: Columnar,
    D: Columnar,
    E: Columnar,
    F: Columnar,
    G: Columnar,
> Columnar for (A, B, C, D, E, F, G) {
    ghost unfit = { pair_unfit A.unfit (pair_unfit B.unfit (pair_unfit C.unfit (pair_unfit D.unfit (pair_unfit E.unfit (pair_unfit F.unfit G.unfit))))) };

    type Container = (
        A::Container,
        B::Container,
        C::Container,
        D::Container,
        E::Container,
        F::Container,
        G::Container,
    );
}

/// A row is read as nested pairs: the first value, and the others.
impl<
    P: Item,
    Q: Item + Drop,
    R: Item + Drop,
    S: Item + Drop,
    T: Item + Drop,
    U: Item + Drop,
    V: Item + Drop,
    A: FromRow<P>,
    B: FromRow<Q>,
    C: FromRow<R>,
    D: FromRow<S>,
    E: FromRow<T>,
    F: FromRow<U>,
    G: FromRow<V>,
> FromRow<(P, Q, R, S, T, U, V)> for (A, B, C, D, E, F, G) {
    fn from_row(
        alloc: Global,
        row: (P, Q, R, S, T, U, V),
    ) -> Result<(A, B, C, D, E, F, G), OwnError> {
        let (first, second, third, fourth, fifth, sixth, seventh) = row;
        let (first, (second, (third, (fourth, (fifth, (sixth, seventh)))))) = <(
            A,
            (B, (C, (D, (E, (F, G))))),
        ) as FromRow<(P, (Q, (R, (S, (T, (U, V))))))>>::from_row(
            alloc,
            (
                first,
                (second, (third, (fourth, (fifth, (sixth, seventh))))),
            ),
        )?;
        Ok((first, second, third, fourth, fifth, sixth, seventh))
    }
}

// Made by .ci/widths.py: change .ci/widths/types.template, and not this file.
//! Tuples of eight fields.
ghost use Rattle.columnar_types.specs.Owned.{pair_unfit};

use crate::types::{Columnar, FromRow};
use columnar_base::fault::OwnError;
use columnar_base::traits::Item;
use std::alloc::Global;

impl<
    A: Columnar,
    B: Columnar,
    C: Columnar,
    D: Columnar,
    E: Columnar,
    F: Columnar,
    G: Columnar,
    H: Columnar,
> Columnar for (A, B, C, D, E, F, G, H) {
    ghost unfit = { pair_unfit A.unfit (pair_unfit B.unfit (pair_unfit C.unfit (pair_unfit D.unfit (pair_unfit E.unfit (pair_unfit F.unfit (pair_unfit G.unfit H.unfit)))))) };

    type Container = (
        A::Container,
        B::Container,
        C::Container,
        D::Container,
        E::Container,
        F::Container,
        G::Container,
        H::Container,
    );
}

/// A row is read as nested pairs: the first value, and the others.
impl<
    P: Item,
    Q: Item + Drop,
    R: Item + Drop,
    S: Item + Drop,
    T: Item + Drop,
    U: Item + Drop,
    V: Item + Drop,
    W: Item + Drop,
    A: FromRow<P>,
    B: FromRow<Q>,
    C: FromRow<R>,
    D: FromRow<S>,
    E: FromRow<T>,
    F: FromRow<U>,
    G: FromRow<V>,
    H: FromRow<W>,
> FromRow<(P, Q, R, S, T, U, V, W)> for (A, B, C, D, E, F, G, H) {
    fn from_row(
        alloc: Global,
        row: (P, Q, R, S, T, U, V, W),
    ) -> Result<(A, B, C, D, E, F, G, H), OwnError> {
        let (first, second, third, fourth, fifth, sixth, seventh, eighth) = row;
        let (first, (second, (third, (fourth, (fifth, (sixth, (seventh, eighth))))))) = <(
            A,
            (B, (C, (D, (E, (F, (G, H)))))),
        ) as FromRow<(P, (Q, (R, (S, (T, (U, (V, W)))))))>>::from_row(
            alloc,
            (
                first,
                (
                    second,
                    (third, (fourth, (fifth, (sixth, (seventh, eighth))))),
                ),
            ),
        )?;
        Ok((first, second, third, fourth, fifth, sixth, seventh, eighth))
    }
}

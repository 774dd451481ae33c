// Made by .ci/widths.py: change .ci/widths/by_refs.template, and not this file.
//! Items made of references to the fields of your own generic type. A column takes them by `PushRef`, whose bound names no
//! lifetime.
use columnar_base::fault::GrowError;
use columnar_base::storage::Truncate;
use columnar_base::traits::{Item, PushInto, PushRef};
use columnar_base::tuple::eight::enter_eight;
use columnar_base::tuple::five::enter_five;
use columnar_base::tuple::four::enter_four;
use columnar_base::tuple::nine::enter_nine;
use columnar_base::tuple::seven::enter_seven;
use columnar_base::tuple::six::enter_six;
use columnar_base::tuple::ten::enter_ten;
use columnar_base::tuple::three::enter_three;
use columnar_base::tuple::{ByRef, enter_two};

/// A reference to an item, or a tuple of references to the fields of a struct.
#[derive(Drop)]
pub struct ByRefs<T>(pub T);

/// It represents the same row as the references.
impl<T: Item> Item for ByRefs<T> {
    ghost meaning = { λ r. T.meaning r.0 };

    ghost valid = { λ r. T.valid r.0 };

    ghost unbuffered = { T.unbuffered };
}

impl<'x, P: Item, A: PushRef<P>> PushInto<A> for ByRefs<&'x P> {
    fn push_into(self, column: &mut A) -> Result<(), GrowError> {
        column.push_ref(self.0)
    }
}

impl<'x, P: Item, A: PushRef<P>> PushInto<(A,)> for ByRefs<(&'x P,)> {
    fn push_into(self, column: &mut (A,)) -> Result<(), GrowError> {
        let (first,) = self.0;
        column.0.push_ref(first)
    }
}

impl<'x, P: Item, Q: Item, A: Truncate + PushRef<P>, B: PushRef<Q>> PushInto<(A, B)>
    for ByRefs<(&'x P, &'x Q)> {
    fn push_into(self, column: &mut (A, B)) -> Result<(), GrowError> {
        let (first, second) = self.0;
        enter_two(&mut column.0, &mut column.1, ByRef(first), ByRef(second))
    }
}

impl<
    'x,
    P: Item,
    Q: Item,
    R: Item,
    A: Truncate + PushRef<P>,
    B: Truncate + PushRef<Q>,
    C: PushRef<R>,
> PushInto<(A, B, C)> for ByRefs<(&'x P, &'x Q, &'x R)> {
    fn push_into(self, column: &mut (A, B, C)) -> Result<(), GrowError> {
        let (first, second, third) = self.0;
        enter_three(
            &mut column.0,
            &mut column.1,
            &mut column.2,
            ByRef(first),
            ByRef(second),
            ByRef(third),
        )
    }
}

impl<
    'x,
    P: Item,
    Q: Item,
    R: Item,
    S: Item,
    A: Truncate + PushRef<P>,
    B: Truncate + PushRef<Q>,
    C: Truncate + PushRef<R>,
    D: PushRef<S>,
> PushInto<(A, B, C, D)> for ByRefs<(&'x P, &'x Q, &'x R, &'x S)> {
    fn push_into(self, column: &mut (A, B, C, D)) -> Result<(), GrowError> {
        let (first, second, third, fourth) = self.0;
        enter_four(
            &mut column.0,
            &mut column.1,
            &mut column.2,
            &mut column.3,
            ByRef(first),
            ByRef(second),
            ByRef(third),
            ByRef(fourth),
        )
    }
}

impl<
    'x,
    P: Item,
    Q: Item,
    R: Item,
    S: Item,
    T: Item,
    A: Truncate + PushRef<P>,
    B: Truncate + PushRef<Q>,
    C: Truncate + PushRef<R>,
    D: Truncate + PushRef<S>,
    E: PushRef<T>,
> PushInto<(A, B, C, D, E)> for ByRefs<(&'x P, &'x Q, &'x R, &'x S, &'x T)> {
    fn push_into(self, column: &mut (A, B, C, D, E)) -> Result<(), GrowError> {
        let (first, second, third, fourth, fifth) = self.0;
        enter_five(
            &mut column.0,
            &mut column.1,
            &mut column.2,
            &mut column.3,
            &mut column.4,
            ByRef(first),
            ByRef(second),
            ByRef(third),
            ByRef(fourth),
            ByRef(fifth),
        )
    }
}

impl<
    'x,
    P: Item,
    Q: Item,
    R: Item,
    S: Item,
    T: Item,
    U: Item,
    A: Truncate + PushRef<P>,
    B: Truncate + PushRef<Q>,
    C: Truncate + PushRef<R>,
    D: Truncate + PushRef<S>,
    E: Truncate + PushRef<T>,
    F: PushRef<U>,
> PushInto<(A, B, C, D, E, F)> for ByRefs<(&'x P, &'x Q, &'x R, &'x S, &'x T, &'x U)> {
    fn push_into(self, column: &mut (A, B, C, D, E, F)) -> Result<(), GrowError> {
        let (first, second, third, fourth, fifth, sixth) = self.0;
        enter_six(
            &mut column.0,
            &mut column.1,
            &mut column.2,
            &mut column.3,
            &mut column.4,
            &mut column.5,
            ByRef(first),
            ByRef(second),
            ByRef(third),
            ByRef(fourth),
            ByRef(fifth),
            ByRef(sixth),
        )
    }
}

impl<
    'x,
    P: Item,
    Q: Item,
    R: Item,
    S: Item,
    T: Item,
    U: Item,
    V: Item,
    A: Truncate + PushRef<P>,
    B: Truncate + PushRef<Q>,
    C: Truncate + PushRef<R>,
    D: Truncate + PushRef<S>,
    E: Truncate + PushRef<T>,
    F: Truncate + PushRef<U>,
    G: PushRef<V>,
> PushInto<(A, B, C, D, E, F, G)> for ByRefs<(&'x P, &'x Q, &'x R, &'x S, &'x T, &'x U, &'x V)> {
    fn push_into(self, column: &mut (A, B, C, D, E, F, G)) -> Result<(), GrowError> {
        let (first, second, third, fourth, fifth, sixth, seventh) = self.0;
        enter_seven(
            &mut column.0,
            &mut column.1,
            &mut column.2,
            &mut column.3,
            &mut column.4,
            &mut column.5,
            &mut column.6,
            ByRef(first),
            ByRef(second),
            ByRef(third),
            ByRef(fourth),
            ByRef(fifth),
            ByRef(sixth),
            ByRef(seventh),
        )
    }
}

impl<
    'x,
    P: Item,
    Q: Item,
    R: Item,
    S: Item,
    T: Item,
    U: Item,
    V: Item,
    W: Item,
    A: Truncate + PushRef<P>,
    B: Truncate + PushRef<Q>,
    C: Truncate + PushRef<R>,
    D: Truncate + PushRef<S>,
    E: Truncate + PushRef<T>,
    F: Truncate + PushRef<U>,
    G: Truncate + PushRef<V>,
    H: PushRef<W>,
> PushInto<(A, B, C, D, E, F, G, H)>
    for ByRefs<(&'x P, &'x Q, &'x R, &'x S, &'x T, &'x U, &'x V, &'x W)> {
    fn push_into(self, column: &mut (A, B, C, D, E, F, G, H)) -> Result<(), GrowError> {
        let (first, second, third, fourth, fifth, sixth, seventh, eighth) = self.0;
        enter_eight(
            &mut column.0,
            &mut column.1,
            &mut column.2,
            &mut column.3,
            &mut column.4,
            &mut column.5,
            &mut column.6,
            &mut column.7,
            ByRef(first),
            ByRef(second),
            ByRef(third),
            ByRef(fourth),
            ByRef(fifth),
            ByRef(sixth),
            ByRef(seventh),
            ByRef(eighth),
        )
    }
}

impl<
    'x,
    P: Item,
    Q: Item,
    R: Item,
    S: Item,
    T: Item,
    U: Item,
    V: Item,
    W: Item,
    X: Item,
    A: Truncate + PushRef<P>,
    B: Truncate + PushRef<Q>,
    C: Truncate + PushRef<R>,
    D: Truncate + PushRef<S>,
    E: Truncate + PushRef<T>,
    F: Truncate + PushRef<U>,
    G: Truncate + PushRef<V>,
    H: Truncate + PushRef<W>,
    I: PushRef<X>,
> PushInto<(A, B, C, D, E, F, G, H, I)>
    for ByRefs<
        (
            &'x P,
            &'x Q,
            &'x R,
            &'x S,
            &'x T,
            &'x U,
            &'x V,
            &'x W,
            &'x X,
        ),
    > {
    fn push_into(self, column: &mut (A, B, C, D, E, F, G, H, I)) -> Result<(), GrowError> {
        let (first, second, third, fourth, fifth, sixth, seventh, eighth, ninth) = self.0;
        enter_nine(
            &mut column.0,
            &mut column.1,
            &mut column.2,
            &mut column.3,
            &mut column.4,
            &mut column.5,
            &mut column.6,
            &mut column.7,
            &mut column.8,
            ByRef(first),
            ByRef(second),
            ByRef(third),
            ByRef(fourth),
            ByRef(fifth),
            ByRef(sixth),
            ByRef(seventh),
            ByRef(eighth),
            ByRef(ninth),
        )
    }
}

impl<
    'x,
    P: Item,
    Q: Item,
    R: Item,
    S: Item,
    T: Item,
    U: Item,
    V: Item,
    W: Item,
    X: Item,
    Y: Item,
    A: Truncate + PushRef<P>,
    B: Truncate + PushRef<Q>,
    C: Truncate + PushRef<R>,
    D: Truncate + PushRef<S>,
    E: Truncate + PushRef<T>,
    F: Truncate + PushRef<U>,
    G: Truncate + PushRef<V>,
    H: Truncate + PushRef<W>,
    I: Truncate + PushRef<X>,
    J: PushRef<Y>,
> PushInto<(A, B, C, D, E, F, G, H, I, J)>
    for ByRefs<
        (
            &'x P,
            &'x Q,
            &'x R,
            &'x S,
            &'x T,
            &'x U,
            &'x V,
            &'x W,
            &'x X,
            &'x Y,
        ),
    > {
    fn push_into(self, column: &mut (A, B, C, D, E, F, G, H, I, J)) -> Result<(), GrowError> {
        let (first, second, third, fourth, fifth, sixth, seventh, eighth, ninth, tenth) = self.0;
        enter_ten(
            &mut column.0,
            &mut column.1,
            &mut column.2,
            &mut column.3,
            &mut column.4,
            &mut column.5,
            &mut column.6,
            &mut column.7,
            &mut column.8,
            &mut column.9,
            ByRef(first),
            ByRef(second),
            ByRef(third),
            ByRef(fourth),
            ByRef(fifth),
            ByRef(sixth),
            ByRef(seventh),
            ByRef(eighth),
            ByRef(ninth),
            ByRef(tenth),
        )
    }
}

// Made by .ci/widths.py: change .ci/widths/same.template, and not this file.
//! Tuples of three to ten columns test whether a row equals an item: first the first part, then the others.
ghost use Rattle.std.specs.Prelude.{◌≡◌, ◌<◌, List, [], ◌∷◌, length, slice_get, Some};
ghost use Rattle.columnar_base.specs.Row.{Row, tuple};
ghost use Rattle.columnar_base.specs.Format.{both, IsSound};
ghost use Rattle.columnar_base.specs.LongTuples.{nested};

use super::{SameAs, same_two};
use columnar_base::traits::Item;

// Tests each field in its part.
pub(super) fn same_three<P: Item, Q: Item, R: Item, A: SameAs<P>, B: SameAs<Q>, C: SameAs<R>>(
    first: &A,
    second: &B,
    third: &C,
    at: usize,
    p: &P,
    q: &Q,
    r: &R,
) -> bool
    requires sound { IsSound (nested A.format (B.format ∷ C.format ∷ [])) (both (A.content first.now) (both (B.content second.now) (C.content third.now))) }
    requires in_range { at < length ((nested A.format (B.format ∷ C.format ∷ [])).rows (both (A.content first.now) (both (B.content second.now) (C.content third.now)))) }
    requires valid_first { P.valid p.now }
    requires valid_second { Q.valid q.now }
    requires valid_third { R.valid r.now }
    ensures { (row : Row) → slice_get ((nested A.format (B.format ∷ C.format ∷ [])).rows (both (A.content first.now) (both (B.content second.now) (C.content third.now)))) at ≡ Some row → result ≡ (nested A.format (B.format ∷ C.format ∷ [])).kin row (tuple (P.meaning p.now) (tuple (Q.meaning q.now) (R.meaning r.now))) }
{
    first.same(at, p) && same_two(second, third, at, q, r)
}

/// Tests each field in its part.
impl<P: Item, Q: Item, R: Item, A: SameAs<P>, B: SameAs<Q>, C: SameAs<R>> SameAs<(P, Q, R)>
    for (A, B, C) {
    fn same(&self, at: usize, item: &(P, Q, R)) -> bool {
        self.0.same(at, &item.0) && same_two(&self.1, &self.2, at, &item.1, &item.2)
    }
}

impl<'x, P: Item, Q: Item, R: Item, A: SameAs<P>, B: SameAs<Q>, C: SameAs<R>> SameAs<&'x (P, Q, R)>
    for (A, B, C) {
    fn same(&self, at: usize, item: &&'x (P, Q, R)) -> bool {
        SameAs::<(P, Q, R)>::same(self, at, *item)
    }
}

// Tests each field in its part.
pub(super) fn same_four<
    P: Item,
    Q: Item,
    R: Item,
    S: Item,
    A: SameAs<P>,
    B: SameAs<Q>,
    C: SameAs<R>,
    D: SameAs<S>,
>(first: &A, second: &B, third: &C, fourth: &D, at: usize, p: &P, q: &Q, r: &R, s: &S) -> bool
    requires sound { IsSound (nested A.format (B.format ∷ C.format ∷ D.format ∷ [])) (both (A.content first.now) (both (B.content second.now) (both (C.content third.now) (D.content fourth.now)))) }
    requires in_range { at < length ((nested A.format (B.format ∷ C.format ∷ D.format ∷ [])).rows (both (A.content first.now) (both (B.content second.now) (both (C.content third.now) (D.content fourth.now))))) }
    requires valid_first { P.valid p.now }
    requires valid_second { Q.valid q.now }
    requires valid_third { R.valid r.now }
    requires valid_fourth { S.valid s.now }
    ensures { (row : Row) → slice_get ((nested A.format (B.format ∷ C.format ∷ D.format ∷ [])).rows (both (A.content first.now) (both (B.content second.now) (both (C.content third.now) (D.content fourth.now))))) at ≡ Some row → result ≡ (nested A.format (B.format ∷ C.format ∷ D.format ∷ [])).kin row (tuple (P.meaning p.now) (tuple (Q.meaning q.now) (tuple (R.meaning r.now) (S.meaning s.now)))) }
{
    first.same(at, p) && same_three(second, third, fourth, at, q, r, s)
}

/// Tests each field in its part.
impl<
    P: Item,
    Q: Item,
    R: Item,
    S: Item,
    A: SameAs<P>,
    B: SameAs<Q>,
    C: SameAs<R>,
    D: SameAs<S>,
> SameAs<(P, Q, R, S)> for (A, B, C, D) {
    fn same(&self, at: usize, item: &(P, Q, R, S)) -> bool {
        self.0.same(at, &item.0)
            && same_three(&self.1, &self.2, &self.3, at, &item.1, &item.2, &item.3)
    }
}

impl<
    'x,
    P: Item,
    Q: Item,
    R: Item,
    S: Item,
    A: SameAs<P>,
    B: SameAs<Q>,
    C: SameAs<R>,
    D: SameAs<S>,
> SameAs<&'x (P, Q, R, S)> for (A, B, C, D) {
    fn same(&self, at: usize, item: &&'x (P, Q, R, S)) -> bool {
        SameAs::<(P, Q, R, S)>::same(self, at, *item)
    }
}

// Tests each field in its part.
pub(super) fn same_five<
    P: Item,
    Q: Item,
    R: Item,
    S: Item,
    T: Item,
    A: SameAs<P>,
    B: SameAs<Q>,
    C: SameAs<R>,
    D: SameAs<S>,
    E: SameAs<T>,
>(
    first: &A,
    second: &B,
    third: &C,
    fourth: &D,
    fifth: &E,
    at: usize,
    p: &P,
    q: &Q,
    r: &R,
    s: &S,
    t: &T,
) -> bool
    requires sound { IsSound (nested A.format (B.format ∷ C.format ∷ D.format ∷ E.format ∷ [])) (both (A.content first.now) (both (B.content second.now) (both (C.content third.now) (both (D.content fourth.now) (E.content fifth.now))))) }
    requires in_range { at < length ((nested A.format (B.format ∷ C.format ∷ D.format ∷ E.format ∷ [])).rows (both (A.content first.now) (both (B.content second.now) (both (C.content third.now) (both (D.content fourth.now) (E.content fifth.now)))))) }
    requires valid_first { P.valid p.now }
    requires valid_second { Q.valid q.now }
    requires valid_third { R.valid r.now }
    requires valid_fourth { S.valid s.now }
    requires valid_fifth { T.valid t.now }
    ensures { (row : Row) → slice_get ((nested A.format (B.format ∷ C.format ∷ D.format ∷ E.format ∷ [])).rows (both (A.content first.now) (both (B.content second.now) (both (C.content third.now) (both (D.content fourth.now) (E.content fifth.now)))))) at ≡ Some row → result ≡ (nested A.format (B.format ∷ C.format ∷ D.format ∷ E.format ∷ [])).kin row (tuple (P.meaning p.now) (tuple (Q.meaning q.now) (tuple (R.meaning r.now) (tuple (S.meaning s.now) (T.meaning t.now))))) }
{
    first.same(at, p) && same_four(second, third, fourth, fifth, at, q, r, s, t)
}

/// Tests each field in its part.
impl<
    P: Item,
    Q: Item,
    R: Item,
    S: Item,
    T: Item,
    A: SameAs<P>,
    B: SameAs<Q>,
    C: SameAs<R>,
    D: SameAs<S>,
    E: SameAs<T>,
> SameAs<(P, Q, R, S, T)> for (A, B, C, D, E) {
    fn same(&self, at: usize, item: &(P, Q, R, S, T)) -> bool {
        self.0.same(at, &item.0)
            && same_four(
                &self.1, &self.2, &self.3, &self.4, at, &item.1, &item.2, &item.3, &item.4,
            )
    }
}

impl<
    'x,
    P: Item,
    Q: Item,
    R: Item,
    S: Item,
    T: Item,
    A: SameAs<P>,
    B: SameAs<Q>,
    C: SameAs<R>,
    D: SameAs<S>,
    E: SameAs<T>,
> SameAs<&'x (P, Q, R, S, T)> for (A, B, C, D, E) {
    fn same(&self, at: usize, item: &&'x (P, Q, R, S, T)) -> bool {
        SameAs::<(P, Q, R, S, T)>::same(self, at, *item)
    }
}

// Tests each field in its part.
pub(super) fn same_six<
    P: Item,
    Q: Item,
    R: Item,
    S: Item,
    T: Item,
    U: Item,
    A: SameAs<P>,
    B: SameAs<Q>,
    C: SameAs<R>,
    D: SameAs<S>,
    E: SameAs<T>,
    F: SameAs<U>,
>(
    first: &A,
    second: &B,
    third: &C,
    fourth: &D,
    fifth: &E,
    sixth: &F,
    at: usize,
    p: &P,
    q: &Q,
    r: &R,
    s: &S,
    t: &T,
    u: &U,
) -> bool
    requires sound { IsSound (nested A.format (B.format ∷ C.format ∷ D.format ∷ E.format ∷ F.format ∷ [])) (both (A.content first.now) (both (B.content second.now) (both (C.content third.now) (both (D.content fourth.now) (both (E.content fifth.now) (F.content sixth.now)))))) }
    requires in_range { at < length ((nested A.format (B.format ∷ C.format ∷ D.format ∷ E.format ∷ F.format ∷ [])).rows (both (A.content first.now) (both (B.content second.now) (both (C.content third.now) (both (D.content fourth.now) (both (E.content fifth.now) (F.content sixth.now))))))) }
    requires valid_first { P.valid p.now }
    requires valid_second { Q.valid q.now }
    requires valid_third { R.valid r.now }
    requires valid_fourth { S.valid s.now }
    requires valid_fifth { T.valid t.now }
    requires valid_sixth { U.valid u.now }
    ensures { (row : Row) → slice_get ((nested A.format (B.format ∷ C.format ∷ D.format ∷ E.format ∷ F.format ∷ [])).rows (both (A.content first.now) (both (B.content second.now) (both (C.content third.now) (both (D.content fourth.now) (both (E.content fifth.now) (F.content sixth.now))))))) at ≡ Some row → result ≡ (nested A.format (B.format ∷ C.format ∷ D.format ∷ E.format ∷ F.format ∷ [])).kin row (tuple (P.meaning p.now) (tuple (Q.meaning q.now) (tuple (R.meaning r.now) (tuple (S.meaning s.now) (tuple (T.meaning t.now) (U.meaning u.now)))))) }
{
    first.same(at, p) && same_five(second, third, fourth, fifth, sixth, at, q, r, s, t, u)
}

/// Tests each field in its part.
impl<
    P: Item,
    Q: Item,
    R: Item,
    S: Item,
    T: Item,
    U: Item,
    A: SameAs<P>,
    B: SameAs<Q>,
    C: SameAs<R>,
    D: SameAs<S>,
    E: SameAs<T>,
    F: SameAs<U>,
> SameAs<(P, Q, R, S, T, U)> for (A, B, C, D, E, F) {
    fn same(&self, at: usize, item: &(P, Q, R, S, T, U)) -> bool {
        self.0.same(at, &item.0)
            && same_five(
                &self.1, &self.2, &self.3, &self.4, &self.5, at, &item.1, &item.2, &item.3,
                &item.4, &item.5,
            )
    }
}

impl<
    'x,
    P: Item,
    Q: Item,
    R: Item,
    S: Item,
    T: Item,
    U: Item,
    A: SameAs<P>,
    B: SameAs<Q>,
    C: SameAs<R>,
    D: SameAs<S>,
    E: SameAs<T>,
    F: SameAs<U>,
> SameAs<&'x (P, Q, R, S, T, U)> for (A, B, C, D, E, F) {
    fn same(&self, at: usize, item: &&'x (P, Q, R, S, T, U)) -> bool {
        SameAs::<(P, Q, R, S, T, U)>::same(self, at, *item)
    }
}

// Tests each field in its part.
pub(super) fn same_seven<
    P: Item,
    Q: Item,
    R: Item,
    S: Item,
    T: Item,
    U: Item,
    V: Item,
    A: SameAs<P>,
    B: SameAs<Q>,
    C: SameAs<R>,
    D: SameAs<S>,
    E: SameAs<T>,
    F: SameAs<U>,
    G: SameAs<V>,
>(
    first: &A,
    second: &B,
    third: &C,
    fourth: &D,
    fifth: &E,
    sixth: &F,
    seventh: &G,
    at: usize,
    p: &P,
    q: &Q,
    r: &R,
    s: &S,
    t: &T,
    u: &U,
    v: &V,
) -> bool
    requires sound { IsSound (nested A.format (B.format ∷ C.format ∷ D.format ∷ E.format ∷ F.format ∷ G.format ∷ [])) (both (A.content first.now) (both (B.content second.now) (both (C.content third.now) (both (D.content fourth.now) (both (E.content fifth.now) (both (F.content sixth.now) (G.content seventh.now))))))) }
    requires in_range { at < length ((nested A.format (B.format ∷ C.format ∷ D.format ∷ E.format ∷ F.format ∷ G.format ∷ [])).rows (both (A.content first.now) (both (B.content second.now) (both (C.content third.now) (both (D.content fourth.now) (both (E.content fifth.now) (both (F.content sixth.now) (G.content seventh.now)))))))) }
    requires valid_first { P.valid p.now }
    requires valid_second { Q.valid q.now }
    requires valid_third { R.valid r.now }
    requires valid_fourth { S.valid s.now }
    requires valid_fifth { T.valid t.now }
    requires valid_sixth { U.valid u.now }
    requires valid_seventh { V.valid v.now }
    ensures { (row : Row) → slice_get ((nested A.format (B.format ∷ C.format ∷ D.format ∷ E.format ∷ F.format ∷ G.format ∷ [])).rows (both (A.content first.now) (both (B.content second.now) (both (C.content third.now) (both (D.content fourth.now) (both (E.content fifth.now) (both (F.content sixth.now) (G.content seventh.now)))))))) at ≡ Some row → result ≡ (nested A.format (B.format ∷ C.format ∷ D.format ∷ E.format ∷ F.format ∷ G.format ∷ [])).kin row (tuple (P.meaning p.now) (tuple (Q.meaning q.now) (tuple (R.meaning r.now) (tuple (S.meaning s.now) (tuple (T.meaning t.now) (tuple (U.meaning u.now) (V.meaning v.now))))))) }
{
    first.same(at, p)
        && same_six(
            second, third, fourth, fifth, sixth, seventh, at, q, r, s, t, u, v,
        )
}

/// Tests each field in its part.
impl<
    P: Item,
    Q: Item,
    R: Item,
    S: Item,
    T: Item,
    U: Item,
    V: Item,
    A: SameAs<P>,
    B: SameAs<Q>,
    C: SameAs<R>,
    D: SameAs<S>,
    E: SameAs<T>,
    F: SameAs<U>,
    G: SameAs<V>,
> SameAs<(P, Q, R, S, T, U, V)> for (A, B, C, D, E, F, G) {
    fn same(&self, at: usize, item: &(P, Q, R, S, T, U, V)) -> bool {
        self.0.same(at, &item.0)
            && same_six(
                &self.1, &self.2, &self.3, &self.4, &self.5, &self.6, at, &item.1, &item.2,
                &item.3, &item.4, &item.5, &item.6,
            )
    }
}

impl<
    'x,
    P: Item,
    Q: Item,
    R: Item,
    S: Item,
    T: Item,
    U: Item,
    V: Item,
    A: SameAs<P>,
    B: SameAs<Q>,
    C: SameAs<R>,
    D: SameAs<S>,
    E: SameAs<T>,
    F: SameAs<U>,
    G: SameAs<V>,
> SameAs<&'x (P, Q, R, S, T, U, V)> for (A, B, C, D, E, F, G) {
    fn same(&self, at: usize, item: &&'x (P, Q, R, S, T, U, V)) -> bool {
        SameAs::<(P, Q, R, S, T, U, V)>::same(self, at, *item)
    }
}

// Tests each field in its part.
pub(super) fn same_eight<
    P: Item,
    Q: Item,
    R: Item,
    S: Item,
    T: Item,
    U: Item,
    V: Item,
    W: Item,
    A: SameAs<P>,
    B: SameAs<Q>,
    C: SameAs<R>,
    D: SameAs<S>,
    E: SameAs<T>,
    F: SameAs<U>,
    G: SameAs<V>,
    H: SameAs<W>,
>(
    first: &A,
    second: &B,
    third: &C,
    fourth: &D,
    fifth: &E,
    sixth: &F,
    seventh: &G,
    eighth: &H,
    at: usize,
    p: &P,
    q: &Q,
    r: &R,
    s: &S,
    t: &T,
    u: &U,
    v: &V,
    w: &W,
) -> bool
    requires sound { IsSound (nested A.format (B.format ∷ C.format ∷ D.format ∷ E.format ∷ F.format ∷ G.format ∷ H.format ∷ [])) (both (A.content first.now) (both (B.content second.now) (both (C.content third.now) (both (D.content fourth.now) (both (E.content fifth.now) (both (F.content sixth.now) (both (G.content seventh.now) (H.content eighth.now)))))))) }
    requires in_range { at < length ((nested A.format (B.format ∷ C.format ∷ D.format ∷ E.format ∷ F.format ∷ G.format ∷ H.format ∷ [])).rows (both (A.content first.now) (both (B.content second.now) (both (C.content third.now) (both (D.content fourth.now) (both (E.content fifth.now) (both (F.content sixth.now) (both (G.content seventh.now) (H.content eighth.now))))))))) }
    requires valid_first { P.valid p.now }
    requires valid_second { Q.valid q.now }
    requires valid_third { R.valid r.now }
    requires valid_fourth { S.valid s.now }
    requires valid_fifth { T.valid t.now }
    requires valid_sixth { U.valid u.now }
    requires valid_seventh { V.valid v.now }
    requires valid_eighth { W.valid w.now }
    ensures { (row : Row) → slice_get ((nested A.format (B.format ∷ C.format ∷ D.format ∷ E.format ∷ F.format ∷ G.format ∷ H.format ∷ [])).rows (both (A.content first.now) (both (B.content second.now) (both (C.content third.now) (both (D.content fourth.now) (both (E.content fifth.now) (both (F.content sixth.now) (both (G.content seventh.now) (H.content eighth.now))))))))) at ≡ Some row → result ≡ (nested A.format (B.format ∷ C.format ∷ D.format ∷ E.format ∷ F.format ∷ G.format ∷ H.format ∷ [])).kin row (tuple (P.meaning p.now) (tuple (Q.meaning q.now) (tuple (R.meaning r.now) (tuple (S.meaning s.now) (tuple (T.meaning t.now) (tuple (U.meaning u.now) (tuple (V.meaning v.now) (W.meaning w.now)))))))) }
{
    first.same(at, p)
        && same_seven(
            second, third, fourth, fifth, sixth, seventh, eighth, at, q, r, s, t, u, v, w,
        )
}

/// Tests each field in its part.
impl<
    P: Item,
    Q: Item,
    R: Item,
    S: Item,
    T: Item,
    U: Item,
    V: Item,
    W: Item,
    A: SameAs<P>,
    B: SameAs<Q>,
    C: SameAs<R>,
    D: SameAs<S>,
    E: SameAs<T>,
    F: SameAs<U>,
    G: SameAs<V>,
    H: SameAs<W>,
> SameAs<(P, Q, R, S, T, U, V, W)> for (A, B, C, D, E, F, G, H) {
    fn same(&self, at: usize, item: &(P, Q, R, S, T, U, V, W)) -> bool {
        self.0.same(at, &item.0)
            && same_seven(
                &self.1, &self.2, &self.3, &self.4, &self.5, &self.6, &self.7, at, &item.1,
                &item.2, &item.3, &item.4, &item.5, &item.6, &item.7,
            )
    }
}

impl<
    'x,
    P: Item,
    Q: Item,
    R: Item,
    S: Item,
    T: Item,
    U: Item,
    V: Item,
    W: Item,
    A: SameAs<P>,
    B: SameAs<Q>,
    C: SameAs<R>,
    D: SameAs<S>,
    E: SameAs<T>,
    F: SameAs<U>,
    G: SameAs<V>,
    H: SameAs<W>,
> SameAs<&'x (P, Q, R, S, T, U, V, W)> for (A, B, C, D, E, F, G, H) {
    fn same(&self, at: usize, item: &&'x (P, Q, R, S, T, U, V, W)) -> bool {
        SameAs::<(P, Q, R, S, T, U, V, W)>::same(self, at, *item)
    }
}

// Tests each field in its part.
pub(super) fn same_nine<
    P: Item,
    Q: Item,
    R: Item,
    S: Item,
    T: Item,
    U: Item,
    V: Item,
    W: Item,
    X: Item,
    A: SameAs<P>,
    B: SameAs<Q>,
    C: SameAs<R>,
    D: SameAs<S>,
    E: SameAs<T>,
    F: SameAs<U>,
    G: SameAs<V>,
    H: SameAs<W>,
    I: SameAs<X>,
>(
    first: &A,
    second: &B,
    third: &C,
    fourth: &D,
    fifth: &E,
    sixth: &F,
    seventh: &G,
    eighth: &H,
    ninth: &I,
    at: usize,
    p: &P,
    q: &Q,
    r: &R,
    s: &S,
    t: &T,
    u: &U,
    v: &V,
    w: &W,
    x: &X,
) -> bool
    requires sound { IsSound (nested A.format (B.format ∷ C.format ∷ D.format ∷ E.format ∷ F.format ∷ G.format ∷ H.format ∷ I.format ∷ [])) (both (A.content first.now) (both (B.content second.now) (both (C.content third.now) (both (D.content fourth.now) (both (E.content fifth.now) (both (F.content sixth.now) (both (G.content seventh.now) (both (H.content eighth.now) (I.content ninth.now))))))))) }
    requires in_range { at < length ((nested A.format (B.format ∷ C.format ∷ D.format ∷ E.format ∷ F.format ∷ G.format ∷ H.format ∷ I.format ∷ [])).rows (both (A.content first.now) (both (B.content second.now) (both (C.content third.now) (both (D.content fourth.now) (both (E.content fifth.now) (both (F.content sixth.now) (both (G.content seventh.now) (both (H.content eighth.now) (I.content ninth.now)))))))))) }
    requires valid_first { P.valid p.now }
    requires valid_second { Q.valid q.now }
    requires valid_third { R.valid r.now }
    requires valid_fourth { S.valid s.now }
    requires valid_fifth { T.valid t.now }
    requires valid_sixth { U.valid u.now }
    requires valid_seventh { V.valid v.now }
    requires valid_eighth { W.valid w.now }
    requires valid_ninth { X.valid x.now }
    ensures { (row : Row) → slice_get ((nested A.format (B.format ∷ C.format ∷ D.format ∷ E.format ∷ F.format ∷ G.format ∷ H.format ∷ I.format ∷ [])).rows (both (A.content first.now) (both (B.content second.now) (both (C.content third.now) (both (D.content fourth.now) (both (E.content fifth.now) (both (F.content sixth.now) (both (G.content seventh.now) (both (H.content eighth.now) (I.content ninth.now)))))))))) at ≡ Some row → result ≡ (nested A.format (B.format ∷ C.format ∷ D.format ∷ E.format ∷ F.format ∷ G.format ∷ H.format ∷ I.format ∷ [])).kin row (tuple (P.meaning p.now) (tuple (Q.meaning q.now) (tuple (R.meaning r.now) (tuple (S.meaning s.now) (tuple (T.meaning t.now) (tuple (U.meaning u.now) (tuple (V.meaning v.now) (tuple (W.meaning w.now) (X.meaning x.now))))))))) }
{
    first.same(at, p)
        && same_eight(
            second, third, fourth, fifth, sixth, seventh, eighth, ninth, at, q, r, s, t, u, v, w, x,
        )
}

/// Tests each field in its part.
impl<
    P: Item,
    Q: Item,
    R: Item,
    S: Item,
    T: Item,
    U: Item,
    V: Item,
    W: Item,
    X: Item,
    A: SameAs<P>,
    B: SameAs<Q>,
    C: SameAs<R>,
    D: SameAs<S>,
    E: SameAs<T>,
    F: SameAs<U>,
    G: SameAs<V>,
    H: SameAs<W>,
    I: SameAs<X>,
> SameAs<(P, Q, R, S, T, U, V, W, X)> for (A, B, C, D, E, F, G, H, I) {
    fn same(&self, at: usize, item: &(P, Q, R, S, T, U, V, W, X)) -> bool {
        self.0.same(at, &item.0)
            && same_eight(
                &self.1, &self.2, &self.3, &self.4, &self.5, &self.6, &self.7, &self.8, at,
                &item.1, &item.2, &item.3, &item.4, &item.5, &item.6, &item.7, &item.8,
            )
    }
}

impl<
    'x,
    P: Item,
    Q: Item,
    R: Item,
    S: Item,
    T: Item,
    U: Item,
    V: Item,
    W: Item,
    X: Item,
    A: SameAs<P>,
    B: SameAs<Q>,
    C: SameAs<R>,
    D: SameAs<S>,
    E: SameAs<T>,
    F: SameAs<U>,
    G: SameAs<V>,
    H: SameAs<W>,
    I: SameAs<X>,
> SameAs<&'x (P, Q, R, S, T, U, V, W, X)> for (A, B, C, D, E, F, G, H, I) {
    fn same(&self, at: usize, item: &&'x (P, Q, R, S, T, U, V, W, X)) -> bool {
        SameAs::<(P, Q, R, S, T, U, V, W, X)>::same(self, at, *item)
    }
}

/// Tests each field in its part.
impl<
    P: Item,
    Q: Item,
    R: Item,
    S: Item,
    T: Item,
    U: Item,
    V: Item,
    W: Item,
    X: Item,
    Y: Item,
    A: SameAs<P>,
    B: SameAs<Q>,
    C: SameAs<R>,
    D: SameAs<S>,
    E: SameAs<T>,
    F: SameAs<U>,
    G: SameAs<V>,
    H: SameAs<W>,
    I: SameAs<X>,
    J: SameAs<Y>,
> SameAs<(P, Q, R, S, T, U, V, W, X, Y)> for (A, B, C, D, E, F, G, H, I, J) {
    fn same(&self, at: usize, item: &(P, Q, R, S, T, U, V, W, X, Y)) -> bool {
        self.0.same(at, &item.0)
            && same_nine(
                &self.1, &self.2, &self.3, &self.4, &self.5, &self.6, &self.7, &self.8, &self.9,
                at, &item.1, &item.2, &item.3, &item.4, &item.5, &item.6, &item.7, &item.8,
                &item.9,
            )
    }
}

impl<
    'x,
    P: Item,
    Q: Item,
    R: Item,
    S: Item,
    T: Item,
    U: Item,
    V: Item,
    W: Item,
    X: Item,
    Y: Item,
    A: SameAs<P>,
    B: SameAs<Q>,
    C: SameAs<R>,
    D: SameAs<S>,
    E: SameAs<T>,
    F: SameAs<U>,
    G: SameAs<V>,
    H: SameAs<W>,
    I: SameAs<X>,
    J: SameAs<Y>,
> SameAs<&'x (P, Q, R, S, T, U, V, W, X, Y)> for (A, B, C, D, E, F, G, H, I, J) {
    fn same(&self, at: usize, item: &&'x (P, Q, R, S, T, U, V, W, X, Y)) -> bool {
        SameAs::<(P, Q, R, S, T, U, V, W, X, Y)>::same(self, at, *item)
    }
}

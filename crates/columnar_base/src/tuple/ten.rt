// Made by .ci/widths.py: change .ci/widths/base.template, and not this file.
//! Tuples of ten columns of equal length.
ghost use Rattle.std.specs.Prelude.{◌≡◌, List, [], ◌∷◌, OnOk, IfErr};
ghost use Rattle.columnar_base.specs.Row.{tuple};
ghost use Rattle.columnar_base.specs.Format.{both, IsSound};
ghost use Rattle.columnar_base.specs.Change.{Refused};
ghost use Rattle.columnar_base.specs.TupleLaws.{pair_lawful};
ghost use Rattle.columnar_base.specs.LongTuples.{nested, tuple_format};
ghost use Rattle.columnar_base.specs.LongTupleLaws.{tuple_lawful};
ghost use Rattle.columnar_base.specs.Entries.{Entered, Level, joined_entry};
ghost use Rattle.columnar_base.specs.Room.{WasFull, Leaves, pair_room};

use crate::fault::GrowError;
use crate::storage::{Reserve, Storage, Truncate};
use crate::traits::{Clear, Column, Index, Item, Len, Push, PushInto, PushRef};
use crate::tuple::nine::enter_nine;
use crate::tuple::{ByRef, ByValue, Enter, duplicate_after, reserve_after, taken_back};
use std::alloc::Global;

/// Its row is the tuple of its parts' rows.
impl<P: Item, Q: Item, R: Item, S: Item, T: Item, U: Item, V: Item, W: Item, X: Item, Y: Item> Item
    for (P, Q, R, S, T, U, V, W, X, Y) {
    ghost meaning = { λ p. tuple (P.meaning p.0) (tuple (Q.meaning p.1) (tuple (R.meaning p.2) (tuple (S.meaning p.3) (tuple (T.meaning p.4) (tuple (U.meaning p.5) (tuple (V.meaning p.6) (tuple (W.meaning p.7) (tuple (X.meaning p.8) (Y.meaning p.9))))))))) };

    ghost valid = { λ p. P.valid p.0 × (Q.valid p.1 × (R.valid p.2 × (S.valid p.3 × (T.valid p.4 × (U.valid p.5 × (V.valid p.6 × (W.valid p.7 × (X.valid p.8 × Y.valid p.9)))))))) };

    ghost unbuffered = { P.unbuffered × (Q.unbuffered × (R.unbuffered × (S.unbuffered × (T.unbuffered × (U.unbuffered × (V.unbuffered × (W.unbuffered × (X.unbuffered × Y.unbuffered)))))))) };
}

/// The slices of the parts in order. Each row is the tuple of the parts' rows.
impl<
    A: Column,
    B: Column,
    C: Column,
    D: Column,
    E: Column,
    F: Column,
    G: Column,
    H: Column,
    I: Column,
    J: Column,
> Column for (A, B, C, D, E, F, G, H, I, J) {
    ghost format = { tuple_format A.format B.format (C.format ∷ D.format ∷ E.format ∷ F.format ∷ G.format ∷ H.format ∷ I.format ∷ J.format ∷ []) };

    ghost content = { λ c. both (A.content c.0) (both (B.content c.1) (both (C.content c.2) (both (D.content c.3) (both (E.content c.4) (both (F.content c.5) (both (G.content c.6) (both (H.content c.7) (both (I.content c.8) (J.content c.9))))))))) };

    ghost room = { λ c. pair_room (A.room c.0) (pair_room (B.room c.1) (pair_room (C.room c.2) (pair_room (D.room c.3) (pair_room (E.room c.4) (pair_room (F.room c.5) (pair_room (G.room c.6) (pair_room (H.room c.7) (pair_room (I.room c.8) (J.room c.9))))))))) };
}

impl<
    A: Len,
    B: Column,
    C: Column,
    D: Column,
    E: Column,
    F: Column,
    G: Column,
    H: Column,
    I: Column,
    J: Column,
> Len for (A, B, C, D, E, F, G, H, I, J) {
    fn len(&self) -> usize {
        self.0.len()
    }
}

impl<
    A: Index,
    B: Index,
    C: Index,
    D: Index,
    E: Index,
    F: Index,
    G: Index,
    H: Index,
    I: Index,
    J: Index,
> Index for (A, B, C, D, E, F, G, H, I, J) {
    type Ref = (
        A::Ref,
        B::Ref,
        C::Ref,
        D::Ref,
        E::Ref,
        F::Ref,
        G::Ref,
        H::Ref,
        I::Ref,
        J::Ref,
    );

    fn get(
        &self,
        index: usize,
    ) -> (
        A::Ref,
        B::Ref,
        C::Ref,
        D::Ref,
        E::Ref,
        F::Ref,
        G::Ref,
        H::Ref,
        I::Ref,
        J::Ref,
    ) {
        let first = self.0.get(index);
        let second = self.1.get(index);
        let third = self.2.get(index);
        let fourth = self.3.get(index);
        let fifth = self.4.get(index);
        let sixth = self.5.get(index);
        let seventh = self.6.get(index);
        let eighth = self.7.get(index);
        let ninth = self.8.get(index);
        let tenth = self.9.get(index);
        (
            first, second, third, fourth, fifth, sixth, seventh, eighth, ninth, tenth,
        )
    }
}

/// Reads rows through a reference: each row is the tuple of the parts' rows, read through references.
impl<'a, A, B, C, D, E, F, G, H, I, J> Index for &'a (A, B, C, D, E, F, G, H, I, J)
where
    A: Column,
    B: Column,
    C: Column,
    D: Column,
    E: Column,
    F: Column,
    G: Column,
    H: Column,
    I: Column,
    J: Column,
    &'a A: Index,
    &'a B: Index,
    &'a C: Index,
    &'a D: Index,
    &'a E: Index,
    &'a F: Index,
    &'a G: Index,
    &'a H: Index,
    &'a I: Index,
    &'a J: Index,
{
    type Ref = (
        <&'a A as Index>::Ref,
        <&'a B as Index>::Ref,
        <&'a C as Index>::Ref,
        <&'a D as Index>::Ref,
        <&'a E as Index>::Ref,
        <&'a F as Index>::Ref,
        <&'a G as Index>::Ref,
        <&'a H as Index>::Ref,
        <&'a I as Index>::Ref,
        <&'a J as Index>::Ref,
    );

    fn get(
        &self,
        index: usize,
    ) -> (
        <&'a A as Index>::Ref,
        <&'a B as Index>::Ref,
        <&'a C as Index>::Ref,
        <&'a D as Index>::Ref,
        <&'a E as Index>::Ref,
        <&'a F as Index>::Ref,
        <&'a G as Index>::Ref,
        <&'a H as Index>::Ref,
        <&'a I as Index>::Ref,
        <&'a J as Index>::Ref,
    ) {
        let column: &'a (A, B, C, D, E, F, G, H, I, J) = *self;
        let first: &'a A = &column.0;
        let second: &'a B = &column.1;
        let third: &'a C = &column.2;
        let fourth: &'a D = &column.3;
        let fifth: &'a E = &column.4;
        let sixth: &'a F = &column.5;
        let seventh: &'a G = &column.6;
        let eighth: &'a H = &column.7;
        let ninth: &'a I = &column.8;
        let tenth: &'a J = &column.9;
        (
            first.get(index),
            second.get(index),
            third.get(index),
            fourth.get(index),
            fifth.get(index),
            sixth.get(index),
            seventh.get(index),
            eighth.get(index),
            ninth.get(index),
            tenth.get(index),
        )
    }
}

impl<
    A: Clear,
    B: Clear,
    C: Clear,
    D: Clear,
    E: Clear,
    F: Clear,
    G: Clear,
    H: Clear,
    I: Clear,
    J: Clear,
> Clear for (A, B, C, D, E, F, G, H, I, J) {
    fn clear(&mut self) {
        self.0.clear();
        self.1.clear();
        self.2.clear();
        self.3.clear();
        self.4.clear();
        self.5.clear();
        self.6.clear();
        self.7.clear();
        self.8.clear();
        self.9.clear();
    }
}

impl<
    A: Truncate,
    B: Truncate,
    C: Truncate,
    D: Truncate,
    E: Truncate,
    F: Truncate,
    G: Truncate,
    H: Truncate,
    I: Truncate,
    J: Truncate,
> Truncate for (A, B, C, D, E, F, G, H, I, J) {
    ghost lawful = { tuple_lawful A.format B.format (C.format ∷ D.format ∷ E.format ∷ F.format ∷ G.format ∷ H.format ∷ I.format ∷ J.format ∷ []) (pair_lawful A.format (nested B.format (C.format ∷ D.format ∷ E.format ∷ F.format ∷ G.format ∷ H.format ∷ I.format ∷ J.format ∷ [])) A.lawful (pair_lawful B.format (nested C.format (D.format ∷ E.format ∷ F.format ∷ G.format ∷ H.format ∷ I.format ∷ J.format ∷ [])) B.lawful (pair_lawful C.format (nested D.format (E.format ∷ F.format ∷ G.format ∷ H.format ∷ I.format ∷ J.format ∷ [])) C.lawful (pair_lawful D.format (nested E.format (F.format ∷ G.format ∷ H.format ∷ I.format ∷ J.format ∷ [])) D.lawful (pair_lawful E.format (nested F.format (G.format ∷ H.format ∷ I.format ∷ J.format ∷ [])) E.lawful (pair_lawful F.format (nested G.format (H.format ∷ I.format ∷ J.format ∷ [])) F.lawful (pair_lawful G.format (nested H.format (I.format ∷ J.format ∷ [])) G.lawful (pair_lawful H.format (nested I.format (J.format ∷ [])) H.lawful (pair_lawful I.format (nested J.format ([])) I.lawful J.lawful))))))))) };

    fn truncate(&mut self, n: usize) {
        self.0.truncate(n);
        self.1.truncate(n);
        self.2.truncate(n);
        self.3.truncate(n);
        self.4.truncate(n);
        self.5.truncate(n);
        self.6.truncate(n);
        self.7.truncate(n);
        self.8.truncate(n);
        self.9.truncate(n);
    }
}

impl<
    A: Storage,
    B: Storage,
    C: Storage,
    D: Storage,
    E: Storage,
    F: Storage,
    G: Storage,
    H: Storage,
    I: Storage,
    J: Storage,
> Storage for (A, B, C, D, E, F, G, H, I, J) {
    fn empty(alloc: Global) -> Self {
        let first = A::empty(alloc);
        let second = B::empty(alloc);
        let third = C::empty(alloc);
        let fourth = D::empty(alloc);
        let fifth = E::empty(alloc);
        let sixth = F::empty(alloc);
        let seventh = G::empty(alloc);
        let eighth = H::empty(alloc);
        let ninth = I::empty(alloc);
        let tenth = J::empty(alloc);
        (
            first, second, third, fourth, fifth, sixth, seventh, eighth, ninth, tenth,
        )
    }

    fn duplicate(&self, alloc: Global) -> Result<Self, GrowError> {
        let parts = self.0.duplicate(alloc);
        let parts = duplicate_after(parts, &self.1, alloc);
        let parts = duplicate_after(parts, &self.2, alloc);
        let parts = duplicate_after(parts, &self.3, alloc);
        let parts = duplicate_after(parts, &self.4, alloc);
        let parts = duplicate_after(parts, &self.5, alloc);
        let parts = duplicate_after(parts, &self.6, alloc);
        let parts = duplicate_after(parts, &self.7, alloc);
        let parts = duplicate_after(parts, &self.8, alloc);
        let parts = duplicate_after(parts, &self.9, alloc);
        let (
            ((((((((first, second), third), fourth), fifth), sixth), seventh), eighth), ninth),
            tenth,
        ) = parts?;
        Ok((
            first, second, third, fourth, fifth, sixth, seventh, eighth, ninth, tenth,
        ))
    }
}

impl<
    A: Reserve,
    B: Reserve,
    C: Reserve,
    D: Reserve,
    E: Reserve,
    F: Reserve,
    G: Reserve,
    H: Reserve,
    I: Reserve,
    J: Reserve,
> Reserve for (A, B, C, D, E, F, G, H, I, J) {
    type Room = (
        A::Room,
        B::Room,
        C::Room,
        D::Room,
        E::Room,
        F::Room,
        G::Room,
        H::Room,
        I::Room,
        J::Room,
    );

    ghost reserves = { A.reserves × (B.reserves × (C.reserves × (D.reserves × (E.reserves × (F.reserves × (G.reserves × (H.reserves × (I.reserves × J.reserves)))))))) };

    ghost covers = { λ r. pair_room (A.covers r.0) (pair_room (B.covers r.1) (pair_room (C.covers r.2) (pair_room (D.covers r.3) (pair_room (E.covers r.4) (pair_room (F.covers r.5) (pair_room (G.covers r.6) (pair_room (H.covers r.7) (pair_room (I.covers r.8) (J.covers r.9))))))))) };

    fn no_room() -> (
        A::Room,
        B::Room,
        C::Room,
        D::Room,
        E::Room,
        F::Room,
        G::Room,
        H::Room,
        I::Room,
        J::Room,
    ) {
        (
            A::no_room(),
            B::no_room(),
            C::no_room(),
            D::no_room(),
            E::no_room(),
            F::no_room(),
            G::no_room(),
            H::no_room(),
            I::no_room(),
            J::no_room(),
        )
    }

    fn reserve_room(
        &mut self,
        room: (
            A::Room,
            B::Room,
            C::Room,
            D::Room,
            E::Room,
            F::Room,
            G::Room,
            H::Room,
            I::Room,
            J::Room,
        ),
    ) -> Result<(), GrowError> {
        let done = self.0.reserve_room(room.0);
        let done = reserve_after(done, &mut self.1, room.1);
        let done = reserve_after(done, &mut self.2, room.2);
        let done = reserve_after(done, &mut self.3, room.3);
        let done = reserve_after(done, &mut self.4, room.4);
        let done = reserve_after(done, &mut self.5, room.5);
        let done = reserve_after(done, &mut self.6, room.6);
        let done = reserve_after(done, &mut self.7, room.7);
        let done = reserve_after(done, &mut self.8, room.8);
        reserve_after(done, &mut self.9, room.9)
    }
}

/// Takes every item with `PushInto`: tuples of items of the parts, by value or by reference.
impl<
    Z: PushInto<(A, B, C, D, E, F, G, H, I, J)>,
    A: Column,
    B: Column,
    C: Column,
    D: Column,
    E: Column,
    F: Column,
    G: Column,
    H: Column,
    I: Column,
    J: Column,
> Push<Z> for (A, B, C, D, E, F, G, H, I, J) {
    #[inline(always)]
    fn push(&mut self, item: Z) -> Result<(), GrowError> {
        item.push_into(self)
    }
}

/// Enters each item or range into its part, for ten parts. If one part refuses, none changes.
///
/// # Requires
/// A well-formed tuple, valid entries, and equally many rows for all parts, from the same start.
///
/// # Errors
/// The error of the part that refuses.
#[inline(always)]
pub fn enter_ten<
    A: Truncate,
    B: Truncate,
    C: Truncate,
    D: Truncate,
    E: Truncate,
    F: Truncate,
    G: Truncate,
    H: Truncate,
    I: Truncate,
    J: Column,
    P: Enter<A>,
    Q: Enter<B> + Drop,
    R: Enter<C> + Drop,
    S: Enter<D> + Drop,
    T: Enter<E> + Drop,
    U: Enter<F> + Drop,
    V: Enter<G> + Drop,
    W: Enter<H> + Drop,
    X: Enter<I> + Drop,
    Y: Enter<J> + Drop,
>(
    first: &mut A,
    second: &mut B,
    third: &mut C,
    fourth: &mut D,
    fifth: &mut E,
    sixth: &mut F,
    seventh: &mut G,
    eighth: &mut H,
    ninth: &mut I,
    tenth: &mut J,
    p: P,
    q: Q,
    r: R,
    s: S,
    t: T,
    u: U,
    v: V,
    w: W,
    x: X,
    y: Y,
) -> Result<(), GrowError>
    requires sound { IsSound (nested A.format (B.format ∷ C.format ∷ D.format ∷ E.format ∷ F.format ∷ G.format ∷ H.format ∷ I.format ∷ J.format ∷ [])) (both (A.content first.old) (both (B.content second.old) (both (C.content third.old) (both (D.content fourth.old) (both (E.content fifth.old) (both (F.content sixth.old) (both (G.content seventh.old) (both (H.content eighth.old) (both (I.content ninth.old) (J.content tenth.old)))))))))) }
    requires valid { P.valid p × (Q.valid q × (R.valid r × (S.valid s × (T.valid t × (U.valid u × (V.valid v × (W.valid w × (X.valid x × Y.valid y)))))))) }
    requires level { Level (P.entry p) (Q.entry q ∷ R.entry r ∷ S.entry s ∷ T.entry t ∷ U.entry u ∷ V.entry v ∷ W.entry w ∷ X.entry x ∷ Y.entry y ∷ []) }
    ensures ok { OnOk result (Entered (nested A.format (B.format ∷ C.format ∷ D.format ∷ E.format ∷ F.format ∷ G.format ∷ H.format ∷ I.format ∷ J.format ∷ [])) (both (A.content first.old) (both (B.content second.old) (both (C.content third.old) (both (D.content fourth.old) (both (E.content fifth.old) (both (F.content sixth.old) (both (G.content seventh.old) (both (H.content eighth.old) (both (I.content ninth.old) (J.content tenth.old)))))))))) (both (A.content first.new) (both (B.content second.new) (both (C.content third.new) (both (D.content fourth.new) (both (E.content fifth.new) (both (F.content sixth.new) (both (G.content seventh.new) (both (H.content eighth.new) (both (I.content ninth.new) (J.content tenth.new)))))))))) (joined_entry (P.entry p) (Q.entry q ∷ R.entry r ∷ S.entry s ∷ T.entry t ∷ U.entry u ∷ V.entry v ∷ W.entry w ∷ X.entry x ∷ Y.entry y ∷ []))) }
    ensures err { IfErr result (λ e. Refused (nested A.format (B.format ∷ C.format ∷ D.format ∷ E.format ∷ F.format ∷ G.format ∷ H.format ∷ I.format ∷ J.format ∷ [])) (both (A.content first.old) (both (B.content second.old) (both (C.content third.old) (both (D.content fourth.old) (both (E.content fifth.old) (both (F.content sixth.old) (both (G.content seventh.old) (both (H.content eighth.old) (both (I.content ninth.old) (J.content tenth.old)))))))))) (both (A.content first.new) (both (B.content second.new) (both (C.content third.new) (both (D.content fourth.new) (both (E.content fifth.new) (both (F.content sixth.new) (both (G.content seventh.new) (both (H.content eighth.new) (both (I.content ninth.new) (J.content tenth.new)))))))))) (joined_entry (P.entry p) (Q.entry q ∷ R.entry r ∷ S.entry s ∷ T.entry t ∷ U.entry u ∷ V.entry v ∷ W.entry w ∷ X.entry x ∷ Y.entry y ∷ [])).rows e) }
    ensures wanted { P.unbuffered × (Q.unbuffered × (R.unbuffered × (S.unbuffered × (T.unbuffered × (U.unbuffered × (V.unbuffered × (W.unbuffered × (X.unbuffered × Y.unbuffered)))))))) → IfErr result (WasFull (pair_room (A.room first.old) (pair_room (B.room second.old) (pair_room (C.room third.old) (pair_room (D.room fourth.old) (pair_room (E.room fifth.old) (pair_room (F.room sixth.old) (pair_room (G.room seventh.old) (pair_room (H.room eighth.old) (pair_room (I.room ninth.old) (J.room tenth.old)))))))))) (joined_entry (P.entry p) (Q.entry q ∷ R.entry r ∷ S.entry s ∷ T.entry t ∷ U.entry u ∷ V.entry v ∷ W.entry w ∷ X.entry x ∷ Y.entry y ∷ [])).rows) }
    ensures left { OnOk result (Leaves (pair_room (A.room first.old) (pair_room (B.room second.old) (pair_room (C.room third.old) (pair_room (D.room fourth.old) (pair_room (E.room fifth.old) (pair_room (F.room sixth.old) (pair_room (G.room seventh.old) (pair_room (H.room eighth.old) (pair_room (I.room ninth.old) (J.room tenth.old)))))))))) (pair_room (A.room first.new) (pair_room (B.room second.new) (pair_room (C.room third.new) (pair_room (D.room fourth.new) (pair_room (E.room fifth.new) (pair_room (F.room sixth.new) (pair_room (G.room seventh.new) (pair_room (H.room eighth.new) (pair_room (I.room ninth.new) (J.room tenth.new)))))))))) (joined_entry (P.entry p) (Q.entry q ∷ R.entry r ∷ S.entry s ∷ T.entry t ∷ U.entry u ∷ V.entry v ∷ W.entry w ∷ X.entry x ∷ Y.entry y ∷ [])).rows) }
{
    let before = first.len();
    p.enter(first)?;
    match enter_nine(
        second, third, fourth, fifth, sixth, seventh, eighth, ninth, tenth, q, r, s, t, u, v, w, x,
        y,
    ) {
        Ok(()) => Ok(()),
        Err(error) => Err(taken_back(first, before, error)),
    }
}

/// Pushes each field to its part. If one part refuses, none changes.
impl<
    P: Item,
    Q: Item + Drop,
    R: Item + Drop,
    S: Item + Drop,
    T: Item + Drop,
    U: Item + Drop,
    V: Item + Drop,
    W: Item + Drop,
    X: Item + Drop,
    Y: Item + Drop,
    A: Truncate + Push<P>,
    B: Truncate + Push<Q>,
    C: Truncate + Push<R>,
    D: Truncate + Push<S>,
    E: Truncate + Push<T>,
    F: Truncate + Push<U>,
    G: Truncate + Push<V>,
    H: Truncate + Push<W>,
    I: Truncate + Push<X>,
    J: Push<Y>,
> PushInto<(A, B, C, D, E, F, G, H, I, J)> for (P, Q, R, S, T, U, V, W, X, Y) {
    #[inline(always)]
    fn push_into(self, column: &mut (A, B, C, D, E, F, G, H, I, J)) -> Result<(), GrowError> {
        let (p, q, r, s, t, u, v, w, x, y) = self;
        enter_ten(
            &mut column.0,
            &mut column.1,
            &mut column.2,
            &mut column.3,
            &mut column.4,
            &mut column.5,
            &mut column.6,
            &mut column.7,
            &mut column.8,
            &mut column.9,
            ByValue(p),
            ByValue(q),
            ByValue(r),
            ByValue(s),
            ByValue(t),
            ByValue(u),
            ByValue(v),
            ByValue(w),
            ByValue(x),
            ByValue(y),
        )
    }
}

/// Pushes the fields by reference.
impl<
    'x,
    P: Item,
    Q: Item,
    R: Item,
    S: Item,
    T: Item,
    U: Item,
    V: Item,
    W: Item,
    X: Item,
    Y: Item,
    A: Truncate + PushRef<P>,
    B: Truncate + PushRef<Q>,
    C: Truncate + PushRef<R>,
    D: Truncate + PushRef<S>,
    E: Truncate + PushRef<T>,
    F: Truncate + PushRef<U>,
    G: Truncate + PushRef<V>,
    H: Truncate + PushRef<W>,
    I: Truncate + PushRef<X>,
    J: PushRef<Y>,
> PushInto<(A, B, C, D, E, F, G, H, I, J)> for &'x (P, Q, R, S, T, U, V, W, X, Y) {
    #[inline(always)]
    fn push_into(self, column: &mut (A, B, C, D, E, F, G, H, I, J)) -> Result<(), GrowError> {
        column.push_ref(self)
    }
}

impl<
    P: Item,
    Q: Item,
    R: Item,
    S: Item,
    T: Item,
    U: Item,
    V: Item,
    W: Item,
    X: Item,
    Y: Item,
    A: Truncate + PushRef<P>,
    B: Truncate + PushRef<Q>,
    C: Truncate + PushRef<R>,
    D: Truncate + PushRef<S>,
    E: Truncate + PushRef<T>,
    F: Truncate + PushRef<U>,
    G: Truncate + PushRef<V>,
    H: Truncate + PushRef<W>,
    I: Truncate + PushRef<X>,
    J: PushRef<Y>,
> PushRef<(P, Q, R, S, T, U, V, W, X, Y)> for (A, B, C, D, E, F, G, H, I, J) {
    #[inline(always)]
    fn push_ref(&mut self, item: &(P, Q, R, S, T, U, V, W, X, Y)) -> Result<(), GrowError> {
        enter_ten(
            &mut self.0,
            &mut self.1,
            &mut self.2,
            &mut self.3,
            &mut self.4,
            &mut self.5,
            &mut self.6,
            &mut self.7,
            &mut self.8,
            &mut self.9,
            ByRef(&item.0),
            ByRef(&item.1),
            ByRef(&item.2),
            ByRef(&item.3),
            ByRef(&item.4),
            ByRef(&item.5),
            ByRef(&item.6),
            ByRef(&item.7),
            ByRef(&item.8),
            ByRef(&item.9),
        )
    }
}

/// Splits a tuple of ten columns into its parts, each well-formed.
///
/// # Requires
/// A well-formed tuple.
pub fn parts_of_ten<
    A: Column,
    B: Column,
    C: Column,
    D: Column,
    E: Column,
    F: Column,
    G: Column,
    H: Column,
    I: Column,
    J: Column,
>(tuple: (A, B, C, D, E, F, G, H, I, J)) -> (A, B, C, D, E, F, G, H, I, J)
    requires { IsSound (tuple_format A.format B.format (C.format ∷ D.format ∷ E.format ∷ F.format ∷ G.format ∷ H.format ∷ I.format ∷ J.format ∷ [])) (both (A.content tuple.0) (both (B.content tuple.1) (both (C.content tuple.2) (both (D.content tuple.3) (both (E.content tuple.4) (both (F.content tuple.5) (both (G.content tuple.6) (both (H.content tuple.7) (both (I.content tuple.8) (J.content tuple.9)))))))))) }
    ensures first { IsSound A.format (A.content result.0) }
    ensures second { IsSound B.format (B.content result.1) }
    ensures third { IsSound C.format (C.content result.2) }
    ensures fourth { IsSound D.format (D.content result.3) }
    ensures fifth { IsSound E.format (E.content result.4) }
    ensures sixth { IsSound F.format (F.content result.5) }
    ensures seventh { IsSound G.format (G.content result.6) }
    ensures eighth { IsSound H.format (H.content result.7) }
    ensures ninth { IsSound I.format (I.content result.8) }
    ensures tenth { IsSound J.format (J.content result.9) }
    ensures tuple { result ≡ tuple }
{
    tuple
}

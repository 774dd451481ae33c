// Made by .ci/widths.py: change .ci/widths/earlier.template, and not this file.
//! Tuples of three or more columns are built from an earlier form like their nested pairs.
ghost use Rattle.std.specs.Prelude.{◌≡◌, List, [], ◌∷◌};
ghost use Rattle.columnar_core.specs.EarlierLaws.{no_more, one_more, earlier_tuple};

use crate::earlier::Earlier;
use columnar_base::fault::GrowError;
use std::alloc::Global;

/// The earlier form is the tuple of the parts' earlier forms.
impl<A: Earlier + Drop, B: Earlier + Drop, C: Earlier> Earlier for (A, B, C) {
    type Old = (A::Old, B::Old, C::Old);

    ghost earlier = { earlier_tuple A.Old.format A.format B.Old.format B.format (C.Old.format ∷ []) (C.format ∷ []) A.earlier (one_more B.Old.format B.format (C.Old.format ∷ []) (C.format ∷ []) B.earlier (one_more C.Old.format C.format ([]) ([]) C.earlier no_more)) };

    fn from_old(alloc: Global, old: (A::Old, B::Old, C::Old)) -> Result<Self, GrowError> {
        let (first, second, third) = old;
        let (first, (second, third)) = <(A, (B, C)) as Earlier>::from_old(
            alloc,
            (first, (second, third)),
        )?;
        Ok((first, second, third))
    }
}

/// The earlier form is the tuple of the parts' earlier forms.
impl<A: Earlier + Drop, B: Earlier + Drop, C: Earlier + Drop, D: Earlier> Earlier for (A, B, C, D) {
    type Old = (A::Old, B::Old, C::Old, D::Old);

    ghost earlier = { earlier_tuple A.Old.format A.format B.Old.format B.format (C.Old.format ∷ D.Old.format ∷ []) (C.format ∷ D.format ∷ []) A.earlier (one_more B.Old.format B.format (C.Old.format ∷ D.Old.format ∷ []) (C.format ∷ D.format ∷ []) B.earlier (one_more C.Old.format C.format (D.Old.format ∷ []) (D.format ∷ []) C.earlier (one_more D.Old.format D.format ([]) ([]) D.earlier no_more))) };

    fn from_old(alloc: Global, old: (A::Old, B::Old, C::Old, D::Old)) -> Result<Self, GrowError> {
        let (first, second, third, fourth) = old;
        let (first, (second, (third, fourth))) = <(A, (B, (C, D))) as Earlier>::from_old(
            alloc,
            (first, (second, (third, fourth))),
        )?;
        Ok((first, second, third, fourth))
    }
}

/// The earlier form is the tuple of the parts' earlier forms.
impl<A: Earlier + Drop, B: Earlier + Drop, C: Earlier + Drop, D: Earlier + Drop, E: Earlier> Earlier
    for (A, B, C, D, E) {
    type Old = (A::Old, B::Old, C::Old, D::Old, E::Old);

    ghost earlier = { earlier_tuple A.Old.format A.format B.Old.format B.format (C.Old.format ∷ D.Old.format ∷ E.Old.format ∷ []) (C.format ∷ D.format ∷ E.format ∷ []) A.earlier (one_more B.Old.format B.format (C.Old.format ∷ D.Old.format ∷ E.Old.format ∷ []) (C.format ∷ D.format ∷ E.format ∷ []) B.earlier (one_more C.Old.format C.format (D.Old.format ∷ E.Old.format ∷ []) (D.format ∷ E.format ∷ []) C.earlier (one_more D.Old.format D.format (E.Old.format ∷ []) (E.format ∷ []) D.earlier (one_more E.Old.format E.format ([]) ([]) E.earlier no_more)))) };

    fn from_old(
        alloc: Global,
        old: (A::Old, B::Old, C::Old, D::Old, E::Old),
    ) -> Result<Self, GrowError> {
        let (first, second, third, fourth, fifth) = old;
        let (first, (second, (third, (fourth, fifth)))) = <(
            A,
            (B, (C, (D, E))),
        ) as Earlier>::from_old(alloc, (first, (second, (third, (fourth, fifth)))))?;
        Ok((first, second, third, fourth, fifth))
    }
}

/// The earlier form is the tuple of the parts' earlier forms.
impl<
    A: Earlier + Drop,
    B: Earlier + Drop,
    C: Earlier + Drop,
    D: Earlier + Drop,
    E: Earlier + Drop,
    F: Earlier,
> Earlier for (A, B, C, D, E, F) {
    type Old = (A::Old, B::Old, C::Old, D::Old, E::Old, F::Old);

    ghost earlier = { earlier_tuple A.Old.format A.format B.Old.format B.format (C.Old.format ∷ D.Old.format ∷ E.Old.format ∷ F.Old.format ∷ []) (C.format ∷ D.format ∷ E.format ∷ F.format ∷ []) A.earlier (one_more B.Old.format B.format (C.Old.format ∷ D.Old.format ∷ E.Old.format ∷ F.Old.format ∷ []) (C.format ∷ D.format ∷ E.format ∷ F.format ∷ []) B.earlier (one_more C.Old.format C.format (D.Old.format ∷ E.Old.format ∷ F.Old.format ∷ []) (D.format ∷ E.format ∷ F.format ∷ []) C.earlier (one_more D.Old.format D.format (E.Old.format ∷ F.Old.format ∷ []) (E.format ∷ F.format ∷ []) D.earlier (one_more E.Old.format E.format (F.Old.format ∷ []) (F.format ∷ []) E.earlier (one_more F.Old.format F.format ([]) ([]) F.earlier no_more))))) };

    fn from_old(
        alloc: Global,
        old: (A::Old, B::Old, C::Old, D::Old, E::Old, F::Old),
    ) -> Result<Self, GrowError> {
        let (first, second, third, fourth, fifth, sixth) = old;
        let (first, (second, (third, (fourth, (fifth, sixth))))) = <(
            A,
            (B, (C, (D, (E, F)))),
        ) as Earlier>::from_old(alloc, (first, (second, (third, (fourth, (fifth, sixth))))))?;
        Ok((first, second, third, fourth, fifth, sixth))
    }
}

/// The earlier form is the tuple of the parts' earlier forms.
impl<
    A: Earlier + Drop,
    B: Earlier + Drop,
    C: Earlier + Drop,
    D: Earlier + Drop,
    E: Earlier + Drop,
    F: Earlier + Drop,
    G: Earlier,
> Earlier for (A, B, C, D, E, F, G) {
    type Old = (A::Old, B::Old, C::Old, D::Old, E::Old, F::Old, G::Old);

    ghost earlier = { earlier_tuple A.Old.format A.format B.Old.format B.format (C.Old.format ∷ D.Old.format ∷ E.Old.format ∷ F.Old.format ∷ G.Old.format ∷ []) (C.format ∷ D.format ∷ E.format ∷ F.format ∷ G.format ∷ []) A.earlier (one_more B.Old.format B.format (C.Old.format ∷ D.Old.format ∷ E.Old.format ∷ F.Old.format ∷ G.Old.format ∷ []) (C.format ∷ D.format ∷ E.format ∷ F.format ∷ G.format ∷ []) B.earlier (one_more C.Old.format C.format (D.Old.format ∷ E.Old.format ∷ F.Old.format ∷ G.Old.format ∷ []) (D.format ∷ E.format ∷ F.format ∷ G.format ∷ []) C.earlier (one_more D.Old.format D.format (E.Old.format ∷ F.Old.format ∷ G.Old.format ∷ []) (E.format ∷ F.format ∷ G.format ∷ []) D.earlier (one_more E.Old.format E.format (F.Old.format ∷ G.Old.format ∷ []) (F.format ∷ G.format ∷ []) E.earlier (one_more F.Old.format F.format (G.Old.format ∷ []) (G.format ∷ []) F.earlier (one_more G.Old.format G.format ([]) ([]) G.earlier no_more)))))) };

    fn from_old(
        alloc: Global,
        old: (A::Old, B::Old, C::Old, D::Old, E::Old, F::Old, G::Old),
    ) -> Result<Self, GrowError> {
        let (first, second, third, fourth, fifth, sixth, seventh) = old;
        let (first, (second, (third, (fourth, (fifth, (sixth, seventh)))))) = <(
            A,
            (B, (C, (D, (E, (F, G))))),
        ) as Earlier>::from_old(
            alloc,
            (
                first,
                (second, (third, (fourth, (fifth, (sixth, seventh))))),
            ),
        )?;
        Ok((first, second, third, fourth, fifth, sixth, seventh))
    }
}

/// The earlier form is the tuple of the parts' earlier forms.
impl<
    A: Earlier + Drop,
    B: Earlier + Drop,
    C: Earlier + Drop,
    D: Earlier + Drop,
    E: Earlier + Drop,
    F: Earlier + Drop,
    G: Earlier + Drop,
    H: Earlier,
> Earlier for (A, B, C, D, E, F, G, H) {
    type Old = (
        A::Old,
        B::Old,
        C::Old,
        D::Old,
        E::Old,
        F::Old,
        G::Old,
        H::Old,
    );

    ghost earlier = { earlier_tuple A.Old.format A.format B.Old.format B.format (C.Old.format ∷ D.Old.format ∷ E.Old.format ∷ F.Old.format ∷ G.Old.format ∷ H.Old.format ∷ []) (C.format ∷ D.format ∷ E.format ∷ F.format ∷ G.format ∷ H.format ∷ []) A.earlier (one_more B.Old.format B.format (C.Old.format ∷ D.Old.format ∷ E.Old.format ∷ F.Old.format ∷ G.Old.format ∷ H.Old.format ∷ []) (C.format ∷ D.format ∷ E.format ∷ F.format ∷ G.format ∷ H.format ∷ []) B.earlier (one_more C.Old.format C.format (D.Old.format ∷ E.Old.format ∷ F.Old.format ∷ G.Old.format ∷ H.Old.format ∷ []) (D.format ∷ E.format ∷ F.format ∷ G.format ∷ H.format ∷ []) C.earlier (one_more D.Old.format D.format (E.Old.format ∷ F.Old.format ∷ G.Old.format ∷ H.Old.format ∷ []) (E.format ∷ F.format ∷ G.format ∷ H.format ∷ []) D.earlier (one_more E.Old.format E.format (F.Old.format ∷ G.Old.format ∷ H.Old.format ∷ []) (F.format ∷ G.format ∷ H.format ∷ []) E.earlier (one_more F.Old.format F.format (G.Old.format ∷ H.Old.format ∷ []) (G.format ∷ H.format ∷ []) F.earlier (one_more G.Old.format G.format (H.Old.format ∷ []) (H.format ∷ []) G.earlier (one_more H.Old.format H.format ([]) ([]) H.earlier no_more))))))) };

    fn from_old(
        alloc: Global,
        old: (
            A::Old,
            B::Old,
            C::Old,
            D::Old,
            E::Old,
            F::Old,
            G::Old,
            H::Old,
        ),
    ) -> Result<Self, GrowError> {
        let (first, second, third, fourth, fifth, sixth, seventh, eighth) = old;
        let (first, (second, (third, (fourth, (fifth, (sixth, (seventh, eighth))))))) = <(
            A,
            (B, (C, (D, (E, (F, (G, H)))))),
        ) as Earlier>::from_old(
            alloc,
            (
                first,
                (
                    second,
                    (third, (fourth, (fifth, (sixth, (seventh, eighth))))),
                ),
            ),
        )?;
        Ok((first, second, third, fourth, fifth, sixth, seventh, eighth))
    }
}

/// The earlier form is the tuple of the parts' earlier forms.
impl<
    A: Earlier + Drop,
    B: Earlier + Drop,
    C: Earlier + Drop,
    D: Earlier + Drop,
    E: Earlier + Drop,
    F: Earlier + Drop,
    G: Earlier + Drop,
    H: Earlier + Drop,
    I: Earlier,
> Earlier for (A, B, C, D, E, F, G, H, I) {
    type Old = (
        A::Old,
        B::Old,
        C::Old,
        D::Old,
        E::Old,
        F::Old,
        G::Old,
        H::Old,
        I::Old,
    );

    ghost earlier = { earlier_tuple A.Old.format A.format B.Old.format B.format (C.Old.format ∷ D.Old.format ∷ E.Old.format ∷ F.Old.format ∷ G.Old.format ∷ H.Old.format ∷ I.Old.format ∷ []) (C.format ∷ D.format ∷ E.format ∷ F.format ∷ G.format ∷ H.format ∷ I.format ∷ []) A.earlier (one_more B.Old.format B.format (C.Old.format ∷ D.Old.format ∷ E.Old.format ∷ F.Old.format ∷ G.Old.format ∷ H.Old.format ∷ I.Old.format ∷ []) (C.format ∷ D.format ∷ E.format ∷ F.format ∷ G.format ∷ H.format ∷ I.format ∷ []) B.earlier (one_more C.Old.format C.format (D.Old.format ∷ E.Old.format ∷ F.Old.format ∷ G.Old.format ∷ H.Old.format ∷ I.Old.format ∷ []) (D.format ∷ E.format ∷ F.format ∷ G.format ∷ H.format ∷ I.format ∷ []) C.earlier (one_more D.Old.format D.format (E.Old.format ∷ F.Old.format ∷ G.Old.format ∷ H.Old.format ∷ I.Old.format ∷ []) (E.format ∷ F.format ∷ G.format ∷ H.format ∷ I.format ∷ []) D.earlier (one_more E.Old.format E.format (F.Old.format ∷ G.Old.format ∷ H.Old.format ∷ I.Old.format ∷ []) (F.format ∷ G.format ∷ H.format ∷ I.format ∷ []) E.earlier (one_more F.Old.format F.format (G.Old.format ∷ H.Old.format ∷ I.Old.format ∷ []) (G.format ∷ H.format ∷ I.format ∷ []) F.earlier (one_more G.Old.format G.format (H.Old.format ∷ I.Old.format ∷ []) (H.format ∷ I.format ∷ []) G.earlier (one_more H.Old.format H.format (I.Old.format ∷ []) (I.format ∷ []) H.earlier (one_more I.Old.format I.format ([]) ([]) I.earlier no_more)))))))) };

    fn from_old(
        alloc: Global,
        old: (
            A::Old,
            B::Old,
            C::Old,
            D::Old,
            E::Old,
            F::Old,
            G::Old,
            H::Old,
            I::Old,
        ),
    ) -> Result<Self, GrowError> {
        let (first, second, third, fourth, fifth, sixth, seventh, eighth, ninth) = old;
        let (first, (second, (third, (fourth, (fifth, (sixth, (seventh, (eighth, ninth)))))))) = <(
            A,
            (B, (C, (D, (E, (F, (G, (H, I))))))),
        ) as Earlier>::from_old(
            alloc,
            (
                first,
                (
                    second,
                    (
                        third,
                        (fourth, (fifth, (sixth, (seventh, (eighth, ninth))))),
                    ),
                ),
            ),
        )?;
        Ok((
            first, second, third, fourth, fifth, sixth, seventh, eighth, ninth,
        ))
    }
}

/// The earlier form is the tuple of the parts' earlier forms.
impl<
    A: Earlier + Drop,
    B: Earlier + Drop,
    C: Earlier + Drop,
    D: Earlier + Drop,
    E: Earlier + Drop,
    F: Earlier + Drop,
    G: Earlier + Drop,
    H: Earlier + Drop,
    I: Earlier + Drop,
    J: Earlier,
> Earlier for (A, B, C, D, E, F, G, H, I, J) {
    type Old = (
        A::Old,
        B::Old,
        C::Old,
        D::Old,
        E::Old,
        F::Old,
        G::Old,
        H::Old,
        I::Old,
        J::Old,
    );

    ghost earlier = { earlier_tuple A.Old.format A.format B.Old.format B.format (C.Old.format ∷ D.Old.format ∷ E.Old.format ∷ F.Old.format ∷ G.Old.format ∷ H.Old.format ∷ I.Old.format ∷ J.Old.format ∷ []) (C.format ∷ D.format ∷ E.format ∷ F.format ∷ G.format ∷ H.format ∷ I.format ∷ J.format ∷ []) A.earlier (one_more B.Old.format B.format (C.Old.format ∷ D.Old.format ∷ E.Old.format ∷ F.Old.format ∷ G.Old.format ∷ H.Old.format ∷ I.Old.format ∷ J.Old.format ∷ []) (C.format ∷ D.format ∷ E.format ∷ F.format ∷ G.format ∷ H.format ∷ I.format ∷ J.format ∷ []) B.earlier (one_more C.Old.format C.format (D.Old.format ∷ E.Old.format ∷ F.Old.format ∷ G.Old.format ∷ H.Old.format ∷ I.Old.format ∷ J.Old.format ∷ []) (D.format ∷ E.format ∷ F.format ∷ G.format ∷ H.format ∷ I.format ∷ J.format ∷ []) C.earlier (one_more D.Old.format D.format (E.Old.format ∷ F.Old.format ∷ G.Old.format ∷ H.Old.format ∷ I.Old.format ∷ J.Old.format ∷ []) (E.format ∷ F.format ∷ G.format ∷ H.format ∷ I.format ∷ J.format ∷ []) D.earlier (one_more E.Old.format E.format (F.Old.format ∷ G.Old.format ∷ H.Old.format ∷ I.Old.format ∷ J.Old.format ∷ []) (F.format ∷ G.format ∷ H.format ∷ I.format ∷ J.format ∷ []) E.earlier (one_more F.Old.format F.format (G.Old.format ∷ H.Old.format ∷ I.Old.format ∷ J.Old.format ∷ []) (G.format ∷ H.format ∷ I.format ∷ J.format ∷ []) F.earlier (one_more G.Old.format G.format (H.Old.format ∷ I.Old.format ∷ J.Old.format ∷ []) (H.format ∷ I.format ∷ J.format ∷ []) G.earlier (one_more H.Old.format H.format (I.Old.format ∷ J.Old.format ∷ []) (I.format ∷ J.format ∷ []) H.earlier (one_more I.Old.format I.format (J.Old.format ∷ []) (J.format ∷ []) I.earlier (one_more J.Old.format J.format ([]) ([]) J.earlier no_more))))))))) };

    fn from_old(
        alloc: Global,
        old: (
            A::Old,
            B::Old,
            C::Old,
            D::Old,
            E::Old,
            F::Old,
            G::Old,
            H::Old,
            I::Old,
            J::Old,
        ),
    ) -> Result<Self, GrowError> {
        let (first, second, third, fourth, fifth, sixth, seventh, eighth, ninth, tenth) = old;
        let (
            first,
            (second, (third, (fourth, (fifth, (sixth, (seventh, (eighth, (ninth, tenth)))))))),
        ) = <(A, (B, (C, (D, (E, (F, (G, (H, (I, J))))))))) as Earlier>::from_old(
            alloc,
            (
                first,
                (
                    second,
                    (
                        third,
                        (
                            fourth,
                            (fifth, (sixth, (seventh, (eighth, (ninth, tenth))))),
                        ),
                    ),
                ),
            ),
        )?;
        Ok((
            first, second, third, fourth, fifth, sixth, seventh, eighth, ninth, tenth,
        ))
    }
}

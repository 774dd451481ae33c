// Made by .ci/widths.py: change .ci/widths/fields.template, and not this file.
//! The fields of a view of your own rows, by their places: each is a well-formed view, whose rows are that field's.
ghost use Rattle.std.specs.Prelude.{◌≡◌};
ghost use Rattle.columnar_base.specs.Format.{IsSound};
ghost use Rattle.columnar_own.specs.Fields.{rows_of_field, rows_of_last, rows_of_only};

use columnar_base::traits::Column;

/// Takes the only field out of a view of tuples of one.
///
/// # Requires
/// A well-formed view.
pub fn field_of_one<A: Column>(parts: (A,)) -> A
    requires { IsSound ⟦<(A,) as Column>⟧.format (⟦<(A,) as Column>⟧.content parts) }
    ensures sound { IsSound A.format (A.content result) }
    ensures rows { A.format.rows (A.content result) ≡ rows_of_only (⟦<(A,) as Column>⟧.format.rows (⟦<(A,) as Column>⟧.content parts)) }
{
    let (only,) = parts;
    only
}

/// Splits a view of pairs into the views of the two fields.
///
/// # Requires
/// A well-formed view.
pub fn fields_of_two<A: Column, B: Column>(parts: (A, B)) -> (A, B)
    requires { IsSound ⟦<(A, B) as Column>⟧.format (⟦<(A, B) as Column>⟧.content parts) }
    ensures first { IsSound A.format (A.content result.0) }
    ensures second { IsSound B.format (B.content result.1) }
    ensures rows_of_first { A.format.rows (A.content result.0) ≡ rows_of_field 0 (⟦<(A, B) as Column>⟧.format.rows (⟦<(A, B) as Column>⟧.content parts)) }
    ensures rows_of_second { B.format.rows (B.content result.1) ≡ rows_of_last 1 (⟦<(A, B) as Column>⟧.format.rows (⟦<(A, B) as Column>⟧.content parts)) }
{
    parts
}

/// Splits a view of tuples of three into the views of the three fields.
///
/// # Requires
/// A well-formed view.
pub fn fields_of_three<A: Column, B: Column, C: Column>(parts: (A, B, C)) -> (A, B, C)
    requires { IsSound ⟦<(A, B, C) as Column>⟧.format (⟦<(A, B, C) as Column>⟧.content parts) }
    ensures first { IsSound A.format (A.content result.0) }
    ensures second { IsSound B.format (B.content result.1) }
    ensures third { IsSound C.format (C.content result.2) }
    ensures rows_of_first { A.format.rows (A.content result.0) ≡ rows_of_field 0 (⟦<(A, B, C) as Column>⟧.format.rows (⟦<(A, B, C) as Column>⟧.content parts)) }
    ensures rows_of_second { B.format.rows (B.content result.1) ≡ rows_of_field 1 (⟦<(A, B, C) as Column>⟧.format.rows (⟦<(A, B, C) as Column>⟧.content parts)) }
    ensures rows_of_third { C.format.rows (C.content result.2) ≡ rows_of_last 2 (⟦<(A, B, C) as Column>⟧.format.rows (⟦<(A, B, C) as Column>⟧.content parts)) }
{
    parts
}

/// Splits a view of tuples of four into the views of the four fields.
///
/// # Requires
/// A well-formed view.
pub fn fields_of_four<A: Column, B: Column, C: Column, D: Column>(
    parts: (A, B, C, D),
) -> (A, B, C, D)
    requires { IsSound ⟦<(A, B, C, D) as Column>⟧.format (⟦<(A, B, C, D) as Column>⟧.content parts) }
    ensures first { IsSound A.format (A.content result.0) }
    ensures second { IsSound B.format (B.content result.1) }
    ensures third { IsSound C.format (C.content result.2) }
    ensures fourth { IsSound D.format (D.content result.3) }
    ensures rows_of_first { A.format.rows (A.content result.0) ≡ rows_of_field 0 (⟦<(A, B, C, D) as Column>⟧.format.rows (⟦<(A, B, C, D) as Column>⟧.content parts)) }
    ensures rows_of_second { B.format.rows (B.content result.1) ≡ rows_of_field 1 (⟦<(A, B, C, D) as Column>⟧.format.rows (⟦<(A, B, C, D) as Column>⟧.content parts)) }
    ensures rows_of_third { C.format.rows (C.content result.2) ≡ rows_of_field 2 (⟦<(A, B, C, D) as Column>⟧.format.rows (⟦<(A, B, C, D) as Column>⟧.content parts)) }
    ensures rows_of_fourth { D.format.rows (D.content result.3) ≡ rows_of_last 3 (⟦<(A, B, C, D) as Column>⟧.format.rows (⟦<(A, B, C, D) as Column>⟧.content parts)) }
{
    parts
}

/// Splits a view of tuples of five into the views of the five fields.
///
/// # Requires
/// A well-formed view.
pub fn fields_of_five<A: Column, B: Column, C: Column, D: Column, E: Column>(
    parts: (A, B, C, D, E),
) -> (A, B, C, D, E)
    requires { IsSound ⟦<(A, B, C, D, E) as Column>⟧.format (⟦<(A, B, C, D, E) as Column>⟧.content parts) }
    ensures first { IsSound A.format (A.content result.0) }
    ensures second { IsSound B.format (B.content result.1) }
    ensures third { IsSound C.format (C.content result.2) }
    ensures fourth { IsSound D.format (D.content result.3) }
    ensures fifth { IsSound E.format (E.content result.4) }
    ensures rows_of_first { A.format.rows (A.content result.0) ≡ rows_of_field 0 (⟦<(A, B, C, D, E) as Column>⟧.format.rows (⟦<(A, B, C, D, E) as Column>⟧.content parts)) }
    ensures rows_of_second { B.format.rows (B.content result.1) ≡ rows_of_field 1 (⟦<(A, B, C, D, E) as Column>⟧.format.rows (⟦<(A, B, C, D, E) as Column>⟧.content parts)) }
    ensures rows_of_third { C.format.rows (C.content result.2) ≡ rows_of_field 2 (⟦<(A, B, C, D, E) as Column>⟧.format.rows (⟦<(A, B, C, D, E) as Column>⟧.content parts)) }
    ensures rows_of_fourth { D.format.rows (D.content result.3) ≡ rows_of_field 3 (⟦<(A, B, C, D, E) as Column>⟧.format.rows (⟦<(A, B, C, D, E) as Column>⟧.content parts)) }
    ensures rows_of_fifth { E.format.rows (E.content result.4) ≡ rows_of_last 4 (⟦<(A, B, C, D, E) as Column>⟧.format.rows (⟦<(A, B, C, D, E) as Column>⟧.content parts)) }
{
    parts
}

/// Splits a view of tuples of six into the views of the six fields.
///
/// # Requires
/// A well-formed view.
pub fn fields_of_six<A: Column, B: Column, C: Column, D: Column, E: Column, F: Column>(
    parts: (A, B, C, D, E, F),
) -> (A, B, C, D, E, F)
    requires { IsSound ⟦<(A, B, C, D, E, F) as Column>⟧.format (⟦<(A, B, C, D, E, F) as Column>⟧.content parts) }
    ensures first { IsSound A.format (A.content result.0) }
    ensures second { IsSound B.format (B.content result.1) }
    ensures third { IsSound C.format (C.content result.2) }
    ensures fourth { IsSound D.format (D.content result.3) }
    ensures fifth { IsSound E.format (E.content result.4) }
    ensures sixth { IsSound F.format (F.content result.5) }
    ensures rows_of_first { A.format.rows (A.content result.0) ≡ rows_of_field 0 (⟦<(A, B, C, D, E, F) as Column>⟧.format.rows (⟦<(A, B, C, D, E, F) as Column>⟧.content parts)) }
    ensures rows_of_second { B.format.rows (B.content result.1) ≡ rows_of_field 1 (⟦<(A, B, C, D, E, F) as Column>⟧.format.rows (⟦<(A, B, C, D, E, F) as Column>⟧.content parts)) }
    ensures rows_of_third { C.format.rows (C.content result.2) ≡ rows_of_field 2 (⟦<(A, B, C, D, E, F) as Column>⟧.format.rows (⟦<(A, B, C, D, E, F) as Column>⟧.content parts)) }
    ensures rows_of_fourth { D.format.rows (D.content result.3) ≡ rows_of_field 3 (⟦<(A, B, C, D, E, F) as Column>⟧.format.rows (⟦<(A, B, C, D, E, F) as Column>⟧.content parts)) }
    ensures rows_of_fifth { E.format.rows (E.content result.4) ≡ rows_of_field 4 (⟦<(A, B, C, D, E, F) as Column>⟧.format.rows (⟦<(A, B, C, D, E, F) as Column>⟧.content parts)) }
    ensures rows_of_sixth { F.format.rows (F.content result.5) ≡ rows_of_last 5 (⟦<(A, B, C, D, E, F) as Column>⟧.format.rows (⟦<(A, B, C, D, E, F) as Column>⟧.content parts)) }
{
    parts
}

/// Splits a view of tuples of seven into the views of the seven fields.
///
/// # Requires
/// A well-formed view.
pub fn fields_of_seven<A: Column, B: Column, C: Column, D: Column, E: Column, F: Column, G: Column>(
    parts: (A, B, C, D, E, F, G),
) -> (A, B, C, D, E, F, G)
    requires { IsSound ⟦<(A, B, C, D, E, F, G) as Column>⟧.format (⟦<(A, B, C, D, E, F, G) as Column>⟧.content parts) }
    ensures first { IsSound A.format (A.content result.0) }
    ensures second { IsSound B.format (B.content result.1) }
    ensures third { IsSound C.format (C.content result.2) }
    ensures fourth { IsSound D.format (D.content result.3) }
    ensures fifth { IsSound E.format (E.content result.4) }
    ensures sixth { IsSound F.format (F.content result.5) }
    ensures seventh { IsSound G.format (G.content result.6) }
    ensures rows_of_first { A.format.rows (A.content result.0) ≡ rows_of_field 0 (⟦<(A, B, C, D, E, F, G) as Column>⟧.format.rows (⟦<(A, B, C, D, E, F, G) as Column>⟧.content parts)) }
    ensures rows_of_second { B.format.rows (B.content result.1) ≡ rows_of_field 1 (⟦<(A, B, C, D, E, F, G) as Column>⟧.format.rows (⟦<(A, B, C, D, E, F, G) as Column>⟧.content parts)) }
    ensures rows_of_third { C.format.rows (C.content result.2) ≡ rows_of_field 2 (⟦<(A, B, C, D, E, F, G) as Column>⟧.format.rows (⟦<(A, B, C, D, E, F, G) as Column>⟧.content parts)) }
    ensures rows_of_fourth { D.format.rows (D.content result.3) ≡ rows_of_field 3 (⟦<(A, B, C, D, E, F, G) as Column>⟧.format.rows (⟦<(A, B, C, D, E, F, G) as Column>⟧.content parts)) }
    ensures rows_of_fifth { E.format.rows (E.content result.4) ≡ rows_of_field 4 (⟦<(A, B, C, D, E, F, G) as Column>⟧.format.rows (⟦<(A, B, C, D, E, F, G) as Column>⟧.content parts)) }
    ensures rows_of_sixth { F.format.rows (F.content result.5) ≡ rows_of_field 5 (⟦<(A, B, C, D, E, F, G) as Column>⟧.format.rows (⟦<(A, B, C, D, E, F, G) as Column>⟧.content parts)) }
    ensures rows_of_seventh { G.format.rows (G.content result.6) ≡ rows_of_last 6 (⟦<(A, B, C, D, E, F, G) as Column>⟧.format.rows (⟦<(A, B, C, D, E, F, G) as Column>⟧.content parts)) }
{
    parts
}

/// Splits a view of tuples of eight into the views of the eight fields.
///
/// # Requires
/// A well-formed view.
pub fn fields_of_eight<
    A: Column,
    B: Column,
    C: Column,
    D: Column,
    E: Column,
    F: Column,
    G: Column,
    H: Column,
>(parts: (A, B, C, D, E, F, G, H)) -> (A, B, C, D, E, F, G, H)
    requires { IsSound ⟦<(A, B, C, D, E, F, G, H) as Column>⟧.format (⟦<(A, B, C, D, E, F, G, H) as Column>⟧.content parts) }
    ensures first { IsSound A.format (A.content result.0) }
    ensures second { IsSound B.format (B.content result.1) }
    ensures third { IsSound C.format (C.content result.2) }
    ensures fourth { IsSound D.format (D.content result.3) }
    ensures fifth { IsSound E.format (E.content result.4) }
    ensures sixth { IsSound F.format (F.content result.5) }
    ensures seventh { IsSound G.format (G.content result.6) }
    ensures eighth { IsSound H.format (H.content result.7) }
    ensures rows_of_first { A.format.rows (A.content result.0) ≡ rows_of_field 0 (⟦<(A, B, C, D, E, F, G, H) as Column>⟧.format.rows (⟦<(A, B, C, D, E, F, G, H) as Column>⟧.content parts)) }
    ensures rows_of_second { B.format.rows (B.content result.1) ≡ rows_of_field 1 (⟦<(A, B, C, D, E, F, G, H) as Column>⟧.format.rows (⟦<(A, B, C, D, E, F, G, H) as Column>⟧.content parts)) }
    ensures rows_of_third { C.format.rows (C.content result.2) ≡ rows_of_field 2 (⟦<(A, B, C, D, E, F, G, H) as Column>⟧.format.rows (⟦<(A, B, C, D, E, F, G, H) as Column>⟧.content parts)) }
    ensures rows_of_fourth { D.format.rows (D.content result.3) ≡ rows_of_field 3 (⟦<(A, B, C, D, E, F, G, H) as Column>⟧.format.rows (⟦<(A, B, C, D, E, F, G, H) as Column>⟧.content parts)) }
    ensures rows_of_fifth { E.format.rows (E.content result.4) ≡ rows_of_field 4 (⟦<(A, B, C, D, E, F, G, H) as Column>⟧.format.rows (⟦<(A, B, C, D, E, F, G, H) as Column>⟧.content parts)) }
    ensures rows_of_sixth { F.format.rows (F.content result.5) ≡ rows_of_field 5 (⟦<(A, B, C, D, E, F, G, H) as Column>⟧.format.rows (⟦<(A, B, C, D, E, F, G, H) as Column>⟧.content parts)) }
    ensures rows_of_seventh { G.format.rows (G.content result.6) ≡ rows_of_field 6 (⟦<(A, B, C, D, E, F, G, H) as Column>⟧.format.rows (⟦<(A, B, C, D, E, F, G, H) as Column>⟧.content parts)) }
    ensures rows_of_eighth { H.format.rows (H.content result.7) ≡ rows_of_last 7 (⟦<(A, B, C, D, E, F, G, H) as Column>⟧.format.rows (⟦<(A, B, C, D, E, F, G, H) as Column>⟧.content parts)) }
{
    parts
}

/// Splits a view of tuples of nine into the views of the nine fields.
///
/// # Requires
/// A well-formed view.
pub fn fields_of_nine<
    A: Column,
    B: Column,
    C: Column,
    D: Column,
    E: Column,
    F: Column,
    G: Column,
    H: Column,
    I: Column,
>(parts: (A, B, C, D, E, F, G, H, I)) -> (A, B, C, D, E, F, G, H, I)
    requires { IsSound ⟦<(A, B, C, D, E, F, G, H, I) as Column>⟧.format (⟦<(A, B, C, D, E, F, G, H, I) as Column>⟧.content parts) }
    ensures first { IsSound A.format (A.content result.0) }
    ensures second { IsSound B.format (B.content result.1) }
    ensures third { IsSound C.format (C.content result.2) }
    ensures fourth { IsSound D.format (D.content result.3) }
    ensures fifth { IsSound E.format (E.content result.4) }
    ensures sixth { IsSound F.format (F.content result.5) }
    ensures seventh { IsSound G.format (G.content result.6) }
    ensures eighth { IsSound H.format (H.content result.7) }
    ensures ninth { IsSound I.format (I.content result.8) }
    ensures rows_of_first { A.format.rows (A.content result.0) ≡ rows_of_field 0 (⟦<(A, B, C, D, E, F, G, H, I) as Column>⟧.format.rows (⟦<(A, B, C, D, E, F, G, H, I) as Column>⟧.content parts)) }
    ensures rows_of_second { B.format.rows (B.content result.1) ≡ rows_of_field 1 (⟦<(A, B, C, D, E, F, G, H, I) as Column>⟧.format.rows (⟦<(A, B, C, D, E, F, G, H, I) as Column>⟧.content parts)) }
    ensures rows_of_third { C.format.rows (C.content result.2) ≡ rows_of_field 2 (⟦<(A, B, C, D, E, F, G, H, I) as Column>⟧.format.rows (⟦<(A, B, C, D, E, F, G, H, I) as Column>⟧.content parts)) }
    ensures rows_of_fourth { D.format.rows (D.content result.3) ≡ rows_of_field 3 (⟦<(A, B, C, D, E, F, G, H, I) as Column>⟧.format.rows (⟦<(A, B, C, D, E, F, G, H, I) as Column>⟧.content parts)) }
    ensures rows_of_fifth { E.format.rows (E.content result.4) ≡ rows_of_field 4 (⟦<(A, B, C, D, E, F, G, H, I) as Column>⟧.format.rows (⟦<(A, B, C, D, E, F, G, H, I) as Column>⟧.content parts)) }
    ensures rows_of_sixth { F.format.rows (F.content result.5) ≡ rows_of_field 5 (⟦<(A, B, C, D, E, F, G, H, I) as Column>⟧.format.rows (⟦<(A, B, C, D, E, F, G, H, I) as Column>⟧.content parts)) }
    ensures rows_of_seventh { G.format.rows (G.content result.6) ≡ rows_of_field 6 (⟦<(A, B, C, D, E, F, G, H, I) as Column>⟧.format.rows (⟦<(A, B, C, D, E, F, G, H, I) as Column>⟧.content parts)) }
    ensures rows_of_eighth { H.format.rows (H.content result.7) ≡ rows_of_field 7 (⟦<(A, B, C, D, E, F, G, H, I) as Column>⟧.format.rows (⟦<(A, B, C, D, E, F, G, H, I) as Column>⟧.content parts)) }
    ensures rows_of_ninth { I.format.rows (I.content result.8) ≡ rows_of_last 8 (⟦<(A, B, C, D, E, F, G, H, I) as Column>⟧.format.rows (⟦<(A, B, C, D, E, F, G, H, I) as Column>⟧.content parts)) }
{
    parts
}

/// Splits a view of tuples of ten into the views of the ten fields.
///
/// # Requires
/// A well-formed view.
pub fn fields_of_ten<
    A: Column,
    B: Column,
    C: Column,
    D: Column,
    E: Column,
    F: Column,
    G: Column,
    H: Column,
    I: Column,
    J: Column,
>(parts: (A, B, C, D, E, F, G, H, I, J)) -> (A, B, C, D, E, F, G, H, I, J)
    requires { IsSound ⟦<(A, B, C, D, E, F, G, H, I, J) as Column>⟧.format (⟦<(A, B, C, D, E, F, G, H, I, J) as Column>⟧.content parts) }
    ensures first { IsSound A.format (A.content result.0) }
    ensures second { IsSound B.format (B.content result.1) }
    ensures third { IsSound C.format (C.content result.2) }
    ensures fourth { IsSound D.format (D.content result.3) }
    ensures fifth { IsSound E.format (E.content result.4) }
    ensures sixth { IsSound F.format (F.content result.5) }
    ensures seventh { IsSound G.format (G.content result.6) }
    ensures eighth { IsSound H.format (H.content result.7) }
    ensures ninth { IsSound I.format (I.content result.8) }
    ensures tenth { IsSound J.format (J.content result.9) }
    ensures rows_of_first { A.format.rows (A.content result.0) ≡ rows_of_field 0 (⟦<(A, B, C, D, E, F, G, H, I, J) as Column>⟧.format.rows (⟦<(A, B, C, D, E, F, G, H, I, J) as Column>⟧.content parts)) }
    ensures rows_of_second { B.format.rows (B.content result.1) ≡ rows_of_field 1 (⟦<(A, B, C, D, E, F, G, H, I, J) as Column>⟧.format.rows (⟦<(A, B, C, D, E, F, G, H, I, J) as Column>⟧.content parts)) }
    ensures rows_of_third { C.format.rows (C.content result.2) ≡ rows_of_field 2 (⟦<(A, B, C, D, E, F, G, H, I, J) as Column>⟧.format.rows (⟦<(A, B, C, D, E, F, G, H, I, J) as Column>⟧.content parts)) }
    ensures rows_of_fourth { D.format.rows (D.content result.3) ≡ rows_of_field 3 (⟦<(A, B, C, D, E, F, G, H, I, J) as Column>⟧.format.rows (⟦<(A, B, C, D, E, F, G, H, I, J) as Column>⟧.content parts)) }
    ensures rows_of_fifth { E.format.rows (E.content result.4) ≡ rows_of_field 4 (⟦<(A, B, C, D, E, F, G, H, I, J) as Column>⟧.format.rows (⟦<(A, B, C, D, E, F, G, H, I, J) as Column>⟧.content parts)) }
    ensures rows_of_sixth { F.format.rows (F.content result.5) ≡ rows_of_field 5 (⟦<(A, B, C, D, E, F, G, H, I, J) as Column>⟧.format.rows (⟦<(A, B, C, D, E, F, G, H, I, J) as Column>⟧.content parts)) }
    ensures rows_of_seventh { G.format.rows (G.content result.6) ≡ rows_of_field 6 (⟦<(A, B, C, D, E, F, G, H, I, J) as Column>⟧.format.rows (⟦<(A, B, C, D, E, F, G, H, I, J) as Column>⟧.content parts)) }
    ensures rows_of_eighth { H.format.rows (H.content result.7) ≡ rows_of_field 7 (⟦<(A, B, C, D, E, F, G, H, I, J) as Column>⟧.format.rows (⟦<(A, B, C, D, E, F, G, H, I, J) as Column>⟧.content parts)) }
    ensures rows_of_ninth { I.format.rows (I.content result.8) ≡ rows_of_field 8 (⟦<(A, B, C, D, E, F, G, H, I, J) as Column>⟧.format.rows (⟦<(A, B, C, D, E, F, G, H, I, J) as Column>⟧.content parts)) }
    ensures rows_of_tenth { J.format.rows (J.content result.9) ≡ rows_of_last 9 (⟦<(A, B, C, D, E, F, G, H, I, J) as Column>⟧.format.rows (⟦<(A, B, C, D, E, F, G, H, I, J) as Column>⟧.content parts)) }
{
    parts
}

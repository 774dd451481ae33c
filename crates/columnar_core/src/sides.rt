//! Validates the parts of a tuple one after the other, then the rule of the whole: that all have equally many rows.
ghost use Rattle.std.specs.Prelude.{◌≡◌, ℕ, ◌+◌, ◌*◌, ◌^◌, ◌<◌, ◌≤◌, List, [], ◌∷◌, length, drop, IsTrue, OnOk};
ghost use Rattle.columnar_base.specs.Format.{Content, Format, Fits, IsSound, both, bytes_held, first, moved, representable};
ghost use Rattle.columnar_base.specs.Faults.{verdict};
ghost use Rattle.columnar_base.specs.LongTuples.{are_level, sides, tuple_format};
ghost use Rattle.columnar_core.specs.Store.{slices_in};

use crate::bytes::{Check, Stored};
use crate::store::DecodedStore;
use columnar_base::fault::StoreFault;
use columnar_base::tally::Tally;
use columnar_base::traits::Len;

/// The types of the parts of a tuple, as nested pairs that end in a tuple of one: `(A, (B, (C,)))`.
pub trait Sides {
    // the format of the first part, and those of the others
    ghost head: { Format };

    ghost others: { List Format };

    /// Validates the slices of the parts from `offset` on. Counts its steps in the tally.
    ///
    /// # Requires
    /// Representable parts, and enough slices from `offset` on.
    ///
    /// # Errors
    /// The first broken rule of the parts.
    fn judge_parts<L>(
        store: &DecodedStore<'_>,
        offset: usize,
        tally: &mut Tally<L>,
    ) -> Result<(), StoreFault>
        requires representable { IsTrue (representable (sides Self.head Self.others)) }
        requires room { offset + (sides Self.head Self.others).count ≤ length (slices_in store.now) }
        ensures exact { verdict result ≡ first (moved offset ((sides Self.head Self.others).broken ((sides Self.head Self.others).build (drop offset (slices_in store.now))))) }
        ensures turns { tally.new.turns ≤ tally.old.turns + 16 * bytes_held ((sides Self.head Self.others).build (drop offset (slices_in store.now))) };

    /// Returns whether each part has `rows` rows in accepted slices.
    ///
    /// # Requires
    /// Representable parts, and accepted slices from `offset` on.
    fn rows_agree(store: &DecodedStore<'_>, offset: usize, rows: usize) -> bool
        requires representable { IsTrue (representable (sides Self.head Self.others)) }
        requires fits { Fits (sides Self.head Self.others) offset (slices_in store.now) }
        ensures { result ≡ are_level Self.head Self.others rows ((sides Self.head Self.others).build (drop offset (slices_in store.now))) };
}

impl<A: Stored> Sides for (A,) {
    ghost head = { A.format };

    ghost others = { [] };

    fn judge_parts<L>(
        store: &DecodedStore<'_>,
        offset: usize,
        tally: &mut Tally<L>,
    ) -> Result<(), StoreFault> {
        A::judge_tallied(store, offset, tally)
    }

    fn rows_agree(store: &DecodedStore<'_>, offset: usize, rows: usize) -> bool {
        rows == A::rows_in(store, offset)
    }
}

impl<A: Stored, R: Sides> Sides for (A, R) {
    ghost head = { A.format };

    ghost others = { R.head ∷ R.others };

    fn judge_parts<L>(
        store: &DecodedStore<'_>,
        offset: usize,
        tally: &mut Tally<L>,
    ) -> Result<(), StoreFault> {
        A::judge_tallied(store, offset, tally)?;
        R::judge_parts(store, offset + A::slice_count(), tally)
    }

    fn rows_agree(store: &DecodedStore<'_>, offset: usize, rows: usize) -> bool {
        rows == A::rows_in(store, offset) && R::rows_agree(store, offset + A::slice_count(), rows)
    }
}

/// Validates the slices of a tuple. Counts its steps in the tally.
///
/// # Requires
/// A representable type, and enough slices from `offset` on.
///
/// # Errors
/// The first broken rule: those of the parts, then that they have equally many rows.
pub fn judge_tuple<A: Stored, R: Sides, L>(
    store: &DecodedStore<'_>,
    offset: usize,
    tally: &mut Tally<L>,
) -> Result<(), StoreFault>
    requires representable { IsTrue (representable (tuple_format A.format R.head R.others)) }
    requires room { offset + (tuple_format A.format R.head R.others).count ≤ length (slices_in store.now) }
    ensures exact { verdict result ≡ first (moved offset ((tuple_format A.format R.head R.others).broken ((tuple_format A.format R.head R.others).build (drop offset (slices_in store.now))))) }
    ensures turns { tally.new.turns ≤ tally.old.turns + 16 * bytes_held ((tuple_format A.format R.head R.others).build (drop offset (slices_in store.now))) }
{
    <(A, R)>::judge_parts(store, offset, tally)?;
    if R::rows_agree(store, offset + A::slice_count(), A::rows_in(store, offset)) {
        Ok(())
    } else {
        Err(StoreFault::Parts(offset))
    }
}

/// The lent parts of a tuple, as nested pairs that end in a tuple of one: `(&a, (&b, (&c,)))`.
pub trait LentSides {
    // the format of the first part, and those of the others
    ghost head: { Format };

    ghost others: { List Format };

    // the content of the parts
    ghost content: { Self → Content };

    /// Validates the parts, with slices counted from `from` on. Counts its steps in the tally.
    ///
    /// # Requires
    /// Representable parts, and slice numbers below 2^64.
    ///
    /// # Errors
    /// The first broken rule of the parts.
    fn check_parts<L>(&self, from: usize, tally: &mut Tally<L>) -> Result<(), StoreFault>
        requires representable { IsTrue (representable (sides Self.head Self.others)) }
        requires counted { from + (sides Self.head Self.others).count < 2 ^ 64 }
        ensures exact { verdict result ≡ first (moved from ((sides Self.head Self.others).broken (Self.content self.now))) }
        ensures turns { tally.new.turns ≤ tally.old.turns + 16 * bytes_held (Self.content self.now) };

    /// Returns whether each part has `rows` rows.
    ///
    /// # Requires
    /// Well-formed parts.
    fn have_rows(&self, rows: usize) -> bool
        requires { IsSound (sides Self.head Self.others) (Self.content self.now) }
        ensures { result ≡ are_level Self.head Self.others rows (Self.content self.now) };
}

impl<'x, A: Check + Len> LentSides for (&'x A,) {
    ghost head = { A.format };

    ghost others = { [] };

    ghost content = { λ p. A.content p.0.now };

    fn check_parts<L>(&self, from: usize, tally: &mut Tally<L>) -> Result<(), StoreFault> {
        self.0.check_from_tallied(from, tally)
    }

    fn have_rows(&self, rows: usize) -> bool {
        rows == self.0.len()
    }
}

impl<'x, A: Check + Len, R: LentSides> LentSides for (&'x A, R) {
    ghost head = { A.format };

    ghost others = { R.head ∷ R.others };

    ghost content = { λ p. both (A.content p.0.now) (R.content p.1) };

    fn check_parts<L>(&self, from: usize, tally: &mut Tally<L>) -> Result<(), StoreFault> {
        self.0.check_from_tallied(from, tally)?;
        self.1.check_parts(from + A::slice_count(), tally)
    }

    fn have_rows(&self, rows: usize) -> bool {
        rows == self.0.len() && self.1.have_rows(rows)
    }
}

/// Validates a tuple, with slices counted from `from` on. Counts its steps in the tally.
///
/// # Requires
/// A representable type, and slice numbers below 2^64.
///
/// # Errors
/// The first broken rule: those of the parts, then that they have equally many rows.
pub fn check_tuple<'x, A: Check + Len, R: LentSides, L>(
    parts: &(&'x A, R),
    from: usize,
    tally: &mut Tally<L>,
) -> Result<(), StoreFault>
    requires representable { IsTrue (representable (tuple_format A.format R.head R.others)) }
    requires counted { from + (tuple_format A.format R.head R.others).count < 2 ^ 64 }
    ensures exact { verdict result ≡ first (moved from ((tuple_format A.format R.head R.others).broken (both (A.content parts.now.0.now) (R.content parts.now.1)))) }
    ensures turns { tally.new.turns ≤ tally.old.turns + 16 * bytes_held (both (A.content parts.now.0.now) (R.content parts.now.1)) }
{
    parts.check_parts(from, tally)?;
    if parts.1.have_rows(parts.0.len()) {
        Ok(())
    } else {
        Err(StoreFault::Parts(from))
    }
}

/// Does the same for a long tuple: its first five parts, and the nest of the others.
///
/// # Requires
/// As `check_tuple`.
///
/// # Errors
/// As `check_tuple`.
pub fn check_long<
    'x,
    A: Check + Len,
    B: Check + Len,
    C: Check + Len,
    D: Check + Len,
    E: Check + Len,
    R: LentSides + Copy,
    L,
>(
    a: &'x A,
    b: &'x B,
    c: &'x C,
    d: &'x D,
    e: &'x E,
    others: R,
    from: usize,
    tally: &mut Tally<L>,
) -> Result<(), StoreFault>
    requires representable { IsTrue (representable (tuple_format A.format B.format (C.format ∷ D.format ∷ E.format ∷ R.head ∷ R.others))) }
    requires counted { from + (tuple_format A.format B.format (C.format ∷ D.format ∷ E.format ∷ R.head ∷ R.others)).count < 2 ^ 64 }
    ensures exact { verdict result ≡ first (moved from ((tuple_format A.format B.format (C.format ∷ D.format ∷ E.format ∷ R.head ∷ R.others)).broken (both (A.content a.now) (both (B.content b.now) (both (C.content c.now) (both (D.content d.now) (both (E.content e.now) (R.content others)))))))) }
    ensures turns { tally.new.turns ≤ tally.old.turns + 16 * bytes_held (both (A.content a.now) (both (B.content b.now) (both (C.content c.now) (both (D.content d.now) (both (E.content e.now) (R.content others)))))) }
{
    check_tuple(&(a, (b, (c, (d, (e, others))))), from, tally)
}

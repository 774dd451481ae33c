//! Columns that are at most 256, so that each variant is a byte. The number of columns is a fact of their type.
ghost use Rattle.std.specs.Prelude.{ℕ, ◌+◌, ◌*◌, ◌≤◌};
ghost use Rattle.columnar_variants.specs.BankLaws.{leaf_within, join_within, join_carried};

use super::ColumnBank;
use columnar_core::traits::Column;
use std::marker::PhantomData;

/// A number that a type names, in sixteens or in ones.
pub trait Digit {
    // the number
    ghost value: { ℕ };
}

/// The number 0.
pub struct Zero;

/// The number after `N`.
pub struct Next<N> {
    of: PhantomData<N>,
}

impl Digit for Zero {
    ghost value = { 0 };
}

impl<N: Digit> Digit for Next<N> {
    ghost value = { N.value + 1 };
}

type Four<N> = Next<Next<Next<Next<N>>>>;

/// The number 15.
pub type Fifteen = Four<Four<Four<Next<Next<Next<Zero>>>>>>;

/// Columns that are at most one more than `H` sixteens and `L`.
pub trait Within<H: Digit, L: Digit>: ColumnBank {
    ghost within: { Self.bank.size ≤ 16 * H.value + L.value + 1 };
}

impl<A: Column, H: Digit, L: Digit> Within<H, L> for (A,) {
    ghost within = { leaf_within H.value L.value };
}

impl<A: Column, B: Within<H, L>, H: Digit, L: Digit> Within<H, Next<L>> for (A, B) {
    ghost within = { join_within H.value L.value B.within };
}

impl<A: Column, B: Within<H, Fifteen>, H: Digit> Within<Next<H>, Zero> for (A, B) {
    ghost within = { join_carried H.value B.within };
}

/// Columns that are at most 256. Columns of more variants take no rows: a push to them does not compile.
pub trait FewColumns: ColumnBank {
    ghost few: { Self.bank.size ≤ 256 };
}

impl<B: Within<Fifteen, Fifteen>> FewColumns for B {
    ghost few = { B.within };
}

//! The values of one variant, by its place among the variants.
ghost use Rattle.std.specs.Prelude.{◌≡◌, ℕ, suc, ◌<◌};
ghost use Rattle.columnar_core.specs.Format.{IsSound, both};
ghost use Rattle.columnar_sums.specs.Discriminants.{forms_content};
ghost use Rattle.columnar_variants.specs.Variants.{of_case, variants_format};
ghost use Rattle.columnar_variants.specs.NthLaws.{only_known, first_known, later_known};

use crate::bank::ColumnBank;
use crate::bank::apart::columns_of;
use crate::bank::few::{Next, Zero};
use crate::variants::Variants;
use columnar_core::traits::Column;
use columnar_core::words::Words;
use columnar_sums::discriminant::Variants as VariantBytes;

/// Columns of variants that have a column at place `N`: `Zero` is the place of the first, `Next<Zero>` that of the
/// second.
pub trait NthColumn<N>: ColumnBank {
    // the place, counted from 0
    ghost place: { ℕ };

    /// The column at the place.
    type Values: Column;

    /// Returns the column at the place.
    ///
    /// # Requires
    /// The columns are well-formed.
    fn nth_column(self) -> Self::Values
        requires { IsSound Self.bank.sides (Self.contents self) }
        ensures sound { IsSound Self.Values.format (Self.Values.content result) }
        ensures rows { Self.Values.format.rows (Self.Values.content result) ≡ Self.bank.table (Self.contents self) place };

    ghost known: { place < Self.bank.size };
}

impl<A: Column> NthColumn<Zero> for (A,) {
    ghost place = { 0 };

    type Values = A;

    ghost known = { only_known };

    fn nth_column(self) -> A {
        let (only,) = self;
        only
    }
}

impl<A: Column, B: ColumnBank + Drop> NthColumn<Zero> for (A, B) {
    ghost place = { 0 };

    type Values = A;

    ghost known = { first_known B.bank.size };

    fn nth_column(self) -> A {
        let (first, _others) = self;
        first
    }
}

impl<A: Column + Drop, B: NthColumn<N>, N> NthColumn<Next<N>> for (A, B) {
    ghost place = { suc B.place };

    type Values = B::Values;

    ghost known = { later_known B.known };

    fn nth_column(self) -> B::Values {
        let (_first, others) = self;
        others.nth_column()
    }
}

/// Returns the values of the variant at place `N`, those of its rows in order.
///
/// # Requires
/// The view is well-formed.
pub fn values_at<N, B: NthColumn<N> + Copy, CVar: VariantBytes + Copy, COff: Words + Copy>(
    view: Variants<B, CVar, COff>,
) -> B::Values
    requires { IsSound (variants_format B.bank) (both (B.contents view.columns) (forms_content CVar.bytes COff.bytes view.indexes)) }
    ensures sound { IsSound B.Values.format (B.Values.content result) }
    ensures rows { B.Values.format.rows (B.Values.content result) ≡ of_case B.place ((variants_format B.bank).rows (both (B.contents view.columns) (forms_content CVar.bytes COff.bytes view.indexes))) }
{
    columns_of(view).nth_column()
}

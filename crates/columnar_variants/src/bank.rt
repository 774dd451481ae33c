//! The columns of the values of a sum type, one for each variant, as nested tuples: `(A, (B, (C,)))` has three
//! variants.
ghost use Rattle.std.specs.Prelude.{◌≡◌, ℕ, ◌<◌, ◌≤◌, List, [], length, slice_get, Some};
ghost use Rattle.columnar_core.specs.Row.{Row};
ghost use Rattle.columnar_core.specs.Format.{Content, IsSound, both};
ghost use Rattle.columnar_variants.specs.Variants.{Bank, IsBank, leaf, join};
ghost use Rattle.columnar_variants.specs.VariantLaws.{leaf_bank, join_bank};
ghost use Rattle.columnar_variants.specs.BankLaws.{leaf_beyond, join_beyond};

pub mod apart;
pub mod bytes;
pub mod copy;
pub mod earlier;
pub mod few;
pub mod grow;
pub mod owned;
pub mod push;

use crate::cases::{Cases, Last, Nth};
use columnar_core::traits::{Column, Index, Len};

/// The columns of the values, one for each variant: `(A,)` is the column of the only variant, and `(A, B)` puts the
/// column of one variant before the columns `B` of the others.
pub trait ColumnBank {
    // how the columns are read
    ghost bank: { Bank };

    // the contents of the columns
    ghost contents: { Self → Content };

    /// Returns the number of columns, or `most` if there are more.
    fn columns(most: usize) -> usize
        ensures few { bank.size ≤ most → result ≡ bank.size }
        ensures many { most ≤ bank.size → result ≡ most };

    ghost is_bank: { IsBank bank };

    // variants beyond the columns have no values
    ghost beyond: { (c : Content) (v : ℕ) → bank.size ≤ v → bank.table c v ≡ [] };
}

impl<A: Column> ColumnBank for (A,) {
    ghost bank = { leaf A.format };

    ghost contents = { λ c. A.content c.0 };

    ghost is_bank = { leaf_bank A.format };

    ghost beyond = { leaf_beyond A.format };

    fn columns(most: usize) -> usize {
        if most == 0 { 0 } else { 1 }
    }
}

impl<A: Column, B: ColumnBank> ColumnBank for (A, B) {
    ghost bank = { join A.format B.bank };

    ghost contents = { λ c. both (A.content c.0) (B.contents c.1) };

    ghost is_bank = { join_bank A.format B.bank B.is_bank };

    ghost beyond = { join_beyond A.format B.bank B.beyond };

    fn columns(most: usize) -> usize {
        if most == 0 {
            0
        } else {
            B::columns(most - 1) + 1
        }
    }
}

/// Columns that count the values of a variant.
pub trait LenBank: ColumnBank {
    /// Returns the number of values of a variant.
    ///
    /// # Requires
    /// The columns are well-formed, and `variant` is less than their number.
    fn values_of(&self, variant: usize) -> usize
        requires sound { IsSound Self.bank.sides (Self.contents self.now) }
        requires known { variant < Self.bank.size }
        ensures { result ≡ length (Self.bank.table (Self.contents self.now) variant) };
}

impl<A: Len> LenBank for (A,) {
    fn values_of(&self, _variant: usize) -> usize {
        self.0.len()
    }
}

impl<A: Len, B: LenBank> LenBank for (A, B) {
    fn values_of(&self, variant: usize) -> usize {
        if variant == 0 {
            self.0.len()
        } else {
            self.1.values_of(variant - 1)
        }
    }
}

/// Columns whose values are read by variant.
pub trait IndexBank: ColumnBank {
    /// A value with its variant.
    type Ref: Cases;

    /// Returns value `index` of a variant.
    ///
    /// # Requires
    /// The columns are well-formed, `variant` is less than their number, and `index` less than its number of values.
    fn value(&self, variant: usize, index: usize) -> Self::Ref
        requires sound { IsSound Self.bank.sides (Self.contents self.now) }
        requires known { variant < Self.bank.size }
        requires in_range { index < length (Self.bank.table (Self.contents self.now) variant) }
        ensures variant { Self.Ref.variant result ≡ variant }
        ensures value { slice_get (Self.bank.table (Self.contents self.now) variant) index ≡ Some (Self.Ref.value result) }
        ensures valid { Self.Ref.valid result };
}

impl<A: Index> IndexBank for (A,) {
    type Ref = Last<A::Ref>;

    fn value(&self, _variant: usize, index: usize) -> Last<A::Ref> {
        Last(self.0.get(index))
    }
}

impl<A: Index, B: IndexBank> IndexBank for (A, B) {
    type Ref = Nth<A::Ref, B::Ref>;

    fn value(&self, variant: usize, index: usize) -> Nth<A::Ref, B::Ref> {
        if variant == 0 {
            Nth::This(self.0.get(index))
        } else {
            Nth::Next(self.1.value(variant - 1, index))
        }
    }
}

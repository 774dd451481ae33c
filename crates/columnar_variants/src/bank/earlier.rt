//! Columns of a sum type that are made from an earlier form.
ghost use Rattle.std.specs.Prelude.{◌≡◌, IfOk, IfErr, refl};
ghost use Rattle.columnar_core.specs.Format.{IsSound};
ghost use Rattle.columnar_variants.specs.BankLaws.{same_size};
ghost use Rattle.columnar_variants.specs.BankEarlier.{IsEarlierBank, IsBankMadeOf, IsTrueOfBare};
ghost use Rattle.columnar_variants.specs.BankEarlierLaws.{earlier_leaf, earlier_join};

use super::ColumnBank;
use columnar_core::earlier::Earlier;
use columnar_core::fault::GrowError;
use std::alloc::Global;

/// Columns that can be made from their earlier forms.
pub trait EarlierBank: ColumnBank {
    /// The earlier forms.
    type Old: ColumnBank + Drop;

    /// Makes the columns from earlier ones with the same values. Fails as the conversion of a column fails.
    ///
    /// # Requires
    /// The earlier columns are well-formed.
    fn columns_of_old(alloc: Global, old: Self::Old) -> Result<Self, GrowError>
        requires { IsSound Self.Old.bank.sides (Self.Old.contents old) }
        ensures ok { IfOk result (λ c. IsBankMadeOf Self.Old.bank Self.bank (Self.Old.contents old) (Self.contents c)) }
        ensures err { IfErr result (λ e. IsTrueOfBare e Self.bank (Self.Old.bank.table (Self.Old.contents old))) };

    ghost earlier: { IsEarlierBank Self.Old.bank Self.bank };

    // the earlier forms are as many
    ghost level: { Self.Old.bank.size ≡ Self.bank.size };
}

impl<A: Earlier> EarlierBank for (A,) {
    type Old = (A::Old,);

    ghost earlier = { earlier_leaf A.Old.format A.format A.earlier };

    ghost level = { refl };

    fn columns_of_old(alloc: Global, old: (A::Old,)) -> Result<Self, GrowError> {
        let first = A::from_old(alloc, old.0)?;
        Ok((first,))
    }
}

impl<A: Earlier + Drop, B: EarlierBank> EarlierBank for (A, B) {
    type Old = (A::Old, B::Old);

    ghost earlier = { earlier_join A.Old.format A.format B.Old.bank B.bank A.earlier B.earlier };

    ghost level = { same_size B.level };

    fn columns_of_old(alloc: Global, old: (A::Old, B::Old)) -> Result<Self, GrowError> {
        let first = A::from_old(alloc, old.0)?;
        let others = B::columns_of_old(alloc, old.1)?;
        Ok((first, others))
    }
}

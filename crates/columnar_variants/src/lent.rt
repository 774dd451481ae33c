//! Pushes of values that push themselves (`PushInto`), with their variants: of your own generic enum, whose columns take
//! its fields by reference.
ghost use Rattle.std.specs.Prelude.{◌≡◌, ℕ, ◌+◌, ◌<◌, ◌≤◌, [], ◌∷◌, length, OnOk, IfErr};
ghost use Rattle.columnar_core.specs.Change.{Took, Refused};
ghost use Rattle.columnar_core.specs.Format.{IsSound, both};
ghost use Rattle.columnar_sums.specs.Discriminants.{discriminant_format, owned_forms, variants_of, times};
ghost use Rattle.columnar_variants.specs.BankCases.{BankCaseTook, BankCaseRefused};
ghost use Rattle.columnar_variants.specs.Cases.{CaseTook, CaseRefused};
ghost use Rattle.columnar_variants.specs.Variants.{variants_format};

use crate::bank::ColumnBank;
use crate::bank::few::FewColumns;
use crate::cases::{Cases, Last, Nth};
use crate::variants::Variants;
use columnar_core::container::Truncate;
use columnar_core::fault::GrowError;
use columnar_core::traits::PushInto;
use columnar_sums::discriminant::Discriminant;

/// Pushes a value to the column of its variant, and then its variant. If the second push fails, the value is removed
/// again.
///
/// # Requires
/// Both columns are well-formed, `column` has a value for each row of `variant`, and `item` is valid.
pub fn push_into_case<T: PushInto<C>, C: Truncate>(
    column: &mut C,
    indexes: &mut Discriminant<Vec<u8>, Vec<u64>>,
    variant: u8,
    item: T,
) -> Result<(), GrowError>
    requires column { IsSound C.format (C.content column.old) }
    requires forms { IsSound discriminant_format (owned_forms indexes.old.variant.items indexes.old.offset.items) }
    requires told { length (C.format.rows (C.content column.old)) ≡ times variant (variants_of (owned_forms indexes.old.variant.items indexes.old.offset.items)) }
    requires valid { T.valid item }
    ensures ok { OnOk result (CaseTook C.format (C.content column.old) (C.content column.new) (owned_forms indexes.old.variant.items indexes.old.offset.items) (owned_forms indexes.new.variant.items indexes.new.offset.items) variant (T.meaning item)) }
    ensures err { IfErr result (λ e. CaseRefused C.format (C.content column.old) (C.content column.new) (owned_forms indexes.old.variant.items indexes.old.offset.items) (owned_forms indexes.new.variant.items indexes.new.offset.items) variant (T.meaning item) e) }
{
    let before = column.len();
    item.push_into(column)?;
    match indexes.push(variant, before as u64) {
        Ok(()) => Ok(()),
        Err(error) => {
            column.truncate(before);
            Err(error)
        }
    }
}

/// Columns that accept items of one of their variants, each of which pushes itself.
pub trait PushCaseInto<T: Cases>: ColumnBank {
    /// Pushes the item's value to the column of its variant, then its variant plus `base` to the variants; or neither.
    ///
    /// # Requires
    /// As `PushCase::push_with`.
    fn push_into_with(
        &mut self,
        indexes: &mut Discriminant<Vec<u8>, Vec<u64>>,
        base: usize,
        item: T,
    ) -> Result<(), GrowError>
        requires sound { IsSound Self.bank.sides (Self.contents self.old) }
        requires forms { IsSound discriminant_format (owned_forms indexes.old.variant.items indexes.old.offset.items) }
        requires few { base + Self.bank.size ≤ 256 }
        requires told { (v : ℕ) → v < Self.bank.size → length (Self.bank.table (Self.contents self.old) v) ≡ times (base + v) (variants_of (owned_forms indexes.old.variant.items indexes.old.offset.items)) }
        requires valid { T.valid item }
        ensures known { T.variant item < Self.bank.size }
        ensures ok { OnOk result (BankCaseTook Self.bank (Self.contents self.old) (Self.contents self.new) (owned_forms indexes.old.variant.items indexes.old.offset.items) (owned_forms indexes.new.variant.items indexes.new.offset.items) base (T.variant item) (T.value item)) }
        ensures err { IfErr result (λ e. BankCaseRefused Self.bank (Self.contents self.old) (Self.contents self.new) (owned_forms indexes.old.variant.items indexes.old.offset.items) (owned_forms indexes.new.variant.items indexes.new.offset.items) (T.variant item) (T.value item) e) };
}

impl<S: PushInto<A>, A: Truncate> PushCaseInto<Last<S>> for (A,) {
    fn push_into_with(
        &mut self,
        indexes: &mut Discriminant<Vec<u8>, Vec<u64>>,
        base: usize,
        item: Last<S>,
    ) -> Result<(), GrowError> {
        push_into_case(&mut self.0, indexes, base as u8, item.0)
    }
}

impl<S: PushInto<A>, T: Cases, A: Truncate, B: PushCaseInto<T>> PushCaseInto<Nth<S, T>> for (A, B) {
    fn push_into_with(
        &mut self,
        indexes: &mut Discriminant<Vec<u8>, Vec<u64>>,
        base: usize,
        item: Nth<S, T>,
    ) -> Result<(), GrowError> {
        match item {
            Nth::This(value) => push_into_case(&mut self.0, indexes, base as u8, value),
            Nth::Next(other) => self.1.push_into_with(indexes, base + 1, other),
        }
    }
}

/// Appends a row of one of the variants, whose value pushes itself.
///
/// # Requires
/// Well-formed variants, and a valid item.
///
/// # Errors
/// As `Push::push`.
pub fn push_into_variants<T: Cases, B: PushCaseInto<T> + FewColumns>(
    variants: &mut Variants<B, Vec<u8>, Vec<u64>>,
    item: T,
) -> Result<(), GrowError>
    requires sound { IsSound (variants_format B.bank) (both (B.contents variants.old.columns) (owned_forms variants.old.indexes.variant.items variants.old.indexes.offset.items)) }
    requires valid { T.valid item }
    ensures ok { OnOk result (Took (variants_format B.bank) (both (B.contents variants.old.columns) (owned_forms variants.old.indexes.variant.items variants.old.indexes.offset.items)) (both (B.contents variants.new.columns) (owned_forms variants.new.indexes.variant.items variants.new.indexes.offset.items)) (T.meaning item ∷ [])) }
    ensures err { IfErr result (λ e. Refused (variants_format B.bank) (both (B.contents variants.old.columns) (owned_forms variants.old.indexes.variant.items variants.old.indexes.offset.items)) (both (B.contents variants.new.columns) (owned_forms variants.new.indexes.variant.items variants.new.indexes.offset.items)) (T.meaning item ∷ []) e) }
{
    variants
        .columns
        .push_into_with(&mut variants.indexes, 0, item)
}

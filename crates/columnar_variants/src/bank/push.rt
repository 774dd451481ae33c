//! Pushes of values with their variants to the columns of a sum type.
ghost use Rattle.std.specs.Prelude.{◌≡◌, ℕ, ◌+◌, ◌<◌, ◌≤◌, length, OnOk, IfErr};
ghost use Rattle.columnar_core.specs.Format.{IsSound};
ghost use Rattle.columnar_sums.specs.Discriminants.{discriminant_format, owned_forms, variants_of, times};
ghost use Rattle.columnar_variants.specs.BankCases.{BankCaseTook, BankCaseRefused};

use super::ColumnBank;
use crate::case::{push_case, push_ref_case};
use crate::cases::{Cases, Last, Nth};
use columnar_core::container::Truncate;
use columnar_core::fault::GrowError;
use columnar_core::traits::{Item, Push, PushRef};
use columnar_sums::discriminant::Discriminant;

/// Columns that accept items of one of their variants.
pub trait PushCase<T: Cases>: ColumnBank {
    /// Pushes the item's value to the column of its variant, then its variant plus `base` to the variants; or neither.
    ///
    /// # Requires
    /// The columns and the variants are well-formed and have equal numbers of rows for each variant; `base` plus the
    /// number of columns is at most 256; and `item` is valid.
    fn push_with(
        &mut self,
        indexes: &mut Discriminant<Vec<u8>, Vec<u64>>,
        base: usize,
        item: T,
    ) -> Result<(), GrowError>
        requires sound { IsSound Self.bank.sides (Self.contents self.old) }
        requires forms { IsSound discriminant_format (owned_forms indexes.old.variant.items indexes.old.offset.items) }
        requires few { base + Self.bank.size ≤ 256 }
        requires told { (v : ℕ) → v < Self.bank.size → length (Self.bank.table (Self.contents self.old) v) ≡ times (base + v) (variants_of (owned_forms indexes.old.variant.items indexes.old.offset.items)) }
        requires valid { T.valid item }
        ensures known { T.variant item < Self.bank.size }
        ensures ok { OnOk result (BankCaseTook Self.bank (Self.contents self.old) (Self.contents self.new) (owned_forms indexes.old.variant.items indexes.old.offset.items) (owned_forms indexes.new.variant.items indexes.new.offset.items) base (T.variant item) (T.value item)) }
        ensures err { IfErr result (λ e. BankCaseRefused Self.bank (Self.contents self.old) (Self.contents self.new) (owned_forms indexes.old.variant.items indexes.old.offset.items) (owned_forms indexes.new.variant.items indexes.new.offset.items) (T.variant item) (T.value item) e) };
}

/// Does the same as `PushCase` with referenced items.
pub trait PushCaseRef<T: Cases>: ColumnBank {
    /// Does the same as `push_with` with a referenced item.
    ///
    /// # Requires
    /// As `push_with`.
    fn push_ref_with(
        &mut self,
        indexes: &mut Discriminant<Vec<u8>, Vec<u64>>,
        base: usize,
        item: &T,
    ) -> Result<(), GrowError>
        requires sound { IsSound Self.bank.sides (Self.contents self.old) }
        requires forms { IsSound discriminant_format (owned_forms indexes.old.variant.items indexes.old.offset.items) }
        requires few { base + Self.bank.size ≤ 256 }
        requires told { (v : ℕ) → v < Self.bank.size → length (Self.bank.table (Self.contents self.old) v) ≡ times (base + v) (variants_of (owned_forms indexes.old.variant.items indexes.old.offset.items)) }
        requires valid { T.valid item.now }
        ensures known { T.variant item.now < Self.bank.size }
        ensures ok { OnOk result (BankCaseTook Self.bank (Self.contents self.old) (Self.contents self.new) (owned_forms indexes.old.variant.items indexes.old.offset.items) (owned_forms indexes.new.variant.items indexes.new.offset.items) base (T.variant item.now) (T.value item.now)) }
        ensures err { IfErr result (λ e. BankCaseRefused Self.bank (Self.contents self.old) (Self.contents self.new) (owned_forms indexes.old.variant.items indexes.old.offset.items) (owned_forms indexes.new.variant.items indexes.new.offset.items) (T.variant item.now) (T.value item.now) e) };
}

impl<S: Item, A: Truncate + Push<S>> PushCase<Last<S>> for (A,) {
    fn push_with(
        &mut self,
        indexes: &mut Discriminant<Vec<u8>, Vec<u64>>,
        base: usize,
        item: Last<S>,
    ) -> Result<(), GrowError> {
        push_case(&mut self.0, indexes, base as u8, item.0)
    }
}

impl<S: Item, T: Cases, A: Truncate + Push<S>, B: PushCase<T>> PushCase<Nth<S, T>> for (A, B) {
    fn push_with(
        &mut self,
        indexes: &mut Discriminant<Vec<u8>, Vec<u64>>,
        base: usize,
        item: Nth<S, T>,
    ) -> Result<(), GrowError> {
        match item {
            Nth::This(value) => push_case(&mut self.0, indexes, base as u8, value),
            Nth::Next(other) => self.1.push_with(indexes, base + 1, other),
        }
    }
}

impl<S: Item, A: Truncate + PushRef<S>> PushCaseRef<Last<S>> for (A,) {
    fn push_ref_with(
        &mut self,
        indexes: &mut Discriminant<Vec<u8>, Vec<u64>>,
        base: usize,
        item: &Last<S>,
    ) -> Result<(), GrowError> {
        push_ref_case(&mut self.0, indexes, base as u8, &item.0)
    }
}

impl<S: Item, T: Cases, A: Truncate + PushRef<S>, B: PushCaseRef<T>> PushCaseRef<Nth<S, T>>
    for (A, B) {
    fn push_ref_with(
        &mut self,
        indexes: &mut Discriminant<Vec<u8>, Vec<u64>>,
        base: usize,
        item: &Nth<S, T>,
    ) -> Result<(), GrowError> {
        match item {
            Nth::This(value) => push_ref_case(&mut self.0, indexes, base as u8, value),
            Nth::Next(other) => self.1.push_ref_with(indexes, base + 1, other),
        }
    }
}

impl<'x, T: Cases, B: PushCaseRef<T>> PushCase<&'x T> for B {
    fn push_with(
        &mut self,
        indexes: &mut Discriminant<Vec<u8>, Vec<u64>>,
        base: usize,
        item: &'x T,
    ) -> Result<(), GrowError> {
        self.push_ref_with(indexes, base, item)
    }
}

//! Names of the slices of the values of a sum type, and of the variants of its rows.
ghost use Rattle.std.specs.Prelude.{ℕ, List, ◌≡◌, ◌+◌, ◌-◌, ◌^◌, ◌++◌, codes, length, map, min, string_bytes, OnOk, IfErr};
ghost use Rattle.columnar_names.specs.Kept.{KeepsItems};
ghost use Rattle.columnar_names.specs.Names.{field_path};

use crate::names::{NamedParts, PartNames, SliceNames, joined, push_field};
use columnar_base::fault::GrowError;
use columnar_core::words::Words;
use columnar_sums::discriminant::{Discriminant, Variants as VariantBytes};
use columnar_variants::bank::bytes::StoredBank;
use columnar_variants::variants::Variants;
use std::alloc::Global;

/// The columns of the values of a sum type, whose slices have names.
pub trait NamedBank: StoredBank {
    /// The names of the slices, in order, of the nested tuples at a path.
    ghost columns_at: { List ℕ → List (List ℕ) };

    /// The same if the columns are those of the variants from a number on, whose names are given.
    ghost variants_at: { (ℕ → List ℕ) → ℕ → List ℕ → List (List ℕ) };

    /// Appends the names of the slices, in order, of the nested tuples at `path`, the first at field 0.
    ///
    /// # Errors
    /// As `SliceNames::push_names`.
    fn push_columns(alloc: Global, path: &str, names: &mut Vec<String>) -> Result<(), GrowError>
        ensures names { OnOk result (map string_bytes names.new.items ≡ map string_bytes names.old.items ++ Self.columns_at path.now) }
        ensures count { OnOk result (length names.new.items ≡ length names.old.items + Self.bank.sides.count) }
        ensures kept { KeepsItems names.old.items names.new.items }
        ensures memory { IfErr result (λ e. e ≡ GrowError.Memory) };

    /// Does what `push_columns` does, with the variant's name for each column; the first column is that of variant
    /// `first`.
    ///
    /// # Errors
    /// As `SliceNames::push_names`.
    fn push_variants<N: PartNames>(
        alloc: Global,
        path: &str,
        first: usize,
        names: &mut Vec<String>,
    ) -> Result<(), GrowError>
        ensures names { OnOk result (map string_bytes names.new.items ≡ map string_bytes names.old.items ++ Self.variants_at N.name_of first path.now) }
        ensures count { OnOk result (length names.new.items ≡ length names.old.items + Self.bank.sides.count) }
        ensures kept { KeepsItems names.old.items names.new.items }
        ensures memory { IfErr result (λ e. e ≡ GrowError.Memory) };
}

impl<A: SliceNames> NamedBank for (A,) {
    ghost columns_at = { λ p. A.names_at (field_path p (codes "0")) };

    ghost variants_at = { λ n i p. A.names_at (field_path p (n i)) };

    fn push_columns(alloc: Global, path: &str, names: &mut Vec<String>) -> Result<(), GrowError> {
        push_field::<A>(alloc, path, "0", names)
    }

    fn push_variants<N: PartNames>(
        alloc: Global,
        path: &str,
        first: usize,
        names: &mut Vec<String>,
    ) -> Result<(), GrowError> {
        push_field::<A>(alloc, path, N::part_name(first), names)
    }
}

impl<A: SliceNames, B: NamedBank> NamedBank for (A, B) {
    ghost columns_at = { λ p. A.names_at (field_path p (codes "0")) ++ B.columns_at (field_path p (codes "1")) };

    ghost variants_at = { λ n i p. A.names_at (field_path p (n i)) ++ B.variants_at n (min (i + 1) (2 ^ 64 - 1)) p };

    fn push_columns(alloc: Global, path: &str, names: &mut Vec<String>) -> Result<(), GrowError> {
        push_field::<A>(alloc, path, "0", names)?;
        B::push_columns(alloc, joined(alloc, path, "1")?.as_str(), names)
    }

    fn push_variants<N: PartNames>(
        alloc: Global,
        path: &str,
        first: usize,
        names: &mut Vec<String>,
    ) -> Result<(), GrowError> {
        push_field::<A>(alloc, path, N::part_name(first), names)?;
        B::push_variants::<N>(alloc, path, first.saturating_add(1), names)
    }
}

impl<B: NamedBank, CVar: VariantBytes, COff: Words> SliceNames for Variants<B, CVar, COff> {
    ghost names_at = { λ p. B.columns_at (field_path p (codes "columns")) ++ ⟦<Discriminant<CVar, COff> as SliceNames>⟧.names_at (field_path p (codes "indexes")) };

    fn push_names(alloc: Global, path: &str, names: &mut Vec<String>) -> Result<(), GrowError> {
        B::push_columns(alloc, joined(alloc, path, "columns")?.as_str(), names)?;
        push_field::<Discriminant<CVar, COff>>(alloc, path, "indexes", names)
    }
}

impl<B: NamedBank, CVar: VariantBytes, COff: Words> NamedParts for Variants<B, CVar, COff> {
    ghost parts_at = { λ n p. B.variants_at n 0 p ++ ⟦<Discriminant<CVar, COff> as SliceNames>⟧.names_at (field_path p (codes "indexes")) };

    fn push_parts_names<N: PartNames>(
        alloc: Global,
        path: &str,
        names: &mut Vec<String>,
    ) -> Result<(), GrowError> {
        B::push_variants::<N>(alloc, path, 0, names)?;
        push_field::<Discriminant<CVar, COff>>(alloc, path, "indexes", names)
    }
}

//! Types whose slices have names.
ghost use Rattle.std.specs.Prelude.{◌≡◌, ◌+◌, ◌++◌, ◌∷◌, [], ℕ, List, codes, length, map, OnOk, IfOk, IfErr, string_bytes};
ghost use Rattle.columnar_names.specs.Kept.{KeepsItems};
ghost use Rattle.columnar_names.specs.Names.{field_path, name_at};

use columnar_base::fault::GrowError;
use columnar_core::bytes::Stored;
use std::alloc::Global;

/// A type with bytes whose slices all have names: the fields that lead to a slice, separated by dots. Examples are
/// `values` of lists of numbers, and `1.indexes.counts` of pairs with options. The name of a column that is a single
/// slice is empty.
pub trait SliceNames: Stored {
    /// The names of the slices, in order, of a column at a path.
    ghost names_at: { List ℕ → List (List ℕ) };

    /// Appends the names of the slices, in order, of a column at `path`.
    ///
    /// # Errors
    /// `Memory`, and no other error. The old names stay; those of its first slices may have been appended.
    fn push_names(alloc: Global, path: &str, names: &mut Vec<String>) -> Result<(), GrowError>
        ensures names { OnOk result (map string_bytes names.new.items ≡ map string_bytes names.old.items ++ Self.names_at path.now) }
        ensures count { OnOk result (length names.new.items ≡ length names.old.items + Self.format.count) }
        ensures kept { KeepsItems names.old.items names.new.items }
        ensures memory { IfErr result (λ e. e ≡ GrowError.Memory) };

    /// Returns the names of the type's slices in order, one each. Slice i of a fault, or of a store, has name i.
    ///
    /// # Errors
    /// `Memory`, and no other error.
    final fn slice_names(alloc: Global) -> Result<Vec<String>, GrowError>
        ensures names { IfOk result (λ names. map string_bytes names.items ≡ Self.names_at []) }
        ensures count { IfOk result (λ names. length names.items ≡ Self.format.count) }
        ensures memory { IfErr result (λ e. e ≡ GrowError.Memory) }
    {
        let mut names = Vec::new(alloc);
        Self::push_names(alloc, "", &mut names)?;
        Ok(names)
    }
}

/// Appends the names of the slices of the column that is the field `field` of the column at `path`.
///
/// # Errors
/// `Memory`, and no other error. The old names stay.
pub fn push_field<C: SliceNames>(
    alloc: Global,
    path: &str,
    field: &str,
    names: &mut Vec<String>,
) -> Result<(), GrowError>
    ensures names { OnOk result (map string_bytes names.new.items ≡ map string_bytes names.old.items ++ C.names_at (field_path path.now field.now)) }
    ensures count { OnOk result (length names.new.items ≡ length names.old.items + C.format.count) }
    ensures kept { KeepsItems names.old.items names.new.items }
    ensures memory { IfErr result (λ e. e ≡ GrowError.Memory) }
{
    C::push_names(alloc, joined(alloc, path, field)?.as_str(), names)
}

/// Appends the name of the only slice that is the field `field` of the column at `path`.
///
/// # Errors
/// `Memory`, and no other error. The old names stay.
#[tactic(auto, using(crate::proofs::Keeping::begins_longer))]
pub fn push_slice(
    alloc: Global,
    path: &str,
    field: &str,
    names: &mut Vec<String>,
) -> Result<(), GrowError>
    ensures names { OnOk result (map string_bytes names.new.items ≡ map string_bytes names.old.items ++ (field_path path.now field.now ∷ [])) }
    ensures count { OnOk result (length names.new.items ≡ length names.old.items + 1) }
    ensures kept { KeepsItems names.old.items names.new.items }
    ensures memory { IfErr result (λ e. e ≡ GrowError.Memory) }
{
    names.push(joined(alloc, path, field)?)?;
    Ok(())
}

/// Returns the path of a field of the column at `path`, which is empty for the whole; `path` itself if the field is
/// empty.
///
/// # Errors
/// `Memory`, and no other error.
#[tactic(auto, unfolding(crate::specs::Names::field_path))]
pub fn joined(alloc: Global, path: &str, field: &str) -> Result<String, GrowError>
    ensures path { IfOk result (λ joined. string_bytes joined ≡ field_path path.now field.now) }
    ensures memory { IfErr result (λ e. e ≡ GrowError.Memory) }
{
    let mut text = String::from_str(alloc, path)?;
    if !path.is_empty() && !field.is_empty() {
        text.push_str(".")?;
    }
    text.push_str(field)?;
    Ok(text)
}

/// The names of parts: of the fields of a struct, or of the variants of an enum.
pub trait PartNames {
    /// The name of part i, counted from 0; empty if there is no such part.
    ghost name_of: { ℕ → List ℕ };

    /// Returns the name of part `index`, counted from 0; empty if there is no such part.
    fn part_name(index: usize) -> &'static str
        ensures name { result.now ≡ Self.name_of index };
}

/// Returns the name at a place of a list; empty if there is none.
pub fn name_in(names: &[&'static str], index: usize) -> &'static str
    ensures name { result.now ≡ name_at (map (λ name. name.now) names.now) index }
{
    match names.get(index) {
        Some(name) => name,
        None => "",
    }
}

/// Columns of parts whose names are given.
pub trait NamedParts: Stored {
    /// The names of the slices, in order, of the parts at a path, whose own names are given.
    ghost parts_at: { (ℕ → List ℕ) → List ℕ → List (List ℕ) };

    /// Does what `push_names` does, with the names that `N` gives the parts.
    ///
    /// # Errors
    /// As `SliceNames::push_names`.
    fn push_parts_names<N: PartNames>(
        alloc: Global,
        path: &str,
        names: &mut Vec<String>,
    ) -> Result<(), GrowError>
        ensures names { OnOk result (map string_bytes names.new.items ≡ map string_bytes names.old.items ++ Self.parts_at N.name_of path.now) }
        ensures count { OnOk result (length names.new.items ≡ length names.old.items + Self.format.count) }
        ensures kept { KeepsItems names.old.items names.new.items }
        ensures memory { IfErr result (λ e. e ≡ GrowError.Memory) };
}

/// Parts with numbers, counted from 0, as names: those of a tuple.
pub struct Numbered;

impl PartNames for Numbered {
    ghost name_of = { name_at (codes "0" ∷ codes "1" ∷ codes "2" ∷ codes "3" ∷ codes "4" ∷ codes "5" ∷ codes "6" ∷ codes "7" ∷ codes "8" ∷ codes "9" ∷ []) };

    fn part_name(index: usize) -> &'static str {
        match index {
            0 => "0",
            1 => "1",
            2 => "2",
            3 => "3",
            4 => "4",
            5 => "5",
            6 => "6",
            7 => "7",
            8 => "8",
            9 => "9",
            _ => "",
        }
    }
}

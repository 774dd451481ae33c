//! Copies of ranges of variants, for your own containers.
ghost use Rattle.std.specs.Prelude.{◌≡◌, ℕ, ◌+◌, ◌-◌, ◌^◌, ◌<◌, ◌≤◌, ◌++◌, List, length, take, drop, OnOk, OnErr, IfErr, IsOk, IsTrue, Some, slice_index};
ghost use Rattle.columnar_core.specs.Row.{Row};
ghost use Rattle.columnar_core.specs.Format.{IsSound};
ghost use Rattle.columnar_core.specs.Change.{Stayed, IsTrueOf};
ghost use Rattle.columnar_sums.specs.Discriminants.{discriminant_format, forms_content, owned_forms, variants_of, sole, times};
ghost use Rattle.columnar_variants.specs.Variants.{are_below};

use crate::run::push_variants;
use columnar_core::container::Truncate;
use columnar_core::fault::GrowError;
use columnar_core::traits::Len;
use columnar_core::words::Words;
use columnar_sums::discriminant::{Discriminant, Variants};

/// Appends the variants of a range of rows, or none. `lengths` has the number of rows of each variant in the column,
/// `firsts` the number before the range in the view. Allocates nothing if all rows of the view and of the column have
/// the same variant, however many rows the view claims.
///
/// # Requires
/// Both are well-formed, the range is within the view, each variant of the view has an entry in `lengths` and `firsts`,
/// and these have the numbers above.
pub fn extend_variants<CVar: Variants, COff: Words>(
    indexes: &mut Discriminant<Vec<u8>, Vec<u64>>,
    view: &Discriminant<CVar, COff>,
    start: usize,
    end: usize,
    lengths: &[usize],
    firsts: &[usize],
) -> Result<(), GrowError>
    requires sound { IsSound discriminant_format (owned_forms indexes.old.variant.items indexes.old.offset.items) }
    requires view_sound { IsSound discriminant_format (forms_content CVar.bytes COff.bytes view.now) }
    requires ordered { start ≤ «end» }
    requires in_range { «end» ≤ length (variants_of (forms_content CVar.bytes COff.bytes view.now)) }
    requires below { IsTrue (are_below (length lengths.now) (variants_of (forms_content CVar.bytes COff.bytes view.now))) }
    requires level { length firsts.now ≡ length lengths.now }
    requires lengths { (v : ℕ) → v < length lengths.now → slice_index lengths.now v ≡ times v (variants_of (owned_forms indexes.old.variant.items indexes.old.offset.items)) }
    requires firsts { (v : ℕ) → v < length lengths.now → slice_index firsts.now v ≡ times v (take start (variants_of (forms_content CVar.bytes COff.bytes view.now))) }
    ensures sound { OnOk result (IsSound discriminant_format (owned_forms indexes.new.variant.items indexes.new.offset.items)) }
    ensures variants { OnOk result (variants_of (owned_forms indexes.new.variant.items indexes.new.offset.items) ≡ variants_of (owned_forms indexes.old.variant.items indexes.old.offset.items) ++ take («end» - start) (drop start (variants_of (forms_content CVar.bytes COff.bytes view.now)))) }
    ensures stayed { OnErr result (Stayed discriminant_format (owned_forms indexes.old.variant.items indexes.old.offset.items) (owned_forms indexes.new.variant.items indexes.new.offset.items)) }
    ensures variants_stay { OnErr result (variants_of (owned_forms indexes.new.variant.items indexes.new.offset.items) ≡ variants_of (owned_forms indexes.old.variant.items indexes.old.offset.items)) }
    ensures cause { IfErr result (λ e. (rs : List Row) → length rs ≡ «end» - start → IsTrueOf e discriminant_format (owned_forms indexes.old.variant.items indexes.old.offset.items) rs) }
    ensures no_memory { (v : ℕ) → sole (variants_of (owned_forms indexes.old.variant.items indexes.old.offset.items)) ≡ Some v → sole (variants_of (forms_content CVar.bytes COff.bytes view.now)) ≡ Some v → length (variants_of (owned_forms indexes.old.variant.items indexes.old.offset.items)) + («end» - start) < 2 ^ 64 → IsOk result }
{
    if let Some(kind) = view.homogeneous() {
        let earlier = lengths[kind as usize] as u64;
        return push_variants(indexes, kind, earlier, end - start);
    }
    let before = indexes.len();
    for index in start..end {
        let (variant, earlier) = view.get(index);
        let column = variant as usize;
        let _rows = indexes.len();
        let offset = lengths[column] as u64 + (earlier - firsts[column] as u64);
        match indexes.push(variant, offset) {
            Ok(()) => {}
            Err(error) => {
                indexes.truncate(before);
                return Err(error);
            }
        }
    }
    Ok(())
}

//! Pushes of several rows of one variant at once, for your own containers.
ghost use Rattle.std.specs.Prelude.{◌≡◌, ℕ, ◌+◌, ◌^◌, ◌<◌, ◌≤◌, ◌++◌, List, length, replicate, false, Some, IsOk, OnOk, OnErr, IfErr};
ghost use Rattle.columnar_core.specs.Row.{Row};
ghost use Rattle.columnar_core.specs.Format.{IsSound};
ghost use Rattle.columnar_core.specs.Change.{Stayed, IsTrueOf};
ghost use Rattle.columnar_sums.specs.Discriminants.{discriminant_format, owned_forms, variants_of, is_mixed, sole, times};

use columnar_core::container::{Reserve, Truncate};
use columnar_core::fault::GrowError;
use columnar_core::traits::Len;
use columnar_sums::discriminant::Discriminant;

// Sets the number of rows, all of which have one variant.
fn set_rows(indexes: &mut Discriminant<Vec<u8>, Vec<u64>>, rows: u64)
    requires sound { IsSound discriminant_format (owned_forms indexes.old.variant.items indexes.old.offset.items) }
    requires some { 0 < length (variants_of (owned_forms indexes.old.variant.items indexes.old.offset.items)) }
    requires alone { is_mixed (variants_of (owned_forms indexes.old.variant.items indexes.old.offset.items)) ≡ false }
    requires left { 1 ≤ rows }
    ensures sound { IsSound discriminant_format (owned_forms indexes.new.variant.items indexes.new.offset.items) }
    ensures variants { (v : ℕ) → times v (variants_of (owned_forms indexes.old.variant.items indexes.old.offset.items)) ≡ length (variants_of (owned_forms indexes.old.variant.items indexes.old.offset.items)) → variants_of (owned_forms indexes.new.variant.items indexes.new.offset.items) ≡ replicate rows v }
{
    indexes.offset[1] = rows;
}

// Appends `count` rows of a variant one by one, or none of them. Allocates the memory for all of them first.
fn push_each(
    indexes: &mut Discriminant<Vec<u8>, Vec<u64>>,
    variant: u8,
    earlier: u64,
    count: usize,
) -> Result<(), GrowError>
    requires sound { IsSound discriminant_format (owned_forms indexes.old.variant.items indexes.old.offset.items) }
    requires numbered { earlier ≡ times variant (variants_of (owned_forms indexes.old.variant.items indexes.old.offset.items)) }
    requires room { earlier + count < 2 ^ 64 }
    ensures sound { OnOk result (IsSound discriminant_format (owned_forms indexes.new.variant.items indexes.new.offset.items)) }
    ensures variants { OnOk result (variants_of (owned_forms indexes.new.variant.items indexes.new.offset.items) ≡ variants_of (owned_forms indexes.old.variant.items indexes.old.offset.items) ++ replicate count variant) }
    ensures stayed { OnErr result (Stayed discriminant_format (owned_forms indexes.old.variant.items indexes.old.offset.items) (owned_forms indexes.new.variant.items indexes.new.offset.items)) }
    ensures variants_stay { OnErr result (variants_of (owned_forms indexes.new.variant.items indexes.new.offset.items) ≡ variants_of (owned_forms indexes.old.variant.items indexes.old.offset.items)) }
    ensures cause { IfErr result (λ e. (rs : List Row) → length rs ≡ count → IsTrueOf e discriminant_format (owned_forms indexes.old.variant.items indexes.old.offset.items) rs) }
{
    let before = indexes.len();
    indexes.reserve_room((count, count))?;
    for at in 0..count {
        match indexes.push(variant, earlier + at as u64) {
            Ok(()) => {}
            Err(error) => {
                indexes.truncate(before);
                return Err(error);
            }
        }
    }
    Ok(())
}

/// Appends `count` rows of a variant that has `earlier` rows, or none of them. Allocates nothing if all rows have that
/// variant.
///
/// # Requires
/// The variants are well-formed, and `earlier` rows have `variant`.
pub fn push_variants(
    indexes: &mut Discriminant<Vec<u8>, Vec<u64>>,
    variant: u8,
    earlier: u64,
    count: usize,
) -> Result<(), GrowError>
    requires sound { IsSound discriminant_format (owned_forms indexes.old.variant.items indexes.old.offset.items) }
    requires numbered { earlier ≡ times variant (variants_of (owned_forms indexes.old.variant.items indexes.old.offset.items)) }
    ensures sound { OnOk result (IsSound discriminant_format (owned_forms indexes.new.variant.items indexes.new.offset.items)) }
    ensures variants { OnOk result (variants_of (owned_forms indexes.new.variant.items indexes.new.offset.items) ≡ variants_of (owned_forms indexes.old.variant.items indexes.old.offset.items) ++ replicate count variant) }
    ensures stayed { OnErr result (Stayed discriminant_format (owned_forms indexes.old.variant.items indexes.old.offset.items) (owned_forms indexes.new.variant.items indexes.new.offset.items)) }
    ensures variants_stay { OnErr result (variants_of (owned_forms indexes.new.variant.items indexes.new.offset.items) ≡ variants_of (owned_forms indexes.old.variant.items indexes.old.offset.items)) }
    ensures cause { IfErr result (λ e. (rs : List Row) → length rs ≡ count → IsTrueOf e discriminant_format (owned_forms indexes.old.variant.items indexes.old.offset.items) rs) }
    ensures no_memory { sole (variants_of (owned_forms indexes.old.variant.items indexes.old.offset.items)) ≡ Some variant → length (variants_of (owned_forms indexes.old.variant.items indexes.old.offset.items)) + count < 2 ^ 64 → IsOk result }
{
    let before = indexes.len();
    if count > usize::MAX - before {
        return Err(GrowError::Length);
    }
    if count == 0 {
        return Ok(());
    }
    if earlier != before as u64 {
        return push_each(indexes, variant, earlier, count);
    }
    indexes.push(variant, earlier)?;
    set_rows(indexes, (before + count) as u64);
    Ok(())
}

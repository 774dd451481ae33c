//! Counts of rows by variant, for the validation of your own containers.
ghost use Rattle.std.specs.Prelude.{◌≡◌, ◌+◌, ◌^◌, ◌<◌, ◌≤◌, IfSome, is_some, length, slice_index, slice_set};
ghost use Rattle.columnar_base.specs.Format.{IsSound, first, moved};
ghost use Rattle.columnar_base.specs.Faults.{verdict};
ghost use Rattle.columnar_sums.specs.Discriminants.{discriminant_format, forms_content, variants_of, times};
ghost use Rattle.columnar_variants.specs.Variants.{are_below};
ghost use Rattle.columnar_variants.specs.VariantBytes.{own_broken};
ghost use Rattle.columnar_variants.specs.VariantCounts.{EachCounted, are_told};

use columnar_core::fault::StoreFault;
use columnar_core::tally::Tally;
use columnar_core::traits::Len;
use columnar_core::words::Words;
use columnar_sums::discriminant::{Discriminant, Variants};

// Reads variant `index`.
fn variant_at(variants: &[u8], index: usize) -> u8
    requires { index < length variants.now }
    ensures { result ≡ slice_index variants.now index }
{
    variants[index]
}

// Reads how many rows of a variant were counted so far.
fn count_of(counts: &[u64; 256], variant: usize) -> u64
    requires { variant < 256 }
    ensures { result ≡ slice_index counts.now variant }
{
    counts[variant]
}

// Sets how many rows of a variant were counted.
fn set_count(counts: &mut [u64; 256], variant: u8, count: u64)
    ensures { counts.new ≡ slice_set counts.old variant count }
{
    counts[variant as usize] = count;
}

// Counts the rows of each variant; `None` if a variant is not less than `size`. Takes at most one step for each row.
fn count_each<L>(variants: &[u8], size: usize, tally: &mut Tally<L>) -> Option<[u64; 256]>
    ensures below { is_some result ≡ are_below size variants.now }
    ensures counted { IfSome result (EachCounted variants.now) }
    ensures turns { tally.new.turns ≤ tally.old.turns + length variants.now }
{
    let mut counts = [0u64; 256];
    let rows = variants.len();
    for at in 0..rows {
        tally.tick();
        let variant = variant_at(variants, at);
        if variant as usize >= size {
            return None;
        }
        let before = count_of(&counts, variant as usize);
        set_count(&mut counts, variant, before + 1);
    }
    Some(counts)
}

/// Counts the rows of each variant; `None` if a variant is not less than `size`. Reads no row if all rows have one
/// variant; otherwise takes one step for each row.
///
/// # Requires
/// The variants are well-formed.
pub fn count_variants<CVar: Variants, COff: Words, L>(
    indexes: &Discriminant<CVar, COff>,
    size: usize,
    tally: &mut Tally<L>,
) -> Option<[u64; 256]>
    requires { IsSound discriminant_format (forms_content CVar.bytes COff.bytes indexes.now) }
    ensures below { is_some result ≡ are_below size (variants_of (forms_content CVar.bytes COff.bytes indexes.now)) }
    ensures counted { IfSome result (EachCounted (variants_of (forms_content CVar.bytes COff.bytes indexes.now))) }
    ensures turns { tally.new.turns ≤ tally.old.turns + length (CVar.bytes indexes.now.variant) }
{
    if indexes.is_heterogeneous() {
        return count_each(indexes.variant.variants(), size, tally);
    }
    let mut counts = [0u64; 256];
    if let Some(variant) = indexes.homogeneous() {
        if variant as usize >= size {
            return None;
        }
        set_count(&mut counts, variant, indexes.len() as u64);
    }
    Some(counts)
}

// Tests whether each column has as many rows as were counted for its variant.
fn are_level(lengths: &[usize], counts: &[u64; 256]) -> bool
    requires { length lengths.now ≤ 256 }
    ensures { result ≡ are_told lengths.now (slice_index counts.now) }
{
    for column in 0..lengths.len() {
        if lengths[column] as u64 != count_of(counts, column) {
            return false;
        }
    }
    true
}

/// Tests whether each variant is less than the number of columns, and whether each column has as many rows as its
/// variant occurs. `lengths` has the number of rows of each column, in the order of variants. Reads no row if all rows
/// have one variant; otherwise takes one step for each row. The step count does not include one read for each column of
/// the type.
///
/// # Errors
/// `Variant` or `Parts`, at slice `from`.
///
/// # Requires
/// The variants are well-formed, and there are at most 256 columns.
pub fn judge_counts<CVar: Variants, COff: Words, L>(
    indexes: &Discriminant<CVar, COff>,
    lengths: &[usize],
    from: usize,
    tally: &mut Tally<L>,
) -> Result<(), StoreFault>
    requires sound { IsSound discriminant_format (forms_content CVar.bytes COff.bytes indexes.now) }
    requires few { length lengths.now ≤ 256 }
    ensures exact { verdict result ≡ first (moved from (own_broken (are_below (length lengths.now) (variants_of (forms_content CVar.bytes COff.bytes indexes.now))) (are_told lengths.now (λ v. times v (variants_of (forms_content CVar.bytes COff.bytes indexes.now)))))) }
    ensures turns { tally.new.turns ≤ tally.old.turns + length (CVar.bytes indexes.now.variant) }
{
    let counts = match count_variants(indexes, lengths.len(), tally) {
        None => return Err(StoreFault::Variant(from)),
        Some(counts) => counts,
    };
    if are_level(lengths, &counts) {
        Ok(())
    } else {
        Err(StoreFault::Parts(from))
    }
}

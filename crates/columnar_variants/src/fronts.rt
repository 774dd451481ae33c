//! Counts of rows by variant, of all rows or of those before a position, for any number of variants.
ghost use Rattle.std.specs.Prelude.{◌≡◌, ℕ, ◌+◌, ◌<◌, ◌≤◌, length, take, slice_index, slice_set, is_some, IfSome, true, false};
ghost use Rattle.columnar_core.specs.Format.{IsSound, both};
ghost use Rattle.columnar_sums.specs.Discriminants.{discriminant_format, forms_content, variants_of, is_mixed, times};
ghost use Rattle.columnar_variants.specs.Variants.{are_below, variants_format};

use crate::bank::{ColumnBank, LenBank};
use crate::count::count_variants;
use columnar_core::tally::Tally;
use columnar_core::traits::Len;
use columnar_core::words::Words;
use columnar_sums::discriminant::{Discriminant, Variants as VariantBytes};

// Does nothing at run time; the contract says that each variant is a byte.
fn are_bytes(_variants: &[u8])
    ensures { are_below 256 _variants.now ≡ true }
{}

// Reads no row; the contract says that each variant is a byte.
fn hold_bytes<CVar: VariantBytes, COff: Words>(indexes: &Discriminant<CVar, COff>)
    requires { IsSound discriminant_format (forms_content CVar.bytes COff.bytes indexes.now) }
    ensures { are_below 256 (variants_of (forms_content CVar.bytes COff.bytes indexes.now)) ≡ true }
{
    if indexes.is_heterogeneous() {
        are_bytes(indexes.variant.variants());
        return;
    }
    match indexes.homogeneous() {
        Some(_kind) => {}
        None => {}
    }
}

/// Counts the rows of each variant; `None` if a variant is not less than the number of columns. Reads no row if all
/// rows have one variant; otherwise takes one step for each row.
///
/// # Requires
/// The variants are well-formed.
pub fn count_rows<B: ColumnBank, CVar: VariantBytes, COff: Words, L>(
    indexes: &Discriminant<CVar, COff>,
    tally: &mut Tally<L>,
) -> Option<[u64; 256]>
    requires { IsSound discriminant_format (forms_content CVar.bytes COff.bytes indexes.now) }
    ensures below { is_some result ≡ are_below B.bank.size (variants_of (forms_content CVar.bytes COff.bytes indexes.now)) }
    ensures counted { IfSome result (λ counts. (v : ℕ) → slice_index counts v ≡ times v (variants_of (forms_content CVar.bytes COff.bytes indexes.now))) }
    ensures turns { tally.new.turns ≤ tally.old.turns + length (CVar.bytes indexes.now.variant) }
{
    hold_bytes(indexes);
    match count_variants(indexes, B::columns(256), tally) {
        Some(counts) => Some(counts),
        None => None,
    }
}

// Reads the number of a variant.
fn front_of(fronts: &[usize; 256], variant: usize) -> usize
    requires { variant < 256 }
    ensures { result ≡ slice_index fronts.now variant }
{
    fronts[variant]
}

// Sets the number of a variant.
fn set_front(fronts: &mut [usize; 256], variant: usize, front: usize)
    requires { variant < 256 }
    ensures { fronts.new ≡ slice_set fronts.old variant front }
{
    fronts[variant] = front;
}

// Counts the rows of each variant, by the lengths of the columns.
fn all_rows<B: LenBank, CVar: VariantBytes, COff: Words>(
    columns: &B,
    indexes: &Discriminant<CVar, COff>,
) -> [usize; 256]
    requires { IsSound (variants_format B.bank) (both (B.contents columns.now) (forms_content CVar.bytes COff.bytes indexes.now)) }
    ensures size { length result ≡ 256 }
    ensures all { (v : ℕ) → slice_index result v ≡ times v (variants_of (forms_content CVar.bytes COff.bytes indexes.now)) }
{
    hold_bytes(indexes);
    let mut fronts = [0usize; 256];
    for variant in 0..B::columns(256) {
        let all = columns.values_of(variant);
        set_front(&mut fronts, variant, all);
    }
    fronts
}

// Corrects the number of a variant by a row that has `earlier` rows of its variant before it, if no row before it did.
// Returns how many rows are left to be taken off the numbers.
fn correct(fronts: &mut [usize; 256], left: usize, variant: usize, earlier: usize) -> usize
    requires known { variant < 256 }
    requires enough { slice_index fronts.old variant ≤ left + earlier }
    ensures first { earlier < slice_index fronts.old variant → (fronts.new ≡ slice_set fronts.old variant earlier) × (result + slice_index fronts.old variant ≡ left + earlier) }
    ensures later { slice_index fronts.old variant ≤ earlier → (fronts.new ≡ fronts.old) × (result ≡ left) }
{
    let front = front_of(fronts, variant);
    if front <= earlier {
        return left;
    }
    set_front(fronts, variant, earlier);
    left - (front - earlier)
}

/// Counts the rows of each variant among the first `n`, and takes one step for each row that it reads.
///
/// # Requires
/// As `fronts`.
pub fn fronts_tallied<B: LenBank, CVar: VariantBytes, COff: Words, L>(
    columns: &B,
    indexes: &Discriminant<CVar, COff>,
    n: usize,
    tally: &mut Tally<L>,
) -> [usize; 256]
    requires sound { IsSound (variants_format B.bank) (both (B.contents columns.now) (forms_content CVar.bytes COff.bytes indexes.now)) }
    requires in_range { n ≤ length (variants_of (forms_content CVar.bytes COff.bytes indexes.now)) }
    ensures size { length result ≡ 256 }
    ensures below { are_below 256 (variants_of (forms_content CVar.bytes COff.bytes indexes.now)) ≡ true }
    ensures fronts { (v : ℕ) → slice_index result v ≡ times v (take n (variants_of (forms_content CVar.bytes COff.bytes indexes.now))) }
    ensures turns { tally.new.turns + n ≤ tally.old.turns + length (variants_of (forms_content CVar.bytes COff.bytes indexes.now)) }
    ensures one_variant { is_mixed (variants_of (forms_content CVar.bytes COff.bytes indexes.now)) ≡ false → tally.new.turns ≡ tally.old.turns }
{
    hold_bytes(indexes);
    let mut fronts = all_rows(columns, indexes);
    if let Some(kind) = indexes.homogeneous() {
        set_front(&mut fronts, kind as usize, n);
        return fronts;
    }
    let rows = indexes.len();
    let mut left = rows - n;
    for index in n..rows {
        if left == 0 {
            return fronts;
        }
        tally.tick();
        let (kind, earlier) = indexes.get(index);
        left = correct(&mut fronts, left, kind as usize, earlier as usize);
    }
    fronts
}

/// Counts the rows of each variant among the first `n`. Reads no row if all rows have one variant. Otherwise it reads
/// rows from row `n` on, each once, until it has found the next row of each variant that has one.
///
/// # Requires
/// The column is well-formed, and `n` is at most its length.
pub fn fronts<B: LenBank, CVar: VariantBytes, COff: Words>(
    columns: &B,
    indexes: &Discriminant<CVar, COff>,
    n: usize,
) -> [usize; 256]
    requires sound { IsSound (variants_format B.bank) (both (B.contents columns.now) (forms_content CVar.bytes COff.bytes indexes.now)) }
    requires in_range { n ≤ length (variants_of (forms_content CVar.bytes COff.bytes indexes.now)) }
    ensures size { length result ≡ 256 }
    ensures below { are_below 256 (variants_of (forms_content CVar.bytes COff.bytes indexes.now)) ≡ true }
    ensures fronts { (v : ℕ) → slice_index result v ≡ times v (take n (variants_of (forms_content CVar.bytes COff.bytes indexes.now))) }
{
    fronts_tallied(columns, indexes, n, &mut Tally::new())
}

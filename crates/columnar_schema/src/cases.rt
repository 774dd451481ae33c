//! The variants of an enum: a column for the values of each, and the variant of each row.
ghost use Rattle.std.specs.Prelude.{◌≡◌, ℕ, ◌+◌, ◌*◌, ◌^◌, ◌≤◌, length, drop, slice_index, is_some, IfSome, true};
ghost use Rattle.columnar_base.specs.Format.{Fits, IsSound, bytes_held, first, moved};
ghost use Rattle.columnar_base.specs.Faults.{verdict};
ghost use Rattle.columnar_core.specs.Store.{slices_in};
ghost use Rattle.columnar_core.specs.WordViews.{view_bytes};
ghost use Rattle.columnar_sums.specs.Discriminants.{discriminant_format, forms_content, times, variants_of};
ghost use Rattle.columnar_variants.specs.Duals.{slice_bytes};
ghost use Rattle.columnar_variants.specs.Variants.{are_below, variants_format};
ghost use Rattle.columnar_schema.specs.Formats.{bank_of, format_of};

use crate::judge::{rows_of, slice_count_of};
use columnar_core::bytes::{FromBytes, Stored};
use columnar_core::fault::StoreFault;
use columnar_core::store::DecodedStore;
use columnar_core::tally::Tally;
use columnar_core::view::View;
use columnar_sums::discriminant::{Discriminant, Variants};
use columnar_syntax::schema::Schema;
use columnar_variants::count::count_variants;

/// The variants of rows.
pub type Forms = Discriminant<Vec<u8>, Vec<u64>>;

type FormsView<'s> = Discriminant<&'s [u8], View<'s, u64>>;

/// Returns the number of variants, or `most` if there are more.
fn cases_of(cases: &Schema, most: usize) -> usize
    ensures few { (bank_of cases.now).size ≤ most → result ≡ (bank_of cases.now).size }
    ensures many { most ≤ (bank_of cases.now).size → result ≡ most }
{
    if most == 0 {
        return 0;
    }
    match cases {
        Schema::Beside(_, later) => cases_of(later, most - 1) + 1,
        _ => 1,
    }
}

// Does nothing at run time; the contract says that each variant is a byte.
fn are_bytes(_variants: &[u8])
    ensures { are_below 256 _variants.now ≡ true }
{}

// Reads no row; the contract says that each variant is a byte.
fn hold_bytes(indexes: &FormsView<'_>)
    requires { IsSound discriminant_format (forms_content slice_bytes view_bytes indexes.now) }
    ensures { are_below 256 (variants_of (forms_content slice_bytes view_bytes indexes.now)) ≡ true }
{
    if indexes.is_heterogeneous() {
        are_bytes(indexes.variant.variants());
        return;
    }
    match indexes.homogeneous() {
        Some(_kind) => {}
        None => {}
    }
}

// Returns the count of the first variant; 0 if there is none.
fn first_count(counts: &[u64]) -> u64
    ensures { result ≡ slice_index counts.now 0 }
{
    if counts.len() == 0 { 0 } else { counts[0] }
}

// Returns the counts of the other variants.
fn other_counts(counts: &[u64]) -> &[u64]
    ensures { (v : ℕ) → slice_index result.now v ≡ slice_index counts.now (v + 1) }
{
    if counts.len() == 0 {
        counts
    } else {
        &counts[1..]
    }
}

// Tests whether each variant has as many values as `counts` says, in slices that were accepted.
fn have_values(cases: &Schema, store: &DecodedStore<'_>, offset: usize, counts: &[u64]) -> bool
    requires counted { (format_of cases.now).count ≤ 2 ^ 60 }
    requires fits { Fits (format_of cases.now) offset (slices_in store.now) }
    ensures { result ≡ (bank_of cases.now).told ((bank_of cases.now).sides.build (drop offset (slices_in store.now))) (slice_index counts.now) }
{
    match cases {
        Schema::Beside(case, later) => {
            rows_of(case, store, offset) as u64 == first_count(counts)
                && have_values(
                    later,
                    store,
                    offset + slice_count_of(case),
                    other_counts(counts),
                )
        }
        _ => rows_of(cases, store, offset) as u64 == first_count(counts),
    }
}

// Counts the rows of each variant; `None` if a variant is not less than the number of variants.
fn count_cases<L>(
    cases: &Schema,
    indexes: &FormsView<'_>,
    tally: &mut Tally<L>,
) -> Option<[u64; 256]>
    requires { IsSound discriminant_format (forms_content slice_bytes view_bytes indexes.now) }
    ensures below { is_some result ≡ are_below (bank_of cases.now).size (variants_of (forms_content slice_bytes view_bytes indexes.now)) }
    ensures counted { IfSome result (λ counts. (v : ℕ) → slice_index counts v ≡ times v (variants_of (forms_content slice_bytes view_bytes indexes.now))) }
    ensures turns { tally.new.turns ≤ tally.old.turns + length indexes.now.variant.now }
{
    hold_bytes(indexes);
    match count_variants(indexes, cases_of(cases, 256), tally) {
        Some(counts) => Some(counts),
        None => None,
    }
}

/// Returns the first rule of the variants of rows that the slices from `after` on break; then that each variant has a
/// column; then that each column has as many values as there are rows of its variant. The last two are reported as
/// `Variant` and `Parts`, at slice `offset`.
///
/// # Requires
/// The slices from `offset` on were accepted as the columns of the variants, and end before slice `after`; the store
/// has two more.
pub fn close_sum<L>(
    cases: &Schema,
    store: &DecodedStore<'_>,
    offset: usize,
    after: usize,
    tally: &mut Tally<L>,
) -> Result<(), StoreFault>
    requires counted { (format_of cases.now).count ≤ 2 ^ 60 }
    requires after { after ≡ offset + (format_of cases.now).count }
    requires fits { Fits (format_of cases.now) offset (slices_in store.now) }
    requires room { after + 2 ≤ length (slices_in store.now) }
    ensures exact { verdict result ≡ first (moved offset ((variants_format (bank_of cases.now)).broken ((variants_format (bank_of cases.now)).build (drop offset (slices_in store.now))))) }
    ensures turns { tally.new.turns ≤ tally.old.turns + 5 * bytes_held (discriminant_format.build (drop after (slices_in store.now))) }
{
    Forms::judge_tallied(store, after, tally)?;
    let mut at = after;
    let indexes = FormsView::from_store(store, &mut at);
    match count_cases(cases, &indexes, tally) {
        None => Err(StoreFault::Variant(offset)),
        Some(counts) => {
            if have_values(cases, store, offset, &counts) {
                Ok(())
            } else {
                Err(StoreFault::Parts(offset))
            }
        }
    }
}

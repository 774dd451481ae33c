//! Columns that store the variant of each row, and how many earlier rows have the same variant.
ghost use Rattle.std.specs.Prelude.{◌≡◌, ℕ, ◌+◌, ◌<◌, List, [], ◌∷◌, length, take, slice_get, Some, IfSome, IsTrue, IsFalse};
ghost use Rattle.columnar_core.specs.Format.{both, slice, IsSound};
ghost use Rattle.columnar_core.specs.WordViews.{view_bytes, words_in};
ghost use Rattle.columnar_sums.specs.Discriminants.{discriminant_format, forms_content, variants_of, is_mixed, sole, times, earlier};

mod bytes;
mod grow;

use columnar_core::traits::{Column, Index, Len};
use columnar_core::view::View;
use columnar_core::words::{Words, byte_count, word_at};

/// Variants, one byte each, that can be read as a slice: a `Vec` of them, or a slice.
pub trait Variants {
    // the variants
    ghost bytes: { Self → List ℕ };

    /// Returns the variants. Allocates nothing.
    fn variants(&self) -> &[u8]
        ensures { result.now ≡ bytes self.now };
}

impl Variants for Vec<u8> {
    ghost bytes = { λ v. v.items };

    fn variants(&self) -> &[u8] {
        self.as_slice()
    }
}

impl<'a> Variants for &'a [u8] {
    ghost bytes = { λ s. s.now };

    fn variants(&self) -> &[u8] {
        *self
    }
}

/// A column of rows `(variant, number of earlier rows of that variant)`. It has one of three forms: both parts empty if
/// there are no rows; no variants, and two offsets (the variant of all rows plus one, and the number of rows); or a
/// variant and an offset for each row, if at least two variants differ.
#[derive(Clone, Copy, PartialEq, Drop)]
pub struct Discriminant<CVar = Vec<u8>, COff = Vec<u64>> {
    /// The variant of each row if at least two differ; otherwise empty.
    pub variant: CVar,
    /// For each row the number of earlier rows of its variant; or the two words that describe all rows.
    pub offset: COff,
}

impl<CVar: Variants, COff: Words> Column for Discriminant<CVar, COff> {
    ghost format = { discriminant_format };

    ghost content = { forms_content CVar.bytes COff.bytes };

    ghost room = { λ c rs. ⊥ };
}

// Counts the rows.
fn count_rows(variants: &[u8], offsets: View<'_, u64>) -> usize
    requires { IsSound discriminant_format (both (slice variants.now) (slice (view_bytes offsets))) }
    ensures { result ≡ length (variants_of (both (slice variants.now) (slice (view_bytes offsets.entry)))) }
{
    let rows = variants.len();
    if rows == 0 && byte_count(offsets) == 16 {
        word_at(offsets, 1) as usize
    } else {
        rows
    }
}

impl<CVar: Variants, COff: Words> Len for Discriminant<CVar, COff> {
    fn len(&self) -> usize {
        count_rows(self.variant.variants(), self.offset.words())
    }
}

impl<CVar: Variants, COff: Words> Index for Discriminant<CVar, COff> {
    type Ref = (u8, u64);

    fn get(&self, index: usize) -> (u8, u64) {
        Discriminant::get(self, index)
    }
}

impl<CVar: Variants, COff: Words> Discriminant<CVar, COff> {
    /// Returns the variant of row `index`, and how many earlier rows have it.
    ///
    /// # Requires
    /// The column is well-formed, and `index` is less than its length.
    pub fn get(&self, index: usize) -> (u8, u64)
        requires sound { IsSound discriminant_format (forms_content CVar.bytes COff.bytes self.now) }
        requires in_range { index < length (discriminant_format.rows (forms_content CVar.bytes COff.bytes self.now)) }
        ensures variant { slice_get (variants_of (forms_content CVar.bytes COff.bytes self.now)) index ≡ Some result.0 }
        ensures earlier { result.1 ≡ times result.0 (take index (variants_of (forms_content CVar.bytes COff.bytes self.now))) }
    {
        let variants = self.variant.variants();
        if variants.len() == 0 {
            ((self.offset.word(0) - 1) as u8, index as u64)
        } else {
            (variants[index], self.offset.word(index))
        }
    }

    /// Tests whether at least two variants differ. If so, each row has a variant and an offset in the slices; otherwise
    /// there are no variants.
    ///
    /// # Requires
    /// The column is well-formed.
    pub fn is_heterogeneous(&self) -> bool
        requires { IsSound discriminant_format (forms_content CVar.bytes COff.bytes self.now) }
        ensures mixed { result ≡ is_mixed (variants_of (forms_content CVar.bytes COff.bytes self.now)) }
        ensures written { IsTrue result → (CVar.bytes self.now.variant ≡ variants_of (forms_content CVar.bytes COff.bytes self.now)) × (words_in (COff.bytes self.now.offset) ≡ earlier [] (variants_of (forms_content CVar.bytes COff.bytes self.now))) }
        ensures bare { IsFalse result → (CVar.bytes self.now.variant ≡ []) }
    {
        self.variant.variants().len() > 0
    }

    /// Returns the variant of all rows; `None` if there are no rows or two variants differ. If there is one, the column
    /// stores only that variant plus one, and the number of rows.
    ///
    /// # Requires
    /// The column is well-formed.
    pub fn homogeneous(&self) -> Option<u8>
        requires { IsSound discriminant_format (forms_content CVar.bytes COff.bytes self.now) }
        ensures sole { result ≡ sole (variants_of (forms_content CVar.bytes COff.bytes self.now)) }
        ensures next { IfSome result (λ v. times v (variants_of (forms_content CVar.bytes COff.bytes self.now)) ≡ length (variants_of (forms_content CVar.bytes COff.bytes self.now))) }
        ensures bare { IfSome result (λ v. CVar.bytes self.now.variant ≡ []) }
        ensures common { IfSome result (λ v. words_in (COff.bytes self.now.offset) ≡ (v + 1) ∷ length (variants_of (forms_content CVar.bytes COff.bytes self.now)) ∷ []) }
    {
        if self.variant.variants().len() == 0 && self.offset.size() == 16 {
            Some((self.offset.word(0) - 1) as u8)
        } else {
            None
        }
    }
}

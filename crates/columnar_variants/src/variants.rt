//! Columns of a sum type of any number of variants: a column for the values of each variant, and the variant of each
//! row.
ghost use Rattle.columnar_core.specs.Format.{both};
ghost use Rattle.columnar_sums.specs.Discriminants.{forms_content};
ghost use Rattle.columnar_variants.specs.Variants.{variants_format};

pub mod bytes;
pub mod earlier;
pub mod grow;
pub mod owned;
pub mod push;

use crate::bank::{ColumnBank, IndexBank};
use columnar_core::traits::{Column, Index, Len};
use columnar_core::words::Words;
use columnar_sums::discriminant::{Discriminant, Variants as VariantBytes};

/// A column of a sum type. The columns of the values are nested tuples in the order of their variants: a row of
/// `Variants<(A, (B, (C,)))>` reads as `Nth<A::Ref, Nth<B::Ref, Last<C::Ref>>>`.
#[derive(Clone, Copy, Drop)]
pub struct Variants<B, CVar = Vec<u8>, COff = Vec<u64>> {
    /// The values, one column for each variant.
    pub columns: B,
    /// The variant of each row.
    pub indexes: Discriminant<CVar, COff>,
}

/// The slices are those of the columns, then those of the variants. A row is the next value of its variant.
impl<B: ColumnBank, CVar: VariantBytes, COff: Words> Column for Variants<B, CVar, COff> {
    ghost format = { variants_format B.bank };

    ghost content = { λ c. both (B.contents c.columns) (forms_content CVar.bytes COff.bytes c.indexes) };

    ghost room = { λ c rs. ⊥ };
}

impl<B: ColumnBank, CVar: VariantBytes, COff: Words> Len for Variants<B, CVar, COff> {
    fn len(&self) -> usize {
        self.indexes.len()
    }
}

impl<B: IndexBank, CVar: VariantBytes, COff: Words> Index for Variants<B, CVar, COff>
where
    B::Ref: Copy,
{
    type Ref = B::Ref;

    fn get(&self, index: usize) -> B::Ref {
        let (variant, at) = self.indexes.get(index);
        self.columns.value(variant as usize, at as usize)
    }
}

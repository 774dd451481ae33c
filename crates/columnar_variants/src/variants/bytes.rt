//! The bytes of a column of any number of variants: the slices of the columns, then those of the variants.
ghost use Rattle.std.specs.Prelude.{refl};
ghost use Rattle.columnar_core.specs.Format.{slices_of};
ghost use Rattle.columnar_core.specs.TwoPartsLaws.{two_counted};
ghost use Rattle.columnar_sums.specs.Discriminants.{forms_content};
ghost use Rattle.columnar_sums.specs.DiscriminantLaws.{discriminant_storable};
ghost use Rattle.columnar_variants.specs.LawfulVariantLaws.{variants_storable};

use super::Variants;
use crate::bank::bytes::{AsBytesBank, BytesBank, CheckBank, FromBytesBank, StoredBank};
use crate::fronts::count_rows;
use columnar_core::byte_slice::ByteSlice;
use columnar_core::bytes::{AsBytes, Check, FromBytes, Stored};
use columnar_core::container::ContainerBytes;
use columnar_core::fault::{GrowError, StoreFault};
use columnar_core::store::DecodedStore;
use columnar_core::tally::Tally;
use columnar_core::view::View;
use columnar_core::words::Words;
use columnar_sums::discriminant::{Discriminant, Variants as VariantBytes};
use std::alloc::Global;

type Forms = Discriminant<Vec<u8>, Vec<u64>>;

type FormsView<'s> = Discriminant<&'s [u8], View<'s, u64>>;

/// Checks the rules of the columns, those of the variants, then that each variant is less than the number of columns,
/// then that each column has as many values as there are rows of its variant. The last two are reported as `Variant`
/// and `Parts`, at the first slice.
impl<B: StoredBank, CVar: VariantBytes, COff: Words> Stored for Variants<B, CVar, COff> {
    ghost storable = { variants_storable B.bank B.storable discriminant_storable };

    ghost counted = { λ c. two_counted (slices_of (B.contents c.columns)) (slices_of (forms_content CVar.bytes COff.bytes c.indexes)) (B.counted c.columns) refl };

    fn slice_count() -> usize {
        B::count_slices() + 2
    }

    fn element_sizes(sizes: &mut Vec<usize>) -> Result<(), GrowError> {
        let before = sizes.len();
        B::sizes_of_columns(sizes)?;
        match Forms::element_sizes(sizes) {
            Ok(()) => Ok(()),
            Err(error) => {
                sizes.truncate(before);
                Err(error)
            }
        }
    }

    fn judge_tallied<L>(
        store: &DecodedStore<'_>,
        offset: usize,
        tally: &mut Tally<L>,
    ) -> Result<(), StoreFault> {
        B::judge_columns(store, offset, tally)?;
        let mut after = offset + B::count_slices();
        Forms::judge_tallied(store, after, tally)?;
        let indexes = FormsView::from_store(store, &mut after);
        match count_rows::<B, &[u8], View<'_, u64>, L>(&indexes, tally) {
            None => Err(StoreFault::Variant(offset)),
            Some(counts) => {
                if B::have_values(store, offset, &counts) {
                    Ok(())
                } else {
                    Err(StoreFault::Parts(offset))
                }
            }
        }
    }

    fn rows_in(store: &DecodedStore<'_>, offset: usize) -> usize {
        Forms::rows_in(store, offset + B::count_slices())
    }
}

impl<B: CheckBank + StoredBank, CVar: VariantBytes, COff: Words> Check for Variants<B, CVar, COff> {
    fn check_from_tallied<L>(&self, from: usize, tally: &mut Tally<L>) -> Result<(), StoreFault> {
        self.columns.check_columns(from, tally)?;
        self.indexes
            .check_from_tallied(from + B::count_slices(), tally)?;
        match count_rows::<B, CVar, COff, L>(&self.indexes, tally) {
            None => Err(StoreFault::Variant(from)),
            Some(counts) => {
                if self.columns.hold_values(&counts) {
                    Ok(())
                } else {
                    Err(StoreFault::Parts(from))
                }
            }
        }
    }
}

impl<'s, B: FromBytesBank<'s> + StoredBank> FromBytes<'s> for Variants<B, &'s [u8], View<'s, u64>> {
    fn from_store(store: &DecodedStore<'s>, offset: &mut usize) -> Self {
        let columns = B::columns_from(store, offset);
        let indexes = FormsView::from_store(store, offset);
        Variants { columns, indexes }
    }
}

impl<'s, B: AsBytesBank<'s> + StoredBank> AsBytes<'s> for Variants<B, &'s [u8], View<'s, u64>> {
    fn get_byte_slice(&self, index: usize) -> (u64, ByteSlice<'s>) {
        let count = B::count_slices();
        if index < count {
            self.columns.get_column_slice(index)
        } else {
            self.indexes.get_byte_slice(index - count)
        }
    }
}

/// If an allocation for a part fails, the parts already copied are dropped.
impl<B: BytesBank + StoredBank + Drop> ContainerBytes for Variants<B, Vec<u8>, Vec<u64>> {
    fn byte_slice(&self, index: usize) -> ByteSlice<'_> {
        let count = B::count_slices();
        if index < count {
            self.columns.column_slice(index)
        } else {
            self.indexes.byte_slice(index - count)
        }
    }

    fn load(alloc: Global, store: &DecodedStore<'_>, offset: usize) -> Result<Self, GrowError> {
        let columns = B::load_columns(alloc, store, offset)?;
        let indexes = Forms::load(alloc, store, offset + B::count_slices())?;
        Ok(Variants { columns, indexes })
    }
}

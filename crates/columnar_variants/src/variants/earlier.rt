//! Columns of any number of variants that are made from an earlier form.
ghost use Rattle.columnar_variants.specs.BankEarlierLaws.{earlier_variants};

use super::Variants;
use crate::bank::bytes::{BytesBank, StoredBank};
use crate::bank::earlier::EarlierBank;
use columnar_core::earlier::Earlier;
use columnar_core::fault::GrowError;
use std::alloc::Global;

/// The earlier form has the earlier columns; the variants stay the same.
impl<B: EarlierBank<Old: BytesBank + StoredBank>> Earlier for Variants<B, Vec<u8>, Vec<u64>> {
    type Old = Variants<B::Old, Vec<u8>, Vec<u64>>;

    ghost earlier = { earlier_variants B.Old.bank B.bank B.earlier };

    fn from_old(
        alloc: Global,
        old: Variants<B::Old, Vec<u8>, Vec<u64>>,
    ) -> Result<Self, GrowError> {
        let Variants { columns, indexes } = old;
        let columns = B::columns_of_old(alloc, columns)?;
        Ok(Variants { columns, indexes })
    }
}

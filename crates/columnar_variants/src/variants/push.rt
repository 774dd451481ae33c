//! Pushes of rows, by value and by reference, to a column of any number of variants.
use super::Variants;
use crate::bank::few::FewColumns;
use crate::bank::push::{PushCase, PushCaseRef};
use crate::cases::Cases;
use columnar_core::fault::GrowError;
use columnar_core::traits::{Push, PushRef};

/// The row's value is pushed to the column of its variant, then its variant; or neither. A type of more than 256 variants
/// takes no rows.
impl<T: Cases + Drop, B: PushCase<T> + FewColumns> Push<T> for Variants<B, Vec<u8>, Vec<u64>> {
    fn push(&mut self, item: T) -> Result<(), GrowError> {
        self.columns.push_with(&mut self.indexes, 0, item)
    }
}

impl<T: Cases, B: PushCaseRef<T> + FewColumns> PushRef<T> for Variants<B, Vec<u8>, Vec<u64>> {
    fn push_ref(&mut self, item: &T) -> Result<(), GrowError> {
        self.columns.push_ref_with(&mut self.indexes, 0, item)
    }
}

//! Copying a stash.
ghost use Rattle.std.specs.Prelude.{◌≡◌, IfOk, IfErr};

use super::{ByteStore, Checked, Stash};
use columnar_core::bytes::Stored;
use columnar_core::container::Storage;
use columnar_core::fault::GrowError;
use std::alloc::{AllocError, Global};
use std::marker::PhantomData;

impl<C: Stored, B: ByteStore> Clone for Checked<C, B> {
    ghost use Rattle.columnar_bytes.specs.Stashes.{checked_bytes};

    ghost is_clone = { λ k l. checked_bytes l ≡ checked_bytes k };

    fn clone(&self) -> Result<Self, AllocError> {
        let store = self.store.clone_store()?;
        Ok(Checked {
            alloc: self.alloc,
            store,
            of: PhantomData,
        })
    }
}

impl<C: Stored + Clone, B: ByteStore> Clone for Stash<C, B> {
    ghost use Rattle.columnar_bytes.specs.Stashes.{IsStashClone};

    ghost is_clone = { λ s t. IsStashClone C.is_clone s t };

    fn clone(&self) -> Result<Self, AllocError> {
        match self {
            Stash::Typed(column) => Ok(Stash::Typed(column.clone()?)),
            Stash::Bytes(checked) => Ok(Stash::Bytes(checked.clone()?)),
            Stash::Align(checked) => Ok(Stash::Align(checked.clone()?)),
        }
    }
}

impl<C: Stored + Storage, B: ByteStore> Stash<C, B> {
    ghost use Rattle.columnar_bytes.specs.Stashes.{stash_content, variant_of, written_bytes};

    /// Copies the stash: the copy has the same variant, rows and slices, and writes the same bytes. In contrast, what
    /// `clone` copies of a column is up to the column's `clone`.
    ///
    /// # Errors
    /// `Memory`, and no other error.
    pub fn duplicate(&self, alloc: Global) -> Result<Self, GrowError>
        ensures variant { IfOk result (λ s. variant_of s ≡ variant_of self.now) }
        ensures content { IfOk result (λ s. stash_content s ≡ stash_content self.now) }
        ensures written { IfOk result (λ s. written_bytes s ≡ written_bytes self.now) }
        ensures memory { IfErr result (λ e. e ≡ GrowError.Memory) }
    {
        match self {
            Stash::Typed(column) => Ok(Stash::Typed(column.duplicate(alloc)?)),
            Stash::Bytes(checked) => match checked.clone() {
                Ok(same) => Ok(Stash::Bytes(same)),
                Err(_) => Err(GrowError::Memory),
            },
            Stash::Align(checked) => match checked.clone() {
                Ok(same) => Ok(Stash::Align(same)),
                Err(_) => Err(GrowError::Memory),
            },
        }
    }
}

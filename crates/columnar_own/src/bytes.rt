//! The bytes of columns of your own rows: those of the parts.
use crate::rows::OwnRows;
use columnar_base::fault::{GrowError, StoreFault};
use columnar_base::tally::Tally;
use columnar_core::byte_slice::ByteSlice;
use columnar_core::bytes::{AsBytes, Check, FromBytes, Stored};
use columnar_core::container::ContainerBytes;
use columnar_core::earlier::Earlier;
use columnar_core::store::DecodedStore;
use std::alloc::Global;

impl<P: Stored, K> Stored for OwnRows<P, K> {
    ghost storable = { P.storable };

    ghost counted = { λ c. P.counted c.parts };

    fn slice_count() -> usize {
        P::slice_count()
    }

    fn element_sizes(sizes: &mut Vec<usize>) -> Result<(), GrowError> {
        P::element_sizes(sizes)
    }

    fn judge_tallied<L>(
        store: &DecodedStore<'_>,
        offset: usize,
        tally: &mut Tally<L>,
    ) -> Result<(), StoreFault> {
        P::judge_tallied(store, offset, tally)
    }

    fn rows_in(store: &DecodedStore<'_>, offset: usize) -> usize {
        P::rows_in(store, offset)
    }
}

impl<P: Check, K> Check for OwnRows<P, K> {
    fn check_from_tallied<L>(&self, from: usize, tally: &mut Tally<L>) -> Result<(), StoreFault> {
        self.parts.check_from_tallied(from, tally)
    }
}

impl<'s, P: FromBytes<'s>, K> FromBytes<'s> for OwnRows<P, K> {
    fn from_store(store: &DecodedStore<'s>, offset: &mut usize) -> Self {
        OwnRows::new(P::from_store(store, offset))
    }
}

impl<'s, P: AsBytes<'s>, K> AsBytes<'s> for OwnRows<P, K> {
    fn get_byte_slice(&self, index: usize) -> (u64, ByteSlice<'s>) {
        self.parts.get_byte_slice(index)
    }
}

impl<P: ContainerBytes, K> ContainerBytes for OwnRows<P, K> {
    fn byte_slice(&self, index: usize) -> ByteSlice<'_> {
        self.parts.byte_slice(index)
    }

    fn load(alloc: Global, store: &DecodedStore<'_>, offset: usize) -> Result<Self, GrowError> {
        Ok(OwnRows::new(P::load(alloc, store, offset)?))
    }
}

/// The earlier form is the same type over the earlier form of the parts.
impl<P: Earlier, K> Earlier for OwnRows<P, K> {
    type Old = OwnRows<P::Old, K>;

    ghost earlier = { P.earlier };

    fn from_old(alloc: Global, old: OwnRows<P::Old, K>) -> Result<Self, GrowError> {
        Ok(OwnRows::new(P::from_old(alloc, old.parts)?))
    }
}

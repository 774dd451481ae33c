//! An owned column, lent as its slices without naming a view.
ghost use Rattle.std.specs.Prelude.{◌<◌};

use crate::byte_slice::ByteSlice;
use crate::bytes::{AsBytes, Stored};
use crate::container::ContainerBytes;
use crate::store::DecodedStore;
use columnar_base::fault::{GrowError, StoreFault};
use columnar_base::tally::Tally;
use columnar_base::traits::Column;

/// An owned column, lent as its slices.
#[derive(Clone, Copy)]
pub struct Owned<'a, C>(pub &'a C);

impl<'v, C: Column> Column for Owned<'v, C> {
    ghost format = { C.format };

    ghost content = { λ o. C.content o.0.now };

    ghost room = { λ c rs. ⊥ };
}

impl<'v, C: ContainerBytes> Stored for Owned<'v, C> {
    ghost storable = { C.storable };

    ghost counted = { λ o. C.counted o.0.now };

    fn slice_count() -> usize {
        C::slice_count()
    }

    fn element_sizes(sizes: &mut Vec<usize>) -> Result<(), GrowError> {
        C::element_sizes(sizes)
    }

    fn judge_tallied<L>(
        store: &DecodedStore<'_>,
        offset: usize,
        tally: &mut Tally<L>,
    ) -> Result<(), StoreFault> {
        C::judge_tallied(store, offset, tally)
    }

    fn rows_in(store: &DecodedStore<'_>, offset: usize) -> usize {
        C::rows_in(store, offset)
    }
}

impl<'a, C: ContainerBytes> AsBytes<'a> for Owned<'a, C> {
    fn get_byte_slice(&self, index: usize) -> (u64, ByteSlice<'a>) {
        let slice = self.0.byte_slice(index);
        (slice.align(), slice)
    }
}

//! A lent view: its slices are those of the view.
ghost use Rattle.std.specs.Prelude.{◌<◌};

use crate::byte_slice::ByteSlice;
use crate::bytes::{AsBytes, Stored};
use crate::store::DecodedStore;
use columnar_base::fault::{GrowError, StoreFault};
use columnar_base::tally::Tally;

impl<'x, V: Stored> Stored for &'x V {
    ghost storable = { V.storable };

    ghost counted = { λ v. V.counted v.now };

    fn slice_count() -> usize {
        V::slice_count()
    }

    fn element_sizes(sizes: &mut Vec<usize>) -> Result<(), GrowError> {
        V::element_sizes(sizes)
    }

    fn judge_tallied<L>(
        store: &DecodedStore<'_>,
        offset: usize,
        tally: &mut Tally<L>,
    ) -> Result<(), StoreFault> {
        V::judge_tallied(store, offset, tally)
    }

    fn rows_in(store: &DecodedStore<'_>, offset: usize) -> usize {
        V::rows_in(store, offset)
    }
}

impl<'x, 's, V: AsBytes<'s>> AsBytes<'s> for &'x V {
    fn get_byte_slice(&self, index: usize) -> (u64, ByteSlice<'s>) {
        (**self).get_byte_slice(index)
    }
}

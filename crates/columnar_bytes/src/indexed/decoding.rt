//! The slices of a store.
ghost use Rattle.std.specs.Prelude.{[], ◌≡◌, ◌<◌, length, slice_index_or};
ghost use Rattle.columnar_core.specs.Frame.{IsStore, framed_slices};
ghost use Rattle.columnar_core.specs.Store.{slices_left};

use columnar_core::store::{Decode, DecodedStore};

/// Iterates over the slices that the bytes frame, in order, without padding.
///
/// # Requires
/// Bytes with a legal structure, as `validate_structure` tests.
pub fn decode(bytes: &[u8]) -> Decode<'_>
    requires { IsStore bytes.now }
    ensures { slices_left result ≡ framed_slices bytes.now }
{
    Decode::new(DecodedStore::new(bytes))
}

/// Returns the bytes of slice `index`, without padding.
///
/// # Requires
/// Bytes with a legal structure, and `index` below the number of slices.
pub fn decode_index(bytes: &[u8], index: usize) -> &[u8]
    requires store { IsStore bytes.now }
    requires in_range { index < length (framed_slices bytes.now) }
    ensures { result.now ≡ slice_index_or (framed_slices bytes.now) index [] }
{
    DecodedStore::new(bytes).get(index)
}

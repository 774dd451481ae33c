//! The slices of a column, by index.
ghost use Rattle.std.specs.Prelude.{[], ◌≡◌, ◌<◌, IsTrue, length, slice_index_or};
ghost use Rattle.columnar_core.specs.Format.{representable, slices_of};
ghost use Rattle.columnar_core.specs.Slices.{bytes_in};

use columnar_core::byte_slice::ByteSlice;
use columnar_core::bytes::AsBytes;

/// Returns the number of slices of the column.
///
/// # Requires
/// A representable type.
pub fn slice_count<'a, S: AsBytes<'a>>(_item: &S) -> usize
    requires { IsTrue (representable S.format) }
    ensures { result ≡ length (slices_of (S.content _item.now)) }
{
    S::slice_count()
}

/// Returns slice `index` of the column.
///
/// # Requires
/// A representable type, and `index` below its number of slices.
pub fn byte_slice<'a, S: AsBytes<'a>>(item: &S, index: usize) -> ByteSlice<'a>
    requires representable { IsTrue (representable S.format) }
    requires in_range { index < length (slices_of (S.content item.now)) }
    ensures { bytes_in result ≡ slice_index_or (slices_of (S.content item.now)) index [] }
{
    item.get_byte_slice(index).1
}

//! The bytes of a column of two parts: the slices of the first part, then those of the second.
ghost use Rattle.std.specs.Prelude.{◌≡◌, ℕ, ◌+◌, ◌*◌, ◌^◌, ◌<◌, ◌≤◌, ◌++◌, length, drop, slice_get, Some, IsTrue, OnOk, OnErr, IfOk, IfErr};
ghost use Rattle.columnar_base.specs.Format.{Fits, IsSound, bytes_held, first, representable, slices_of};
ghost use Rattle.columnar_base.specs.Faults.{verdict};
ghost use Rattle.columnar_base.specs.TwoParts.{both_broken};
ghost use Rattle.columnar_core.specs.Slices.{bytes_in, alignment};
ghost use Rattle.columnar_core.specs.Store.{slices_in};

use crate::byte_slice::ByteSlice;
use crate::bytes::{AsBytes, Check, Stored};
use crate::container::ContainerBytes;
use crate::store::DecodedStore;
use columnar_base::fault::{GrowError, StoreFault};
use columnar_base::tally::Tally;
use std::alloc::Global;

/// Returns slice `index` of two parts, and the alignment of its elements.
///
/// # Requires
/// Representable parts, and `index` below their number of slices.
pub fn slice_of_two<'s, A: AsBytes<'s>, B: AsBytes<'s>>(
    left: &A,
    right: &B,
    index: usize,
) -> (u64, ByteSlice<'s>)
    requires left { IsTrue (representable A.format) }
    requires right { IsTrue (representable B.format) }
    requires in_range { index < A.format.count + B.format.count }
    ensures slice { slice_get (slices_of (A.content left.now) ++ slices_of (B.content right.now)) index ≡ Some (bytes_in result.1) }
    ensures align { result.0 ≡ alignment result.1 }
    ensures aligned { slice_get (A.format.aligns ++ B.format.aligns) index ≡ Some result.0 }
{
    let count = A::slice_count();
    if index < count {
        left.get_byte_slice(index)
    } else {
        right.get_byte_slice(index - count)
    }
}

/// Returns slice `index` of two owned parts.
///
/// # Requires
/// Representable parts, and `index` below their number of slices.
pub fn byte_slice_of_two<'s, A: ContainerBytes, B: ContainerBytes>(
    left: &'s A,
    right: &'s B,
    index: usize,
) -> ByteSlice<'s>
    requires left { IsTrue (representable A.format) }
    requires right { IsTrue (representable B.format) }
    requires in_range { index < A.format.count + B.format.count }
    ensures slice { slice_get (slices_of (A.content left.now) ++ slices_of (B.content right.now)) index ≡ Some (bytes_in result) }
    ensures aligned { slice_get (A.format.aligns ++ B.format.aligns) index ≡ Some (alignment result) }
{
    let count = A::slice_count();
    if index < count {
        left.byte_slice(index)
    } else {
        right.byte_slice(index - count)
    }
}

/// Appends the element sizes of both parts, or nothing.
///
/// # Requires
/// Representable parts.
///
/// # Errors
/// `Memory`, and no other error; `sizes` stays.
pub fn sizes_of_two<A: Stored, B: Stored>(sizes: &mut Vec<usize>) -> Result<(), GrowError>
    requires left { IsTrue (representable A.format) }
    requires right { IsTrue (representable B.format) }
    ensures ok { OnOk result (sizes.new.items ≡ sizes.old.items ++ (A.format.sizes ++ B.format.sizes)) }
    ensures err { OnErr result (sizes.new.items ≡ sizes.old.items) }
    ensures memory { IfErr result (λ e. e ≡ GrowError.Memory) }
{
    let before = sizes.len();
    A::element_sizes(sizes)?;
    match B::element_sizes(sizes) {
        Ok(()) => Ok(()),
        Err(error) => {
            sizes.truncate(before);
            Err(error)
        }
    }
}

/// Loads both parts from accepted slices, each as a whole. If the second cannot be loaded, the first one is dropped.
///
/// # Requires
/// Representable parts, and accepted slices from `offset` on.
///
/// # Errors
/// `Memory`, and no other error.
pub fn load_two<A: ContainerBytes + Drop, B: ContainerBytes>(
    alloc: Global,
    store: &DecodedStore<'_>,
    offset: usize,
) -> Result<(A, B), GrowError>
    requires left { IsTrue (representable A.format) }
    requires right { IsTrue (representable B.format) }
    requires left_fits { Fits A.format offset (slices_in store.now) }
    requires right_fits { Fits B.format (offset + A.format.count) (slices_in store.now) }
    ensures left { IfOk result (λ p. A.content p.0 ≡ A.format.build (drop offset (slices_in store.now))) }
    ensures right { IfOk result (λ p. B.content p.1 ≡ B.format.build (drop (offset + A.format.count) (slices_in store.now))) }
    ensures memory { IfErr result (λ e. e ≡ GrowError.Memory) }
{
    let left = A::load(alloc, store, offset)?;
    let right = B::load(alloc, store, offset + A::slice_count())?;
    Ok((left, right))
}

/// Validates the slices of both parts from `offset` on. Counts its steps in the tally.
///
/// # Requires
/// Representable parts, and enough slices from `offset` on.
///
/// # Errors
/// The first broken rule of the parts.
pub fn judge_two<A: Stored, B: Stored, L>(
    store: &DecodedStore<'_>,
    offset: usize,
    tally: &mut Tally<L>,
) -> Result<(), StoreFault>
    requires left { IsTrue (representable A.format) }
    requires right { IsTrue (representable B.format) }
    requires room { offset + (A.format.count + B.format.count) ≤ length (slices_in store.now) }
    ensures exact { verdict result ≡ first (both_broken A.format B.format (A.format.build (drop offset (slices_in store.now))) (B.format.build (drop (offset + A.format.count) (slices_in store.now))) offset) }
    ensures left_fits { OnOk result (Fits A.format offset (slices_in store.now)) }
    ensures right_fits { OnOk result (Fits B.format (offset + A.format.count) (slices_in store.now)) }
    ensures turns { tally.new.turns ≤ tally.old.turns + (A.format.turns * bytes_held (A.format.build (drop offset (slices_in store.now))) + B.format.turns * bytes_held (B.format.build (drop (offset + A.format.count) (slices_in store.now)))) }
{
    A::judge_tallied(store, offset, tally)?;
    B::judge_tallied(store, offset + A::slice_count(), tally)
}

/// Validates both parts, with slices counted from `from` on. Counts its steps in the tally.
///
/// # Requires
/// Representable parts, and slice numbers below 2^64.
///
/// # Errors
/// The first broken rule of the parts.
pub fn check_two<A: Check, B: Check, L>(
    left: &A,
    right: &B,
    from: usize,
    tally: &mut Tally<L>,
) -> Result<(), StoreFault>
    requires left { IsTrue (representable A.format) }
    requires right { IsTrue (representable B.format) }
    requires counted { from + (A.format.count + B.format.count) < 2 ^ 64 }
    ensures exact { verdict result ≡ first (both_broken A.format B.format (A.content left.now) (B.content right.now) from) }
    ensures left_sound { OnOk result (IsSound A.format (A.content left.now)) }
    ensures right_sound { OnOk result (IsSound B.format (B.content right.now)) }
    ensures turns { tally.new.turns ≤ tally.old.turns + (A.format.turns * bytes_held (A.content left.now) + B.format.turns * bytes_held (B.content right.now)) }
{
    left.check_from_tallied(from, tally)?;
    right.check_from_tallied(from + A::slice_count(), tally)
}

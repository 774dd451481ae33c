//! The bytes of a column of a sum type of two variants: the slices of both columns, then those of the variants.
ghost use Rattle.std.specs.Prelude.{◌≡◌, ℕ, ◌+◌, ◌*◌, ◌^◌, ◌<◌, ◌≤◌, ◌++◌, length, drop, slice_get, Some, IsTrue, OnOk, OnErr, IfOk, IfErr};
ghost use Rattle.columnar_core.specs.Format.{Fits, bytes_held, first, moved, representable, slices_of};
ghost use Rattle.columnar_core.specs.Faults.{verdict};
ghost use Rattle.columnar_core.specs.Slices.{bytes_in, alignment};
ghost use Rattle.columnar_core.specs.Store.{slices_in};
ghost use Rattle.columnar_core.specs.WordViews.{view_bytes};
ghost use Rattle.columnar_sums.specs.Discriminants.{forms_content, owned_forms};
ghost use Rattle.columnar_variants.specs.Duals.{dual_content, dual_format, slice_bytes};

use crate::count::judge_counts;
use columnar_core::byte_slice::ByteSlice;
use columnar_core::bytes::{AsBytes, Check, FromBytes, Stored};
use columnar_core::container::ContainerBytes;
use columnar_core::fault::{GrowError, StoreFault};
use columnar_core::store::DecodedStore;
use columnar_core::tally::Tally;
use columnar_core::traits::Len;
use columnar_core::two::{
    byte_slice_of_two, check_two, judge_two, load_two, sizes_of_two, slice_of_two,
};
use columnar_core::view::View;
use columnar_core::words::Words;
use columnar_sums::discriminant::{Discriminant, Variants};
use std::alloc::Global;

/// Returns the number of slices.
///
/// # Requires
/// The format is representable.
pub fn count_dual<SC: Stored, TC: Stored>() -> usize
    requires { IsTrue (representable (dual_format SC.format TC.format)) }
    ensures { result ≡ (dual_format SC.format TC.format).count }
{
    SC::slice_count() + TC::slice_count() + 2
}

/// Appends the element sizes of all slices, or none.
///
/// # Requires
/// The format is representable.
pub fn sizes_of_dual<SC: Stored, TC: Stored>(sizes: &mut Vec<usize>) -> Result<(), GrowError>
    requires { IsTrue (representable (dual_format SC.format TC.format)) }
    ensures ok { OnOk result (sizes.new.items ≡ sizes.old.items ++ (dual_format SC.format TC.format).sizes) }
    ensures err { OnErr result (sizes.new.items ≡ sizes.old.items) }
    ensures memory { IfErr result (λ e. e ≡ GrowError.Memory) }
{
    let before = sizes.len();
    sizes_of_two::<SC, TC>(sizes)?;
    match <Discriminant<Vec<u8>, Vec<u64>> as Stored>::element_sizes(sizes) {
        Ok(()) => Ok(()),
        Err(error) => {
            sizes.truncate(before);
            Err(error)
        }
    }
}

/// Returns the first rule that the slices from `offset` on break. It checks the rules of the two columns, then those of
/// the variants, then that each variant is 0 or 1, then that the values are as many as the rows of their variant. The
/// last two are reported as `Variant` and `Parts`, at the first slice. Reads no row if all rows have one variant. Adds
/// its steps to the tally.
///
/// # Requires
/// The format is representable, and the store has its slices from `offset` on.
pub fn judge_dual<SC: Stored, TC: Stored, L>(
    store: &DecodedStore<'_>,
    offset: usize,
    tally: &mut Tally<L>,
) -> Result<(), StoreFault>
    requires representable { IsTrue (representable (dual_format SC.format TC.format)) }
    requires room { offset + (dual_format SC.format TC.format).count ≤ length (slices_in store.now) }
    ensures exact { verdict result ≡ first (moved offset ((dual_format SC.format TC.format).broken ((dual_format SC.format TC.format).build (drop offset (slices_in store.now))))) }
    ensures turns { tally.new.turns ≤ tally.old.turns + (dual_format SC.format TC.format).turns * bytes_held ((dual_format SC.format TC.format).build (drop offset (slices_in store.now))) }
{
    judge_two::<SC, TC, L>(store, offset, tally)?;
    let firsts = SC::slice_count();
    let mut after = offset + (firsts + TC::slice_count());
    <Discriminant<Vec<u8>, Vec<u64>> as Stored>::judge_tallied(store, after, tally)?;
    let lengths = [
        SC::rows_in(store, offset),
        TC::rows_in(store, offset + firsts),
    ];
    let indexes = <Discriminant<&[u8], View<'_, u64>> as FromBytes<'_>>::from_store(
        store, &mut after,
    );
    judge_counts(&indexes, &lengths, offset, tally)
}

/// Returns the number of rows in slices that were accepted.
///
/// # Requires
/// The format is representable, and the slices from `offset` on were accepted.
pub fn rows_in_dual<SC: Stored, TC: Stored>(store: &DecodedStore<'_>, offset: usize) -> usize
    requires representable { IsTrue (representable (dual_format SC.format TC.format)) }
    requires fits { Fits (dual_format SC.format TC.format) offset (slices_in store.now) }
    ensures { result ≡ length ((dual_format SC.format TC.format).rows ((dual_format SC.format TC.format).build (drop offset (slices_in store.now)))) }
{
    <Discriminant<Vec<u8>, Vec<u64>> as Stored>::rows_in(
        store,
        offset + (SC::slice_count() + TC::slice_count()),
    )
}

/// Does the same as `judge_dual` for the columns in place, with slices numbered from `from`.
///
/// # Requires
/// The format is representable, and its slices numbered from `from` stay below 2^64.
pub fn check_dual<SC: Check + Len, TC: Check + Len, CVar: Variants, COff: Words, L>(
    firsts: &SC,
    seconds: &TC,
    indexes: &Discriminant<CVar, COff>,
    from: usize,
    tally: &mut Tally<L>,
) -> Result<(), StoreFault>
    requires representable { IsTrue (representable (dual_format SC.format TC.format)) }
    requires counted { from + (dual_format SC.format TC.format).count < 2 ^ 64 }
    ensures exact { verdict result ≡ first (moved from ((dual_format SC.format TC.format).broken (dual_content (SC.content firsts.now) (TC.content seconds.now) (forms_content CVar.bytes COff.bytes indexes.now)))) }
    ensures turns { tally.new.turns ≤ tally.old.turns + (dual_format SC.format TC.format).turns * bytes_held (dual_content (SC.content firsts.now) (TC.content seconds.now) (forms_content CVar.bytes COff.bytes indexes.now)) }
{
    check_two(firsts, seconds, from, tally)?;
    let after = from + (SC::slice_count() + TC::slice_count());
    indexes.check_from_tallied(after, tally)?;
    let lengths = [firsts.len(), seconds.len()];
    judge_counts(indexes, &lengths, from, tally)
}

/// Returns slice `index`, with the alignment of its elements.
///
/// # Requires
/// The format is representable, and `index` is less than its number of slices.
pub fn slice_of_dual<'s, SC: AsBytes<'s>, TC: AsBytes<'s>>(
    firsts: &SC,
    seconds: &TC,
    indexes: &Discriminant<&'s [u8], View<'s, u64>>,
    index: usize,
) -> (u64, ByteSlice<'s>)
    requires representable { IsTrue (representable (dual_format SC.format TC.format)) }
    requires in_range { index < (dual_format SC.format TC.format).count }
    ensures slice { slice_get (slices_of (dual_content (SC.content firsts.now) (TC.content seconds.now) (forms_content slice_bytes view_bytes indexes.now))) index ≡ Some (bytes_in result.1) }
    ensures align { result.0 ≡ alignment result.1 }
    ensures aligned { slice_get (dual_format SC.format TC.format).aligns index ≡ Some result.0 }
{
    let count = SC::slice_count() + TC::slice_count();
    if index < count {
        slice_of_two(firsts, seconds, index)
    } else {
        indexes.get_byte_slice(index - count)
    }
}

/// Returns slice `index` of owned columns.
///
/// # Requires
/// The format is representable, and `index` is less than its number of slices.
pub fn byte_slice_of_dual<'s, SC: ContainerBytes, TC: ContainerBytes>(
    firsts: &'s SC,
    seconds: &'s TC,
    indexes: &'s Discriminant<Vec<u8>, Vec<u64>>,
    index: usize,
) -> ByteSlice<'s>
    requires representable { IsTrue (representable (dual_format SC.format TC.format)) }
    requires in_range { index < (dual_format SC.format TC.format).count }
    ensures slice { slice_get (slices_of (dual_content (SC.content firsts.now) (TC.content seconds.now) (owned_forms indexes.now.variant.items indexes.now.offset.items))) index ≡ Some (bytes_in result) }
    ensures aligned { slice_get (dual_format SC.format TC.format).aligns index ≡ Some (alignment result) }
{
    let count = SC::slice_count() + TC::slice_count();
    if index < count {
        byte_slice_of_two(firsts, seconds, index)
    } else {
        indexes.byte_slice(index - count)
    }
}

/// Copies the columns and the variants from slices that were accepted.
///
/// # Errors
/// `Memory` if an allocation fails; the parts copied so far are dropped.
///
/// # Requires
/// The format is representable, and the slices from `offset` on were accepted.
pub fn load_dual<SC: ContainerBytes + Drop, TC: ContainerBytes + Drop>(
    alloc: Global,
    store: &DecodedStore<'_>,
    offset: usize,
) -> Result<(SC, TC, Discriminant<Vec<u8>, Vec<u64>>), GrowError>
    requires representable { IsTrue (representable (dual_format SC.format TC.format)) }
    requires fits { Fits (dual_format SC.format TC.format) offset (slices_in store.now) }
    ensures content { IfOk result (λ p. dual_content (SC.content p.0) (TC.content p.1) (owned_forms p.2.variant.items p.2.offset.items) ≡ (dual_format SC.format TC.format).build (drop offset (slices_in store.now))) }
    ensures memory { IfErr result (λ e. e ≡ GrowError.Memory) }
{
    let (firsts, seconds) = load_two::<SC, TC>(alloc, store, offset)?;
    let indexes = <Discriminant<Vec<u8>, Vec<u64>> as ContainerBytes>::load(
        alloc,
        store,
        offset + (SC::slice_count() + TC::slice_count()),
    )?;
    Ok((firsts, seconds, indexes))
}

/// Returns views of the columns and of the variants over the slices from `offset` on, and moves `offset` past them.
///
/// # Requires
/// The format is representable, and the store has its slices from `offset` on.
pub fn view_of_dual<'s, SC: FromBytes<'s>, TC: FromBytes<'s>>(
    store: &DecodedStore<'s>,
    offset: &mut usize,
) -> (SC, TC, Discriminant<&'s [u8], View<'s, u64>>)
    requires representable { IsTrue (representable (dual_format SC.format TC.format)) }
    requires room { offset.old + (dual_format SC.format TC.format).count ≤ length (slices_in store.now) }
    ensures content { dual_content (SC.content result.0) (TC.content result.1) (forms_content slice_bytes view_bytes result.2) ≡ (dual_format SC.format TC.format).build (drop offset.old (slices_in store.now)) }
    ensures next { offset.new ≡ offset.old + (dual_format SC.format TC.format).count }
{
    let firsts = SC::from_store(store, offset);
    let seconds = TC::from_store(store, offset);
    let indexes = <Discriminant<&'s [u8], View<'s, u64>> as FromBytes<'s>>::from_store(
        store, offset,
    );
    (firsts, seconds, indexes)
}

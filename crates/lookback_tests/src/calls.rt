// Calls of columns and stashes that several tests make, proved once for all columns. Each has the preconditions of the
// calls it makes, and keeps a column well-formed.
ghost use Rattle.std.specs.Prelude.{IfOk, IsTrue};
ghost use Rattle.columnar_core.specs.Format.{IsSound, representable};
ghost use Rattle.columnar_bytes.specs.Stashes.{stash_content};

use columnar_bytes::indexed::encode;
use columnar_bytes::stash::Stash;
use columnar_core::bytes::{AsBytes, Stored};
use columnar_core::container::{ContainerBytes, ExtendFrom, Storage, Truncate};
use columnar_core::fault::GrowError;
use columnar_core::traits::{Clear, Index, Len, Push};
use std::alloc::Global;
use std::iter::once;
use std::test::Fail;
use test_support::columns::{copy_all, cut, reads, takes};
use test_support::stashes::writes;

// Creates an empty column with space for a view.
pub(crate) fn with_room<V: Len + Copy, C: Storage + ExtendFrom<V>>(
    alloc: Global,
    view: V,
) -> Result<C, GrowError>
    ensures { IfOk result (λ c. IsSound C.format (C.content c)) }
{
    C::with_capacity_for(alloc, once(view))
}

// Tests whether a view of a column, copied whole into reserved space, equals that column.
pub(crate) fn is_copied_whole<V: Len + Copy, C: Storage + ExtendFrom<V> + PartialEq>(
    alloc: Global,
    view: V,
    source: &C,
) -> bool
    requires { IsSound V.format (V.content view) }
{
    let mut copy = C::empty(alloc);
    copy.reserve_for(once(view)).is_ok() && copy_all(&mut copy, view).is_ok() && copy == *source
}

// Returns the clone of a duplicate of a column, if both are equal to it.
pub(crate) fn twin_of<C: Storage + Clone + PartialEq + Index<Ref = u64>>(
    alloc: Global,
    column: &C,
    rows: &[u64],
) -> Option<C>
    requires { IsSound C.format (C.content column.now) }
{
    let same = column.duplicate(alloc).ok()?;
    let twin = same.clone().ok()?;
    if reads(&same, rows) && twin == same {
        Some(twin)
    } else {
        None
    }
}

// Tests whether a column differs from its twin after truncation to `count` rows, and whether it is empty after `clear`
// and then accepts an item.
pub(crate) fn is_cut_and_cleared<C: Storage + Push<u64> + PartialEq + Index<Ref = u64>>(
    alloc: Global,
    column: &mut C,
    twin: &C,
    count: usize,
    item: u64,
) -> bool
    requires { IsSound C.format (C.content column.old) }
    ensures { IsSound C.format (C.content column.new) }
{
    cut(column, count);
    let differs = *twin != *column;
    column.clear();
    differs
        && column.is_empty()
        && *column == C::empty(alloc)
        && takes(column, item)
        && reads(column, [item].as_slice())
}

// Tests whether these are the words of a view's store.
pub(crate) fn encodes<'a, V: AsBytes<'a>>(alloc: Global, view: &V, words: &[u64]) -> bool
    requires { IsTrue (representable V.format) }
{
    let mut store = Vec::new(alloc);
    encode(&mut store, view).is_ok() && store.as_slice() == words
}

// Tests whether the slices of a type have elements of these sizes.
pub(crate) fn has_sizes<C: Stored>(alloc: Global, sizes: &[usize]) -> bool
    requires { IsTrue (representable C.format) }
{
    let mut answer = Vec::new(alloc);
    C::element_sizes(&mut answer).is_ok()
        && answer.as_slice() == sizes
        && C::slice_count() == sizes.len()
}

// Tests whether slice `index` of a column and of its view has this many bytes.
pub(crate) fn has_bytes<'a, V: AsBytes<'a>, C: ContainerBytes>(
    column: &C,
    view: &V,
    index: usize,
    bytes: usize,
) -> bool
    requires representable { IsTrue (representable C.format) }
    requires view_representable { IsTrue (representable V.format) }
{
    index < C::slice_count()
        && index < V::slice_count()
        && column.byte_slice(index).len() == bytes
        && view.get_byte_slice(index).1.len() == bytes
}

// Loads a stash as a column.
pub(crate) fn loaded<C: ContainerBytes + Storage>(
    alloc: Global,
    stash: &Stash<C, Vec<u8>>,
) -> Result<C, Fail>
    requires { IsSound C.format (stash_content stash.now) }
    ensures { IfOk result (λ c. IsSound C.format (C.content c)) }
{
    let Stash::Typed(column) = stash.to_typed(alloc)? else {
        return Err(Fail::from("not a column"));
    };
    Ok(column)
}

// Copies rows of a view to a stash; returns false if there are no such rows or the copy fails.
pub(crate) fn stash_copies<V: Len + Copy, C: ContainerBytes + ExtendFrom<V> + Drop>(
    stash: &mut Stash<C, Vec<u8>>,
    view: V,
    start: usize,
    end: usize,
) -> bool
    requires sound { IsSound C.format (stash_content stash.old) }
    requires view_sound { IsSound V.format (V.content view) }
    ensures { IsSound C.format (stash_content stash.new) }
{
    start <= end && end <= view.len() && stash.extend_from_self(view, start..end).is_ok()
}

// Truncates a stash; returns false if it has fewer rows or the call fails.
pub(crate) fn stash_cut<C: ContainerBytes + Truncate + Drop>(
    stash: &mut Stash<C, Vec<u8>>,
    count: usize,
) -> bool
    requires { IsSound C.format (stash_content stash.old) }
    ensures { IsSound C.format (stash_content stash.new) }
{
    count <= stash.len() && stash.truncate(count).is_ok()
}

// Tests whether the bytes of a stash can be aligned in place.
pub(crate) fn aligns<C: ContainerBytes + Drop>(alloc: Global, stash: &mut Stash<C, Vec<u8>>) -> bool
    requires representable { IsTrue (representable C.format) }
    requires sound { IsSound C.format (stash_content stash.old) }
    ensures { IsSound C.format (stash_content stash.new) }
{
    stash.make_aligned(alloc).is_ok()
}

// Tests whether a clone of a stash writes these words.
pub(crate) fn clone_writes<C: ContainerBytes + Clone>(
    stash: &Stash<C, Vec<u8>>,
    words: &[u64],
) -> bool
    requires { IsTrue (representable C.format) }
{
    match stash.clone() {
        Ok(copy) => writes(&copy, words),
        Err(_) => false,
    }
}

//! Calls that allocate, whichever allocation fails: each succeeds, or changes nothing.
ghost use Rattle.std.specs.Prelude.{All, IfSome, IsTrue};
ghost use Rattle.columnar_base.specs.Format.{IsSound, representable};
ghost use Rattle.columnar_bytes.specs.Stashes.{stash_content};

use crate::stashes::{variant, writes};
use crate::stores::front;
use columnar_bytes::indexed::encode;
use columnar_bytes::stash::Stash;
use columnar_core::bytes::{AsBytes, Stored};
use columnar_core::container::{ContainerBytes, ExtendFrom, Storage};
use columnar_core::fault::{EncodeError, GrowError};
use columnar_core::traits::{Item, Len, Push, PushRef};
use std::alloc::Global;
use std::iter::once;

/// Tests that a push succeeds, or fails without a change and then succeeds.
pub fn push_keeps<T: Item + Copy, C: ContainerBytes + Storage + Push<T>>(
    stash: &mut Stash<C, Vec<u8>>,
    item: T,
    before: &[u64],
    after: &[u64],
) -> bool
    requires representable { IsTrue (representable C.format) }
    requires sound { IsSound C.format (stash_content stash.old) }
    requires valid { T.valid item }
    ensures { IsSound C.format (stash_content stash.new) }
{
    let held = variant(stash);
    match stash.push(item) {
        Ok(()) => {}
        Err(error) => {
            let kept = variant(stash) == held && writes(stash, before);
            if error != GrowError::Memory || !kept || stash.push(item).is_err() {
                return false;
            }
        }
    }
    variant(stash) == 0 && writes(stash, after)
}

/// Tests the same for a push by reference.
pub fn push_ref_keeps<T: Item, C: ContainerBytes + Storage + PushRef<T>>(
    stash: &mut Stash<C, Vec<u8>>,
    item: &T,
    before: &[u64],
    after: &[u64],
) -> bool
    requires representable { IsTrue (representable C.format) }
    requires sound { IsSound C.format (stash_content stash.old) }
    requires valid { T.valid item.now }
    ensures { IsSound C.format (stash_content stash.new) }
{
    let held = variant(stash);
    match stash.push_ref(item) {
        Ok(()) => {}
        Err(error) => {
            let kept = variant(stash) == held && writes(stash, before);
            if error != GrowError::Memory || !kept || stash.push_ref(item).is_err() {
                return false;
            }
        }
    }
    variant(stash) == 0 && writes(stash, after)
}

// Extends a stash by one item.
fn extend<T: Item + Copy, C: ContainerBytes + Storage + Push<T>>(
    stash: &mut Stash<C, Vec<u8>>,
    item: T,
) -> Result<(), GrowError>
    requires sound { IsSound C.format (stash_content stash.old) }
    requires valid { T.valid item }
    ensures { IsSound C.format (stash_content stash.new) }
{
    stash.extend(once(item))
}

/// Tests that an extension succeeds, or stops at the item that failed and then succeeds.
pub fn extension_keeps<T: Item + Copy, C: ContainerBytes + Storage + Push<T>>(
    stash: &mut Stash<C, Vec<u8>>,
    item: T,
    before: &[u64],
    after: &[u64],
) -> bool
    requires representable { IsTrue (representable C.format) }
    requires sound { IsSound C.format (stash_content stash.old) }
    requires valid { T.valid item }
    ensures { IsSound C.format (stash_content stash.new) }
{
    let held = variant(stash);
    match extend(stash, item) {
        Ok(()) => {}
        Err(error) => {
            let kept = variant(stash) == held && writes(stash, before);
            if error != GrowError::Memory || !kept || extend(stash, item).is_err() {
                return false;
            }
        }
    }
    variant(stash) == 0 && writes(stash, after)
}

/// Returns an item twice.
pub fn twice<T: Item + Copy>(alloc: Global, item: T) -> Option<Vec<T>>
    requires { T.valid item }
    ensures { IfSome result (λ v. All T.valid v.items) }
{
    let mut items = Vec::new(alloc);
    items.push(item).ok()?;
    items.push(item).ok()?;
    Some(items)
}

/// Tests that two items are pushed at once, or neither; removes the second again. If the column cannot hold both, the
/// error must say so.
pub fn slice_keeps<T: Item, C: ContainerBytes + Storage + PushRef<T>>(
    stash: &mut Stash<C, Vec<u8>>,
    items: &[T],
    before: &[u64],
    after: &[u64],
) -> bool
    requires representable { IsTrue (representable C.format) }
    requires sound { IsSound C.format (stash_content stash.old) }
    requires valid { All T.valid items.now }
    ensures { IsSound C.format (stash_content stash.new) }
{
    let held = variant(stash);
    let rows = stash.len();
    let mut done = stash.push_slice(items);
    if done == Err(GrowError::Memory) {
        if variant(stash) != held || !writes(stash, before) {
            return false;
        }
        done = stash.push_slice(items);
    }
    match done {
        Ok(()) => {
            let both = stash.len();
            both.checked_sub(2) == Some(rows)
                && stash.truncate(both - 1).is_ok()
                && variant(stash) == 0
                && writes(stash, after)
        }
        Err(error) => {
            error != GrowError::Memory && variant(stash) == held && writes(stash, before)
        }
    }
}

/// Tests that a copy of the first rows of a view succeeds, or fails without a change and then succeeds.
pub fn copy_keeps<V: Len + Copy, C: ContainerBytes + Storage + ExtendFrom<V>>(
    stash: &mut Stash<C, Vec<u8>>,
    view: V,
    count: usize,
    before: &[u64],
    after: &[u64],
) -> bool
    requires representable { IsTrue (representable C.format) }
    requires sound { IsSound C.format (stash_content stash.old) }
    requires view_sound { IsSound V.format (V.content view) }
    ensures { IsSound C.format (stash_content stash.new) }
{
    let held = variant(stash);
    if count > view.len() {
        return false;
    }
    match stash.extend_from_self(view, 0..count) {
        Ok(()) => {}
        Err(error) => {
            let kept = variant(stash) == held && writes(stash, before);
            if error != GrowError::Memory
                || !kept
                || stash.extend_from_self(view, 0..count).is_err()
            {
                return false;
            }
        }
    }
    variant(stash) == 0 && writes(stash, after)
}

/// Tests the same for a copy with a range check, into a column.
pub fn tested_copy_keeps<V: Len + Copy, C: ContainerBytes + Storage + ExtendFrom<V>>(
    stash: &mut Stash<C, Vec<u8>>,
    view: V,
    count: usize,
    before: &[u64],
    after: &[u64],
) -> bool
    requires representable { IsTrue (representable C.format) }
    requires sound { IsSound C.format (stash_content stash.old) }
    requires view_sound { IsSound V.format (V.content view) }
    ensures { IsSound C.format (stash_content stash.new) }
{
    let done = match stash {
        Stash::Typed(column) => column.extend_checked(view, 0..count),
        _ => None,
    };
    match done {
        Some(Ok(())) => writes(stash, after),
        Some(Err(error)) => error == GrowError::Memory && writes(stash, before),
        None => false,
    }
}

/// Tests that the rows stay the same, whether reserving space for a view succeeds or fails.
pub fn room_keeps<V: Len + Copy, C: ContainerBytes + Storage + ExtendFrom<V>>(
    stash: &mut Stash<C, Vec<u8>>,
    view: V,
    before: &[u64],
) -> bool
    requires representable { IsTrue (representable C.format) }
    requires sound { IsSound C.format (stash_content stash.old) }
    ensures { IsSound C.format (stash_content stash.new) }
{
    let held = variant(stash);
    let kept = match stash.reserve_for(once(view)) {
        Ok(()) => variant(stash) == 0,
        Err(error) => error == GrowError::Memory && variant(stash) == held,
    };
    kept && writes(stash, before)
}

/// Tests that a column with space for a view is created empty, or not created.
pub fn room_is_made_or_refused<V: Len + Copy, C: ContainerBytes + Storage + ExtendFrom<V>>(
    alloc: Global,
    view: V,
) -> bool {
    match Stash::<C, Vec<u8>>::with_capacity_for(alloc, once(view)) {
        Ok(stash) => stash.is_empty() && variant(&stash) == 0,
        Err(error) => error == GrowError::Memory,
    }
}

/// Tests that a truncation succeeds, or fails without a change and then succeeds.
pub fn cut_keeps<C: ContainerBytes + Storage>(
    stash: &mut Stash<C, Vec<u8>>,
    count: usize,
    before: &[u64],
    after: &[u64],
) -> bool
    requires representable { IsTrue (representable C.format) }
    requires sound { IsSound C.format (stash_content stash.old) }
    ensures { IsSound C.format (stash_content stash.new) }
{
    let held = variant(stash);
    if count > stash.len() {
        return false;
    }
    match stash.truncate(count) {
        Ok(()) => {}
        Err(error) => {
            let kept = variant(stash) == held && writes(stash, before);
            if error != GrowError::Memory || !kept || stash.truncate(count).is_err() {
                return false;
            }
        }
    }
    variant(stash) == 0 && writes(stash, after)
}

/// Tests that conversions of a stash have the same words, and that the stash stays the same, also after an error.
pub fn turns_keep<C: ContainerBytes + Storage>(
    alloc: Global,
    stash: &Stash<C, Vec<u8>>,
    words: &[u64],
) -> bool
    requires representable { IsTrue (representable C.format) }
    requires sound { IsSound C.format (stash_content stash.now) }
{
    let held = variant(stash);
    let typed = match stash.to_typed(alloc) {
        Ok(typed) => variant(&typed) == 0 && writes(&typed, words),
        Err(error) => error == GrowError::Memory,
    };
    let aligned = match stash.to_aligned(alloc) {
        Ok(aligned) => variant(&aligned) == 2 && writes(&aligned, words),
        Err(error) => error == EncodeError::Memory,
    };
    typed && aligned && variant(stash) == held && writes(stash, words)
}

/// Tests that a clone and a duplicate have the same variant and the same words, and that the stash stays the same, also
/// after an error.
pub fn clones_keep<C: ContainerBytes + Storage + Clone>(
    alloc: Global,
    stash: &Stash<C, Vec<u8>>,
    words: &[u64],
) -> bool
    requires { IsTrue (representable C.format) }
{
    let held = variant(stash);
    let cloned = match stash.clone() {
        Ok(copy) => variant(&copy) == held && writes(&copy, words),
        Err(_) => true,
    };
    let same = match stash.duplicate(alloc) {
        Ok(copy) => variant(&copy) == held && writes(&copy, words),
        Err(error) => error == GrowError::Memory,
    };
    cloned && same && variant(stash) == held && writes(stash, words)
}

/// Tests that the bytes are aligned in place, or the stash stays the same.
pub fn aligning_keeps<C: ContainerBytes + Storage>(
    alloc: Global,
    stash: &mut Stash<C, Vec<u8>>,
    words: &[u64],
) -> bool
    requires representable { IsTrue (representable C.format) }
    requires sound { IsSound C.format (stash_content stash.old) }
    ensures { IsSound C.format (stash_content stash.new) }
{
    let held = variant(stash);
    let made = stash.make_aligned(alloc).map(|_| ());
    let kept = match made {
        Ok(()) => variant(stash) == 2,
        Err(error) => error == EncodeError::Memory && variant(stash) == held,
    };
    kept && writes(stash, words)
}

/// Tests that the bytes are loaded in place, or the stash stays the same.
pub fn loading_keeps<C: ContainerBytes + Drop>(stash: &mut Stash<C, Vec<u8>>, words: &[u64]) -> bool
    requires { IsTrue (representable C.format) }
{
    let held = variant(stash);
    let made = stash.make_typed().map(|_| ());
    let kept = match made {
        Ok(()) => variant(stash) == 0,
        Err(error) => error == GrowError::Memory && variant(stash) == held,
    };
    kept && writes(stash, words)
}

/// Tests that the words of a column are appended, or the store stays the same.
pub fn encoding_keeps<'a, S: AsBytes<'a>>(alloc: Global, item: &S, words: &[u64]) -> bool
    requires { IsTrue (representable S.format) }
{
    let Ok(mut store) = [1, 2].to_vec(alloc) else {
        return true;
    };
    match encode(&mut store, item) {
        Ok(()) => {
            front(store.as_slice(), 2) == [1, 2].as_slice() && after_two(store.as_slice()) == words
        }
        Err(error) => error == EncodeError::Memory && store.as_slice() == [1, 2].as_slice(),
    }
}

/// Returns the words after the first two.
pub fn after_two(words: &[u64]) -> &[u64] {
    if words.len() >= 2 { &words[2..] } else { words }
}

/// Tests that the element sizes of a type, 8 each, are appended, or the vector stays the same.
pub fn sizes_keep<C: Stored>(sizes: &mut Vec<usize>) -> bool
    requires { IsTrue (representable C.format) }
{
    let before = sizes.len();
    match C::element_sizes(sizes) {
        Ok(()) => sizes.len().saturating_sub(before) == C::slice_count(),
        Err(error) => error == GrowError::Memory && sizes.len() == before,
    }
}

//! All calls on one column, given its words before and after each call.
ghost use Rattle.std.specs.Prelude.{All, IsTrue};
ghost use Rattle.columnar_base.specs.Format.{IsSound, representable};
ghost use Rattle.columnar_bytes.specs.Stashes.{stash_content};
ghost use Rattle.columnar_bytes.specs.Machine.{IsValid};

use crate::keeps::{
    aligning_keeps, clones_keep, copy_keeps, cut_keeps, encoding_keeps, extension_keeps,
    loading_keeps, push_keeps, push_ref_keeps, room_is_made_or_refused, room_keeps, sizes_keep,
    slice_keeps, tested_copy_keeps, turns_keep, twice,
};
use crate::stashes::{opened, variant, writes};
use crate::stores::bytes_of;
use columnar_bytes::indexed::validate;
use columnar_bytes::stash::{Command, Refusal, Reply, Stash, run};
use columnar_core::bytes::{AsBytes, FromBytes, Stored};
use columnar_core::container::{Borrow, ContainerBytes, ExtendFrom, Storage};
use columnar_core::fault::{EncodeError, GrowError};
use columnar_core::traits::{Item, Len, Push, PushRef};
use std::alloc::Global;

/// The words of a column before and after the calls of a test.
#[derive(Drop)]
pub struct Trial<'a> {
    /// The words of the column, and its number of rows.
    pub before: &'a [u64],
    pub rows: usize,
    /// The words with one more item.
    pub after: &'a [u64],
    /// The words of the source, how many of its rows are copied, the words of the target, and those after the copy.
    pub source: &'a [u64],
    pub taken: usize,
    pub into: &'a [u64],
    pub with_taken: &'a [u64],
}

/// Tests pushes to bytes and to a column.
pub fn both_pushes_keep<T: Item + Copy, C: ContainerBytes + Storage + Push<T>>(
    alloc: Global,
    item: T,
    trial: &Trial<'_>,
) -> bool
    requires representable { IsTrue (representable C.format) }
    requires valid { T.valid item }
{
    let Some(mut stash) = opened::<C>(alloc, trial.before) else {
        return true;
    };
    let Ok(mut typed) = stash.to_typed(alloc) else {
        return true;
    };
    push_keeps(&mut stash, item, trial.before, trial.after)
        && push_keeps(&mut typed, item, trial.before, trial.after)
}

/// Tests pushes of an item by value and by reference, to bytes and to a column.
pub fn pushes_keep<
    'a,
    T: Item + Copy,
    C: ContainerBytes + Storage + Push<T> + Push<&'a T> + PushRef<T>,
>(alloc: Global, item: &'a T, trial: &Trial<'_>) -> bool
    requires representable { IsTrue (representable C.format) }
    requires valid { T.valid item.now }
{
    let Some(mut stash) = opened::<C>(alloc, trial.before) else {
        return true;
    };
    let Ok(mut typed) = stash.to_typed(alloc) else {
        return true;
    };
    both_pushes_keep::<T, C>(alloc, *item, trial)
        && both_pushes_keep::<&'a T, C>(alloc, item, trial)
        && push_ref_keeps(&mut stash, item, trial.before, trial.after)
        && push_ref_keeps(&mut typed, item, trial.before, trial.after)
        && pushes_of_many_keep::<T, C>(alloc, *item, trial)
}

/// Tests extensions of bytes and of a column, and pushes of slices to both.
pub fn pushes_of_many_keep<T: Item + Copy, C: ContainerBytes + Storage + Push<T> + PushRef<T>>(
    alloc: Global,
    item: T,
    trial: &Trial<'_>,
) -> bool
    requires representable { IsTrue (representable C.format) }
    requires valid { T.valid item }
{
    let Some(mut stash) = opened::<C>(alloc, trial.before) else {
        return true;
    };
    let Ok(mut typed) = stash.to_typed(alloc) else {
        return true;
    };
    let Ok(mut other) = stash.to_typed(alloc) else {
        return true;
    };
    let Some(mut bytes) = opened::<C>(alloc, trial.before) else {
        return true;
    };
    let Some(items) = twice(alloc, item) else {
        return true;
    };
    extension_keeps(&mut stash, item, trial.before, trial.after)
        && extension_keeps(&mut typed, item, trial.before, trial.after)
        && slice_keeps(&mut other, items.as_slice(), trial.before, trial.after)
        && slice_keeps(&mut bytes, items.as_slice(), trial.before, trial.after)
}

/// Tests copies of rows, and reserving space for them: in bytes, in a column and in an empty column.
pub fn copies_keep<V: Len + Copy, C: ContainerBytes + Storage + ExtendFrom<V>>(
    alloc: Global,
    source: V,
    trial: &Trial<'_>,
) -> bool
    requires representable { IsTrue (representable C.format) }
    requires source_sound { IsSound V.format (V.content source) }
{
    let Some(mut stash) = opened::<C>(alloc, trial.into) else {
        return true;
    };
    let Ok(mut typed) = stash.to_typed(alloc) else {
        return true;
    };
    let Ok(mut tested) = stash.to_typed(alloc) else {
        return true;
    };
    let Some(mut roomy) = opened::<C>(alloc, trial.into) else {
        return true;
    };
    room_is_made_or_refused::<V, C>(alloc, source)
        && room_keeps(&mut roomy, source, trial.into)
        && room_keeps(&mut typed, source, trial.into)
        && tested_copy_keeps(
            &mut tested,
            source,
            trial.taken,
            trial.into,
            trial.with_taken,
        )
        && copy_keeps(
            &mut stash,
            source,
            trial.taken,
            trial.into,
            trial.with_taken,
        )
        && copy_keeps(
            &mut typed,
            source,
            trial.taken,
            trial.into,
            trial.with_taken,
        )
}

/// Tests loading, copying, aligning, cloning and truncating of bytes and of a column.
pub fn turns_and_clones_keep<C: ContainerBytes + Storage + Clone>(
    alloc: Global,
    trial: &Trial<'_>,
) -> bool
    requires { IsTrue (representable C.format) }
{
    let words = trial.after;
    let Some(mut stash) = opened::<C>(alloc, words) else {
        return true;
    };
    let Ok(mut typed) = stash.to_typed(alloc) else {
        return true;
    };
    turns_keep(alloc, &stash, words)
        && turns_keep(alloc, &typed, words)
        && clones_keep(alloc, &stash, words)
        && clones_keep(alloc, &typed, words)
        && aligning_keeps(alloc, &mut stash, words)
        && turns_keep(alloc, &stash, words)
        && clones_keep(alloc, &stash, words)
        && aligning_keeps(alloc, &mut typed, words)
        && loading_keeps(&mut typed, words)
        && cut_keeps(&mut stash, trial.rows, words, trial.before)
}

/// Tests whether the words break a rule, if there is memory for the test.
pub fn is_refused<C: ContainerBytes + Storage>(alloc: Global, words: &[u64]) -> bool
    requires { IsTrue (representable C.format) }
{
    match bytes_of(alloc, words) {
        Ok(bytes) => validate::<C>(bytes.as_slice()).is_err(),
        Err(_) => false,
    }
}

/// Tests that no store of the test is rejected; otherwise the test would end before the calls under test.
pub fn is_lawful<C: ContainerBytes + Storage>(alloc: Global, trial: &Trial<'_>) -> bool
    requires { IsTrue (representable C.format) }
{
    !is_refused::<C>(alloc, trial.before)
        && !is_refused::<C>(alloc, trial.after)
        && !is_refused::<C>(alloc, trial.source)
        && !is_refused::<C>(alloc, trial.into)
}

/// Tests every call that allocates, except pushes.
pub fn calls_keep<
    'v,
    V: AsBytes<'v> + Len + Copy,
    C: ContainerBytes + Storage + ExtendFrom<V> + Clone,
>(alloc: Global, source: V, trial: &Trial<'_>) -> bool
    requires representable { IsTrue (representable C.format) }
    requires source_representable { IsTrue (representable V.format) }
    requires source_sound { IsSound V.format (V.content source) }
{
    copies_keep::<V, C>(alloc, source, trial)
        && turns_and_clones_keep::<C>(alloc, trial)
        && encoding_keeps(alloc, &source, trial.source)
}

/// Tests that the element sizes of a type are appended to a vector without capacity, and to one with capacity for one.
pub fn both_sizes_keep<C: Stored>(alloc: Global) -> bool
    requires { IsTrue (representable C.format) }
{
    let mut sizes = Vec::new(alloc);
    let Ok(mut room) = Vec::with_capacity(alloc, 1) else {
        return true;
    };
    sizes_keep::<C>(&mut sizes) && sizes_keep::<C>(&mut room)
}

/// Tests every call that allocates, except pushes. Copies are made from a stash stored in `source`. No store of the
/// trial is rejected.
pub fn copies_and_turns_keep<'a, C>(
    alloc: Global,
    source: &'a mut Option<Stash<C, Vec<u8>>>,
    trial: &Trial<'_>,
) -> bool
where
    C: ContainerBytes
        + Storage
        + Clone
        + Borrow<'a, Borrowed: FromBytes<'a> + AsBytes<'a>>
        + ExtendFrom<<C as Borrow<'a>>::Borrowed>,
    requires { IsTrue (representable C.format) }
{
    if !is_lawful::<C>(alloc, trial) || !both_sizes_keep::<C>(alloc) {
        return false;
    }
    *source = opened::<C>(alloc, trial.source);
    match &*source {
        Some(stash) => calls_keep::<_, C>(alloc, stash.borrow(), trial),
        None => true,
    }
}

/// Tests every call that allocates: those that copy or create a column, and pushes of an item by value and by
/// reference.
pub fn each_call_keeps<'a, T: Item + Copy, C>(
    alloc: Global,
    item: &'a T,
    source: &'a mut Option<Stash<C, Vec<u8>>>,
    trial: &Trial<'_>,
) -> bool
where
    C: Push<T>
        + Push<&'a T>
        + PushRef<T>
        + ContainerBytes
        + Storage
        + Clone
        + Borrow<'a, Borrowed: FromBytes<'a> + AsBytes<'a>>
        + ExtendFrom<<C as Borrow<'a>>::Borrowed>,
    requires representable { IsTrue (representable C.format) }
    requires valid { T.valid item.now }
{
    copies_and_turns_keep(alloc, source, trial) && pushes_keep::<T, C>(alloc, item, trial)
}

/// Tests that a run of one command executes it, or reports an allocation failure and leaves the stash the same.
pub fn run_keeps<T: Item, V: Len + Copy, C: ContainerBytes + Storage + PushRef<T> + ExtendFrom<V>>(
    alloc: Global,
    stash: Stash<C, Vec<u8>>,
    source: V,
    commands: &[Command<T>],
    before: &[u64],
    after: &[u64],
) -> bool
    requires representable { IsTrue (representable C.format) }
    requires sound { IsSound C.format (stash_content stash) }
    requires source_sound { IsSound V.format (V.content source) }
    requires valid { All (IsValid T.valid) commands.now }
{
    let held = variant(&stash);
    let (stash, replies) = run(alloc, stash, source, commands);
    let kept = variant(&stash) == held && writes(&stash, before);
    match replies {
        Err(error) => error == GrowError::Memory && kept,
        Ok(replies) => match replies.as_slice().first() {
            Some(Reply::Done) => writes(&stash, after),
            Some(Reply::Refused(Refusal::Grow(GrowError::Memory))) => kept,
            Some(Reply::Refused(Refusal::Encode(EncodeError::Memory))) => kept,
            _ => false,
        },
    }
}

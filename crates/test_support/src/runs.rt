//! Runs of commands on stashes that start without rows.
ghost use Rattle.std.specs.Prelude.{All, IsTrue};
ghost use Rattle.columnar_base.specs.Format.{IsSound, representable};
ghost use Rattle.columnar_bytes.specs.Machine.{IsValid};

use crate::stashes::{variant, writes};
use columnar_bytes::stash::{Command, Refusal, Reply, Stash, run};
use columnar_core::container::{ContainerBytes, ExtendFrom, Storage};
use columnar_core::fault::GrowError;
use columnar_core::traits::{Item, Len, PushRef};
use std::alloc::Global;

/// The reply to a command that succeeded.
pub const DONE: Reply = Reply::Done;

/// The reply for rows that do not exist.
pub const RANGE: Reply = Reply::Refused(Refusal::Range);

/// Returns the replies to commands, the variant of the stash afterwards, and whether it then writes these words.
pub fn ran<T: Item, V: Len + Copy, C: ContainerBytes + Storage + PushRef<T> + ExtendFrom<V>>(
    alloc: Global,
    source: V,
    commands: &[Command<T>],
    words: &[u64],
) -> Result<(Vec<Reply>, u8, bool), GrowError>
    requires representable { IsTrue (representable C.format) }
    requires source_sound { IsSound V.format (V.content source) }
    requires valid { All (IsValid T.valid) commands.now }
{
    let (stash, replies) = run(alloc, Stash::<C, Vec<u8>>::empty(alloc), source, commands);
    Ok((replies?, variant(&stash), writes(&stash, words)))
}

/// Tests whether all commands succeed from an empty stash, and whether it then writes these words.
pub fn all_done<T: Item, V: Len + Copy, C: ContainerBytes + Storage + PushRef<T> + ExtendFrom<V>>(
    alloc: Global,
    source: V,
    commands: &[Command<T>],
    words: &[u64],
) -> Result<bool, GrowError>
    requires representable { IsTrue (representable C.format) }
    requires source_sound { IsSound V.format (V.content source) }
    requires valid { All (IsValid T.valid) commands.now }
{
    let (replies, _, written) = ran::<T, V, C>(alloc, source, commands, words)?;
    Ok(written && replies.iter().all(|reply| *reply == DONE))
}

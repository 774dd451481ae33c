// Runs of commands over the rows of another stash.
ghost use Rattle.std.specs.Prelude.{All, IsTrue};
ghost use Rattle.columnar_core.specs.Format.{IsSound, representable};
ghost use Rattle.columnar_bytes.specs.Stashes.{stash_content};
ghost use Rattle.columnar_bytes.specs.Machine.{IsValid};

use columnar::bytes::stash::{Command, Reply, Stash};
use columnar::fault::GrowError;
use columnar::{Borrow, ContainerBytes, ExtendFrom, FromBytes, Item, PushRef, Storage};
use std::alloc::Global;
use test_support::runs::ran;

// Returns the replies to commands, the variant of the stash afterwards, and whether it then writes these words.
pub(super) fn ran_from<'a, T: Item, C>(
    alloc: Global,
    source: &'a Stash<C, Vec<u8>>,
    commands: &[Command<T>],
    words: &[u64],
) -> Result<(Vec<Reply>, u8, bool), GrowError>
where
    C: ContainerBytes
        + Storage
        + PushRef<T>
        + Borrow<'a, Borrowed: FromBytes<'a>>
        + ExtendFrom<<C as Borrow<'a>>::Borrowed>,
    requires representable { IsTrue (representable C.format) }
    requires source_sound { IsSound C.format (stash_content source.now) }
    requires valid { All (IsValid T.valid) commands.now }
{
    ran::<T, _, C>(alloc, source.borrow(), commands, words)
}

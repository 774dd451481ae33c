//! Stashes: opening, writing, reading.
ghost use Rattle.std.specs.Prelude.{◌≡◌, IfSome, IsTrue};
ghost use Rattle.columnar_base.specs.Format.{IsSound, representable};
ghost use Rattle.columnar_bytes.specs.Stashes.{stash_content, variant_of, bytes};

use crate::columns::row_at;
use crate::stores::bytes_of;
use crate::writers::Comparing;
use columnar_bytes::stash::{ByteStore, Stash};
use columnar_core::bytes::{FromBytes, Stored};
use columnar_core::container::{Borrow, ContainerBytes};
use columnar_core::traits::{Item, Len};
use std::alloc::Global;

/// Opens words as a stash, if they are accepted.
pub fn opened<C: Stored>(alloc: Global, words: &[u64]) -> Option<Stash<C, Vec<u8>>>
    requires { IsTrue (representable C.format) }
    ensures sound { IfSome result (λ s. IsSound C.format (stash_content s)) }
    ensures variant { IfSome result (λ s. variant_of s ≡ bytes) }
{
    let bytes = bytes_of(alloc, words).ok()?;
    Stash::try_from_bytes(alloc, bytes).ok()
}

/// Opens the words that a stash writes, if it can be written.
pub fn reopened<C: ContainerBytes, B: ByteStore>(
    alloc: Global,
    stash: &Stash<C, B>,
) -> Option<Stash<C, Vec<u8>>>
    requires { IsTrue (representable C.format) }
    ensures sound { IfSome result (λ s. IsSound C.format (stash_content s)) }
    ensures variant { IfSome result (λ s. variant_of s ≡ bytes) }
{
    let mut bytes = Vec::new(alloc);
    stash.write_bytes(&mut bytes).ok()?;
    Stash::try_from_bytes(alloc, bytes).ok()
}

/// Returns row `index` of a stash, if there is one.
pub fn row_of<'a, C: Stored + Borrow<'a, Borrowed: FromBytes<'a>>, B: ByteStore>(
    stash: &'a Stash<C, B>,
    index: usize,
) -> Option<C::Ref>
    requires { IsSound C.format (stash_content stash.now) }
    ensures { IfSome result C.Ref.valid }
{
    let view = stash.borrow();
    row_at(&view, index)
}

/// Tests whether a stash writes these words.
pub fn writes<C: ContainerBytes, B: ByteStore>(stash: &Stash<C, B>, words: &[u64]) -> bool
    requires { IsTrue (representable C.format) }
{
    let mut comparing = Comparing::new(words);
    stash.write_bytes(&mut comparing).is_ok() && comparing.is_same()
}

/// Returns the variant: 0 a column, 1 opened bytes, 2 aligned bytes.
pub fn variant<C: Stored, B: ByteStore>(stash: &Stash<C, B>) -> u8 {
    match stash {
        Stash::Typed(_) => 0,
        Stash::Bytes(_) => 1,
        Stash::Align(_) => 2,
    }
}

/// Tests whether a stash has exactly these rows.
pub fn has<'a, T, C: Stored + Len + Borrow<'a, Ref = T, Borrowed: FromBytes<'a>>, B: ByteStore>(
    stash: &'a Stash<C, B>,
    rows: &[T],
) -> bool
where
    T: Item + PartialEq + Copy,
    requires { IsSound C.format (stash_content stash.now) }
{
    for i in 0..rows.len() {
        if row_of(stash, i) != Some(rows[i]) {
            return false;
        }
    }
    stash.len() == rows.len()
}

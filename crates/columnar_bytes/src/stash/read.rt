//! Opening, reading and writing a stash.
ghost use Rattle.std.specs.Prelude.{◌≡◌, ◌≢◌, ◌↔◌, ◌*◌, ◌^◌, ◌<◌, ◌≤◌, length, IsTrue, IsNone, IsOk, IfOk, IfSome, IfErr, OnOk, []};
ghost use Rattle.std.specs.Io.KnownBytes.{Appends};
ghost use Rattle.columnar_core.specs.Format.{IsSound, representable, slices_of};
ghost use Rattle.columnar_core.specs.Frame.{framed_slices};
ghost use Rattle.columnar_core.specs.Words.{words, store_bytes};
ghost use Rattle.columnar_bytes.specs.Accepted.{Accepts, IsFirstFault};
ghost use Rattle.columnar_bytes.specs.Written.{IsLeftOf};

use super::{ByteStore, Checked, Stash};
use crate::indexed::{length_in_bytes, validate, write};
use columnar_core::bytes::{AsBytes, FromBytes, Stored};
use columnar_core::container::{Borrow, ContainerBytes, Storage};
use columnar_core::fault::{StoreFault, WriteFault};
use columnar_core::owned::Owned;
use columnar_core::store::DecodedStore;
use columnar_core::writer::WriteBytes;
use std::alloc::Global;
use std::marker::PhantomData;

impl<C: Stored, B: ByteStore> Checked<C, B> {
    ghost use Rattle.columnar_bytes.specs.Stashes.{checked_bytes};

    // Returns a view of the bytes.
    fn view<'a>(&'a self) -> <C as Borrow<'a>>::Borrowed
    where
        C: Borrow<'a, Borrowed: FromBytes<'a>>,
        ensures { C.Borrowed.content result ≡ C.format.build (framed_slices (checked_bytes self.now)) }
    {
        let mut offset = 0;
        <C as Borrow<'a>>::Borrowed::from_store(&DecodedStore::new(self.bytes()), &mut offset)
    }
}

impl<C: Stored + Storage, B: ByteStore> Stash<C, B> {
    ghost use Rattle.columnar_bytes.specs.Stashes.{stash_content, variant_of, typed};

    /// Makes a stash of a column without rows.
    pub fn empty(alloc: Global) -> Self
        ensures variant { variant_of result ≡ typed }
        ensures sound { IsSound C.format (stash_content result) }
        ensures rows { C.format.rows (stash_content result) ≡ [] }
    {
        Stash::Typed(C::empty(alloc))
    }
}

impl<C: Stored, B: ByteStore> Stash<C, B> {
    ghost use Rattle.columnar_bytes.specs.Stashes.{stash_content, variant_of, bytes, HoldsBytes};

    /// Opens the bytes if and only if they are accepted for columns of type `C`; allocates nothing.
    ///
    /// # Requires
    /// A representable type.
    ///
    /// # Errors
    /// The first broken rule and its slice. The bytes are dropped.
    pub fn try_from_bytes(alloc: Global, store: B) -> Result<Self, StoreFault>
        requires { IsTrue (representable C.format) }
        ensures exact { IsOk result ↔ Accepts C.format (B.bytes store) }
        ensures fault { IfErr result (IsFirstFault C.format (B.bytes store)) }
        ensures variant { IfOk result (λ s. variant_of s ≡ bytes) }
        ensures bytes { IfOk result (λ s. HoldsBytes s (B.bytes store)) }
        ensures sound { IfOk result (λ s. IsSound C.format (stash_content s)) }
    {
        validate::<C>(store.as_slice())?;
        Ok(Stash::Bytes(Checked {
            alloc,
            store,
            of: PhantomData,
        }))
    }

    /// Returns a view of the column, or of the bytes. It never fails, and allocates nothing.
    pub fn borrow<'a>(&'a self) -> <C as Borrow<'a>>::Borrowed
    where
        C: Borrow<'a, Borrowed: FromBytes<'a>>,
        ensures content { C.Borrowed.content result ≡ stash_content self.now }
        ensures sound { IsSound C.format (stash_content self.now) → IsSound C.Borrowed.format (C.Borrowed.content result) }
    {
        match self {
            Stash::Typed(column) => column.borrow(),
            Stash::Bytes(checked) => checked.view(),
            Stash::Align(checked) => checked.view(),
        }
    }
}

// Writes the bytes unchanged.
fn send<W: WriteBytes>(writer: &mut W, bytes: &[u8]) -> Result<(), WriteFault<W::Error>>
where
    W::Error: Drop,
    ensures ok { OnOk result (Appends (W.contents writer.old) (W.contents writer.new) bytes.now) }
    ensures counted { OnOk result (length bytes.now < 2 ^ 64) }
    ensures err { IfErr result (IsLeftOf (W.contents writer.old) (W.contents writer.new) bytes.now) }
{
    match writer.write_all(bytes) {
        Ok(()) => Ok(()),
        Err(error) => Err(WriteFault::Writer(error)),
    }
}

impl<C: ContainerBytes, B: ByteStore> Stash<C, B> {
    ghost use Rattle.columnar_bytes.specs.Stashes.{stash_content, variant_of, bytes, written_bytes};

    /// Returns the length of the view's encoding in bytes, or `None` if and only if it exceeds 2^64 - 1.
    ///
    /// # Requires
    /// A representable type.
    pub fn length_in_bytes(&self) -> Option<usize>
        requires { IsTrue (representable C.format) }
        ensures value { IfSome result (λ n. n ≡ 8 * length (words (slices_of (stash_content self.now)))) }
        ensures none { IsNone result ↔ (2 ^ 64 ≤ 8 * length (words (slices_of (stash_content self.now)))) }
    {
        match self {
            Stash::Typed(column) => length_in_bytes(&Owned(column)),
            Stash::Bytes(checked) => length_in_bytes(&checked.framed()),
            Stash::Align(checked) => length_in_bytes(&checked.framed()),
        }
    }

    /// Writes the column's encoding, or the bytes unchanged.
    ///
    /// # Requires
    /// A representable type.
    ///
    /// # Errors
    /// `Length` if and only if the encoding would exceed 2^64 - 1 bytes; then nothing was written. `Writer` if the
    /// writer failed; then a beginning of the bytes was written, but not all.
    pub fn write_bytes<W: WriteBytes>(&self, writer: &mut W) -> Result<(), WriteFault<W::Error>>
    where
        W::Error: Drop,
        requires { IsTrue (representable C.format) }
        ensures ok { OnOk result (Appends (W.contents writer.old) (W.contents writer.new) (written_bytes self.now)) }
        ensures counted { OnOk result (length (written_bytes self.now) < 2 ^ 64) }
        ensures encoded { variant_of self.now ≢ bytes → written_bytes self.now ≡ store_bytes (slices_of (stash_content self.now)) }
        ensures err { IfErr result (IsLeftOf (W.contents writer.old) (W.contents writer.new) (written_bytes self.now)) }
        ensures accepted { OnOk result (IsSound C.format (stash_content self.now) → Accepts C.format (written_bytes self.now)) }
        ensures content { OnOk result (IsSound C.format (stash_content self.now) → C.format.build (framed_slices (written_bytes self.now)) ≡ stash_content self.now) }
    {
        match self {
            Stash::Typed(column) => write(writer, &Owned(column)),
            Stash::Bytes(checked) => send(writer, checked.bytes()),
            Stash::Align(checked) => send(writer, checked.bytes()),
        }
    }
}

impl<'a, C: Stored + Borrow<'a, Borrowed: FromBytes<'a>>, B: ByteStore> Borrow<'a> for Stash<C, B> {
    type Ref = C::Ref;

    type Borrowed = C::Borrowed;

    type Parts = C::Parts;

    ghost same_format = { C.same_format };

    fn borrow(&'a self) -> C::Borrowed {
        Stash::borrow(self)
    }
}

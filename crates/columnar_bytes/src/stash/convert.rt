//! Converting a stash to another variant, with the same rows.
ghost use Rattle.std.specs.Prelude.{◌≡◌, ◌≢◌, ◌↔◌, ◌*◌, ◌^◌, ◌<◌, ◌≤◌, length, Err, IsTrue, IfOk, IfErr, OnOk, OnErr, MatchResult};
ghost use Rattle.columnar_core.specs.Format.{IsSound, representable, slices_of};
ghost use Rattle.columnar_core.specs.Frame.{framed_slices};
ghost use Rattle.columnar_core.specs.Words.{words, store_bytes};
ghost use Rattle.columnar_bytes.specs.Accepted.{Accepted};

use super::{AlignedBytes, ByteStore, Checked, Stash};
use crate::indexed::{length_in_bytes, write};
use columnar_core::bytes::{AsBytes, Stored};
use columnar_core::container::{ContainerBytes, Storage};
use columnar_core::fault::{EncodeError, GrowError};
use columnar_core::owned::Owned;
use columnar_core::store::DecodedStore;
use std::alloc::Global;
use std::marker::PhantomData;

impl<C: ContainerBytes, B: ByteStore> Checked<C, B> {
    ghost use Rattle.columnar_bytes.specs.Stashes.{checked_bytes};

    // Loads the column from the bytes.
    pub(super) fn load(&self, alloc: Global) -> Result<C, GrowError>
        ensures content { IfOk result (λ c. C.content c ≡ C.format.build (framed_slices (checked_bytes self.now))) }
        ensures sound { IfOk result (λ c. IsSound C.format (C.content c)) }
        ensures memory { IfErr result (λ e. e ≡ GrowError.Memory) }
    {
        C::load(alloc, &DecodedStore::new(self.bytes()), 0)
    }
}

impl<C: ContainerBytes, B: ByteStore> Stash<C, B> {
    ghost use Rattle.columnar_bytes.specs.Stashes.{stash_content, variant_of, typed};

    // Loads the column from the bytes, and leaves the stash as it is.
    pub(super) fn aside(&self) -> Result<C, GrowError>
        requires bytes { variant_of self.now ≢ typed }
        ensures content { IfOk result (λ c. C.content c ≡ stash_content self.now) }
        ensures sound { IfOk result (λ c. IsSound C.format (C.content c)) }
        ensures memory { IfErr result (λ e. e ≡ GrowError.Memory) }
    {
        match self {
            Stash::Bytes(checked) => checked.load(checked.alloc),
            Stash::Align(checked) => checked.load(checked.alloc),
            Stash::Typed(_) => unreachable!(),
        }
    }
}

impl<C: Stored, B: ByteStore> Checked<C, B> {
    ghost use Rattle.columnar_bytes.specs.Stashes.{checked_bytes};

    // Wraps bytes that are accepted.
    pub(super) fn accept(alloc: Global, store: B) -> Self
        requires accepted { Accepted C.format (B.bytes store) }
        requires representable { IsTrue (representable C.format) }
        ensures { checked_bytes result ≡ B.bytes store }
    {
        Checked {
            alloc,
            store,
            of: PhantomData,
        }
    }
}

// Returns the bytes of the item's encoding.
fn encoding<'a, S: AsBytes<'a>>(alloc: Global, item: &S) -> Result<Vec<u8>, EncodeError>
    requires { IsTrue (representable S.format) }
    ensures bytes { IfOk result (λ v. v.items ≡ store_bytes (slices_of (S.content item.now))) }
    ensures counted { OnOk result (8 * length (words (slices_of (S.content item.now))) < 2 ^ 64) }
    ensures length { (result ≡ Err EncodeError.Length) ↔ (2 ^ 64 ≤ 8 * length (words (slices_of (S.content item.now)))) }
{
    let Some(count) = length_in_bytes(item) else {
        return Err(EncodeError::Length);
    };
    let mut bytes = Vec::new(alloc);
    if bytes.reserve(count).is_err() {
        return Err(EncodeError::Memory);
    }
    if write(&mut bytes, item).is_err() {
        return Err(EncodeError::Memory);
    }
    Ok(bytes)
}

impl<C: ContainerBytes + Storage, B: ByteStore> Stash<C, B> {
    ghost use Rattle.columnar_bytes.specs.Stashes.{stash_content, variant_of, typed};

    /// Makes a stash of a column with the same rows and slices.
    ///
    /// # Errors
    /// `Memory`, and no other error.
    pub fn to_typed(&self, alloc: Global) -> Result<Self, GrowError>
        ensures variant { IfOk result (λ s. variant_of s ≡ typed) }
        ensures content { IfOk result (λ s. stash_content s ≡ stash_content self.now) }
        ensures memory { IfErr result (λ e. e ≡ GrowError.Memory) }
    {
        let column = self.loaded(alloc)?;
        Ok(Stash::Typed(column))
    }

    // Returns a column with the same rows and slices.
    fn loaded(&self, alloc: Global) -> Result<C, GrowError>
        ensures content { IfOk result (λ c. C.content c ≡ stash_content self.now) }
        ensures memory { IfErr result (λ e. e ≡ GrowError.Memory) }
    {
        match self {
            Stash::Typed(column) => column.duplicate(alloc),
            Stash::Bytes(checked) => checked.load(alloc),
            Stash::Align(checked) => checked.load(alloc),
        }
    }
}

impl<C: ContainerBytes + Drop, B: ByteStore> Stash<C, B> {
    ghost use Rattle.std.specs.Borrow.{sem};
    ghost use Rattle.columnar_bytes.specs.Stashes.{stash_content, variant_of, typed};
    ghost use Rattle.columnar_bytes.specs.StashLends.{lends_typed};

    /// Lends the column for writing; bytes are first loaded into a column with the same rows and slices. The stash
    /// keeps what the caller leaves there.
    ///
    /// # Errors
    /// `Memory`, and no other error; the stash stays.
    pub fn make_typed(&mut self) -> Result<&mut C, GrowError>
        ensures* writes_back { sem 𝓛 (lends_typed C.row B.row C.Column B.ByteStore self.entry result) }
        ensures content { IfOk result (λ c. C.content c.now ≡ stash_content self.old) }
        ensures memory { IfErr result (λ e. e ≡ GrowError.Memory) }
    {
        self.load_in_place()?;
        match self {
            Stash::Typed(column) => Ok(column),
            Stash::Bytes(_) => unreachable!(),
            Stash::Align(_) => unreachable!(),
        }
    }

    // Converts bytes to a column.
    pub(super) fn load_in_place(&mut self) -> Result<(), GrowError>
        ensures variant { OnOk result (variant_of self.new ≡ typed) }
        ensures content { stash_content self.new ≡ stash_content self.old }
        ensures stays { OnErr result (self.new ≡ self.old) }
        ensures bytes { OnErr result (variant_of self.old ≢ typed) }
        ensures memory { IfErr result (λ e. e ≡ GrowError.Memory) }
    {
        if let Stash::Typed(_) = self {
            return Ok(());
        }
        let column = self.aside()?;
        *self = Stash::Typed(column);
        Ok(())
    }
}

impl<C: ContainerBytes, B: ByteStore> Stash<C, B> {
    ghost use Rattle.columnar_bytes.specs.Stashes.{stash_content, variant_of, aligned, HoldsBytes, checked_bytes};

    // Returns the bytes of the view's encoding.
    fn encoded(&self, alloc: Global) -> Result<Vec<u8>, EncodeError>
        requires { IsTrue (representable C.format) }
        ensures bytes { IfOk result (λ v. v.items ≡ store_bytes (slices_of (stash_content self.now))) }
        ensures counted { OnOk result (8 * length (words (slices_of (stash_content self.now))) < 2 ^ 64) }
        ensures length { (result ≡ Err EncodeError.Length) ↔ (2 ^ 64 ≤ 8 * length (words (slices_of (stash_content self.now)))) }
    {
        match self {
            Stash::Typed(column) => encoding(alloc, &Owned(column)),
            Stash::Bytes(checked) => encoding(alloc, &checked.framed()),
            Stash::Align(checked) => encoding(alloc, &checked.framed()),
        }
    }

    /// Makes a stash of the bytes of the encoding, with the same rows. They have zeros between the slices and nothing
    /// after them.
    ///
    /// # Requires
    /// A representable type, and a well-formed stash.
    ///
    /// # Errors
    /// `Length` if and only if the encoding would exceed 2^64 - 1 bytes, or `Memory`.
    pub fn to_aligned(&self, alloc: Global) -> Result<Self, EncodeError>
        requires representable { IsTrue (representable C.format) }
        requires sound { IsSound C.format (stash_content self.now) }
        ensures variant { IfOk result (λ s. variant_of s ≡ aligned) }
        ensures bytes { IfOk result (λ s. HoldsBytes s (store_bytes (slices_of (stash_content self.now)))) }
        ensures content { IfOk result (λ s. stash_content s ≡ stash_content self.now) }
        ensures length { (result ≡ Err EncodeError.Length) ↔ (2 ^ 64 ≤ 8 * length (words (slices_of (stash_content self.now)))) }
    {
        let checked = self.aligned(alloc)?;
        Ok(Stash::Align(checked))
    }

    // Returns the bytes of the encoding, shared.
    fn aligned(&self, alloc: Global) -> Result<Checked<C, AlignedBytes>, EncodeError>
        requires representable { IsTrue (representable C.format) }
        requires sound { IsSound C.format (stash_content self.now) }
        ensures bytes { IfOk result (λ k. checked_bytes k ≡ store_bytes (slices_of (stash_content self.now))) }
        ensures content { IfOk result (λ k. C.format.build (framed_slices (checked_bytes k)) ≡ stash_content self.now) }
        ensures counted { OnOk result (8 * length (words (slices_of (stash_content self.now))) < 2 ^ 64) }
        ensures length { (result ≡ Err EncodeError.Length) ↔ (2 ^ 64 ≤ 8 * length (words (slices_of (stash_content self.now)))) }
    {
        let bytes = self.encoded(alloc)?;
        match AlignedBytes::share(bytes) {
            Ok(store) => Ok(Checked::accept(alloc, store)),
            Err(_) => Err(EncodeError::Memory),
        }
    }
}

impl<C: ContainerBytes + Drop, B: ByteStore> Stash<C, B> {
    ghost use Rattle.std.specs.Borrow.{sem};
    ghost use Rattle.columnar_bytes.specs.Stashes.{stash_content, variant_of, aligned, HoldsBytes, checked_bytes};
    ghost use Rattle.columnar_bytes.specs.StashLends.{ends_as};
    ghost use Rattle.columnar_bytes.specs.declared.stash.Stash.TheVariants.{Align};

    /// Converts the stash to the bytes of its encoding, with the same rows, and lends them. They have zeros between the
    /// slices and nothing after them. If the variant is `Align`, it keeps them and never fails.
    ///
    /// # Requires
    /// A representable type, and a well-formed stash.
    ///
    /// # Errors
    /// `Length` if and only if the encoding would exceed 2^64 - 1 bytes, or `Memory`. The stash stays.
    pub fn make_aligned(&mut self, alloc: Global) -> Result<&Checked<C, AlignedBytes>, EncodeError>
        requires representable { IsTrue (representable C.format) }
        requires sound { IsSound C.format (stash_content self.old) }
        ensures* held { sem 𝓛 (ends_as C.row B.row C.Column B.ByteStore self.entry (λ n. MatchResult result (λ r. n ≡ Align r.now) (λ _. n ≡ self.old))) }
        ensures bytes { IfOk result (λ r. checked_bytes r.now ≡ store_bytes (slices_of (stash_content self.old))) }
        ensures kept { IfOk result (λ r. variant_of self.old ≡ aligned → self.old ≡ Align r.now) }
        ensures content { IfOk result (λ r. C.format.build (framed_slices (checked_bytes r.now)) ≡ stash_content self.old) }
        ensures done { OnErr result (variant_of self.old ≢ aligned) }
        ensures length { (result ≡ Err EncodeError.Length) ↔ (2 ^ 64 ≤ 8 * length (words (slices_of (stash_content self.old)))) }
    {
        self.align_in_place(alloc)?;
        match self {
            Stash::Align(checked) => Ok(checked),
            Stash::Typed(_) => unreachable!(),
            Stash::Bytes(_) => unreachable!(),
        }
    }

    // Converts the stash to the bytes of its encoding, and keeps aligned bytes.
    pub(super) fn align_in_place(&mut self, alloc: Global) -> Result<(), EncodeError>
        requires representable { IsTrue (representable C.format) }
        requires sound { IsSound C.format (stash_content self.old) }
        ensures variant { OnOk result (variant_of self.new ≡ aligned) }
        ensures bytes { OnOk result (HoldsBytes self.new (store_bytes (slices_of (stash_content self.old)))) }
        ensures counted { OnOk result (8 * length (words (slices_of (stash_content self.old))) < 2 ^ 64) }
        ensures kept { variant_of self.old ≡ aligned → self.new ≡ self.old }
        ensures content { stash_content self.new ≡ stash_content self.old }
        ensures stays { OnErr result (self.new ≡ self.old) }
        ensures done { OnErr result (variant_of self.old ≢ aligned) }
        ensures length { (result ≡ Err EncodeError.Length) ↔ (2 ^ 64 ≤ 8 * length (words (slices_of (stash_content self.old)))) }
    {
        if let Stash::Align(_) = self {
            return Ok(());
        }
        let checked = self.aligned(alloc)?;
        *self = Stash::Align(checked);
        Ok(())
    }
}

impl<C: ContainerBytes + Drop> Stash<C, Vec<u8>> {
    ghost use Rattle.columnar_bytes.specs.Stashes.{stash_content, variant_of, bytes, HoldsBytes};

    // Writes the stash to new bytes and opens them.
    pub(super) fn reopen(&mut self, alloc: Global) -> Result<(), EncodeError>
        requires representable { IsTrue (representable C.format) }
        requires sound { IsSound C.format (stash_content self.old) }
        ensures variant { OnOk result (variant_of self.new ≡ bytes) }
        ensures bytes { OnOk result (HoldsBytes self.new (store_bytes (slices_of (stash_content self.old)))) }
        ensures counted { OnOk result (8 * length (words (slices_of (stash_content self.old))) < 2 ^ 64) }
        ensures content { stash_content self.new ≡ stash_content self.old }
        ensures stays { OnErr result (self.new ≡ self.old) }
        ensures length { (result ≡ Err EncodeError.Length) ↔ (2 ^ 64 ≤ 8 * length (words (slices_of (stash_content self.old)))) }
    {
        let store = self.encoded(alloc)?;
        let checked = Checked::accept(alloc, store);
        *self = Stash::Bytes(checked);
        Ok(())
    }
}

//! A column, or bytes that were accepted as one.
ghost use Rattle.std.specs.Prelude.{◌≡◌, ℕ, length, List, IfOk, IsTrue};
ghost use Rattle.columnar_core.specs.Format.{representable};
ghost use Rattle.columnar_core.specs.Frame.{framed_slices};
ghost use Rattle.columnar_bytes.specs.Accepted.{Accepted};

mod aligned;
mod clone;
mod commands;
mod convert;
mod either;
mod exact;
mod framed;
mod grow;
mod read;

pub use aligned::AlignedBytes;
use columnar_core::bytes::Stored;
use columnar_core::store::DecodedStore;
use columnar_core::traits::{Column, Len};
pub use commands::{Command, Refusal, Reply, run};
pub use exact::ExactFault;
use std::alloc::{AllocError, Global};
use std::marker::PhantomData;
use std::ops::DerefSlice;
use std::rc::RcSlice;

/// A value that holds bytes, equal at each access.
pub trait ByteStore: Drop {
    // the bytes
    ghost bytes: { Self → List ℕ };

    /// Returns the bytes.
    fn as_slice(&self) -> &[u8]
        ensures { result.now ≡ bytes self.now };

    /// Copies the value: the copy holds the same bytes.
    ///
    /// # Errors
    /// `AllocError` if an allocation fails.
    fn clone_store(&self) -> Result<Self, AllocError>
        ensures { IfOk result (λ s. bytes s ≡ bytes self.now) };
}

impl ByteStore for Vec<u8> {
    ghost bytes = { λ v. v.items };

    fn as_slice(&self) -> &[u8] {
        Vec::as_slice(self)
    }

    fn clone_store(&self) -> Result<Self, AllocError> {
        Vec::from_slice(*self.allocator(), Vec::as_slice(self))
    }
}

impl<'a> ByteStore for &'a [u8] {
    ghost bytes = { λ s. s.now };

    fn as_slice(&self) -> &[u8] {
        *self
    }

    fn clone_store(&self) -> Result<Self, AllocError> {
        Ok(*self)
    }
}

impl ByteStore for RcSlice<u8> {
    ghost use Rattle.std.specs.Rc.{rc_slice_items};

    ghost bytes = { rc_slice_items };

    fn as_slice(&self) -> &[u8] {
        DerefSlice::deref(self)
    }

    fn clone_store(&self) -> Result<Self, AllocError> {
        self.clone()
    }
}

/// Bytes that were accepted for columns of type `C`. Only a `Stash` makes them.
#[derive(Drop)]
pub struct Checked<C: Stored, B: ByteStore> {
    alloc: Global,
    store: B,
    of: PhantomData<C>,
    ghost accepted: { Accepted C.format (B.bytes store) },
    ghost representable: { IsTrue (representable C.format) },
}

impl<C: Stored, B: ByteStore> Checked<C, B> {
    ghost use Rattle.columnar_bytes.specs.Stashes.{checked_bytes};

    /// Returns the bytes.
    pub fn bytes(&self) -> &[u8]
        ensures { result.now ≡ checked_bytes self.now }
    {
        self.store.as_slice()
    }

    // Returns the number of rows of the bytes.
    fn rows(&self) -> usize
        ensures { result ≡ length (C.format.rows (C.format.build (framed_slices (checked_bytes self.now)))) }
    {
        C::rows_in(&DecodedStore::new(self.bytes()), 0)
    }
}

/// A column, or bytes that were accepted as one.
#[derive(Drop)]
pub enum Stash<C: Stored, B: ByteStore> {
    /// A column.
    Typed(C),
    /// Accepted bytes.
    Bytes(Checked<C, B>),
    /// The bytes of an encoding: zeros between the slices, and nothing after them.
    Align(Checked<C, AlignedBytes>),
}

impl<C: Stored, B: ByteStore> Column for Stash<C, B> {
    ghost use Rattle.columnar_bytes.specs.Stashes.{stash_content, stash_room};

    ghost format = { C.format };

    ghost content = { stash_content };

    ghost room = { stash_room };
}

impl<C: Stored + Len, B: ByteStore> Len for Stash<C, B> {
    fn len(&self) -> usize {
        match self {
            Stash::Typed(column) => column.len(),
            Stash::Bytes(checked) => checked.rows(),
            Stash::Align(checked) => checked.rows(),
        }
    }
}

//! Bytes that hold one store and nothing after it.
ghost use Rattle.std.specs.Prelude.{◌≡◌, ◌<◌, ◌↔◌, length, IsTrue, IsOk, IfOk, IfErr};
ghost use Rattle.columnar_core.specs.Format.{IsSound, representable};
ghost use Rattle.columnar_core.specs.Frame.{IsStore};
ghost use Rattle.columnar_bytes.specs.Accepted.{Accepts};
ghost use Rattle.columnar_bytes.specs.Exact.{IsExactFault};
ghost use Rattle.columnar_bytes.specs.Streams.{IsOneStore, store_end};

use super::{ByteStore, Checked, Stash};
use crate::indexed::validate;
use columnar_core::bytes::Stored;
use columnar_core::fault::StoreFault;
use columnar_core::store::{round_up, word_in_bytes};
use std::alloc::Global;
use std::marker::PhantomData;
use thiserror::Error;

/// Why bytes are not a store of a type, or not only that store.
#[derive(Clone, Copy, Debug, PartialEq, Eq, Error)]
pub enum ExactFault {
    /// The bytes are not accepted.
    #[error("{0}")]
    Store(StoreFault),
    /// The bytes are accepted, and continue after the last slice, from this byte on.
    #[error("more bytes follow the last slice, from byte {0} on")]
    After(usize),
}

// Returns where the last slice ends, rounded up to words.
#[tactic(auto, using(crate::specs::ExactLaws::last_of))]
fn end_of_store(bytes: &[u8]) -> usize
    requires { IsStore bytes.now }
    ensures { result ≡ store_end bytes.now }
{
    let table = word_in_bytes(bytes, 0) as usize;
    round_up(word_in_bytes(bytes, table / 8 - 1) as usize)
}

impl<C: Stored, B: ByteStore> Stash<C, B> {
    ghost use Rattle.columnar_bytes.specs.Stashes.{stash_content, variant_of, bytes, HoldsBytes};

    /// Opens the bytes as `try_from_bytes`, if nothing follows the last slice and its padding; allocates nothing.
    ///
    /// # Requires
    /// A representable type.
    ///
    /// # Errors
    /// `Store` as `try_from_bytes`; `After` with the first byte after the last slice and its padding. The bytes are
    /// dropped.
    pub fn try_from_exact(alloc: Global, store: B) -> Result<Self, ExactFault>
        requires { IsTrue (representable C.format) }
        ensures exact { IsOk result ↔ (Accepts C.format (B.bytes store) × IsOneStore (B.bytes store)) }
        ensures fault { IfErr result (IsExactFault C.format (B.bytes store)) }
        ensures variant { IfOk result (λ s. variant_of s ≡ bytes) }
        ensures bytes { IfOk result (λ s. HoldsBytes s (B.bytes store)) }
        ensures sound { IfOk result (λ s. IsSound C.format (stash_content s)) }
    {
        match validate::<C>(store.as_slice()) {
            Ok(()) => {}
            Err(fault) => return Err(ExactFault::Store(fault)),
        }
        let end = end_of_store(store.as_slice());
        if end < store.as_slice().len() {
            return Err(ExactFault::After(end));
        }
        Ok(Stash::Bytes(Checked {
            alloc,
            store,
            of: PhantomData,
        }))
    }
}

//! Stores of a type or of its earlier form.
ghost use Rattle.std.specs.Prelude.{◌≡◌, ◌+◌, ◌*◌, ◌≤◌, ◌↔◌, ℕ, length, List, IsTrue, IfOk, IfErr, IsOk, true, false};
ghost use Rattle.columnar_core.specs.Bytes.{word};
ghost use Rattle.columnar_core.specs.Earlier.{IsMadeOf, IsTrueOfNew};
ghost use Rattle.columnar_core.specs.Format.{IsSound, representable};
ghost use Rattle.columnar_core.specs.Frame.{framed_slices};
ghost use Rattle.columnar_bytes.specs.Accepted.{Accepts};
ghost use Rattle.columnar_bytes.specs.Either.{IfStore, IfGrow, NamesOld, IsFaultOfNamed};

use super::{ByteStore, Stash};
use crate::indexed::validate;
use columnar_core::bytes::Stored;
use columnar_core::container::ContainerBytes;
use columnar_core::earlier::Earlier;
use columnar_core::fault::{EitherFault, GrowError, StoreFault};
use columnar_core::store::{DecodedStore, word_in_bytes};
use std::alloc::Global;

// Returns whether the first word gives the number of slices of the earlier form, and not that of the type.
fn names_old<C: Earlier + Stored>(bytes: &[u8]) -> bool
    requires new { IsTrue (representable C.format) }
    requires old { IsTrue (representable C.Old.format) }
    ensures named { result ≡ true → NamesOld C.format C.Old.format bytes.now }
    ensures unnamed { result ≡ false → NamesOld C.format C.Old.format bytes.now → ⊥ }
    ensures other { result ≡ false → 8 ≤ length bytes.now → word bytes.now 0 ≡ 8 * (C.Old.format.count + 1) → C.Old.format.count ≡ C.format.count }
{
    let old = C::Old::slice_count();
    if old == C::slice_count() {
        return false;
    }
    if bytes.len() < 8 {
        return false;
    }
    word_in_bytes(bytes, 0) == 8 * (old as u64 + 1)
}

// Builds a column from the rows of bytes that name the earlier form, if they are accepted for it.
fn open_old<C: Earlier>(alloc: Global, bytes: &[u8]) -> Result<C, EitherFault>
    requires old { IsTrue (representable C.Old.format) }
    requires named { NamesOld C.format C.Old.format bytes.now }
    ensures ok { IfOk result (λ c. Accepts C.Old.format bytes.now × IsMadeOf C.Old.format C.format (C.Old.format.build (framed_slices bytes.now)) (C.content c)) }
    ensures store { IfStore result (λ _. Accepts C.Old.format bytes.now → ⊥) }
    ensures fault { IfStore result (IsFaultOfNamed C.format C.Old.format bytes.now) }
    ensures grow { IfGrow result (λ e. Accepts C.Old.format bytes.now × IsTrueOfNew e C.format (C.Old.format.rows (C.Old.format.build (framed_slices bytes.now)))) }
{
    match validate::<C::Old>(bytes) {
        Ok(()) => {}
        Err(fault) => return Err(EitherFault::Store(fault)),
    }
    match C::Old::load(alloc, &DecodedStore::new(bytes), 0) {
        Ok(old) => made_of::<C>(alloc, old),
        Err(error) => grown::<C>(Err(error)),
    }
}

// Passes on a built column, or says why it could not be built.
fn grown<C: Sized>(made: Result<C, GrowError>) -> Result<C, EitherFault>
    ensures ok { IfOk made (λ c. result ≡ Ok c) }
    ensures grow { IfErr made (λ e. result ≡ Err (EitherFault.Grow e)) }
{
    match made {
        Ok(column) => Ok(column),
        Err(error) => Err(EitherFault::Grow(error)),
    }
}

// Builds a column from one of the earlier form.
fn made_of<C: Earlier>(alloc: Global, old: C::Old) -> Result<C, EitherFault>
    requires { IsSound C.Old.format (C.Old.content old) }
    ensures ok { IfOk result (λ c. IsMadeOf C.Old.format C.format (C.Old.content old) (C.content c)) }
    ensures store { IfStore result (λ e. ⊥) }
    ensures grow { IfGrow result (λ e. IsTrueOfNew e C.format (C.Old.format.rows (C.Old.content old))) }
{
    grown(C::from_old(alloc, old))
}

impl<C: Earlier + Stored, B: ByteStore> Stash<C, B> {
    ghost use Rattle.columnar_bytes.specs.Stashes.{stash_content, HoldsBytes};
    ghost use Rattle.columnar_bytes.specs.Either.{Either, Opened, IsStoreFault};

    /// Opens the bytes as `try_from_bytes`, if they are accepted for columns of type `C`. If they are accepted only for
    /// its earlier form, builds a column with the same rows in the same order.
    ///
    /// # Requires
    /// Representable types, of `C` and of its earlier form.
    ///
    /// # Errors
    /// `Store` if and only if neither form accepts the bytes; `Grow` only if just the earlier form accepts them, and
    /// the column could not be built. The bytes are dropped.
    pub fn try_from_either(alloc: Global, store: B) -> Result<Stash<C, B>, EitherFault>
        requires new { IsTrue (representable C.format) }
        requires old { IsTrue (representable C.Old.format) }
        ensures exact { IsStoreFault result ↔ (Either C.format C.Old.format (B.bytes store) → ⊥) }
        ensures opened { IfOk result (λ s. Opened C.Old.format (B.bytes store) s) }
        ensures sound { IfOk result (λ s. IsSound C.format (stash_content s)) }
        ensures new { Accepts C.format (B.bytes store) → IfOk result (λ s. HoldsBytes s (B.bytes store)) × IsOk result }
        ensures grow { IfGrow result (λ e. Accepts C.Old.format (B.bytes store) × (Accepts C.format (B.bytes store) → ⊥) × IsTrueOfNew e C.format (C.Old.format.rows (C.Old.format.build (framed_slices (B.bytes store))))) }
        ensures fault { IfStore result (IsFaultOfNamed C.format C.Old.format (B.bytes store)) }
    {
        if names_old::<C>(store.as_slice()) {
            return match open_old::<C>(alloc, store.as_slice()) {
                Ok(column) => Ok(Stash::Typed(column)),
                Err(fault) => Err(fault),
            };
        }
        match Stash::try_from_bytes(alloc, store) {
            Ok(stash) => Ok(stash),
            Err(fault) => Err(EitherFault::Store(fault)),
        }
    }
}

//! The slices of accepted bytes, as a column's slices.
ghost use Rattle.std.specs.Prelude.{◌≡◌, ℕ, ◌+◌, ◌*◌, ◌<◌, ◌≤◌, ◌++◌, IsTrue, OnOk, OnErr, IfErr, length, drop};
ghost use Rattle.columnar_core.specs.Format.{Fits, IsSound, bytes_held, first, moved, representable};
ghost use Rattle.columnar_core.specs.Faults.{verdict};
ghost use Rattle.columnar_core.specs.Store.{slices_in};
ghost use Rattle.columnar_core.specs.Frame.{framed_slices};

use super::{ByteStore, Checked};
use columnar_core::byte_slice::ByteSlice;
use columnar_core::bytes::{AsBytes, Stored};
use columnar_core::fault::{GrowError, StoreFault};
use columnar_core::store::DecodedStore;
use columnar_core::tally::Tally;
use columnar_core::traits::Column;
use std::marker::PhantomData;

// The slices of a store that was accepted for columns of type `C`.
#[derive(Drop)]
pub struct Framed<'a, C: Stored> {
    store: DecodedStore<'a>,
    of: PhantomData<C>,
    ghost all: { length (slices_in store) ≡ C.format.count },
    ghost sound: { IsSound C.format (C.format.build (slices_in store)) },
}

impl<C: Stored, B: ByteStore> Checked<C, B> {
    ghost use Rattle.columnar_bytes.specs.Stashes.{checked_bytes};
    ghost use Rattle.columnar_bytes.specs.FramedContent.{framed_content};

    // Returns the slices of the bytes, as a column's slices.
    pub(super) fn framed(&self) -> Framed<'_, C>
        ensures { framed_content result ≡ C.format.build (framed_slices (checked_bytes self.now)) }
    {
        Framed {
            store: DecodedStore::new(self.bytes()),
            of: PhantomData,
        }
    }
}

impl<'v, C: Stored> Column for Framed<'v, C> {
    ghost use Rattle.columnar_bytes.specs.FramedContent.{byte_format, framed_content};

    ghost format = { byte_format C.format };

    ghost content = { framed_content };

    ghost room = { λ c rs. ⊥ };
}

impl<'v, C: Stored> Stored for Framed<'v, C> {
    ghost use Rattle.columnar_bytes.specs.FramedContent.{byte_format};
    ghost use Rattle.columnar_bytes.specs.FramedContentLaws.{byte_storable, framed_counted};

    ghost storable = { byte_storable C.format C.storable };

    ghost counted = { framed_counted C.storable };

    fn slice_count() -> usize
        requires { IsTrue (representable C.format) }
        ensures { result ≡ C.format.count }
    {
        C::slice_count()
    }

    fn element_sizes(sizes: &mut Vec<usize>) -> Result<(), GrowError>
        requires { IsTrue (representable C.format) }
        ensures ok { OnOk result (sizes.new.items ≡ sizes.old.items ++ C.format.sizes) }
        ensures err { OnErr result (sizes.new.items ≡ sizes.old.items) }
        ensures memory { IfErr result (λ e. e ≡ GrowError.Memory) }
    {
        C::element_sizes(sizes)
    }

    fn judge_tallied<L>(
        store: &DecodedStore<'_>,
        offset: usize,
        tally: &mut Tally<L>,
    ) -> Result<(), StoreFault>
        requires representable { IsTrue (representable C.format) }
        requires room { offset + C.format.count ≤ length (slices_in store.now) }
        ensures exact { verdict result ≡ first (moved offset (C.format.broken (C.format.build (drop offset (slices_in store.now))))) }
        ensures turns { tally.new.turns ≤ tally.old.turns + C.format.turns * bytes_held (C.format.build (drop offset (slices_in store.now))) }
    {
        C::judge_tallied(store, offset, tally)
    }

    fn rows_in(store: &DecodedStore<'_>, offset: usize) -> usize
        requires representable { IsTrue (representable C.format) }
        requires fits { Fits (byte_format C.format) offset (slices_in store.now) }
        ensures { result ≡ length (C.format.rows (C.format.build (drop offset (slices_in store.now)))) }
    {
        C::rows_in(store, offset)
    }
}

impl<'a, C: Stored> AsBytes<'a> for Framed<'a, C> {
    fn get_byte_slice(&self, index: usize) -> (u64, ByteSlice<'a>) {
        let slice = ByteSlice::of_bytes(self.store.get(index));
        (slice.align(), slice)
    }
}

//! Shared columns and views. Reading, validating and writing go to the shared value.
ghost use Rattle.std.specs.Prelude.{◌≡◌, ◌+◌, ◌≤◌, drop, length, IsTrue, IfOk, IfErr, OnOk, OnErr};
ghost use Rattle.columnar_base.specs.Format.{representable};
ghost use Rattle.columnar_core.specs.Store.{slices_in, slices_left};

use crate::byte_slice::ByteSlice;
use crate::bytes::{AsBytes, Check, FromBytes, Stored};
use crate::container::Borrow;
use crate::store::{Decode, DecodedStore};
use columnar_base::fault::{GrowError, StoreFault};
use columnar_base::tally::Tally;
use columnar_base::traits::Column;
use std::alloc::Global;
use std::rc::Rc;

impl<'a, C: Borrow<'a>> Borrow<'a> for Rc<C> {
    type Ref = C::Ref;

    type Borrowed = C::Borrowed;

    type Parts = C::Parts;

    ghost same_format = { C.same_format };

    fn borrow(&'a self) -> C::Borrowed {
        let column: &'a C = self.as_ref();
        column.borrow()
    }
}

impl<C: Stored> Stored for Rc<C> {
    ghost storable = { C.storable };

    ghost counted = { λ r. C.counted r.value };

    fn slice_count() -> usize {
        C::slice_count()
    }

    fn element_sizes(sizes: &mut Vec<usize>) -> Result<(), GrowError> {
        C::element_sizes(sizes)
    }

    fn judge_tallied<L>(
        store: &DecodedStore<'_>,
        offset: usize,
        tally: &mut Tally<L>,
    ) -> Result<(), StoreFault> {
        C::judge_tallied(store, offset, tally)
    }

    fn rows_in(store: &DecodedStore<'_>, offset: usize) -> usize {
        C::rows_in(store, offset)
    }
}

impl<C: Check> Check for Rc<C> {
    fn check_from_tallied<L>(&self, from: usize, tally: &mut Tally<L>) -> Result<(), StoreFault> {
        self.as_ref().check_from_tallied(from, tally)
    }
}

impl<'s, C: AsBytes<'s>> AsBytes<'s> for Rc<C> {
    fn get_byte_slice(&self, index: usize) -> (u64, ByteSlice<'s>) {
        self.as_ref().get_byte_slice(index)
    }
}

/// Makes a shared view of the slices from `offset` on, and moves past them. The view is well-formed if `validate`
/// accepts them.
///
/// # Requires
/// A representable type, and enough slices from `offset` on.
///
/// # Errors
/// `Memory` if the shared cell cannot be allocated, and no other error; `offset` stays.
pub fn from_store<'a, C: FromBytes<'a> + Drop>(
    alloc: Global,
    store: &DecodedStore<'a>,
    offset: &mut usize,
) -> Result<Rc<C>, GrowError>
    requires representable { IsTrue (representable C.format) }
    requires room { offset.old + C.format.count ≤ length (slices_in store.now) }
    ensures content { IfOk result (λ r. C.content r.value ≡ C.format.build (drop offset.old (slices_in store.now))) }
    ensures next { OnOk result (offset.new ≡ offset.old + C.format.count) }
    ensures stays { OnErr result (offset.new ≡ offset.old) }
    ensures memory { IfErr result (λ e. e ≡ GrowError.Memory) }
{
    let mut next = *offset;
    let view = C::from_store(store, &mut next);
    match Rc::new(alloc, view) {
        Ok(shared) => {
            *offset = next;
            Ok(shared)
        }
        Err(_) => Err(GrowError::Memory),
    }
}

/// Makes a shared view of the next slices of `slices`, and moves past them. The view is well-formed if `validate`
/// accepts them.
///
/// # Requires
/// A representable type, and enough slices.
///
/// # Errors
/// `Memory` if the shared cell cannot be allocated, and no other error; `slices` has moved even then.
pub fn from_bytes<'a, C: FromBytes<'a> + Drop>(
    alloc: Global,
    slices: &mut Decode<'a>,
) -> Result<Rc<C>, GrowError>
    requires representable { IsTrue (representable C.format) }
    requires room { C.format.count ≤ length (slices_left slices.old) }
    ensures content { IfOk result (λ r. C.content r.value ≡ C.format.build (slices_left slices.old)) }
    ensures rest { slices_left slices.new ≡ drop C.format.count (slices_left slices.old) }
    ensures memory { IfErr result (λ e. e ≡ GrowError.Memory) }
{
    let view = C::from_bytes(slices);
    match Rc::new(alloc, view) {
        Ok(shared) => Ok(shared),
        Err(_) => Err(GrowError::Memory),
    }
}

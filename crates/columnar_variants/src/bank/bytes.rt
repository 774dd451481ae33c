//! The bytes of the columns of a sum type: the slices of each column, one column after the other.
ghost use Rattle.std.specs.Prelude.{◌≡◌, ℕ, ◌+◌, ◌*◌, ◌^◌, ◌<◌, ◌≤◌, ◌++◌, length, drop, slice_get, slice_index, Some, IsTrue, OnOk, OnErr, IfOk, IfErr};
ghost use Rattle.columnar_core.specs.Format.{Content, Fits, IsSound, IsStorable, bytes_held, first, moved, representable, slices_of};
ghost use Rattle.columnar_core.specs.Faults.{verdict};
ghost use Rattle.columnar_core.specs.Slices.{bytes_in, alignment};
ghost use Rattle.columnar_core.specs.Store.{slices_in};
ghost use Rattle.columnar_core.specs.TwoPartsLaws.{two_counted};
ghost use Rattle.columnar_variants.specs.LawfulVariantLaws.{join_storable};

use super::{ColumnBank, LenBank};
use columnar_core::byte_slice::ByteSlice;
use columnar_core::bytes::{AsBytes, Check, FromBytes, Stored};
use columnar_core::container::ContainerBytes;
use columnar_core::fault::{GrowError, StoreFault};
use columnar_core::store::DecodedStore;
use columnar_core::tally::Tally;
use columnar_core::traits::Len;
use std::alloc::Global;

// Returns the count of the first variant; 0 if there is none.
fn first_count(counts: &[u64]) -> u64
    ensures { result ≡ slice_index counts.now 0 }
{
    if counts.len() == 0 { 0 } else { counts[0] }
}

// Returns the counts of the other variants.
fn other_counts(counts: &[u64]) -> &[u64]
    ensures { (v : ℕ) → slice_index result.now v ≡ slice_index counts.now (v + 1) }
{
    if counts.len() == 0 {
        counts
    } else {
        &counts[1..]
    }
}

/// Columns that can be stored as slices of bytes.
pub trait StoredBank: ColumnBank {
    /// Returns the total number of slices of the columns.
    ///
    /// # Requires
    /// The columns are representable.
    fn count_slices() -> usize
        requires { IsTrue (representable Self.bank.sides) }
        ensures { result ≡ Self.bank.sides.count };

    /// Appends the element sizes of all slices, or none.
    ///
    /// # Requires
    /// The columns are representable.
    fn sizes_of_columns(sizes: &mut Vec<usize>) -> Result<(), GrowError>
        requires { IsTrue (representable Self.bank.sides) }
        ensures ok { OnOk result (sizes.new.items ≡ sizes.old.items ++ Self.bank.sides.sizes) }
        ensures err { OnErr result (sizes.new.items ≡ sizes.old.items) }
        ensures memory { IfErr result (λ e. e ≡ GrowError.Memory) };

    /// Returns the first rule of the columns that the slices from `offset` on break. Adds its steps to the tally.
    ///
    /// # Requires
    /// The columns are representable, and the store has their slices from `offset` on.
    fn judge_columns<L>(
        store: &DecodedStore<'_>,
        offset: usize,
        tally: &mut Tally<L>,
    ) -> Result<(), StoreFault>
        requires representable { IsTrue (representable Self.bank.sides) }
        requires room { offset + Self.bank.sides.count ≤ length (slices_in store.now) }
        ensures exact { verdict result ≡ first (moved offset (Self.bank.sides.broken (Self.bank.sides.build (drop offset (slices_in store.now))))) }
        ensures turns { tally.new.turns ≤ tally.old.turns + 16 * bytes_held (Self.bank.sides.build (drop offset (slices_in store.now))) };

    /// Tests whether each column in slices that were accepted has as many values as `counts` says for its variant.
    ///
    /// # Requires
    /// The columns are representable, and the slices from `offset` on were accepted.
    fn have_values(store: &DecodedStore<'_>, offset: usize, counts: &[u64]) -> bool
        requires representable { IsTrue (representable Self.bank.sides) }
        requires fits { Fits Self.bank.sides offset (slices_in store.now) }
        ensures { result ≡ Self.bank.told (Self.bank.sides.build (drop offset (slices_in store.now))) (slice_index counts.now) };

    ghost storable: { IsStorable Self.bank.sides };

    // the columns have as many slices as their formats say
    ghost counted: { (c : Self) → length (slices_of (Self.contents c)) ≡ Self.bank.sides.count };
}

impl<A: Stored> StoredBank for (A,) {
    ghost storable = { A.storable };

    ghost counted = { λ c. A.counted c.0 };

    fn count_slices() -> usize {
        A::slice_count()
    }

    fn sizes_of_columns(sizes: &mut Vec<usize>) -> Result<(), GrowError> {
        A::element_sizes(sizes)
    }

    fn judge_columns<L>(
        store: &DecodedStore<'_>,
        offset: usize,
        tally: &mut Tally<L>,
    ) -> Result<(), StoreFault> {
        A::judge_tallied(store, offset, tally)
    }

    fn have_values(store: &DecodedStore<'_>, offset: usize, counts: &[u64]) -> bool {
        A::rows_in(store, offset) as u64 == first_count(counts)
    }
}

impl<A: Stored, B: StoredBank> StoredBank for (A, B) {
    ghost storable = { join_storable A.format B.bank A.storable B.storable };

    ghost counted = { λ c. two_counted (slices_of (A.content c.0)) (slices_of (B.contents c.1)) (A.counted c.0) (B.counted c.1) };

    fn count_slices() -> usize {
        A::slice_count() + B::count_slices()
    }

    fn sizes_of_columns(sizes: &mut Vec<usize>) -> Result<(), GrowError> {
        let before = sizes.len();
        A::element_sizes(sizes)?;
        match B::sizes_of_columns(sizes) {
            Ok(()) => Ok(()),
            Err(error) => {
                sizes.truncate(before);
                Err(error)
            }
        }
    }

    fn judge_columns<L>(
        store: &DecodedStore<'_>,
        offset: usize,
        tally: &mut Tally<L>,
    ) -> Result<(), StoreFault> {
        A::judge_tallied(store, offset, tally)?;
        B::judge_columns(store, offset + A::slice_count(), tally)
    }

    fn have_values(store: &DecodedStore<'_>, offset: usize, counts: &[u64]) -> bool {
        A::rows_in(store, offset) as u64 == first_count(counts)
            && B::have_values(store, offset + A::slice_count(), other_counts(counts))
    }
}

/// Columns whose rules are tested in place.
pub trait CheckBank: ColumnBank {
    /// Returns the first rule that the columns break, with slices numbered from `from`. Adds its steps to the tally.
    ///
    /// # Requires
    /// The columns are representable, and their slices numbered from `from` stay below 2^64.
    fn check_columns<L>(&self, from: usize, tally: &mut Tally<L>) -> Result<(), StoreFault>
        requires representable { IsTrue (representable Self.bank.sides) }
        requires counted { from + Self.bank.sides.count < 2 ^ 64 }
        ensures exact { verdict result ≡ first (moved from (Self.bank.sides.broken (Self.contents self.now))) }
        ensures turns { tally.new.turns ≤ tally.old.turns + 16 * bytes_held (Self.contents self.now) };

    /// Tests whether each column has as many values as `counts` says for its variant.
    ///
    /// # Requires
    /// The columns are well-formed.
    fn hold_values(&self, counts: &[u64]) -> bool
        requires { IsSound Self.bank.sides (Self.contents self.now) }
        ensures { result ≡ Self.bank.told (Self.contents self.now) (slice_index counts.now) };
}

impl<A: Check + Len> CheckBank for (A,) {
    fn check_columns<L>(&self, from: usize, tally: &mut Tally<L>) -> Result<(), StoreFault> {
        self.0.check_from_tallied(from, tally)
    }

    fn hold_values(&self, counts: &[u64]) -> bool {
        self.0.len() as u64 == first_count(counts)
    }
}

impl<A: Check + Len, B: CheckBank> CheckBank for (A, B) {
    fn check_columns<L>(&self, from: usize, tally: &mut Tally<L>) -> Result<(), StoreFault> {
        self.0.check_from_tallied(from, tally)?;
        self.1.check_columns(from + A::slice_count(), tally)
    }

    fn hold_values(&self, counts: &[u64]) -> bool {
        self.0.len() as u64 == first_count(counts) && self.1.hold_values(other_counts(counts))
    }
}

/// Columns that are views of slices.
pub trait FromBytesBank<'a>: ColumnBank {
    /// Returns the columns over the slices from `offset` on, and moves `offset` past them.
    ///
    /// # Requires
    /// The columns are representable, and the store has their slices from `offset` on.
    fn columns_from(store: &DecodedStore<'a>, offset: &mut usize) -> Self
        requires representable { IsTrue (representable Self.bank.sides) }
        requires room { offset.old + Self.bank.sides.count ≤ length (slices_in store.now) }
        ensures contents { Self.contents result ≡ Self.bank.sides.build (drop offset.old (slices_in store.now)) }
        ensures next { offset.new ≡ offset.old + Self.bank.sides.count };
}

impl<'s, A: FromBytes<'s>> FromBytesBank<'s> for (A,) {
    fn columns_from(store: &DecodedStore<'s>, offset: &mut usize) -> Self {
        (A::from_store(store, offset),)
    }
}

impl<'s, A: FromBytes<'s>, B: FromBytesBank<'s>> FromBytesBank<'s> for (A, B) {
    fn columns_from(store: &DecodedStore<'s>, offset: &mut usize) -> Self {
        let first = A::from_store(store, offset);
        let others = B::columns_from(store, offset);
        (first, others)
    }
}

/// Columns whose slices live as long as the data they view.
pub trait AsBytesBank<'a>: ColumnBank {
    /// Returns slice `index`, with the alignment of its elements.
    ///
    /// # Requires
    /// The columns are representable, and `index` is less than their number of slices.
    fn get_column_slice(&self, index: usize) -> (u64, ByteSlice<'a>)
        requires representable { IsTrue (representable Self.bank.sides) }
        requires in_range { index < Self.bank.sides.count }
        ensures slice { slice_get (slices_of (Self.contents self.now)) index ≡ Some (bytes_in result.1) }
        ensures align { result.0 ≡ alignment result.1 }
        ensures aligned { slice_get Self.bank.sides.aligns index ≡ Some result.0 };
}

impl<'s, A: AsBytes<'s>> AsBytesBank<'s> for (A,) {
    fn get_column_slice(&self, index: usize) -> (u64, ByteSlice<'s>) {
        self.0.get_byte_slice(index)
    }
}

impl<'s, A: AsBytes<'s>, B: AsBytesBank<'s>> AsBytesBank<'s> for (A, B) {
    fn get_column_slice(&self, index: usize) -> (u64, ByteSlice<'s>) {
        let count = A::slice_count();
        if index < count {
            self.0.get_byte_slice(index)
        } else {
            self.1.get_column_slice(index - count)
        }
    }
}

/// Owned columns with bytes.
pub trait BytesBank: ColumnBank {
    /// Returns slice `index`.
    ///
    /// # Requires
    /// The columns are representable, and `index` is less than their number of slices.
    fn column_slice(&self, index: usize) -> ByteSlice<'_>
        requires representable { IsTrue (representable Self.bank.sides) }
        requires in_range { index < Self.bank.sides.count }
        ensures slice { slice_get (slices_of (Self.contents self.now)) index ≡ Some (bytes_in result) }
        ensures aligned { slice_get Self.bank.sides.aligns index ≡ Some (alignment result) };

    /// Copies the columns from slices that were accepted.
    ///
    /// # Errors
    /// `Memory` if an allocation fails; the columns copied so far are dropped.
    ///
    /// # Requires
    /// The columns are representable, and the slices from `offset` on were accepted.
    fn load_columns(
        alloc: Global,
        store: &DecodedStore<'_>,
        offset: usize,
    ) -> Result<Self, GrowError>
        requires representable { IsTrue (representable Self.bank.sides) }
        requires fits { Fits Self.bank.sides offset (slices_in store.now) }
        ensures contents { IfOk result (λ c. Self.contents c ≡ Self.bank.sides.build (drop offset (slices_in store.now))) }
        ensures memory { IfErr result (λ e. e ≡ GrowError.Memory) };
}

impl<A: ContainerBytes> BytesBank for (A,) {
    fn column_slice(&self, index: usize) -> ByteSlice<'_> {
        self.0.byte_slice(index)
    }

    fn load_columns(
        alloc: Global,
        store: &DecodedStore<'_>,
        offset: usize,
    ) -> Result<Self, GrowError> {
        let first = A::load(alloc, store, offset)?;
        Ok((first,))
    }
}

impl<A: ContainerBytes + Drop, B: BytesBank> BytesBank for (A, B) {
    fn column_slice(&self, index: usize) -> ByteSlice<'_> {
        let count = A::slice_count();
        if index < count {
            self.0.byte_slice(index)
        } else {
            self.1.column_slice(index - count)
        }
    }

    fn load_columns(
        alloc: Global,
        store: &DecodedStore<'_>,
        offset: usize,
    ) -> Result<Self, GrowError> {
        let first = A::load(alloc, store, offset)?;
        let others = B::load_columns(alloc, store, offset + A::slice_count())?;
        Ok((first, others))
    }
}

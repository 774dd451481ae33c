//! Columns as slices of bytes.
ghost use Rattle.std.specs.Prelude.{◌≡◌, ◌+◌, ◌*◌, ◌^◌, ◌<◌, ◌≤◌, ◌++◌, Some, IsTrue, slice_get, length, take, drop, OnOk, OnErr, IfErr};
ghost use Rattle.columnar_base.specs.Format.{Fits, IsStorable, bytes_held, bytes_of_all, faults_at, first, moved, representable, slices_of};
ghost use Rattle.columnar_base.specs.Faults.{verdict};
ghost use Rattle.columnar_core.specs.Store.{slices_in, slices_left};
ghost use Rattle.columnar_core.specs.Slices.{bytes_in, alignment};

use super::byte_slice::ByteSlice;
use super::store::{Decode, DecodedStore};
use columnar_base::fault::{GrowError, StoreFault};
use columnar_base::tally::Tally;
use columnar_base::traits::Column;
use std::marker::PhantomData;

/// A column type that a store can hold; it names no lifetime. All calls require a representable type: at most 2^60
/// slices, of elements of 1 to 2^63 - 1 bytes.
pub trait Stored: Column {
    ghost use Rattle.columnar_core.specs.Column.{aligns_left, byte_slices_left};

    /// Returns the number of slices of the type.
    ///
    /// # Requires
    /// A representable type.
    fn slice_count() -> usize
        requires { IsTrue (representable Self.format) }
        ensures { result ≡ Self.format.count };

    /// Appends the element size of each slice in bytes, or nothing. The size is 8 for a head, a tail or a count.
    ///
    /// # Requires
    /// A representable type.
    ///
    /// # Errors
    /// `Memory`, and no other error; `sizes` stays.
    fn element_sizes(sizes: &mut Vec<usize>) -> Result<(), GrowError>
        requires { IsTrue (representable Self.format) }
        ensures ok { OnOk result (sizes.new.items ≡ sizes.old.items ++ Self.format.sizes) }
        ensures err { OnErr result (sizes.new.items ≡ sizes.old.items) }
        ensures memory { IfErr result (λ e. e ≡ GrowError.Memory) };

    /// Validates the slices from `offset` on, and counts its steps in the tally; allocates nothing.
    ///
    /// # Requires
    /// A representable type, and enough slices from `offset` on.
    ///
    /// # Errors
    /// The first broken rule.
    fn judge_tallied<L>(
        store: &DecodedStore<'_>,
        offset: usize,
        tally: &mut Tally<L>,
    ) -> Result<(), StoreFault>
        requires representable { IsTrue (representable Self.format) }
        requires room { offset + Self.format.count ≤ length (slices_in store.now) }
        ensures exact { verdict result ≡ first (moved offset (Self.format.broken (Self.format.build (drop offset (slices_in store.now))))) }
        ensures turns { tally.new.turns ≤ tally.old.turns + Self.format.turns * bytes_held (Self.format.build (drop offset (slices_in store.now))) };

    /// Returns the number of rows in accepted slices.
    ///
    /// # Requires
    /// A representable type, and accepted slices from `offset` on.
    fn rows_in(store: &DecodedStore<'_>, offset: usize) -> usize
        requires representable { IsTrue (representable Self.format) }
        requires fits { Fits Self.format offset (slices_in store.now) }
        ensures { result ≡ length (Self.format.rows (Self.format.build (drop offset (slices_in store.now)))) };

    /// Does what `validate` does, and counts its steps in the tally: at most 16 per byte of its slices, whether it
    /// accepts or refuses.
    ///
    /// # Requires
    /// A representable type.
    ///
    /// # Errors
    /// As `validate`.
    final fn validate_tallied<L>(
        store: &DecodedStore<'_>,
        offset: &mut usize,
        tally: &mut Tally<L>,
    ) -> Result<(), StoreFault>
        requires { IsTrue (representable Self.format) }
        ensures exact { verdict result ≡ first (faults_at Self.format offset.old (slices_in store.now)) }
        ensures next { OnOk result (offset.new ≡ offset.old + Self.format.count) }
        ensures stays { OnErr result (offset.new ≡ offset.old) }
        ensures turns { tally.new.turns ≤ tally.old.turns + 16 * bytes_of_all (take Self.format.count (drop offset.old (slices_in store.now))) }
    {
        let count = Self::slice_count();
        let start = *offset;
        if start > store.len() || store.len() - start < count {
            return Err(StoreFault::SliceCount(0));
        }
        Self::judge_tallied(store, start, tally)?;
        *offset = start + count;
        Ok(())
    }

    /// Accepts the next slices if and only if they make a well-formed column, and then moves `offset` past them. It
    /// takes as many slices from `offset` on as the type has; allocates nothing.
    ///
    /// # Requires
    /// A representable type.
    ///
    /// # Errors
    /// The first broken rule: too few slices, then the rules of the parts in slice order, then the column's own.
    /// `offset` stays.
    final fn validate(store: &DecodedStore<'_>, offset: &mut usize) -> Result<(), StoreFault>
        requires { IsTrue (representable Self.format) }
        ensures exact { verdict result ≡ first (faults_at Self.format offset.old (slices_in store.now)) }
        ensures next { OnOk result (offset.new ≡ offset.old + Self.format.count) }
        ensures stays { OnErr result (offset.new ≡ offset.old) }
    {
        Self::validate_tallied(store, offset, &mut Tally::new())
    }

    /// Iterates over the slices of the column in order, each with its alignment.
    ///
    /// # Requires
    /// A representable type.
    final fn as_bytes<'s, 'a>(&'s self) -> ByteSlices<'s, 'a, Self>
    where
        Self: AsBytes<'a> + Sized,
        requires { IsTrue (representable Self.format) }
        ensures slices { byte_slices_left result ≡ slices_of (Self.content self.entry.now) }
        ensures aligns { aligns_left result ≡ Self.format.aligns }
    {
        ByteSlices::new(self)
    }

    /// Makes a view of the next slices of `slices`, and moves past them. The view is well-formed if `validate` accepts
    /// them.
    ///
    /// # Requires
    /// A representable type, and enough slices.
    final fn from_bytes<'a>(slices: &mut Decode<'a>) -> Self
    where
        Self: FromBytes<'a> + Sized,
        requires representable { IsTrue (representable Self.format) }
        requires room { Self.format.count ≤ length (slices_left slices.old) }
        ensures content { Self.content result ≡ Self.format.build (slices_left slices.old) }
        ensures rest { slices_left slices.new ≡ drop Self.format.count (slices_left slices.old) }
    {
        let store = slices.store;
        let mut index = slices.index.min(store.len());
        let view = Self::from_store(&store, &mut index);
        slices.index = index;
        view
    }

    ghost storable: { IsStorable Self.format };

    // a column has as many slices as its type
    ghost counted: { (c : Self) → length (slices_of (Self.content c)) ≡ Self.format.count };
}

/// A view that validates itself.
pub trait Check: Stored {
    /// Validates the view, with slices counted from `from` on. Counts its steps in the tally.
    ///
    /// # Requires
    /// A representable type, and slice numbers below 2^64.
    ///
    /// # Errors
    /// The first broken rule.
    fn check_from_tallied<L>(&self, from: usize, tally: &mut Tally<L>) -> Result<(), StoreFault>
        requires representable { IsTrue (representable Self.format) }
        requires counted { from + Self.format.count < 2 ^ 64 }
        ensures exact { verdict result ≡ first (moved from (Self.format.broken (Self.content self.now))) }
        ensures turns { tally.new.turns ≤ tally.old.turns + Self.format.turns * bytes_held (Self.content self.now) };

    /// Does what `check` does, and counts its steps in the tally: at most 16 per byte of the view's slices.
    ///
    /// # Requires
    /// A representable type.
    ///
    /// # Errors
    /// As `check`.
    final fn check_tallied<L>(&self, tally: &mut Tally<L>) -> Result<(), StoreFault>
        requires { IsTrue (representable Self.format) }
        ensures exact { verdict result ≡ first (moved 0 (Self.format.broken (Self.content self.now))) }
        ensures turns { tally.new.turns ≤ tally.old.turns + 16 * bytes_held (Self.content self.now) }
    {
        let _count = Self::slice_count();
        self.check_from_tallied(0, tally)
    }

    /// Accepts the view if and only if it is well-formed; allocates nothing.
    ///
    /// # Requires
    /// A representable type.
    ///
    /// # Errors
    /// The first broken rule: those of the parts in slice order, then the whole's. Slices are counted from the view's
    /// first.
    final fn check(&self) -> Result<(), StoreFault>
        requires { IsTrue (representable Self.format) }
        ensures { verdict result ≡ first (moved 0 (Self.format.broken (Self.content self.now))) }
    {
        self.check_tallied(&mut Tally::new())
    }
}

/// A view made of slices that live for `'a`.
pub trait FromBytes<'a>: Stored {
    /// Makes a view of the slices from `offset` on, and moves past them. The view is well-formed if `validate` accepts
    /// them.
    ///
    /// # Requires
    /// A representable type, and enough slices from `offset` on.
    fn from_store(store: &DecodedStore<'a>, offset: &mut usize) -> Self
        requires representable { IsTrue (representable Self.format) }
        requires room { offset.old + Self.format.count ≤ length (slices_in store.now) }
        ensures content { Self.content result ≡ Self.format.build (drop offset.old (slices_in store.now)) }
        ensures next { offset.new ≡ offset.old + Self.format.count };
}

/// A column, or a view of one, whose slices live for `'a`.
pub trait AsBytes<'a>: Stored {
    /// Returns slice `index` and the alignment of its elements in bytes, which depends only on the type.
    ///
    /// # Requires
    /// A representable type, and `index` below its number of slices.
    fn get_byte_slice(&self, index: usize) -> (u64, ByteSlice<'a>)
        requires representable { IsTrue (representable Self.format) }
        requires in_range { index < Self.format.count }
        ensures slice { slice_get (slices_of (Self.content self.now)) index ≡ Some (bytes_in result.1) }
        ensures align { result.0 ≡ alignment result.1 }
        ensures aligned { slice_get Self.format.aligns index ≡ Some result.0 };
}

/// Iterates over the slices of a column in order, each with the alignment of its elements.
#[derive(Drop)]
pub struct ByteSlices<'s, 'a, V: AsBytes<'a>> {
    column: &'s V,
    index: usize,
    lifetime: PhantomData<&'a ()>,
    ghost representable: { IsTrue (representable V.format) },
}

impl<'s, 'a, V: AsBytes<'a>> ByteSlices<'s, 'a, V> {
    ghost use Rattle.columnar_core.specs.Column.{aligns_left, byte_slices_left};

    /// Iterates over all slices of the column.
    ///
    /// # Requires
    /// A representable type.
    pub fn new(column: &'s V) -> Self
        requires { IsTrue (representable V.format) }
        ensures slices { byte_slices_left result ≡ slices_of (V.content column.entry.now) }
        ensures aligns { aligns_left result ≡ V.format.aligns }
    {
        ByteSlices {
            column,
            index: 0,
            lifetime: PhantomData,
        }
    }
}

impl<'s, 'a, V: AsBytes<'a>> Iterator for ByteSlices<'s, 'a, V> {
    ghost use Rattle.columnar_core.specs.Column.{aligns_left, byte_slices_left, GivesSlice};
    ghost use Rattle.std.specs.Prelude.{IfSome};
    ghost use Rattle.std.specs.Iterator.{item_count, UpTo};
    ghost use Rattle.std.specs.Iterator.SizeHint.{IsWithinCount};

    type Item = (u64, ByteSlice<'a>);

    ghost next_gives = { GivesSlice byte_slices_left aligns_left };

    ghost remaining = { item_count byte_slices_left };

    /// Returns the next slice and its alignment, or `None` after the last one, at every further call.
    fn next(&mut self) -> Option<(u64, ByteSlice<'a>)> {
        if self.index >= V::slice_count() {
            return None;
        }
        let slice = self.column.get_byte_slice(self.index);
        self.index += 1;
        Some(slice)
    }

    /// Returns the number of remaining slices as both bounds.
    fn size_hint(&self) -> (usize, Option<usize>)
        ensures lower { IsWithinCount result.0 (item_count byte_slices_left self.now) }
        ensures upper { IfSome result.1 (UpTo (item_count byte_slices_left self.now)) }
        ensures left { result ≡ (length (byte_slices_left self.now), Some (length (byte_slices_left self.now))) }
    {
        let count = V::slice_count();
        let left = if self.index < count {
            count - self.index
        } else {
            0
        };
        (left, Some(left))
    }
}

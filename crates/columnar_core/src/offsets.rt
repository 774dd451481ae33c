//! Columns of offsets: the bounds of lists and strings.
ghost use Rattle.std.specs.Prelude.{◌≡◌, ℕ, ◌+◌, ◌-◌, ◌*◌, ◌^◌, ◌<◌, ◌≤◌, ◌∷◌, ◌++◌, [], List, length, take, drop, slice_get, Some, IsTrue, OnOk, IfErr};
ghost use Rattle.columnar_base.specs.Row.{Row, number};
ghost use Rattle.columnar_base.specs.Format.{IsSound, Fits, bytes_held, representable};
ghost use Rattle.columnar_base.specs.Elements.{word_row};
ghost use Rattle.columnar_base.specs.Change.{Refused, Took};
ghost use Rattle.columnar_base.specs.Room.{WasFull, Leaves, KeepsRoom};
ghost use Rattle.columnar_core.specs.Bounds.{rises, numbers, last_or, shifted, IsBounds};
ghost use Rattle.columnar_core.specs.Store.{slices_in};

use crate::bytes::Stored;
use crate::container::{Reserve, Truncate};
use crate::store::DecodedStore;
use columnar_base::fault::GrowError;
use columnar_base::tally::Tally;
use columnar_base::traits::{Column, Len, Push};
use std::ops::Range;

/// A column of offsets: the ends of consecutive lists.
pub trait Offsets: Len {
    /// Returns offset `index`.
    ///
    /// # Requires
    /// A well-formed column, and `index` below its length.
    fn offset(&self, index: usize) -> u64
        requires sound { IsSound Self.format (Self.content self.now) }
        requires in_range { index < length (Self.format.rows (Self.content self.now)) }
        ensures { slice_get (Self.format.rows (Self.content self.now)) index ≡ Some (number result) };

    /// Returns offset `index`, given the offset before it, `before` (0 before the first). To read offsets in order,
    /// pass each one to the next call: a column that searches for offsets continues from there.
    ///
    /// # Requires
    /// A well-formed column, `index` below its length, and the right `before`.
    fn offset_after(&self, index: usize, before: u64) -> u64
        requires sound { IsSound Self.format (Self.content self.now) }
        requires in_range { index < length (Self.format.rows (Self.content self.now)) }
        requires before { slice_get (0 ∷ numbers (Self.format.rows (Self.content self.now))) index ≡ Some before }
        ensures { slice_get (Self.format.rows (Self.content self.now)) index ≡ Some (number result) }
    {
        self.offset(index)
    }

    /// Does what `rises_to` does, and counts its steps in the tally: at most 8 per byte of the column.
    ///
    /// # Requires
    /// A well-formed column.
    fn rises_to_tallied<L>(&self, end: u64, tally: &mut Tally<L>) -> bool
        requires { IsSound Self.format (Self.content self.now) }
        ensures value { result ≡ rises 0 (numbers (Self.format.rows (Self.content self.now))) end }
        ensures turns { tally.new.turns ≤ tally.old.turns + 8 * bytes_held (Self.content self.now) };

    /// Returns whether the offsets, preceded by 0, never decrease and end at `end`.
    ///
    /// # Requires
    /// A well-formed column.
    final fn rises_to(&self, end: u64) -> bool
        requires { IsSound Self.format (Self.content self.now) }
        ensures { result ≡ rises 0 (numbers (Self.format.rows (Self.content self.now))) end }
    {
        self.rises_to_tallied(end, &mut Tally::new())
    }

    ghost bounds: { IsBounds Self.format };
}

/// Reads offsets through a reference, as the column itself does.
impl<'x, B: Offsets> Offsets for &'x B {
    ghost bounds = { B.bounds };

    fn offset(&self, index: usize) -> u64 {
        (**self).offset(index)
    }

    fn offset_after(&self, index: usize, before: u64) -> u64 {
        (**self).offset_after(index, before)
    }

    fn rises_to_tallied<L>(&self, end: u64, tally: &mut Tally<L>) -> bool {
        (**self).rises_to_tallied(end, tally)
    }
}

/// A column type of offsets that a store can hold.
pub trait StoredOffsets: Stored {
    /// Does what `rises_to` does for the column in the slices from `offset` on. Counts its steps in the tally: at most
    /// 8 per byte.
    ///
    /// # Requires
    /// A representable type, and accepted slices from `offset` on.
    fn rises_in_tallied<L>(
        store: &DecodedStore<'_>,
        offset: usize,
        end: u64,
        tally: &mut Tally<L>,
    ) -> bool
        requires representable { IsTrue (representable Self.format) }
        requires fits { Fits Self.format offset (slices_in store.now) }
        ensures value { result ≡ rises 0 (numbers (Self.format.rows (Self.format.build (drop offset (slices_in store.now))))) end }
        ensures turns { tally.new.turns ≤ tally.old.turns + 8 * bytes_held (Self.format.build (drop offset (slices_in store.now))) };

    ghost stored_bounds: { IsBounds Self.format };
}

/// A column of offsets that appends an offset when the last one is known.
pub trait PushAfter: Column {
    /// Pushes `offset`, given the last offset of the column, so that it need not search for it.
    ///
    /// # Requires
    /// A well-formed column whose last offset is `last`, 0 if it has none.
    ///
    /// # Errors
    /// As `Push::push`.
    fn push_after(&mut self, last: u64, offset: u64) -> Result<(), GrowError>
        requires sound { IsSound Self.format (Self.content self.old) }
        requires last { last_or 0 (numbers (Self.format.rows (Self.content self.old))) ≡ last }
        ensures ok { OnOk result (Took Self.format (Self.content self.old) (Self.content self.new) (word_row offset ∷ [])) }
        ensures err { IfErr result (λ e. Refused Self.format (Self.content self.old) (Self.content self.new) (word_row offset ∷ []) e) }
        ensures wanted { IfErr result (WasFull (Self.room self.old) (word_row offset ∷ [])) }
        ensures left { OnOk result (Leaves (Self.room self.old) (Self.room self.new) (word_row offset ∷ [])) };
}

/// A column of offsets whose reserved capacity is for offsets from any start.
pub trait ReserveOffsets: Reserve {
    // a column with the capacity has room for the offsets, shifted to follow its last one
    ghost follow: { (column : Self) (room : Self.Room) (last : ℕ) (os : List Row) → last ≡ last_or 0 (numbers (Self.format.rows (Self.content column))) → KeepsRoom (Self.covers room) (Self.room column) → Self.covers room os → Self.room column (shifted 0 last (numbers os)) };

    // capacity for any offsets and then for others is also for these, shifted to follow the last one
    ghost add: { (room more : Self.Room) (os others : List Row) → ((xs : List Row) → Self.covers room xs → Self.covers more (xs ++ others)) → Self.covers room os → Self.covers more (os ++ shifted 0 (last_or 0 (numbers os)) (numbers others)) };
}

/// A column of offsets that takes those of views of type `W`, shifted to follow its own.
pub trait ExtendShifted<W: Offsets>: ReserveOffsets {
    /// Appends the offsets of the range, shifted by `start - lower`, or none. `lower` is the offset before the range,
    /// `start` the column's last one. Counts a step in the tally for each offset that it reads one by one.
    ///
    /// # Requires
    /// A well-formed column and view, and a range of the view's rows; the right `lower` and `start`; no offset below
    /// `lower`, or of more than 64 bits when shifted.
    ///
    /// # Errors
    /// As `ExtendFrom::extend_from_self`.
    fn extend_shifted_tallied<L>(
        &mut self,
        view: &W,
        range: Range<usize>,
        lower: u64,
        start: usize,
        tally: &mut Tally<L>,
    ) -> Result<(), GrowError>
        requires sound { IsSound Self.format (Self.content self.old) }
        requires view_sound { IsSound W.format (W.content view.now) }
        requires ordered { range.start ≤ range.«end» }
        requires in_range { range.«end» ≤ length (W.format.rows (W.content view.now)) }
        requires lower { slice_get (0 ∷ numbers (W.format.rows (W.content view.now))) range.start ≡ Some lower }
        requires last { last_or 0 (numbers (Self.format.rows (Self.content self.old))) ≡ start }
        requires held { (i n : ℕ) → range.start ≤ i → i < range.«end» → slice_get (numbers (W.format.rows (W.content view.now))) i ≡ Some n → (lower ≤ n) × (start + (n - lower) < 2 ^ 64) }
        ensures ok { OnOk result (Took Self.format (Self.content self.old) (Self.content self.new) (take (range.«end» - range.start) (drop range.start (shifted lower start (numbers (W.format.rows (W.content view.now))))))) }
        ensures err { IfErr result (λ e. Refused Self.format (Self.content self.old) (Self.content self.new) (take (range.«end» - range.start) (drop range.start (shifted lower start (numbers (W.format.rows (W.content view.now)))))) e) }
        ensures wanted { IfErr result (WasFull (Self.room self.old) (take (range.«end» - range.start) (drop range.start (shifted lower start (numbers (W.format.rows (W.content view.now))))))) }
        ensures left { OnOk result (Leaves (Self.room self.old) (Self.room self.new) (take (range.«end» - range.start) (drop range.start (shifted lower start (numbers (W.format.rows (W.content view.now))))))) }
        ensures turns { tally.new.turns ≤ tally.old.turns + (range.«end» - range.start) };
}

/// Does what `extend_shifted_tallied` does, by a push for each offset, for columns that take any offset at the end.
/// Counts a step in the tally for each offset.
///
/// # Requires
/// As `extend_shifted_tallied`, but any `start`.
///
/// # Errors
/// As `ExtendFrom::extend_from_self`.
pub fn push_shifted<W: Offsets, BC: Truncate + Push<u64>, L>(
    bounds: &mut BC,
    view: &W,
    range: Range<usize>,
    lower: u64,
    start: usize,
    tally: &mut Tally<L>,
) -> Result<(), GrowError>
    requires sound { IsSound BC.format (BC.content bounds.old) }
    requires view_sound { IsSound W.format (W.content view.now) }
    requires ordered { range.start ≤ range.«end» }
    requires in_range { range.«end» ≤ length (W.format.rows (W.content view.now)) }
    requires lower { slice_get (0 ∷ numbers (W.format.rows (W.content view.now))) range.start ≡ Some lower }
    requires held { (i n : ℕ) → range.start ≤ i → i < range.«end» → slice_get (numbers (W.format.rows (W.content view.now))) i ≡ Some n → (lower ≤ n) × (start + (n - lower) < 2 ^ 64) }
    ensures ok { OnOk result (Took BC.format (BC.content bounds.old) (BC.content bounds.new) (take (range.«end» - range.start) (drop range.start (shifted lower start (numbers (W.format.rows (W.content view.now))))))) }
    ensures err { IfErr result (λ e. Refused BC.format (BC.content bounds.old) (BC.content bounds.new) (take (range.«end» - range.start) (drop range.start (shifted lower start (numbers (W.format.rows (W.content view.now)))))) e) }
    ensures wanted { IfErr result (WasFull (BC.room bounds.old) (take (range.«end» - range.start) (drop range.start (shifted lower start (numbers (W.format.rows (W.content view.now))))))) }
    ensures left { OnOk result (Leaves (BC.room bounds.old) (BC.room bounds.new) (take (range.«end» - range.start) (drop range.start (shifted lower start (numbers (W.format.rows (W.content view.now))))))) }
    ensures turns { tally.new.turns ≤ tally.old.turns + (range.«end» - range.start) }
{
    let before = bounds.len();
    let mut last = lower;
    for i in range.start..range.end {
        tally.tick();
        last = view.offset_after(i, last);
        match bounds.push(start as u64 + (last - lower)) {
            Ok(()) => {}
            Err(error) => {
                bounds.truncate(before);
                return Err(error);
            }
        }
    }
    Ok(())
}

//! Offsets that are the multiples of a constant, stored as their number.
ghost use Rattle.std.specs.Prelude.{◌≡◌, ℕ, ◌+◌, ◌-◌, ◌*◌, ◌<◌, ◌≤◌, ◌^◌, ◌∷◌, [], List, length, take, drop, slice_get, Some, OnOk, OnErr, IfOk, IfErr, IsTrue, IsFalse, Err, ◌↔◌, true, false, refl};
ghost use Rattle.columnar_core.specs.Row.{Row, number};
ghost use Rattle.columnar_core.specs.Format.{slice, first, moved, IsSound};
ghost use Rattle.columnar_core.specs.Bytes.{word};
ghost use Rattle.columnar_core.specs.Elements.{word_row};
ghost use Rattle.columnar_core.specs.Faults.{verdict};
ghost use Rattle.columnar_core.specs.Bounds.{numbers, shifted};
ghost use Rattle.columnar_core.specs.Change.{Copied, Refused, Took};
ghost use Rattle.columnar_core.specs.Room.{WasFull, Leaves};
ghost use Rattle.columnar_primitive.specs.Held.{counted};
ghost use Rattle.columnar_primitive.specs.Fixed.{fixed_broken, fixed_format, fixed_rows, passes, strays, IsFixedCause, IsLimit};
ghost use Rattle.columnar_primitive.specs.Tried.{Tried};
ghost use Rattle.columnar_primitive.specs.FixedLaws.{fixed_lawful, fixed_storable, fixed_bounds};

use super::strides::Strides;
use columnar_core::byte_slice::ByteSlice;
use columnar_core::bytes::{AsBytes, Check, FromBytes, Stored};
use columnar_core::container::{
    Borrow, Container, ContainerBytes, ExtendFrom, Reborrow, Reserve, Storage, Truncate,
};
use columnar_core::earlier::Kept;
use columnar_core::fault::{GrowError, StoreFault};
use columnar_core::offsets::{ExtendShifted, Offsets, PushAfter, ReserveOffsets, StoredOffsets};
use columnar_core::store::{DecodedStore, word_in_bytes};
use columnar_core::tally::Tally;
use columnar_core::traits::{Clear, Column, Index, Len, Push, PushRef};
use columnar_core::view::View;
use columnar_core::words::Words;
use std::alloc::Global;
use std::ops::Range;

/// The offsets `K`, `2 * K`, .., stored as their number: the bounds of lists of `K` items each. The count of an owned
/// column is a `u64`, that of a view a `View` of one element.
#[derive(Clone, Copy, Drop, PartialEq)]
pub struct Fixeds<const K: u64, CC = u64> {
    /// The number of offsets.
    pub count: CC,
}

impl<const K: u64, CC: Words> Column for Fixeds<K, CC> {
    ghost format = { fixed_format K };

    ghost content = { λ c. slice (CC.bytes c.count) };

    ghost room = { λ c rs. Unit {0} };
}

impl<const K: u64, CC: Words> Len for Fixeds<K, CC> {
    fn len(&self) -> usize {
        self.count.word(0) as usize
    }
}

impl<const K: u64, CC: Words> Index for Fixeds<K, CC> {
    type Ref = u64;

    fn get(&self, index: usize) -> u64 {
        K * index as u64 + K
    }
}

impl<'x, const K: u64, CC: Words> Index for &'x Fixeds<K, CC> {
    type Ref = u64;

    fn get(&self, index: usize) -> u64 {
        (**self).get(index)
    }
}

impl<const K: u64> Clear for Fixeds<K, u64> {
    fn clear(&mut self) {
        self.count = 0;
    }
}

impl<const K: u64> Truncate for Fixeds<K, u64> {
    ghost lawful = { fixed_lawful K };

    fn truncate(&mut self, n: usize) {
        self.count = n as u64;
    }
}

impl<const K: u64> Storage for Fixeds<K, u64> {
    fn empty(_alloc: Global) -> Self {
        Fixeds { count: 0 }
    }

    fn duplicate(&self, _alloc: Global) -> Result<Self, GrowError> {
        Ok(Fixeds { count: self.count })
    }
}

impl<const K: u64> Reserve for Fixeds<K, u64> {
    type Room = ();

    ghost reserves = { Unit {0} };

    ghost covers = { λ r rs. Unit {0} };

    fn no_room() -> () {
        ()
    }

    fn reserve_room(&mut self, _room: ()) -> Result<(), GrowError> {
        Ok(())
    }
}

// Returns the count with `added` more offsets, the first of which is `item`. If `item` is the next multiple, so are the
// others in their turn.
fn count_with<const K: u64>(count: u64, added: u64, item: u64) -> Result<u64, GrowError>
    requires { 0 < added }
    ensures ok { IfOk result (λ n. (n ≡ count + added) × (item ≡ K * (count + 1))) }
    ensures fits { IfOk result (λ n. K * n < 2 ^ 64) }
    ensures limit { IfErr result IsLimit }
    ensures length { (result ≡ Err GrowError.Length) ↔ IsTrue (passes K (count + added)) }
    ensures offset { (result ≡ Err GrowError.Offset) ↔ (IsFalse (passes K (count + added)) × (item ≡ K * (count + 1) → ⊥)) }
    ensures err { IfErr result (λ e. (rs : List Row) → added ≤ length rs + 1 → IsFixedCause K e count (number item ∷ rs)) }
{
    let sum = match count.checked_add(added) {
        Some(sum) => sum,
        None => return Err(GrowError::Length),
    };
    match K.checked_mul(sum) {
        None => Err(GrowError::Length),
        Some(_) => if K * (count + 1) == item {
            Ok(sum)
        } else {
            Err(GrowError::Offset)
        },
    }
}

impl<const K: u64> Push<u64> for Fixeds<K, u64> {
    /// Appends the offset; allocates nothing.
    ///
    /// # Requires
    /// A well-formed column.
    ///
    /// # Errors
    /// `Length` if and only if one more offset would exceed 2^64 - 1, in number or in size; otherwise `Offset` if and
    /// only if `item` is not the next multiple. Never `Memory`.
    fn push(&mut self, item: u64) -> Result<(), GrowError>
        requires sound { IsSound (fixed_format K) (counted self.old.count) }
        ensures ok { OnOk result (Took (fixed_format K) (counted self.old.count) (counted self.new.count) (word_row item ∷ [])) }
        ensures err { IfErr result (λ e. Refused (fixed_format K) (counted self.old.count) (counted self.new.count) (word_row item ∷ []) e) }
        ensures wanted { IfErr result (WasFull (⟦<Fixeds<K, u64> as Column>⟧.room self.old) (word_row item ∷ [])) }
        ensures left { OnOk result (Leaves (⟦<Fixeds<K, u64> as Column>⟧.room self.old) (⟦<Fixeds<K, u64> as Column>⟧.room self.new) (word_row item ∷ [])) }
        ensures limit { IfErr result IsLimit }
        ensures length { (result ≡ Err GrowError.Length) ↔ IsTrue (passes K (self.old.count + 1)) }
        ensures offset { (result ≡ Err GrowError.Offset) ↔ (IsFalse (passes K (self.old.count + 1)) × (item ≡ K * (self.old.count + 1) → ⊥)) }
    {
        self.count = count_with::<K>(self.count, 1, item)?;
        Ok(())
    }
}

impl<'x, const K: u64> Push<&'x u64> for Fixeds<K, u64> {
    /// Appends the offset, as the push of a `u64` does.
    ///
    /// # Requires
    /// A well-formed column.
    ///
    /// # Errors
    /// As the push of a `u64`.
    fn push(&mut self, item: &'x u64) -> Result<(), GrowError>
        requires sound { IsSound (fixed_format K) (counted self.old.count) }
        ensures ok { OnOk result (Took (fixed_format K) (counted self.old.count) (counted self.new.count) (word_row item.now ∷ [])) }
        ensures err { IfErr result (λ e. Refused (fixed_format K) (counted self.old.count) (counted self.new.count) (word_row item.now ∷ []) e) }
        ensures wanted { IfErr result (WasFull (⟦<Fixeds<K, u64> as Column>⟧.room self.old) (word_row item.now ∷ [])) }
        ensures left { OnOk result (Leaves (⟦<Fixeds<K, u64> as Column>⟧.room self.old) (⟦<Fixeds<K, u64> as Column>⟧.room self.new) (word_row item.now ∷ [])) }
        ensures limit { IfErr result IsLimit }
        ensures length { (result ≡ Err GrowError.Length) ↔ IsTrue (passes K (self.old.count + 1)) }
        ensures offset { (result ≡ Err GrowError.Offset) ↔ (IsFalse (passes K (self.old.count + 1)) × (item.now ≡ K * (self.old.count + 1) → ⊥)) }
    {
        self.push_ref(item)
    }
}

impl<const K: u64> PushRef<u64> for Fixeds<K, u64> {
    /// Appends the offset, as the push of a `u64` does.
    ///
    /// # Requires
    /// A well-formed column.
    ///
    /// # Errors
    /// As the push of a `u64`.
    fn push_ref(&mut self, item: &u64) -> Result<(), GrowError>
        requires sound { IsSound (fixed_format K) (counted self.old.count) }
        ensures ok { OnOk result (Took (fixed_format K) (counted self.old.count) (counted self.new.count) (word_row item.now ∷ [])) }
        ensures err { IfErr result (λ e. Refused (fixed_format K) (counted self.old.count) (counted self.new.count) (word_row item.now ∷ []) e) }
        ensures wanted { IfErr result (WasFull (⟦<Fixeds<K, u64> as Column>⟧.room self.old) (word_row item.now ∷ [])) }
        ensures left { OnOk result (Leaves (⟦<Fixeds<K, u64> as Column>⟧.room self.old) (⟦<Fixeds<K, u64> as Column>⟧.room self.new) (word_row item.now ∷ [])) }
        ensures limit { IfErr result IsLimit }
        ensures length { (result ≡ Err GrowError.Length) ↔ IsTrue (passes K (self.old.count + 1)) }
        ensures offset { (result ≡ Err GrowError.Offset) ↔ (IsFalse (passes K (self.old.count + 1)) × (item.now ≡ K * (self.old.count + 1) → ⊥)) }
    {
        Push::<u64>::push(self, *item)
    }
}

impl<'x, const K: u64> ExtendFrom<Fixeds<K, View<'x, u64>>> for Fixeds<K, u64> {
    fn add_room(_room: (), _view: Fixeds<K, View<'x, u64>>) -> () {
        ()
    }

    /// Appends the offsets of the range, or none; allocates nothing.
    ///
    /// # Requires
    /// A well-formed column and view, and a range of the view's rows.
    ///
    /// # Errors
    /// `Length` if and only if the number of offsets or the last one would exceed 2^64 - 1; otherwise `Offset` if and
    /// only if one of them is not the next multiple. Never `Memory`.
    fn extend_from_self(
        &mut self,
        view: Fixeds<K, View<'x, u64>>,
        range: Range<usize>,
    ) -> Result<(), GrowError>
        requires sound { IsSound (fixed_format K) (counted self.old.count) }
        requires view_sound { IsSound (fixed_format K) (⟦<Fixeds<K, View<'x, u64>> as Column>⟧.content view) }
        requires ordered { range.start ≤ range.«end» }
        requires in_range { range.«end» ≤ length (fixed_rows K (⟦<Fixeds<K, View<'x, u64>> as Column>⟧.content view)) }
        ensures ok { OnOk result (Copied (fixed_format K) (counted self.old.count) (counted self.new.count) range.start (take (range.«end» - range.start) (drop range.start (fixed_rows K (⟦<Fixeds<K, View<'x, u64>> as Column>⟧.content view.entry))))) }
        ensures err { IfErr result (λ e. Refused (fixed_format K) (counted self.old.count) (counted self.new.count) (take (range.«end» - range.start) (drop range.start (fixed_rows K (⟦<Fixeds<K, View<'x, u64>> as Column>⟧.content view.entry)))) e) }
        ensures wanted { IfErr result (WasFull (⟦<Fixeds<K, u64> as Column>⟧.room self.old) (take (range.«end» - range.start) (drop range.start (fixed_rows K (⟦<Fixeds<K, View<'x, u64>> as Column>⟧.content view.entry))))) }
        ensures left { OnOk result (Leaves (⟦<Fixeds<K, u64> as Column>⟧.room self.old) (⟦<Fixeds<K, u64> as Column>⟧.room self.new) (take (range.«end» - range.start) (drop range.start (fixed_rows K (⟦<Fixeds<K, View<'x, u64>> as Column>⟧.content view.entry))))) }
        ensures limit { IfErr result IsLimit }
        ensures count { OnOk result (self.new.count ≡ self.old.count + (range.«end» - range.start)) }
        ensures count_stays { OnErr result (self.new.count ≡ self.old.count) }
        ensures length { (result ≡ Err GrowError.Length) ↔ IsTrue (passes K (self.old.count + (range.«end» - range.start))) }
        ensures offset { (result ≡ Err GrowError.Offset) ↔ (IsFalse (passes K (self.old.count + (range.«end» - range.start))) × IsTrue (strays K self.old.count (take (range.«end» - range.start) (drop range.start (fixed_rows K (⟦<Fixeds<K, View<'x, u64>> as Column>⟧.content view.entry)))))) }
    {
        let count = self.count;
        let added = range.end - range.start;
        if added == 0 {
            return Ok(());
        }
        self.count = count_with::<K>(count, added as u64, view.get(range.start))?;
        Ok(())
    }
}

impl<'a, const K: u64> Borrow<'a> for Fixeds<K, u64> {
    type Ref = u64;

    type Borrowed = Fixeds<K, View<'a, u64>>;

    type Parts = u64;

    ghost same_format = { refl };

    fn borrow(&'a self) -> Fixeds<K, View<'a, u64>> {
        Fixeds {
            count: self.count.words(),
        }
    }
}

impl<'a, const K: u64> Container<'a> for Fixeds<K, u64> {}

impl<'a, 'b, const K: u64> Reborrow<'b> for Fixeds<K, View<'a, u64>>
where
    'a: 'b,
{
    type Short = Fixeds<K, View<'b, u64>>;

    ghost same_short = { refl };

    fn reborrow(self) -> Fixeds<K, View<'b, u64>> {
        self
    }
}

// Validates a count.
fn fault_in<CC: Words>(stride: u64, count: &CC, from: usize) -> Result<(), StoreFault>
    ensures { verdict result ≡ first (moved from (fixed_broken stride (slice (CC.bytes count.now)))) }
{
    if count.size() != 8 {
        return Err(StoreFault::HeadSize(from));
    }
    match stride.checked_mul(count.word(0)) {
        Some(_) => Ok(()),
        None => Err(StoreFault::Stride(from)),
    }
}

impl<const K: u64, CC: Words> Stored for Fixeds<K, CC> {
    ghost storable = { fixed_storable K };

    ghost counted = { λ c. refl };

    fn slice_count() -> usize {
        1
    }

    fn element_sizes(sizes: &mut Vec<usize>) -> Result<(), GrowError> {
        sizes.push(8)?;
        Ok(())
    }

    fn judge_tallied<L>(
        store: &DecodedStore<'_>,
        offset: usize,
        tally: &mut Tally<L>,
    ) -> Result<(), StoreFault> {
        fault_in(K, &View::<u64>::from_le_bytes(store.get(offset)), offset)
    }

    fn rows_in(store: &DecodedStore<'_>, offset: usize) -> usize {
        word_in_bytes(store.get(offset), 0) as usize
    }
}

impl<const K: u64, CC: Words> Check for Fixeds<K, CC> {
    fn check_from_tallied<L>(&self, from: usize, tally: &mut Tally<L>) -> Result<(), StoreFault> {
        fault_in(K, &self.count, from)
    }
}

impl<'s, const K: u64> FromBytes<'s> for Fixeds<K, View<'s, u64>> {
    fn from_store(store: &DecodedStore<'s>, offset: &mut usize) -> Self {
        let start = *offset;
        *offset = start + 1;
        Fixeds {
            count: View::from_le_bytes(store.get(start)),
        }
    }
}

impl<'s, const K: u64> AsBytes<'s> for Fixeds<K, View<'s, u64>> {
    fn get_byte_slice(&self, index: usize) -> (u64, ByteSlice<'s>) {
        self.count.get_byte_slice(index)
    }
}

impl<const K: u64> ContainerBytes for Fixeds<K, u64> {
    fn byte_slice(&self, index: usize) -> ByteSlice<'_> {
        ByteSlice::of_view(self.count.words())
    }

    fn load(_alloc: Global, store: &DecodedStore<'_>, offset: usize) -> Result<Self, GrowError> {
        let bytes = store.get(offset);
        ByteSlice::of_bytes(bytes).holds_bytes();
        Ok(Fixeds {
            count: word_in_bytes(bytes, 0),
        })
    }
}

impl<const K: u64> Kept for Fixeds<K, u64> {}

impl<const K: u64, CC: Words> Offsets for Fixeds<K, CC> {
    ghost bounds = { fixed_bounds K };

    fn offset(&self, index: usize) -> u64 {
        self.get(index)
    }

    fn rises_to_tallied<L>(&self, end: u64, tally: &mut Tally<L>) -> bool {
        K * self.count.word(0) == end
    }
}

impl<const K: u64> PushAfter for Fixeds<K, u64> {
    /// Appends the offset, as the push of a `u64` does.
    ///
    /// # Requires
    /// A well-formed column.
    ///
    /// # Errors
    /// As the push of a `u64`.
    fn push_after(&mut self, _last: u64, offset: u64) -> Result<(), GrowError>
        requires sound { IsSound (fixed_format K) (counted self.old.count) }
        ensures ok { OnOk result (Took (fixed_format K) (counted self.old.count) (counted self.new.count) (word_row offset ∷ [])) }
        ensures err { IfErr result (λ e. Refused (fixed_format K) (counted self.old.count) (counted self.new.count) (word_row offset ∷ []) e) }
        ensures wanted { IfErr result (WasFull (⟦<Fixeds<K, u64> as Column>⟧.room self.old) (word_row offset ∷ [])) }
        ensures left { OnOk result (Leaves (⟦<Fixeds<K, u64> as Column>⟧.room self.old) (⟦<Fixeds<K, u64> as Column>⟧.room self.new) (word_row offset ∷ [])) }
        ensures limit { IfErr result IsLimit }
        ensures length { (result ≡ Err GrowError.Length) ↔ IsTrue (passes K (self.old.count + 1)) }
        ensures offset { (result ≡ Err GrowError.Offset) ↔ (IsFalse (passes K (self.old.count + 1)) × (offset ≡ K * (self.old.count + 1) → ⊥)) }
    {
        Push::<u64>::push(self, offset)
    }
}

impl<const K: u64> ReserveOffsets for Fixeds<K, u64> {
    ghost follow = { λ column room last os e h c. tt };

    ghost add = { λ room more os others f c. tt };
}

impl<const K: u64, W: Offsets> ExtendShifted<W> for Fixeds<K, u64> {
    /// Pushes the shifted offsets in order, or none; allocates nothing.
    ///
    /// # Requires
    /// As the trait's method.
    ///
    /// # Errors
    /// `Length` or `Offset`, as a push; never `Memory`.
    fn extend_shifted_tallied<L>(
        &mut self,
        view: &W,
        range: Range<usize>,
        lower: u64,
        start: usize,
        tally: &mut Tally<L>,
    ) -> Result<(), GrowError>
        requires sound { IsSound (fixed_format K) (counted self.old.count) }
        requires view_sound { IsSound W.format (W.content view.now) }
        requires ordered { range.start ≤ range.«end» }
        requires in_range { range.«end» ≤ length (W.format.rows (W.content view.now)) }
        requires lower { slice_get (0 ∷ numbers (W.format.rows (W.content view.now))) range.start ≡ Some lower }
        requires held { (i n : ℕ) → range.start ≤ i → i < range.«end» → slice_get (numbers (W.format.rows (W.content view.now))) i ≡ Some n → (lower ≤ n) × (start + (n - lower) < 2 ^ 64) }
        ensures ok { OnOk result (Took (fixed_format K) (counted self.old.count) (counted self.new.count) (take (range.«end» - range.start) (drop range.start (shifted lower start (numbers (W.format.rows (W.content view.now))))))) }
        ensures err { IfErr result (λ e. Refused (fixed_format K) (counted self.old.count) (counted self.new.count) (take (range.«end» - range.start) (drop range.start (shifted lower start (numbers (W.format.rows (W.content view.now)))))) e) }
        ensures wanted { IfErr result (WasFull (⟦<Fixeds<K, u64> as Column>⟧.room self.old) (take (range.«end» - range.start) (drop range.start (shifted lower start (numbers (W.format.rows (W.content view.now))))))) }
        ensures left { OnOk result (Leaves (⟦<Fixeds<K, u64> as Column>⟧.room self.old) (⟦<Fixeds<K, u64> as Column>⟧.room self.new) (take (range.«end» - range.start) (drop range.start (shifted lower start (numbers (W.format.rows (W.content view.now))))))) }
        ensures limit { IfErr result IsLimit }
        ensures count_stays { OnErr result (self.new.count ≡ self.old.count) }
        ensures turns { tally.new.turns ≤ tally.old.turns + (range.«end» - range.start) }
    {
        let before = self.count;
        let mut last = lower;
        for i in range.start..range.end {
            tally.tick();
            last = view.offset_after(i, last);
            match Push::<u64>::push(self, start as u64 + (last - lower)) {
                Ok(()) => {}
                Err(error) => {
                    self.count = before;
                    return Err(error);
                }
            }
        }
        Ok(())
    }
}

impl<const K: u64, CC: Words> StoredOffsets for Fixeds<K, CC> {
    ghost stored_bounds = { fixed_bounds K };

    fn rises_in_tallied<L>(
        store: &DecodedStore<'_>,
        offset: usize,
        end: u64,
        tally: &mut Tally<L>,
    ) -> bool {
        K * word_in_bytes(store.get(offset), 0) == end
    }
}

// Returns whether there are no bounds after the multiples of a head, and its stride is `stride`.
fn all_follow<HC: Words, BC: Words>(head: &HC, bounds: &BC, stride: u64) -> bool
    ensures yes { result ≡ true → (length (HC.bytes head.now) ≡ 16) × ((length (BC.bytes bounds.now) ≡ 0) × (word (HC.bytes head.now) 0 ≡ stride)) }
    ensures no { result ≡ false → length (HC.bytes head.now) ≡ 16 → length (BC.bytes bounds.now) ≡ 0 → word (HC.bytes head.now) 0 ≡ stride → ⊥ }
{
    if head.size() != 16 || bounds.size() != 0 {
        return false;
    }
    head.word(0) == stride
}

/// Converts the column if and only if `strided` returns `Some(K)`: there are no bounds after the multiples, and the
/// stride is `K`. The stride is 0 if no offset was ever pushed. Otherwise returns the column unchanged.
impl<const K: u64> TryFrom<Strides<Vec<u64>, [u64; 2]>> for Fixeds<K, u64> {
    type Error = Strides<Vec<u64>, [u64; 2]>;

    ghost try_from_gives = { λ item result. Tried K (λ f. ⟦<Fixeds<K, u64> as Column>⟧.content f) (λ s. ⟦<Strides<Vec<u64>, [u64; 2]> as Column>⟧.content s) item result };

    fn try_from(item: Strides<Vec<u64>, [u64; 2]>) -> Result<Self, Strides<Vec<u64>, [u64; 2]>> {
        if all_follow(&item.head, &item.bounds, K) {
            Ok(Fixeds {
                count: item.head.word(1),
            })
        } else {
            Err(item)
        }
    }
}

/// Converts a well-formed view if and only if `strided` returns `Some(K)`: there are no bounds after the multiples, and
/// the stride is `K`. Otherwise returns the view unchanged, well-formed or not. A malformed view may convert to a
/// malformed one with the same rows.
impl<'v, const K: u64> TryFrom<Strides<View<'v, u64>, View<'v, u64>>> for Fixeds<K, View<'v, u64>> {
    type Error = Strides<View<'v, u64>, View<'v, u64>>;

    ghost try_from_gives = { λ item result. Tried K (λ f. ⟦<Fixeds<K, View<'v, u64>> as Column>⟧.content f) (λ s. ⟦<Strides<View<'v, u64>, View<'v, u64>> as Column>⟧.content s) item result };

    fn try_from(
        item: Strides<View<'v, u64>, View<'v, u64>>,
    ) -> Result<Self, Strides<View<'v, u64>, View<'v, u64>>> {
        if all_follow(&item.head, &item.bounds, K) {
            Ok(Fixeds {
                count: item.head.part(1, 2),
            })
        } else {
            Err(item)
        }
    }
}

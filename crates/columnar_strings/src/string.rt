//! Strings as lists of bytes: the bytes of all strings in one column, and the end of each string in another. They have
//! the layout and the laws of lists.
ghost use Rattle.std.specs.Prelude.{◌≡◌, ◌+◌, ◌-◌, ◌<◌, ◌≤◌, length, slice_get, Some, take, drop, OnOk, IfOk, IfErr, IsUtf8, refl};
ghost use Rattle.std.specs.Int.{to_le_bytes, w8};
ghost use Rattle.columnar_base.specs.Row.{Row};
ghost use Rattle.columnar_base.specs.Format.{both, IsSound};
ghost use Rattle.columnar_base.specs.Change.{Copied, Refused};
ghost use Rattle.columnar_base.specs.Room.{WasFull, Leaves};
ghost use Rattle.columnar_base.specs.Elements.{elements, bytes_format};
ghost use Rattle.columnar_base.specs.Texts.{text_bytes, text_row};
ghost use Rattle.columnar_base.specs.TwoPartsLaws.{two_counted};
ghost use Rattle.columnar_lists.specs.Lists.{lists_format};
ghost use Rattle.columnar_lists.specs.ListLaws.{same_lists, lists_lawful, lists_storable};
ghost use Rattle.columnar_lists.specs.Rooms.{lists_room};
ghost use Rattle.columnar_strings.specs.Strings.{strings_format};

mod earlier;
mod push;
mod quoted;
mod show;
mod shown;
mod walk;

use columnar_base::fault::{GrowError, OwnError, StoreFault};
use columnar_base::tally::Tally;
use columnar_base::traits::{Clear, Column, Index, Len};
use columnar_core::byte_slice::ByteSlice;
use columnar_core::bytes::{AsBytes, Check, FromBytes, Stored};
use columnar_core::container::{
    Borrow, Container, ContainerBytes, ExtendFrom, Named, Reborrow, Reserve, Storage, Truncate,
};
use columnar_core::offsets::{ExtendShifted, Offsets, PushAfter, ReserveOffsets, StoredOffsets};
use columnar_core::store::DecodedStore;
use columnar_core::two::{byte_slice_of_two, slice_of_two};
use columnar_core::vector::elements_between;
use columnar_lists::parts::{check_lists, copy_lists_tallied, cut_lists, range_of, reserve_lists};
use columnar_lists::vector::Vecs;
pub use push::Text;
pub use quoted::Quoted;
pub use shown::Shown;
use std::alloc::Global;
use std::ops::Range;
pub use walk::StringIter;

/// A column of strings. String i has the bytes from bound i - 1 (0 for the first string) to bound i. The column is
/// well-formed if its parts are, the bounds never decrease, and the last one (0 if there is none) is the number of
/// bytes. The bytes of a string need not be UTF-8: `get_str` tests them.
#[derive(Clone, Copy, PartialEq, Drop)]
pub struct Strings<BC = Vec<u64>, VC = Vec<u8>> {
    /// The end of each string.
    pub bounds: BC,
    /// The bytes of all strings.
    pub values: VC,
}

impl<BC: Column, VC: Column> Column for Strings<BC, VC> {
    ghost format = { lists_format BC.format VC.format };

    ghost content = { λ s. both (BC.content s.bounds) (VC.content s.values) };

    ghost room = { λ s. lists_room (BC.room s.bounds) (VC.room s.values) (length (VC.format.rows (VC.content s.values))) };
}

impl<BC: Len, VC: Column> Len for Strings<BC, VC> {
    fn len(&self) -> usize {
        self.bounds.len()
    }
}

// Returns the bytes of string `index`.
fn string_at<'a, BC: Offsets>(bounds: &BC, values: &'a [u8], index: usize) -> &'a [u8]
    requires sound { IsSound (strings_format BC.format) (both (BC.content bounds.now) (elements (to_le_bytes w8) values.now)) }
    requires in_range { index < length ((strings_format BC.format).rows (both (BC.content bounds.now) (elements (to_le_bytes w8) values.now))) }
    ensures { slice_get ((strings_format BC.format).rows (both (BC.content bounds.now) (elements (to_le_bytes w8) values.now))) index ≡ Some (text_row result.now) }
{
    let (lower, upper) = range_of(bounds, index);
    elements_between(values, lower, upper)
}

/// A row is the bytes of the string, read in place.
impl<'a, BC: Offsets> Index for Strings<BC, &'a [u8]> {
    type Ref = &'a [u8];

    fn get(&self, index: usize) -> &'a [u8] {
        string_at(&self.bounds, self.values, index)
    }
}

/// A row is the bytes of the string, read in place.
impl<'a, BC: Offsets> Index for &'a Strings<BC, Vec<u8>> {
    type Ref = &'a [u8];

    fn get(&self, index: usize) -> &'a [u8] {
        let column: &'a Strings<BC, Vec<u8>> = *self;
        string_at(&column.bounds, column.values.as_slice(), index)
    }
}

/// Returns the bytes of a string as text; copies nothing.
///
/// # Errors
/// `Utf8` if and only if the bytes are not UTF-8.
pub fn as_text(bytes: &[u8]) -> Result<&str, OwnError>
    ensures ok { IfOk result (λ s. (s.now ≡ bytes.now) × IsUtf8 bytes.now) }
    ensures err { IfErr result (λ e. (e ≡ OwnError.Utf8) × (IsUtf8 bytes.now → ⊥)) }
    ensures row { IfErr result (λ _. IsUtf8 (text_bytes (text_row bytes.now)) → ⊥) }
{
    match str::from_utf8(bytes) {
        Ok(text) => Ok(text),
        Err(_) => Err(OwnError::Utf8),
    }
}

impl<'a, BC: Offsets> Strings<BC, &'a [u8]> {
    /// Returns string `index` as text.
    ///
    /// # Requires
    /// A well-formed column, and `index` below its length.
    ///
    /// # Errors
    /// `Utf8` if and only if the bytes are not UTF-8.
    pub fn get_str(&self, index: usize) -> Result<&'a str, OwnError>
        requires sound { IsSound (strings_format BC.format) (⟦<Strings<BC, &'a [u8]> as Column>⟧.content self.now) }
        requires in_range { index < length ((strings_format BC.format).rows (⟦<Strings<BC, &'a [u8]> as Column>⟧.content self.now)) }
        ensures ok { IfOk result (λ s. (slice_get ((strings_format BC.format).rows (⟦<Strings<BC, &'a [u8]> as Column>⟧.content self.now)) index ≡ Some (text_row s.now)) × IsUtf8 s.now) }
        ensures err { IfErr result (λ e. (e ≡ OwnError.Utf8) × ((r : Row) → slice_get ((strings_format BC.format).rows (⟦<Strings<BC, &'a [u8]> as Column>⟧.content self.now)) index ≡ Some r → IsUtf8 (text_bytes r) → ⊥)) }
    {
        as_text(string_at(&self.bounds, self.values, index))
    }
}

impl<BC: Clear + Offsets, VC: Clear> Clear for Strings<BC, VC> {
    fn clear(&mut self) {
        self.bounds.clear();
        self.values.clear();
    }
}

impl<BC: Truncate + Offsets, VC: Truncate> Truncate for Strings<BC, VC> {
    ghost lawful = { lists_lawful BC.format VC.format BC.lawful VC.lawful };

    fn truncate(&mut self, n: usize) {
        cut_lists(&mut self.bounds, &mut self.values, n);
    }
}

impl<BC: Storage + Offsets, VC: Storage> Storage for Strings<BC, VC> {
    fn empty(alloc: Global) -> Self {
        let bounds = BC::empty(alloc);
        let values = VC::empty(alloc);
        Strings { bounds, values }
    }

    fn duplicate(&self, alloc: Global) -> Result<Self, GrowError> {
        let bounds = self.bounds.duplicate(alloc)?;
        let values = self.values.duplicate(alloc)?;
        Ok(Strings { bounds, values })
    }
}

impl<BC: ReserveOffsets, VC: Reserve> Reserve for Strings<BC, VC> {
    type Room = (BC::Room, VC::Room);

    ghost reserves = { BC.reserves × VC.reserves };

    ghost covers = { λ r. lists_room (BC.covers r.0) (VC.covers r.1) 0 };

    fn no_room() -> (BC::Room, VC::Room) {
        (BC::no_room(), VC::no_room())
    }

    fn reserve_room(&mut self, room: (BC::Room, VC::Room)) -> Result<(), GrowError> {
        reserve_lists(&mut self.bounds, &mut self.values, room)
    }
}

impl<'a, BC: Borrow<'a, Borrowed: Offsets>> Borrow<'a> for Strings<BC, Vec<u8>> {
    type Ref = &'a [u8];

    type Borrowed = Strings<BC::Borrowed, &'a [u8]>;

    type Parts = Named<BC::Ref, BC::Parts>;

    ghost same_format = { same_lists BC.same_format (refl {a = bytes_format}) };

    fn borrow(&'a self) -> Strings<BC::Borrowed, &'a [u8]> {
        let bounds = self.bounds.borrow();
        let values = self.values.as_slice();
        Strings { bounds, values }
    }
}

impl<
    W: Offsets + Copy,
    V: Column + Copy,
    BC: ExtendFrom<W> + ExtendShifted<W> + Offsets,
    VC: ExtendFrom<V>,
> ExtendFrom<Strings<W, V>> for Strings<BC, VC> {
    fn add_room(room: (BC::Room, VC::Room), view: Strings<W, V>) -> (BC::Room, VC::Room) {
        (
            BC::add_room(room.0, view.bounds),
            VC::add_room(room.1, view.values),
        )
    }

    fn extend_from_self(
        &mut self,
        view: Strings<W, V>,
        range: Range<usize>,
    ) -> Result<(), GrowError> {
        self.extend_strings_tallied(view, range, &mut Tally::new())
    }
}

impl<BC: Offsets, VC: Column> Strings<BC, VC> {
    /// Does what `extend_from_self` does, and counts its steps over bounds in the tally: at most one for each string.
    ///
    /// # Requires
    /// As `extend_from_self`.
    ///
    /// # Errors
    /// As `extend_from_self`.
    pub fn extend_strings_tallied<W: Offsets + Copy, V: Column + Copy, L>(
        &mut self,
        view: Strings<W, V>,
        range: Range<usize>,
        tally: &mut Tally<L>,
    ) -> Result<(), GrowError>
    where
        BC: ExtendShifted<W>,
        VC: ExtendFrom<V>,
        requires sound { IsSound (lists_format BC.format VC.format) (both (BC.content self.old.bounds) (VC.content self.old.values)) }
        requires view_sound { IsSound (lists_format W.format V.format) (both (W.content view.bounds) (V.content view.values)) }
        requires ordered { range.start ≤ range.«end» }
        requires in_range { range.«end» ≤ length ((lists_format W.format V.format).rows (both (W.content view.bounds) (V.content view.values))) }
        ensures ok { OnOk result (Copied (lists_format BC.format VC.format) (both (BC.content self.old.bounds) (VC.content self.old.values)) (both (BC.content self.new.bounds) (VC.content self.new.values)) range.start (take (range.«end» - range.start) (drop range.start ((lists_format W.format V.format).rows (both (W.content view.bounds) (V.content view.values)))))) }
        ensures err { IfErr result (λ e. Refused (lists_format BC.format VC.format) (both (BC.content self.old.bounds) (VC.content self.old.values)) (both (BC.content self.new.bounds) (VC.content self.new.values)) (take (range.«end» - range.start) (drop range.start ((lists_format W.format V.format).rows (both (W.content view.bounds) (V.content view.values))))) e) }
        ensures wanted { IfErr result (WasFull (lists_room (BC.room self.old.bounds) (VC.room self.old.values) (length (VC.format.rows (VC.content self.old.values)))) (take (range.«end» - range.start) (drop range.start ((lists_format W.format V.format).rows (both (W.content view.bounds) (V.content view.values)))))) }
        ensures left { OnOk result (Leaves (lists_room (BC.room self.old.bounds) (VC.room self.old.values) (length (VC.format.rows (VC.content self.old.values)))) (lists_room (BC.room self.new.bounds) (VC.room self.new.values) (length (VC.format.rows (VC.content self.new.values)))) (take (range.«end» - range.start) (drop range.start ((lists_format W.format V.format).rows (both (W.content view.bounds) (V.content view.values)))))) }
        ensures turns { tally.new.turns ≤ tally.old.turns + (range.«end» - range.start) }
    {
        copy_lists_tallied(
            &mut self.bounds,
            &mut self.values,
            &view.bounds,
            view.values,
            range,
            tally,
        )
    }
}

impl<
    'a,
    BC: Container<'a>
        + Borrow<'a, Borrowed: Offsets>
        + ExtendShifted<<BC as Borrow<'a>>::Borrowed>
        + Offsets
        + PushAfter,
> Container<'a> for Strings<BC, Vec<u8>> {}

impl<'b, BC: Reborrow<'b>, VC: Reborrow<'b>> Reborrow<'b> for Strings<BC, VC> {
    type Short = Strings<BC::Short, VC::Short>;

    ghost same_short = { same_lists BC.same_short VC.same_short };

    fn reborrow(self) -> Strings<BC::Short, VC::Short> {
        let bounds = self.bounds.reborrow();
        let values = self.values.reborrow();
        Strings { bounds, values }
    }
}

impl<BC: StoredOffsets, VC: Stored> Stored for Strings<BC, VC> {
    ghost use Rattle.columnar_base.specs.Format.{slices_of};

    ghost counted = { λ s. two_counted (slices_of (BC.content s.bounds)) (slices_of (VC.content s.values)) (BC.counted s.bounds) (VC.counted s.values) };

    ghost storable = { lists_storable BC.format VC.format BC.storable VC.storable };

    fn slice_count() -> usize {
        Vecs::<VC, BC>::slice_count()
    }

    fn element_sizes(sizes: &mut Vec<usize>) -> Result<(), GrowError> {
        Vecs::<VC, BC>::element_sizes(sizes)
    }

    fn judge_tallied<L>(
        store: &DecodedStore<'_>,
        offset: usize,
        tally: &mut Tally<L>,
    ) -> Result<(), StoreFault> {
        Vecs::<VC, BC>::judge_tallied(store, offset, tally)
    }

    fn rows_in(store: &DecodedStore<'_>, offset: usize) -> usize {
        Vecs::<VC, BC>::rows_in(store, offset)
    }
}

impl<BC: Check + StoredOffsets + Offsets, VC: Check + Len> Check for Strings<BC, VC> {
    fn check_from_tallied<L>(&self, from: usize, tally: &mut Tally<L>) -> Result<(), StoreFault> {
        check_lists(&self.bounds, &self.values, from, tally)
    }
}

impl<'s, BC: FromBytes<'s> + StoredOffsets, VC: FromBytes<'s>> FromBytes<'s> for Strings<BC, VC> {
    fn from_store(store: &DecodedStore<'s>, offset: &mut usize) -> Self {
        let Vecs { bounds, values } = Vecs::<VC, BC>::from_store(store, offset);
        Strings { bounds, values }
    }
}

impl<'s, BC: AsBytes<'s> + StoredOffsets, VC: AsBytes<'s>> AsBytes<'s> for Strings<BC, VC> {
    fn get_byte_slice(&self, index: usize) -> (u64, ByteSlice<'s>) {
        slice_of_two(&self.bounds, &self.values, index)
    }
}

/// If the bytes cannot be loaded, the loaded bounds are dropped.
impl<BC: ContainerBytes + StoredOffsets + Drop, VC: ContainerBytes> ContainerBytes
    for Strings<BC, VC> {
    fn byte_slice(&self, index: usize) -> ByteSlice<'_> {
        byte_slice_of_two(&self.bounds, &self.values, index)
    }

    fn load(alloc: Global, store: &DecodedStore<'_>, offset: usize) -> Result<Self, GrowError> {
        let Vecs { bounds, values } = Vecs::<VC, BC>::load(alloc, store, offset)?;
        Ok(Strings { bounds, values })
    }
}

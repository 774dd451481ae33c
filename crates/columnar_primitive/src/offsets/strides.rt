//! Offsets that follow a stride as long as they can, then explicit offsets.
ghost use Rattle.std.specs.Prelude.{◌≡◌, ℕ, ◌+◌, ◌-◌, ◌*◌, ◌/◌, ◌%◌, ◌^◌, ◌<◌, ◌≤◌, ◌∷◌, [], length, take, drop, slice_get, Some, Err, OnOk, OnErr, IfErr, IsOk, IsTrue, refl};
ghost use Rattle.std.specs.Iterator.{IsFinite};
ghost use Rattle.columnar_core.specs.Row.{number};
ghost use Rattle.columnar_core.specs.Format.{both, slice, first, moved, IsSound};
ghost use Rattle.columnar_core.specs.Elements.{word_row};
ghost use Rattle.columnar_core.specs.Faults.{verdict};
ghost use Rattle.columnar_core.specs.Bounds.{rises, numbers, shifted};
ghost use Rattle.columnar_core.specs.Change.{Copied, Refused, Stayed, Took, WasCut};
ghost use Rattle.columnar_core.specs.Room.{WasFull, Leaves, Frees, KeepsRoom};
ghost use Rattle.columnar_primitive.specs.Stride.{strides_format, strides_broken, strides_rows, bounds_rows, strided, head_and_bounds, follows, joins, grown, head_pushed, bounds_pushed, offsets_in, head_extended, bounds_extended, all_join, head_cut, bounds_cut};
ghost use Rattle.columnar_primitive.specs.StrideLaws.{strides_lawful, strides_storable, strides_bounds};

use columnar_core::byte_slice::ByteSlice;
use columnar_core::bytes::{AsBytes, Check, FromBytes, Stored};
use columnar_core::container::{
    Borrow, Container, ContainerBytes, ExtendFrom, Reborrow, Reserve, Storage, Truncate,
};
use columnar_core::earlier::Kept;
use columnar_core::fault::{GrowError, StoreFault};
use columnar_core::offsets::{ExtendShifted, Offsets, PushAfter, ReserveOffsets, StoredOffsets};
use columnar_core::store::{DecodedStore, word_in_bytes};
use columnar_core::tally::Tally;
use columnar_core::traits::{Clear, Column, Index, Len, Push, PushRef};
use columnar_core::view::View;
use columnar_core::words::Words;
use std::alloc::{AllocError, Global};
use std::ops::Range;

/// Offsets: first the multiples of a stride, as many as the head says, then explicit bounds. An owned column has an
/// array and a `Vec`, a view has a `View` for each.
#[derive(Clone, Copy, Drop, PartialEq)]
pub struct Strides<BC = Vec<u64>, HC = [u64; 2]> {
    /// The stride, and the number of offsets that follow it.
    pub head: HC,
    /// The offsets after these.
    pub bounds: BC,
}

impl<BC: Words, HC: Words> Column for Strides<BC, HC> {
    ghost format = { strides_format };

    ghost content = { λ c. both (slice (HC.bytes c.head)) (slice (BC.bytes c.bounds)) };

    ghost room = { λ c rs. ⊥ };
}

impl<BC: Words, HC: Words> Len for Strides<BC, HC> {
    fn len(&self) -> usize {
        self.head.word(1) as usize + self.bounds.size() / 8
    }
}

impl<BC: Words, HC: Words> Index for Strides<BC, HC> {
    type Ref = u64;

    fn get(&self, index: usize) -> u64 {
        let length = self.head.word(1) as usize;
        if index < length {
            let stride = self.head.word(0);
            stride * index as u64 + stride
        } else {
            self.bounds.word(index - length)
        }
    }
}

impl<BC: Words, HC: Words> Strides<BC, HC> {
    /// Returns where list `index` starts and ends: the offset before offset `index` (0 for the first), and offset
    /// `index`.
    ///
    /// # Requires
    /// A well-formed column, and `index` below its length.
    pub fn bounds(&self, index: usize) -> (usize, usize)
        requires sound { IsSound strides_format (⟦<Strides<BC, HC> as Column>⟧.content self.now) }
        requires in_range { index < length (strides_rows (⟦<Strides<BC, HC> as Column>⟧.content self.now)) }
        ensures lower { slice_get (number 0 ∷ strides_rows (⟦<Strides<BC, HC> as Column>⟧.content self.now)) index ≡ Some (number result.0) }
        ensures upper { slice_get (strides_rows (⟦<Strides<BC, HC> as Column>⟧.content self.now)) index ≡ Some (number result.1) }
    {
        let lower = if index == 0 { 0 } else { self.get(index - 1) };
        (lower as usize, self.get(index) as usize)
    }

    /// Returns the stride if there are no bounds after the multiples, otherwise `None`. Without offsets it returns the
    /// stride in the head: that of the offsets before they were cut, or 0 if there never were any.
    ///
    /// # Requires
    /// A well-formed column.
    pub fn strided(&self) -> Option<u64>
        requires { IsSound strides_format (⟦<Strides<BC, HC> as Column>⟧.content self.now) }
        ensures { result ≡ strided (⟦<Strides<BC, HC> as Column>⟧.content self.now) }
    {
        if self.bounds.size() == 0 {
            Some(self.head.word(0))
        } else {
            None
        }
    }
}

impl Strides<Vec<u64>, [u64; 2]> {
    /// Returns the column of the first `length` multiples of `stride`.
    ///
    /// # Requires
    /// `stride * length` below 2^64.
    pub fn new(alloc: Global, stride: u64, length: u64) -> Self
        requires { stride * length < 2 ^ 64 }
        ensures sound { IsSound strides_format (head_and_bounds result.head result.bounds.items) }
        ensures head { result.head ≡ stride ∷ length ∷ [] }
        ensures bounds { result.bounds.items ≡ [] }
    {
        Strides {
            head: [stride, length],
            bounds: Vec::new(alloc),
        }
    }

    /// Appends an offset. It joins the multiples if there are no bounds and it is the next multiple, or the first
    /// offset, which then is the stride; otherwise it joins the bounds. Joining the multiples allocates nothing.
    ///
    /// # Requires
    /// A well-formed column.
    ///
    /// # Errors
    /// `Length` if there are 2^64 - 1 offsets, or `Memory`. The head and the bounds stay.
    pub fn push(&mut self, item: u64) -> Result<(), GrowError>
        requires { IsSound strides_format (head_and_bounds self.old.head self.old.bounds.items) }
        ensures ok { OnOk result (Took strides_format (head_and_bounds self.old.head self.old.bounds.items) (head_and_bounds self.new.head self.new.bounds.items) (word_row item ∷ [])) }
        ensures err { IfErr result (λ e. Refused strides_format (head_and_bounds self.old.head self.old.bounds.items) (head_and_bounds self.new.head self.new.bounds.items) (word_row item ∷ []) e) }
        ensures head { OnOk result (self.new.head ≡ head_pushed self.old.head self.old.bounds.items item) }
        ensures bounds { OnOk result (self.new.bounds.items ≡ bounds_pushed self.old.head self.old.bounds.items item) }
        ensures head_stays { OnErr result (self.new.head ≡ self.old.head) }
        ensures bounds_stay { OnErr result (self.new.bounds.items ≡ self.old.bounds.items) }
        ensures full { length (strides_rows (head_and_bounds self.old.head self.old.bounds.items)) ≡ 2 ^ 64 - 1 → result ≡ Err GrowError.Length }
        ensures no_memory { length (strides_rows (head_and_bounds self.old.head self.old.bounds.items)) < 2 ^ 64 - 1 → IsTrue (joins self.old.head self.old.bounds.items item) → IsOk result }
    {
        let stride = self.head[0];
        let length = self.head[1];
        let count = self.bounds.len() as u64;
        if length + count == u64::MAX {
            return Err(GrowError::Length);
        }
        if count == 0 && follows(stride, length, item) {
            self.head = grown(stride, length, item);
            return Ok(());
        }
        self.bounds.push(item)?;
        Ok(())
    }

    /// Removes the last offset: from the bounds, or from the multiples if there are no bounds.
    ///
    /// # Requires
    /// A well-formed column with an offset.
    pub fn pop(&mut self)
        requires sound { IsSound strides_format (head_and_bounds self.old.head self.old.bounds.items) }
        requires some { 0 < length (strides_rows (head_and_bounds self.old.head self.old.bounds.items)) }
        ensures cut { WasCut strides_format (head_and_bounds self.old.head self.old.bounds.items) (head_and_bounds self.new.head self.new.bounds.items) (length (strides_rows (head_and_bounds self.old.head self.old.bounds.items)) - 1) }
        ensures head { self.new.head ≡ head_cut self.old.head (length (strides_rows (head_and_bounds self.old.head self.old.bounds.items)) - 1) }
        ensures bounds { self.new.bounds.items ≡ bounds_cut self.old.head self.old.bounds.items (length (strides_rows (head_and_bounds self.old.head self.old.bounds.items)) - 1) }
    {
        let rows = self.len();
        self.truncate(rows - 1);
    }

    /// Removes all offsets and the stride.
    pub fn clear(&mut self)
        ensures sound { IsSound strides_format (head_and_bounds self.new.head self.new.bounds.items) }
        ensures head { self.new.head ≡ 0 ∷ 0 ∷ [] }
        ensures bounds { self.new.bounds.items ≡ [] }
    {
        self.head = [0, 0];
        self.bounds.clear();
    }

    /// Keeps the first `n` offsets. Removes bounds first, then multiples; the stride stays.
    ///
    /// # Requires
    /// A well-formed column of at least `n` offsets.
    pub fn truncate(&mut self, n: usize)
        requires sound { IsSound strides_format (head_and_bounds self.old.head self.old.bounds.items) }
        requires in_range { n ≤ length (strides_rows (head_and_bounds self.old.head self.old.bounds.items)) }
        ensures cut { WasCut strides_format (head_and_bounds self.old.head self.old.bounds.items) (head_and_bounds self.new.head self.new.bounds.items) n }
        ensures head { self.new.head ≡ head_cut self.old.head n }
        ensures bounds { self.new.bounds.items ≡ bounds_cut self.old.head self.old.bounds.items n }
    {
        let stride = self.head[0];
        let length = self.head[1] as usize;
        if n <= length {
            self.head = [stride, n as u64];
            self.bounds.clear();
        } else {
            self.bounds.truncate(n - length);
        }
    }

    /// Reserves capacity for the bounds of the views. The head and the bounds stay.
    ///
    /// # Requires
    /// A well-formed column; a finite iterator that can be called.
    ///
    /// # Errors
    /// `Memory`, and no other error.
    pub fn reserve_for<'x, I: Iterator<Item = Strides<View<'x, u64>, View<'x, u64>>> + Drop>(
        &mut self,
        views: I,
    ) -> Result<(), GrowError>
        requires sound { IsSound strides_format (head_and_bounds self.old.head self.old.bounds.items) }
        requires callable { I.can_next views }
        requires finite { IsFinite (I.remaining views) }
        ensures stayed { Stayed strides_format (head_and_bounds self.old.head self.old.bounds.items) (head_and_bounds self.new.head self.new.bounds.items) }
        ensures head_stays { self.new.head ≡ self.old.head }
        ensures bounds_stay { self.new.bounds.items ≡ self.old.bounds.items }
        ensures memory { IfErr result (λ e. e ≡ GrowError.Memory) }
    {
        let mut room = 0;
        for view in views {
            room = Self::add_room(room, view);
        }
        self.reserve_room(room)
    }
}

// Returns whether `item` is the next multiple after `length` of them, or the first offset.
fn follows(stride: u64, length: u64, item: u64) -> bool
    requires { length < 2 ^ 64 - 1 }
    ensures { result ≡ follows stride length item }
{
    if length == 0 {
        return true;
    }
    match stride.checked_mul(length + 1) {
        Some(next) => item == next,
        None => false,
    }
}

// Returns the head with one more offset, which follows the stride.
fn grown(stride: u64, length: u64, item: u64) -> [u64; 2]
    requires { length < 2 ^ 64 - 1 }
    ensures { result ≡ grown stride length item }
{
    if length == 0 {
        [item, 1]
    } else {
        [stride, length + 1]
    }
}

impl Clear for Strides<Vec<u64>, [u64; 2]> {
    /// Removes all offsets, as `Strides::clear`.
    fn clear(&mut self)
        ensures sound { IsSound strides_format (head_and_bounds self.new.head self.new.bounds.items) }
        ensures rows { strides_rows (head_and_bounds self.new.head self.new.bounds.items) ≡ [] }
        ensures head { self.new.head ≡ 0 ∷ 0 ∷ [] }
        ensures freed { Frees strides_format (head_and_bounds self.old.head self.old.bounds.items) 0 (⟦<Strides<Vec<u64>, [u64; 2]> as Column>⟧.room self.old) (⟦<Strides<Vec<u64>, [u64; 2]> as Column>⟧.room self.new) }
        ensures bounds { self.new.bounds.items ≡ [] }
    {
        Strides::clear(self);
    }
}

impl Truncate for Strides<Vec<u64>, [u64; 2]> {
    ghost lawful = { strides_lawful };

    /// Keeps the first `n` offsets, as `Strides::truncate`.
    ///
    /// # Requires
    /// A well-formed column of at least `n` offsets.
    fn truncate(&mut self, n: usize)
        requires sound { IsSound strides_format (head_and_bounds self.old.head self.old.bounds.items) }
        requires in_range { n ≤ length (strides_rows (head_and_bounds self.old.head self.old.bounds.items)) }
        ensures cut { WasCut strides_format (head_and_bounds self.old.head self.old.bounds.items) (head_and_bounds self.new.head self.new.bounds.items) n }
        ensures freed { Frees strides_format (head_and_bounds self.old.head self.old.bounds.items) n (⟦<Strides<Vec<u64>, [u64; 2]> as Column>⟧.room self.old) (⟦<Strides<Vec<u64>, [u64; 2]> as Column>⟧.room self.new) }
        ensures head { self.new.head ≡ head_cut self.old.head n }
        ensures bounds { self.new.bounds.items ≡ bounds_cut self.old.head self.old.bounds.items n }
    {
        Strides::truncate(self, n);
    }
}

impl Storage for Strides<Vec<u64>, [u64; 2]> {
    /// Returns a column without offsets and without a stride.
    fn empty(alloc: Global) -> Self
        ensures sound { IsSound strides_format (head_and_bounds result.head result.bounds.items) }
        ensures rows { strides_rows (head_and_bounds result.head result.bounds.items) ≡ [] }
        ensures head { result.head ≡ 0 ∷ 0 ∷ [] }
        ensures bounds { result.bounds.items ≡ [] }
    {
        Strides::new(alloc, 0, 0)
    }

    fn duplicate(&self, alloc: Global) -> Result<Self, GrowError> {
        let bounds = Vec::from_slice(alloc, self.bounds.as_slice())?;
        Ok(Strides {
            head: self.head,
            bounds,
        })
    }
}

impl Reserve for Strides<Vec<u64>, [u64; 2]> {
    type Room = usize;

    ghost reserves = { ⊥ };

    ghost covers = { λ r rs. ⊥ };

    fn no_room() -> usize {
        0
    }

    /// Reserves capacity for bounds. The head and the bounds stay.
    ///
    /// # Requires
    /// A well-formed column.
    ///
    /// # Errors
    /// `Memory`, and no other error.
    fn reserve_room(&mut self, room: usize) -> Result<(), GrowError>
        requires { IsSound strides_format (head_and_bounds self.old.head self.old.bounds.items) }
        ensures room { OnOk result (⊥ → KeepsRoom (λ rs. ⊥) (⟦<Strides<Vec<u64>, [u64; 2]> as Column>⟧.room self.new)) }
        ensures stayed { Stayed strides_format (head_and_bounds self.old.head self.old.bounds.items) (head_and_bounds self.new.head self.new.bounds.items) }
        ensures head_stays { self.new.head ≡ self.old.head }
        ensures bounds_stay { self.new.bounds.items ≡ self.old.bounds.items }
        ensures memory { IfErr result (λ e. e ≡ GrowError.Memory) }
    {
        self.bounds.reserve(room)?;
        Ok(())
    }
}

impl Push<u64> for Strides<Vec<u64>, [u64; 2]> {
    /// Appends an offset, as `Strides::push`.
    ///
    /// # Requires
    /// A well-formed column.
    ///
    /// # Errors
    /// As `Strides::push`.
    fn push(&mut self, item: u64) -> Result<(), GrowError>
        requires sound { IsSound strides_format (head_and_bounds self.old.head self.old.bounds.items) }
        ensures ok { OnOk result (Took strides_format (head_and_bounds self.old.head self.old.bounds.items) (head_and_bounds self.new.head self.new.bounds.items) (word_row item ∷ [])) }
        ensures err { IfErr result (λ e. Refused strides_format (head_and_bounds self.old.head self.old.bounds.items) (head_and_bounds self.new.head self.new.bounds.items) (word_row item ∷ []) e) }
        ensures wanted { IfErr result (WasFull (⟦<Strides<Vec<u64>, [u64; 2]> as Column>⟧.room self.old) (word_row item ∷ [])) }
        ensures left { OnOk result (Leaves (⟦<Strides<Vec<u64>, [u64; 2]> as Column>⟧.room self.old) (⟦<Strides<Vec<u64>, [u64; 2]> as Column>⟧.room self.new) (word_row item ∷ [])) }
        ensures head { OnOk result (self.new.head ≡ head_pushed self.old.head self.old.bounds.items item) }
        ensures bounds { OnOk result (self.new.bounds.items ≡ bounds_pushed self.old.head self.old.bounds.items item) }
        ensures head_stays { OnErr result (self.new.head ≡ self.old.head) }
        ensures bounds_stay { OnErr result (self.new.bounds.items ≡ self.old.bounds.items) }
        ensures full { length (strides_rows (head_and_bounds self.old.head self.old.bounds.items)) ≡ 2 ^ 64 - 1 → result ≡ Err GrowError.Length }
        ensures no_memory { length (strides_rows (head_and_bounds self.old.head self.old.bounds.items)) < 2 ^ 64 - 1 → IsTrue (joins self.old.head self.old.bounds.items item) → IsOk result }
    {
        Strides::push(self, item)
    }
}

impl<'x> Push<&'x u64> for Strides<Vec<u64>, [u64; 2]> {
    /// Appends an offset, as `Strides::push`.
    ///
    /// # Requires
    /// A well-formed column.
    ///
    /// # Errors
    /// As `Strides::push`.
    fn push(&mut self, item: &'x u64) -> Result<(), GrowError>
        requires sound { IsSound strides_format (head_and_bounds self.old.head self.old.bounds.items) }
        ensures ok { OnOk result (Took strides_format (head_and_bounds self.old.head self.old.bounds.items) (head_and_bounds self.new.head self.new.bounds.items) (word_row item.now ∷ [])) }
        ensures err { IfErr result (λ e. Refused strides_format (head_and_bounds self.old.head self.old.bounds.items) (head_and_bounds self.new.head self.new.bounds.items) (word_row item.now ∷ []) e) }
        ensures wanted { IfErr result (WasFull (⟦<Strides<Vec<u64>, [u64; 2]> as Column>⟧.room self.old) (word_row item.now ∷ [])) }
        ensures left { OnOk result (Leaves (⟦<Strides<Vec<u64>, [u64; 2]> as Column>⟧.room self.old) (⟦<Strides<Vec<u64>, [u64; 2]> as Column>⟧.room self.new) (word_row item.now ∷ [])) }
        ensures head { OnOk result (self.new.head ≡ head_pushed self.old.head self.old.bounds.items item.now) }
        ensures bounds { OnOk result (self.new.bounds.items ≡ bounds_pushed self.old.head self.old.bounds.items item.now) }
        ensures head_stays { OnErr result (self.new.head ≡ self.old.head) }
        ensures bounds_stay { OnErr result (self.new.bounds.items ≡ self.old.bounds.items) }
        ensures full { length (strides_rows (head_and_bounds self.old.head self.old.bounds.items)) ≡ 2 ^ 64 - 1 → result ≡ Err GrowError.Length }
        ensures no_memory { length (strides_rows (head_and_bounds self.old.head self.old.bounds.items)) < 2 ^ 64 - 1 → IsTrue (joins self.old.head self.old.bounds.items item.now) → IsOk result }
    {
        self.push_ref(item)
    }
}

impl PushRef<u64> for Strides<Vec<u64>, [u64; 2]> {
    /// Appends an offset, as `Strides::push`.
    ///
    /// # Requires
    /// A well-formed column.
    ///
    /// # Errors
    /// As `Strides::push`.
    fn push_ref(&mut self, item: &u64) -> Result<(), GrowError>
        requires sound { IsSound strides_format (head_and_bounds self.old.head self.old.bounds.items) }
        ensures ok { OnOk result (Took strides_format (head_and_bounds self.old.head self.old.bounds.items) (head_and_bounds self.new.head self.new.bounds.items) (word_row item.now ∷ [])) }
        ensures err { IfErr result (λ e. Refused strides_format (head_and_bounds self.old.head self.old.bounds.items) (head_and_bounds self.new.head self.new.bounds.items) (word_row item.now ∷ []) e) }
        ensures wanted { IfErr result (WasFull (⟦<Strides<Vec<u64>, [u64; 2]> as Column>⟧.room self.old) (word_row item.now ∷ [])) }
        ensures left { OnOk result (Leaves (⟦<Strides<Vec<u64>, [u64; 2]> as Column>⟧.room self.old) (⟦<Strides<Vec<u64>, [u64; 2]> as Column>⟧.room self.new) (word_row item.now ∷ [])) }
        ensures head { OnOk result (self.new.head ≡ head_pushed self.old.head self.old.bounds.items item.now) }
        ensures bounds { OnOk result (self.new.bounds.items ≡ bounds_pushed self.old.head self.old.bounds.items item.now) }
        ensures head_stays { OnErr result (self.new.head ≡ self.old.head) }
        ensures bounds_stay { OnErr result (self.new.bounds.items ≡ self.old.bounds.items) }
        ensures full { length (strides_rows (head_and_bounds self.old.head self.old.bounds.items)) ≡ 2 ^ 64 - 1 → result ≡ Err GrowError.Length }
        ensures no_memory { length (strides_rows (head_and_bounds self.old.head self.old.bounds.items)) < 2 ^ 64 - 1 → IsTrue (joins self.old.head self.old.bounds.items item.now) → IsOk result }
    {
        Strides::push(self, *item)
    }
}

impl<'x> ExtendFrom<Strides<View<'x, u64>, View<'x, u64>>> for Strides<Vec<u64>, [u64; 2]> {
    fn add_room(room: usize, view: Strides<View<'x, u64>, View<'x, u64>>) -> usize {
        room.saturating_add(view.bounds.size() / 8)
    }

    /// Pushes the offsets of the range in order, or none. If all of them join the multiples, it allocates nothing, and
    /// returns `Length` if and only if there would be more than 2^64 - 1 offsets.
    ///
    /// # Requires
    /// A well-formed column and view, and a range of the view's rows.
    ///
    /// # Errors
    /// As `ExtendFrom::extend_from_self`. The head and the bounds stay.
    fn extend_from_self(
        &mut self,
        view: Strides<View<'x, u64>, View<'x, u64>>,
        range: Range<usize>,
    ) -> Result<(), GrowError>
        requires sound { IsSound strides_format (head_and_bounds self.old.head self.old.bounds.items) }
        requires view_sound { IsSound strides_format (⟦<Strides<View<'x, u64>, View<'x, u64>> as Column>⟧.content view) }
        requires ordered { range.start ≤ range.«end» }
        requires in_range { range.«end» ≤ length (strides_rows (⟦<Strides<View<'x, u64>, View<'x, u64>> as Column>⟧.content view)) }
        ensures ok { OnOk result (Copied strides_format (head_and_bounds self.old.head self.old.bounds.items) (head_and_bounds self.new.head self.new.bounds.items) range.start (take (range.«end» - range.start) (drop range.start (strides_rows (⟦<Strides<View<'x, u64>, View<'x, u64>> as Column>⟧.content view.entry))))) }
        ensures err { IfErr result (λ e. Refused strides_format (head_and_bounds self.old.head self.old.bounds.items) (head_and_bounds self.new.head self.new.bounds.items) (take (range.«end» - range.start) (drop range.start (strides_rows (⟦<Strides<View<'x, u64>, View<'x, u64>> as Column>⟧.content view.entry)))) e) }
        ensures wanted { IfErr result (WasFull (⟦<Strides<Vec<u64>, [u64; 2]> as Column>⟧.room self.old) (take (range.«end» - range.start) (drop range.start (strides_rows (⟦<Strides<View<'x, u64>, View<'x, u64>> as Column>⟧.content view.entry))))) }
        ensures left { OnOk result (Leaves (⟦<Strides<Vec<u64>, [u64; 2]> as Column>⟧.room self.old) (⟦<Strides<Vec<u64>, [u64; 2]> as Column>⟧.room self.new) (take (range.«end» - range.start) (drop range.start (strides_rows (⟦<Strides<View<'x, u64>, View<'x, u64>> as Column>⟧.content view.entry))))) }
        ensures head { OnOk result (self.new.head ≡ head_extended self.old.head self.old.bounds.items (offsets_in (⟦<Strides<View<'x, u64>, View<'x, u64>> as Column>⟧.content view.entry) range.start range.«end»)) }
        ensures bounds { OnOk result (self.new.bounds.items ≡ bounds_extended self.old.head self.old.bounds.items (offsets_in (⟦<Strides<View<'x, u64>, View<'x, u64>> as Column>⟧.content view.entry) range.start range.«end»)) }
        ensures head_stays { OnErr result (self.new.head ≡ self.old.head) }
        ensures bounds_stay { OnErr result (self.new.bounds.items ≡ self.old.bounds.items) }
        ensures full { 2 ^ 64 - 1 < length (strides_rows (head_and_bounds self.old.head self.old.bounds.items)) + (range.«end» - range.start) → IsTrue (all_join self.old.head self.old.bounds.items (offsets_in (⟦<Strides<View<'x, u64>, View<'x, u64>> as Column>⟧.content view.entry) range.start range.«end»)) → result ≡ Err GrowError.Length }
        ensures no_memory { length (strides_rows (head_and_bounds self.old.head self.old.bounds.items)) + (range.«end» - range.start) ≤ 2 ^ 64 - 1 → IsTrue (all_join self.old.head self.old.bounds.items (offsets_in (⟦<Strides<View<'x, u64>, View<'x, u64>> as Column>⟧.content view.entry) range.start range.«end»)) → IsOk result }
    {
        let head = self.head;
        let count = self.bounds.len();
        for i in range.start..range.end {
            match Strides::push(self, view.get(i)) {
                Ok(()) => {}
                Err(error) => {
                    self.head = head;
                    self.bounds.truncate(count);
                    return Err(error);
                }
            }
        }
        Ok(())
    }
}

impl<'a> Borrow<'a> for Strides<Vec<u64>, [u64; 2]> {
    type Ref = u64;

    type Borrowed = Strides<View<'a, u64>, View<'a, u64>>;

    type Parts = u64;

    ghost same_format = { refl };

    fn borrow(&'a self) -> Strides<View<'a, u64>, View<'a, u64>> {
        Strides {
            head: self.head.words(),
            bounds: self.bounds.words(),
        }
    }
}

impl<'a> Container<'a> for Strides<Vec<u64>, [u64; 2]> {}

impl<'a, 'b> Reborrow<'b> for Strides<View<'a, u64>, View<'a, u64>>
where
    'a: 'b,
{
    type Short = Strides<View<'b, u64>, View<'b, u64>>;

    ghost same_short = { refl };

    fn reborrow(self) -> Strides<View<'b, u64>, View<'b, u64>> {
        self
    }
}

// Validates a head and bounds. It computes with the length that the head claims, and does not loop over it.
fn fault_in<HC: Words, BC: Words>(head: &HC, bounds: &BC, from: usize) -> Result<(), StoreFault>
    requires { from + 2 < 2 ^ 64 }
    ensures { verdict result ≡ first (moved from (strides_broken (both (slice (HC.bytes head.now)) (slice (BC.bytes bounds.now))))) }
{
    if head.size() != 16 {
        return Err(StoreFault::HeadSize(from));
    }
    if bounds.size() % 8 != 0 {
        return Err(StoreFault::ElementSize(from + 1));
    }
    let length = head.word(1);
    match head.word(0).checked_mul(length) {
        Some(_) => {}
        None => return Err(StoreFault::Stride(from)),
    }
    match length.checked_add(bounds.size() as u64 / 8) {
        Some(_) => Ok(()),
        None => Err(StoreFault::Length(from)),
    }
}

impl<BC: Words, HC: Words> Stored for Strides<BC, HC> {
    ghost storable = { strides_storable };

    ghost counted = { λ c. refl };

    fn slice_count() -> usize {
        2
    }

    fn element_sizes(sizes: &mut Vec<usize>) -> Result<(), GrowError> {
        sizes.extend_from_slice(&[8, 8])?;
        Ok(())
    }

    fn judge_tallied<L>(
        store: &DecodedStore<'_>,
        offset: usize,
        tally: &mut Tally<L>,
    ) -> Result<(), StoreFault> {
        let count = store.len();
        let head = View::<u64>::from_le_bytes(store.get(offset));
        fault_in(
            &head,
            &View::<u64>::from_le_bytes(store.get(offset + 1)),
            offset,
        )
    }

    fn rows_in(store: &DecodedStore<'_>, offset: usize) -> usize {
        word_in_bytes(store.get(offset), 1) as usize + store.get(offset + 1).len() / 8
    }
}

impl<BC: Words, HC: Words> Check for Strides<BC, HC> {
    fn check_from_tallied<L>(&self, from: usize, tally: &mut Tally<L>) -> Result<(), StoreFault> {
        fault_in(&self.head, &self.bounds, from)
    }
}

impl<'s> FromBytes<'s> for Strides<View<'s, u64>, View<'s, u64>> {
    fn from_store(store: &DecodedStore<'s>, offset: &mut usize) -> Self {
        let start = *offset;
        *offset = start + 2;
        Strides {
            head: View::from_le_bytes(store.get(start)),
            bounds: View::from_le_bytes(store.get(start + 1)),
        }
    }
}

impl<'s> AsBytes<'s> for Strides<View<'s, u64>, View<'s, u64>> {
    fn get_byte_slice(&self, index: usize) -> (u64, ByteSlice<'s>) {
        if index == 0 {
            self.head.get_byte_slice(0)
        } else {
            self.bounds.get_byte_slice(0)
        }
    }
}

impl ContainerBytes for Strides<Vec<u64>, [u64; 2]> {
    fn byte_slice(&self, index: usize) -> ByteSlice<'_> {
        if index == 0 {
            ByteSlice::of_view(self.head.words())
        } else {
            ByteSlice::of_view(self.bounds.words())
        }
    }

    fn load(alloc: Global, store: &DecodedStore<'_>, offset: usize) -> Result<Self, GrowError> {
        let bytes = store.get(offset);
        ByteSlice::of_bytes(bytes).holds_bytes();
        let head = [word_in_bytes(bytes, 0), word_in_bytes(bytes, 1)];
        let bounds = Vec::<u64>::load(alloc, store, offset + 1)?;
        Ok(Strides { head, bounds })
    }
}

// Returns whether the words, from `first` on, never decrease and end at `end`. Takes a step for each word.
fn rise<BC: Words, L>(bounds: &BC, first: u64, end: u64, tally: &mut Tally<L>) -> bool
    requires { length (BC.bytes bounds.now) % 8 ≡ 0 }
    ensures value { result ≡ rises first (numbers (bounds_rows (slice (BC.bytes bounds.now)))) end }
    ensures turns { tally.new.turns ≤ tally.old.turns + length (BC.bytes bounds.now) / 8 }
{
    let mut last = first;
    for i in 0..bounds.size() / 8 {
        tally.tick();
        let next = bounds.word(i);
        if next < last {
            return false;
        }
        last = next;
    }
    last == end
}

impl Kept for Strides<Vec<u64>, [u64; 2]> {}

impl<BC: Words, HC: Words> Offsets for Strides<BC, HC> {
    ghost bounds = { strides_bounds };

    fn offset(&self, index: usize) -> u64 {
        self.get(index)
    }

    fn rises_to_tallied<L>(&self, end: u64, tally: &mut Tally<L>) -> bool {
        let stride = self.head.word(0);
        rise(&self.bounds, stride * self.head.word(1), end, tally)
    }
}

impl PushAfter for Strides<Vec<u64>, [u64; 2]> {
    /// Appends an offset, as `Strides::push`.
    ///
    /// # Requires
    /// A well-formed column.
    ///
    /// # Errors
    /// As `Strides::push`.
    fn push_after(&mut self, _last: u64, offset: u64) -> Result<(), GrowError>
        requires sound { IsSound strides_format (head_and_bounds self.old.head self.old.bounds.items) }
        ensures ok { OnOk result (Took strides_format (head_and_bounds self.old.head self.old.bounds.items) (head_and_bounds self.new.head self.new.bounds.items) (word_row offset ∷ [])) }
        ensures err { IfErr result (λ e. Refused strides_format (head_and_bounds self.old.head self.old.bounds.items) (head_and_bounds self.new.head self.new.bounds.items) (word_row offset ∷ []) e) }
        ensures wanted { IfErr result (WasFull (⟦<Strides<Vec<u64>, [u64; 2]> as Column>⟧.room self.old) (word_row offset ∷ [])) }
        ensures left { OnOk result (Leaves (⟦<Strides<Vec<u64>, [u64; 2]> as Column>⟧.room self.old) (⟦<Strides<Vec<u64>, [u64; 2]> as Column>⟧.room self.new) (word_row offset ∷ [])) }
        ensures head { OnOk result (self.new.head ≡ head_pushed self.old.head self.old.bounds.items offset) }
        ensures bounds { OnOk result (self.new.bounds.items ≡ bounds_pushed self.old.head self.old.bounds.items offset) }
        ensures head_stays { OnErr result (self.new.head ≡ self.old.head) }
        ensures bounds_stay { OnErr result (self.new.bounds.items ≡ self.old.bounds.items) }
        ensures full { length (strides_rows (head_and_bounds self.old.head self.old.bounds.items)) ≡ 2 ^ 64 - 1 → result ≡ Err GrowError.Length }
        ensures no_memory { length (strides_rows (head_and_bounds self.old.head self.old.bounds.items)) < 2 ^ 64 - 1 → IsTrue (joins self.old.head self.old.bounds.items offset) → IsOk result }
    {
        Push::<u64>::push(self, offset)
    }
}

impl ReserveOffsets for Strides<Vec<u64>, [u64; 2]> {
    ghost follow = { λ column room last os e h c. c };

    ghost add = { λ room more os others f c. c };
}

impl<W: Offsets> ExtendShifted<W> for Strides<Vec<u64>, [u64; 2]> {
    /// Pushes the shifted offsets in order, or none. If all of them join the multiples, it allocates nothing, and
    /// returns `Length` if and only if there would be more than 2^64 - 1 offsets.
    ///
    /// # Requires
    /// As the trait's method.
    ///
    /// # Errors
    /// As the trait's method. The head and the bounds stay.
    fn extend_shifted_tallied<L>(
        &mut self,
        view: &W,
        range: Range<usize>,
        lower: u64,
        start: usize,
        tally: &mut Tally<L>,
    ) -> Result<(), GrowError>
        requires sound { IsSound strides_format (head_and_bounds self.old.head self.old.bounds.items) }
        requires view_sound { IsSound W.format (W.content view.now) }
        requires ordered { range.start ≤ range.«end» }
        requires in_range { range.«end» ≤ length (W.format.rows (W.content view.now)) }
        requires lower { slice_get (0 ∷ numbers (W.format.rows (W.content view.now))) range.start ≡ Some lower }
        requires held { (i n : ℕ) → range.start ≤ i → i < range.«end» → slice_get (numbers (W.format.rows (W.content view.now))) i ≡ Some n → (lower ≤ n) × (start + (n - lower) < 2 ^ 64) }
        ensures ok { OnOk result (Took strides_format (head_and_bounds self.old.head self.old.bounds.items) (head_and_bounds self.new.head self.new.bounds.items) (take (range.«end» - range.start) (drop range.start (shifted lower start (numbers (W.format.rows (W.content view.now))))))) }
        ensures err { IfErr result (λ e. Refused strides_format (head_and_bounds self.old.head self.old.bounds.items) (head_and_bounds self.new.head self.new.bounds.items) (take (range.«end» - range.start) (drop range.start (shifted lower start (numbers (W.format.rows (W.content view.now)))))) e) }
        ensures wanted { IfErr result (WasFull (⟦<Strides<Vec<u64>, [u64; 2]> as Column>⟧.room self.old) (take (range.«end» - range.start) (drop range.start (shifted lower start (numbers (W.format.rows (W.content view.now))))))) }
        ensures left { OnOk result (Leaves (⟦<Strides<Vec<u64>, [u64; 2]> as Column>⟧.room self.old) (⟦<Strides<Vec<u64>, [u64; 2]> as Column>⟧.room self.new) (take (range.«end» - range.start) (drop range.start (shifted lower start (numbers (W.format.rows (W.content view.now))))))) }
        ensures head { OnOk result (self.new.head ≡ head_extended self.old.head self.old.bounds.items (numbers (take (range.«end» - range.start) (drop range.start (shifted lower start (numbers (W.format.rows (W.content view.now)))))))) }
        ensures bounds { OnOk result (self.new.bounds.items ≡ bounds_extended self.old.head self.old.bounds.items (numbers (take (range.«end» - range.start) (drop range.start (shifted lower start (numbers (W.format.rows (W.content view.now)))))))) }
        ensures head_stays { OnErr result (self.new.head ≡ self.old.head) }
        ensures bounds_stay { OnErr result (self.new.bounds.items ≡ self.old.bounds.items) }
        ensures full { 2 ^ 64 - 1 < length (strides_rows (head_and_bounds self.old.head self.old.bounds.items)) + (range.«end» - range.start) → IsTrue (all_join self.old.head self.old.bounds.items (numbers (take (range.«end» - range.start) (drop range.start (shifted lower start (numbers (W.format.rows (W.content view.now)))))))) → result ≡ Err GrowError.Length }
        ensures no_memory { length (strides_rows (head_and_bounds self.old.head self.old.bounds.items)) + (range.«end» - range.start) ≤ 2 ^ 64 - 1 → IsTrue (all_join self.old.head self.old.bounds.items (numbers (take (range.«end» - range.start) (drop range.start (shifted lower start (numbers (W.format.rows (W.content view.now)))))))) → IsOk result }
        ensures turns { tally.new.turns ≤ tally.old.turns + (range.«end» - range.start) }
    {
        let head_before = self.head;
        let count_before = self.bounds.len();
        let mut last = lower;
        for i in range.start..range.end {
            tally.tick();
            last = view.offset_after(i, last);
            match Strides::push(self, start as u64 + (last - lower)) {
                Ok(()) => {}
                Err(error) => {
                    self.head = head_before;
                    self.bounds.truncate(count_before);
                    return Err(error);
                }
            }
        }
        Ok(())
    }
}

impl<BC: Words, HC: Words> StoredOffsets for Strides<BC, HC> {
    ghost stored_bounds = { strides_bounds };

    fn rises_in_tallied<L>(
        store: &DecodedStore<'_>,
        offset: usize,
        end: u64,
        tally: &mut Tally<L>,
    ) -> bool {
        let head = store.get(offset);
        let stride = word_in_bytes(head, 0);
        let last = stride * word_in_bytes(head, 1);
        rise(
            &View::<u64>::from_le_bytes(store.get(offset + 1)),
            last,
            end,
            tally,
        )
    }
}

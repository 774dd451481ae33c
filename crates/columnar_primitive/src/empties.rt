//! Columns of units, stored as their number.
ghost use Rattle.std.specs.Prelude.{◌≡◌, ℕ, ◌+◌, ◌-◌, ◌^◌, ◌<◌, ◌≤◌, [], ◌∷◌, length, take, drop, OnOk, OnErr, IfOk, IfErr, Err, refl};
ghost use Rattle.columnar_base.specs.Row.{unit};
ghost use Rattle.columnar_base.specs.Format.{IsSound, slice, slices_of};
ghost use Rattle.columnar_base.specs.Change.{Copied, Refused, Took};
ghost use Rattle.columnar_core.specs.Room.{WasFull, Leaves};
ghost use Rattle.columnar_primitive.specs.Counts.{number_in, word_of};
ghost use Rattle.columnar_primitive.specs.Units.{units, units_format};
ghost use Rattle.columnar_primitive.specs.UnitLaws.{units_lawful, units_storable};

use crate::count::Count;
use columnar_core::byte_slice::ByteSlice;
use columnar_core::bytes::{AsBytes, Check, FromBytes, Stored};
use columnar_core::container::{
    Borrow, Container, ContainerBytes, ExtendFrom, Reborrow, Reserve, Storage, Truncate,
};
use columnar_core::earlier::Kept;
use columnar_core::element::Element;
use columnar_core::fault::{GrowError, StoreFault};
use columnar_core::store::DecodedStore;
use columnar_core::tally::Tally;
use columnar_core::traits::{Clear, Column, Index, Len, Push, PushRef};
use columnar_core::view::View;
use std::alloc::Global;
use std::ops::Range;
use std::slice::from_ref;

/// A column of units. It stores only its number of rows.
#[derive(Clone, Copy)]
pub struct Empties<CC = u64> {
    /// The number of rows.
    pub count: CC,
    /// The unit that every row is.
    pub empty: (),
}

impl<CC: Count> Column for Empties<CC> {
    ghost format = { units_format };

    ghost content = { λ c. CC.held c.count };

    ghost room = { λ c rs. Unit {0} };
}

impl<CC: Count> Len for Empties<CC> {
    fn len(&self) -> usize {
        self.count.count() as usize
    }
}

impl<CC: Count> Index for Empties<CC> {
    type Ref = ();

    fn get(&self, index: usize) {
        self.empty
    }
}

/// Lends the unit that every row is.
impl<'a, CC: Count> Index for &'a Empties<CC> {
    type Ref = &'a ();

    fn get(&self, _index: usize) -> &'a () {
        let column: &'a Empties<CC> = *self;
        &column.empty
    }
}

impl Clear for Empties<u64> {
    fn clear(&mut self) {
        self.count = 0;
    }
}

impl Empties<u64> {
    // Adds `more` rows, or none if there would be more than 2^64 - 1; allocates nothing.
    fn add(&mut self, more: u64) -> Result<(), GrowError>
        ensures ok { OnOk result (self.new.count ≡ self.old.count + more) }
        ensures err { OnErr result (self.new.count ≡ self.old.count) }
        ensures length { IfErr result (λ e. (e ≡ GrowError.Length) × (2 ^ 64 - 1 < self.old.count + more)) }
        ensures full { 2 ^ 64 - 1 < self.old.count + more → result ≡ Err GrowError.Length }
        ensures held { self.new.count < 2 ^ 64 }
    {
        match self.count.checked_add(more) {
            Some(count) => {
                self.count = count;
                Ok(())
            }
            None => Err(GrowError::Length),
        }
    }
}

/// Allocates nothing, and succeeds if the column can hold the rows.
impl Push<()> for Empties<u64> {
    fn push(&mut self, item: ()) -> Result<(), GrowError>
        ensures ok { OnOk result (Took units_format (word_of self.old.count) (word_of self.new.count) (unit ∷ [])) }
        ensures err { IfErr result (λ e. Refused units_format (word_of self.old.count) (word_of self.new.count) (unit ∷ []) e) }
        ensures wanted { IfErr result (WasFull (⟦<Empties<u64> as Column>⟧.room self.old) (unit ∷ [])) }
        ensures left { OnOk result (Leaves (⟦<Empties<u64> as Column>⟧.room self.old) (⟦<Empties<u64> as Column>⟧.room self.new) (unit ∷ [])) }
        ensures length { IfErr result (λ e. e ≡ GrowError.Length) }
    {
        self.add(1)
    }
}

/// Allocates nothing, and succeeds if the column can hold the rows.
impl<'x> Push<&'x ()> for Empties<u64> {
    fn push(&mut self, item: &'x ()) -> Result<(), GrowError>
        ensures ok { OnOk result (Took units_format (word_of self.old.count) (word_of self.new.count) (unit ∷ [])) }
        ensures err { IfErr result (λ e. Refused units_format (word_of self.old.count) (word_of self.new.count) (unit ∷ []) e) }
        ensures wanted { IfErr result (WasFull (⟦<Empties<u64> as Column>⟧.room self.old) (unit ∷ [])) }
        ensures left { OnOk result (Leaves (⟦<Empties<u64> as Column>⟧.room self.old) (⟦<Empties<u64> as Column>⟧.room self.new) (unit ∷ [])) }
        ensures length { IfErr result (λ e. e ≡ GrowError.Length) }
    {
        self.push_ref(item)
    }
}

/// Allocates nothing, and succeeds if the column can hold the rows.
impl PushRef<()> for Empties<u64> {
    fn push_ref(&mut self, item: &()) -> Result<(), GrowError>
        ensures ok { OnOk result (Took units_format (word_of self.old.count) (word_of self.new.count) (unit ∷ [])) }
        ensures err { IfErr result (λ e. Refused units_format (word_of self.old.count) (word_of self.new.count) (unit ∷ []) e) }
        ensures wanted { IfErr result (WasFull (⟦<Empties<u64> as Column>⟧.room self.old) (unit ∷ [])) }
        ensures left { OnOk result (Leaves (⟦<Empties<u64> as Column>⟧.room self.old) (⟦<Empties<u64> as Column>⟧.room self.new) (unit ∷ [])) }
        ensures length { IfErr result (λ e. e ≡ GrowError.Length) }
    {
        Push::<()>::push(self, *item)
    }
}

impl Truncate for Empties<u64> {
    ghost lawful = { units_lawful };

    fn truncate(&mut self, n: usize) {
        self.count = n as u64;
    }
}

impl Storage for Empties<u64> {
    fn empty(_alloc: Global) -> Self {
        Empties {
            count: 0,
            empty: (),
        }
    }

    fn duplicate(&self, _alloc: Global) -> Result<Self, GrowError> {
        Ok(*self)
    }
}

impl Reserve for Empties<u64> {
    type Room = ();

    ghost reserves = { Unit {0} };

    ghost covers = { λ r rs. Unit {0} };

    fn no_room() {}

    fn reserve_room(&mut self, _room: ()) -> Result<(), GrowError> {
        Ok(())
    }
}

impl<V: Count + Copy> ExtendFrom<Empties<V>> for Empties<u64> {
    fn add_room(_room: (), _view: Empties<V>) {}

    /// Appends as many units as the range has rows; allocates nothing.
    ///
    /// # Requires
    /// A well-formed column and view, and a range of the view's rows.
    ///
    /// # Errors
    /// `Length` if and only if there would be more than 2^64 - 1 rows, and no other error.
    fn extend_from_self(&mut self, _view: Empties<V>, range: Range<usize>) -> Result<(), GrowError>
        requires sound { IsSound units_format (word_of self.old.count) }
        requires view_sound { IsSound units_format (V.held _view.count) }
        requires ordered { range.start ≤ range.«end» }
        requires in_range { range.«end» ≤ length (units (number_in (V.held _view.count))) }
        ensures ok { OnOk result (Copied units_format (word_of self.old.count) (word_of self.new.count) range.start (take (range.«end» - range.start) (drop range.start (units (number_in (V.held _view.count)))))) }
        ensures err { IfErr result (λ e. Refused units_format (word_of self.old.count) (word_of self.new.count) (take (range.«end» - range.start) (drop range.start (units (number_in (V.held _view.count))))) e) }
        ensures wanted { IfErr result (WasFull (⟦<Empties<u64> as Column>⟧.room self.old) (take (range.«end» - range.start) (drop range.start (units (number_in (V.held _view.count)))))) }
        ensures left { OnOk result (Leaves (⟦<Empties<u64> as Column>⟧.room self.old) (⟦<Empties<u64> as Column>⟧.room self.new) (take (range.«end» - range.start) (drop range.start (units (number_in (V.held _view.count)))))) }
        ensures length { IfErr result (λ e. (e ≡ GrowError.Length) × (2 ^ 64 - 1 < self.old.count + (range.«end» - range.start))) }
        ensures full { 2 ^ 64 - 1 < self.old.count + (range.«end» - range.start) → result ≡ Err GrowError.Length }
    {
        self.add((range.end - range.start) as u64)
    }
}

impl<'a> Borrow<'a> for Empties<u64> {
    type Ref = ();

    type Borrowed = Empties<View<'a, u64>>;

    type Parts = ();

    ghost same_format = { refl };

    fn borrow(&'a self) -> Empties<View<'a, u64>> {
        Empties {
            count: View::from_slice(from_ref(&self.count)),
            empty: (),
        }
    }
}

impl<'a> Container<'a> for Empties<u64> {}

impl<'a, 'b> Reborrow<'b> for Empties<View<'a, u64>>
where
    'a: 'b,
{
    type Short = Empties<View<'b, u64>>;

    ghost same_short = { refl };

    fn reborrow(self) -> Empties<View<'b, u64>> {
        self
    }
}

impl<CC: Count> Stored for Empties<CC> {
    ghost storable = { units_storable };

    ghost counted = { λ c. CC.one_slice c.count };

    fn slice_count() -> usize {
        1
    }

    fn element_sizes(sizes: &mut Vec<usize>) -> Result<(), GrowError> {
        sizes.push(8)?;
        Ok(())
    }

    fn judge_tallied<L>(
        store: &DecodedStore<'_>,
        offset: usize,
        _tally: &mut Tally<L>,
    ) -> Result<(), StoreFault> {
        if store.get(offset).len() == 8 {
            Ok(())
        } else {
            Err(StoreFault::HeadSize(offset))
        }
    }

    fn rows_in(store: &DecodedStore<'_>, offset: usize) -> usize {
        number_of(store.get(offset)) as usize
    }
}

impl<CC: Count> Check for Empties<CC> {
    fn check_from_tallied<L>(&self, from: usize, _tally: &mut Tally<L>) -> Result<(), StoreFault> {
        if self.count.is_one() {
            Ok(())
        } else {
            Err(StoreFault::HeadSize(from))
        }
    }
}

impl<'s> FromBytes<'s> for Empties<View<'s, u64>> {
    fn from_store(store: &DecodedStore<'s>, offset: &mut usize) -> Self {
        Empties {
            count: View::from_store(store, offset),
            empty: (),
        }
    }
}

impl<'s> AsBytes<'s> for Empties<View<'s, u64>> {
    fn get_byte_slice(&self, index: usize) -> (u64, ByteSlice<'s>) {
        self.count.get_byte_slice(index)
    }
}

impl ContainerBytes for Empties<u64> {
    fn byte_slice(&self, _index: usize) -> ByteSlice<'_> {
        ByteSlice::of_words(from_ref(&self.count))
    }

    fn load(_alloc: Global, store: &DecodedStore<'_>, offset: usize) -> Result<Self, GrowError> {
        Ok(Empties {
            count: number_of(store.get(offset)),
            empty: (),
        })
    }
}

// Returns the number of eight bytes.
fn number_of(bytes: &[u8]) -> u64
    requires { length bytes.now ≡ 8 }
    ensures value { result ≡ number_in (slice bytes.now) }
    ensures slice { word_of result ≡ slice bytes.now }
{
    <u64 as Element>::from_le_bytes(bytes)
}

impl Kept for Empties<u64> {}

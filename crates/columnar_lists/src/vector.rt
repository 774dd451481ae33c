//! Lists of rows: the items of all lists in one column, and the end of each list in another.
ghost use Rattle.std.specs.Prelude.{◌≡◌, ◌∷◌, ◌<◌, length, slice_get, Some};
ghost use Rattle.columnar_base.specs.Row.{number};
ghost use Rattle.columnar_base.specs.Format.{both, IsSound};
ghost use Rattle.columnar_base.specs.TwoPartsLaws.{two_counted};
ghost use Rattle.columnar_core.specs.Bounds.{numbers};
ghost use Rattle.columnar_lists.specs.Lists.{joined, lists_format};
ghost use Rattle.columnar_lists.specs.Rooms.{lists_room};
ghost use Rattle.columnar_lists.specs.ListLaws.{same_lists, lists_lawful, lists_storable};

mod earlier;
pub mod push;

use crate::parts::{check_lists, copy_lists, cut_lists, range_of, reserve_lists};
use crate::walk::ListIter;
use columnar_base::fault::{GrowError, StoreFault};
use columnar_base::tally::Tally;
use columnar_base::traits::{Clear, Column, Index, Item, Len};
use columnar_core::byte_slice::ByteSlice;
use columnar_core::bytes::{AsBytes, Check, FromBytes, Stored};
use columnar_core::container::{
    Borrow, Container, ContainerBytes, ExtendFrom, Named, Reborrow, Reserve, Storage, Truncate,
};
use columnar_core::offsets::{ExtendShifted, Offsets, PushAfter, ReserveOffsets, StoredOffsets};
use columnar_core::slice::Slice;
use columnar_core::store::DecodedStore;
use columnar_core::two::{byte_slice_of_two, judge_two, load_two, sizes_of_two, slice_of_two};
use std::alloc::Global;
use std::ops::Range;

/// A column of lists. List i has the values from bound i - 1 (0 for the first list) to bound i. The column is
/// well-formed if its parts are, the bounds never decrease, and the last one (0 if there is none) is the number of
/// values.
#[derive(Clone, Copy, PartialEq, Drop)]
pub struct Vecs<TC, BC = Vec<u64>> {
    /// The end of each list.
    pub bounds: BC,
    /// The items of all lists.
    pub values: TC,
}

impl<TC: Column, BC: Column> Column for Vecs<TC, BC> {
    ghost format = { lists_format BC.format TC.format };

    ghost content = { λ v. both (BC.content v.bounds) (TC.content v.values) };

    ghost room = { λ v. lists_room (BC.room v.bounds) (TC.room v.values) (length (TC.format.rows (TC.content v.values))) };
}

impl<TC: Column, BC: Len> Len for Vecs<TC, BC> {
    fn len(&self) -> usize {
        self.bounds.len()
    }
}

impl<TC: Index + Copy, BC: Offsets> Index for Vecs<TC, BC> {
    type Ref = Slice<TC>;

    /// Returns list `index`: the values from the end of the list before it to its own end.
    ///
    /// # Requires
    /// A well-formed column, and `index` below its length.
    fn get(&self, index: usize) -> Slice<TC>
        requires sound { IsSound (lists_format BC.format TC.format) (both (BC.content self.now.bounds) (TC.content self.now.values)) }
        requires in_range { index < length ((lists_format BC.format TC.format).rows (both (BC.content self.now.bounds) (TC.content self.now.values))) }
        ensures row { slice_get ((lists_format BC.format TC.format).rows (both (BC.content self.now.bounds) (TC.content self.now.values))) index ≡ Some (⟦<Slice<TC> as Item>⟧.meaning result) }
        ensures valid { ⟦<Slice<TC> as Item>⟧.valid result }
        ensures lower { slice_get (0 ∷ numbers (BC.format.rows (BC.content self.now.bounds))) index ≡ Some result.lower }
        ensures upper { slice_get (BC.format.rows (BC.content self.now.bounds)) index ≡ Some (number result.upper) }
        ensures values { TC.content result.slice ≡ TC.content self.now.values }
    {
        let (lower, upper) = range_of(&self.bounds, index);
        Slice {
            lower,
            upper,
            slice: self.values,
        }
    }
}

impl<'x, TC: Index, BC: Offsets> Index for &'x Vecs<TC, BC>
where
    &'x TC: Index,
{
    type Ref = Slice<&'x TC>;

    /// Returns list `index`: the values from the end of the list before it to its own end.
    ///
    /// # Requires
    /// A well-formed column, and `index` below its length.
    fn get(&self, index: usize) -> Slice<&'x TC>
        requires sound { IsSound (lists_format BC.format TC.format) (both (BC.content self.now.now.bounds) (TC.content self.now.now.values)) }
        requires in_range { index < length ((lists_format BC.format TC.format).rows (both (BC.content self.now.now.bounds) (TC.content self.now.now.values))) }
        ensures row { slice_get ((lists_format BC.format TC.format).rows (both (BC.content self.now.now.bounds) (TC.content self.now.now.values))) index ≡ Some (⟦<Slice<&'x TC> as Item>⟧.meaning result) }
        ensures valid { ⟦<Slice<&'x TC> as Item>⟧.valid result }
        ensures lower { slice_get (0 ∷ numbers (BC.format.rows (BC.content self.now.now.bounds))) index ≡ Some result.lower }
        ensures upper { slice_get (BC.format.rows (BC.content self.now.now.bounds)) index ≡ Some (number result.upper) }
        ensures values { TC.content result.slice.now ≡ TC.content self.now.now.values }
    {
        let column: &'x Vecs<TC, BC> = *self;
        let (lower, upper) = range_of(&column.bounds, index);
        Slice {
            lower,
            upper,
            slice: &column.values,
        }
    }
}

impl<TC: Column, BC: Column + Drop> Vecs<TC, BC> {
    /// Returns the column of the items: those of all lists, one list after another.
    ///
    /// # Requires
    /// A well-formed column.
    pub fn into_values(self) -> TC
        requires { IsSound (lists_format BC.format TC.format) (both (BC.content self.bounds) (TC.content self.values)) }
        ensures sound { IsSound TC.format (TC.content result) }
        ensures rows { TC.format.rows (TC.content result) ≡ joined ((lists_format BC.format TC.format).rows (both (BC.content self.bounds) (TC.content self.values))) }
        ensures values { result ≡ self.values }
    {
        let Vecs { bounds: _, values } = self;
        values
    }
}

impl<TC: Column, BC: Offsets> Vecs<TC, BC> {
    ghost use Rattle.columnar_lists.specs.WalksLeft.{lists_left};

    /// Iterates over the lists in order, through a reference. It finds each list from the end of the one before.
    ///
    /// # Requires
    /// A well-formed column.
    pub fn index_iter<'x>(&'x self) -> ListIter<&'x TC, &'x BC>
        requires { IsSound (lists_format BC.format TC.format) (both (BC.content self.now.bounds) (TC.content self.now.values)) }
        ensures { lists_left result ≡ (lists_format BC.format TC.format).rows (both (BC.content self.now.bounds) (TC.content self.now.values)) }
    {
        ListIter::new(&self.bounds, &self.values)
    }

    /// Iterates over the lists in order. It finds each list from the end of the one before.
    ///
    /// # Requires
    /// A well-formed column.
    pub fn into_index_iter(self) -> ListIter<TC, BC>
        requires { IsSound (lists_format BC.format TC.format) (both (BC.content self.bounds) (TC.content self.values)) }
        ensures { lists_left result ≡ (lists_format BC.format TC.format).rows (both (BC.content self.bounds) (TC.content self.values)) }
    {
        let Vecs { bounds, values } = self;
        ListIter::new(bounds, values)
    }
}

impl<TC: Clear, BC: Clear + Offsets> Clear for Vecs<TC, BC> {
    fn clear(&mut self) {
        self.bounds.clear();
        self.values.clear();
    }
}

impl<TC: Truncate, BC: Truncate + Offsets> Truncate for Vecs<TC, BC> {
    ghost lawful = { lists_lawful BC.format TC.format BC.lawful TC.lawful };

    fn truncate(&mut self, n: usize) {
        cut_lists(&mut self.bounds, &mut self.values, n);
    }
}

impl<TC: Storage, BC: Storage + Offsets> Storage for Vecs<TC, BC> {
    fn empty(alloc: Global) -> Self {
        let bounds = BC::empty(alloc);
        let values = TC::empty(alloc);
        Vecs { bounds, values }
    }

    fn duplicate(&self, alloc: Global) -> Result<Self, GrowError> {
        let bounds = self.bounds.duplicate(alloc)?;
        let values = self.values.duplicate(alloc)?;
        Ok(Vecs { bounds, values })
    }
}

impl<TC: Reserve, BC: ReserveOffsets> Reserve for Vecs<TC, BC> {
    type Room = (BC::Room, TC::Room);

    ghost reserves = { BC.reserves × TC.reserves };

    ghost covers = { λ r. lists_room (BC.covers r.0) (TC.covers r.1) 0 };

    fn no_room() -> (BC::Room, TC::Room) {
        (BC::no_room(), TC::no_room())
    }

    fn reserve_room(&mut self, room: (BC::Room, TC::Room)) -> Result<(), GrowError> {
        reserve_lists(&mut self.bounds, &mut self.values, room)
    }
}

impl<'a, TC: Borrow<'a>, BC: Borrow<'a, Borrowed: Offsets>> Borrow<'a> for Vecs<TC, BC> {
    type Ref = Slice<TC::Borrowed>;

    type Borrowed = Vecs<TC::Borrowed, BC::Borrowed>;

    type Parts = Named<Named<BC::Ref, BC::Parts>, Named<TC::Ref, TC::Parts>>;

    ghost same_format = { same_lists BC.same_format TC.same_format };

    fn borrow(&'a self) -> Vecs<TC::Borrowed, BC::Borrowed> {
        let bounds = self.bounds.borrow();
        let values = self.values.borrow();
        Vecs { bounds, values }
    }
}

impl<
    V: Column + Copy,
    W: Offsets + Copy,
    TC: ExtendFrom<V>,
    BC: ExtendFrom<W> + ExtendShifted<W> + Offsets,
> ExtendFrom<Vecs<V, W>> for Vecs<TC, BC> {
    fn add_room(room: (BC::Room, TC::Room), view: Vecs<V, W>) -> (BC::Room, TC::Room) {
        (
            BC::add_room(room.0, view.bounds),
            TC::add_room(room.1, view.values),
        )
    }

    fn extend_from_self(&mut self, view: Vecs<V, W>, range: Range<usize>) -> Result<(), GrowError> {
        copy_lists(
            &mut self.bounds,
            &mut self.values,
            &view.bounds,
            view.values,
            range,
        )
    }
}

impl<
    'a,
    TC: Container<'a>,
    BC: Container<'a>
        + Borrow<'a, Borrowed: Offsets>
        + ExtendShifted<<BC as Borrow<'a>>::Borrowed>
        + Offsets
        + PushAfter,
> Container<'a> for Vecs<TC, BC> {}

impl<'b, TC: Reborrow<'b>, BC: Reborrow<'b>> Reborrow<'b> for Vecs<TC, BC> {
    type Short = Vecs<TC::Short, BC::Short>;

    ghost same_short = { same_lists BC.same_short TC.same_short };

    fn reborrow(self) -> Vecs<TC::Short, BC::Short> {
        let bounds = self.bounds.reborrow();
        let values = self.values.reborrow();
        Vecs { bounds, values }
    }
}

impl<TC: Stored, BC: StoredOffsets> Stored for Vecs<TC, BC> {
    ghost use Rattle.columnar_base.specs.Format.{slices_of};

    ghost counted = { λ v. two_counted (slices_of (BC.content v.bounds)) (slices_of (TC.content v.values)) (BC.counted v.bounds) (TC.counted v.values) };

    ghost storable = { lists_storable BC.format TC.format BC.storable TC.storable };

    fn slice_count() -> usize {
        BC::slice_count() + TC::slice_count()
    }

    fn element_sizes(sizes: &mut Vec<usize>) -> Result<(), GrowError> {
        sizes_of_two::<BC, TC>(sizes)
    }

    fn judge_tallied<L>(
        store: &DecodedStore<'_>,
        offset: usize,
        tally: &mut Tally<L>,
    ) -> Result<(), StoreFault> {
        judge_two::<BC, TC, L>(store, offset, tally)?;
        let values = TC::rows_in(store, offset + BC::slice_count());
        if BC::rises_in_tallied(store, offset, values as u64, tally) {
            Ok(())
        } else {
            Err(StoreFault::Bounds(offset))
        }
    }

    fn rows_in(store: &DecodedStore<'_>, offset: usize) -> usize {
        BC::rows_in(store, offset)
    }
}

impl<TC: Check + Len, BC: Check + StoredOffsets + Offsets> Check for Vecs<TC, BC> {
    fn check_from_tallied<L>(&self, from: usize, tally: &mut Tally<L>) -> Result<(), StoreFault> {
        check_lists(&self.bounds, &self.values, from, tally)
    }
}

impl<'s, TC: FromBytes<'s>, BC: FromBytes<'s> + StoredOffsets> FromBytes<'s> for Vecs<TC, BC> {
    fn from_store(store: &DecodedStore<'s>, offset: &mut usize) -> Self {
        let bounds = BC::from_store(store, offset);
        let values = TC::from_store(store, offset);
        Vecs { bounds, values }
    }
}

impl<'s, TC: AsBytes<'s>, BC: AsBytes<'s> + StoredOffsets> AsBytes<'s> for Vecs<TC, BC> {
    fn get_byte_slice(&self, index: usize) -> (u64, ByteSlice<'s>) {
        slice_of_two(&self.bounds, &self.values, index)
    }
}

/// If the values cannot be loaded, the loaded bounds are dropped.
impl<TC: ContainerBytes, BC: ContainerBytes + StoredOffsets + Drop> ContainerBytes
    for Vecs<TC, BC> {
    fn byte_slice(&self, index: usize) -> ByteSlice<'_> {
        byte_slice_of_two(&self.bounds, &self.values, index)
    }

    fn load(alloc: Global, store: &DecodedStore<'_>, offset: usize) -> Result<Self, GrowError> {
        let (bounds, values) = load_two::<BC, TC>(alloc, store, offset)?;
        Ok(Vecs { bounds, values })
    }
}

//! Rows of `Meters`, `Place`, `Nowhere` and `Found`, as `columnar_derive` writes them.
use super::*;
use columnar::bytes::indexed::DecodedStore;
use columnar::bytes::{ByteSlice, Earlier, Tally};
use columnar::fault::{GrowError, OwnError, StoreFault};
use columnar::names::{PartNames, name_in};
use columnar::sums::variants::{Last, Nth, Variants, values_at};
use columnar::{
    AsBytes, Borrow, Check, Clear, Column, Columnar, ContainerBytes, ContainerOf, ExtendFrom,
    FromBytes, FromRow, Index, IndexMut, Item, Len, LendRow, MakeRow, OwnRow, OwnRows, Push,
    PushParts, PushRef, Reborrow, Reserve, RowMut, SameAs, SameParts, SetItem, SetRow, SliceNames,
    Storage, Stored, Truncate,
};
use std::alloc::{AllocError, Global};

// The fields, in their order
type MetersParts = (u64,);

// Their columns
type MetersPartColumns = ContainerOf<MetersParts>;

// The columns of the parts in a view
type MetersPartViews<'a> = <MetersPartColumns as Borrow<'a>>::Borrowed;

/// A view of a column of values of `Meters`.
#[derive(Clone, Copy)]
pub struct MetersView<'a> {
    /// The view of the column of their parts.
    pub parts: MetersPartViews<'a>,
}

/// A column of values of `Meters`.
#[derive(Drop)]
pub struct MetersContainer {
    /// The column of their parts.
    pub parts: MetersPartColumns,
}

impl Column for MetersContainer {
    ghost format = { ⟦<MetersPartColumns as Column>⟧.format };

    ghost content = { λ c. ⟦<MetersPartColumns as Column>⟧.content c.parts };

    ghost room = { λ c. ⟦<MetersPartColumns as Column>⟧.room c.parts };
}

impl Len for MetersContainer {
    fn len(&self) -> usize {
        self.parts.len()
    }
}

impl Clear for MetersContainer {
    fn clear(&mut self) {
        self.parts.clear();
    }
}

impl Truncate for MetersContainer {
    ghost use Rattle.columnar.specs.ColumnLaws.{lawful_columns};

    ghost lawful = { Prim.search lawful_columns depth 64 fits 10000 };

    fn truncate(&mut self, n: usize) {
        self.parts.truncate(n);
    }
}

impl Storage for MetersContainer {
    fn empty(alloc: Global) -> Self {
        let parts = MetersPartColumns::empty(alloc);
        Self { parts }
    }

    fn duplicate(&self, alloc: Global) -> Result<Self, GrowError> {
        let parts = self.parts.duplicate(alloc)?;
        Ok(Self { parts })
    }
}

impl Clone for MetersContainer {
    fn clone(&self) -> Result<Self, AllocError> {
        let parts = self.parts.clone()?;
        Ok(Self { parts })
    }
}

impl Reserve for MetersContainer {
    type Room = <MetersPartColumns as Reserve>::Room;

    ghost reserves = { ⟦<MetersPartColumns as Reserve>⟧.reserves };

    ghost covers = { ⟦<MetersPartColumns as Reserve>⟧.covers };

    fn no_room() -> Self::Room {
        MetersPartColumns::no_room()
    }

    fn reserve_room(&mut self, room: Self::Room) -> Result<(), GrowError> {
        self.parts.reserve_room(room)
    }
}

impl<'a> ExtendFrom<MetersView<'a>> for MetersContainer {
    fn add_room(room: Self::Room, view: MetersView<'a>) -> Self::Room {
        MetersPartColumns::add_room(room, view.parts)
    }

    fn extend_from_self(
        &mut self,
        view: MetersView<'a>,
        range: std::ops::Range<usize>,
    ) -> Result<(), GrowError> {
        self.parts.extend_from_self(view.parts, range)
    }
}

impl<'a> Borrow<'a> for MetersContainer {
    ghost use Rattle.std.specs.Prelude.{refl};

    type Ref = OwnRow<<MetersPartColumns as Borrow<'a>>::Ref, Meters>;

    type Borrowed = MetersView<'a>;

    type Parts = <MetersPartColumns as Borrow<'a>>::Parts;

    ghost same_format = { refl };

    fn borrow(&'a self) -> Self::Borrowed {
        let parts = self.parts.borrow();
        MetersView { parts }
    }
}

impl<'a> Column for MetersView<'a> {
    ghost format = { ⟦<MetersPartViews<'a> as Column>⟧.format };

    ghost content = { λ c. ⟦<MetersPartViews<'a> as Column>⟧.content c.parts };

    ghost room = { λ c. ⟦<MetersPartViews<'a> as Column>⟧.room c.parts };
}

impl<'a> Len for MetersView<'a> {
    fn len(&self) -> usize {
        self.parts.len()
    }
}

impl<'a> Index for MetersView<'a> {
    type Ref = OwnRow<<MetersPartViews<'a> as Index>::Ref, Meters>;

    fn get(&self, index: usize) -> Self::Ref {
        OwnRow::new(self.parts.get(index))
    }
}

impl<'a: 'b, 'b> Reborrow<'b> for MetersView<'a> {
    ghost use Rattle.std.specs.Prelude.{refl};

    type Short = MetersView<'b>;

    ghost same_short = { refl };

    fn reborrow(self) -> Self::Short {
        let parts = self.parts.reborrow();
        MetersView { parts }
    }
}

impl<'a> Stored for MetersView<'a> {
    ghost use Rattle.std.specs.Prelude.{◌≡◌, ◌+◌, ◌*◌, ◌≤◌, ◌++◌, IsTrue, length, drop, OnOk, OnErr, IfErr};
    ghost use Rattle.columnar.specs.ColumnLaws.{counted_columns, storable_columns};
    ghost use Rattle.columnar.specs.Faults.{verdict};
    ghost use Rattle.columnar.specs.Format.{Fits, bytes_held, first, moved, representable};
    ghost use Rattle.columnar.specs.Store.{slices_in};

    ghost storable = { Prim.search storable_columns depth 64 fits 10000 };

    ghost counted = { λ c. Prim.search counted_columns depth 64 fits 10000 };

    fn slice_count() -> usize
        requires { IsTrue (representable ⟦<MetersView<'a> as Column>⟧.format) }
        ensures { result ≡ ⟦<MetersView<'a> as Column>⟧.format.count }
    {
        MetersPartViews::slice_count()
    }

    fn element_sizes(sizes: &mut Vec<usize>) -> Result<(), GrowError>
        requires { IsTrue (representable ⟦<MetersView<'a> as Column>⟧.format) }
        ensures ok { OnOk result (sizes.new.items ≡ sizes.old.items ++ ⟦<MetersView<'a> as Column>⟧.format.sizes) }
        ensures err { OnErr result (sizes.new.items ≡ sizes.old.items) }
        ensures memory { IfErr result (λ e. e ≡ GrowError.Memory) }
    {
        MetersPartViews::element_sizes(sizes)
    }

    fn judge_tallied<L>(
        store: &DecodedStore<'_>,
        offset: usize,
        tally: &mut Tally<L>,
    ) -> Result<(), StoreFault>
        requires representable { IsTrue (representable ⟦<MetersView<'a> as Column>⟧.format) }
        requires room { offset + ⟦<MetersView<'a> as Column>⟧.format.count ≤ length (slices_in store.now) }
        ensures exact { verdict result ≡ first (moved offset (⟦<MetersView<'a> as Column>⟧.format.broken (⟦<MetersView<'a> as Column>⟧.format.build (drop offset (slices_in store.now))))) }
        ensures turns { tally.new.turns ≤ tally.old.turns + ⟦<MetersView<'a> as Column>⟧.format.turns * bytes_held (⟦<MetersView<'a> as Column>⟧.format.build (drop offset (slices_in store.now))) }
    {
        MetersPartViews::judge_tallied(store, offset, tally)
    }

    fn rows_in(store: &DecodedStore<'_>, offset: usize) -> usize
        requires representable { IsTrue (representable ⟦<MetersView<'a> as Column>⟧.format) }
        requires fits { Fits ⟦<MetersView<'a> as Column>⟧.format offset (slices_in store.now) }
        ensures { result ≡ length (⟦<MetersView<'a> as Column>⟧.format.rows (⟦<MetersView<'a> as Column>⟧.format.build (drop offset (slices_in store.now)))) }
    {
        MetersPartViews::rows_in(store, offset)
    }
}

impl<'a> Check for MetersView<'a> {
    fn check_from_tallied<L>(&self, from: usize, tally: &mut Tally<L>) -> Result<(), StoreFault> {
        self.parts.check_from_tallied(from, tally)
    }
}

impl<'a> FromBytes<'a> for MetersView<'a> {
    fn from_store(store: &DecodedStore<'a>, offset: &mut usize) -> Self {
        let parts = MetersPartViews::from_store(store, offset);
        Self { parts }
    }
}

impl<'a> AsBytes<'a> for MetersView<'a> {
    fn get_byte_slice(&self, index: usize) -> (u64, ByteSlice<'a>) {
        self.parts.get_byte_slice(index)
    }
}

impl Stored for MetersContainer {
    ghost use Rattle.columnar.specs.ColumnLaws.{counted_columns, storable_columns};

    ghost storable = { Prim.search storable_columns depth 64 fits 10000 };

    ghost counted = { λ c. Prim.search counted_columns depth 64 fits 10000 };

    fn slice_count() -> usize {
        MetersPartColumns::slice_count()
    }

    fn element_sizes(sizes: &mut Vec<usize>) -> Result<(), GrowError> {
        MetersPartColumns::element_sizes(sizes)
    }

    fn judge_tallied<L>(
        store: &DecodedStore<'_>,
        offset: usize,
        tally: &mut Tally<L>,
    ) -> Result<(), StoreFault> {
        MetersPartColumns::judge_tallied(store, offset, tally)
    }

    fn rows_in(store: &DecodedStore<'_>, offset: usize) -> usize {
        MetersPartColumns::rows_in(store, offset)
    }
}

impl ContainerBytes for MetersContainer {
    fn byte_slice(&self, index: usize) -> ByteSlice<'_> {
        self.parts.byte_slice(index)
    }

    fn load(alloc: Global, store: &DecodedStore<'_>, offset: usize) -> Result<Self, GrowError> {
        let parts = MetersPartColumns::load(alloc, store, offset)?;
        Ok(Self { parts })
    }
}

// The earlier form of the columns of the parts
type MetersOldColumns = <MetersPartColumns as Earlier>::Old;

/// A column of values of `Meters` in its earlier form.
#[derive(Drop)]
pub struct MetersOld {
    /// The column of their parts.
    pub parts: MetersOldColumns,
}

impl Column for MetersOld {
    ghost format = { ⟦<MetersOldColumns as Column>⟧.format };

    ghost content = { λ c. ⟦<MetersOldColumns as Column>⟧.content c.parts };

    ghost room = { λ c. ⟦<MetersOldColumns as Column>⟧.room c.parts };
}

impl Stored for MetersOld {
    ghost use Rattle.columnar.specs.ColumnLaws.{counted_columns, storable_columns};

    ghost storable = { Prim.search storable_columns depth 64 fits 10000 };

    ghost counted = { λ c. Prim.search counted_columns depth 64 fits 10000 };

    fn slice_count() -> usize {
        MetersOldColumns::slice_count()
    }

    fn element_sizes(sizes: &mut Vec<usize>) -> Result<(), GrowError> {
        MetersOldColumns::element_sizes(sizes)
    }

    fn judge_tallied<L>(
        store: &DecodedStore<'_>,
        offset: usize,
        tally: &mut Tally<L>,
    ) -> Result<(), StoreFault> {
        MetersOldColumns::judge_tallied(store, offset, tally)
    }

    fn rows_in(store: &DecodedStore<'_>, offset: usize) -> usize {
        MetersOldColumns::rows_in(store, offset)
    }
}

impl ContainerBytes for MetersOld {
    fn byte_slice(&self, index: usize) -> ByteSlice<'_> {
        self.parts.byte_slice(index)
    }

    fn load(alloc: Global, store: &DecodedStore<'_>, offset: usize) -> Result<Self, GrowError> {
        let parts = MetersOldColumns::load(alloc, store, offset)?;
        Ok(Self { parts })
    }
}

impl Earlier for MetersContainer {
    ghost use Rattle.columnar.specs.ColumnLaws.{earlier_columns};

    type Old = MetersOld;

    ghost earlier = { Prim.search earlier_columns depth 64 fits 10000 };

    fn from_old(alloc: Global, old: Self::Old) -> Result<Self, GrowError> {
        let parts = MetersPartColumns::from_old(alloc, old.parts)?;
        Ok(Self { parts })
    }
}

impl SliceNames for MetersContainer {
    ghost names_at = { ⟦<OwnRows<MetersPartColumns, Meters> as SliceNames>⟧.names_at };

    fn push_names(alloc: Global, path: &str, names: &mut Vec<String>) -> Result<(), GrowError> {
        <OwnRows<MetersPartColumns, Meters>>::push_names(alloc, path, names)
    }
}

impl<T: PushParts<MetersPartColumns, Meters> + Drop> Push<T> for MetersContainer {
    fn push(&mut self, item: T) -> Result<(), GrowError> {
        self.push_ref(&item)
    }
}

impl<T: PushParts<MetersPartColumns, Meters>> PushRef<T> for MetersContainer {
    fn push_ref(&mut self, item: &T) -> Result<(), GrowError> {
        item.push_parts(&mut self.parts)
    }
}

impl<T: SameParts<MetersPartColumns, Meters>> SameAs<T> for MetersContainer {
    fn same(&self, at: usize, item: &T) -> bool {
        item.same_parts(&self.parts, at)
    }
}

impl<R: Item> SetRow<OwnRow<R, Meters>> for MetersContainer
where
    MetersPartColumns: SetRow<R>,
{
    ghost fits = { λ r item. ⟦<MetersPartColumns as SetRow<R>>⟧.fits r item.parts };

    fn may_set(&self, index: usize, item: &OwnRow<R, Meters>) -> bool {
        self.parts.may_set(index, &item.parts)
    }

    fn set_row(&mut self, index: usize, item: OwnRow<R, Meters>) {
        self.parts.set_row(index, item.parts);
    }
}

impl<A, T: Item> SetItem<A, T> for MetersContainer
where
    MetersPartColumns: SetItem<A, T>,
{
    ghost fits = { ⟦<MetersPartColumns as SetItem<A, T>>⟧.fits };

    ghost put = { ⟦<MetersPartColumns as SetItem<A, T>>⟧.put };

    fn may_set_item(&self, index: usize, at: A, item: &T) -> bool {
        self.parts.may_set_item(index, at, item)
    }

    fn set_item(&mut self, index: usize, at: A, item: T) {
        self.parts.set_item(index, at, item);
    }
}

impl<'a> IndexMut<'a> for MetersContainer {
    ghost use Rattle.std.specs.Prelude.{◌≡◌};

    type IndexMut = RowMut<'a, MetersContainer>;

    ghost lent = { λ s i r. (r.column.ghost_name ≡ s.ghost_name) × ((r.column.now ≡ s.now) × (r.index ≡ i)) };

    fn get_mut(&'a mut self, index: usize) -> Self::IndexMut {
        RowMut::new(self, index)
    }

    fn last_mut(&'a mut self) -> Option<Self::IndexMut> {
        let count = self.len();
        if count == 0 {
            None
        } else {
            Some(RowMut::new(self, count - 1))
        }
    }
}

/// What stands for a value of `Meters` in a column.
#[derive(Clone, Copy, Debug)]
pub struct MetersReference<A>(pub A);

impl Item for Meters {
    ghost meaning = { λ e. ⟦<MetersParts as Item>⟧.meaning (record { 0 = e.0 }) };

    ghost valid = { λ e. ⟦<MetersParts as Item>⟧.valid (record { 0 = e.0 }) };

    ghost unbuffered = { ⟦<MetersParts as Item>⟧.unbuffered };
}

impl<A: Item> Item for MetersReference<A> {
    ghost meaning = { λ e. ⟦<(A,) as Item>⟧.meaning (record { 0 = e.0 }) };

    ghost valid = { λ e. ⟦<(A,) as Item>⟧.valid (record { 0 = e.0 }) };

    ghost unbuffered = { ⟦<(A,) as Item>⟧.unbuffered };
}

impl<A: Item> MakeRow<(A,)> for Meters {
    type Row = MetersReference<A>;

    fn make_row(row: (A,)) -> Self::Row {
        MetersReference(row.0)
    }
}

impl PushParts<MetersPartColumns, Meters> for Meters {
    fn push_parts(&self, parts: &mut MetersPartColumns) -> Result<(), GrowError> {
        parts.push((&self.0,))
    }
}

impl<A: Copy + Item, P: Push<(A,)>> PushParts<P, Meters> for MetersReference<A> {
    fn push_parts(&self, parts: &mut P) -> Result<(), GrowError> {
        parts.push((self.0,))
    }
}

impl PartNames for Meters {
    ghost use Rattle.std.specs.Prelude.{[], ◌∷◌, codes};
    ghost use Rattle.columnar.specs.Names.{name_at};

    ghost name_of = { name_at (codes "0" ∷ []) };

    fn part_name(index: usize) -> &'static str {
        name_in(&["0"], index)
    }
}

impl Columnar for Meters {
    ghost unfit = { ⟦<MetersParts as Columnar>⟧.unfit };

    type Container = MetersContainer;
}

impl<R: Item> FromRow<OwnRow<R, Meters>> for Meters
where
    MetersParts: FromRow<R>,
{
    fn from_row(alloc: Global, row: OwnRow<R, Meters>) -> Result<Self, OwnError> {
        let parts = MetersParts::from_row(alloc, row.parts)?;
        Ok(Meters(parts.0))
    }
}

// The columns of each part in a view
type MetersView0<'x> = <ContainerOf<u64> as Borrow<'x>>::Borrowed;

/// The columns of the fields of `Meters` in a view, by name.
pub trait MetersColumns<A: Column>: Column {
    ghost use Rattle.std.specs.Prelude.{◌≡◌};
    ghost use Rattle.columnar.specs.Format.{IsSound};
    ghost use Rattle.columnar.specs.Fields.{rows_of_only};

    /// Returns the column of `0`.
    ///
    /// # Requires
    /// A well-formed view.
    fn field_0(self) -> A
        requires { IsSound Self.format (Self.content self) }
        ensures sound { IsSound A.format (A.content result) }
        ensures rows { A.format.rows (A.content result) ≡ rows_of_only (Self.format.rows (Self.content self)) };
}

impl<'x> MetersColumns<MetersView0<'x>> for MetersView<'x> {
    fn field_0(self) -> MetersView0<'x> {
        columnar::own::field_of_one(self.parts)
    }
}

impl MetersContainer {
    ghost use Rattle.std.specs.Prelude.{length, ◌<◌};
    ghost use Rattle.columnar.specs.Format.{IsSound};
    ghost use Rattle.columnar.specs.FieldWrites.{WroteOnly, only_at};

    /// Writes `0` of row `index`. Allocates nothing.
    ///
    /// # Requires
    /// The column is well-formed and has such a row, and `value` is valid and may replace what is there.
    pub fn set_field_0<T: Item>(&mut self, index: usize, value: T)
    where
        ContainerOf<u64>: SetRow<T>,
        requires sound { IsSound ⟦<MetersContainer as Column>⟧.format (⟦<MetersContainer as Column>⟧.content self.old) }
        requires in_range { index < length (⟦<MetersContainer as Column>⟧.format.rows (⟦<MetersContainer as Column>⟧.content self.old)) }
        requires valid { T.valid value }
        requires fits { ⟦<ContainerOf<u64> as SetRow<T>>⟧.fits (only_at ⟦<MetersContainer as Column>⟧.format (⟦<MetersContainer as Column>⟧.content self.old) index) value }
        ensures { WroteOnly ⟦<MetersContainer as Column>⟧.format (⟦<MetersContainer as Column>⟧.content self.old) (⟦<MetersContainer as Column>⟧.content self.new) index (T.meaning value) }
    {
        self.parts.set_row(index, (value,));
    }
}

// The fields, in their order
type PlaceParts = (Meters, u32);

// Their columns
type PlacePartColumns = ContainerOf<PlaceParts>;

// The columns of the parts in a view
type PlacePartViews<'a> = <PlacePartColumns as Borrow<'a>>::Borrowed;

/// A view of a column of values of `Place`.
#[derive(Clone, Copy)]
pub struct PlaceView<'a> {
    /// The view of the column of their parts.
    pub parts: PlacePartViews<'a>,
}

/// A column of values of `Place`.
#[derive(Drop)]
pub struct PlaceContainer {
    /// The column of their parts.
    pub parts: PlacePartColumns,
}

impl Column for PlaceContainer {
    ghost format = { ⟦<PlacePartColumns as Column>⟧.format };

    ghost content = { λ c. ⟦<PlacePartColumns as Column>⟧.content c.parts };

    ghost room = { λ c. ⟦<PlacePartColumns as Column>⟧.room c.parts };
}

impl Len for PlaceContainer {
    fn len(&self) -> usize {
        self.parts.len()
    }
}

impl Clear for PlaceContainer {
    fn clear(&mut self) {
        self.parts.clear();
    }
}

impl Truncate for PlaceContainer {
    ghost use Rattle.columnar.specs.ColumnLaws.{lawful_columns};

    ghost lawful = { Prim.search lawful_columns depth 64 fits 10000 };

    fn truncate(&mut self, n: usize) {
        self.parts.truncate(n);
    }
}

impl Storage for PlaceContainer {
    fn empty(alloc: Global) -> Self {
        let parts = PlacePartColumns::empty(alloc);
        Self { parts }
    }

    fn duplicate(&self, alloc: Global) -> Result<Self, GrowError> {
        let parts = self.parts.duplicate(alloc)?;
        Ok(Self { parts })
    }
}

impl Clone for PlaceContainer {
    fn clone(&self) -> Result<Self, AllocError> {
        let parts = self.parts.clone()?;
        Ok(Self { parts })
    }
}

impl Reserve for PlaceContainer {
    type Room = <PlacePartColumns as Reserve>::Room;

    ghost reserves = { ⟦<PlacePartColumns as Reserve>⟧.reserves };

    ghost covers = { ⟦<PlacePartColumns as Reserve>⟧.covers };

    fn no_room() -> Self::Room {
        PlacePartColumns::no_room()
    }

    fn reserve_room(&mut self, room: Self::Room) -> Result<(), GrowError> {
        self.parts.reserve_room(room)
    }
}

impl<'a> ExtendFrom<PlaceView<'a>> for PlaceContainer {
    fn add_room(room: Self::Room, view: PlaceView<'a>) -> Self::Room {
        PlacePartColumns::add_room(room, view.parts)
    }

    fn extend_from_self(
        &mut self,
        view: PlaceView<'a>,
        range: std::ops::Range<usize>,
    ) -> Result<(), GrowError> {
        self.parts.extend_from_self(view.parts, range)
    }
}

impl<'a> Borrow<'a> for PlaceContainer {
    ghost use Rattle.std.specs.Prelude.{refl};

    type Ref = OwnRow<<PlacePartColumns as Borrow<'a>>::Ref, Place>;

    type Borrowed = PlaceView<'a>;

    type Parts = <PlacePartColumns as Borrow<'a>>::Parts;

    ghost same_format = { refl };

    fn borrow(&'a self) -> Self::Borrowed {
        let parts = self.parts.borrow();
        PlaceView { parts }
    }
}

impl<'a> Column for PlaceView<'a> {
    ghost format = { ⟦<PlacePartViews<'a> as Column>⟧.format };

    ghost content = { λ c. ⟦<PlacePartViews<'a> as Column>⟧.content c.parts };

    ghost room = { λ c. ⟦<PlacePartViews<'a> as Column>⟧.room c.parts };
}

impl<'a> Len for PlaceView<'a> {
    fn len(&self) -> usize {
        self.parts.len()
    }
}

impl<'a> Index for PlaceView<'a> {
    type Ref = OwnRow<<PlacePartViews<'a> as Index>::Ref, Place>;

    fn get(&self, index: usize) -> Self::Ref {
        OwnRow::new(self.parts.get(index))
    }
}

impl<'a: 'b, 'b> Reborrow<'b> for PlaceView<'a> {
    ghost use Rattle.std.specs.Prelude.{refl};

    type Short = PlaceView<'b>;

    ghost same_short = { refl };

    fn reborrow(self) -> Self::Short {
        let parts = self.parts.reborrow();
        PlaceView { parts }
    }
}

impl<'a> Stored for PlaceView<'a> {
    ghost use Rattle.std.specs.Prelude.{◌≡◌, ◌+◌, ◌*◌, ◌≤◌, ◌++◌, IsTrue, length, drop, OnOk, OnErr, IfErr};
    ghost use Rattle.columnar.specs.ColumnLaws.{counted_columns, storable_columns};
    ghost use Rattle.columnar.specs.Faults.{verdict};
    ghost use Rattle.columnar.specs.Format.{Fits, bytes_held, first, moved, representable};
    ghost use Rattle.columnar.specs.Store.{slices_in};

    ghost storable = { Prim.search storable_columns depth 64 fits 10000 };

    ghost counted = { λ c. Prim.search counted_columns depth 64 fits 10000 };

    fn slice_count() -> usize
        requires { IsTrue (representable ⟦<PlaceView<'a> as Column>⟧.format) }
        ensures { result ≡ ⟦<PlaceView<'a> as Column>⟧.format.count }
    {
        PlacePartViews::slice_count()
    }

    fn element_sizes(sizes: &mut Vec<usize>) -> Result<(), GrowError>
        requires { IsTrue (representable ⟦<PlaceView<'a> as Column>⟧.format) }
        ensures ok { OnOk result (sizes.new.items ≡ sizes.old.items ++ ⟦<PlaceView<'a> as Column>⟧.format.sizes) }
        ensures err { OnErr result (sizes.new.items ≡ sizes.old.items) }
        ensures memory { IfErr result (λ e. e ≡ GrowError.Memory) }
    {
        PlacePartViews::element_sizes(sizes)
    }

    fn judge_tallied<L>(
        store: &DecodedStore<'_>,
        offset: usize,
        tally: &mut Tally<L>,
    ) -> Result<(), StoreFault>
        requires representable { IsTrue (representable ⟦<PlaceView<'a> as Column>⟧.format) }
        requires room { offset + ⟦<PlaceView<'a> as Column>⟧.format.count ≤ length (slices_in store.now) }
        ensures exact { verdict result ≡ first (moved offset (⟦<PlaceView<'a> as Column>⟧.format.broken (⟦<PlaceView<'a> as Column>⟧.format.build (drop offset (slices_in store.now))))) }
        ensures turns { tally.new.turns ≤ tally.old.turns + ⟦<PlaceView<'a> as Column>⟧.format.turns * bytes_held (⟦<PlaceView<'a> as Column>⟧.format.build (drop offset (slices_in store.now))) }
    {
        PlacePartViews::judge_tallied(store, offset, tally)
    }

    fn rows_in(store: &DecodedStore<'_>, offset: usize) -> usize
        requires representable { IsTrue (representable ⟦<PlaceView<'a> as Column>⟧.format) }
        requires fits { Fits ⟦<PlaceView<'a> as Column>⟧.format offset (slices_in store.now) }
        ensures { result ≡ length (⟦<PlaceView<'a> as Column>⟧.format.rows (⟦<PlaceView<'a> as Column>⟧.format.build (drop offset (slices_in store.now)))) }
    {
        PlacePartViews::rows_in(store, offset)
    }
}

impl<'a> Check for PlaceView<'a> {
    fn check_from_tallied<L>(&self, from: usize, tally: &mut Tally<L>) -> Result<(), StoreFault> {
        self.parts.check_from_tallied(from, tally)
    }
}

impl<'a> FromBytes<'a> for PlaceView<'a> {
    fn from_store(store: &DecodedStore<'a>, offset: &mut usize) -> Self {
        let parts = PlacePartViews::from_store(store, offset);
        Self { parts }
    }
}

impl<'a> AsBytes<'a> for PlaceView<'a> {
    fn get_byte_slice(&self, index: usize) -> (u64, ByteSlice<'a>) {
        self.parts.get_byte_slice(index)
    }
}

impl Stored for PlaceContainer {
    ghost use Rattle.columnar.specs.ColumnLaws.{counted_columns, storable_columns};

    ghost storable = { Prim.search storable_columns depth 64 fits 10000 };

    ghost counted = { λ c. Prim.search counted_columns depth 64 fits 10000 };

    fn slice_count() -> usize {
        PlacePartColumns::slice_count()
    }

    fn element_sizes(sizes: &mut Vec<usize>) -> Result<(), GrowError> {
        PlacePartColumns::element_sizes(sizes)
    }

    fn judge_tallied<L>(
        store: &DecodedStore<'_>,
        offset: usize,
        tally: &mut Tally<L>,
    ) -> Result<(), StoreFault> {
        PlacePartColumns::judge_tallied(store, offset, tally)
    }

    fn rows_in(store: &DecodedStore<'_>, offset: usize) -> usize {
        PlacePartColumns::rows_in(store, offset)
    }
}

impl ContainerBytes for PlaceContainer {
    fn byte_slice(&self, index: usize) -> ByteSlice<'_> {
        self.parts.byte_slice(index)
    }

    fn load(alloc: Global, store: &DecodedStore<'_>, offset: usize) -> Result<Self, GrowError> {
        let parts = PlacePartColumns::load(alloc, store, offset)?;
        Ok(Self { parts })
    }
}

// The earlier form of the columns of the parts
type PlaceOldColumns = <PlacePartColumns as Earlier>::Old;

/// A column of values of `Place` in its earlier form.
#[derive(Drop)]
pub struct PlaceOld {
    /// The column of their parts.
    pub parts: PlaceOldColumns,
}

impl Column for PlaceOld {
    ghost format = { ⟦<PlaceOldColumns as Column>⟧.format };

    ghost content = { λ c. ⟦<PlaceOldColumns as Column>⟧.content c.parts };

    ghost room = { λ c. ⟦<PlaceOldColumns as Column>⟧.room c.parts };
}

impl Stored for PlaceOld {
    ghost use Rattle.columnar.specs.ColumnLaws.{counted_columns, storable_columns};

    ghost storable = { Prim.search storable_columns depth 64 fits 10000 };

    ghost counted = { λ c. Prim.search counted_columns depth 64 fits 10000 };

    fn slice_count() -> usize {
        PlaceOldColumns::slice_count()
    }

    fn element_sizes(sizes: &mut Vec<usize>) -> Result<(), GrowError> {
        PlaceOldColumns::element_sizes(sizes)
    }

    fn judge_tallied<L>(
        store: &DecodedStore<'_>,
        offset: usize,
        tally: &mut Tally<L>,
    ) -> Result<(), StoreFault> {
        PlaceOldColumns::judge_tallied(store, offset, tally)
    }

    fn rows_in(store: &DecodedStore<'_>, offset: usize) -> usize {
        PlaceOldColumns::rows_in(store, offset)
    }
}

impl ContainerBytes for PlaceOld {
    fn byte_slice(&self, index: usize) -> ByteSlice<'_> {
        self.parts.byte_slice(index)
    }

    fn load(alloc: Global, store: &DecodedStore<'_>, offset: usize) -> Result<Self, GrowError> {
        let parts = PlaceOldColumns::load(alloc, store, offset)?;
        Ok(Self { parts })
    }
}

impl Earlier for PlaceContainer {
    ghost use Rattle.columnar.specs.ColumnLaws.{earlier_columns};

    type Old = PlaceOld;

    ghost earlier = { Prim.search earlier_columns depth 64 fits 10000 };

    fn from_old(alloc: Global, old: Self::Old) -> Result<Self, GrowError> {
        let parts = PlacePartColumns::from_old(alloc, old.parts)?;
        Ok(Self { parts })
    }
}

impl SliceNames for PlaceContainer {
    ghost names_at = { ⟦<OwnRows<PlacePartColumns, Place> as SliceNames>⟧.names_at };

    fn push_names(alloc: Global, path: &str, names: &mut Vec<String>) -> Result<(), GrowError> {
        <OwnRows<PlacePartColumns, Place>>::push_names(alloc, path, names)
    }
}

impl<T: PushParts<PlacePartColumns, Place> + Drop> Push<T> for PlaceContainer {
    fn push(&mut self, item: T) -> Result<(), GrowError> {
        self.push_ref(&item)
    }
}

impl<T: PushParts<PlacePartColumns, Place>> PushRef<T> for PlaceContainer {
    fn push_ref(&mut self, item: &T) -> Result<(), GrowError> {
        item.push_parts(&mut self.parts)
    }
}

impl<T: SameParts<PlacePartColumns, Place>> SameAs<T> for PlaceContainer {
    fn same(&self, at: usize, item: &T) -> bool {
        item.same_parts(&self.parts, at)
    }
}

impl<R: Item> SetRow<OwnRow<R, Place>> for PlaceContainer
where
    PlacePartColumns: SetRow<R>,
{
    ghost fits = { λ r item. ⟦<PlacePartColumns as SetRow<R>>⟧.fits r item.parts };

    fn may_set(&self, index: usize, item: &OwnRow<R, Place>) -> bool {
        self.parts.may_set(index, &item.parts)
    }

    fn set_row(&mut self, index: usize, item: OwnRow<R, Place>) {
        self.parts.set_row(index, item.parts);
    }
}

impl<A, T: Item> SetItem<A, T> for PlaceContainer
where
    PlacePartColumns: SetItem<A, T>,
{
    ghost fits = { ⟦<PlacePartColumns as SetItem<A, T>>⟧.fits };

    ghost put = { ⟦<PlacePartColumns as SetItem<A, T>>⟧.put };

    fn may_set_item(&self, index: usize, at: A, item: &T) -> bool {
        self.parts.may_set_item(index, at, item)
    }

    fn set_item(&mut self, index: usize, at: A, item: T) {
        self.parts.set_item(index, at, item);
    }
}

impl<'a> IndexMut<'a> for PlaceContainer {
    ghost use Rattle.std.specs.Prelude.{◌≡◌};

    type IndexMut = RowMut<'a, PlaceContainer>;

    ghost lent = { λ s i r. (r.column.ghost_name ≡ s.ghost_name) × ((r.column.now ≡ s.now) × (r.index ≡ i)) };

    fn get_mut(&'a mut self, index: usize) -> Self::IndexMut {
        RowMut::new(self, index)
    }

    fn last_mut(&'a mut self) -> Option<Self::IndexMut> {
        let count = self.len();
        if count == 0 {
            None
        } else {
            Some(RowMut::new(self, count - 1))
        }
    }
}

/// What stands for a value of `Place` in a column.
#[derive(Clone, Copy, Debug)]
pub struct PlaceReference<A, B>(pub A, pub B);

impl Item for Place {
    ghost meaning = { λ e. ⟦<PlaceParts as Item>⟧.meaning (e.0, e.1) };

    ghost valid = { λ e. ⟦<PlaceParts as Item>⟧.valid (e.0, e.1) };

    ghost unbuffered = { ⟦<PlaceParts as Item>⟧.unbuffered };
}

impl<A: Item, B: Item> Item for PlaceReference<A, B> {
    ghost meaning = { λ e. ⟦<(A, B) as Item>⟧.meaning (e.0, e.1) };

    ghost valid = { λ e. ⟦<(A, B) as Item>⟧.valid (e.0, e.1) };

    ghost unbuffered = { ⟦<(A, B) as Item>⟧.unbuffered };
}

impl<A: Item, B: Item> MakeRow<(A, B)> for Place {
    type Row = PlaceReference<A, B>;

    fn make_row(row: (A, B)) -> Self::Row {
        PlaceReference(row.0, row.1)
    }
}

impl PushParts<PlacePartColumns, Place> for Place {
    fn push_parts(&self, parts: &mut PlacePartColumns) -> Result<(), GrowError> {
        parts.push((&self.0, &self.1))
    }
}

impl<A: Copy + Item, B: Copy + Item, P: Push<(A, B)>> PushParts<P, Place> for PlaceReference<A, B> {
    fn push_parts(&self, parts: &mut P) -> Result<(), GrowError> {
        parts.push((self.0, self.1))
    }
}

impl PartNames for Place {
    ghost use Rattle.std.specs.Prelude.{[], ◌∷◌, codes};
    ghost use Rattle.columnar.specs.Names.{name_at};

    ghost name_of = { name_at (codes "0" ∷ codes "1" ∷ []) };

    fn part_name(index: usize) -> &'static str {
        name_in(&["0", "1"], index)
    }
}

impl Columnar for Place {
    ghost unfit = { ⟦<PlaceParts as Columnar>⟧.unfit };

    type Container = PlaceContainer;
}

impl<R: Item> FromRow<OwnRow<R, Place>> for Place
where
    PlaceParts: FromRow<R>,
{
    fn from_row(alloc: Global, row: OwnRow<R, Place>) -> Result<Self, OwnError> {
        let parts = PlaceParts::from_row(alloc, row.parts)?;
        Ok(Place(parts.0, parts.1))
    }
}

// The columns of each part in a view
type PlaceView0<'x> = <ContainerOf<Meters> as Borrow<'x>>::Borrowed;

type PlaceView1<'x> = <ContainerOf<u32> as Borrow<'x>>::Borrowed;

/// The columns of the fields of `Place` in a view, by name.
pub trait PlaceColumns<A: Column, B: Column>: Column {
    ghost use Rattle.std.specs.Prelude.{◌≡◌};
    ghost use Rattle.columnar.specs.Format.{IsSound};
    ghost use Rattle.columnar.specs.Fields.{rows_of_field, rows_of_last};

    /// Returns the column of `0`.
    ///
    /// # Requires
    /// A well-formed view.
    fn field_0(self) -> A
        requires { IsSound Self.format (Self.content self) }
        ensures sound { IsSound A.format (A.content result) }
        ensures rows { A.format.rows (A.content result) ≡ rows_of_field 0 (Self.format.rows (Self.content self)) };

    /// Returns the column of `1`.
    ///
    /// # Requires
    /// A well-formed view.
    fn field_1(self) -> B
        requires { IsSound Self.format (Self.content self) }
        ensures sound { IsSound B.format (B.content result) }
        ensures rows { B.format.rows (B.content result) ≡ rows_of_last 1 (Self.format.rows (Self.content self)) };
}

impl<'x> PlaceColumns<PlaceView0<'x>, PlaceView1<'x>> for PlaceView<'x> {
    fn field_0(self) -> PlaceView0<'x> {
        columnar::own::fields_of_two(self.parts).0
    }

    fn field_1(self) -> PlaceView1<'x> {
        columnar::own::fields_of_two(self.parts).1
    }
}

impl PlaceContainer {
    ghost use Rattle.std.specs.Prelude.{length, ◌<◌};
    ghost use Rattle.columnar.specs.Format.{IsSound};
    ghost use Rattle.columnar.specs.FieldWrites.{WroteField, field_at, last_at};

    /// Writes `0` of row `index`. Allocates nothing.
    ///
    /// # Requires
    /// The column is well-formed and has such a row, and `value` is valid and may replace what is there.
    pub fn set_field_0<T: Item>(&mut self, index: usize, value: T)
    where
        ContainerOf<Meters>: SetRow<T>,
        requires sound { IsSound ⟦<PlaceContainer as Column>⟧.format (⟦<PlaceContainer as Column>⟧.content self.old) }
        requires in_range { index < length (⟦<PlaceContainer as Column>⟧.format.rows (⟦<PlaceContainer as Column>⟧.content self.old)) }
        requires valid { T.valid value }
        requires fits { ⟦<ContainerOf<Meters> as SetRow<T>>⟧.fits (field_at ⟦<PlaceContainer as Column>⟧.format (⟦<PlaceContainer as Column>⟧.content self.old) index 0) value }
        ensures { WroteField ⟦<PlaceContainer as Column>⟧.format (⟦<PlaceContainer as Column>⟧.content self.old) (⟦<PlaceContainer as Column>⟧.content self.new) index 0 1 (T.meaning value) }
    {
        self.parts.set_item(index, columnar::Field::<0>, value);
    }

    /// Writes `1` of row `index`. Allocates nothing.
    ///
    /// # Requires
    /// The column is well-formed and has such a row, and `value` is valid and may replace what is there.
    pub fn set_field_1<T: Item>(&mut self, index: usize, value: T)
    where
        ContainerOf<u32>: SetRow<T>,
        requires sound { IsSound ⟦<PlaceContainer as Column>⟧.format (⟦<PlaceContainer as Column>⟧.content self.old) }
        requires in_range { index < length (⟦<PlaceContainer as Column>⟧.format.rows (⟦<PlaceContainer as Column>⟧.content self.old)) }
        requires valid { T.valid value }
        requires fits { ⟦<ContainerOf<u32> as SetRow<T>>⟧.fits (last_at ⟦<PlaceContainer as Column>⟧.format (⟦<PlaceContainer as Column>⟧.content self.old) index 1) value }
        ensures { WroteField ⟦<PlaceContainer as Column>⟧.format (⟦<PlaceContainer as Column>⟧.content self.old) (⟦<PlaceContainer as Column>⟧.content self.new) index 1 0 (T.meaning value) }
    {
        self.parts.set_item(index, columnar::Field::<1>, value);
    }
}

// The fields, in their order
type NowhereParts = ();

// Their columns
type NowherePartColumns = ContainerOf<NowhereParts>;

// The columns of the parts in a view
type NowherePartViews<'a> = <NowherePartColumns as Borrow<'a>>::Borrowed;

/// A view of a column of values of `Nowhere`.
#[derive(Clone, Copy)]
pub struct NowhereView<'a> {
    /// The view of the column of their parts.
    pub parts: NowherePartViews<'a>,
}

/// A column of values of `Nowhere`.
#[derive(Drop)]
pub struct NowhereContainer {
    /// The column of their parts.
    pub parts: NowherePartColumns,
}

impl Column for NowhereContainer {
    ghost format = { ⟦<NowherePartColumns as Column>⟧.format };

    ghost content = { λ c. ⟦<NowherePartColumns as Column>⟧.content c.parts };

    ghost room = { λ c. ⟦<NowherePartColumns as Column>⟧.room c.parts };
}

impl Len for NowhereContainer {
    fn len(&self) -> usize {
        self.parts.len()
    }
}

impl Clear for NowhereContainer {
    fn clear(&mut self) {
        self.parts.clear();
    }
}

impl Truncate for NowhereContainer {
    ghost use Rattle.columnar.specs.ColumnLaws.{lawful_columns};

    ghost lawful = { Prim.search lawful_columns depth 64 fits 10000 };

    fn truncate(&mut self, n: usize) {
        self.parts.truncate(n);
    }
}

impl Storage for NowhereContainer {
    fn empty(alloc: Global) -> Self {
        let parts = NowherePartColumns::empty(alloc);
        Self { parts }
    }

    fn duplicate(&self, alloc: Global) -> Result<Self, GrowError> {
        let parts = self.parts.duplicate(alloc)?;
        Ok(Self { parts })
    }
}

impl Clone for NowhereContainer {
    fn clone(&self) -> Result<Self, AllocError> {
        let parts = self.parts.clone()?;
        Ok(Self { parts })
    }
}

impl Reserve for NowhereContainer {
    type Room = <NowherePartColumns as Reserve>::Room;

    ghost reserves = { ⟦<NowherePartColumns as Reserve>⟧.reserves };

    ghost covers = { ⟦<NowherePartColumns as Reserve>⟧.covers };

    fn no_room() -> Self::Room {
        NowherePartColumns::no_room()
    }

    fn reserve_room(&mut self, room: Self::Room) -> Result<(), GrowError> {
        self.parts.reserve_room(room)
    }
}

impl<'a> ExtendFrom<NowhereView<'a>> for NowhereContainer {
    fn add_room(room: Self::Room, view: NowhereView<'a>) -> Self::Room {
        NowherePartColumns::add_room(room, view.parts)
    }

    fn extend_from_self(
        &mut self,
        view: NowhereView<'a>,
        range: std::ops::Range<usize>,
    ) -> Result<(), GrowError> {
        self.parts.extend_from_self(view.parts, range)
    }
}

impl<'a> Borrow<'a> for NowhereContainer {
    ghost use Rattle.std.specs.Prelude.{refl};

    type Ref = OwnRow<<NowherePartColumns as Borrow<'a>>::Ref, Nowhere>;

    type Borrowed = NowhereView<'a>;

    type Parts = <NowherePartColumns as Borrow<'a>>::Parts;

    ghost same_format = { refl };

    fn borrow(&'a self) -> Self::Borrowed {
        let parts = self.parts.borrow();
        NowhereView { parts }
    }
}

impl<'a> Column for NowhereView<'a> {
    ghost format = { ⟦<NowherePartViews<'a> as Column>⟧.format };

    ghost content = { λ c. ⟦<NowherePartViews<'a> as Column>⟧.content c.parts };

    ghost room = { λ c. ⟦<NowherePartViews<'a> as Column>⟧.room c.parts };
}

impl<'a> Len for NowhereView<'a> {
    fn len(&self) -> usize {
        self.parts.len()
    }
}

impl<'a> Index for NowhereView<'a> {
    type Ref = OwnRow<<NowherePartViews<'a> as Index>::Ref, Nowhere>;

    fn get(&self, index: usize) -> Self::Ref {
        OwnRow::new(self.parts.get(index))
    }
}

impl<'a: 'b, 'b> Reborrow<'b> for NowhereView<'a> {
    ghost use Rattle.std.specs.Prelude.{refl};

    type Short = NowhereView<'b>;

    ghost same_short = { refl };

    fn reborrow(self) -> Self::Short {
        let parts = self.parts.reborrow();
        NowhereView { parts }
    }
}

impl<'a> Stored for NowhereView<'a> {
    ghost use Rattle.std.specs.Prelude.{◌≡◌, ◌+◌, ◌*◌, ◌≤◌, ◌++◌, IsTrue, length, drop, OnOk, OnErr, IfErr};
    ghost use Rattle.columnar.specs.ColumnLaws.{counted_columns, storable_columns};
    ghost use Rattle.columnar.specs.Faults.{verdict};
    ghost use Rattle.columnar.specs.Format.{Fits, bytes_held, first, moved, representable};
    ghost use Rattle.columnar.specs.Store.{slices_in};

    ghost storable = { Prim.search storable_columns depth 64 fits 10000 };

    ghost counted = { λ c. Prim.search counted_columns depth 64 fits 10000 };

    fn slice_count() -> usize
        requires { IsTrue (representable ⟦<NowhereView<'a> as Column>⟧.format) }
        ensures { result ≡ ⟦<NowhereView<'a> as Column>⟧.format.count }
    {
        NowherePartViews::slice_count()
    }

    fn element_sizes(sizes: &mut Vec<usize>) -> Result<(), GrowError>
        requires { IsTrue (representable ⟦<NowhereView<'a> as Column>⟧.format) }
        ensures ok { OnOk result (sizes.new.items ≡ sizes.old.items ++ ⟦<NowhereView<'a> as Column>⟧.format.sizes) }
        ensures err { OnErr result (sizes.new.items ≡ sizes.old.items) }
        ensures memory { IfErr result (λ e. e ≡ GrowError.Memory) }
    {
        NowherePartViews::element_sizes(sizes)
    }

    fn judge_tallied<L>(
        store: &DecodedStore<'_>,
        offset: usize,
        tally: &mut Tally<L>,
    ) -> Result<(), StoreFault>
        requires representable { IsTrue (representable ⟦<NowhereView<'a> as Column>⟧.format) }
        requires room { offset + ⟦<NowhereView<'a> as Column>⟧.format.count ≤ length (slices_in store.now) }
        ensures exact { verdict result ≡ first (moved offset (⟦<NowhereView<'a> as Column>⟧.format.broken (⟦<NowhereView<'a> as Column>⟧.format.build (drop offset (slices_in store.now))))) }
        ensures turns { tally.new.turns ≤ tally.old.turns + ⟦<NowhereView<'a> as Column>⟧.format.turns * bytes_held (⟦<NowhereView<'a> as Column>⟧.format.build (drop offset (slices_in store.now))) }
    {
        NowherePartViews::judge_tallied(store, offset, tally)
    }

    fn rows_in(store: &DecodedStore<'_>, offset: usize) -> usize
        requires representable { IsTrue (representable ⟦<NowhereView<'a> as Column>⟧.format) }
        requires fits { Fits ⟦<NowhereView<'a> as Column>⟧.format offset (slices_in store.now) }
        ensures { result ≡ length (⟦<NowhereView<'a> as Column>⟧.format.rows (⟦<NowhereView<'a> as Column>⟧.format.build (drop offset (slices_in store.now)))) }
    {
        NowherePartViews::rows_in(store, offset)
    }
}

impl<'a> Check for NowhereView<'a> {
    fn check_from_tallied<L>(&self, from: usize, tally: &mut Tally<L>) -> Result<(), StoreFault> {
        self.parts.check_from_tallied(from, tally)
    }
}

impl<'a> FromBytes<'a> for NowhereView<'a> {
    fn from_store(store: &DecodedStore<'a>, offset: &mut usize) -> Self {
        let parts = NowherePartViews::from_store(store, offset);
        Self { parts }
    }
}

impl<'a> AsBytes<'a> for NowhereView<'a> {
    fn get_byte_slice(&self, index: usize) -> (u64, ByteSlice<'a>) {
        self.parts.get_byte_slice(index)
    }
}

impl Stored for NowhereContainer {
    ghost use Rattle.columnar.specs.ColumnLaws.{counted_columns, storable_columns};

    ghost storable = { Prim.search storable_columns depth 64 fits 10000 };

    ghost counted = { λ c. Prim.search counted_columns depth 64 fits 10000 };

    fn slice_count() -> usize {
        NowherePartColumns::slice_count()
    }

    fn element_sizes(sizes: &mut Vec<usize>) -> Result<(), GrowError> {
        NowherePartColumns::element_sizes(sizes)
    }

    fn judge_tallied<L>(
        store: &DecodedStore<'_>,
        offset: usize,
        tally: &mut Tally<L>,
    ) -> Result<(), StoreFault> {
        NowherePartColumns::judge_tallied(store, offset, tally)
    }

    fn rows_in(store: &DecodedStore<'_>, offset: usize) -> usize {
        NowherePartColumns::rows_in(store, offset)
    }
}

impl ContainerBytes for NowhereContainer {
    fn byte_slice(&self, index: usize) -> ByteSlice<'_> {
        self.parts.byte_slice(index)
    }

    fn load(alloc: Global, store: &DecodedStore<'_>, offset: usize) -> Result<Self, GrowError> {
        let parts = NowherePartColumns::load(alloc, store, offset)?;
        Ok(Self { parts })
    }
}

// The earlier form of the columns of the parts
type NowhereOldColumns = <NowherePartColumns as Earlier>::Old;

/// A column of values of `Nowhere` in its earlier form.
#[derive(Drop)]
pub struct NowhereOld {
    /// The column of their parts.
    pub parts: NowhereOldColumns,
}

impl Column for NowhereOld {
    ghost format = { ⟦<NowhereOldColumns as Column>⟧.format };

    ghost content = { λ c. ⟦<NowhereOldColumns as Column>⟧.content c.parts };

    ghost room = { λ c. ⟦<NowhereOldColumns as Column>⟧.room c.parts };
}

impl Stored for NowhereOld {
    ghost use Rattle.columnar.specs.ColumnLaws.{counted_columns, storable_columns};

    ghost storable = { Prim.search storable_columns depth 64 fits 10000 };

    ghost counted = { λ c. Prim.search counted_columns depth 64 fits 10000 };

    fn slice_count() -> usize {
        NowhereOldColumns::slice_count()
    }

    fn element_sizes(sizes: &mut Vec<usize>) -> Result<(), GrowError> {
        NowhereOldColumns::element_sizes(sizes)
    }

    fn judge_tallied<L>(
        store: &DecodedStore<'_>,
        offset: usize,
        tally: &mut Tally<L>,
    ) -> Result<(), StoreFault> {
        NowhereOldColumns::judge_tallied(store, offset, tally)
    }

    fn rows_in(store: &DecodedStore<'_>, offset: usize) -> usize {
        NowhereOldColumns::rows_in(store, offset)
    }
}

impl ContainerBytes for NowhereOld {
    fn byte_slice(&self, index: usize) -> ByteSlice<'_> {
        self.parts.byte_slice(index)
    }

    fn load(alloc: Global, store: &DecodedStore<'_>, offset: usize) -> Result<Self, GrowError> {
        let parts = NowhereOldColumns::load(alloc, store, offset)?;
        Ok(Self { parts })
    }
}

impl Earlier for NowhereContainer {
    ghost use Rattle.columnar.specs.ColumnLaws.{earlier_columns};

    type Old = NowhereOld;

    ghost earlier = { Prim.search earlier_columns depth 64 fits 10000 };

    fn from_old(alloc: Global, old: Self::Old) -> Result<Self, GrowError> {
        let parts = NowherePartColumns::from_old(alloc, old.parts)?;
        Ok(Self { parts })
    }
}

impl SliceNames for NowhereContainer {
    ghost names_at = { ⟦<OwnRows<NowherePartColumns, Nowhere> as SliceNames>⟧.names_at };

    fn push_names(alloc: Global, path: &str, names: &mut Vec<String>) -> Result<(), GrowError> {
        <OwnRows<NowherePartColumns, Nowhere>>::push_names(alloc, path, names)
    }
}

impl<T: PushParts<NowherePartColumns, Nowhere> + Drop> Push<T> for NowhereContainer {
    fn push(&mut self, item: T) -> Result<(), GrowError> {
        self.push_ref(&item)
    }
}

impl<T: PushParts<NowherePartColumns, Nowhere>> PushRef<T> for NowhereContainer {
    fn push_ref(&mut self, item: &T) -> Result<(), GrowError> {
        item.push_parts(&mut self.parts)
    }
}

impl<T: SameParts<NowherePartColumns, Nowhere>> SameAs<T> for NowhereContainer {
    fn same(&self, at: usize, item: &T) -> bool {
        item.same_parts(&self.parts, at)
    }
}

impl<R: Item> SetRow<OwnRow<R, Nowhere>> for NowhereContainer
where
    NowherePartColumns: SetRow<R>,
{
    ghost fits = { λ r item. ⟦<NowherePartColumns as SetRow<R>>⟧.fits r item.parts };

    fn may_set(&self, index: usize, item: &OwnRow<R, Nowhere>) -> bool {
        self.parts.may_set(index, &item.parts)
    }

    fn set_row(&mut self, index: usize, item: OwnRow<R, Nowhere>) {
        self.parts.set_row(index, item.parts);
    }
}

impl<A, T: Item> SetItem<A, T> for NowhereContainer
where
    NowherePartColumns: SetItem<A, T>,
{
    ghost fits = { ⟦<NowherePartColumns as SetItem<A, T>>⟧.fits };

    ghost put = { ⟦<NowherePartColumns as SetItem<A, T>>⟧.put };

    fn may_set_item(&self, index: usize, at: A, item: &T) -> bool {
        self.parts.may_set_item(index, at, item)
    }

    fn set_item(&mut self, index: usize, at: A, item: T) {
        self.parts.set_item(index, at, item);
    }
}

impl<'a> IndexMut<'a> for NowhereContainer {
    ghost use Rattle.std.specs.Prelude.{◌≡◌};

    type IndexMut = RowMut<'a, NowhereContainer>;

    ghost lent = { λ s i r. (r.column.ghost_name ≡ s.ghost_name) × ((r.column.now ≡ s.now) × (r.index ≡ i)) };

    fn get_mut(&'a mut self, index: usize) -> Self::IndexMut {
        RowMut::new(self, index)
    }

    fn last_mut(&'a mut self) -> Option<Self::IndexMut> {
        let count = self.len();
        if count == 0 {
            None
        } else {
            Some(RowMut::new(self, count - 1))
        }
    }
}

/// What stands for a value of `Nowhere` in a column.
#[derive(Clone, Copy, Debug)]
pub struct NowhereReference;

impl Item for Nowhere {
    ghost meaning = { λ e. ⟦<NowhereParts as Item>⟧.meaning tt };

    ghost valid = { λ e. ⟦<NowhereParts as Item>⟧.valid tt };

    ghost unbuffered = { ⟦<NowhereParts as Item>⟧.unbuffered };
}

impl Item for NowhereReference {
    ghost meaning = { λ e. ⟦<() as Item>⟧.meaning tt };

    ghost valid = { λ e. ⟦<() as Item>⟧.valid tt };

    ghost unbuffered = { ⟦<() as Item>⟧.unbuffered };
}

impl MakeRow<()> for Nowhere {
    type Row = NowhereReference;

    fn make_row(_row: ()) -> Self::Row {
        NowhereReference
    }
}

impl PushParts<NowherePartColumns, Nowhere> for Nowhere {
    fn push_parts(&self, parts: &mut NowherePartColumns) -> Result<(), GrowError> {
        parts.push(())
    }
}

impl<P: Push<()>> PushParts<P, Nowhere> for NowhereReference {
    fn push_parts(&self, parts: &mut P) -> Result<(), GrowError> {
        parts.push(())
    }
}

impl PartNames for Nowhere {
    ghost use Rattle.std.specs.Prelude.{[]};
    ghost use Rattle.columnar.specs.Names.{name_at};

    ghost name_of = { name_at ([]) };

    fn part_name(index: usize) -> &'static str {
        name_in(&[], index)
    }
}

impl Columnar for Nowhere {
    ghost unfit = { ⟦<NowhereParts as Columnar>⟧.unfit };

    type Container = NowhereContainer;
}

impl<R: Item> FromRow<OwnRow<R, Nowhere>> for Nowhere
where
    NowhereParts: FromRow<R>,
{
    fn from_row(alloc: Global, row: OwnRow<R, Nowhere>) -> Result<Self, OwnError> {
        let _parts = NowhereParts::from_row(alloc, row.parts)?;
        Ok(Nowhere)
    }
}

// The columns of the values, of each variant and of those after it
type FoundColumnsFromLost = (ContainerOf<Nowhere>,);

type FoundColumnsFromAt = (ContainerOf<Place>, FoundColumnsFromLost);

type FoundParts = Variants<FoundColumnsFromAt>;

// The columns of the parts in a view
type FoundPartViews<'a> = <FoundParts as Borrow<'a>>::Borrowed;

/// A view of a column of values of `Found`.
#[derive(Clone, Copy)]
pub struct FoundView<'a> {
    /// The view of the column of their parts.
    pub parts: FoundPartViews<'a>,
}

/// A column of values of `Found`.
#[derive(Drop)]
pub struct FoundContainer {
    /// The column of their parts.
    pub parts: FoundParts,
}

impl Column for FoundContainer {
    ghost format = { ⟦<FoundParts as Column>⟧.format };

    ghost content = { λ c. ⟦<FoundParts as Column>⟧.content c.parts };

    ghost room = { λ c. ⟦<FoundParts as Column>⟧.room c.parts };
}

impl Len for FoundContainer {
    fn len(&self) -> usize {
        self.parts.len()
    }
}

impl Clear for FoundContainer {
    fn clear(&mut self) {
        self.parts.clear();
    }
}

impl Truncate for FoundContainer {
    ghost use Rattle.columnar.specs.ColumnLaws.{lawful_columns};

    ghost lawful = { Prim.search lawful_columns depth 64 fits 10000 };

    fn truncate(&mut self, n: usize) {
        self.parts.truncate(n);
    }
}

impl Storage for FoundContainer {
    fn empty(alloc: Global) -> Self {
        let parts = FoundParts::empty(alloc);
        Self { parts }
    }

    fn duplicate(&self, alloc: Global) -> Result<Self, GrowError> {
        let parts = self.parts.duplicate(alloc)?;
        Ok(Self { parts })
    }
}

impl Clone for FoundContainer {
    fn clone(&self) -> Result<Self, AllocError> {
        let parts = self.parts.clone()?;
        Ok(Self { parts })
    }
}

impl Reserve for FoundContainer {
    type Room = <FoundParts as Reserve>::Room;

    ghost reserves = { ⟦<FoundParts as Reserve>⟧.reserves };

    ghost covers = { ⟦<FoundParts as Reserve>⟧.covers };

    fn no_room() -> Self::Room {
        FoundParts::no_room()
    }

    fn reserve_room(&mut self, room: Self::Room) -> Result<(), GrowError> {
        self.parts.reserve_room(room)
    }
}

impl<'a> ExtendFrom<FoundView<'a>> for FoundContainer {
    fn add_room(room: Self::Room, view: FoundView<'a>) -> Self::Room {
        FoundParts::add_room(room, view.parts)
    }

    fn extend_from_self(
        &mut self,
        view: FoundView<'a>,
        range: std::ops::Range<usize>,
    ) -> Result<(), GrowError> {
        self.parts.extend_from_self(view.parts, range)
    }
}

impl<'a> Borrow<'a> for FoundContainer {
    ghost use Rattle.std.specs.Prelude.{refl};

    type Ref = OwnRow<<FoundParts as Borrow<'a>>::Ref, Found>;

    type Borrowed = FoundView<'a>;

    type Parts = <FoundParts as Borrow<'a>>::Parts;

    ghost same_format = { refl };

    fn borrow(&'a self) -> Self::Borrowed {
        let parts = self.parts.borrow();
        FoundView { parts }
    }
}

impl<'a> Column for FoundView<'a> {
    ghost format = { ⟦<FoundPartViews<'a> as Column>⟧.format };

    ghost content = { λ c. ⟦<FoundPartViews<'a> as Column>⟧.content c.parts };

    ghost room = { λ c. ⟦<FoundPartViews<'a> as Column>⟧.room c.parts };
}

impl<'a> Len for FoundView<'a> {
    fn len(&self) -> usize {
        self.parts.len()
    }
}

impl<'a> Index for FoundView<'a> {
    type Ref = OwnRow<<FoundPartViews<'a> as Index>::Ref, Found>;

    fn get(&self, index: usize) -> Self::Ref {
        OwnRow::new(self.parts.get(index))
    }
}

impl<'a: 'b, 'b> Reborrow<'b> for FoundView<'a> {
    ghost use Rattle.std.specs.Prelude.{refl};

    type Short = FoundView<'b>;

    ghost same_short = { refl };

    fn reborrow(self) -> Self::Short {
        let parts = self.parts.reborrow();
        FoundView { parts }
    }
}

impl<'a> Stored for FoundView<'a> {
    ghost use Rattle.std.specs.Prelude.{◌≡◌, ◌+◌, ◌*◌, ◌≤◌, ◌++◌, IsTrue, length, drop, OnOk, OnErr, IfErr};
    ghost use Rattle.columnar.specs.ColumnLaws.{counted_columns, storable_columns};
    ghost use Rattle.columnar.specs.Faults.{verdict};
    ghost use Rattle.columnar.specs.Format.{Fits, bytes_held, first, moved, representable};
    ghost use Rattle.columnar.specs.Store.{slices_in};

    ghost storable = { Prim.search storable_columns depth 64 fits 10000 };

    ghost counted = { λ c. Prim.search counted_columns depth 64 fits 10000 };

    fn slice_count() -> usize
        requires { IsTrue (representable ⟦<FoundView<'a> as Column>⟧.format) }
        ensures { result ≡ ⟦<FoundView<'a> as Column>⟧.format.count }
    {
        FoundPartViews::slice_count()
    }

    fn element_sizes(sizes: &mut Vec<usize>) -> Result<(), GrowError>
        requires { IsTrue (representable ⟦<FoundView<'a> as Column>⟧.format) }
        ensures ok { OnOk result (sizes.new.items ≡ sizes.old.items ++ ⟦<FoundView<'a> as Column>⟧.format.sizes) }
        ensures err { OnErr result (sizes.new.items ≡ sizes.old.items) }
        ensures memory { IfErr result (λ e. e ≡ GrowError.Memory) }
    {
        FoundPartViews::element_sizes(sizes)
    }

    fn judge_tallied<L>(
        store: &DecodedStore<'_>,
        offset: usize,
        tally: &mut Tally<L>,
    ) -> Result<(), StoreFault>
        requires representable { IsTrue (representable ⟦<FoundView<'a> as Column>⟧.format) }
        requires room { offset + ⟦<FoundView<'a> as Column>⟧.format.count ≤ length (slices_in store.now) }
        ensures exact { verdict result ≡ first (moved offset (⟦<FoundView<'a> as Column>⟧.format.broken (⟦<FoundView<'a> as Column>⟧.format.build (drop offset (slices_in store.now))))) }
        ensures turns { tally.new.turns ≤ tally.old.turns + ⟦<FoundView<'a> as Column>⟧.format.turns * bytes_held (⟦<FoundView<'a> as Column>⟧.format.build (drop offset (slices_in store.now))) }
    {
        FoundPartViews::judge_tallied(store, offset, tally)
    }

    fn rows_in(store: &DecodedStore<'_>, offset: usize) -> usize
        requires representable { IsTrue (representable ⟦<FoundView<'a> as Column>⟧.format) }
        requires fits { Fits ⟦<FoundView<'a> as Column>⟧.format offset (slices_in store.now) }
        ensures { result ≡ length (⟦<FoundView<'a> as Column>⟧.format.rows (⟦<FoundView<'a> as Column>⟧.format.build (drop offset (slices_in store.now)))) }
    {
        FoundPartViews::rows_in(store, offset)
    }
}

impl<'a> Check for FoundView<'a> {
    fn check_from_tallied<L>(&self, from: usize, tally: &mut Tally<L>) -> Result<(), StoreFault> {
        self.parts.check_from_tallied(from, tally)
    }
}

impl<'a> FromBytes<'a> for FoundView<'a> {
    fn from_store(store: &DecodedStore<'a>, offset: &mut usize) -> Self {
        let parts = FoundPartViews::from_store(store, offset);
        Self { parts }
    }
}

impl<'a> AsBytes<'a> for FoundView<'a> {
    fn get_byte_slice(&self, index: usize) -> (u64, ByteSlice<'a>) {
        self.parts.get_byte_slice(index)
    }
}

impl Stored for FoundContainer {
    ghost use Rattle.columnar.specs.ColumnLaws.{counted_columns, storable_columns};

    ghost storable = { Prim.search storable_columns depth 64 fits 10000 };

    ghost counted = { λ c. Prim.search counted_columns depth 64 fits 10000 };

    fn slice_count() -> usize {
        FoundParts::slice_count()
    }

    fn element_sizes(sizes: &mut Vec<usize>) -> Result<(), GrowError> {
        FoundParts::element_sizes(sizes)
    }

    fn judge_tallied<L>(
        store: &DecodedStore<'_>,
        offset: usize,
        tally: &mut Tally<L>,
    ) -> Result<(), StoreFault> {
        FoundParts::judge_tallied(store, offset, tally)
    }

    fn rows_in(store: &DecodedStore<'_>, offset: usize) -> usize {
        FoundParts::rows_in(store, offset)
    }
}

impl ContainerBytes for FoundContainer {
    fn byte_slice(&self, index: usize) -> ByteSlice<'_> {
        self.parts.byte_slice(index)
    }

    fn load(alloc: Global, store: &DecodedStore<'_>, offset: usize) -> Result<Self, GrowError> {
        let parts = FoundParts::load(alloc, store, offset)?;
        Ok(Self { parts })
    }
}

// The earlier form of the columns of the parts
type FoundOldColumns = <FoundParts as Earlier>::Old;

/// A column of values of `Found` in its earlier form.
#[derive(Drop)]
pub struct FoundOld {
    /// The column of their parts.
    pub parts: FoundOldColumns,
}

impl Column for FoundOld {
    ghost format = { ⟦<FoundOldColumns as Column>⟧.format };

    ghost content = { λ c. ⟦<FoundOldColumns as Column>⟧.content c.parts };

    ghost room = { λ c. ⟦<FoundOldColumns as Column>⟧.room c.parts };
}

impl Stored for FoundOld {
    ghost use Rattle.columnar.specs.ColumnLaws.{counted_columns, storable_columns};

    ghost storable = { Prim.search storable_columns depth 64 fits 10000 };

    ghost counted = { λ c. Prim.search counted_columns depth 64 fits 10000 };

    fn slice_count() -> usize {
        FoundOldColumns::slice_count()
    }

    fn element_sizes(sizes: &mut Vec<usize>) -> Result<(), GrowError> {
        FoundOldColumns::element_sizes(sizes)
    }

    fn judge_tallied<L>(
        store: &DecodedStore<'_>,
        offset: usize,
        tally: &mut Tally<L>,
    ) -> Result<(), StoreFault> {
        FoundOldColumns::judge_tallied(store, offset, tally)
    }

    fn rows_in(store: &DecodedStore<'_>, offset: usize) -> usize {
        FoundOldColumns::rows_in(store, offset)
    }
}

impl ContainerBytes for FoundOld {
    fn byte_slice(&self, index: usize) -> ByteSlice<'_> {
        self.parts.byte_slice(index)
    }

    fn load(alloc: Global, store: &DecodedStore<'_>, offset: usize) -> Result<Self, GrowError> {
        let parts = FoundOldColumns::load(alloc, store, offset)?;
        Ok(Self { parts })
    }
}

impl Earlier for FoundContainer {
    ghost use Rattle.columnar.specs.ColumnLaws.{earlier_columns};

    type Old = FoundOld;

    ghost earlier = { Prim.search earlier_columns depth 64 fits 10000 };

    fn from_old(alloc: Global, old: Self::Old) -> Result<Self, GrowError> {
        let parts = FoundParts::from_old(alloc, old.parts)?;
        Ok(Self { parts })
    }
}

impl SliceNames for FoundContainer {
    ghost names_at = { ⟦<OwnRows<FoundParts, Found> as SliceNames>⟧.names_at };

    fn push_names(alloc: Global, path: &str, names: &mut Vec<String>) -> Result<(), GrowError> {
        <OwnRows<FoundParts, Found>>::push_names(alloc, path, names)
    }
}

impl<T: PushParts<FoundParts, Found> + Drop> Push<T> for FoundContainer {
    fn push(&mut self, item: T) -> Result<(), GrowError> {
        self.push_ref(&item)
    }
}

impl<T: PushParts<FoundParts, Found>> PushRef<T> for FoundContainer {
    fn push_ref(&mut self, item: &T) -> Result<(), GrowError> {
        item.push_parts(&mut self.parts)
    }
}

impl<T: SameParts<FoundParts, Found>> SameAs<T> for FoundContainer {
    fn same(&self, at: usize, item: &T) -> bool {
        item.same_parts(&self.parts, at)
    }
}

impl<R: Item> SetRow<OwnRow<R, Found>> for FoundContainer
where
    FoundParts: SetRow<R>,
{
    ghost fits = { λ r item. ⟦<FoundParts as SetRow<R>>⟧.fits r item.parts };

    fn may_set(&self, index: usize, item: &OwnRow<R, Found>) -> bool {
        self.parts.may_set(index, &item.parts)
    }

    fn set_row(&mut self, index: usize, item: OwnRow<R, Found>) {
        self.parts.set_row(index, item.parts);
    }
}

impl<A, T: Item> SetItem<A, T> for FoundContainer
where
    FoundParts: SetItem<A, T>,
{
    ghost fits = { ⟦<FoundParts as SetItem<A, T>>⟧.fits };

    ghost put = { ⟦<FoundParts as SetItem<A, T>>⟧.put };

    fn may_set_item(&self, index: usize, at: A, item: &T) -> bool {
        self.parts.may_set_item(index, at, item)
    }

    fn set_item(&mut self, index: usize, at: A, item: T) {
        self.parts.set_item(index, at, item);
    }
}

impl<'a> IndexMut<'a> for FoundContainer {
    ghost use Rattle.std.specs.Prelude.{◌≡◌};

    type IndexMut = RowMut<'a, FoundContainer>;

    ghost lent = { λ s i r. (r.column.ghost_name ≡ s.ghost_name) × ((r.column.now ≡ s.now) × (r.index ≡ i)) };

    fn get_mut(&'a mut self, index: usize) -> Self::IndexMut {
        RowMut::new(self, index)
    }

    fn last_mut(&'a mut self) -> Option<Self::IndexMut> {
        let count = self.len();
        if count == 0 {
            None
        } else {
            Some(RowMut::new(self, count - 1))
        }
    }
}
// What a row is read as
type FoundRows<A, B> = Nth<A, Last<B>>;

/// What stands for a value of `Found` in a column.
#[derive(Clone, Copy, Debug)]
pub enum FoundReference<A, B> {
    At(A),
    Lost(B),
}

impl Item for Found {
    ghost use Rattle.columnar.specs.Row.{Row};
    ghost use Rattle.columnar.specs.Variants.{case};
    ghost use Rattle.operator_tests.specs.declared.place.Found.TheVariants.{At, Lost};

    ghost meaning = { λ s. elim s as (λ v. Row) [ At a ↦ case 0 (⟦<Place as Item>⟧.meaning a) | Lost a ↦ case 1 (⟦<Nowhere as Item>⟧.meaning a) ] };

    ghost valid = { λ s. elim s as (λ v. Type 0) [ At a ↦ ⟦<Place as Item>⟧.valid a | Lost a ↦ ⟦<Nowhere as Item>⟧.valid a ] };

    ghost unbuffered = { ⟦<FoundRows<Place, Nowhere> as Item>⟧.unbuffered };
}

impl<A: Item, B: Item> Item for FoundReference<A, B> {
    ghost use Rattle.columnar.specs.Row.{Row};
    ghost use Rattle.columnar.specs.Variants.{case};
    ghost use Rattle.operator_tests.specs.declared.place.rows.FoundReference.TheVariants.{At, Lost};

    ghost meaning = { λ s. elim s as (λ v. Row) [ At a ↦ case 0 (A.meaning a) | Lost a ↦ case 1 (B.meaning a) ] };

    ghost valid = { λ s. elim s as (λ v. Type 0) [ At a ↦ A.valid a | Lost a ↦ B.valid a ] };

    ghost unbuffered = { ⟦<FoundRows<A, B> as Item>⟧.unbuffered };
}

impl<A: Item, B: Item> MakeRow<FoundRows<A, B>> for Found {
    type Row = FoundReference<A, B>;

    fn make_row(row: FoundRows<A, B>) -> Self::Row {
        let row = match row {
            Nth::This(a) => return FoundReference::At(a),
            Nth::Next(row) => row,
        };
        let Last(a) = row;
        FoundReference::Lost(a)
    }
}

// A value, lent
type FoundLent<'x> = FoundReference<&'x Place, &'x Nowhere>;

impl<'x> LendRow<'x> for Found {
    type Lent = FoundLent<'x>;

    fn lend_row(&'x self) -> Self::Lent {
        match self {
            Found::At(a) => FoundReference::At(a),
            Found::Lost(a) => FoundReference::Lost(a),
        }
    }
}

impl PushParts<FoundParts, Found> for Found {
    fn push_parts(&self, parts: &mut FoundParts) -> Result<(), GrowError> {
        self.push_lent::<FoundParts, Found>(parts)
    }
}

impl<A: Copy + Item, B: Copy + Item, P: Push<FoundRows<A, B>>> PushParts<P, Found>
    for FoundReference<A, B> {
    fn push_parts(&self, parts: &mut P) -> Result<(), GrowError> {
        match *self {
            FoundReference::At(a) => parts.push(Nth::This(a)),
            FoundReference::Lost(a) => parts.push(Nth::Next(Last(a))),
        }
    }
}

impl PartNames for Found {
    ghost use Rattle.std.specs.Prelude.{[], ◌∷◌, codes};
    ghost use Rattle.columnar.specs.Names.{name_at};

    ghost name_of = { name_at (codes "At" ∷ codes "Lost" ∷ []) };

    fn part_name(index: usize) -> &'static str {
        name_in(&["At", "Lost"], index)
    }
}

impl Columnar for Found {
    ghost use Rattle.std.specs.Prelude.{◌||◌};
    ghost use Rattle.columnar.specs.Variants.{of_variant};

    ghost unfit = { λ u r. of_variant 0 (⟦<Place as Columnar>⟧.unfit u) r || (of_variant 1 (⟦<Nowhere as Columnar>⟧.unfit u) r) };

    type Container = FoundContainer;
}

impl<A: Item, B: Item> FromRow<OwnRow<FoundRows<A, B>, Found>> for Found
where
    Place: FromRow<A>,
    Nowhere: FromRow<B>,
{
    fn from_row(alloc: Global, row: OwnRow<FoundRows<A, B>, Found>) -> Result<Self, OwnError> {
        match row.show() {
            FoundReference::At(a) => {
                let a = <Place>::from_row(alloc, a)?;
                Ok(Found::At(a))
            }
            FoundReference::Lost(a) => {
                let a = <Nowhere>::from_row(alloc, a)?;
                Ok(Found::Lost(a))
            }
        }
    }
}

// The places of the variants
type FoundAtAt = columnar::sums::variants::Zero;

type FoundAtLost = columnar::sums::variants::Next<FoundAtAt>;

// The columns of each part in a view
type FoundView0<'x> = <ContainerOf<Place> as Borrow<'x>>::Borrowed;

type FoundView1<'x> = <ContainerOf<Nowhere> as Borrow<'x>>::Borrowed;

/// The values of each variant of `Found` in a view, by name.
pub trait FoundColumns<A: Column, B: Column>: Column {
    ghost use Rattle.std.specs.Prelude.{◌≡◌};
    ghost use Rattle.columnar.specs.Format.{IsSound};
    ghost use Rattle.columnar.specs.Variants.{of_case};

    /// Returns the values of `At`.
    ///
    /// # Requires
    /// A well-formed view.
    fn at(self) -> A
        requires { IsSound Self.format (Self.content self) }
        ensures sound { IsSound A.format (A.content result) }
        ensures rows { A.format.rows (A.content result) ≡ of_case 0 (Self.format.rows (Self.content self)) };

    /// Returns the values of `Lost`.
    ///
    /// # Requires
    /// A well-formed view.
    fn lost(self) -> B
        requires { IsSound Self.format (Self.content self) }
        ensures sound { IsSound B.format (B.content result) }
        ensures rows { B.format.rows (B.content result) ≡ of_case 1 (Self.format.rows (Self.content self)) };
}

impl<'x> FoundColumns<FoundView0<'x>, FoundView1<'x>> for FoundView<'x> {
    fn at(self) -> FoundView0<'x> {
        values_at::<FoundAtAt, _, _, _>(self.parts)
    }

    fn lost(self) -> FoundView1<'x> {
        values_at::<FoundAtLost, _, _, _>(self.parts)
    }
}

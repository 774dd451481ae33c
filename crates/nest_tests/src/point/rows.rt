//! Rows of `Point`, as `columnar_derive` writes them.
use super::*;
use columnar::bytes::indexed::DecodedStore;
use columnar::bytes::{ByteSlice, Earlier, Tally};
use columnar::fault::{GrowError, OwnError, StoreFault};
use columnar::names::{PartNames, name_in};
use columnar::{
    AsBytes, Borrow, Check, Clear, Column, Columnar, ContainerBytes, ContainerOf, ExtendFrom,
    FromBytes, FromRow, Index, IndexMut, Item, Len, MakeRow, OwnRow, OwnRows, Push, PushParts,
    PushRef, Reborrow, Reserve, RowMut, SameAs, SameParts, SetItem, SetRow, SliceNames, Storage,
    Stored, Truncate,
};
use std::alloc::{AllocError, Global};

// The fields, in their order
type Parts = (u64, u32);

// Their columns
type PartColumns = ContainerOf<Parts>;

// The columns of the parts in a view
type PartViews<'a> = <PartColumns as Borrow<'a>>::Borrowed;

/// A view of a column of values of `Point`.
#[derive(Clone, Copy)]
pub struct PointView<'a> {
    /// The view of the column of their parts.
    pub parts: PartViews<'a>,
}

/// A column of values of `Point`.
#[derive(Drop)]
pub struct PointContainer {
    /// The column of their parts.
    pub parts: PartColumns,
}

impl Column for PointContainer {
    ghost format = { ⟦<PartColumns as Column>⟧.format };

    ghost content = { λ c. ⟦<PartColumns as Column>⟧.content c.parts };

    ghost room = { λ c. ⟦<PartColumns as Column>⟧.room c.parts };
}

impl Len for PointContainer {
    fn len(&self) -> usize {
        self.parts.len()
    }
}

impl Clear for PointContainer {
    fn clear(&mut self) {
        self.parts.clear();
    }
}

impl Truncate for PointContainer {
    ghost use Rattle.columnar.specs.ColumnLaws.{lawful_columns};

    ghost lawful = { Prim.search lawful_columns depth 64 fits 10000 };

    fn truncate(&mut self, n: usize) {
        self.parts.truncate(n);
    }
}

impl Storage for PointContainer {
    fn empty(alloc: Global) -> Self {
        let parts = PartColumns::empty(alloc);
        Self { parts }
    }

    fn duplicate(&self, alloc: Global) -> Result<Self, GrowError> {
        let parts = self.parts.duplicate(alloc)?;
        Ok(Self { parts })
    }
}

impl Clone for PointContainer {
    fn clone(&self) -> Result<Self, AllocError> {
        let parts = self.parts.clone()?;
        Ok(Self { parts })
    }
}

impl Reserve for PointContainer {
    type Room = <PartColumns as Reserve>::Room;

    ghost reserves = { ⟦<PartColumns as Reserve>⟧.reserves };

    ghost covers = { ⟦<PartColumns as Reserve>⟧.covers };

    fn no_room() -> Self::Room {
        PartColumns::no_room()
    }

    fn reserve_room(&mut self, room: Self::Room) -> Result<(), GrowError> {
        self.parts.reserve_room(room)
    }
}

impl<'a> ExtendFrom<PointView<'a>> for PointContainer {
    fn add_room(room: Self::Room, view: PointView<'a>) -> Self::Room {
        PartColumns::add_room(room, view.parts)
    }

    fn extend_from_self(
        &mut self,
        view: PointView<'a>,
        range: std::ops::Range<usize>,
    ) -> Result<(), GrowError> {
        self.parts.extend_from_self(view.parts, range)
    }
}

impl<'a> Borrow<'a> for PointContainer {
    ghost use Rattle.std.specs.Prelude.{refl};

    type Ref = OwnRow<<PartColumns as Borrow<'a>>::Ref, Point>;

    type Borrowed = PointView<'a>;

    type Parts = <PartColumns as Borrow<'a>>::Parts;

    ghost same_format = { refl };

    fn borrow(&'a self) -> Self::Borrowed {
        let parts = self.parts.borrow();
        PointView { parts }
    }
}

impl<'a> Column for PointView<'a> {
    ghost format = { ⟦<PartViews<'a> as Column>⟧.format };

    ghost content = { λ c. ⟦<PartViews<'a> as Column>⟧.content c.parts };

    ghost room = { λ c. ⟦<PartViews<'a> as Column>⟧.room c.parts };
}

impl<'a> Len for PointView<'a> {
    fn len(&self) -> usize {
        self.parts.len()
    }
}

impl<'a> Index for PointView<'a> {
    type Ref = OwnRow<<PartViews<'a> as Index>::Ref, Point>;

    fn get(&self, index: usize) -> Self::Ref {
        OwnRow::new(self.parts.get(index))
    }
}

impl<'a: 'b, 'b> Reborrow<'b> for PointView<'a> {
    ghost use Rattle.std.specs.Prelude.{refl};

    type Short = PointView<'b>;

    ghost same_short = { refl };

    fn reborrow(self) -> Self::Short {
        let parts = self.parts.reborrow();
        PointView { parts }
    }
}

impl<'a> Stored for PointView<'a> {
    ghost use Rattle.std.specs.Prelude.{◌≡◌, ◌+◌, ◌*◌, ◌≤◌, ◌++◌, IsTrue, length, drop, OnOk, OnErr, IfErr};
    ghost use Rattle.columnar.specs.ColumnLaws.{counted_columns, storable_columns};
    ghost use Rattle.columnar.specs.Faults.{verdict};
    ghost use Rattle.columnar.specs.Format.{Fits, bytes_held, first, moved, representable};
    ghost use Rattle.columnar.specs.Store.{slices_in};

    ghost storable = { Prim.search storable_columns depth 64 fits 10000 };

    ghost counted = { λ c. Prim.search counted_columns depth 64 fits 10000 };

    fn slice_count() -> usize
        requires { IsTrue (representable ⟦<PointView<'a> as Column>⟧.format) }
        ensures { result ≡ ⟦<PointView<'a> as Column>⟧.format.count }
    {
        PartViews::slice_count()
    }

    fn element_sizes(sizes: &mut Vec<usize>) -> Result<(), GrowError>
        requires { IsTrue (representable ⟦<PointView<'a> as Column>⟧.format) }
        ensures ok { OnOk result (sizes.new.items ≡ sizes.old.items ++ ⟦<PointView<'a> as Column>⟧.format.sizes) }
        ensures err { OnErr result (sizes.new.items ≡ sizes.old.items) }
        ensures memory { IfErr result (λ e. e ≡ GrowError.Memory) }
    {
        PartViews::element_sizes(sizes)
    }

    fn judge_tallied<L>(
        store: &DecodedStore<'_>,
        offset: usize,
        tally: &mut Tally<L>,
    ) -> Result<(), StoreFault>
        requires representable { IsTrue (representable ⟦<PointView<'a> as Column>⟧.format) }
        requires room { offset + ⟦<PointView<'a> as Column>⟧.format.count ≤ length (slices_in store.now) }
        ensures exact { verdict result ≡ first (moved offset (⟦<PointView<'a> as Column>⟧.format.broken (⟦<PointView<'a> as Column>⟧.format.build (drop offset (slices_in store.now))))) }
        ensures turns { tally.new.turns ≤ tally.old.turns + ⟦<PointView<'a> as Column>⟧.format.turns * bytes_held (⟦<PointView<'a> as Column>⟧.format.build (drop offset (slices_in store.now))) }
    {
        PartViews::judge_tallied(store, offset, tally)
    }

    fn rows_in(store: &DecodedStore<'_>, offset: usize) -> usize
        requires representable { IsTrue (representable ⟦<PointView<'a> as Column>⟧.format) }
        requires fits { Fits ⟦<PointView<'a> as Column>⟧.format offset (slices_in store.now) }
        ensures { result ≡ length (⟦<PointView<'a> as Column>⟧.format.rows (⟦<PointView<'a> as Column>⟧.format.build (drop offset (slices_in store.now)))) }
    {
        PartViews::rows_in(store, offset)
    }
}

impl<'a> Check for PointView<'a> {
    fn check_from_tallied<L>(&self, from: usize, tally: &mut Tally<L>) -> Result<(), StoreFault> {
        self.parts.check_from_tallied(from, tally)
    }
}

impl<'a> FromBytes<'a> for PointView<'a> {
    fn from_store(store: &DecodedStore<'a>, offset: &mut usize) -> Self {
        let parts = PartViews::from_store(store, offset);
        Self { parts }
    }
}

impl<'a> AsBytes<'a> for PointView<'a> {
    fn get_byte_slice(&self, index: usize) -> (u64, ByteSlice<'a>) {
        self.parts.get_byte_slice(index)
    }
}

impl Stored for PointContainer {
    ghost use Rattle.columnar.specs.ColumnLaws.{counted_columns, storable_columns};

    ghost storable = { Prim.search storable_columns depth 64 fits 10000 };

    ghost counted = { λ c. Prim.search counted_columns depth 64 fits 10000 };

    fn slice_count() -> usize {
        PartColumns::slice_count()
    }

    fn element_sizes(sizes: &mut Vec<usize>) -> Result<(), GrowError> {
        PartColumns::element_sizes(sizes)
    }

    fn judge_tallied<L>(
        store: &DecodedStore<'_>,
        offset: usize,
        tally: &mut Tally<L>,
    ) -> Result<(), StoreFault> {
        PartColumns::judge_tallied(store, offset, tally)
    }

    fn rows_in(store: &DecodedStore<'_>, offset: usize) -> usize {
        PartColumns::rows_in(store, offset)
    }
}

impl ContainerBytes for PointContainer {
    fn byte_slice(&self, index: usize) -> ByteSlice<'_> {
        self.parts.byte_slice(index)
    }

    fn load(alloc: Global, store: &DecodedStore<'_>, offset: usize) -> Result<Self, GrowError> {
        let parts = PartColumns::load(alloc, store, offset)?;
        Ok(Self { parts })
    }
}

// The earlier form of the columns of the parts
type OldColumns = <PartColumns as Earlier>::Old;

/// A column of values of `Point` in its earlier form.
#[derive(Drop)]
pub struct PointOld {
    /// The column of their parts.
    pub parts: OldColumns,
}

impl Column for PointOld {
    ghost format = { ⟦<OldColumns as Column>⟧.format };

    ghost content = { λ c. ⟦<OldColumns as Column>⟧.content c.parts };

    ghost room = { λ c. ⟦<OldColumns as Column>⟧.room c.parts };
}

impl Stored for PointOld {
    ghost use Rattle.columnar.specs.ColumnLaws.{counted_columns, storable_columns};

    ghost storable = { Prim.search storable_columns depth 64 fits 10000 };

    ghost counted = { λ c. Prim.search counted_columns depth 64 fits 10000 };

    fn slice_count() -> usize {
        OldColumns::slice_count()
    }

    fn element_sizes(sizes: &mut Vec<usize>) -> Result<(), GrowError> {
        OldColumns::element_sizes(sizes)
    }

    fn judge_tallied<L>(
        store: &DecodedStore<'_>,
        offset: usize,
        tally: &mut Tally<L>,
    ) -> Result<(), StoreFault> {
        OldColumns::judge_tallied(store, offset, tally)
    }

    fn rows_in(store: &DecodedStore<'_>, offset: usize) -> usize {
        OldColumns::rows_in(store, offset)
    }
}

impl ContainerBytes for PointOld {
    fn byte_slice(&self, index: usize) -> ByteSlice<'_> {
        self.parts.byte_slice(index)
    }

    fn load(alloc: Global, store: &DecodedStore<'_>, offset: usize) -> Result<Self, GrowError> {
        let parts = OldColumns::load(alloc, store, offset)?;
        Ok(Self { parts })
    }
}

impl Earlier for PointContainer {
    ghost use Rattle.columnar.specs.ColumnLaws.{earlier_columns};

    type Old = PointOld;

    ghost earlier = { Prim.search earlier_columns depth 64 fits 10000 };

    fn from_old(alloc: Global, old: Self::Old) -> Result<Self, GrowError> {
        let parts = PartColumns::from_old(alloc, old.parts)?;
        Ok(Self { parts })
    }
}

impl SliceNames for PointContainer {
    ghost names_at = { ⟦<OwnRows<PartColumns, Point> as SliceNames>⟧.names_at };

    fn push_names(alloc: Global, path: &str, names: &mut Vec<String>) -> Result<(), GrowError> {
        <OwnRows<PartColumns, Point>>::push_names(alloc, path, names)
    }
}

impl<T: PushParts<PartColumns, Point> + Drop> Push<T> for PointContainer {
    fn push(&mut self, item: T) -> Result<(), GrowError> {
        self.push_ref(&item)
    }
}

impl<T: PushParts<PartColumns, Point>> PushRef<T> for PointContainer {
    fn push_ref(&mut self, item: &T) -> Result<(), GrowError> {
        item.push_parts(&mut self.parts)
    }
}

impl<T: SameParts<PartColumns, Point>> SameAs<T> for PointContainer {
    fn same(&self, at: usize, item: &T) -> bool {
        item.same_parts(&self.parts, at)
    }
}

impl<R: Item> SetRow<OwnRow<R, Point>> for PointContainer
where
    PartColumns: SetRow<R>,
{
    ghost fits = { λ r item. ⟦<PartColumns as SetRow<R>>⟧.fits r item.parts };

    fn may_set(&self, index: usize, item: &OwnRow<R, Point>) -> bool {
        self.parts.may_set(index, &item.parts)
    }

    fn set_row(&mut self, index: usize, item: OwnRow<R, Point>) {
        self.parts.set_row(index, item.parts);
    }
}

impl<A, T: Item> SetItem<A, T> for PointContainer
where
    PartColumns: SetItem<A, T>,
{
    ghost fits = { ⟦<PartColumns as SetItem<A, T>>⟧.fits };

    ghost put = { ⟦<PartColumns as SetItem<A, T>>⟧.put };

    fn may_set_item(&self, index: usize, at: A, item: &T) -> bool {
        self.parts.may_set_item(index, at, item)
    }

    fn set_item(&mut self, index: usize, at: A, item: T) {
        self.parts.set_item(index, at, item);
    }
}

impl<'a> IndexMut<'a> for PointContainer {
    ghost use Rattle.std.specs.Prelude.{◌≡◌};

    type IndexMut = RowMut<'a, PointContainer>;

    ghost lent = { λ s i r. (r.column.ghost_name ≡ s.ghost_name) × ((r.column.now ≡ s.now) × (r.index ≡ i)) };

    fn get_mut(&'a mut self, index: usize) -> Self::IndexMut {
        RowMut::new(self, index)
    }

    fn last_mut(&'a mut self) -> Option<Self::IndexMut> {
        let count = self.len();
        if count == 0 {
            None
        } else {
            Some(RowMut::new(self, count - 1))
        }
    }
}

/// What stands for a value of `Point` in a column.
#[derive(Clone, Copy, Debug)]
pub struct PointReference<A, B> {
    pub x: A,
    pub y: B,
}

impl Item for Point {
    ghost meaning = { λ e. ⟦<Parts as Item>⟧.meaning (e.x, e.y) };

    ghost valid = { λ e. ⟦<Parts as Item>⟧.valid (e.x, e.y) };

    ghost unbuffered = { ⟦<Parts as Item>⟧.unbuffered };
}

impl<A: Item, B: Item> Item for PointReference<A, B> {
    ghost meaning = { λ e. ⟦<(A, B) as Item>⟧.meaning (e.x, e.y) };

    ghost valid = { λ e. ⟦<(A, B) as Item>⟧.valid (e.x, e.y) };

    ghost unbuffered = { ⟦<(A, B) as Item>⟧.unbuffered };
}

impl<A: Item, B: Item> MakeRow<(A, B)> for Point {
    type Row = PointReference<A, B>;

    fn make_row(row: (A, B)) -> Self::Row {
        PointReference { x: row.0, y: row.1 }
    }
}

impl PushParts<PartColumns, Point> for Point {
    fn push_parts(&self, parts: &mut PartColumns) -> Result<(), GrowError> {
        parts.push((&self.x, &self.y))
    }
}

impl<A: Copy + Item, B: Copy + Item, P: Push<(A, B)>> PushParts<P, Point> for PointReference<A, B> {
    fn push_parts(&self, parts: &mut P) -> Result<(), GrowError> {
        parts.push((self.x, self.y))
    }
}

impl PartNames for Point {
    ghost use Rattle.std.specs.Prelude.{[], ◌∷◌, codes};
    ghost use Rattle.columnar.specs.Names.{name_at};

    ghost name_of = { name_at (codes "x" ∷ codes "y" ∷ []) };

    fn part_name(index: usize) -> &'static str {
        name_in(&["x", "y"], index)
    }
}

impl Columnar for Point {
    ghost unfit = { ⟦<Parts as Columnar>⟧.unfit };

    type Container = PointContainer;
}

impl<R: Item> FromRow<OwnRow<R, Point>> for Point
where
    Parts: FromRow<R>,
{
    fn from_row(alloc: Global, row: OwnRow<R, Point>) -> Result<Self, OwnError> {
        let parts = Parts::from_row(alloc, row.parts)?;
        Ok(Point {
            x: parts.0,
            y: parts.1,
        })
    }
}

// The columns of each part in a view
type View0<'x> = <ContainerOf<u64> as Borrow<'x>>::Borrowed;

type View1<'x> = <ContainerOf<u32> as Borrow<'x>>::Borrowed;

/// The columns of the fields of `Point` in a view, by name.
pub trait PointColumns<A: Column, B: Column>: Column {
    ghost use Rattle.std.specs.Prelude.{◌≡◌};
    ghost use Rattle.columnar.specs.Format.{IsSound};
    ghost use Rattle.columnar.specs.Fields.{rows_of_field, rows_of_last};

    /// Returns the column of `x`.
    ///
    /// # Requires
    /// A well-formed view.
    fn x(self) -> A
        requires { IsSound Self.format (Self.content self) }
        ensures sound { IsSound A.format (A.content result) }
        ensures rows { A.format.rows (A.content result) ≡ rows_of_field 0 (Self.format.rows (Self.content self)) };

    /// Returns the column of `y`.
    ///
    /// # Requires
    /// A well-formed view.
    fn y(self) -> B
        requires { IsSound Self.format (Self.content self) }
        ensures sound { IsSound B.format (B.content result) }
        ensures rows { B.format.rows (B.content result) ≡ rows_of_last 1 (Self.format.rows (Self.content self)) };
}

impl<'x> PointColumns<View0<'x>, View1<'x>> for PointView<'x> {
    fn x(self) -> View0<'x> {
        columnar::own::fields_of_two(self.parts).0
    }

    fn y(self) -> View1<'x> {
        columnar::own::fields_of_two(self.parts).1
    }
}

impl PointContainer {
    ghost use Rattle.std.specs.Prelude.{length, ◌<◌};
    ghost use Rattle.columnar.specs.Format.{IsSound};
    ghost use Rattle.columnar.specs.FieldWrites.{WroteField, field_at, last_at};

    /// Writes `x` of row `index`. Allocates nothing.
    ///
    /// # Requires
    /// The column is well-formed and has such a row, and `value` is valid and may replace what is there.
    pub fn set_x<T: Item>(&mut self, index: usize, value: T)
    where
        ContainerOf<u64>: SetRow<T>,
        requires sound { IsSound ⟦<PointContainer as Column>⟧.format (⟦<PointContainer as Column>⟧.content self.old) }
        requires in_range { index < length (⟦<PointContainer as Column>⟧.format.rows (⟦<PointContainer as Column>⟧.content self.old)) }
        requires valid { T.valid value }
        requires fits { ⟦<ContainerOf<u64> as SetRow<T>>⟧.fits (field_at ⟦<PointContainer as Column>⟧.format (⟦<PointContainer as Column>⟧.content self.old) index 0) value }
        ensures { WroteField ⟦<PointContainer as Column>⟧.format (⟦<PointContainer as Column>⟧.content self.old) (⟦<PointContainer as Column>⟧.content self.new) index 0 1 (T.meaning value) }
    {
        self.parts.set_item(index, columnar::Field::<0>, value);
    }

    /// Writes `y` of row `index`. Allocates nothing.
    ///
    /// # Requires
    /// The column is well-formed and has such a row, and `value` is valid and may replace what is there.
    pub fn set_y<T: Item>(&mut self, index: usize, value: T)
    where
        ContainerOf<u32>: SetRow<T>,
        requires sound { IsSound ⟦<PointContainer as Column>⟧.format (⟦<PointContainer as Column>⟧.content self.old) }
        requires in_range { index < length (⟦<PointContainer as Column>⟧.format.rows (⟦<PointContainer as Column>⟧.content self.old)) }
        requires valid { T.valid value }
        requires fits { ⟦<ContainerOf<u32> as SetRow<T>>⟧.fits (last_at ⟦<PointContainer as Column>⟧.format (⟦<PointContainer as Column>⟧.content self.old) index 1) value }
        ensures { WroteField ⟦<PointContainer as Column>⟧.format (⟦<PointContainer as Column>⟧.content self.old) (⟦<PointContainer as Column>⟧.content self.new) index 1 0 (T.meaning value) }
    {
        self.parts.set_item(index, columnar::Field::<1>, value);
    }
}

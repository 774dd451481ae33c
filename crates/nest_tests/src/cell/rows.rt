//! Rows of `Cell`, as `columnar_derive` writes them.
use super::*;
use columnar::bytes::indexed::DecodedStore;
use columnar::bytes::{ByteSlice, Earlier, Tally};
use columnar::fault::{GrowError, OwnError, StoreFault};
use columnar::names::{PartNames, name_in};
use columnar::{
    AsBytes, Borrow, Check, Clear, Column, Columnar, ContainerBytes, ContainerOf, ExtendFrom,
    FromBytes, FromRow, Index, IndexMut, Item, Len, MakeRow, OwnRow, OwnRows, Push, PushParts,
    PushRef, Reborrow, Reserve, RowMut, SameAs, SameParts, SetItem, SetRow, SliceNames, Storage,
    Stored, Truncate,
};
use std::alloc::{AllocError, Global};

// The fields, in their order
type Parts = (u64, String, Option<u32>);

// Their columns
type PartColumns = ContainerOf<Parts>;

// The columns of the parts in a view
type PartViews<'a> = <PartColumns as Borrow<'a>>::Borrowed;

/// A view of a column of values of `Cell`.
#[derive(Clone, Copy)]
pub struct CellView<'a> {
    /// The view of the column of their parts.
    pub parts: PartViews<'a>,
}

/// A column of values of `Cell`.
#[derive(Drop)]
pub struct CellContainer {
    /// The column of their parts.
    pub parts: PartColumns,
}

impl Column for CellContainer {
    ghost format = { ⟦<PartColumns as Column>⟧.format };

    ghost content = { λ c. ⟦<PartColumns as Column>⟧.content c.parts };

    ghost room = { λ c. ⟦<PartColumns as Column>⟧.room c.parts };
}

impl Len for CellContainer {
    fn len(&self) -> usize {
        self.parts.len()
    }
}

impl Clear for CellContainer {
    fn clear(&mut self) {
        self.parts.clear();
    }
}

impl Truncate for CellContainer {
    ghost use Rattle.columnar.specs.ColumnLaws.{lawful_columns};

    ghost lawful = { Prim.search lawful_columns depth 64 fits 10000 };

    fn truncate(&mut self, n: usize) {
        self.parts.truncate(n);
    }
}

impl Storage for CellContainer {
    fn empty(alloc: Global) -> Self {
        let parts = PartColumns::empty(alloc);
        Self { parts }
    }

    fn duplicate(&self, alloc: Global) -> Result<Self, GrowError> {
        let parts = self.parts.duplicate(alloc)?;
        Ok(Self { parts })
    }
}

impl Clone for CellContainer {
    fn clone(&self) -> Result<Self, AllocError> {
        let parts = self.parts.clone()?;
        Ok(Self { parts })
    }
}

impl Reserve for CellContainer {
    type Room = <PartColumns as Reserve>::Room;

    ghost reserves = { ⟦<PartColumns as Reserve>⟧.reserves };

    ghost covers = { ⟦<PartColumns as Reserve>⟧.covers };

    fn no_room() -> Self::Room {
        PartColumns::no_room()
    }

    fn reserve_room(&mut self, room: Self::Room) -> Result<(), GrowError> {
        self.parts.reserve_room(room)
    }
}

impl<'a> ExtendFrom<CellView<'a>> for CellContainer {
    fn add_room(room: Self::Room, view: CellView<'a>) -> Self::Room {
        PartColumns::add_room(room, view.parts)
    }

    fn extend_from_self(
        &mut self,
        view: CellView<'a>,
        range: std::ops::Range<usize>,
    ) -> Result<(), GrowError> {
        self.parts.extend_from_self(view.parts, range)
    }
}

impl<'a> Borrow<'a> for CellContainer {
    ghost use Rattle.std.specs.Prelude.{refl};

    type Ref = OwnRow<<PartColumns as Borrow<'a>>::Ref, Cell>;

    type Borrowed = CellView<'a>;

    type Parts = <PartColumns as Borrow<'a>>::Parts;

    ghost same_format = { refl };

    fn borrow(&'a self) -> Self::Borrowed {
        let parts = self.parts.borrow();
        CellView { parts }
    }
}

impl<'a> Column for CellView<'a> {
    ghost format = { ⟦<PartViews<'a> as Column>⟧.format };

    ghost content = { λ c. ⟦<PartViews<'a> as Column>⟧.content c.parts };

    ghost room = { λ c. ⟦<PartViews<'a> as Column>⟧.room c.parts };
}

impl<'a> Len for CellView<'a> {
    fn len(&self) -> usize {
        self.parts.len()
    }
}

impl<'a> Index for CellView<'a> {
    type Ref = OwnRow<<PartViews<'a> as Index>::Ref, Cell>;

    fn get(&self, index: usize) -> Self::Ref {
        OwnRow::new(self.parts.get(index))
    }
}

impl<'a: 'b, 'b> Reborrow<'b> for CellView<'a> {
    ghost use Rattle.std.specs.Prelude.{refl};

    type Short = CellView<'b>;

    ghost same_short = { refl };

    fn reborrow(self) -> Self::Short {
        let parts = self.parts.reborrow();
        CellView { parts }
    }
}

impl<'a> Stored for CellView<'a> {
    ghost use Rattle.std.specs.Prelude.{◌≡◌, ◌+◌, ◌*◌, ◌≤◌, ◌++◌, IsTrue, length, drop, OnOk, OnErr, IfErr};
    ghost use Rattle.columnar.specs.ColumnLaws.{counted_columns, storable_columns};
    ghost use Rattle.columnar.specs.Faults.{verdict};
    ghost use Rattle.columnar.specs.Format.{Fits, bytes_held, first, moved, representable};
    ghost use Rattle.columnar.specs.Store.{slices_in};

    ghost storable = { Prim.search storable_columns depth 64 fits 10000 };

    ghost counted = { λ c. Prim.search counted_columns depth 64 fits 10000 };

    fn slice_count() -> usize
        requires { IsTrue (representable ⟦<CellView<'a> as Column>⟧.format) }
        ensures { result ≡ ⟦<CellView<'a> as Column>⟧.format.count }
    {
        PartViews::slice_count()
    }

    fn element_sizes(sizes: &mut Vec<usize>) -> Result<(), GrowError>
        requires { IsTrue (representable ⟦<CellView<'a> as Column>⟧.format) }
        ensures ok { OnOk result (sizes.new.items ≡ sizes.old.items ++ ⟦<CellView<'a> as Column>⟧.format.sizes) }
        ensures err { OnErr result (sizes.new.items ≡ sizes.old.items) }
        ensures memory { IfErr result (λ e. e ≡ GrowError.Memory) }
    {
        PartViews::element_sizes(sizes)
    }

    fn judge_tallied<L>(
        store: &DecodedStore<'_>,
        offset: usize,
        tally: &mut Tally<L>,
    ) -> Result<(), StoreFault>
        requires representable { IsTrue (representable ⟦<CellView<'a> as Column>⟧.format) }
        requires room { offset + ⟦<CellView<'a> as Column>⟧.format.count ≤ length (slices_in store.now) }
        ensures exact { verdict result ≡ first (moved offset (⟦<CellView<'a> as Column>⟧.format.broken (⟦<CellView<'a> as Column>⟧.format.build (drop offset (slices_in store.now))))) }
        ensures turns { tally.new.turns ≤ tally.old.turns + ⟦<CellView<'a> as Column>⟧.format.turns * bytes_held (⟦<CellView<'a> as Column>⟧.format.build (drop offset (slices_in store.now))) }
    {
        PartViews::judge_tallied(store, offset, tally)
    }

    fn rows_in(store: &DecodedStore<'_>, offset: usize) -> usize
        requires representable { IsTrue (representable ⟦<CellView<'a> as Column>⟧.format) }
        requires fits { Fits ⟦<CellView<'a> as Column>⟧.format offset (slices_in store.now) }
        ensures { result ≡ length (⟦<CellView<'a> as Column>⟧.format.rows (⟦<CellView<'a> as Column>⟧.format.build (drop offset (slices_in store.now)))) }
    {
        PartViews::rows_in(store, offset)
    }
}

impl<'a> Check for CellView<'a> {
    fn check_from_tallied<L>(&self, from: usize, tally: &mut Tally<L>) -> Result<(), StoreFault> {
        self.parts.check_from_tallied(from, tally)
    }
}

impl<'a> FromBytes<'a> for CellView<'a> {
    fn from_store(store: &DecodedStore<'a>, offset: &mut usize) -> Self {
        let parts = PartViews::from_store(store, offset);
        Self { parts }
    }
}

impl<'a> AsBytes<'a> for CellView<'a> {
    fn get_byte_slice(&self, index: usize) -> (u64, ByteSlice<'a>) {
        self.parts.get_byte_slice(index)
    }
}

impl Stored for CellContainer {
    ghost use Rattle.columnar.specs.ColumnLaws.{counted_columns, storable_columns};

    ghost storable = { Prim.search storable_columns depth 64 fits 10000 };

    ghost counted = { λ c. Prim.search counted_columns depth 64 fits 10000 };

    fn slice_count() -> usize {
        PartColumns::slice_count()
    }

    fn element_sizes(sizes: &mut Vec<usize>) -> Result<(), GrowError> {
        PartColumns::element_sizes(sizes)
    }

    fn judge_tallied<L>(
        store: &DecodedStore<'_>,
        offset: usize,
        tally: &mut Tally<L>,
    ) -> Result<(), StoreFault> {
        PartColumns::judge_tallied(store, offset, tally)
    }

    fn rows_in(store: &DecodedStore<'_>, offset: usize) -> usize {
        PartColumns::rows_in(store, offset)
    }
}

impl ContainerBytes for CellContainer {
    fn byte_slice(&self, index: usize) -> ByteSlice<'_> {
        self.parts.byte_slice(index)
    }

    fn load(alloc: Global, store: &DecodedStore<'_>, offset: usize) -> Result<Self, GrowError> {
        let parts = PartColumns::load(alloc, store, offset)?;
        Ok(Self { parts })
    }
}

// The earlier form of the columns of the parts
type OldColumns = <PartColumns as Earlier>::Old;

/// A column of values of `Cell` in its earlier form.
#[derive(Drop)]
pub struct CellOld {
    /// The column of their parts.
    pub parts: OldColumns,
}

impl Column for CellOld {
    ghost format = { ⟦<OldColumns as Column>⟧.format };

    ghost content = { λ c. ⟦<OldColumns as Column>⟧.content c.parts };

    ghost room = { λ c. ⟦<OldColumns as Column>⟧.room c.parts };
}

impl Stored for CellOld {
    ghost use Rattle.columnar.specs.ColumnLaws.{counted_columns, storable_columns};

    ghost storable = { Prim.search storable_columns depth 64 fits 10000 };

    ghost counted = { λ c. Prim.search counted_columns depth 64 fits 10000 };

    fn slice_count() -> usize {
        OldColumns::slice_count()
    }

    fn element_sizes(sizes: &mut Vec<usize>) -> Result<(), GrowError> {
        OldColumns::element_sizes(sizes)
    }

    fn judge_tallied<L>(
        store: &DecodedStore<'_>,
        offset: usize,
        tally: &mut Tally<L>,
    ) -> Result<(), StoreFault> {
        OldColumns::judge_tallied(store, offset, tally)
    }

    fn rows_in(store: &DecodedStore<'_>, offset: usize) -> usize {
        OldColumns::rows_in(store, offset)
    }
}

impl ContainerBytes for CellOld {
    fn byte_slice(&self, index: usize) -> ByteSlice<'_> {
        self.parts.byte_slice(index)
    }

    fn load(alloc: Global, store: &DecodedStore<'_>, offset: usize) -> Result<Self, GrowError> {
        let parts = OldColumns::load(alloc, store, offset)?;
        Ok(Self { parts })
    }
}

impl Earlier for CellContainer {
    ghost use Rattle.columnar.specs.ColumnLaws.{earlier_columns};

    type Old = CellOld;

    ghost earlier = { Prim.search earlier_columns depth 64 fits 10000 };

    fn from_old(alloc: Global, old: Self::Old) -> Result<Self, GrowError> {
        let parts = PartColumns::from_old(alloc, old.parts)?;
        Ok(Self { parts })
    }
}

impl SliceNames for CellContainer {
    ghost names_at = { ⟦<OwnRows<PartColumns, Cell> as SliceNames>⟧.names_at };

    fn push_names(alloc: Global, path: &str, names: &mut Vec<String>) -> Result<(), GrowError> {
        <OwnRows<PartColumns, Cell>>::push_names(alloc, path, names)
    }
}

impl<T: PushParts<PartColumns, Cell> + Drop> Push<T> for CellContainer {
    fn push(&mut self, item: T) -> Result<(), GrowError> {
        self.push_ref(&item)
    }
}

impl<T: PushParts<PartColumns, Cell>> PushRef<T> for CellContainer {
    fn push_ref(&mut self, item: &T) -> Result<(), GrowError> {
        item.push_parts(&mut self.parts)
    }
}

impl<T: SameParts<PartColumns, Cell>> SameAs<T> for CellContainer {
    fn same(&self, at: usize, item: &T) -> bool {
        item.same_parts(&self.parts, at)
    }
}

impl<R: Item> SetRow<OwnRow<R, Cell>> for CellContainer
where
    PartColumns: SetRow<R>,
{
    ghost fits = { λ r item. ⟦<PartColumns as SetRow<R>>⟧.fits r item.parts };

    fn may_set(&self, index: usize, item: &OwnRow<R, Cell>) -> bool {
        self.parts.may_set(index, &item.parts)
    }

    fn set_row(&mut self, index: usize, item: OwnRow<R, Cell>) {
        self.parts.set_row(index, item.parts);
    }
}

impl<A, T: Item> SetItem<A, T> for CellContainer
where
    PartColumns: SetItem<A, T>,
{
    ghost fits = { ⟦<PartColumns as SetItem<A, T>>⟧.fits };

    ghost put = { ⟦<PartColumns as SetItem<A, T>>⟧.put };

    fn may_set_item(&self, index: usize, at: A, item: &T) -> bool {
        self.parts.may_set_item(index, at, item)
    }

    fn set_item(&mut self, index: usize, at: A, item: T) {
        self.parts.set_item(index, at, item);
    }
}

impl<'a> IndexMut<'a> for CellContainer {
    ghost use Rattle.std.specs.Prelude.{◌≡◌};

    type IndexMut = RowMut<'a, CellContainer>;

    ghost lent = { λ s i r. (r.column.ghost_name ≡ s.ghost_name) × ((r.column.now ≡ s.now) × (r.index ≡ i)) };

    fn get_mut(&'a mut self, index: usize) -> Self::IndexMut {
        RowMut::new(self, index)
    }

    fn last_mut(&'a mut self) -> Option<Self::IndexMut> {
        let count = self.len();
        if count == 0 {
            None
        } else {
            Some(RowMut::new(self, count - 1))
        }
    }
}

/// What stands for a value of `Cell` in a column.
#[derive(Clone, Copy, Debug)]
pub struct CellReference<A, B, C> {
    pub at: A,
    pub text: B,
    pub style: C,
}

impl Item for Cell {
    ghost meaning = { λ e. ⟦<Parts as Item>⟧.meaning (e.at, e.text, e.style) };

    ghost valid = { λ e. ⟦<Parts as Item>⟧.valid (e.at, e.text, e.style) };

    ghost unbuffered = { ⟦<Parts as Item>⟧.unbuffered };
}

impl<A: Item, B: Item, C: Item> Item for CellReference<A, B, C> {
    ghost meaning = { λ e. ⟦<(A, B, C) as Item>⟧.meaning (e.at, e.text, e.style) };

    ghost valid = { λ e. ⟦<(A, B, C) as Item>⟧.valid (e.at, e.text, e.style) };

    ghost unbuffered = { ⟦<(A, B, C) as Item>⟧.unbuffered };
}

impl<A: Item, B: Item, C: Item> MakeRow<(A, B, C)> for Cell {
    type Row = CellReference<A, B, C>;

    fn make_row(row: (A, B, C)) -> Self::Row {
        CellReference {
            at: row.0,
            text: row.1,
            style: row.2,
        }
    }
}

impl PushParts<PartColumns, Cell> for Cell {
    fn push_parts(&self, parts: &mut PartColumns) -> Result<(), GrowError> {
        parts.push((&self.at, &self.text, &self.style))
    }
}

impl<A: Copy + Item, B: Copy + Item, C: Copy + Item, P: Push<(A, B, C)>> PushParts<P, Cell>
    for CellReference<A, B, C> {
    fn push_parts(&self, parts: &mut P) -> Result<(), GrowError> {
        parts.push((self.at, self.text, self.style))
    }
}

impl PartNames for Cell {
    ghost use Rattle.std.specs.Prelude.{[], ◌∷◌, codes};
    ghost use Rattle.columnar.specs.Names.{name_at};

    ghost name_of = { name_at (codes "at" ∷ codes "text" ∷ codes "style" ∷ []) };

    fn part_name(index: usize) -> &'static str {
        name_in(&["at", "text", "style"], index)
    }
}

impl Columnar for Cell {
    ghost unfit = { ⟦<Parts as Columnar>⟧.unfit };

    type Container = CellContainer;
}

impl<R: Item> FromRow<OwnRow<R, Cell>> for Cell
where
    Parts: FromRow<R>,
{
    fn from_row(alloc: Global, row: OwnRow<R, Cell>) -> Result<Self, OwnError> {
        let parts = Parts::from_row(alloc, row.parts)?;
        Ok(Cell {
            at: parts.0,
            text: parts.1,
            style: parts.2,
        })
    }
}

// The columns of each part in a view
type View0<'x> = <ContainerOf<u64> as Borrow<'x>>::Borrowed;

type View1<'x> = <ContainerOf<String> as Borrow<'x>>::Borrowed;

type View2<'x> = <ContainerOf<Option<u32>> as Borrow<'x>>::Borrowed;

/// The columns of the fields of `Cell` in a view, by name.
pub trait CellColumns<A: Column, B: Column, C: Column>: Column {
    ghost use Rattle.std.specs.Prelude.{◌≡◌};
    ghost use Rattle.columnar.specs.Format.{IsSound};
    ghost use Rattle.columnar.specs.Fields.{rows_of_field, rows_of_last};

    /// Returns the column of `at`.
    ///
    /// # Requires
    /// A well-formed view.
    fn at(self) -> A
        requires { IsSound Self.format (Self.content self) }
        ensures sound { IsSound A.format (A.content result) }
        ensures rows { A.format.rows (A.content result) ≡ rows_of_field 0 (Self.format.rows (Self.content self)) };

    /// Returns the column of `text`.
    ///
    /// # Requires
    /// A well-formed view.
    fn text(self) -> B
        requires { IsSound Self.format (Self.content self) }
        ensures sound { IsSound B.format (B.content result) }
        ensures rows { B.format.rows (B.content result) ≡ rows_of_field 1 (Self.format.rows (Self.content self)) };

    /// Returns the column of `style`.
    ///
    /// # Requires
    /// A well-formed view.
    fn style(self) -> C
        requires { IsSound Self.format (Self.content self) }
        ensures sound { IsSound C.format (C.content result) }
        ensures rows { C.format.rows (C.content result) ≡ rows_of_last 2 (Self.format.rows (Self.content self)) };
}

impl<'x> CellColumns<View0<'x>, View1<'x>, View2<'x>> for CellView<'x> {
    fn at(self) -> View0<'x> {
        columnar::own::fields_of_three(self.parts).0
    }

    fn text(self) -> View1<'x> {
        columnar::own::fields_of_three(self.parts).1
    }

    fn style(self) -> View2<'x> {
        columnar::own::fields_of_three(self.parts).2
    }
}

impl CellContainer {
    ghost use Rattle.std.specs.Prelude.{length, ◌<◌};
    ghost use Rattle.columnar.specs.Format.{IsSound};
    ghost use Rattle.columnar.specs.FieldWrites.{WroteField, field_at, last_at};

    /// Writes `at` of row `index`. Allocates nothing.
    ///
    /// # Requires
    /// The column is well-formed and has such a row, and `value` is valid and may replace what is there.
    pub fn set_at<T: Item>(&mut self, index: usize, value: T)
    where
        ContainerOf<u64>: SetRow<T>,
        requires sound { IsSound ⟦<CellContainer as Column>⟧.format (⟦<CellContainer as Column>⟧.content self.old) }
        requires in_range { index < length (⟦<CellContainer as Column>⟧.format.rows (⟦<CellContainer as Column>⟧.content self.old)) }
        requires valid { T.valid value }
        requires fits { ⟦<ContainerOf<u64> as SetRow<T>>⟧.fits (field_at ⟦<CellContainer as Column>⟧.format (⟦<CellContainer as Column>⟧.content self.old) index 0) value }
        ensures { WroteField ⟦<CellContainer as Column>⟧.format (⟦<CellContainer as Column>⟧.content self.old) (⟦<CellContainer as Column>⟧.content self.new) index 0 2 (T.meaning value) }
    {
        self.parts.set_item(index, columnar::Field::<0>, value);
    }

    /// Writes `text` of row `index`. Allocates nothing.
    ///
    /// # Requires
    /// The column is well-formed and has such a row, and `value` is valid and may replace what is there.
    pub fn set_text<T: Item>(&mut self, index: usize, value: T)
    where
        ContainerOf<String>: SetRow<T>,
        requires sound { IsSound ⟦<CellContainer as Column>⟧.format (⟦<CellContainer as Column>⟧.content self.old) }
        requires in_range { index < length (⟦<CellContainer as Column>⟧.format.rows (⟦<CellContainer as Column>⟧.content self.old)) }
        requires valid { T.valid value }
        requires fits { ⟦<ContainerOf<String> as SetRow<T>>⟧.fits (field_at ⟦<CellContainer as Column>⟧.format (⟦<CellContainer as Column>⟧.content self.old) index 1) value }
        ensures { WroteField ⟦<CellContainer as Column>⟧.format (⟦<CellContainer as Column>⟧.content self.old) (⟦<CellContainer as Column>⟧.content self.new) index 1 1 (T.meaning value) }
    {
        self.parts.set_item(index, columnar::Field::<1>, value);
    }

    /// Writes `style` of row `index`. Allocates nothing.
    ///
    /// # Requires
    /// The column is well-formed and has such a row, and `value` is valid and may replace what is there.
    pub fn set_style<T: Item>(&mut self, index: usize, value: T)
    where
        ContainerOf<Option<u32>>: SetRow<T>,
        requires sound { IsSound ⟦<CellContainer as Column>⟧.format (⟦<CellContainer as Column>⟧.content self.old) }
        requires in_range { index < length (⟦<CellContainer as Column>⟧.format.rows (⟦<CellContainer as Column>⟧.content self.old)) }
        requires valid { T.valid value }
        requires fits { ⟦<ContainerOf<Option<u32>> as SetRow<T>>⟧.fits (last_at ⟦<CellContainer as Column>⟧.format (⟦<CellContainer as Column>⟧.content self.old) index 2) value }
        ensures { WroteField ⟦<CellContainer as Column>⟧.format (⟦<CellContainer as Column>⟧.content self.old) (⟦<CellContainer as Column>⟧.content self.new) index 2 0 (T.meaning value) }
    {
        self.parts.set_item(index, columnar::Field::<2>, value);
    }
}

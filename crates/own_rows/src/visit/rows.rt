//! Rows of `Visit`, as `columnar_derive` writes them.
use super::*;
use columnar::bytes::indexed::DecodedStore;
use columnar::bytes::{ByteSlice, Earlier, Tally};
use columnar::fault::{GrowError, OwnError, StoreFault};
use columnar::names::{PartNames, name_in};
use columnar::{
    AsBytes, Borrow, Check, Clear, Column, Columnar, ContainerBytes, ContainerOf, ExtendFrom,
    FromBytes, FromRow, Index, IndexMut, Item, Len, MakeRow, OwnRow, OwnRows, Push, PushParts,
    PushRef, Reborrow, Reserve, RowMut, SameAs, SameParts, SetItem, SetRow, SliceNames, Storage,
    Stored, Truncate,
};
use std::alloc::{AllocError, Global};

// The fields, in their order
type Parts = (u64, String, Vec<String>, u8, Option<String>);

// Their columns
type PartColumns = ContainerOf<Parts>;

// The columns of the parts in a view
type PartViews<'a> = <PartColumns as Borrow<'a>>::Borrowed;

/// A view of a column of values of `Visit`.
#[derive(Clone, Copy)]
pub struct VisitView<'a> {
    /// The view of the column of their parts.
    pub parts: PartViews<'a>,
}

/// A column of values of `Visit`.
#[derive(Drop)]
pub struct VisitContainer {
    /// The column of their parts.
    pub parts: PartColumns,
}

impl Column for VisitContainer {
    ghost format = { ⟦<PartColumns as Column>⟧.format };

    ghost content = { λ c. ⟦<PartColumns as Column>⟧.content c.parts };

    ghost room = { λ c. ⟦<PartColumns as Column>⟧.room c.parts };
}

impl Len for VisitContainer {
    fn len(&self) -> usize {
        self.parts.len()
    }
}

impl Clear for VisitContainer {
    fn clear(&mut self) {
        self.parts.clear();
    }
}

impl Truncate for VisitContainer {
    ghost use Rattle.columnar.specs.ColumnLaws.{lawful_columns};

    ghost lawful = { Prim.search lawful_columns depth 64 fits 10000 };

    fn truncate(&mut self, n: usize) {
        self.parts.truncate(n);
    }
}

impl Storage for VisitContainer {
    fn empty(alloc: Global) -> Self {
        let parts = PartColumns::empty(alloc);
        Self { parts }
    }

    fn duplicate(&self, alloc: Global) -> Result<Self, GrowError> {
        let parts = self.parts.duplicate(alloc)?;
        Ok(Self { parts })
    }
}

impl Clone for VisitContainer {
    fn clone(&self) -> Result<Self, AllocError> {
        let parts = self.parts.clone()?;
        Ok(Self { parts })
    }
}

impl Reserve for VisitContainer {
    type Room = <PartColumns as Reserve>::Room;

    ghost reserves = { ⟦<PartColumns as Reserve>⟧.reserves };

    ghost covers = { ⟦<PartColumns as Reserve>⟧.covers };

    fn no_room() -> Self::Room {
        PartColumns::no_room()
    }

    fn reserve_room(&mut self, room: Self::Room) -> Result<(), GrowError> {
        self.parts.reserve_room(room)
    }
}

impl<'a> ExtendFrom<VisitView<'a>> for VisitContainer {
    fn add_room(room: Self::Room, view: VisitView<'a>) -> Self::Room {
        PartColumns::add_room(room, view.parts)
    }

    fn extend_from_self(
        &mut self,
        view: VisitView<'a>,
        range: std::ops::Range<usize>,
    ) -> Result<(), GrowError> {
        self.parts.extend_from_self(view.parts, range)
    }
}

impl<'a> Borrow<'a> for VisitContainer {
    ghost use Rattle.std.specs.Prelude.{refl};

    type Ref = OwnRow<<PartColumns as Borrow<'a>>::Ref, Visit>;

    type Borrowed = VisitView<'a>;

    type Parts = <PartColumns as Borrow<'a>>::Parts;

    ghost same_format = { refl };

    fn borrow(&'a self) -> Self::Borrowed {
        let parts = self.parts.borrow();
        VisitView { parts }
    }
}

impl<'a> Column for VisitView<'a> {
    ghost format = { ⟦<PartViews<'a> as Column>⟧.format };

    ghost content = { λ c. ⟦<PartViews<'a> as Column>⟧.content c.parts };

    ghost room = { λ c. ⟦<PartViews<'a> as Column>⟧.room c.parts };
}

impl<'a> Len for VisitView<'a> {
    fn len(&self) -> usize {
        self.parts.len()
    }
}

impl<'a> Index for VisitView<'a> {
    type Ref = OwnRow<<PartViews<'a> as Index>::Ref, Visit>;

    fn get(&self, index: usize) -> Self::Ref {
        OwnRow::new(self.parts.get(index))
    }
}

impl<'a: 'b, 'b> Reborrow<'b> for VisitView<'a> {
    ghost use Rattle.std.specs.Prelude.{refl};

    type Short = VisitView<'b>;

    ghost same_short = { refl };

    fn reborrow(self) -> Self::Short {
        let parts = self.parts.reborrow();
        VisitView { parts }
    }
}

impl<'a> Stored for VisitView<'a> {
    ghost use Rattle.std.specs.Prelude.{◌≡◌, ◌+◌, ◌*◌, ◌≤◌, ◌++◌, IsTrue, length, drop, OnOk, OnErr, IfErr};
    ghost use Rattle.columnar.specs.ColumnLaws.{counted_columns, storable_columns};
    ghost use Rattle.columnar.specs.Faults.{verdict};
    ghost use Rattle.columnar.specs.Format.{Fits, bytes_held, first, moved, representable};
    ghost use Rattle.columnar.specs.Store.{slices_in};

    ghost storable = { Prim.search storable_columns depth 64 fits 10000 };

    ghost counted = { λ c. Prim.search counted_columns depth 64 fits 10000 };

    fn slice_count() -> usize
        requires { IsTrue (representable ⟦<VisitView<'a> as Column>⟧.format) }
        ensures { result ≡ ⟦<VisitView<'a> as Column>⟧.format.count }
    {
        PartViews::slice_count()
    }

    fn element_sizes(sizes: &mut Vec<usize>) -> Result<(), GrowError>
        requires { IsTrue (representable ⟦<VisitView<'a> as Column>⟧.format) }
        ensures ok { OnOk result (sizes.new.items ≡ sizes.old.items ++ ⟦<VisitView<'a> as Column>⟧.format.sizes) }
        ensures err { OnErr result (sizes.new.items ≡ sizes.old.items) }
        ensures memory { IfErr result (λ e. e ≡ GrowError.Memory) }
    {
        PartViews::element_sizes(sizes)
    }

    fn judge_tallied<L>(
        store: &DecodedStore<'_>,
        offset: usize,
        tally: &mut Tally<L>,
    ) -> Result<(), StoreFault>
        requires representable { IsTrue (representable ⟦<VisitView<'a> as Column>⟧.format) }
        requires room { offset + ⟦<VisitView<'a> as Column>⟧.format.count ≤ length (slices_in store.now) }
        ensures exact { verdict result ≡ first (moved offset (⟦<VisitView<'a> as Column>⟧.format.broken (⟦<VisitView<'a> as Column>⟧.format.build (drop offset (slices_in store.now))))) }
        ensures turns { tally.new.turns ≤ tally.old.turns + ⟦<VisitView<'a> as Column>⟧.format.turns * bytes_held (⟦<VisitView<'a> as Column>⟧.format.build (drop offset (slices_in store.now))) }
    {
        PartViews::judge_tallied(store, offset, tally)
    }

    fn rows_in(store: &DecodedStore<'_>, offset: usize) -> usize
        requires representable { IsTrue (representable ⟦<VisitView<'a> as Column>⟧.format) }
        requires fits { Fits ⟦<VisitView<'a> as Column>⟧.format offset (slices_in store.now) }
        ensures { result ≡ length (⟦<VisitView<'a> as Column>⟧.format.rows (⟦<VisitView<'a> as Column>⟧.format.build (drop offset (slices_in store.now)))) }
    {
        PartViews::rows_in(store, offset)
    }
}

impl<'a> Check for VisitView<'a> {
    fn check_from_tallied<L>(&self, from: usize, tally: &mut Tally<L>) -> Result<(), StoreFault> {
        self.parts.check_from_tallied(from, tally)
    }
}

impl<'a> FromBytes<'a> for VisitView<'a> {
    fn from_store(store: &DecodedStore<'a>, offset: &mut usize) -> Self {
        let parts = PartViews::from_store(store, offset);
        Self { parts }
    }
}

impl<'a> AsBytes<'a> for VisitView<'a> {
    fn get_byte_slice(&self, index: usize) -> (u64, ByteSlice<'a>) {
        self.parts.get_byte_slice(index)
    }
}

impl Stored for VisitContainer {
    ghost use Rattle.columnar.specs.ColumnLaws.{counted_columns, storable_columns};

    ghost storable = { Prim.search storable_columns depth 64 fits 10000 };

    ghost counted = { λ c. Prim.search counted_columns depth 64 fits 10000 };

    fn slice_count() -> usize {
        PartColumns::slice_count()
    }

    fn element_sizes(sizes: &mut Vec<usize>) -> Result<(), GrowError> {
        PartColumns::element_sizes(sizes)
    }

    fn judge_tallied<L>(
        store: &DecodedStore<'_>,
        offset: usize,
        tally: &mut Tally<L>,
    ) -> Result<(), StoreFault> {
        PartColumns::judge_tallied(store, offset, tally)
    }

    fn rows_in(store: &DecodedStore<'_>, offset: usize) -> usize {
        PartColumns::rows_in(store, offset)
    }
}

impl ContainerBytes for VisitContainer {
    fn byte_slice(&self, index: usize) -> ByteSlice<'_> {
        self.parts.byte_slice(index)
    }

    fn load(alloc: Global, store: &DecodedStore<'_>, offset: usize) -> Result<Self, GrowError> {
        let parts = PartColumns::load(alloc, store, offset)?;
        Ok(Self { parts })
    }
}

// The earlier form of the columns of the parts
type OldColumns = <PartColumns as Earlier>::Old;

/// A column of values of `Visit` in its earlier form.
#[derive(Drop)]
pub struct VisitOld {
    /// The column of their parts.
    pub parts: OldColumns,
}

impl Column for VisitOld {
    ghost format = { ⟦<OldColumns as Column>⟧.format };

    ghost content = { λ c. ⟦<OldColumns as Column>⟧.content c.parts };

    ghost room = { λ c. ⟦<OldColumns as Column>⟧.room c.parts };
}

impl Stored for VisitOld {
    ghost use Rattle.columnar.specs.ColumnLaws.{counted_columns, storable_columns};

    ghost storable = { Prim.search storable_columns depth 64 fits 10000 };

    ghost counted = { λ c. Prim.search counted_columns depth 64 fits 10000 };

    fn slice_count() -> usize {
        OldColumns::slice_count()
    }

    fn element_sizes(sizes: &mut Vec<usize>) -> Result<(), GrowError> {
        OldColumns::element_sizes(sizes)
    }

    fn judge_tallied<L>(
        store: &DecodedStore<'_>,
        offset: usize,
        tally: &mut Tally<L>,
    ) -> Result<(), StoreFault> {
        OldColumns::judge_tallied(store, offset, tally)
    }

    fn rows_in(store: &DecodedStore<'_>, offset: usize) -> usize {
        OldColumns::rows_in(store, offset)
    }
}

impl ContainerBytes for VisitOld {
    fn byte_slice(&self, index: usize) -> ByteSlice<'_> {
        self.parts.byte_slice(index)
    }

    fn load(alloc: Global, store: &DecodedStore<'_>, offset: usize) -> Result<Self, GrowError> {
        let parts = OldColumns::load(alloc, store, offset)?;
        Ok(Self { parts })
    }
}

impl Earlier for VisitContainer {
    ghost use Rattle.columnar.specs.ColumnLaws.{earlier_columns};

    type Old = VisitOld;

    ghost earlier = { Prim.search earlier_columns depth 64 fits 10000 };

    fn from_old(alloc: Global, old: Self::Old) -> Result<Self, GrowError> {
        let parts = PartColumns::from_old(alloc, old.parts)?;
        Ok(Self { parts })
    }
}

impl SliceNames for VisitContainer {
    ghost names_at = { ⟦<OwnRows<PartColumns, Visit> as SliceNames>⟧.names_at };

    fn push_names(alloc: Global, path: &str, names: &mut Vec<String>) -> Result<(), GrowError> {
        <OwnRows<PartColumns, Visit>>::push_names(alloc, path, names)
    }
}

impl<T: PushParts<PartColumns, Visit> + Drop> Push<T> for VisitContainer {
    fn push(&mut self, item: T) -> Result<(), GrowError> {
        self.push_ref(&item)
    }
}

impl<T: PushParts<PartColumns, Visit>> PushRef<T> for VisitContainer {
    fn push_ref(&mut self, item: &T) -> Result<(), GrowError> {
        item.push_parts(&mut self.parts)
    }
}

impl<T: SameParts<PartColumns, Visit>> SameAs<T> for VisitContainer {
    fn same(&self, at: usize, item: &T) -> bool {
        item.same_parts(&self.parts, at)
    }
}

impl<R: Item> SetRow<OwnRow<R, Visit>> for VisitContainer
where
    PartColumns: SetRow<R>,
{
    ghost fits = { λ r item. ⟦<PartColumns as SetRow<R>>⟧.fits r item.parts };

    fn may_set(&self, index: usize, item: &OwnRow<R, Visit>) -> bool {
        self.parts.may_set(index, &item.parts)
    }

    fn set_row(&mut self, index: usize, item: OwnRow<R, Visit>) {
        self.parts.set_row(index, item.parts);
    }
}

impl<A, T: Item> SetItem<A, T> for VisitContainer
where
    PartColumns: SetItem<A, T>,
{
    ghost fits = { ⟦<PartColumns as SetItem<A, T>>⟧.fits };

    ghost put = { ⟦<PartColumns as SetItem<A, T>>⟧.put };

    fn may_set_item(&self, index: usize, at: A, item: &T) -> bool {
        self.parts.may_set_item(index, at, item)
    }

    fn set_item(&mut self, index: usize, at: A, item: T) {
        self.parts.set_item(index, at, item);
    }
}

impl<'a> IndexMut<'a> for VisitContainer {
    ghost use Rattle.std.specs.Prelude.{◌≡◌};

    type IndexMut = RowMut<'a, VisitContainer>;

    ghost lent = { λ s i r. (r.column.ghost_name ≡ s.ghost_name) × ((r.column.now ≡ s.now) × (r.index ≡ i)) };

    fn get_mut(&'a mut self, index: usize) -> Self::IndexMut {
        RowMut::new(self, index)
    }

    fn last_mut(&'a mut self) -> Option<Self::IndexMut> {
        let count = self.len();
        if count == 0 {
            None
        } else {
            Some(RowMut::new(self, count - 1))
        }
    }
}

/// What stands for a value of `Visit` in a column.
#[derive(Clone, Copy, Debug)]
pub struct VisitReference<A, B, C, D, E> {
    pub time: A,
    pub user: B,
    pub pages: C,
    pub level: D,
    pub note: E,
}

impl Item for Visit {
    ghost meaning = { λ e. ⟦<Parts as Item>⟧.meaning (e.time, e.user, e.pages, e.level, e.note) };

    ghost valid = { λ e. ⟦<Parts as Item>⟧.valid (e.time, e.user, e.pages, e.level, e.note) };

    ghost unbuffered = { ⟦<Parts as Item>⟧.unbuffered };
}

impl<A: Item, B: Item, C: Item, D: Item, E: Item> Item for VisitReference<A, B, C, D, E> {
    ghost meaning = { λ e. ⟦<(A, B, C, D, E) as Item>⟧.meaning (e.time, e.user, e.pages, e.level, e.note) };

    ghost valid = { λ e. ⟦<(A, B, C, D, E) as Item>⟧.valid (e.time, e.user, e.pages, e.level, e.note) };

    ghost unbuffered = { ⟦<(A, B, C, D, E) as Item>⟧.unbuffered };
}

impl<A: Item, B: Item, C: Item, D: Item, E: Item> MakeRow<(A, B, C, D, E)> for Visit {
    type Row = VisitReference<A, B, C, D, E>;

    fn make_row(row: (A, B, C, D, E)) -> Self::Row {
        VisitReference {
            time: row.0,
            user: row.1,
            pages: row.2,
            level: row.3,
            note: row.4,
        }
    }
}

impl PushParts<PartColumns, Visit> for Visit {
    fn push_parts(&self, parts: &mut PartColumns) -> Result<(), GrowError> {
        parts.push((&self.time, &self.user, &self.pages, &self.level, &self.note))
    }
}

impl<
    A: Copy + Item,
    B: Copy + Item,
    C: Copy + Item,
    D: Copy + Item,
    E: Copy + Item,
    P: Push<(A, B, C, D, E)>,
> PushParts<P, Visit> for VisitReference<A, B, C, D, E> {
    fn push_parts(&self, parts: &mut P) -> Result<(), GrowError> {
        parts.push((self.time, self.user, self.pages, self.level, self.note))
    }
}

impl PartNames for Visit {
    ghost use Rattle.std.specs.Prelude.{[], ◌∷◌, codes};
    ghost use Rattle.columnar.specs.Names.{name_at};

    ghost name_of = { name_at (codes "time" ∷ codes "user" ∷ codes "pages" ∷ codes "level" ∷ codes "note" ∷ []) };

    fn part_name(index: usize) -> &'static str {
        name_in(&["time", "user", "pages", "level", "note"], index)
    }
}

impl Columnar for Visit {
    ghost unfit = { ⟦<Parts as Columnar>⟧.unfit };

    type Container = VisitContainer;
}

impl<R: Item> FromRow<OwnRow<R, Visit>> for Visit
where
    Parts: FromRow<R>,
{
    fn from_row(alloc: Global, row: OwnRow<R, Visit>) -> Result<Self, OwnError> {
        let parts = Parts::from_row(alloc, row.parts)?;
        Ok(Visit {
            time: parts.0,
            user: parts.1,
            pages: parts.2,
            level: parts.3,
            note: parts.4,
        })
    }
}

// The columns of each part in a view
type View0<'x> = <ContainerOf<u64> as Borrow<'x>>::Borrowed;

type View1<'x> = <ContainerOf<String> as Borrow<'x>>::Borrowed;

type View2<'x> = <ContainerOf<Vec<String>> as Borrow<'x>>::Borrowed;

type View3<'x> = <ContainerOf<u8> as Borrow<'x>>::Borrowed;

type View4<'x> = <ContainerOf<Option<String>> as Borrow<'x>>::Borrowed;

/// The columns of the fields of `Visit` in a view, by name.
pub trait VisitColumns<A: Column, B: Column, C: Column, D: Column, E: Column>: Column {
    ghost use Rattle.std.specs.Prelude.{◌≡◌};
    ghost use Rattle.columnar.specs.Format.{IsSound};
    ghost use Rattle.columnar.specs.Fields.{rows_of_field, rows_of_last};

    /// Returns the column of `time`.
    ///
    /// # Requires
    /// A well-formed view.
    fn time(self) -> A
        requires { IsSound Self.format (Self.content self) }
        ensures sound { IsSound A.format (A.content result) }
        ensures rows { A.format.rows (A.content result) ≡ rows_of_field 0 (Self.format.rows (Self.content self)) };

    /// Returns the column of `user`.
    ///
    /// # Requires
    /// A well-formed view.
    fn user(self) -> B
        requires { IsSound Self.format (Self.content self) }
        ensures sound { IsSound B.format (B.content result) }
        ensures rows { B.format.rows (B.content result) ≡ rows_of_field 1 (Self.format.rows (Self.content self)) };

    /// Returns the column of `pages`.
    ///
    /// # Requires
    /// A well-formed view.
    fn pages(self) -> C
        requires { IsSound Self.format (Self.content self) }
        ensures sound { IsSound C.format (C.content result) }
        ensures rows { C.format.rows (C.content result) ≡ rows_of_field 2 (Self.format.rows (Self.content self)) };

    /// Returns the column of `level`.
    ///
    /// # Requires
    /// A well-formed view.
    fn level(self) -> D
        requires { IsSound Self.format (Self.content self) }
        ensures sound { IsSound D.format (D.content result) }
        ensures rows { D.format.rows (D.content result) ≡ rows_of_field 3 (Self.format.rows (Self.content self)) };

    /// Returns the column of `note`.
    ///
    /// # Requires
    /// A well-formed view.
    fn note(self) -> E
        requires { IsSound Self.format (Self.content self) }
        ensures sound { IsSound E.format (E.content result) }
        ensures rows { E.format.rows (E.content result) ≡ rows_of_last 4 (Self.format.rows (Self.content self)) };
}

impl<'x> VisitColumns<View0<'x>, View1<'x>, View2<'x>, View3<'x>, View4<'x>> for VisitView<'x> {
    fn time(self) -> View0<'x> {
        columnar::own::fields_of_five(self.parts).0
    }

    fn user(self) -> View1<'x> {
        columnar::own::fields_of_five(self.parts).1
    }

    fn pages(self) -> View2<'x> {
        columnar::own::fields_of_five(self.parts).2
    }

    fn level(self) -> View3<'x> {
        columnar::own::fields_of_five(self.parts).3
    }

    fn note(self) -> View4<'x> {
        columnar::own::fields_of_five(self.parts).4
    }
}

impl VisitContainer {
    ghost use Rattle.std.specs.Prelude.{length, ◌<◌};
    ghost use Rattle.columnar.specs.Format.{IsSound};
    ghost use Rattle.columnar.specs.FieldWrites.{WroteField, field_at, last_at};

    /// Writes `time` of row `index`. Allocates nothing.
    ///
    /// # Requires
    /// The column is well-formed and has such a row, and `value` is valid and may replace what is there.
    pub fn set_time<T: Item>(&mut self, index: usize, value: T)
    where
        ContainerOf<u64>: SetRow<T>,
        requires sound { IsSound ⟦<VisitContainer as Column>⟧.format (⟦<VisitContainer as Column>⟧.content self.old) }
        requires in_range { index < length (⟦<VisitContainer as Column>⟧.format.rows (⟦<VisitContainer as Column>⟧.content self.old)) }
        requires valid { T.valid value }
        requires fits { ⟦<ContainerOf<u64> as SetRow<T>>⟧.fits (field_at ⟦<VisitContainer as Column>⟧.format (⟦<VisitContainer as Column>⟧.content self.old) index 0) value }
        ensures { WroteField ⟦<VisitContainer as Column>⟧.format (⟦<VisitContainer as Column>⟧.content self.old) (⟦<VisitContainer as Column>⟧.content self.new) index 0 4 (T.meaning value) }
    {
        self.parts.set_item(index, columnar::Field::<0>, value);
    }

    /// Writes `user` of row `index`. Allocates nothing.
    ///
    /// # Requires
    /// The column is well-formed and has such a row, and `value` is valid and may replace what is there.
    pub fn set_user<T: Item>(&mut self, index: usize, value: T)
    where
        ContainerOf<String>: SetRow<T>,
        requires sound { IsSound ⟦<VisitContainer as Column>⟧.format (⟦<VisitContainer as Column>⟧.content self.old) }
        requires in_range { index < length (⟦<VisitContainer as Column>⟧.format.rows (⟦<VisitContainer as Column>⟧.content self.old)) }
        requires valid { T.valid value }
        requires fits { ⟦<ContainerOf<String> as SetRow<T>>⟧.fits (field_at ⟦<VisitContainer as Column>⟧.format (⟦<VisitContainer as Column>⟧.content self.old) index 1) value }
        ensures { WroteField ⟦<VisitContainer as Column>⟧.format (⟦<VisitContainer as Column>⟧.content self.old) (⟦<VisitContainer as Column>⟧.content self.new) index 1 3 (T.meaning value) }
    {
        self.parts.set_item(index, columnar::Field::<1>, value);
    }

    /// Writes `pages` of row `index`. Allocates nothing.
    ///
    /// # Requires
    /// The column is well-formed and has such a row, and `value` is valid and may replace what is there.
    pub fn set_pages<T: Item>(&mut self, index: usize, value: T)
    where
        ContainerOf<Vec<String>>: SetRow<T>,
        requires sound { IsSound ⟦<VisitContainer as Column>⟧.format (⟦<VisitContainer as Column>⟧.content self.old) }
        requires in_range { index < length (⟦<VisitContainer as Column>⟧.format.rows (⟦<VisitContainer as Column>⟧.content self.old)) }
        requires valid { T.valid value }
        requires fits { ⟦<ContainerOf<Vec<String>> as SetRow<T>>⟧.fits (field_at ⟦<VisitContainer as Column>⟧.format (⟦<VisitContainer as Column>⟧.content self.old) index 2) value }
        ensures { WroteField ⟦<VisitContainer as Column>⟧.format (⟦<VisitContainer as Column>⟧.content self.old) (⟦<VisitContainer as Column>⟧.content self.new) index 2 2 (T.meaning value) }
    {
        self.parts.set_item(index, columnar::Field::<2>, value);
    }

    /// Writes `level` of row `index`. Allocates nothing.
    ///
    /// # Requires
    /// The column is well-formed and has such a row, and `value` is valid and may replace what is there.
    pub fn set_level<T: Item>(&mut self, index: usize, value: T)
    where
        ContainerOf<u8>: SetRow<T>,
        requires sound { IsSound ⟦<VisitContainer as Column>⟧.format (⟦<VisitContainer as Column>⟧.content self.old) }
        requires in_range { index < length (⟦<VisitContainer as Column>⟧.format.rows (⟦<VisitContainer as Column>⟧.content self.old)) }
        requires valid { T.valid value }
        requires fits { ⟦<ContainerOf<u8> as SetRow<T>>⟧.fits (field_at ⟦<VisitContainer as Column>⟧.format (⟦<VisitContainer as Column>⟧.content self.old) index 3) value }
        ensures { WroteField ⟦<VisitContainer as Column>⟧.format (⟦<VisitContainer as Column>⟧.content self.old) (⟦<VisitContainer as Column>⟧.content self.new) index 3 1 (T.meaning value) }
    {
        self.parts.set_item(index, columnar::Field::<3>, value);
    }

    /// Writes `note` of row `index`. Allocates nothing.
    ///
    /// # Requires
    /// The column is well-formed and has such a row, and `value` is valid and may replace what is there.
    pub fn set_note<T: Item>(&mut self, index: usize, value: T)
    where
        ContainerOf<Option<String>>: SetRow<T>,
        requires sound { IsSound ⟦<VisitContainer as Column>⟧.format (⟦<VisitContainer as Column>⟧.content self.old) }
        requires in_range { index < length (⟦<VisitContainer as Column>⟧.format.rows (⟦<VisitContainer as Column>⟧.content self.old)) }
        requires valid { T.valid value }
        requires fits { ⟦<ContainerOf<Option<String>> as SetRow<T>>⟧.fits (last_at ⟦<VisitContainer as Column>⟧.format (⟦<VisitContainer as Column>⟧.content self.old) index 4) value }
        ensures { WroteField ⟦<VisitContainer as Column>⟧.format (⟦<VisitContainer as Column>⟧.content self.old) (⟦<VisitContainer as Column>⟧.content self.new) index 4 0 (T.meaning value) }
    {
        self.parts.set_item(index, columnar::Field::<4>, value);
    }
}

//! Rows of `Event`, as `columnar_derive` writes them.
use super::*;
use columnar::bytes::indexed::DecodedStore;
use columnar::bytes::{ByteSlice, Earlier, Tally};
use columnar::fault::{GrowError, OwnError, StoreFault};
use columnar::names::{PartNames, name_in};
use columnar::sums::variants::{Last, Nth, Variants, values_at};
use columnar::{
    AsBytes, Borrow, Check, Clear, Column, Columnar, ContainerBytes, ContainerOf, ExtendFrom,
    FromBytes, FromRow, Index, IndexMut, Item, Len, LendRow, MakeRow, OwnRow, OwnRows, Push,
    PushParts, PushRef, Reborrow, Reserve, RowMut, SameAs, SameParts, SetItem, SetRow, SliceNames,
    Storage, Stored, Truncate,
};
use std::alloc::{AllocError, Global};

// The columns of the values, of each variant and of those after it
type ColumnsFromStop = (ContainerOf<u32>,);

type ColumnsFromRest = (ContainerOf<()>, ColumnsFromStop);

type ColumnsFromStart = (ContainerOf<u64>, ColumnsFromRest);

type Parts = Variants<ColumnsFromStart>;

// The columns of the parts in a view
type PartViews<'a> = <Parts as Borrow<'a>>::Borrowed;

/// A view of a column of values of `Event`.
#[derive(Clone, Copy)]
pub struct EventView<'a> {
    /// The view of the column of their parts.
    pub parts: PartViews<'a>,
}

/// A column of values of `Event`.
#[derive(Drop)]
pub struct EventContainer {
    /// The column of their parts.
    pub parts: Parts,
}

impl Column for EventContainer {
    ghost format = { ⟦<Parts as Column>⟧.format };

    ghost content = { λ c. ⟦<Parts as Column>⟧.content c.parts };

    ghost room = { λ c. ⟦<Parts as Column>⟧.room c.parts };
}

impl Len for EventContainer {
    fn len(&self) -> usize {
        self.parts.len()
    }
}

impl Clear for EventContainer {
    fn clear(&mut self) {
        self.parts.clear();
    }
}

impl Truncate for EventContainer {
    ghost use Rattle.columnar.specs.ColumnLaws.{lawful_columns};

    ghost lawful = { Prim.search lawful_columns depth 64 fits 10000 };

    fn truncate(&mut self, n: usize) {
        self.parts.truncate(n);
    }
}

impl Storage for EventContainer {
    fn empty(alloc: Global) -> Self {
        let parts = Parts::empty(alloc);
        Self { parts }
    }

    fn duplicate(&self, alloc: Global) -> Result<Self, GrowError> {
        let parts = self.parts.duplicate(alloc)?;
        Ok(Self { parts })
    }
}

impl Clone for EventContainer {
    fn clone(&self) -> Result<Self, AllocError> {
        let parts = self.parts.clone()?;
        Ok(Self { parts })
    }
}

impl Reserve for EventContainer {
    type Room = <Parts as Reserve>::Room;

    ghost reserves = { ⟦<Parts as Reserve>⟧.reserves };

    ghost covers = { ⟦<Parts as Reserve>⟧.covers };

    fn no_room() -> Self::Room {
        Parts::no_room()
    }

    fn reserve_room(&mut self, room: Self::Room) -> Result<(), GrowError> {
        self.parts.reserve_room(room)
    }
}

impl<'a> ExtendFrom<EventView<'a>> for EventContainer {
    fn add_room(room: Self::Room, view: EventView<'a>) -> Self::Room {
        Parts::add_room(room, view.parts)
    }

    fn extend_from_self(
        &mut self,
        view: EventView<'a>,
        range: std::ops::Range<usize>,
    ) -> Result<(), GrowError> {
        self.parts.extend_from_self(view.parts, range)
    }
}

impl<'a> Borrow<'a> for EventContainer {
    ghost use Rattle.std.specs.Prelude.{refl};

    type Ref = OwnRow<<Parts as Borrow<'a>>::Ref, Event>;

    type Borrowed = EventView<'a>;

    type Parts = <Parts as Borrow<'a>>::Parts;

    ghost same_format = { refl };

    fn borrow(&'a self) -> Self::Borrowed {
        let parts = self.parts.borrow();
        EventView { parts }
    }
}

impl<'a> Column for EventView<'a> {
    ghost format = { ⟦<PartViews<'a> as Column>⟧.format };

    ghost content = { λ c. ⟦<PartViews<'a> as Column>⟧.content c.parts };

    ghost room = { λ c. ⟦<PartViews<'a> as Column>⟧.room c.parts };
}

impl<'a> Len for EventView<'a> {
    fn len(&self) -> usize {
        self.parts.len()
    }
}

impl<'a> Index for EventView<'a> {
    type Ref = OwnRow<<PartViews<'a> as Index>::Ref, Event>;

    fn get(&self, index: usize) -> Self::Ref {
        OwnRow::new(self.parts.get(index))
    }
}

impl<'a: 'b, 'b> Reborrow<'b> for EventView<'a> {
    ghost use Rattle.std.specs.Prelude.{refl};

    type Short = EventView<'b>;

    ghost same_short = { refl };

    fn reborrow(self) -> Self::Short {
        let parts = self.parts.reborrow();
        EventView { parts }
    }
}

impl<'a> Stored for EventView<'a> {
    ghost use Rattle.std.specs.Prelude.{◌≡◌, ◌+◌, ◌*◌, ◌≤◌, ◌++◌, IsTrue, length, drop, OnOk, OnErr, IfErr};
    ghost use Rattle.columnar.specs.ColumnLaws.{counted_columns, storable_columns};
    ghost use Rattle.columnar.specs.Faults.{verdict};
    ghost use Rattle.columnar.specs.Format.{Fits, bytes_held, first, moved, representable};
    ghost use Rattle.columnar.specs.Store.{slices_in};

    ghost storable = { Prim.search storable_columns depth 64 fits 10000 };

    ghost counted = { λ c. Prim.search counted_columns depth 64 fits 10000 };

    fn slice_count() -> usize
        requires { IsTrue (representable ⟦<EventView<'a> as Column>⟧.format) }
        ensures { result ≡ ⟦<EventView<'a> as Column>⟧.format.count }
    {
        PartViews::slice_count()
    }

    fn element_sizes(sizes: &mut Vec<usize>) -> Result<(), GrowError>
        requires { IsTrue (representable ⟦<EventView<'a> as Column>⟧.format) }
        ensures ok { OnOk result (sizes.new.items ≡ sizes.old.items ++ ⟦<EventView<'a> as Column>⟧.format.sizes) }
        ensures err { OnErr result (sizes.new.items ≡ sizes.old.items) }
        ensures memory { IfErr result (λ e. e ≡ GrowError.Memory) }
    {
        PartViews::element_sizes(sizes)
    }

    fn judge_tallied<L>(
        store: &DecodedStore<'_>,
        offset: usize,
        tally: &mut Tally<L>,
    ) -> Result<(), StoreFault>
        requires representable { IsTrue (representable ⟦<EventView<'a> as Column>⟧.format) }
        requires room { offset + ⟦<EventView<'a> as Column>⟧.format.count ≤ length (slices_in store.now) }
        ensures exact { verdict result ≡ first (moved offset (⟦<EventView<'a> as Column>⟧.format.broken (⟦<EventView<'a> as Column>⟧.format.build (drop offset (slices_in store.now))))) }
        ensures turns { tally.new.turns ≤ tally.old.turns + ⟦<EventView<'a> as Column>⟧.format.turns * bytes_held (⟦<EventView<'a> as Column>⟧.format.build (drop offset (slices_in store.now))) }
    {
        PartViews::judge_tallied(store, offset, tally)
    }

    fn rows_in(store: &DecodedStore<'_>, offset: usize) -> usize
        requires representable { IsTrue (representable ⟦<EventView<'a> as Column>⟧.format) }
        requires fits { Fits ⟦<EventView<'a> as Column>⟧.format offset (slices_in store.now) }
        ensures { result ≡ length (⟦<EventView<'a> as Column>⟧.format.rows (⟦<EventView<'a> as Column>⟧.format.build (drop offset (slices_in store.now)))) }
    {
        PartViews::rows_in(store, offset)
    }
}

impl<'a> Check for EventView<'a> {
    fn check_from_tallied<L>(&self, from: usize, tally: &mut Tally<L>) -> Result<(), StoreFault> {
        self.parts.check_from_tallied(from, tally)
    }
}

impl<'a> FromBytes<'a> for EventView<'a> {
    fn from_store(store: &DecodedStore<'a>, offset: &mut usize) -> Self {
        let parts = PartViews::from_store(store, offset);
        Self { parts }
    }
}

impl<'a> AsBytes<'a> for EventView<'a> {
    fn get_byte_slice(&self, index: usize) -> (u64, ByteSlice<'a>) {
        self.parts.get_byte_slice(index)
    }
}

impl Stored for EventContainer {
    ghost use Rattle.columnar.specs.ColumnLaws.{counted_columns, storable_columns};

    ghost storable = { Prim.search storable_columns depth 64 fits 10000 };

    ghost counted = { λ c. Prim.search counted_columns depth 64 fits 10000 };

    fn slice_count() -> usize {
        Parts::slice_count()
    }

    fn element_sizes(sizes: &mut Vec<usize>) -> Result<(), GrowError> {
        Parts::element_sizes(sizes)
    }

    fn judge_tallied<L>(
        store: &DecodedStore<'_>,
        offset: usize,
        tally: &mut Tally<L>,
    ) -> Result<(), StoreFault> {
        Parts::judge_tallied(store, offset, tally)
    }

    fn rows_in(store: &DecodedStore<'_>, offset: usize) -> usize {
        Parts::rows_in(store, offset)
    }
}

impl ContainerBytes for EventContainer {
    fn byte_slice(&self, index: usize) -> ByteSlice<'_> {
        self.parts.byte_slice(index)
    }

    fn load(alloc: Global, store: &DecodedStore<'_>, offset: usize) -> Result<Self, GrowError> {
        let parts = Parts::load(alloc, store, offset)?;
        Ok(Self { parts })
    }
}

// The earlier form of the columns of the parts
type OldColumns = <Parts as Earlier>::Old;

/// A column of values of `Event` in its earlier form.
#[derive(Drop)]
pub struct EventOld {
    /// The column of their parts.
    pub parts: OldColumns,
}

impl Column for EventOld {
    ghost format = { ⟦<OldColumns as Column>⟧.format };

    ghost content = { λ c. ⟦<OldColumns as Column>⟧.content c.parts };

    ghost room = { λ c. ⟦<OldColumns as Column>⟧.room c.parts };
}

impl Stored for EventOld {
    ghost use Rattle.columnar.specs.ColumnLaws.{counted_columns, storable_columns};

    ghost storable = { Prim.search storable_columns depth 64 fits 10000 };

    ghost counted = { λ c. Prim.search counted_columns depth 64 fits 10000 };

    fn slice_count() -> usize {
        OldColumns::slice_count()
    }

    fn element_sizes(sizes: &mut Vec<usize>) -> Result<(), GrowError> {
        OldColumns::element_sizes(sizes)
    }

    fn judge_tallied<L>(
        store: &DecodedStore<'_>,
        offset: usize,
        tally: &mut Tally<L>,
    ) -> Result<(), StoreFault> {
        OldColumns::judge_tallied(store, offset, tally)
    }

    fn rows_in(store: &DecodedStore<'_>, offset: usize) -> usize {
        OldColumns::rows_in(store, offset)
    }
}

impl ContainerBytes for EventOld {
    fn byte_slice(&self, index: usize) -> ByteSlice<'_> {
        self.parts.byte_slice(index)
    }

    fn load(alloc: Global, store: &DecodedStore<'_>, offset: usize) -> Result<Self, GrowError> {
        let parts = OldColumns::load(alloc, store, offset)?;
        Ok(Self { parts })
    }
}

impl Earlier for EventContainer {
    ghost use Rattle.columnar.specs.ColumnLaws.{earlier_columns};

    type Old = EventOld;

    ghost earlier = { Prim.search earlier_columns depth 64 fits 10000 };

    fn from_old(alloc: Global, old: Self::Old) -> Result<Self, GrowError> {
        let parts = Parts::from_old(alloc, old.parts)?;
        Ok(Self { parts })
    }
}

impl SliceNames for EventContainer {
    ghost names_at = { ⟦<OwnRows<Parts, Event> as SliceNames>⟧.names_at };

    fn push_names(alloc: Global, path: &str, names: &mut Vec<String>) -> Result<(), GrowError> {
        <OwnRows<Parts, Event>>::push_names(alloc, path, names)
    }
}

impl<T: PushParts<Parts, Event> + Drop> Push<T> for EventContainer {
    fn push(&mut self, item: T) -> Result<(), GrowError> {
        self.push_ref(&item)
    }
}

impl<T: PushParts<Parts, Event>> PushRef<T> for EventContainer {
    fn push_ref(&mut self, item: &T) -> Result<(), GrowError> {
        item.push_parts(&mut self.parts)
    }
}

impl<T: SameParts<Parts, Event>> SameAs<T> for EventContainer {
    fn same(&self, at: usize, item: &T) -> bool {
        item.same_parts(&self.parts, at)
    }
}

impl<R: Item> SetRow<OwnRow<R, Event>> for EventContainer
where
    Parts: SetRow<R>,
{
    ghost fits = { λ r item. ⟦<Parts as SetRow<R>>⟧.fits r item.parts };

    fn may_set(&self, index: usize, item: &OwnRow<R, Event>) -> bool {
        self.parts.may_set(index, &item.parts)
    }

    fn set_row(&mut self, index: usize, item: OwnRow<R, Event>) {
        self.parts.set_row(index, item.parts);
    }
}

impl<A, T: Item> SetItem<A, T> for EventContainer
where
    Parts: SetItem<A, T>,
{
    ghost fits = { ⟦<Parts as SetItem<A, T>>⟧.fits };

    ghost put = { ⟦<Parts as SetItem<A, T>>⟧.put };

    fn may_set_item(&self, index: usize, at: A, item: &T) -> bool {
        self.parts.may_set_item(index, at, item)
    }

    fn set_item(&mut self, index: usize, at: A, item: T) {
        self.parts.set_item(index, at, item);
    }
}

impl<'a> IndexMut<'a> for EventContainer {
    ghost use Rattle.std.specs.Prelude.{◌≡◌};

    type IndexMut = RowMut<'a, EventContainer>;

    ghost lent = { λ s i r. (r.column.ghost_name ≡ s.ghost_name) × ((r.column.now ≡ s.now) × (r.index ≡ i)) };

    fn get_mut(&'a mut self, index: usize) -> Self::IndexMut {
        RowMut::new(self, index)
    }

    fn last_mut(&'a mut self) -> Option<Self::IndexMut> {
        let count = self.len();
        if count == 0 {
            None
        } else {
            Some(RowMut::new(self, count - 1))
        }
    }
}
// What a row is read as
type Rows<A, B> = Nth<A, Nth<(), Last<B>>>;

/// What stands for a value of `Event` in a column.
#[derive(Clone, Copy, Debug)]
pub enum EventReference<A, B> {
    Start(A),
    Rest,
    Stop(B),
}

impl Item for Event {
    ghost use Rattle.columnar.specs.Row.{Row, unit};
    ghost use Rattle.columnar.specs.Variants.{case};
    ghost use Rattle.operator_tests.specs.declared.event.Event.TheVariants.{Start, Rest, Stop};

    ghost meaning = { λ s. elim s as (λ v. Row) [ Start a ↦ case 0 (⟦<u64 as Item>⟧.meaning a) | Rest ↦ case 1 unit | Stop a ↦ case 2 (⟦<u32 as Item>⟧.meaning a) ] };

    ghost valid = { λ s. elim s as (λ v. Type 0) [ Start a ↦ ⟦<u64 as Item>⟧.valid a | Rest ↦ Unit {0} | Stop a ↦ ⟦<u32 as Item>⟧.valid a ] };

    ghost unbuffered = { ⟦<Rows<u64, u32> as Item>⟧.unbuffered };
}

impl<A: Item, B: Item> Item for EventReference<A, B> {
    ghost use Rattle.columnar.specs.Row.{Row, unit};
    ghost use Rattle.columnar.specs.Variants.{case};
    ghost use Rattle.operator_tests.specs.declared.event.rows.EventReference.TheVariants.{Start, Rest, Stop};

    ghost meaning = { λ s. elim s as (λ v. Row) [ Start a ↦ case 0 (A.meaning a) | Rest ↦ case 1 unit | Stop a ↦ case 2 (B.meaning a) ] };

    ghost valid = { λ s. elim s as (λ v. Type 0) [ Start a ↦ A.valid a | Rest ↦ Unit {0} | Stop a ↦ B.valid a ] };

    ghost unbuffered = { ⟦<Rows<A, B> as Item>⟧.unbuffered };
}

impl<A: Item, B: Item> MakeRow<Rows<A, B>> for Event {
    type Row = EventReference<A, B>;

    fn make_row(row: Rows<A, B>) -> Self::Row {
        let row = match row {
            Nth::This(a) => return EventReference::Start(a),
            Nth::Next(row) => row,
        };
        let row = match row {
            Nth::This(()) => return EventReference::Rest,
            Nth::Next(row) => row,
        };
        let Last(a) = row;
        EventReference::Stop(a)
    }
}

// A value, lent
type Lent<'x> = EventReference<&'x u64, &'x u32>;

impl<'x> LendRow<'x> for Event {
    type Lent = Lent<'x>;

    fn lend_row(&'x self) -> Self::Lent {
        match self {
            Event::Start(a) => EventReference::Start(a),
            Event::Rest => EventReference::Rest,
            Event::Stop(a) => EventReference::Stop(a),
        }
    }
}

impl PushParts<Parts, Event> for Event {
    fn push_parts(&self, parts: &mut Parts) -> Result<(), GrowError> {
        self.push_lent::<Parts, Event>(parts)
    }
}

impl<A: Copy + Item, B: Copy + Item, P: Push<Rows<A, B>>> PushParts<P, Event>
    for EventReference<A, B> {
    fn push_parts(&self, parts: &mut P) -> Result<(), GrowError> {
        match *self {
            EventReference::Start(a) => parts.push(Nth::This(a)),
            EventReference::Rest => parts.push(Nth::Next(Nth::This(()))),
            EventReference::Stop(a) => parts.push(Nth::Next(Nth::Next(Last(a)))),
        }
    }
}

impl PartNames for Event {
    ghost use Rattle.std.specs.Prelude.{[], ◌∷◌, codes};
    ghost use Rattle.columnar.specs.Names.{name_at};

    ghost name_of = { name_at (codes "Start" ∷ codes "Rest" ∷ codes "Stop" ∷ []) };

    fn part_name(index: usize) -> &'static str {
        name_in(&["Start", "Rest", "Stop"], index)
    }
}

impl Columnar for Event {
    ghost use Rattle.std.specs.Prelude.{◌||◌};
    ghost use Rattle.columnar.specs.Variants.{of_variant};

    ghost unfit = { λ u r. of_variant 0 (⟦<u64 as Columnar>⟧.unfit u) r || (of_variant 2 (⟦<u32 as Columnar>⟧.unfit u) r) };

    type Container = EventContainer;
}

impl<A: Item, B: Item> FromRow<OwnRow<Rows<A, B>, Event>> for Event
where
    u64: FromRow<A>,
    u32: FromRow<B>,
{
    fn from_row(alloc: Global, row: OwnRow<Rows<A, B>, Event>) -> Result<Self, OwnError> {
        match row.show() {
            EventReference::Start(a) => {
                let a = <u64>::from_row(alloc, a)?;
                Ok(Event::Start(a))
            }
            EventReference::Rest => Ok(Event::Rest),
            EventReference::Stop(a) => {
                let a = <u32>::from_row(alloc, a)?;
                Ok(Event::Stop(a))
            }
        }
    }
}

// The places of the variants
type AtStart = columnar::sums::variants::Zero;

type AtRest = columnar::sums::variants::Next<AtStart>;

type AtStop = columnar::sums::variants::Next<AtRest>;

// The columns of each part in a view
type View0<'x> = <ContainerOf<u64> as Borrow<'x>>::Borrowed;

type View1<'x> = <ContainerOf<()> as Borrow<'x>>::Borrowed;

type View2<'x> = <ContainerOf<u32> as Borrow<'x>>::Borrowed;

/// The values of each variant of `Event` in a view, by name.
pub trait EventColumns<A: Column, B: Column, C: Column>: Column {
    ghost use Rattle.std.specs.Prelude.{◌≡◌};
    ghost use Rattle.columnar.specs.Format.{IsSound};
    ghost use Rattle.columnar.specs.Variants.{of_case};

    /// Returns the values of `Start`.
    ///
    /// # Requires
    /// A well-formed view.
    fn start(self) -> A
        requires { IsSound Self.format (Self.content self) }
        ensures sound { IsSound A.format (A.content result) }
        ensures rows { A.format.rows (A.content result) ≡ of_case 0 (Self.format.rows (Self.content self)) };

    /// Returns the values of `Rest`.
    ///
    /// # Requires
    /// A well-formed view.
    fn rest(self) -> B
        requires { IsSound Self.format (Self.content self) }
        ensures sound { IsSound B.format (B.content result) }
        ensures rows { B.format.rows (B.content result) ≡ of_case 1 (Self.format.rows (Self.content self)) };

    /// Returns the values of `Stop`.
    ///
    /// # Requires
    /// A well-formed view.
    fn stop(self) -> C
        requires { IsSound Self.format (Self.content self) }
        ensures sound { IsSound C.format (C.content result) }
        ensures rows { C.format.rows (C.content result) ≡ of_case 2 (Self.format.rows (Self.content self)) };
}

impl<'x> EventColumns<View0<'x>, View1<'x>, View2<'x>> for EventView<'x> {
    fn start(self) -> View0<'x> {
        values_at::<AtStart, _, _, _>(self.parts)
    }

    fn rest(self) -> View1<'x> {
        values_at::<AtRest, _, _, _>(self.parts)
    }

    fn stop(self) -> View2<'x> {
        values_at::<AtStop, _, _, _>(self.parts)
    }
}

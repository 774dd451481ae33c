//! Rows of `Kind`, as `columnar_derive` writes them.
use super::*;
use columnar::bytes::indexed::DecodedStore;
use columnar::bytes::{ByteSlice, Earlier, Tally};
use columnar::fault::{GrowError, OwnError, StoreFault};
use columnar::names::{PartNames, name_in};
use columnar::sums::variants::{Last, Nth, Variants, values_at};
use columnar::{
    AsBytes, Borrow, Check, Clear, Column, Columnar, ContainerBytes, ContainerOf, ExtendFrom,
    FromBytes, FromRow, Index, IndexMut, Item, Len, LendRow, MakeRow, OwnRow, OwnRows, Push,
    PushParts, PushRef, Reborrow, Reserve, RowMut, SameAs, SameParts, SetItem, SetRow, SliceNames,
    Storage, Stored, Truncate,
};
use std::alloc::{AllocError, Global};

// The columns of the values, of each variant and of those after it
type ColumnsFromNamed = (ContainerOf<String>,);

type ColumnsFromPaged = (ContainerOf<Page>, ColumnsFromNamed);

type ColumnsFromEmpty = (ContainerOf<()>, ColumnsFromPaged);

type Parts = Variants<ColumnsFromEmpty>;

// The columns of the parts in a view
type PartViews<'a> = <Parts as Borrow<'a>>::Borrowed;

/// A view of a column of values of `Kind`.
#[derive(Clone, Copy)]
pub struct KindView<'a> {
    /// The view of the column of their parts.
    pub parts: PartViews<'a>,
}

/// A column of values of `Kind`.
#[derive(Drop)]
pub struct KindContainer {
    /// The column of their parts.
    pub parts: Parts,
}

impl Column for KindContainer {
    ghost format = { ⟦<Parts as Column>⟧.format };

    ghost content = { λ c. ⟦<Parts as Column>⟧.content c.parts };

    ghost room = { λ c. ⟦<Parts as Column>⟧.room c.parts };
}

impl Len for KindContainer {
    fn len(&self) -> usize {
        self.parts.len()
    }
}

impl Clear for KindContainer {
    fn clear(&mut self) {
        self.parts.clear();
    }
}

impl Truncate for KindContainer {
    ghost use Rattle.columnar.specs.ColumnLaws.{lawful_columns};

    ghost lawful = { Prim.search lawful_columns depth 64 fits 10000 };

    fn truncate(&mut self, n: usize) {
        self.parts.truncate(n);
    }
}

impl Storage for KindContainer {
    fn empty(alloc: Global) -> Self {
        let parts = Parts::empty(alloc);
        Self { parts }
    }

    fn duplicate(&self, alloc: Global) -> Result<Self, GrowError> {
        let parts = self.parts.duplicate(alloc)?;
        Ok(Self { parts })
    }
}

impl Clone for KindContainer {
    fn clone(&self) -> Result<Self, AllocError> {
        let parts = self.parts.clone()?;
        Ok(Self { parts })
    }
}

impl Reserve for KindContainer {
    type Room = <Parts as Reserve>::Room;

    ghost reserves = { ⟦<Parts as Reserve>⟧.reserves };

    ghost covers = { ⟦<Parts as Reserve>⟧.covers };

    fn no_room() -> Self::Room {
        Parts::no_room()
    }

    fn reserve_room(&mut self, room: Self::Room) -> Result<(), GrowError> {
        self.parts.reserve_room(room)
    }
}

impl<'a> ExtendFrom<KindView<'a>> for KindContainer {
    fn add_room(room: Self::Room, view: KindView<'a>) -> Self::Room {
        Parts::add_room(room, view.parts)
    }

    fn extend_from_self(
        &mut self,
        view: KindView<'a>,
        range: std::ops::Range<usize>,
    ) -> Result<(), GrowError> {
        self.parts.extend_from_self(view.parts, range)
    }
}

impl<'a> Borrow<'a> for KindContainer {
    ghost use Rattle.std.specs.Prelude.{refl};

    type Ref = OwnRow<<Parts as Borrow<'a>>::Ref, Kind>;

    type Borrowed = KindView<'a>;

    type Parts = <Parts as Borrow<'a>>::Parts;

    ghost same_format = { refl };

    fn borrow(&'a self) -> Self::Borrowed {
        let parts = self.parts.borrow();
        KindView { parts }
    }
}

impl<'a> Column for KindView<'a> {
    ghost format = { ⟦<PartViews<'a> as Column>⟧.format };

    ghost content = { λ c. ⟦<PartViews<'a> as Column>⟧.content c.parts };

    ghost room = { λ c. ⟦<PartViews<'a> as Column>⟧.room c.parts };
}

impl<'a> Len for KindView<'a> {
    fn len(&self) -> usize {
        self.parts.len()
    }
}

impl<'a> Index for KindView<'a> {
    type Ref = OwnRow<<PartViews<'a> as Index>::Ref, Kind>;

    fn get(&self, index: usize) -> Self::Ref {
        OwnRow::new(self.parts.get(index))
    }
}

impl<'a: 'b, 'b> Reborrow<'b> for KindView<'a> {
    ghost use Rattle.std.specs.Prelude.{refl};

    type Short = KindView<'b>;

    ghost same_short = { refl };

    fn reborrow(self) -> Self::Short {
        let parts = self.parts.reborrow();
        KindView { parts }
    }
}

impl<'a> Stored for KindView<'a> {
    ghost use Rattle.std.specs.Prelude.{◌≡◌, ◌+◌, ◌*◌, ◌≤◌, ◌++◌, IsTrue, length, drop, OnOk, OnErr, IfErr};
    ghost use Rattle.columnar.specs.ColumnLaws.{counted_columns, storable_columns};
    ghost use Rattle.columnar.specs.Faults.{verdict};
    ghost use Rattle.columnar.specs.Format.{Fits, bytes_held, first, moved, representable};
    ghost use Rattle.columnar.specs.Store.{slices_in};

    ghost storable = { Prim.search storable_columns depth 64 fits 10000 };

    ghost counted = { λ c. Prim.search counted_columns depth 64 fits 10000 };

    fn slice_count() -> usize
        requires { IsTrue (representable ⟦<KindView<'a> as Column>⟧.format) }
        ensures { result ≡ ⟦<KindView<'a> as Column>⟧.format.count }
    {
        PartViews::slice_count()
    }

    fn element_sizes(sizes: &mut Vec<usize>) -> Result<(), GrowError>
        requires { IsTrue (representable ⟦<KindView<'a> as Column>⟧.format) }
        ensures ok { OnOk result (sizes.new.items ≡ sizes.old.items ++ ⟦<KindView<'a> as Column>⟧.format.sizes) }
        ensures err { OnErr result (sizes.new.items ≡ sizes.old.items) }
        ensures memory { IfErr result (λ e. e ≡ GrowError.Memory) }
    {
        PartViews::element_sizes(sizes)
    }

    fn judge_tallied<L>(
        store: &DecodedStore<'_>,
        offset: usize,
        tally: &mut Tally<L>,
    ) -> Result<(), StoreFault>
        requires representable { IsTrue (representable ⟦<KindView<'a> as Column>⟧.format) }
        requires room { offset + ⟦<KindView<'a> as Column>⟧.format.count ≤ length (slices_in store.now) }
        ensures exact { verdict result ≡ first (moved offset (⟦<KindView<'a> as Column>⟧.format.broken (⟦<KindView<'a> as Column>⟧.format.build (drop offset (slices_in store.now))))) }
        ensures turns { tally.new.turns ≤ tally.old.turns + ⟦<KindView<'a> as Column>⟧.format.turns * bytes_held (⟦<KindView<'a> as Column>⟧.format.build (drop offset (slices_in store.now))) }
    {
        PartViews::judge_tallied(store, offset, tally)
    }

    fn rows_in(store: &DecodedStore<'_>, offset: usize) -> usize
        requires representable { IsTrue (representable ⟦<KindView<'a> as Column>⟧.format) }
        requires fits { Fits ⟦<KindView<'a> as Column>⟧.format offset (slices_in store.now) }
        ensures { result ≡ length (⟦<KindView<'a> as Column>⟧.format.rows (⟦<KindView<'a> as Column>⟧.format.build (drop offset (slices_in store.now)))) }
    {
        PartViews::rows_in(store, offset)
    }
}

impl<'a> Check for KindView<'a> {
    fn check_from_tallied<L>(&self, from: usize, tally: &mut Tally<L>) -> Result<(), StoreFault> {
        self.parts.check_from_tallied(from, tally)
    }
}

impl<'a> FromBytes<'a> for KindView<'a> {
    fn from_store(store: &DecodedStore<'a>, offset: &mut usize) -> Self {
        let parts = PartViews::from_store(store, offset);
        Self { parts }
    }
}

impl<'a> AsBytes<'a> for KindView<'a> {
    fn get_byte_slice(&self, index: usize) -> (u64, ByteSlice<'a>) {
        self.parts.get_byte_slice(index)
    }
}

impl Stored for KindContainer {
    ghost use Rattle.columnar.specs.ColumnLaws.{counted_columns, storable_columns};

    ghost storable = { Prim.search storable_columns depth 64 fits 10000 };

    ghost counted = { λ c. Prim.search counted_columns depth 64 fits 10000 };

    fn slice_count() -> usize {
        Parts::slice_count()
    }

    fn element_sizes(sizes: &mut Vec<usize>) -> Result<(), GrowError> {
        Parts::element_sizes(sizes)
    }

    fn judge_tallied<L>(
        store: &DecodedStore<'_>,
        offset: usize,
        tally: &mut Tally<L>,
    ) -> Result<(), StoreFault> {
        Parts::judge_tallied(store, offset, tally)
    }

    fn rows_in(store: &DecodedStore<'_>, offset: usize) -> usize {
        Parts::rows_in(store, offset)
    }
}

impl ContainerBytes for KindContainer {
    fn byte_slice(&self, index: usize) -> ByteSlice<'_> {
        self.parts.byte_slice(index)
    }

    fn load(alloc: Global, store: &DecodedStore<'_>, offset: usize) -> Result<Self, GrowError> {
        let parts = Parts::load(alloc, store, offset)?;
        Ok(Self { parts })
    }
}

// The earlier form of the columns of the parts
type OldColumns = <Parts as Earlier>::Old;

/// A column of values of `Kind` in its earlier form.
#[derive(Drop)]
pub struct KindOld {
    /// The column of their parts.
    pub parts: OldColumns,
}

impl Column for KindOld {
    ghost format = { ⟦<OldColumns as Column>⟧.format };

    ghost content = { λ c. ⟦<OldColumns as Column>⟧.content c.parts };

    ghost room = { λ c. ⟦<OldColumns as Column>⟧.room c.parts };
}

impl Stored for KindOld {
    ghost use Rattle.columnar.specs.ColumnLaws.{counted_columns, storable_columns};

    ghost storable = { Prim.search storable_columns depth 64 fits 10000 };

    ghost counted = { λ c. Prim.search counted_columns depth 64 fits 10000 };

    fn slice_count() -> usize {
        OldColumns::slice_count()
    }

    fn element_sizes(sizes: &mut Vec<usize>) -> Result<(), GrowError> {
        OldColumns::element_sizes(sizes)
    }

    fn judge_tallied<L>(
        store: &DecodedStore<'_>,
        offset: usize,
        tally: &mut Tally<L>,
    ) -> Result<(), StoreFault> {
        OldColumns::judge_tallied(store, offset, tally)
    }

    fn rows_in(store: &DecodedStore<'_>, offset: usize) -> usize {
        OldColumns::rows_in(store, offset)
    }
}

impl ContainerBytes for KindOld {
    fn byte_slice(&self, index: usize) -> ByteSlice<'_> {
        self.parts.byte_slice(index)
    }

    fn load(alloc: Global, store: &DecodedStore<'_>, offset: usize) -> Result<Self, GrowError> {
        let parts = OldColumns::load(alloc, store, offset)?;
        Ok(Self { parts })
    }
}

impl Earlier for KindContainer {
    ghost use Rattle.columnar.specs.ColumnLaws.{earlier_columns};

    type Old = KindOld;

    ghost earlier = { Prim.search earlier_columns depth 64 fits 10000 };

    fn from_old(alloc: Global, old: Self::Old) -> Result<Self, GrowError> {
        let parts = Parts::from_old(alloc, old.parts)?;
        Ok(Self { parts })
    }
}

impl SliceNames for KindContainer {
    ghost names_at = { ⟦<OwnRows<Parts, Kind> as SliceNames>⟧.names_at };

    fn push_names(alloc: Global, path: &str, names: &mut Vec<String>) -> Result<(), GrowError> {
        <OwnRows<Parts, Kind>>::push_names(alloc, path, names)
    }
}

impl<T: PushParts<Parts, Kind> + Drop> Push<T> for KindContainer {
    fn push(&mut self, item: T) -> Result<(), GrowError> {
        self.push_ref(&item)
    }
}

impl<T: PushParts<Parts, Kind>> PushRef<T> for KindContainer {
    fn push_ref(&mut self, item: &T) -> Result<(), GrowError> {
        item.push_parts(&mut self.parts)
    }
}

impl<T: SameParts<Parts, Kind>> SameAs<T> for KindContainer {
    fn same(&self, at: usize, item: &T) -> bool {
        item.same_parts(&self.parts, at)
    }
}

impl<R: Item> SetRow<OwnRow<R, Kind>> for KindContainer
where
    Parts: SetRow<R>,
{
    ghost fits = { λ r item. ⟦<Parts as SetRow<R>>⟧.fits r item.parts };

    fn may_set(&self, index: usize, item: &OwnRow<R, Kind>) -> bool {
        self.parts.may_set(index, &item.parts)
    }

    fn set_row(&mut self, index: usize, item: OwnRow<R, Kind>) {
        self.parts.set_row(index, item.parts);
    }
}

impl<A, T: Item> SetItem<A, T> for KindContainer
where
    Parts: SetItem<A, T>,
{
    ghost fits = { ⟦<Parts as SetItem<A, T>>⟧.fits };

    ghost put = { ⟦<Parts as SetItem<A, T>>⟧.put };

    fn may_set_item(&self, index: usize, at: A, item: &T) -> bool {
        self.parts.may_set_item(index, at, item)
    }

    fn set_item(&mut self, index: usize, at: A, item: T) {
        self.parts.set_item(index, at, item);
    }
}

impl<'a> IndexMut<'a> for KindContainer {
    ghost use Rattle.std.specs.Prelude.{◌≡◌};

    type IndexMut = RowMut<'a, KindContainer>;

    ghost lent = { λ s i r. (r.column.ghost_name ≡ s.ghost_name) × ((r.column.now ≡ s.now) × (r.index ≡ i)) };

    fn get_mut(&'a mut self, index: usize) -> Self::IndexMut {
        RowMut::new(self, index)
    }

    fn last_mut(&'a mut self) -> Option<Self::IndexMut> {
        let count = self.len();
        if count == 0 {
            None
        } else {
            Some(RowMut::new(self, count - 1))
        }
    }
}
// What a row is read as
type Rows<A, B> = Nth<(), Nth<A, Last<B>>>;

/// What stands for a value of `Kind` in a column.
#[derive(Clone, Copy, Debug)]
pub enum KindReference<A, B> {
    Empty,
    Paged(A),
    Named(B),
}

impl Item for Kind {
    ghost use Rattle.columnar.specs.Row.{Row, unit};
    ghost use Rattle.columnar.specs.Variants.{case};
    ghost use Rattle.nest_tests.specs.declared.kind.Kind.TheVariants.{Empty, Paged, Named};

    ghost meaning = { λ s. elim s as (λ v. Row) [ Empty ↦ case 0 unit | Paged a ↦ case 1 (⟦<Page as Item>⟧.meaning a) | Named a ↦ case 2 (⟦<String as Item>⟧.meaning a) ] };

    ghost valid = { λ s. elim s as (λ v. Type 0) [ Empty ↦ Unit {0} | Paged a ↦ ⟦<Page as Item>⟧.valid a | Named a ↦ ⟦<String as Item>⟧.valid a ] };

    ghost unbuffered = { ⟦<Rows<Page, String> as Item>⟧.unbuffered };
}

impl<A: Item, B: Item> Item for KindReference<A, B> {
    ghost use Rattle.columnar.specs.Row.{Row, unit};
    ghost use Rattle.columnar.specs.Variants.{case};
    ghost use Rattle.nest_tests.specs.declared.kind.rows.KindReference.TheVariants.{Empty, Paged, Named};

    ghost meaning = { λ s. elim s as (λ v. Row) [ Empty ↦ case 0 unit | Paged a ↦ case 1 (A.meaning a) | Named a ↦ case 2 (B.meaning a) ] };

    ghost valid = { λ s. elim s as (λ v. Type 0) [ Empty ↦ Unit {0} | Paged a ↦ A.valid a | Named a ↦ B.valid a ] };

    ghost unbuffered = { ⟦<Rows<A, B> as Item>⟧.unbuffered };
}

impl<A: Item, B: Item> MakeRow<Rows<A, B>> for Kind {
    type Row = KindReference<A, B>;

    fn make_row(row: Rows<A, B>) -> Self::Row {
        let row = match row {
            Nth::This(()) => return KindReference::Empty,
            Nth::Next(row) => row,
        };
        let row = match row {
            Nth::This(a) => return KindReference::Paged(a),
            Nth::Next(row) => row,
        };
        let Last(a) = row;
        KindReference::Named(a)
    }
}

// A value, lent
type Lent<'x> = KindReference<&'x Page, &'x String>;

impl<'x> LendRow<'x> for Kind {
    type Lent = Lent<'x>;

    fn lend_row(&'x self) -> Self::Lent {
        match self {
            Kind::Empty => KindReference::Empty,
            Kind::Paged(a) => KindReference::Paged(a),
            Kind::Named(a) => KindReference::Named(a),
        }
    }
}

impl PushParts<Parts, Kind> for Kind {
    fn push_parts(&self, parts: &mut Parts) -> Result<(), GrowError> {
        self.push_lent::<Parts, Kind>(parts)
    }
}

impl<A: Copy + Item, B: Copy + Item, P: Push<Rows<A, B>>> PushParts<P, Kind>
    for KindReference<A, B> {
    fn push_parts(&self, parts: &mut P) -> Result<(), GrowError> {
        match *self {
            KindReference::Empty => parts.push(Nth::This(())),
            KindReference::Paged(a) => parts.push(Nth::Next(Nth::This(a))),
            KindReference::Named(a) => parts.push(Nth::Next(Nth::Next(Last(a)))),
        }
    }
}

impl PartNames for Kind {
    ghost use Rattle.std.specs.Prelude.{[], ◌∷◌, codes};
    ghost use Rattle.columnar.specs.Names.{name_at};

    ghost name_of = { name_at (codes "Empty" ∷ codes "Paged" ∷ codes "Named" ∷ []) };

    fn part_name(index: usize) -> &'static str {
        name_in(&["Empty", "Paged", "Named"], index)
    }
}

impl Columnar for Kind {
    ghost use Rattle.std.specs.Prelude.{◌||◌};
    ghost use Rattle.columnar.specs.Variants.{of_variant};

    ghost unfit = { λ u r. of_variant 1 (⟦<Page as Columnar>⟧.unfit u) r || (of_variant 2 (⟦<String as Columnar>⟧.unfit u) r) };

    type Container = KindContainer;
}

impl<A: Item, B: Item> FromRow<OwnRow<Rows<A, B>, Kind>> for Kind
where
    Page: FromRow<A>,
    String: FromRow<B>,
{
    fn from_row(alloc: Global, row: OwnRow<Rows<A, B>, Kind>) -> Result<Self, OwnError> {
        match row.show() {
            KindReference::Empty => Ok(Kind::Empty),
            KindReference::Paged(a) => {
                let a = <Page>::from_row(alloc, a)?;
                Ok(Kind::Paged(a))
            }
            KindReference::Named(a) => {
                let a = <String>::from_row(alloc, a)?;
                Ok(Kind::Named(a))
            }
        }
    }
}

// The places of the variants
type AtEmpty = columnar::sums::variants::Zero;

type AtPaged = columnar::sums::variants::Next<AtEmpty>;

type AtNamed = columnar::sums::variants::Next<AtPaged>;

// The columns of each part in a view
type View0<'x> = <ContainerOf<()> as Borrow<'x>>::Borrowed;

type View1<'x> = <ContainerOf<Page> as Borrow<'x>>::Borrowed;

type View2<'x> = <ContainerOf<String> as Borrow<'x>>::Borrowed;

/// The values of each variant of `Kind` in a view, by name.
pub trait KindColumns<A: Column, B: Column, C: Column>: Column {
    ghost use Rattle.std.specs.Prelude.{◌≡◌};
    ghost use Rattle.columnar.specs.Format.{IsSound};
    ghost use Rattle.columnar.specs.Variants.{of_case};

    /// Returns the values of `Empty`.
    ///
    /// # Requires
    /// A well-formed view.
    fn empty(self) -> A
        requires { IsSound Self.format (Self.content self) }
        ensures sound { IsSound A.format (A.content result) }
        ensures rows { A.format.rows (A.content result) ≡ of_case 0 (Self.format.rows (Self.content self)) };

    /// Returns the values of `Paged`.
    ///
    /// # Requires
    /// A well-formed view.
    fn paged(self) -> B
        requires { IsSound Self.format (Self.content self) }
        ensures sound { IsSound B.format (B.content result) }
        ensures rows { B.format.rows (B.content result) ≡ of_case 1 (Self.format.rows (Self.content self)) };

    /// Returns the values of `Named`.
    ///
    /// # Requires
    /// A well-formed view.
    fn named(self) -> C
        requires { IsSound Self.format (Self.content self) }
        ensures sound { IsSound C.format (C.content result) }
        ensures rows { C.format.rows (C.content result) ≡ of_case 2 (Self.format.rows (Self.content self)) };
}

impl<'x> KindColumns<View0<'x>, View1<'x>, View2<'x>> for KindView<'x> {
    fn empty(self) -> View0<'x> {
        values_at::<AtEmpty, _, _, _>(self.parts)
    }

    fn paged(self) -> View1<'x> {
        values_at::<AtPaged, _, _, _>(self.parts)
    }

    fn named(self) -> View2<'x> {
        values_at::<AtNamed, _, _, _>(self.parts)
    }
}

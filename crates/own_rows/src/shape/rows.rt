//! Rows of `Shape`, as `columnar_derive` writes them.
use super::*;
use columnar::bytes::indexed::DecodedStore;
use columnar::bytes::{ByteSlice, Earlier, Tally};
use columnar::fault::{GrowError, OwnError, StoreFault};
use columnar::names::{PartNames, name_in};
use columnar::sums::variants::{Last, Nth, Variants, values_at};
use columnar::{
    AsBytes, Borrow, Check, Clear, Column, Columnar, ContainerBytes, ContainerOf, ExtendFrom,
    FromBytes, FromRow, Index, IndexMut, Item, Len, LendRow, MakeRow, OwnRow, OwnRows, Push,
    PushParts, PushRef, Reborrow, Reserve, RowMut, SameAs, SameParts, SetItem, SetRow, SliceNames,
    Storage, Stored, Truncate,
};
use std::alloc::{AllocError, Global};

// The columns of the values, of each variant and of those after it
type ColumnsFromNothing = (ContainerOf<()>,);

type ColumnsFromSquare = (ContainerOf<ValueOfSquare>, ColumnsFromNothing);

type ColumnsFromNamed = (ContainerOf<String>, ColumnsFromSquare);

type ColumnsFromCircle = (ContainerOf<u64>, ColumnsFromNamed);

type Parts = Variants<ColumnsFromCircle>;

// What values of several fields are made of
type ValueOfSquare = (u32, (u32, u32));

// The columns of the parts in a view
type PartViews<'a> = <Parts as Borrow<'a>>::Borrowed;

/// A view of a column of values of `Shape`.
#[derive(Clone, Copy)]
pub struct ShapeView<'a> {
    /// The view of the column of their parts.
    pub parts: PartViews<'a>,
}

/// A column of values of `Shape`.
#[derive(Drop)]
pub struct ShapeContainer {
    /// The column of their parts.
    pub parts: Parts,
}

impl Column for ShapeContainer {
    ghost format = { ⟦<Parts as Column>⟧.format };

    ghost content = { λ c. ⟦<Parts as Column>⟧.content c.parts };

    ghost room = { λ c. ⟦<Parts as Column>⟧.room c.parts };
}

impl Len for ShapeContainer {
    fn len(&self) -> usize {
        self.parts.len()
    }
}

impl Clear for ShapeContainer {
    fn clear(&mut self) {
        self.parts.clear();
    }
}

impl Truncate for ShapeContainer {
    ghost use Rattle.columnar.specs.ColumnLaws.{lawful_columns};

    ghost lawful = { Prim.search lawful_columns depth 64 fits 10000 };

    fn truncate(&mut self, n: usize) {
        self.parts.truncate(n);
    }
}

impl Storage for ShapeContainer {
    fn empty(alloc: Global) -> Self {
        let parts = Parts::empty(alloc);
        Self { parts }
    }

    fn duplicate(&self, alloc: Global) -> Result<Self, GrowError> {
        let parts = self.parts.duplicate(alloc)?;
        Ok(Self { parts })
    }
}

impl Clone for ShapeContainer {
    fn clone(&self) -> Result<Self, AllocError> {
        let parts = self.parts.clone()?;
        Ok(Self { parts })
    }
}

impl Reserve for ShapeContainer {
    type Room = <Parts as Reserve>::Room;

    ghost reserves = { ⟦<Parts as Reserve>⟧.reserves };

    ghost covers = { ⟦<Parts as Reserve>⟧.covers };

    fn no_room() -> Self::Room {
        Parts::no_room()
    }

    fn reserve_room(&mut self, room: Self::Room) -> Result<(), GrowError> {
        self.parts.reserve_room(room)
    }
}

impl<'a> ExtendFrom<ShapeView<'a>> for ShapeContainer {
    fn add_room(room: Self::Room, view: ShapeView<'a>) -> Self::Room {
        Parts::add_room(room, view.parts)
    }

    fn extend_from_self(
        &mut self,
        view: ShapeView<'a>,
        range: std::ops::Range<usize>,
    ) -> Result<(), GrowError> {
        self.parts.extend_from_self(view.parts, range)
    }
}

impl<'a> Borrow<'a> for ShapeContainer {
    ghost use Rattle.std.specs.Prelude.{refl};

    type Ref = OwnRow<<Parts as Borrow<'a>>::Ref, Shape>;

    type Borrowed = ShapeView<'a>;

    type Parts = <Parts as Borrow<'a>>::Parts;

    ghost same_format = { refl };

    fn borrow(&'a self) -> Self::Borrowed {
        let parts = self.parts.borrow();
        ShapeView { parts }
    }
}

impl<'a> Column for ShapeView<'a> {
    ghost format = { ⟦<PartViews<'a> as Column>⟧.format };

    ghost content = { λ c. ⟦<PartViews<'a> as Column>⟧.content c.parts };

    ghost room = { λ c. ⟦<PartViews<'a> as Column>⟧.room c.parts };
}

impl<'a> Len for ShapeView<'a> {
    fn len(&self) -> usize {
        self.parts.len()
    }
}

impl<'a> Index for ShapeView<'a> {
    type Ref = OwnRow<<PartViews<'a> as Index>::Ref, Shape>;

    fn get(&self, index: usize) -> Self::Ref {
        OwnRow::new(self.parts.get(index))
    }
}

impl<'a: 'b, 'b> Reborrow<'b> for ShapeView<'a> {
    ghost use Rattle.std.specs.Prelude.{refl};

    type Short = ShapeView<'b>;

    ghost same_short = { refl };

    fn reborrow(self) -> Self::Short {
        let parts = self.parts.reborrow();
        ShapeView { parts }
    }
}

impl<'a> Stored for ShapeView<'a> {
    ghost use Rattle.std.specs.Prelude.{◌≡◌, ◌+◌, ◌*◌, ◌≤◌, ◌++◌, IsTrue, length, drop, OnOk, OnErr, IfErr};
    ghost use Rattle.columnar.specs.ColumnLaws.{counted_columns, storable_columns};
    ghost use Rattle.columnar.specs.Faults.{verdict};
    ghost use Rattle.columnar.specs.Format.{Fits, bytes_held, first, moved, representable};
    ghost use Rattle.columnar.specs.Store.{slices_in};

    ghost storable = { Prim.search storable_columns depth 64 fits 10000 };

    ghost counted = { λ c. Prim.search counted_columns depth 64 fits 10000 };

    fn slice_count() -> usize
        requires { IsTrue (representable ⟦<ShapeView<'a> as Column>⟧.format) }
        ensures { result ≡ ⟦<ShapeView<'a> as Column>⟧.format.count }
    {
        PartViews::slice_count()
    }

    fn element_sizes(sizes: &mut Vec<usize>) -> Result<(), GrowError>
        requires { IsTrue (representable ⟦<ShapeView<'a> as Column>⟧.format) }
        ensures ok { OnOk result (sizes.new.items ≡ sizes.old.items ++ ⟦<ShapeView<'a> as Column>⟧.format.sizes) }
        ensures err { OnErr result (sizes.new.items ≡ sizes.old.items) }
        ensures memory { IfErr result (λ e. e ≡ GrowError.Memory) }
    {
        PartViews::element_sizes(sizes)
    }

    fn judge_tallied<L>(
        store: &DecodedStore<'_>,
        offset: usize,
        tally: &mut Tally<L>,
    ) -> Result<(), StoreFault>
        requires representable { IsTrue (representable ⟦<ShapeView<'a> as Column>⟧.format) }
        requires room { offset + ⟦<ShapeView<'a> as Column>⟧.format.count ≤ length (slices_in store.now) }
        ensures exact { verdict result ≡ first (moved offset (⟦<ShapeView<'a> as Column>⟧.format.broken (⟦<ShapeView<'a> as Column>⟧.format.build (drop offset (slices_in store.now))))) }
        ensures turns { tally.new.turns ≤ tally.old.turns + ⟦<ShapeView<'a> as Column>⟧.format.turns * bytes_held (⟦<ShapeView<'a> as Column>⟧.format.build (drop offset (slices_in store.now))) }
    {
        PartViews::judge_tallied(store, offset, tally)
    }

    fn rows_in(store: &DecodedStore<'_>, offset: usize) -> usize
        requires representable { IsTrue (representable ⟦<ShapeView<'a> as Column>⟧.format) }
        requires fits { Fits ⟦<ShapeView<'a> as Column>⟧.format offset (slices_in store.now) }
        ensures { result ≡ length (⟦<ShapeView<'a> as Column>⟧.format.rows (⟦<ShapeView<'a> as Column>⟧.format.build (drop offset (slices_in store.now)))) }
    {
        PartViews::rows_in(store, offset)
    }
}

impl<'a> Check for ShapeView<'a> {
    fn check_from_tallied<L>(&self, from: usize, tally: &mut Tally<L>) -> Result<(), StoreFault> {
        self.parts.check_from_tallied(from, tally)
    }
}

impl<'a> FromBytes<'a> for ShapeView<'a> {
    fn from_store(store: &DecodedStore<'a>, offset: &mut usize) -> Self {
        let parts = PartViews::from_store(store, offset);
        Self { parts }
    }
}

impl<'a> AsBytes<'a> for ShapeView<'a> {
    fn get_byte_slice(&self, index: usize) -> (u64, ByteSlice<'a>) {
        self.parts.get_byte_slice(index)
    }
}

impl Stored for ShapeContainer {
    ghost use Rattle.columnar.specs.ColumnLaws.{counted_columns, storable_columns};

    ghost storable = { Prim.search storable_columns depth 64 fits 10000 };

    ghost counted = { λ c. Prim.search counted_columns depth 64 fits 10000 };

    fn slice_count() -> usize {
        Parts::slice_count()
    }

    fn element_sizes(sizes: &mut Vec<usize>) -> Result<(), GrowError> {
        Parts::element_sizes(sizes)
    }

    fn judge_tallied<L>(
        store: &DecodedStore<'_>,
        offset: usize,
        tally: &mut Tally<L>,
    ) -> Result<(), StoreFault> {
        Parts::judge_tallied(store, offset, tally)
    }

    fn rows_in(store: &DecodedStore<'_>, offset: usize) -> usize {
        Parts::rows_in(store, offset)
    }
}

impl ContainerBytes for ShapeContainer {
    fn byte_slice(&self, index: usize) -> ByteSlice<'_> {
        self.parts.byte_slice(index)
    }

    fn load(alloc: Global, store: &DecodedStore<'_>, offset: usize) -> Result<Self, GrowError> {
        let parts = Parts::load(alloc, store, offset)?;
        Ok(Self { parts })
    }
}

// The earlier form of the columns of the parts
type OldColumns = <Parts as Earlier>::Old;

/// A column of values of `Shape` in its earlier form.
#[derive(Drop)]
pub struct ShapeOld {
    /// The column of their parts.
    pub parts: OldColumns,
}

impl Column for ShapeOld {
    ghost format = { ⟦<OldColumns as Column>⟧.format };

    ghost content = { λ c. ⟦<OldColumns as Column>⟧.content c.parts };

    ghost room = { λ c. ⟦<OldColumns as Column>⟧.room c.parts };
}

impl Stored for ShapeOld {
    ghost use Rattle.columnar.specs.ColumnLaws.{counted_columns, storable_columns};

    ghost storable = { Prim.search storable_columns depth 64 fits 10000 };

    ghost counted = { λ c. Prim.search counted_columns depth 64 fits 10000 };

    fn slice_count() -> usize {
        OldColumns::slice_count()
    }

    fn element_sizes(sizes: &mut Vec<usize>) -> Result<(), GrowError> {
        OldColumns::element_sizes(sizes)
    }

    fn judge_tallied<L>(
        store: &DecodedStore<'_>,
        offset: usize,
        tally: &mut Tally<L>,
    ) -> Result<(), StoreFault> {
        OldColumns::judge_tallied(store, offset, tally)
    }

    fn rows_in(store: &DecodedStore<'_>, offset: usize) -> usize {
        OldColumns::rows_in(store, offset)
    }
}

impl ContainerBytes for ShapeOld {
    fn byte_slice(&self, index: usize) -> ByteSlice<'_> {
        self.parts.byte_slice(index)
    }

    fn load(alloc: Global, store: &DecodedStore<'_>, offset: usize) -> Result<Self, GrowError> {
        let parts = OldColumns::load(alloc, store, offset)?;
        Ok(Self { parts })
    }
}

impl Earlier for ShapeContainer {
    ghost use Rattle.columnar.specs.ColumnLaws.{earlier_columns};

    type Old = ShapeOld;

    ghost earlier = { Prim.search earlier_columns depth 64 fits 10000 };

    fn from_old(alloc: Global, old: Self::Old) -> Result<Self, GrowError> {
        let parts = Parts::from_old(alloc, old.parts)?;
        Ok(Self { parts })
    }
}

impl SliceNames for ShapeContainer {
    ghost names_at = { ⟦<OwnRows<Parts, Shape> as SliceNames>⟧.names_at };

    fn push_names(alloc: Global, path: &str, names: &mut Vec<String>) -> Result<(), GrowError> {
        <OwnRows<Parts, Shape>>::push_names(alloc, path, names)
    }
}

impl<T: PushParts<Parts, Shape> + Drop> Push<T> for ShapeContainer {
    fn push(&mut self, item: T) -> Result<(), GrowError> {
        self.push_ref(&item)
    }
}

impl<T: PushParts<Parts, Shape>> PushRef<T> for ShapeContainer {
    fn push_ref(&mut self, item: &T) -> Result<(), GrowError> {
        item.push_parts(&mut self.parts)
    }
}

impl<T: SameParts<Parts, Shape>> SameAs<T> for ShapeContainer {
    fn same(&self, at: usize, item: &T) -> bool {
        item.same_parts(&self.parts, at)
    }
}

impl<R: Item> SetRow<OwnRow<R, Shape>> for ShapeContainer
where
    Parts: SetRow<R>,
{
    ghost fits = { λ r item. ⟦<Parts as SetRow<R>>⟧.fits r item.parts };

    fn may_set(&self, index: usize, item: &OwnRow<R, Shape>) -> bool {
        self.parts.may_set(index, &item.parts)
    }

    fn set_row(&mut self, index: usize, item: OwnRow<R, Shape>) {
        self.parts.set_row(index, item.parts);
    }
}

impl<A, T: Item> SetItem<A, T> for ShapeContainer
where
    Parts: SetItem<A, T>,
{
    ghost fits = { ⟦<Parts as SetItem<A, T>>⟧.fits };

    ghost put = { ⟦<Parts as SetItem<A, T>>⟧.put };

    fn may_set_item(&self, index: usize, at: A, item: &T) -> bool {
        self.parts.may_set_item(index, at, item)
    }

    fn set_item(&mut self, index: usize, at: A, item: T) {
        self.parts.set_item(index, at, item);
    }
}

impl<'a> IndexMut<'a> for ShapeContainer {
    ghost use Rattle.std.specs.Prelude.{◌≡◌};

    type IndexMut = RowMut<'a, ShapeContainer>;

    ghost lent = { λ s i r. (r.column.ghost_name ≡ s.ghost_name) × ((r.column.now ≡ s.now) × (r.index ≡ i)) };

    fn get_mut(&'a mut self, index: usize) -> Self::IndexMut {
        RowMut::new(self, index)
    }

    fn last_mut(&'a mut self) -> Option<Self::IndexMut> {
        let count = self.len();
        if count == 0 {
            None
        } else {
            Some(RowMut::new(self, count - 1))
        }
    }
}
// What a row is read as
type Rows<A, B, C> = Nth<A, Nth<B, Nth<C, Last<()>>>>;

/// What stands for a value of `Shape` in a column.
#[derive(Clone, Copy, Debug)]
pub enum ShapeReference<A, B, C> {
    Circle(A),
    Named(B),
    Square(C),
    Nothing,
}

impl Item for Shape {
    ghost use Rattle.columnar.specs.Row.{Row, unit};
    ghost use Rattle.columnar.specs.Variants.{case};
    ghost use Rattle.own_rows.specs.declared.shape.Shape.TheVariants.{Circle, Named, Square, Nothing};

    ghost meaning = { λ s. elim s as (λ v. Row) [ Circle a ↦ case 0 (⟦<u64 as Item>⟧.meaning a) | Named a ↦ case 1 (⟦<String as Item>⟧.meaning a) | Square a b ↦ case 2 (⟦<ValueOfSquare as Item>⟧.meaning (a, b)) | Nothing ↦ case 3 unit ] };

    ghost valid = { λ s. elim s as (λ v. Type 0) [ Circle a ↦ ⟦<u64 as Item>⟧.valid a | Named a ↦ ⟦<String as Item>⟧.valid a | Square a b ↦ ⟦<ValueOfSquare as Item>⟧.valid (a, b) | Nothing ↦ Unit {0} ] };

    ghost unbuffered = { ⟦<Rows<u64, String, ValueOfSquare> as Item>⟧.unbuffered };
}

impl<A: Item, B: Item, C: Item> Item for ShapeReference<A, B, C> {
    ghost use Rattle.columnar.specs.Row.{Row, unit};
    ghost use Rattle.columnar.specs.Variants.{case};
    ghost use Rattle.own_rows.specs.declared.shape.rows.ShapeReference.TheVariants.{Circle, Named, Square, Nothing};

    ghost meaning = { λ s. elim s as (λ v. Row) [ Circle a ↦ case 0 (A.meaning a) | Named a ↦ case 1 (B.meaning a) | Square a ↦ case 2 (C.meaning a) | Nothing ↦ case 3 unit ] };

    ghost valid = { λ s. elim s as (λ v. Type 0) [ Circle a ↦ A.valid a | Named a ↦ B.valid a | Square a ↦ C.valid a | Nothing ↦ Unit {0} ] };

    ghost unbuffered = { ⟦<Rows<A, B, C> as Item>⟧.unbuffered };
}

impl<A: Item, B: Item, C: Item> MakeRow<Rows<A, B, C>> for Shape {
    type Row = ShapeReference<A, B, C>;

    fn make_row(row: Rows<A, B, C>) -> Self::Row {
        let row = match row {
            Nth::This(a) => return ShapeReference::Circle(a),
            Nth::Next(row) => row,
        };
        let row = match row {
            Nth::This(a) => return ShapeReference::Named(a),
            Nth::Next(row) => row,
        };
        let row = match row {
            Nth::This(a) => return ShapeReference::Square(a),
            Nth::Next(row) => row,
        };
        let Last(()) = row;
        ShapeReference::Nothing
    }
}

// What they are made of, lent
type LentOfSquare<'x> = (&'x u32, &'x (u32, u32));

// A value, lent
type Lent<'x> = ShapeReference<&'x u64, &'x String, LentOfSquare<'x>>;

impl<'x> LendRow<'x> for Shape {
    type Lent = Lent<'x>;

    fn lend_row(&'x self) -> Self::Lent {
        match self {
            Shape::Circle(a) => ShapeReference::Circle(a),
            Shape::Named(a) => ShapeReference::Named(a),
            Shape::Square { side: a, at: b } => ShapeReference::Square((a, b)),
            Shape::Nothing => ShapeReference::Nothing,
        }
    }
}

impl PushParts<Parts, Shape> for Shape {
    fn push_parts(&self, parts: &mut Parts) -> Result<(), GrowError> {
        self.push_lent::<Parts, Shape>(parts)
    }
}

impl<A: Copy + Item, B: Copy + Item, C: Copy + Item, P: Push<Rows<A, B, C>>> PushParts<P, Shape>
    for ShapeReference<A, B, C> {
    fn push_parts(&self, parts: &mut P) -> Result<(), GrowError> {
        match *self {
            ShapeReference::Circle(a) => parts.push(Nth::This(a)),
            ShapeReference::Named(a) => parts.push(Nth::Next(Nth::This(a))),
            ShapeReference::Square(a) => parts.push(Nth::Next(Nth::Next(Nth::This(a)))),
            ShapeReference::Nothing => parts.push(Nth::Next(Nth::Next(Nth::Next(Last(()))))),
        }
    }
}

impl PartNames for Shape {
    ghost use Rattle.std.specs.Prelude.{[], ◌∷◌, codes};
    ghost use Rattle.columnar.specs.Names.{name_at};

    ghost name_of = { name_at (codes "Circle" ∷ codes "Named" ∷ codes "Square" ∷ codes "Nothing" ∷ []) };

    fn part_name(index: usize) -> &'static str {
        name_in(&["Circle", "Named", "Square", "Nothing"], index)
    }
}

impl Columnar for Shape {
    ghost use Rattle.std.specs.Prelude.{◌||◌};
    ghost use Rattle.columnar.specs.Variants.{of_variant};

    ghost unfit = { λ u r. of_variant 0 (⟦<u64 as Columnar>⟧.unfit u) r || (of_variant 1 (⟦<String as Columnar>⟧.unfit u) r || (of_variant 2 (⟦<ValueOfSquare as Columnar>⟧.unfit u) r)) };

    type Container = ShapeContainer;
}

impl<A: Item, B: Item, C: Item> FromRow<OwnRow<Rows<A, B, C>, Shape>> for Shape
where
    u64: FromRow<A>,
    String: FromRow<B>,
    ValueOfSquare: FromRow<C>,
{
    fn from_row(alloc: Global, row: OwnRow<Rows<A, B, C>, Shape>) -> Result<Self, OwnError> {
        match row.show() {
            ShapeReference::Circle(a) => {
                let a = <u64>::from_row(alloc, a)?;
                Ok(Shape::Circle(a))
            }
            ShapeReference::Named(a) => {
                let a = <String>::from_row(alloc, a)?;
                Ok(Shape::Named(a))
            }
            ShapeReference::Square(a) => {
                let a = <ValueOfSquare>::from_row(alloc, a)?;
                let (a, b) = a;
                Ok(Shape::Square { side: a, at: b })
            }
            ShapeReference::Nothing => Ok(Shape::Nothing),
        }
    }
}

// The places of the variants
type AtCircle = columnar::sums::variants::Zero;

type AtNamed = columnar::sums::variants::Next<AtCircle>;

type AtSquare = columnar::sums::variants::Next<AtNamed>;

type AtNothing = columnar::sums::variants::Next<AtSquare>;

// The columns of each part in a view
type View0<'x> = <ContainerOf<u64> as Borrow<'x>>::Borrowed;

type View1<'x> = <ContainerOf<String> as Borrow<'x>>::Borrowed;

type View2<'x> = <ContainerOf<ValueOfSquare> as Borrow<'x>>::Borrowed;

type View3<'x> = <ContainerOf<()> as Borrow<'x>>::Borrowed;

/// The values of each variant of `Shape` in a view, by name.
pub trait ShapeColumns<A: Column, B: Column, C: Column, D: Column>: Column {
    ghost use Rattle.std.specs.Prelude.{◌≡◌};
    ghost use Rattle.columnar.specs.Format.{IsSound};
    ghost use Rattle.columnar.specs.Variants.{of_case};

    /// Returns the values of `Circle`.
    ///
    /// # Requires
    /// A well-formed view.
    fn circle(self) -> A
        requires { IsSound Self.format (Self.content self) }
        ensures sound { IsSound A.format (A.content result) }
        ensures rows { A.format.rows (A.content result) ≡ of_case 0 (Self.format.rows (Self.content self)) };

    /// Returns the values of `Named`.
    ///
    /// # Requires
    /// A well-formed view.
    fn named(self) -> B
        requires { IsSound Self.format (Self.content self) }
        ensures sound { IsSound B.format (B.content result) }
        ensures rows { B.format.rows (B.content result) ≡ of_case 1 (Self.format.rows (Self.content self)) };

    /// Returns the values of `Square`.
    ///
    /// # Requires
    /// A well-formed view.
    fn square(self) -> C
        requires { IsSound Self.format (Self.content self) }
        ensures sound { IsSound C.format (C.content result) }
        ensures rows { C.format.rows (C.content result) ≡ of_case 2 (Self.format.rows (Self.content self)) };

    /// Returns the values of `Nothing`.
    ///
    /// # Requires
    /// A well-formed view.
    fn nothing(self) -> D
        requires { IsSound Self.format (Self.content self) }
        ensures sound { IsSound D.format (D.content result) }
        ensures rows { D.format.rows (D.content result) ≡ of_case 3 (Self.format.rows (Self.content self)) };
}

impl<'x> ShapeColumns<View0<'x>, View1<'x>, View2<'x>, View3<'x>> for ShapeView<'x> {
    fn circle(self) -> View0<'x> {
        values_at::<AtCircle, _, _, _>(self.parts)
    }

    fn named(self) -> View1<'x> {
        values_at::<AtNamed, _, _, _>(self.parts)
    }

    fn square(self) -> View2<'x> {
        values_at::<AtSquare, _, _, _>(self.parts)
    }

    fn nothing(self) -> View3<'x> {
        values_at::<AtNothing, _, _, _>(self.parts)
    }
}

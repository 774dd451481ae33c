//! Rows of `Outcome`, as `columnar_derive` writes them.
use super::*;
use columnar::bytes::indexed::DecodedStore;
use columnar::bytes::{ByteSlice, Earlier, Tally};
use columnar::fault::{GrowError, OwnError, StoreFault};
use columnar::names::{PartNames, name_in};
use columnar::sums::variants::{Last, Nth, Variants, values_at};
use columnar::{
    AsBytes, Borrow, Check, Clear, Column, Columnar, ContainerBytes, ContainerOf, ExtendFrom,
    FromBytes, FromRow, Index, IndexMut, Item, Len, LendRow, MakeRow, OwnRow, OwnRows, Push,
    PushParts, PushRef, Reborrow, Reserve, RowMut, SameAs, SameParts, SetItem, SetRow, SliceNames,
    Storage, Stored, Truncate,
};
use std::alloc::{AllocError, Global};

// The columns of the values, of each variant and of those after it
type ColumnsFromRetried = (ContainerOf<ValueOfRetried>,);

type ColumnsFromTimeout = (ContainerOf<()>, ColumnsFromRetried);

type ColumnsFromFailed = (ContainerOf<String>, ColumnsFromTimeout);

type ColumnsFromOk = (ContainerOf<u64>, ColumnsFromFailed);

type Parts = Variants<ColumnsFromOk>;

// What values of several fields are made of
type ValueOfRetried = (u32, u64);

// The columns of the parts in a view
type PartViews<'a> = <Parts as Borrow<'a>>::Borrowed;

/// A view of a column of values of `Outcome`.
#[derive(Clone, Copy)]
pub struct OutcomeView<'a> {
    /// The view of the column of their parts.
    pub parts: PartViews<'a>,
}

/// A column of values of `Outcome`.
#[derive(Drop)]
pub struct OutcomeContainer {
    /// The column of their parts.
    pub parts: Parts,
}

impl Column for OutcomeContainer {
    ghost format = { ⟦<Parts as Column>⟧.format };

    ghost content = { λ c. ⟦<Parts as Column>⟧.content c.parts };

    ghost room = { λ c. ⟦<Parts as Column>⟧.room c.parts };
}

impl Len for OutcomeContainer {
    fn len(&self) -> usize {
        self.parts.len()
    }
}

impl Clear for OutcomeContainer {
    fn clear(&mut self) {
        self.parts.clear();
    }
}

impl Truncate for OutcomeContainer {
    ghost use Rattle.columnar.specs.ColumnLaws.{lawful_columns};

    ghost lawful = { Prim.search lawful_columns depth 64 fits 10000 };

    fn truncate(&mut self, n: usize) {
        self.parts.truncate(n);
    }
}

impl Storage for OutcomeContainer {
    fn empty(alloc: Global) -> Self {
        let parts = Parts::empty(alloc);
        Self { parts }
    }

    fn duplicate(&self, alloc: Global) -> Result<Self, GrowError> {
        let parts = self.parts.duplicate(alloc)?;
        Ok(Self { parts })
    }
}

impl Clone for OutcomeContainer {
    fn clone(&self) -> Result<Self, AllocError> {
        let parts = self.parts.clone()?;
        Ok(Self { parts })
    }
}

impl Reserve for OutcomeContainer {
    type Room = <Parts as Reserve>::Room;

    ghost reserves = { ⟦<Parts as Reserve>⟧.reserves };

    ghost covers = { ⟦<Parts as Reserve>⟧.covers };

    fn no_room() -> Self::Room {
        Parts::no_room()
    }

    fn reserve_room(&mut self, room: Self::Room) -> Result<(), GrowError> {
        self.parts.reserve_room(room)
    }
}

impl<'a> ExtendFrom<OutcomeView<'a>> for OutcomeContainer {
    fn add_room(room: Self::Room, view: OutcomeView<'a>) -> Self::Room {
        Parts::add_room(room, view.parts)
    }

    fn extend_from_self(
        &mut self,
        view: OutcomeView<'a>,
        range: std::ops::Range<usize>,
    ) -> Result<(), GrowError> {
        self.parts.extend_from_self(view.parts, range)
    }
}

impl<'a> Borrow<'a> for OutcomeContainer {
    ghost use Rattle.std.specs.Prelude.{refl};

    type Ref = OwnRow<<Parts as Borrow<'a>>::Ref, Outcome>;

    type Borrowed = OutcomeView<'a>;

    type Parts = <Parts as Borrow<'a>>::Parts;

    ghost same_format = { refl };

    fn borrow(&'a self) -> Self::Borrowed {
        let parts = self.parts.borrow();
        OutcomeView { parts }
    }
}

impl<'a> Column for OutcomeView<'a> {
    ghost format = { ⟦<PartViews<'a> as Column>⟧.format };

    ghost content = { λ c. ⟦<PartViews<'a> as Column>⟧.content c.parts };

    ghost room = { λ c. ⟦<PartViews<'a> as Column>⟧.room c.parts };
}

impl<'a> Len for OutcomeView<'a> {
    fn len(&self) -> usize {
        self.parts.len()
    }
}

impl<'a> Index for OutcomeView<'a> {
    type Ref = OwnRow<<PartViews<'a> as Index>::Ref, Outcome>;

    fn get(&self, index: usize) -> Self::Ref {
        OwnRow::new(self.parts.get(index))
    }
}

impl<'a: 'b, 'b> Reborrow<'b> for OutcomeView<'a> {
    ghost use Rattle.std.specs.Prelude.{refl};

    type Short = OutcomeView<'b>;

    ghost same_short = { refl };

    fn reborrow(self) -> Self::Short {
        let parts = self.parts.reborrow();
        OutcomeView { parts }
    }
}

impl<'a> Stored for OutcomeView<'a> {
    ghost use Rattle.std.specs.Prelude.{◌≡◌, ◌+◌, ◌*◌, ◌≤◌, ◌++◌, IsTrue, length, drop, OnOk, OnErr, IfErr};
    ghost use Rattle.columnar.specs.ColumnLaws.{counted_columns, storable_columns};
    ghost use Rattle.columnar.specs.Faults.{verdict};
    ghost use Rattle.columnar.specs.Format.{Fits, bytes_held, first, moved, representable};
    ghost use Rattle.columnar.specs.Store.{slices_in};

    ghost storable = { Prim.search storable_columns depth 64 fits 10000 };

    ghost counted = { λ c. Prim.search counted_columns depth 64 fits 10000 };

    fn slice_count() -> usize
        requires { IsTrue (representable ⟦<OutcomeView<'a> as Column>⟧.format) }
        ensures { result ≡ ⟦<OutcomeView<'a> as Column>⟧.format.count }
    {
        PartViews::slice_count()
    }

    fn element_sizes(sizes: &mut Vec<usize>) -> Result<(), GrowError>
        requires { IsTrue (representable ⟦<OutcomeView<'a> as Column>⟧.format) }
        ensures ok { OnOk result (sizes.new.items ≡ sizes.old.items ++ ⟦<OutcomeView<'a> as Column>⟧.format.sizes) }
        ensures err { OnErr result (sizes.new.items ≡ sizes.old.items) }
        ensures memory { IfErr result (λ e. e ≡ GrowError.Memory) }
    {
        PartViews::element_sizes(sizes)
    }

    fn judge_tallied<L>(
        store: &DecodedStore<'_>,
        offset: usize,
        tally: &mut Tally<L>,
    ) -> Result<(), StoreFault>
        requires representable { IsTrue (representable ⟦<OutcomeView<'a> as Column>⟧.format) }
        requires room { offset + ⟦<OutcomeView<'a> as Column>⟧.format.count ≤ length (slices_in store.now) }
        ensures exact { verdict result ≡ first (moved offset (⟦<OutcomeView<'a> as Column>⟧.format.broken (⟦<OutcomeView<'a> as Column>⟧.format.build (drop offset (slices_in store.now))))) }
        ensures turns { tally.new.turns ≤ tally.old.turns + ⟦<OutcomeView<'a> as Column>⟧.format.turns * bytes_held (⟦<OutcomeView<'a> as Column>⟧.format.build (drop offset (slices_in store.now))) }
    {
        PartViews::judge_tallied(store, offset, tally)
    }

    fn rows_in(store: &DecodedStore<'_>, offset: usize) -> usize
        requires representable { IsTrue (representable ⟦<OutcomeView<'a> as Column>⟧.format) }
        requires fits { Fits ⟦<OutcomeView<'a> as Column>⟧.format offset (slices_in store.now) }
        ensures { result ≡ length (⟦<OutcomeView<'a> as Column>⟧.format.rows (⟦<OutcomeView<'a> as Column>⟧.format.build (drop offset (slices_in store.now)))) }
    {
        PartViews::rows_in(store, offset)
    }
}

impl<'a> Check for OutcomeView<'a> {
    fn check_from_tallied<L>(&self, from: usize, tally: &mut Tally<L>) -> Result<(), StoreFault> {
        self.parts.check_from_tallied(from, tally)
    }
}

impl<'a> FromBytes<'a> for OutcomeView<'a> {
    fn from_store(store: &DecodedStore<'a>, offset: &mut usize) -> Self {
        let parts = PartViews::from_store(store, offset);
        Self { parts }
    }
}

impl<'a> AsBytes<'a> for OutcomeView<'a> {
    fn get_byte_slice(&self, index: usize) -> (u64, ByteSlice<'a>) {
        self.parts.get_byte_slice(index)
    }
}

impl Stored for OutcomeContainer {
    ghost use Rattle.columnar.specs.ColumnLaws.{counted_columns, storable_columns};

    ghost storable = { Prim.search storable_columns depth 64 fits 10000 };

    ghost counted = { λ c. Prim.search counted_columns depth 64 fits 10000 };

    fn slice_count() -> usize {
        Parts::slice_count()
    }

    fn element_sizes(sizes: &mut Vec<usize>) -> Result<(), GrowError> {
        Parts::element_sizes(sizes)
    }

    fn judge_tallied<L>(
        store: &DecodedStore<'_>,
        offset: usize,
        tally: &mut Tally<L>,
    ) -> Result<(), StoreFault> {
        Parts::judge_tallied(store, offset, tally)
    }

    fn rows_in(store: &DecodedStore<'_>, offset: usize) -> usize {
        Parts::rows_in(store, offset)
    }
}

impl ContainerBytes for OutcomeContainer {
    fn byte_slice(&self, index: usize) -> ByteSlice<'_> {
        self.parts.byte_slice(index)
    }

    fn load(alloc: Global, store: &DecodedStore<'_>, offset: usize) -> Result<Self, GrowError> {
        let parts = Parts::load(alloc, store, offset)?;
        Ok(Self { parts })
    }
}

// The earlier form of the columns of the parts
type OldColumns = <Parts as Earlier>::Old;

/// A column of values of `Outcome` in its earlier form.
#[derive(Drop)]
pub struct OutcomeOld {
    /// The column of their parts.
    pub parts: OldColumns,
}

impl Column for OutcomeOld {
    ghost format = { ⟦<OldColumns as Column>⟧.format };

    ghost content = { λ c. ⟦<OldColumns as Column>⟧.content c.parts };

    ghost room = { λ c. ⟦<OldColumns as Column>⟧.room c.parts };
}

impl Stored for OutcomeOld {
    ghost use Rattle.columnar.specs.ColumnLaws.{counted_columns, storable_columns};

    ghost storable = { Prim.search storable_columns depth 64 fits 10000 };

    ghost counted = { λ c. Prim.search counted_columns depth 64 fits 10000 };

    fn slice_count() -> usize {
        OldColumns::slice_count()
    }

    fn element_sizes(sizes: &mut Vec<usize>) -> Result<(), GrowError> {
        OldColumns::element_sizes(sizes)
    }

    fn judge_tallied<L>(
        store: &DecodedStore<'_>,
        offset: usize,
        tally: &mut Tally<L>,
    ) -> Result<(), StoreFault> {
        OldColumns::judge_tallied(store, offset, tally)
    }

    fn rows_in(store: &DecodedStore<'_>, offset: usize) -> usize {
        OldColumns::rows_in(store, offset)
    }
}

impl ContainerBytes for OutcomeOld {
    fn byte_slice(&self, index: usize) -> ByteSlice<'_> {
        self.parts.byte_slice(index)
    }

    fn load(alloc: Global, store: &DecodedStore<'_>, offset: usize) -> Result<Self, GrowError> {
        let parts = OldColumns::load(alloc, store, offset)?;
        Ok(Self { parts })
    }
}

impl Earlier for OutcomeContainer {
    ghost use Rattle.columnar.specs.ColumnLaws.{earlier_columns};

    type Old = OutcomeOld;

    ghost earlier = { Prim.search earlier_columns depth 64 fits 10000 };

    fn from_old(alloc: Global, old: Self::Old) -> Result<Self, GrowError> {
        let parts = Parts::from_old(alloc, old.parts)?;
        Ok(Self { parts })
    }
}

impl SliceNames for OutcomeContainer {
    ghost names_at = { ⟦<OwnRows<Parts, Outcome> as SliceNames>⟧.names_at };

    fn push_names(alloc: Global, path: &str, names: &mut Vec<String>) -> Result<(), GrowError> {
        <OwnRows<Parts, Outcome>>::push_names(alloc, path, names)
    }
}

impl<T: PushParts<Parts, Outcome> + Drop> Push<T> for OutcomeContainer {
    fn push(&mut self, item: T) -> Result<(), GrowError> {
        self.push_ref(&item)
    }
}

impl<T: PushParts<Parts, Outcome>> PushRef<T> for OutcomeContainer {
    fn push_ref(&mut self, item: &T) -> Result<(), GrowError> {
        item.push_parts(&mut self.parts)
    }
}

impl<T: SameParts<Parts, Outcome>> SameAs<T> for OutcomeContainer {
    fn same(&self, at: usize, item: &T) -> bool {
        item.same_parts(&self.parts, at)
    }
}

impl<R: Item> SetRow<OwnRow<R, Outcome>> for OutcomeContainer
where
    Parts: SetRow<R>,
{
    ghost fits = { λ r item. ⟦<Parts as SetRow<R>>⟧.fits r item.parts };

    fn may_set(&self, index: usize, item: &OwnRow<R, Outcome>) -> bool {
        self.parts.may_set(index, &item.parts)
    }

    fn set_row(&mut self, index: usize, item: OwnRow<R, Outcome>) {
        self.parts.set_row(index, item.parts);
    }
}

impl<A, T: Item> SetItem<A, T> for OutcomeContainer
where
    Parts: SetItem<A, T>,
{
    ghost fits = { ⟦<Parts as SetItem<A, T>>⟧.fits };

    ghost put = { ⟦<Parts as SetItem<A, T>>⟧.put };

    fn may_set_item(&self, index: usize, at: A, item: &T) -> bool {
        self.parts.may_set_item(index, at, item)
    }

    fn set_item(&mut self, index: usize, at: A, item: T) {
        self.parts.set_item(index, at, item);
    }
}

impl<'a> IndexMut<'a> for OutcomeContainer {
    ghost use Rattle.std.specs.Prelude.{◌≡◌};

    type IndexMut = RowMut<'a, OutcomeContainer>;

    ghost lent = { λ s i r. (r.column.ghost_name ≡ s.ghost_name) × ((r.column.now ≡ s.now) × (r.index ≡ i)) };

    fn get_mut(&'a mut self, index: usize) -> Self::IndexMut {
        RowMut::new(self, index)
    }

    fn last_mut(&'a mut self) -> Option<Self::IndexMut> {
        let count = self.len();
        if count == 0 {
            None
        } else {
            Some(RowMut::new(self, count - 1))
        }
    }
}
// What a row is read as
type Rows<A, B, C> = Nth<A, Nth<B, Nth<(), Last<C>>>>;

/// What stands for a value of `Outcome` in a column.
#[derive(Clone, Copy, Debug)]
pub enum OutcomeReference<A, B, C> {
    Ok(A),
    Failed(B),
    Timeout,
    Retried(C),
}

impl Item for Outcome {
    ghost use Rattle.columnar.specs.Row.{Row, unit};
    ghost use Rattle.columnar.specs.Variants.{case};
    ghost use Rattle.nest_tests.specs.declared.outcome.Outcome.TheVariants.{Ok, Failed, Timeout, Retried};

    ghost meaning = { λ s. elim s as (λ v. Row) [ Ok a ↦ case 0 (⟦<u64 as Item>⟧.meaning a) | Failed a ↦ case 1 (⟦<String as Item>⟧.meaning a) | Timeout ↦ case 2 unit | Retried a b ↦ case 3 (⟦<ValueOfRetried as Item>⟧.meaning (a, b)) ] };

    ghost valid = { λ s. elim s as (λ v. Type 0) [ Ok a ↦ ⟦<u64 as Item>⟧.valid a | Failed a ↦ ⟦<String as Item>⟧.valid a | Timeout ↦ Unit {0} | Retried a b ↦ ⟦<ValueOfRetried as Item>⟧.valid (a, b) ] };

    ghost unbuffered = { ⟦<Rows<u64, String, ValueOfRetried> as Item>⟧.unbuffered };
}

impl<A: Item, B: Item, C: Item> Item for OutcomeReference<A, B, C> {
    ghost use Rattle.columnar.specs.Row.{Row, unit};
    ghost use Rattle.columnar.specs.Variants.{case};
    ghost use Rattle.nest_tests.specs.declared.outcome.rows.OutcomeReference.TheVariants.{Ok, Failed, Timeout, Retried};

    ghost meaning = { λ s. elim s as (λ v. Row) [ Ok a ↦ case 0 (A.meaning a) | Failed a ↦ case 1 (B.meaning a) | Timeout ↦ case 2 unit | Retried a ↦ case 3 (C.meaning a) ] };

    ghost valid = { λ s. elim s as (λ v. Type 0) [ Ok a ↦ A.valid a | Failed a ↦ B.valid a | Timeout ↦ Unit {0} | Retried a ↦ C.valid a ] };

    ghost unbuffered = { ⟦<Rows<A, B, C> as Item>⟧.unbuffered };
}

impl<A: Item, B: Item, C: Item> MakeRow<Rows<A, B, C>> for Outcome {
    type Row = OutcomeReference<A, B, C>;

    fn make_row(row: Rows<A, B, C>) -> Self::Row {
        let row = match row {
            Nth::This(a) => return OutcomeReference::Ok(a),
            Nth::Next(row) => row,
        };
        let row = match row {
            Nth::This(a) => return OutcomeReference::Failed(a),
            Nth::Next(row) => row,
        };
        let row = match row {
            Nth::This(()) => return OutcomeReference::Timeout,
            Nth::Next(row) => row,
        };
        let Last(a) = row;
        OutcomeReference::Retried(a)
    }
}

// What they are made of, lent
type LentOfRetried<'x> = (&'x u32, &'x u64);

// A value, lent
type Lent<'x> = OutcomeReference<&'x u64, &'x String, LentOfRetried<'x>>;

impl<'x> LendRow<'x> for Outcome {
    type Lent = Lent<'x>;

    fn lend_row(&'x self) -> Self::Lent {
        match self {
            Outcome::Ok(a) => OutcomeReference::Ok(a),
            Outcome::Failed(a) => OutcomeReference::Failed(a),
            Outcome::Timeout => OutcomeReference::Timeout,
            Outcome::Retried(a, b) => OutcomeReference::Retried((a, b)),
        }
    }
}

impl PushParts<Parts, Outcome> for Outcome {
    fn push_parts(&self, parts: &mut Parts) -> Result<(), GrowError> {
        self.push_lent::<Parts, Outcome>(parts)
    }
}

impl<A: Copy + Item, B: Copy + Item, C: Copy + Item, P: Push<Rows<A, B, C>>> PushParts<P, Outcome>
    for OutcomeReference<A, B, C> {
    fn push_parts(&self, parts: &mut P) -> Result<(), GrowError> {
        match *self {
            OutcomeReference::Ok(a) => parts.push(Nth::This(a)),
            OutcomeReference::Failed(a) => parts.push(Nth::Next(Nth::This(a))),
            OutcomeReference::Timeout => parts.push(Nth::Next(Nth::Next(Nth::This(())))),
            OutcomeReference::Retried(a) => parts.push(Nth::Next(Nth::Next(Nth::Next(Last(a))))),
        }
    }
}

impl PartNames for Outcome {
    ghost use Rattle.std.specs.Prelude.{[], ◌∷◌, codes};
    ghost use Rattle.columnar.specs.Names.{name_at};

    ghost name_of = { name_at (codes "Ok" ∷ codes "Failed" ∷ codes "Timeout" ∷ codes "Retried" ∷ []) };

    fn part_name(index: usize) -> &'static str {
        name_in(&["Ok", "Failed", "Timeout", "Retried"], index)
    }
}

impl Columnar for Outcome {
    ghost use Rattle.std.specs.Prelude.{◌||◌};
    ghost use Rattle.columnar.specs.Variants.{of_variant};

    ghost unfit = { λ u r. of_variant 0 (⟦<u64 as Columnar>⟧.unfit u) r || (of_variant 1 (⟦<String as Columnar>⟧.unfit u) r || (of_variant 3 (⟦<ValueOfRetried as Columnar>⟧.unfit u) r)) };

    type Container = OutcomeContainer;
}

impl<A: Item, B: Item, C: Item> FromRow<OwnRow<Rows<A, B, C>, Outcome>> for Outcome
where
    u64: FromRow<A>,
    String: FromRow<B>,
    ValueOfRetried: FromRow<C>,
{
    fn from_row(alloc: Global, row: OwnRow<Rows<A, B, C>, Outcome>) -> Result<Self, OwnError> {
        match row.show() {
            OutcomeReference::Ok(a) => {
                let a = <u64>::from_row(alloc, a)?;
                Ok(Outcome::Ok(a))
            }
            OutcomeReference::Failed(a) => {
                let a = <String>::from_row(alloc, a)?;
                Ok(Outcome::Failed(a))
            }
            OutcomeReference::Timeout => Ok(Outcome::Timeout),
            OutcomeReference::Retried(a) => {
                let a = <ValueOfRetried>::from_row(alloc, a)?;
                let (a, b) = a;
                Ok(Outcome::Retried(a, b))
            }
        }
    }
}

// The places of the variants
type AtOk = columnar::sums::variants::Zero;

type AtFailed = columnar::sums::variants::Next<AtOk>;

type AtTimeout = columnar::sums::variants::Next<AtFailed>;

type AtRetried = columnar::sums::variants::Next<AtTimeout>;

// The columns of each part in a view
type View0<'x> = <ContainerOf<u64> as Borrow<'x>>::Borrowed;

type View1<'x> = <ContainerOf<String> as Borrow<'x>>::Borrowed;

type View2<'x> = <ContainerOf<()> as Borrow<'x>>::Borrowed;

type View3<'x> = <ContainerOf<ValueOfRetried> as Borrow<'x>>::Borrowed;

/// The values of each variant of `Outcome` in a view, by name.
pub trait OutcomeColumns<A: Column, B: Column, C: Column, D: Column>: Column {
    ghost use Rattle.std.specs.Prelude.{◌≡◌};
    ghost use Rattle.columnar.specs.Format.{IsSound};
    ghost use Rattle.columnar.specs.Variants.{of_case};

    /// Returns the values of `Ok`.
    ///
    /// # Requires
    /// A well-formed view.
    fn ok(self) -> A
        requires { IsSound Self.format (Self.content self) }
        ensures sound { IsSound A.format (A.content result) }
        ensures rows { A.format.rows (A.content result) ≡ of_case 0 (Self.format.rows (Self.content self)) };

    /// Returns the values of `Failed`.
    ///
    /// # Requires
    /// A well-formed view.
    fn failed(self) -> B
        requires { IsSound Self.format (Self.content self) }
        ensures sound { IsSound B.format (B.content result) }
        ensures rows { B.format.rows (B.content result) ≡ of_case 1 (Self.format.rows (Self.content self)) };

    /// Returns the values of `Timeout`.
    ///
    /// # Requires
    /// A well-formed view.
    fn timeout(self) -> C
        requires { IsSound Self.format (Self.content self) }
        ensures sound { IsSound C.format (C.content result) }
        ensures rows { C.format.rows (C.content result) ≡ of_case 2 (Self.format.rows (Self.content self)) };

    /// Returns the values of `Retried`.
    ///
    /// # Requires
    /// A well-formed view.
    fn retried(self) -> D
        requires { IsSound Self.format (Self.content self) }
        ensures sound { IsSound D.format (D.content result) }
        ensures rows { D.format.rows (D.content result) ≡ of_case 3 (Self.format.rows (Self.content self)) };
}

impl<'x> OutcomeColumns<View0<'x>, View1<'x>, View2<'x>, View3<'x>> for OutcomeView<'x> {
    fn ok(self) -> View0<'x> {
        values_at::<AtOk, _, _, _>(self.parts)
    }

    fn failed(self) -> View1<'x> {
        values_at::<AtFailed, _, _, _>(self.parts)
    }

    fn timeout(self) -> View2<'x> {
        values_at::<AtTimeout, _, _, _>(self.parts)
    }

    fn retried(self) -> View3<'x> {
        values_at::<AtRetried, _, _, _>(self.parts)
    }
}

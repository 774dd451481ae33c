//! Boxed rows: a column of boxes has the slices and the rows of the column of the boxed values.
ghost use Rattle.std.specs.Prelude.{◌≡◌};
ghost use Rattle.std.specs.Borrow.{sem, Lends};
ghost use Rattle.columnar_base.specs.Format.{IsSound};
ghost use Rattle.columnar_core.specs.contracts.boxed.Boxed.{the_row};

use crate::byte_slice::ByteSlice;
use crate::bytes::{AsBytes, Check, FromBytes, Stored};
use crate::container::{
    Borrow, Container, ContainerBytes, ExtendFrom, Reborrow, ReborrowRef, Reserve, Storage,
    Truncate,
};
use crate::store::DecodedStore;
use columnar_base::fault::{GrowError, StoreFault};
use columnar_base::tally::Tally;
use columnar_base::traits::{Clear, Column, Index, Item, Len, Push, PushRef};
use columnar_rows::ordered::OrderedRow;
use std::alloc::Global;
use std::cmp::Ordering;
use std::hash::Hasher;
use std::ops::{Deref, DerefMut, Range};

/// A column of boxed rows over the column of the rows; also a view of one, or a row of it.
#[derive(Clone, Copy, Debug, PartialEq, Eq, Drop)]
pub struct Boxed<T>(pub T);

/// Its row is that of the value inside.
impl<R: Item> Item for Boxed<R> {
    ghost meaning = { λ b. R.meaning b.0 };

    ghost valid = { λ b. R.valid b.0 };

    ghost unbuffered = { R.unbuffered };
}

impl<R: OrderedRow> OrderedRow for Boxed<R> {
    ghost row_input = { R.row_input };

    fn same_row(&self, other: &Self) -> bool {
        self.0.same_row(&other.0)
    }

    fn compare_row(&self, other: &Self) -> Ordering {
        self.0.compare_row(&other.0)
    }

    fn hash_row<H: Hasher>(&self, state: &mut H) {
        self.0.hash_row(state);
    }
}

impl<T> Deref for Boxed<T> {
    type Target = T;

    ghost deref_gives = { λ b x. x ≡ b.0 };

    fn deref(&self) -> &T {
        &self.0
    }
}

impl<T> DerefMut for Boxed<T> {
    ghost deref_mut_gives = { λ b x. x ≡ b.0 };

    /// Lends the inner value mutably; writes to it change the inner value.
    fn deref_mut(&mut self) -> &mut T
        ensures* writes_back { sem 𝓛 (Lends (the_row T.row) T.row self.entry result (λ x. record { 0 = x })) }
        ensures value { result.now ≡ self.old.0 }
    {
        &mut self.0
    }
}

impl<C: Column> Column for Boxed<C> {
    ghost format = { C.format };

    ghost content = { λ b. C.content b.0 };

    ghost room = { λ b. C.room b.0 };
}

impl<C: Column> Boxed<C> {
    /// Returns the column of the boxed values, with the same rows.
    ///
    /// # Requires
    /// A well-formed column.
    pub fn into_inner(self) -> C
        requires { IsSound C.format (C.content self.0) }
        ensures sound { IsSound C.format (C.content result) }
        ensures inner { result ≡ self.0 }
    {
        self.0
    }
}

impl<C: Len> Len for Boxed<C> {
    fn len(&self) -> usize {
        self.0.len()
    }
}

impl<C: Index> Index for Boxed<C> {
    type Ref = Boxed<C::Ref>;

    fn get(&self, index: usize) -> Boxed<C::Ref> {
        Boxed(self.0.get(index))
    }
}

/// Reads rows through a reference, as the inner column does.
impl<'x, C: Column> Index for &'x Boxed<C>
where
    &'x C: Index,
{
    type Ref = Boxed<<&'x C as Index>::Ref>;

    fn get(&self, index: usize) -> Boxed<<&'x C as Index>::Ref> {
        let column: &'x Boxed<C> = *self;
        let inner: &'x C = &column.0;
        Boxed(inner.get(index))
    }
}

impl<C: Clear> Clear for Boxed<C> {
    fn clear(&mut self) {
        self.0.clear();
    }
}

/// Takes boxed rows, as reads of the column return them.
impl<R: Item, C: Push<R>> Push<Boxed<R>> for Boxed<C> {
    #[inline]
    fn push(&mut self, item: Boxed<R>) -> Result<(), GrowError> {
        self.0.push(item.0)
    }
}

/// Takes a value in a standard box.
impl<'x, T: Item, C: PushRef<T>> Push<&'x Box<T>> for Boxed<C> {
    #[inline]
    fn push(&mut self, item: &'x Box<T>) -> Result<(), GrowError> {
        self.push_ref(item)
    }
}

/// Takes a value in a standard box.
impl<T: Item, C: PushRef<T>> PushRef<Box<T>> for Boxed<C> {
    #[inline]
    fn push_ref(&mut self, item: &Box<T>) -> Result<(), GrowError> {
        self.0.push_ref(&**item)
    }
}

impl<C: Truncate> Truncate for Boxed<C> {
    ghost lawful = { C.lawful };

    fn truncate(&mut self, n: usize) {
        self.0.truncate(n);
    }
}

impl<C: Storage> Storage for Boxed<C> {
    fn empty(alloc: Global) -> Self {
        Boxed(C::empty(alloc))
    }

    fn duplicate(&self, alloc: Global) -> Result<Self, GrowError> {
        Ok(Boxed(self.0.duplicate(alloc)?))
    }
}

impl<C: Reserve> Reserve for Boxed<C> {
    type Room = C::Room;

    ghost reserves = { C.reserves };

    ghost covers = { C.covers };

    fn no_room() -> C::Room {
        C::no_room()
    }

    fn reserve_room(&mut self, room: C::Room) -> Result<(), GrowError> {
        self.0.reserve_room(room)
    }
}

impl<V: Column + Copy, C: ExtendFrom<V>> ExtendFrom<Boxed<V>> for Boxed<C> {
    fn add_room(room: C::Room, view: Boxed<V>) -> C::Room {
        C::add_room(room, view.0)
    }

    fn extend_from_self(&mut self, view: Boxed<V>, range: Range<usize>) -> Result<(), GrowError> {
        self.0.extend_from_self(view.0, range)
    }
}

impl<'a, C: Borrow<'a>> Borrow<'a> for Boxed<C> {
    type Ref = Boxed<C::Ref>;

    type Borrowed = Boxed<C::Borrowed>;

    type Parts = C::Parts;

    ghost same_format = { C.same_format };

    fn borrow(&'a self) -> Boxed<C::Borrowed> {
        Boxed(self.0.borrow())
    }
}

impl<'a, C: Container<'a>> Container<'a> for Boxed<C> {}

impl<'b, C: Reborrow<'b>> Reborrow<'b> for Boxed<C> {
    type Short = Boxed<C::Short>;

    ghost same_short = { C.same_short };

    fn reborrow(self) -> Boxed<C::Short> {
        Boxed(self.0.reborrow())
    }
}

impl<'b, R: ReborrowRef<'b>> ReborrowRef<'b> for Boxed<R> {
    type ShortRef = Boxed<R::ShortRef>;

    fn reborrow_ref(self) -> Boxed<R::ShortRef> {
        Boxed(self.0.reborrow_ref())
    }
}

impl<C: Stored> Stored for Boxed<C> {
    ghost storable = { C.storable };

    ghost counted = { λ b. C.counted b.0 };

    fn slice_count() -> usize {
        C::slice_count()
    }

    fn element_sizes(sizes: &mut Vec<usize>) -> Result<(), GrowError> {
        C::element_sizes(sizes)
    }

    fn judge_tallied<L>(
        store: &DecodedStore<'_>,
        offset: usize,
        tally: &mut Tally<L>,
    ) -> Result<(), StoreFault> {
        C::judge_tallied(store, offset, tally)
    }

    fn rows_in(store: &DecodedStore<'_>, offset: usize) -> usize {
        C::rows_in(store, offset)
    }
}

impl<C: Check> Check for Boxed<C> {
    fn check_from_tallied<L>(&self, from: usize, tally: &mut Tally<L>) -> Result<(), StoreFault> {
        self.0.check_from_tallied(from, tally)
    }
}

impl<'s, C: FromBytes<'s>> FromBytes<'s> for Boxed<C> {
    fn from_store(store: &DecodedStore<'s>, offset: &mut usize) -> Self {
        Boxed(C::from_store(store, offset))
    }
}

impl<'s, C: AsBytes<'s>> AsBytes<'s> for Boxed<C> {
    fn get_byte_slice(&self, index: usize) -> (u64, ByteSlice<'s>) {
        self.0.get_byte_slice(index)
    }
}

impl<C: ContainerBytes> ContainerBytes for Boxed<C> {
    fn byte_slice(&self, index: usize) -> ByteSlice<'_> {
        self.0.byte_slice(index)
    }

    fn load(alloc: Global, store: &DecodedStore<'_>, offset: usize) -> Result<Self, GrowError> {
        Ok(Boxed(C::load(alloc, store, offset)?))
    }
}

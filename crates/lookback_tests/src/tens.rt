// Your own column whose relation of equal rows is not equality: numbers are the same if their last decimal digits are.
// It is a struct around a column of numbers, with its slices and rows.
ghost use Rattle.columnar_base.specs.ElementLaws.{elements_lawful};
ghost use Rattle.lookback_tests.specs.Tens.{kinned, same_digit};
ghost use Rattle.lookback_tests.specs.TensLaws.{kinned_lawful, kinned_storable, same_kinned, same_digit_same, same_digit_equal};

mod lookbacks;
mod refused;
mod runs;

use columnar_base::fault::{GrowError, StoreFault};
use columnar_base::tally::Tally;
use columnar_base::traits::{Clear, Column, Index, Item, Len, Push};
use columnar_base::view::View;
use columnar_core::byte_slice::ByteSlice;
use columnar_core::bytes::{AsBytes, Check, FromBytes, Stored};
use columnar_core::container::{
    Borrow, Container, ContainerBytes, ExtendFrom, Reborrow, Reserve, Storage, Truncate,
};
use columnar_core::store::DecodedStore;
use columnar_lookback::same::SameAs;
use std::alloc::Global;
use std::ops::Range;

/// Numbers, the same if their last decimal digits are: an owned column, or a view.
#[derive(Clone, Copy, PartialEq, Drop)]
pub struct Tens<C> {
    /// The numbers.
    pub numbers: C,
}

impl<C: Column> Column for Tens<C> {
    ghost format = { kinned same_digit C.format };

    ghost content = { λ t. C.content t.numbers };

    ghost room = { λ t. C.room t.numbers };
}

impl<C: Len> Len for Tens<C> {
    fn len(&self) -> usize {
        self.numbers.len()
    }
}

impl<C: Index> Index for Tens<C> {
    type Ref = C::Ref;

    fn get(&self, index: usize) -> C::Ref {
        self.numbers.get(index)
    }
}

impl<C: Clear> Clear for Tens<C> {
    fn clear(&mut self) {
        self.numbers.clear();
    }
}

impl<T: Item, C: Push<T>> Push<T> for Tens<C> {
    fn push(&mut self, item: T) -> Result<(), GrowError> {
        self.numbers.push(item)
    }
}

impl Truncate for Tens<Vec<u64>> {
    ghost lawful = { kinned_lawful same_digit _ (elements_lawful _ _ _) same_digit_same same_digit_equal };

    fn truncate(&mut self, n: usize) {
        Truncate::truncate(&mut self.numbers, n);
    }
}

impl Storage for Tens<Vec<u64>> {
    fn empty(alloc: Global) -> Self {
        let numbers = <Vec<u64> as Storage>::empty(alloc);
        Tens { numbers }
    }

    fn duplicate(&self, alloc: Global) -> Result<Self, GrowError> {
        let numbers = self.numbers.duplicate(alloc)?;
        Ok(Tens { numbers })
    }
}

impl<C: Reserve> Reserve for Tens<C> {
    type Room = C::Room;

    ghost reserves = { C.reserves };

    ghost covers = { C.covers };

    fn no_room() -> C::Room {
        C::no_room()
    }

    fn reserve_room(&mut self, room: C::Room) -> Result<(), GrowError> {
        self.numbers.reserve_room(room)
    }
}

impl<'x> ExtendFrom<Tens<View<'x, u64>>> for Tens<Vec<u64>> {
    fn add_room(room: usize, view: Tens<View<'x, u64>>) -> usize {
        <Vec<u64> as ExtendFrom<View<'x, u64>>>::add_room(room, view.numbers)
    }

    fn extend_from_self(
        &mut self,
        view: Tens<View<'x, u64>>,
        range: Range<usize>,
    ) -> Result<(), GrowError> {
        self.numbers.extend_from_self(view.numbers, range)
    }
}

impl<'a, C: Borrow<'a>> Borrow<'a> for Tens<C> {
    type Ref = C::Ref;

    type Borrowed = Tens<C::Borrowed>;

    type Parts = C::Parts;

    ghost same_format = { same_kinned same_digit C.same_format };

    fn borrow(&'a self) -> Tens<C::Borrowed> {
        let numbers = self.numbers.borrow();
        Tens { numbers }
    }
}

impl<'a> Container<'a> for Tens<Vec<u64>> {}

impl<'b, V: Reborrow<'b>> Reborrow<'b> for Tens<V> {
    type Short = Tens<V::Short>;

    ghost same_short = { same_kinned same_digit V.same_short };

    fn reborrow(self) -> Tens<V::Short> {
        let Tens { numbers } = self;
        Tens {
            numbers: numbers.reborrow(),
        }
    }
}

impl<C: Stored> Stored for Tens<C> {
    ghost storable = { kinned_storable same_digit C.format C.storable };

    ghost counted = { λ t. C.counted t.numbers };

    fn slice_count() -> usize {
        C::slice_count()
    }

    fn element_sizes(sizes: &mut Vec<usize>) -> Result<(), GrowError> {
        C::element_sizes(sizes)
    }

    fn judge_tallied<L>(
        store: &DecodedStore<'_>,
        offset: usize,
        tally: &mut Tally<L>,
    ) -> Result<(), StoreFault> {
        C::judge_tallied(store, offset, tally)
    }

    fn rows_in(store: &DecodedStore<'_>, offset: usize) -> usize {
        C::rows_in(store, offset)
    }
}

impl<C: Check> Check for Tens<C> {
    fn check_from_tallied<L>(&self, from: usize, tally: &mut Tally<L>) -> Result<(), StoreFault> {
        self.numbers.check_from_tallied(from, tally)
    }
}

impl<'s, C: FromBytes<'s>> FromBytes<'s> for Tens<C> {
    fn from_store(store: &DecodedStore<'s>, offset: &mut usize) -> Self {
        let numbers = C::from_store(store, offset);
        Tens { numbers }
    }
}

impl<'s, C: AsBytes<'s>> AsBytes<'s> for Tens<C> {
    fn get_byte_slice(&self, index: usize) -> (u64, ByteSlice<'s>) {
        self.numbers.get_byte_slice(index)
    }
}

impl ContainerBytes for Tens<Vec<u64>> {
    fn byte_slice(&self, index: usize) -> ByteSlice<'_> {
        self.numbers.byte_slice(index)
    }

    fn load(alloc: Global, store: &DecodedStore<'_>, offset: usize) -> Result<Self, GrowError> {
        let numbers = <Vec<u64> as ContainerBytes>::load(alloc, store, offset)?;
        Ok(Tens { numbers })
    }
}

impl SameAs<u64> for Tens<Vec<u64>> {
    fn same(&self, at: usize, item: &u64) -> bool {
        Index::get(&self.numbers, at) % 10 == *item % 10
    }
}

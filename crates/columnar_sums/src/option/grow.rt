//! Growth and truncation of columns of options.
ghost use Rattle.columnar_sums.specs.OptionLaws.{options_lawful, same_options};
ghost use Rattle.columnar_core.specs.Room.{up_to_count};
ghost use Rattle.columnar_sums.specs.Rooms.{options_room};

use super::Options;
use crate::marked::{push_marked, push_ref_marked};
use crate::rank_select::RankSelect;
use columnar_core::container::{
    Borrow, Container, ExtendFrom, Reborrow, Reserve, Storage, Truncate,
};
use columnar_core::fault::GrowError;
use columnar_core::traits::{Clear, Column, Item, Len, Push, PushRef};
use columnar_core::view::View;
use std::alloc::Global;
use std::ops::Range;

type Held = RankSelect<Vec<u64>, Vec<u64>, [u64; 2]>;

type Viewed<'a> = RankSelect<View<'a, u64>, View<'a, u64>, View<'a, u64>>;

impl<TC: Clear> Clear for Options<TC, Vec<u64>, Vec<u64>, [u64; 2]> {
    fn clear(&mut self) {
        self.indexes.clear();
        self.somes.clear();
    }
}

impl<TC: Truncate> Truncate for Options<TC, Vec<u64>, Vec<u64>, [u64; 2]> {
    ghost lawful = { options_lawful TC.format TC.lawful };

    fn truncate(&mut self, n: usize) {
        let values = self.indexes.rank(n);
        self.somes.truncate(values);
        self.indexes.truncate(n);
    }
}

impl<TC: Storage> Storage for Options<TC, Vec<u64>, Vec<u64>, [u64; 2]> {
    fn empty(alloc: Global) -> Self {
        let indexes = <Held as Storage>::empty(alloc);
        let somes = TC::empty(alloc);
        Options { indexes, somes }
    }

    fn duplicate(&self, alloc: Global) -> Result<Self, GrowError> {
        let indexes = self.indexes.duplicate(alloc)?;
        let somes = self.somes.duplicate(alloc)?;
        Ok(Options { indexes, somes })
    }
}

impl<TC: Reserve> Reserve for Options<TC, Vec<u64>, Vec<u64>, [u64; 2]> {
    type Room = (<Held as Reserve>::Room, TC::Room);

    ghost reserves = { TC.reserves };

    ghost covers = { λ r. options_room (up_to_count r.0) (TC.covers r.1) };

    fn no_room() -> (<Held as Reserve>::Room, TC::Room) {
        (<Held as Reserve>::no_room(), TC::no_room())
    }

    fn reserve_room(&mut self, room: (<Held as Reserve>::Room, TC::Room)) -> Result<(), GrowError> {
        self.indexes.reserve_room(room.0)?;
        self.somes.reserve_room(room.1)
    }
}

/// The value is pushed first, then its bit. If the push of the bit fails, the value is removed again.
impl<T: Item, TC: Truncate + Push<T>> Push<Option<T>>
    for Options<TC, Vec<u64>, Vec<u64>, [u64; 2]> {
    #[inline(always)]
    fn push(&mut self, item: Option<T>) -> Result<(), GrowError> {
        match item {
            Some(value) => push_marked(&mut self.somes, value, &mut self.indexes, true),
            None => Push::<bool>::push(&mut self.indexes, false),
        }
    }
}

/// The item's value is pushed by reference.
impl<'x, T: Item, TC: Truncate + PushRef<T>> Push<&'x Option<T>>
    for Options<TC, Vec<u64>, Vec<u64>, [u64; 2]> {
    #[inline(always)]
    fn push(&mut self, item: &'x Option<T>) -> Result<(), GrowError> {
        self.push_ref(item)
    }
}

impl<T: Item, TC: Truncate + PushRef<T>> PushRef<Option<T>>
    for Options<TC, Vec<u64>, Vec<u64>, [u64; 2]> {
    #[inline(always)]
    fn push_ref(&mut self, item: &Option<T>) -> Result<(), GrowError> {
        match item {
            Some(value) => push_ref_marked(&mut self.somes, value, &mut self.indexes, true),
            None => Push::<bool>::push(&mut self.indexes, false),
        }
    }
}

/// The values of the range lie between the ranks of its ends. They are copied first, then the bits. If either copy
/// fails, both columns keep their old rows.
impl<'x, V: Column + Copy, TC: ExtendFrom<V>> ExtendFrom<
    Options<V, View<'x, u64>, View<'x, u64>, View<'x, u64>>,
> for Options<TC, Vec<u64>, Vec<u64>, [u64; 2]> {
    fn add_room(
        room: (<Held as Reserve>::Room, TC::Room),
        view: Options<V, View<'x, u64>, View<'x, u64>, View<'x, u64>>,
    ) -> (<Held as Reserve>::Room, TC::Room) {
        (
            <Held as ExtendFrom<Viewed<'x>>>::add_room(room.0, view.indexes),
            TC::add_room(room.1, view.somes),
        )
    }

    fn extend_from_self(
        &mut self,
        view: Options<V, View<'x, u64>, View<'x, u64>, View<'x, u64>>,
        range: Range<usize>,
    ) -> Result<(), GrowError> {
        let taken = self.somes.len();
        let start = range.start;
        let end = range.end;
        let first = view.indexes.rank(start);
        let last = view.indexes.rank(end);
        self.somes.extend_from_self(view.somes, first..last)?;
        match self.indexes.extend_from_self(view.indexes, start..end) {
            Ok(()) => Ok(()),
            Err(error) => {
                self.somes.truncate(taken);
                Err(error)
            }
        }
    }
}

impl<'a, TC: Borrow<'a>> Borrow<'a> for Options<TC, Vec<u64>, Vec<u64>, [u64; 2]> {
    type Ref = Option<TC::Ref>;

    type Borrowed = Options<TC::Borrowed, View<'a, u64>, View<'a, u64>, View<'a, u64>>;

    type Parts = TC::Parts;

    ghost same_format = { same_options TC.same_format };

    fn borrow(&'a self) -> Options<TC::Borrowed, View<'a, u64>, View<'a, u64>, View<'a, u64>> {
        let indexes = self.indexes.borrow();
        let somes = self.somes.borrow();
        Options { indexes, somes }
    }
}

impl<'a, TC: Container<'a>> Container<'a> for Options<TC, Vec<u64>, Vec<u64>, [u64; 2]> {}

impl<'a, 'b, V: Reborrow<'b>> Reborrow<'b>
    for Options<V, View<'a, u64>, View<'a, u64>, View<'a, u64>>
where
    'a: 'b,
{
    type Short = Options<V::Short, View<'b, u64>, View<'b, u64>, View<'b, u64>>;

    ghost same_short = { same_options V.same_short };

    fn reborrow(self) -> Options<V::Short, View<'b, u64>, View<'b, u64>, View<'b, u64>> {
        let Options { indexes, somes } = self;
        Options {
            indexes: indexes.reborrow(),
            somes: somes.reborrow(),
        }
    }
}

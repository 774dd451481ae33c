//! Growth and truncation of columns of results.
ghost use Rattle.columnar_core.specs.Room.{up_to_count};
ghost use Rattle.columnar_sums.specs.Rooms.{results_room};
ghost use Rattle.columnar_sums.specs.ResultLaws.{results_lawful, same_results};

use super::Results;
use crate::marked::{push_marked, push_ref_marked};
use crate::rank_select::RankSelect;
use columnar_core::container::{
    Borrow, Container, ExtendFrom, Named, Reborrow, Reserve, Storage, Truncate,
};
use columnar_core::fault::GrowError;
use columnar_core::traits::{Clear, Column, Index, Item, Len, Push, PushInto, PushRef};
use columnar_core::view::View;
use std::alloc::Global;
use std::ops::Range;

type Held = RankSelect<Vec<u64>, Vec<u64>, [u64; 2]>;

type Viewed<'a> = RankSelect<View<'a, u64>, View<'a, u64>, View<'a, u64>>;

impl<SC: Clear, TC: Clear> Clear for Results<SC, TC, Vec<u64>, Vec<u64>, [u64; 2]> {
    fn clear(&mut self) {
        self.indexes.clear();
        self.oks.clear();
        self.errs.clear();
    }
}

impl<SC: Truncate, TC: Truncate> Truncate for Results<SC, TC, Vec<u64>, Vec<u64>, [u64; 2]> {
    ghost lawful = { results_lawful SC.format TC.format SC.lawful TC.lawful };

    fn truncate(&mut self, n: usize) {
        let oks = self.indexes.rank(n);
        self.oks.truncate(oks);
        self.errs.truncate(n - oks);
        self.indexes.truncate(n);
    }
}

impl<SC: Storage, TC: Storage> Storage for Results<SC, TC, Vec<u64>, Vec<u64>, [u64; 2]> {
    fn empty(alloc: Global) -> Self {
        let indexes = <Held as Storage>::empty(alloc);
        let oks = SC::empty(alloc);
        let errs = TC::empty(alloc);
        Results { indexes, oks, errs }
    }

    fn duplicate(&self, alloc: Global) -> Result<Self, GrowError> {
        let indexes = self.indexes.duplicate(alloc)?;
        let oks = self.oks.duplicate(alloc)?;
        let errs = self.errs.duplicate(alloc)?;
        Ok(Results { indexes, oks, errs })
    }
}

impl<SC: Reserve, TC: Reserve> Reserve for Results<SC, TC, Vec<u64>, Vec<u64>, [u64; 2]> {
    type Room = (<Held as Reserve>::Room, SC::Room, TC::Room);

    ghost reserves = { SC.reserves × TC.reserves };

    ghost covers = { λ r. results_room (up_to_count r.0) (SC.covers r.1) (TC.covers r.2) };

    fn no_room() -> (<Held as Reserve>::Room, SC::Room, TC::Room) {
        (<Held as Reserve>::no_room(), SC::no_room(), TC::no_room())
    }

    fn reserve_room(
        &mut self,
        room: (<Held as Reserve>::Room, SC::Room, TC::Room),
    ) -> Result<(), GrowError> {
        self.indexes.reserve_room(room.0)?;
        self.oks.reserve_room(room.1)?;
        self.errs.reserve_room(room.2)
    }
}

/// Results are pushed by value and by reference.
impl<P: PushInto<Results<SC, TC, Vec<u64>, Vec<u64>, [u64; 2]>>, SC: Column, TC: Column> Push<P>
    for Results<SC, TC, Vec<u64>, Vec<u64>, [u64; 2]> {
    fn push(&mut self, item: P) -> Result<(), GrowError> {
        item.push_into(self)
    }
}

/// The value or the error is pushed first, then its bit. If the push of the bit fails, the value or error is removed
/// again.
impl<S: Item, T: Item, SC: Truncate + Push<S>, TC: Truncate + Push<T>> PushInto<
    Results<SC, TC, Vec<u64>, Vec<u64>, [u64; 2]>,
> for Result<S, T> {
    fn push_into(
        self,
        column: &mut Results<SC, TC, Vec<u64>, Vec<u64>, [u64; 2]>,
    ) -> Result<(), GrowError> {
        match self {
            Ok(value) => push_marked(&mut column.oks, value, &mut column.indexes, true),
            Err(value) => push_marked(&mut column.errs, value, &mut column.indexes, false),
        }
    }
}

/// The item's value or error is pushed by reference.
impl<'x, S: Item, T: Item, SC: Truncate + PushRef<S>, TC: Truncate + PushRef<T>> PushInto<
    Results<SC, TC, Vec<u64>, Vec<u64>, [u64; 2]>,
> for &'x Result<S, T> {
    fn push_into(
        self,
        column: &mut Results<SC, TC, Vec<u64>, Vec<u64>, [u64; 2]>,
    ) -> Result<(), GrowError> {
        column.push_ref(self)
    }
}

impl<S: Item, T: Item, SC: Truncate + PushRef<S>, TC: Truncate + PushRef<T>> PushRef<Result<S, T>>
    for Results<SC, TC, Vec<u64>, Vec<u64>, [u64; 2]> {
    fn push_ref(&mut self, item: &Result<S, T>) -> Result<(), GrowError> {
        match item {
            Ok(value) => push_ref_marked(&mut self.oks, value, &mut self.indexes, true),
            Err(value) => push_ref_marked(&mut self.errs, value, &mut self.indexes, false),
        }
    }
}

/// The values of the range lie between the numbers of set bits before its ends, the errors between the numbers of clear
/// bits. They are copied first, then the bits. If a copy fails, all parts keep their old rows.
impl<'x, V: Column + Copy, W: Column + Copy, SC: ExtendFrom<V>, TC: ExtendFrom<W>> ExtendFrom<
    Results<V, W, View<'x, u64>, View<'x, u64>, View<'x, u64>>,
> for Results<SC, TC, Vec<u64>, Vec<u64>, [u64; 2]> {
    fn add_room(
        room: (<Held as Reserve>::Room, SC::Room, TC::Room),
        view: Results<V, W, View<'x, u64>, View<'x, u64>, View<'x, u64>>,
    ) -> (<Held as Reserve>::Room, SC::Room, TC::Room) {
        (
            <Held as ExtendFrom<Viewed<'x>>>::add_room(room.0, view.indexes),
            SC::add_room(room.1, view.oks),
            TC::add_room(room.2, view.errs),
        )
    }

    fn extend_from_self(
        &mut self,
        view: Results<V, W, View<'x, u64>, View<'x, u64>, View<'x, u64>>,
        range: Range<usize>,
    ) -> Result<(), GrowError> {
        let oks = self.oks.len();
        let errs = self.errs.len();
        let start = range.start;
        let end = range.end;
        let first = view.indexes.rank(start);
        let last = view.indexes.rank(end);
        self.oks.extend_from_self(view.oks, first..last)?;
        match self
            .errs
            .extend_from_self(view.errs, start - first..end - last)
        {
            Ok(()) => {}
            Err(error) => {
                self.oks.truncate(oks);
                return Err(error);
            }
        }
        match self.indexes.extend_from_self(view.indexes, start..end) {
            Ok(()) => Ok(()),
            Err(error) => {
                self.oks.truncate(oks);
                self.errs.truncate(errs);
                Err(error)
            }
        }
    }
}

impl<'a, SC: Borrow<'a>, TC: Borrow<'a>> Borrow<'a>
    for Results<SC, TC, Vec<u64>, Vec<u64>, [u64; 2]> {
    type Ref = Result<SC::Ref, TC::Ref>;

    type Borrowed = Results<
        SC::Borrowed,
        TC::Borrowed,
        View<'a, u64>,
        View<'a, u64>,
        View<'a, u64>,
    >;

    type Parts = Named<SC::Parts, TC::Parts>;

    ghost same_format = { same_results SC.same_format TC.same_format };

    fn borrow(
        &'a self,
    ) -> Results<SC::Borrowed, TC::Borrowed, View<'a, u64>, View<'a, u64>, View<'a, u64>> {
        let indexes = self.indexes.borrow();
        let oks = self.oks.borrow();
        let errs = self.errs.borrow();
        Results { indexes, oks, errs }
    }
}

impl<'a, SC: Container<'a>, TC: Container<'a>> Container<'a>
    for Results<SC, TC, Vec<u64>, Vec<u64>, [u64; 2]> {}

impl<'a, 'b, V: Reborrow<'b>, W: Reborrow<'b>> Reborrow<'b>
    for Results<V, W, View<'a, u64>, View<'a, u64>, View<'a, u64>>
where
    'a: 'b,
{
    type Short = Results<V::Short, W::Short, View<'b, u64>, View<'b, u64>, View<'b, u64>>;

    ghost same_short = { same_results V.same_short W.same_short };

    fn reborrow(self) -> Results<V::Short, W::Short, View<'b, u64>, View<'b, u64>, View<'b, u64>> {
        let Results { indexes, oks, errs } = self;
        Results {
            indexes: indexes.reborrow(),
            oks: oks.reborrow(),
            errs: errs.reborrow(),
        }
    }
}

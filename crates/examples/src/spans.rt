//! Your own container of two parts: spans, each a start and a length, in a column of starts and a column of lengths. It
//! is a struct around the pair of its parts, which is already proved, so each impl is the pair's and needs no proof
//! file. Its items are spans, and its bytes are those of the pair.
ghost use Rattle.columnar.specs.Row.{tuple};
ghost use Rattle.columnar.specs.Format.{both, slices_of};
ghost use Rattle.columnar.specs.Room.{pair_room};
ghost use Rattle.columnar.specs.Tuples.{pair_format};
ghost use Rattle.columnar.specs.TupleLaws.{pair_lawful, pair_storable, same_pair};
ghost use Rattle.columnar.specs.TwoPartsLaws.{two_counted};

use columnar::bytes::ByteSlice;
use columnar::bytes::indexed::DecodedStore;
use columnar::common::Tally;
use columnar::fault::{GrowError, StoreFault};
use columnar::{
    AsBytes, Borrow, Check, Clear, Column, Container, ContainerBytes, ExtendFrom, FromBytes, Index,
    Item, Len, Push, Reserve, Storage, Stored, Truncate,
};
use std::alloc::Global;
use std::ops::Range;

/// A start and a length.
#[derive(Clone, Copy, Debug, PartialEq, Eq)]
pub struct Span<S, L> {
    /// The start.
    pub start: S,
    /// The length.
    pub length: L,
}

/// As a row, it is the tuple of its start and its length.
impl<S: Item, L: Item> Item for Span<S, L> {
    ghost meaning = { λ s. tuple (S.meaning s.start) (L.meaning s.length) };

    ghost valid = { λ s. (S.valid s.start) × (L.valid s.length) };

    ghost unbuffered = { S.unbuffered × L.unbuffered };
}

/// A column of spans: owned, or a view.
#[derive(Clone, Copy, PartialEq, Drop)]
pub struct Spans<SC, LC> {
    // The starts and the lengths
    parts: (SC, LC),
}

impl<SC: Column, LC: Column> Column for Spans<SC, LC> {
    ghost format = { pair_format SC.format LC.format };

    ghost content = { λ s. both (SC.content s.parts.0) (LC.content s.parts.1) };

    ghost room = { λ s. pair_room (SC.room s.parts.0) (LC.room s.parts.1) };
}

impl<SC: Len, LC: Len> Len for Spans<SC, LC> {
    fn len(&self) -> usize {
        self.parts.len()
    }
}

impl<SC: Index, LC: Index> Index for Spans<SC, LC> {
    type Ref = Span<SC::Ref, LC::Ref>;

    fn get(&self, index: usize) -> Span<SC::Ref, LC::Ref> {
        let (start, length) = self.parts.get(index);
        Span { start, length }
    }
}

impl<SC: Clear, LC: Clear> Clear for Spans<SC, LC> {
    fn clear(&mut self) {
        self.parts.clear();
    }
}

/// Appends a span. On an error, both parts stay the same.
impl<S: Item, L: Item + Drop, SC: Truncate + Push<S>, LC: Push<L>> Push<Span<S, L>>
    for Spans<SC, LC> {
    fn push(&mut self, item: Span<S, L>) -> Result<(), GrowError> {
        self.parts.push((item.start, item.length))
    }
}

impl<SC: Truncate, LC: Truncate> Truncate for Spans<SC, LC> {
    ghost lawful = { pair_lawful SC.format LC.format SC.lawful LC.lawful };

    fn truncate(&mut self, n: usize) {
        self.parts.truncate(n);
    }
}

impl<SC: Storage, LC: Storage> Storage for Spans<SC, LC> {
    fn empty(alloc: Global) -> Self {
        let parts = <(SC, LC)>::empty(alloc);
        Spans { parts }
    }

    fn duplicate(&self, alloc: Global) -> Result<Self, GrowError> {
        let parts = self.parts.duplicate(alloc)?;
        Ok(Spans { parts })
    }
}

impl<SC: Reserve, LC: Reserve> Reserve for Spans<SC, LC> {
    type Room = (SC::Room, LC::Room);

    ghost reserves = { SC.reserves × LC.reserves };

    ghost covers = { λ r. pair_room (SC.covers r.0) (LC.covers r.1) };

    fn no_room() -> (SC::Room, LC::Room) {
        <(SC, LC)>::no_room()
    }

    fn reserve_room(&mut self, room: (SC::Room, LC::Room)) -> Result<(), GrowError> {
        self.parts.reserve_room(room)
    }
}

impl<V: Column + Copy, W: Column + Copy, SC: ExtendFrom<V>, LC: ExtendFrom<W>> ExtendFrom<
    Spans<V, W>,
> for Spans<SC, LC> {
    fn add_room(room: (SC::Room, LC::Room), view: Spans<V, W>) -> (SC::Room, LC::Room) {
        <(SC, LC)>::add_room(room, view.parts)
    }

    fn extend_from_self(
        &mut self,
        view: Spans<V, W>,
        range: Range<usize>,
    ) -> Result<(), GrowError> {
        self.parts.extend_from_self(view.parts, range)
    }
}

impl<'a, SC: Borrow<'a>, LC: Borrow<'a>> Borrow<'a> for Spans<SC, LC> {
    type Ref = Span<SC::Ref, LC::Ref>;

    type Borrowed = Spans<SC::Borrowed, LC::Borrowed>;

    type Parts = (SC::Parts, LC::Parts);

    ghost same_format = { same_pair SC.same_format LC.same_format };

    fn borrow(&'a self) -> Spans<SC::Borrowed, LC::Borrowed> {
        let parts = self.parts.borrow();
        Spans { parts }
    }
}

impl<'a, SC: Container<'a>, LC: Container<'a>> Container<'a> for Spans<SC, LC> {}

impl<SC: Stored, LC: Stored> Stored for Spans<SC, LC> {
    ghost storable = { pair_storable SC.format LC.format SC.storable LC.storable };

    ghost counted = { λ s. two_counted (slices_of (SC.content s.parts.0)) (slices_of (LC.content s.parts.1)) (SC.counted s.parts.0) (LC.counted s.parts.1) };

    fn slice_count() -> usize {
        <(SC, LC)>::slice_count()
    }

    fn element_sizes(sizes: &mut Vec<usize>) -> Result<(), GrowError> {
        <(SC, LC)>::element_sizes(sizes)
    }

    fn judge_tallied<L>(
        store: &DecodedStore<'_>,
        offset: usize,
        tally: &mut Tally<L>,
    ) -> Result<(), StoreFault> {
        <(SC, LC)>::judge_tallied(store, offset, tally)
    }

    fn rows_in(store: &DecodedStore<'_>, offset: usize) -> usize {
        <(SC, LC)>::rows_in(store, offset)
    }
}

impl<SC: Check + Len, LC: Check + Len> Check for Spans<SC, LC> {
    fn check_from_tallied<L>(&self, from: usize, tally: &mut Tally<L>) -> Result<(), StoreFault> {
        self.parts.check_from_tallied(from, tally)
    }
}

impl<'s, SC: FromBytes<'s>, LC: FromBytes<'s>> FromBytes<'s> for Spans<SC, LC> {
    fn from_store(store: &DecodedStore<'s>, offset: &mut usize) -> Self {
        let parts = <(SC, LC)>::from_store(store, offset);
        Spans { parts }
    }
}

impl<'s, SC: AsBytes<'s>, LC: AsBytes<'s>> AsBytes<'s> for Spans<SC, LC> {
    fn get_byte_slice(&self, index: usize) -> (u64, ByteSlice<'s>) {
        self.parts.get_byte_slice(index)
    }
}

impl<SC: ContainerBytes + Drop, LC: ContainerBytes> ContainerBytes for Spans<SC, LC> {
    fn byte_slice(&self, index: usize) -> ByteSlice<'_> {
        self.parts.byte_slice(index)
    }

    fn load(alloc: Global, store: &DecodedStore<'_>, offset: usize) -> Result<Self, GrowError> {
        let parts = <(SC, LC)>::load(alloc, store, offset)?;
        Ok(Spans { parts })
    }
}

//! Growth, cuts and views of columns of your own rows: those of the parts.
use crate::rows::{OwnRow, OwnRows};
use columnar_base::fault::GrowError;
use columnar_base::traits::{Clear, Column};
use columnar_core::container::{
    Borrow, Container, ExtendFrom, Reborrow, ReborrowRef, Reserve, Storage, Truncate,
};
use std::alloc::Global;
use std::ops::Range;

impl<P: Clear, K> Clear for OwnRows<P, K> {
    fn clear(&mut self) {
        self.parts.clear();
    }
}

impl<P: Truncate, K> Truncate for OwnRows<P, K> {
    ghost lawful = { P.lawful };

    fn truncate(&mut self, n: usize) {
        self.parts.truncate(n);
    }
}

impl<P: Storage, K> Storage for OwnRows<P, K> {
    fn empty(alloc: Global) -> Self {
        OwnRows::new(P::empty(alloc))
    }

    fn duplicate(&self, alloc: Global) -> Result<Self, GrowError> {
        Ok(OwnRows::new(self.parts.duplicate(alloc)?))
    }
}

impl<P: Reserve, K> Reserve for OwnRows<P, K> {
    type Room = P::Room;

    ghost reserves = { P.reserves };

    ghost covers = { P.covers };

    fn no_room() -> P::Room {
        P::no_room()
    }

    fn reserve_room(&mut self, room: P::Room) -> Result<(), GrowError> {
        self.parts.reserve_room(room)
    }
}

impl<V: Column + Copy, P: ExtendFrom<V>, K> ExtendFrom<OwnRows<V, K>> for OwnRows<P, K> {
    fn add_room(room: P::Room, view: OwnRows<V, K>) -> P::Room {
        P::add_room(room, view.parts)
    }

    fn extend_from_self(
        &mut self,
        view: OwnRows<V, K>,
        range: Range<usize>,
    ) -> Result<(), GrowError> {
        self.parts.extend_from_self(view.parts, range)
    }
}

impl<'a, P: Borrow<'a>, K> Borrow<'a> for OwnRows<P, K> {
    type Ref = OwnRow<<P as Borrow<'a>>::Ref, K>;

    type Borrowed = OwnRows<P::Borrowed, K>;

    type Parts = P::Parts;

    ghost same_format = { P.same_format };

    fn borrow(&'a self) -> OwnRows<P::Borrowed, K> {
        OwnRows::new(self.parts.borrow())
    }
}

impl<'a, P: Container<'a>, K> Container<'a> for OwnRows<P, K> {}

impl<'b, P: Reborrow<'b>, K> Reborrow<'b> for OwnRows<P, K> {
    type Short = OwnRows<P::Short, K>;

    ghost same_short = { P.same_short };

    fn reborrow(self) -> OwnRows<P::Short, K> {
        OwnRows::new(self.parts.reborrow())
    }
}

impl<'b, R: ReborrowRef<'b>, K> ReborrowRef<'b> for OwnRow<R, K> {
    type ShortRef = OwnRow<R::ShortRef, K>;

    fn reborrow_ref(self) -> OwnRow<R::ShortRef, K> {
        OwnRow::new(self.parts.reborrow_ref())
    }
}

//! Tuples of one column.
ghost use Rattle.std.specs.Prelude.{◌≡◌};
ghost use Rattle.columnar_base.specs.Row.{solo};
ghost use Rattle.columnar_base.specs.Solos.{solo_format};
ghost use Rattle.columnar_base.specs.SoloLaws.{solo_lawful};
ghost use Rattle.columnar_base.specs.Room.{solo_room};

use crate::fault::GrowError;
use crate::storage::{Reserve, Storage, Truncate};
use crate::traits::{Clear, Column, Index, Item, Len, Push, PushInto, PushRef};
use std::alloc::Global;

/// Its row is the tuple of its part's row.
impl<P: Item> Item for (P,) {
    ghost meaning = { λ p. solo (P.meaning p.0) };

    ghost valid = { λ p. P.valid p.0 };

    ghost unbuffered = { P.unbuffered };
}

/// The slices of the part. Each row is the tuple of the part's row.
impl<A: Column> Column for (A,) {
    ghost format = { solo_format A.format };

    ghost content = { λ c. A.content c.0 };

    ghost room = { λ c. solo_room (A.room c.0) };
}

impl<A: Len> Len for (A,) {
    fn len(&self) -> usize {
        self.0.len()
    }
}

impl<A: Index> Index for (A,) {
    type Ref = (A::Ref,);

    fn get(&self, index: usize) -> (A::Ref,) {
        (self.0.get(index),)
    }
}

/// Reads rows through a reference: each row is the tuple of the part's row, read through a reference.
impl<'a, A> Index for &'a (A,)
where
    A: Column,
    &'a A: Index,
{
    type Ref = (<&'a A as Index>::Ref,);

    fn get(&self, index: usize) -> (<&'a A as Index>::Ref,) {
        let column: &'a (A,) = *self;
        let first: &'a A = &column.0;
        (first.get(index),)
    }
}

impl<A: Clear> Clear for (A,) {
    fn clear(&mut self) {
        self.0.clear();
    }
}

impl<A: Truncate> Truncate for (A,) {
    ghost lawful = { solo_lawful A.format A.lawful };

    fn truncate(&mut self, n: usize) {
        self.0.truncate(n);
    }
}

impl<A: Storage> Storage for (A,) {
    fn empty(alloc: Global) -> Self {
        (A::empty(alloc),)
    }

    fn duplicate(&self, alloc: Global) -> Result<Self, GrowError> {
        let first = self.0.duplicate(alloc)?;
        Ok((first,))
    }
}

impl<A: Reserve> Reserve for (A,) {
    type Room = (A::Room,);

    ghost reserves = { A.reserves };

    ghost covers = { λ r. solo_room (A.covers r.0) };

    fn no_room() -> (A::Room,) {
        (A::no_room(),)
    }

    fn reserve_room(&mut self, room: (A::Room,)) -> Result<(), GrowError> {
        self.0.reserve_room(room.0)
    }
}

/// Takes every item with `PushInto`: tuples of one item of the part, by value or by reference.
impl<Z: PushInto<(A,)>, A: Column> Push<Z> for (A,) {
    #[inline(always)]
    fn push(&mut self, item: Z) -> Result<(), GrowError> {
        item.push_into(self)
    }
}

/// Pushes the field to the part.
impl<P: Item, A: Push<P>> PushInto<(A,)> for (P,) {
    #[inline(always)]
    fn push_into(self, column: &mut (A,)) -> Result<(), GrowError> {
        let (p,) = self;
        column.0.push(p)
    }
}

/// Pushes the field by reference.
impl<'x, P: Item, A: PushRef<P>> PushInto<(A,)> for &'x (P,) {
    #[inline(always)]
    fn push_into(self, column: &mut (A,)) -> Result<(), GrowError> {
        column.push_ref(self)
    }
}

impl<P: Item, A: PushRef<P>> PushRef<(P,)> for (A,) {
    #[inline(always)]
    fn push_ref(&mut self, item: &(P,)) -> Result<(), GrowError> {
        self.0.push_ref(&item.0)
    }
}
